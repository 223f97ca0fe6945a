//! The groups of a constraint that is to be watched: its rows enter them, and the first row that violates it is found.
ghost use Rattle.std.specs.Prelude.{◌≡◌, ◌≢◌, ℕ, ◌+◌, ◌*◌, ◌<◌, ◌≤◌, ◌++◌, ◌∷◌, [], List, length, filter, find, option_map};
ghost use Rattle.std.specs.Prelude.{slice_get, Some, None, false, IfOk, OnOk};
ghost use Rattle.iv_value.specs.declared.value.Value.{Value};
ghost use Rattle.iv_value.specs.Values.{all_same};
ghost use Rattle.iv_catalogue.specs.declared.constraint.Constraint.{Constraint};
ghost use Rattle.iv_catalogue.specs.declared.limits.TheConstants.{MOST_CONSTRAINTS, MOST_TABLES};
ghost use Rattle.iv_expr.specs.Scopes.{Rises};
ghost use Rattle.iv_machine.specs.Databases.{violates};
ghost use Rattle.iv_store.specs.Stores.{numbers_of};
ghost use Rattle.iv_store_groups.specs.Groups.{groups_of};
ghost use Rattle.iv_store_violating.specs.Shown.{shown, shown_of};
ghost use Rattle.iv_laws_kept.specs.Kept.{AllNamed, Show, is_kept_under, kept_key, rows_in};
ghost use Rattle.iv_store_following.specs.declared.reference.KeyReference.{KeyReference as Refers};
ghost use Rattle.iv_store_faults.specs.Violating.{IsReferring, violates_by};
ghost use Rattle.iv_store_following.specs.References.{AreReferences, TellsReferenced, reference_at};
ghost use Rattle.iv_store_following.specs.BorrowedChange.{come, is_key};

use crate::naming::references_of;
use iv_catalogue::Constraint;
use iv_expr::Rows;
use iv_key::Key;
use iv_store_following::{
    KeyReference, is_referenced, kept_key, make_room, put, reference_at, violate,
};
use iv_store_groups::{CountedGroups, Groups};
use iv_value::Value;
use std::alloc::{AllocError, Global};
use std::slice;

// Adds a row under a key of a constraint.
fn enter(
    groups: &mut CountedGroups,
    id: usize,
    key: &Key<'_>,
    number: u64,
) -> Result<(), AllocError>
    requires { id < length groups.old.groups }
    ensures rows { OnOk result ((other : List Value) → rows_in (shown_of groups.new.groups id) other
        ≡ come (all_same key.now other) number (rows_in (shown_of groups.old.groups id) other)) }
    ensures others { (k : ℕ) → k ≢ id → groups_of groups.new.groups k ≡ groups_of groups.old.groups k }
    ensures count { length groups.new.groups ≡ length groups.old.groups }
    ensures grows { groups.old.looked_up ≤ groups.new.looked_up }
{
    make_room(groups, id, key)?;
    put(groups, id, key, number);
    Ok(())
}

// Adds a row under the key that a constraint keeps it under, if it keeps it.
fn fill_row(
    groups: &mut Groups,
    id: usize,
    constraint: &Constraint,
    number: u64,
    row: &[Value],
) -> Result<(), AllocError>
    requires { id < length groups.old.groups }
    ensures rows { OnOk result ((key : List Value) → rows_in (shown_of groups.new.groups id) key
        ≡ come (is_key (kept_key constraint.now.rule row.now) key) number (rows_in (shown_of groups.old.groups id) key)) }
    ensures others { (k : ℕ) → k ≢ id → groups_of groups.new.groups k ≡ groups_of groups.old.groups k }
    ensures count { length groups.new.groups ≡ length groups.old.groups }
    ensures grows { groups.old.looked_up ≤ groups.new.looked_up }
{
    match kept_key(&constraint.rule, row) {
        Some(key) => enter(groups.counted(), id, &key, number),
        None => Ok(()),
    }
}

// Adds all rows of the constraint's table.
fn fill_rows<R: Rows>(
    groups: &mut Groups,
    id: usize,
    constraint: &Constraint,
    rows: &R,
) -> Result<(), AllocError>
    requires known { id < length groups.old.groups }
    requires free { groups_of groups.old.groups id ≡ [] }
    ensures rows { OnOk result ((key : List Value) → rows_in (shown_of groups.new.groups id) key
        ≡ numbers_of (filter (is_kept_under constraint.now key) (R.rows rows.now))) }
    ensures others { (k : ℕ) → k ≢ id → groups_of groups.new.groups k ≡ groups_of groups.old.groups k }
    ensures count { length groups.new.groups ≡ length groups.old.groups }
    ensures grows { groups.old.looked_up ≤ groups.new.looked_up }
{
    rows.recall_order();
    let mut after = 0;
    while let Some((number, row)) = rows.scan(constraint.table, after) {
        after = number;
        fill_row(groups, id, constraint, number, row)?;
    }
    Ok(())
}

// Whether the key of a row is referenced, if the constraint is a foreign key, whose reference comes first.
fn refers(groups: &mut Groups, references: &[Option<KeyReference>], row: &[Value]) -> bool
    requires { (r : Refers) → reference_at references.now 0 ≡ Some r → r.named < length groups.old.groups }
    ensures told { (r : Refers) → reference_at references.now 0 ≡ Some r
        → TellsReferenced r row.now (shown_of groups.old.groups r.named) result }
    ensures kept { groups.new.groups ≡ groups.old.groups }
    ensures grows { groups.old.looked_up ≤ groups.new.looked_up }
{
    match reference_at(references, 0) {
        Some(r) => is_referenced(groups.counted(), r, row),
        None => false,
    }
}

// How many rows are under a key of a constraint. It isn't counted as a look-up.
fn count_under(groups: &Groups, id: usize, key: &Key<'_>) -> usize
    ensures { result ≡ length (rows_in (shown_of groups.now.groups id) key.now) }
{
    groups.holders(id, key).len()
}

// Whether the rows that a constraint keeps with a row violate it.
fn is_violating(
    groups: &mut Groups,
    id: usize,
    constraint: &Constraint,
    references: &[Option<KeyReference>],
    row: &[Value],
) -> bool
    requires { (r : Refers) → reference_at references.now 0 ≡ Some r → r.named < length groups.old.groups }
    ensures violating { (constraints : List Constraint) → AllNamed constraints
        → slice_get constraints id ≡ Some constraint.now
        → IsReferring constraints constraint.now (reference_at references.now 0)
        → result ≡ violates_by constraints (shown groups.old.groups) id constraint.now (kept_key constraint.now.rule row.now) }
    ensures kept { groups.new.groups ≡ groups.old.groups }
    ensures grows { groups.old.looked_up ≤ groups.new.looked_up }
{
    match kept_key(&constraint.rule, row) {
        Some(key) => {
            let referenced = refers(groups, references, row);
            let count = count_under(groups, id, &key);
            violate(&constraint.rule, &key, count, referenced)
        }
        None => false,
    }
}

// The number of the first row that violates a constraint whose groups show its rows.
fn first_violating<R: Rows>(
    groups: &mut Groups,
    id: usize,
    constraint: &Constraint,
    references: &[Option<KeyReference>],
    rows: &R,
) -> Option<u64>
    requires { (r : Refers) → reference_at references.now 0 ≡ Some r → r.named < length groups.old.groups }
    ensures first { (constraints : List Constraint) → AllNamed constraints
        → slice_get constraints id ≡ Some constraint.now
        → IsReferring constraints constraint.now (reference_at references.now 0)
        → Show (R.rows rows.now) constraints (shown groups.old.groups)
        → result ≡ option_map (λ r. r.number) (find (violates (R.rows rows.now) constraint.now) (R.rows rows.now)) }
    ensures kept { groups.new.groups ≡ groups.old.groups }
    ensures grows { groups.old.looked_up ≤ groups.new.looked_up }
{
    rows.recall_order();
    let mut after = 0;
    while let Some((number, row)) = rows.scan(constraint.table, after) {
        after = number;
        if is_violating(groups, id, constraint, references, row) {
            return Some(number);
        }
    }
    None
}

/// Fills the groups of a constraint that comes after these with the rows of its table, and finds the first row that
/// violates it. It looks at each row of the table twice.
pub fn fill<R: Rows>(
    alloc: Global,
    groups: &mut Groups,
    olds: &[Constraint],
    olds_references: &[Option<KeyReference>],
    constraint: &Constraint,
    rows: &R,
) -> Result<Option<u64>, AllocError>
    requires named { AllNamed (olds.now ++ constraint.now ∷ []) }
    requires references { AreReferences olds.now olds_references.now }
    requires beside { length olds_references.now ≡ length olds.now }
    requires few { length olds.now < MOST_TABLES * MOST_CONSTRAINTS }
    requires known { length olds.now < length groups.old.groups }
    requires free { groups_of groups.old.groups (length olds.now) ≡ [] }
    requires shown { Show (R.rows rows.now) olds.now (shown groups.old.groups) }
    ensures shown { OnOk result (Show (R.rows rows.now) (olds.now ++ constraint.now ∷ []) (shown groups.new.groups)) }
    ensures first { IfOk result (λ found. found
        ≡ option_map (λ r. r.number) (find (violates (R.rows rows.now) constraint.now) (R.rows rows.now))) }
    ensures others { (k : ℕ) → k ≢ length olds.now → groups_of groups.new.groups k ≡ groups_of groups.old.groups k }
    ensures count { length groups.new.groups ≡ length groups.old.groups }
    ensures grows { groups.old.looked_up ≤ groups.new.looked_up }
{
    let references = references_of(alloc, olds, slice::from_ref(constraint))?;
    fill_rows(groups, olds.len(), constraint, rows)?;
    Ok(first_violating(groups, olds.len(), constraint, references.as_slice(), rows))
}
