//! The rows that hold a key by a foreign key.
ghost use Rattle.std.specs.Prelude.{◌≡◌, ◌+◌, ◌≤◌, [], List, filter, if◌then◌else◌, IfOk};
ghost use Rattle.iv_value.specs.declared.value.Value.{Value};
ghost use Rattle.iv_expr.specs.declared.row.StoredRow.{StoredRow};
ghost use Rattle.iv_store_groups.specs.Groups.{groups_of, rows_of};
ghost use Rattle.iv_key.specs.Keys.{none_null};
ghost use Rattle.iv_machine.specs.ReferentialActions.{reference};
ghost use Rattle.iv_store_violating.specs.Shown.{shown};
ghost use Rattle.iv_laws_kept.specs.Kept.{Show, is_kept_under, rows_under};
ghost use Rattle.iv_store.specs.Lookups.{counted, counted_by};
ghost use Rattle.iv_store.specs.Stores.{numbers_by, numbers_of, reference_at};

use iv_catalogue::{Constraint, Rule};
use iv_key::Key;
use iv_store_groups::CountedGroups;
use std::alloc::{AllocError, Global};

// The rows of a key of a constraint, if the key has no null.
fn holders(
    alloc: Global,
    groups: &mut CountedGroups,
    id: usize,
    key: &Key<'_>,
) -> Result<Vec<u64>, AllocError>
    ensures numbers { IfOk result (λ v. v.items
        ≡ (if none_null key.now then rows_of (groups_of groups.old.groups id) key.now else [])) }
    ensures kept { groups.new.groups ≡ groups.old.groups }
    ensures grows { groups.old.looked_up ≤ groups.new.looked_up }
    ensures looked_up { groups.new.looked_up ≤ groups.old.looked_up + 1 }
    ensures counted { groups.new.looked_up ≡
        (if none_null key.now then counted groups.old.looked_up else groups.old.looked_up) }
{
    if !key.none_null() {
        return Ok(Vec::new(alloc));
    }
    groups.list_rows(id, key)
}

// The numbers of the rows that hold a key by a constraint, if it is a foreign key.
fn children_by(
    alloc: Global,
    groups: &mut CountedGroups,
    id: usize,
    constraint: &Constraint,
    key: &Key<'_>,
) -> Result<Vec<u64>, AllocError>
    ensures numbers { IfOk result (λ v. (rows : List StoredRow)
        → ((k : List Value) → rows_under (shown groups.old.groups) id k ≡ numbers_of (filter (is_kept_under constraint.now k) rows))
        → v.items ≡ numbers_by rows key.now (reference (id, constraint.now))) }
    ensures kept { groups.new.groups ≡ groups.old.groups }
    ensures grows { groups.old.looked_up ≤ groups.new.looked_up }
    ensures looked_up { groups.new.looked_up ≤ groups.old.looked_up + 1 }
    ensures counted { groups.new.looked_up ≡
        counted_by key.now (reference (id, constraint.now)) groups.old.looked_up }
{
    match &constraint.rule {
        Rule::ForeignKey(_) => holders(alloc, groups, id, key),
        _ => Ok(Vec::new(alloc)),
    }
}

/// The numbers of the rows that hold a key by the constraint of this number, if it is a foreign key. It takes one
/// look-up, unless there is no such foreign key or the key has a null, and the time to copy the numbers.
pub fn children(
    alloc: Global,
    groups: &mut CountedGroups,
    constraints: &[Constraint],
    id: usize,
    key: &Key<'_>,
) -> Result<Vec<u64>, AllocError>
    ensures numbers { IfOk result (λ v. (rows : List StoredRow) → Show rows constraints.now (shown groups.old.groups)
        → v.items ≡ numbers_by rows key.now (reference_at constraints.now id)) }
    ensures kept { groups.new.groups ≡ groups.old.groups }
    ensures grows { groups.old.looked_up ≤ groups.new.looked_up }
    ensures looked_up { groups.new.looked_up ≤ groups.old.looked_up + 1 }
    ensures counted { groups.new.looked_up ≡
        counted_by key.now (reference_at constraints.now id) groups.old.looked_up }
{
    match constraints.get(id) {
        Some(constraint) => children_by(alloc, groups, id, constraint, key),
        None => Ok(Vec::new(alloc)),
    }
}
