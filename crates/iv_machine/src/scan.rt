//! The plain program of the scan: whether a row satisfies a constraint, the first violation, how many there are, and
//! all of them. It looks at whole lists: `satisfies` takes time in proportion to the rows, and a scan to the square of
//! the rows of each table times the chosen constraints, but only to the rows for CHECK and NOT NULL.
ghost use Rattle.std.specs.Prelude.{◌≡◌, ◌++◌, ◌≤◌, ◌+◌, ◌*◌, ◌-◌, ◌^◌, ◌&&◌, ◌||◌, ℕ, not, length, filter, map, min, option_map, find};
ghost use Rattle.std.specs.Prelude.{if◌then◌else◌, [], IfOk, OnOk, OnErr, ◌==◌, slice_get};
ghost use Rattle.std.specs.List.{list_any};
ghost use Rattle.iv_value.specs.Truths.{is_false};
ghost use Rattle.iv_value.specs.Values.{is_null};
ghost use Rattle.iv_expr.specs.Scopes.{table_rows};
ghost use Rattle.iv_key.specs.Keys.{value_at, key_of, none_null, all_null};
ghost use Rattle.iv_machine.specs.Databases.{shares_key, is_unique, has_referenced, matches, obeys, satisfies, violates, fault_at, violations};
ghost use Rattle.iv_machine.specs.Databases.{chosen_violations, is_deferred, is_chosen, scan, first};

use crate::database::Which;
use iv_catalogue::{
    Constraint, ConstraintId, Fault, ForeignKey, MOST_CONSTRAINTS, MOST_TABLES, Rule,
};
use iv_expr::{StoredRow, TableId, check_truth};
use iv_key::{Key, value_at};
use iv_syntax::{ConstraintMode, MatchType, NullTreatment};
use iv_value::{Truth, Value};
use std::alloc::{AllocError, Global};

// Whether another row has this row's key.
fn shares_key(nulls: NullTreatment, columns: &[u32], row: &StoredRow, other: &StoredRow) -> bool
    ensures { result ≡ shares_key nulls columns.now row.now other.now }
{
    let key = Key::new(columns, other.values.values());
    let may_be_same = match nulls {
        NullTreatment::Distinct => key.none_null(),
        NullTreatment::NotDistinct => true,
    };
    other.number != row.number && may_be_same && key.same(&Key::new(columns, row.values.values()))
}

fn is_unique(
    rows: &[StoredRow],
    table: TableId,
    nulls: NullTreatment,
    columns: &[u32],
    row: &StoredRow,
) -> bool
    ensures { result ≡ is_unique rows.now table nulls columns.now row.now }
{
    for other in rows {
        if other.table == table && shares_key(nulls, columns, row, other) {
            return false;
        }
    }
    true
}

// Whether the key of a referencing row is that of a referenced one.
fn has_referenced(rows: &[StoredRow], reference: &ForeignKey, row: &[Value]) -> bool
    ensures { result ≡ has_referenced rows.now reference.now (key_of reference.now.columns row.now) }
{
    let key = Key::new(reference.columns.as_slice(), row);
    for other in rows {
        if other.table == reference.referenced
            && Key::new(reference.key.as_slice(), other.values.values()).same(&key)
        {
            return true;
        }
    }
    false
}

fn matches(rows: &[StoredRow], reference: &ForeignKey, row: &[Value]) -> bool
    ensures { result ≡ matches reference.now.matching rows.now reference.now
        (key_of reference.now.columns row.now) }
{
    let key = Key::new(reference.columns.as_slice(), row);
    match reference.matching {
        MatchType::Simple => !key.none_null() || has_referenced(rows, reference, row),
        MatchType::Full => {
            key.all_null() || (key.none_null() && has_referenced(rows, reference, row))
        }
    }
}

fn passes_check(truth: Truth) -> bool
    ensures { result ≡ not (is_false truth) }
{
    !matches!(truth, Truth::False)
}

// Whether a row of a table obeys a rule on it.
fn obeys(rows: &[StoredRow], table: TableId, rule: &Rule, row: &StoredRow) -> bool
    ensures { result ≡ obeys rows.now table rule.now row.now }
{
    match rule {
        Rule::NotNull(column) => !value_at(row.values.values(), *column).is_null(),
        Rule::Check(condition) => passes_check(check_truth(condition, row.values.values())),
        Rule::Unique(nulls, columns) => is_unique(rows, table, *nulls, columns.as_slice(), row),
        Rule::PrimaryKey(columns) => {
            Key::new(columns.as_slice(), row.values.values()).none_null()
                && is_unique(
                    rows,
                    table,
                    NullTreatment::Distinct,
                    columns.as_slice(),
                    row,
                )
        }
        Rule::ForeignKey(key) => matches(rows, key, row.values.values()),
    }
}

/// Whether a row of a constraint's table satisfies it, among these rows.
pub fn satisfies(rows: &[StoredRow], constraint: &Constraint, row: &StoredRow) -> bool
    ensures { result ≡ satisfies rows.now constraint.now row.now }
{
    obeys(rows, constraint.table, &constraint.rule, row)
}

// Whether the constraint of this number is one of those.
fn is_chosen(modes: &[ConstraintMode], which: Which, id: u32) -> bool
    ensures { result ≡ is_chosen modes.now which id }
{
    let deferred = matches!(modes.get(id as usize), Some(ConstraintMode::Deferred));
    match which {
        Which::Immediate => !deferred,
        Which::Deferred => deferred,
        Which::All => true,
    }
}

// Whether a row is one of the constraint's table and violates it.
fn violates(rows: &[StoredRow], constraint: &Constraint, row: &StoredRow) -> bool
    ensures { result ≡ violates rows.now constraint.now row.now }
{
    row.table == constraint.table && !satisfies(rows, constraint, row)
}

/// The number of the first row that violates a constraint.
pub fn first_violating(rows: &[StoredRow], constraint: &Constraint) -> Option<u64>
    ensures { result ≡
        option_map (λ r. r.number) (find (violates rows.now constraint.now) rows.now) }
{
    rows.iter()
        .find(|row| violates(rows, constraint, row))
        .map(|row| row.number)
}

/// The first violation of a constraint, by row, if the constraint of this number is chosen.
#[tactic(auto, using(crate::proofs::Firsts::first_of_violations))]
pub fn first_fault_of(
    rows: &[StoredRow],
    modes: &[ConstraintMode],
    which: Which,
    id: u32,
    constraint: &Constraint,
) -> Option<Fault>
    ensures { result ≡
        first (chosen_violations rows.now (is_chosen modes.now which) id constraint.now) }
{
    if !is_chosen(modes, which, id) {
        return None;
    }
    match first_violating(rows, constraint) {
        Some(row) => Some(Fault {
            constraint: ConstraintId::new(id),
            row,
        }),
        None => None,
    }
}

// How many rows violate the constraint.
fn count_rows(rows: &[StoredRow], constraint: &Constraint) -> usize
    ensures { result ≡ length (filter (violates rows.now constraint.now) rows.now) }
{
    let mut count = 0usize;
    for row in rows {
        if violates(rows, constraint, row) {
            count += 1;
        }
    }
    count
}

// How many violations of a constraint there are, if it is chosen.
#[tactic(auto, using(crate::proofs::Firsts::count_of_violations))]
fn count_of(
    rows: &[StoredRow],
    modes: &[ConstraintMode],
    which: Which,
    id: u32,
    constraint: &Constraint,
) -> usize
    ensures { result ≡
        length (chosen_violations rows.now (is_chosen modes.now which) id constraint.now) }
{
    if is_chosen(modes, which, id) {
        count_rows(rows, constraint)
    } else {
        0
    }
}

/// How many violations the scan finds; the count stays at 2^64 - 1 once it is there. It allocates nothing.
pub fn count_faults(
    rows: &[StoredRow],
    constraints: &[Constraint],
    modes: &[ConstraintMode],
    which: Which,
) -> u64
    requires { length constraints.now ≤ MOST_TABLES * MOST_CONSTRAINTS }
    ensures { result ≡
        min (length (scan rows.now constraints.now (is_chosen modes.now which))) (2 ^ 64 - 1) }
{
    let mut id = 0u32;
    let mut count = 0u64;
    for constraint in constraints {
        count = count.saturating_add(count_of(rows, modes, which, id, constraint) as u64);
        id += 1;
    }
    count
}

// Adds the violations of a constraint.
fn push_rows(
    faults: &mut Vec<Fault>,
    rows: &[StoredRow],
    id: u32,
    constraint: &Constraint,
) -> Result<(), AllocError>
    ensures { OnOk result (faults.new.items ≡
        faults.old.items ++ violations rows.now id constraint.now) }
{
    for row in rows {
        if violates(rows, constraint, row) {
            faults.push(Fault {
                constraint: ConstraintId::new(id),
                row: row.number,
            })?;
        }
    }
    Ok(())
}

// Adds the violations of a constraint, if it is chosen.
fn push_faults(
    faults: &mut Vec<Fault>,
    rows: &[StoredRow],
    modes: &[ConstraintMode],
    which: Which,
    id: u32,
    constraint: &Constraint,
) -> Result<(), AllocError>
    ensures { OnOk result (faults.new.items ≡
        faults.old.items
        ++ chosen_violations rows.now (is_chosen modes.now which) id constraint.now) }
{
    if is_chosen(modes, which, id) {
        push_rows(faults, rows, id, constraint)
    } else {
        Ok(())
    }
}

/// All violations that the scan finds, in creation order of the constraints, then by row.
pub fn list_faults(
    alloc: Global,
    rows: &[StoredRow],
    constraints: &[Constraint],
    modes: &[ConstraintMode],
    which: Which,
) -> Result<Vec<Fault>, AllocError>
    requires { length constraints.now ≤ MOST_TABLES * MOST_CONSTRAINTS }
    ensures { IfOk result (λ faults. faults.items ≡
        scan rows.now constraints.now (is_chosen modes.now which)) }
{
    let mut faults = Vec::new(alloc);
    let mut id = 0u32;
    for constraint in constraints {
        push_faults(&mut faults, rows, modes, which, id, constraint)?;
        id += 1;
    }
    Ok(faults)
}
