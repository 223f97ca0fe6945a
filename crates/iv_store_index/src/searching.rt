//! Rows that have the values that a search asks for.
ghost use Rattle.std.specs.Prelude.{◌≡◌, List, filter, true, option_map, IfSome};
ghost use Rattle.iv_value.specs.declared.value.Value.{Value as Cell};
ghost use Rattle.iv_expr.specs.Scopes.{table_rows};
ghost use Rattle.iv_expr.specs.Searches.{AreHolders, AreSharing};
ghost use Rattle.iv_expr.specs.declared.row.StoredRow.{StoredRow};
ghost use Rattle.iv_laws_kept.specs.Kept.{Show, is_kept_under, rows_under};
ghost use Rattle.iv_store_violating.specs.Shown.{shown};
ghost use Rattle.iv_store.specs.Stores.{numbers_of};
ghost use Rattle.iv_store_index.specs.Keys.{columns_of_equal_nulls, key_columns};

use iv_catalogue::{Constraint, Rule};
use iv_expr::TableId;
use iv_key::Key;
use iv_numbers::HeldRows;
use iv_store_faults::Faults;
use iv_store_groups::Groups;
use iv_syntax::NullTreatment;
use iv_value::Value;
use sqlite_items::at;

// The columns by whose keys a rule keeps rows.
fn key_columns(rule: &Rule) -> Option<&[u32]>
    ensures { option_map (λ c. c.now) result ≡ key_columns rule.now }
{
    match rule {
        Rule::PrimaryKey(columns) => Some(columns.as_slice()),
        Rule::Unique(_, columns) => Some(columns.as_slice()),
        Rule::ForeignKey(key) => Some(key.columns.as_slice()),
        _ => None,
    }
}

// The rows of a constraint whose key has the values asked for, if the constraint is of a key on the table and a value
// is asked for in each of its columns.
fn held_by<'a>(
    groups: &'a Groups,
    constraint: &Constraint,
    id: usize,
    table: TableId,
    asked: &[Value],
) -> Option<HeldRows<'a>>
    ensures { IfSome result (λ numbers. (rows : List StoredRow)
        → ((k : List Cell) → rows_under (shown groups.entry.now.groups) id k ≡ numbers_of (filter (is_kept_under constraint.now k) rows))
        → AreHolders asked.now (table_rows rows table) numbers) }
{
    if constraint.table.place() != table.place() {
        return None;
    }
    let columns = key_columns(&constraint.rule)?;
    let key = Key::new(columns, asked);
    if key.none_null() {
        Some(groups.holders(id, &key))
    } else {
        None
    }
}

// The rows of the constraint of this number whose key has the values asked for.
fn held_at<'a>(
    groups: &'a Groups,
    constraints: &[Constraint],
    id: usize,
    table: TableId,
    asked: &[Value],
) -> Option<HeldRows<'a>>
    ensures { IfSome result (λ numbers. (rows : List StoredRow) → Show rows constraints.now (shown groups.entry.now.groups)
        → AreHolders asked.now (table_rows rows table) numbers) }
{
    match at(constraints, id) {
        Some(constraint) => held_by(groups, constraint, id, table, asked),
        None => None,
    }
}

// The rows of the first of these constraints that has such rows.
fn first_held<'a>(
    groups: &'a Groups,
    constraints: &[Constraint],
    ids: &[u32],
    table: TableId,
    asked: &[Value],
) -> Option<HeldRows<'a>>
    ensures { IfSome result (λ numbers. (rows : List StoredRow) → Show rows constraints.now (shown groups.entry.now.groups)
        → AreHolders asked.now (table_rows rows table) numbers) }
{
    for id in ids {
        if let Some(found) = held_at(groups, constraints, *id as usize, table, asked) {
            return Some(found);
        }
    }
    None
}

/// The rows of a table among which are all that have the values asked for: those of a UNIQUE or PRIMARY KEY with a
/// value for each of its columns, or else of a foreign key; nothing if there is no such constraint. It isn't counted as
/// a look-up, and takes a step for each constraint of the table.
pub fn holders<'a>(
    groups: &'a Groups,
    faults: &'a Faults,
    table: TableId,
    asked: &[Value],
) -> Option<HeldRows<'a>>
    ensures { IfSome result (λ numbers. (rows : List StoredRow) → Show rows faults.entry.now.constraints (shown groups.entry.now.groups)
        → AreHolders asked.now (table_rows rows table) numbers) }
{
    let constraints = faults.constraints();
    match first_held(groups, constraints, faults.on_table(table), table, asked) {
        Some(held) => Some(held),
        None => first_held(
            groups,
            constraints,
            faults.foreign_keys_of(table),
            table,
            asked,
        ),
    }
}

// The columns of a UNIQUE in which nulls are equal.
fn columns_of_equal_nulls(rule: &Rule) -> Option<&[u32]>
    ensures { option_map (λ c. c.now) result ≡ columns_of_equal_nulls rule.now }
{
    match rule {
        Rule::Unique(nulls, columns) => match nulls {
            NullTreatment::Distinct => None,
            NullTreatment::NotDistinct => Some(columns.as_slice()),
        },
        _ => None,
    }
}

// Whether these are the same columns in the same order.
fn are_equal(some: &[u32], others: &[u32]) -> bool
    ensures { result ≡ true → some.now ≡ others.now }
{
    some == others
}

// The rows of a constraint that have a row's values in these columns, if it is a UNIQUE of the table over the same columns in
// which nulls are equal.
fn shared_by<'a>(
    groups: &'a Groups,
    constraint: &Constraint,
    id: usize,
    table: TableId,
    columns: &[u32],
    row: &[Value],
) -> Option<HeldRows<'a>>
    ensures { IfSome result (λ numbers. (rows : List StoredRow)
        → ((k : List Cell) → rows_under (shown groups.entry.now.groups) id k ≡ numbers_of (filter (is_kept_under constraint.now k) rows))
        → AreSharing columns.now row.now (table_rows rows table) numbers) }
{
    if table.place() != constraint.table.place() {
        return None;
    }
    let own = columns_of_equal_nulls(&constraint.rule)?;
    if are_equal(own, columns) {
        Some(groups.holders(id, &Key::new(columns, row)))
    } else {
        None
    }
}

// The same of the constraint of a number.
fn shared_at<'a>(
    groups: &'a Groups,
    constraints: &[Constraint],
    id: usize,
    table: TableId,
    columns: &[u32],
    row: &[Value],
) -> Option<HeldRows<'a>>
    ensures { IfSome result (λ numbers. (rows : List StoredRow) → Show rows constraints.now (shown groups.entry.now.groups)
        → AreSharing columns.now row.now (table_rows rows table) numbers) }
{
    match at(constraints, id) {
        Some(constraint) => shared_by(groups, constraint, id, table, columns, row),
        None => None,
    }
}

/// The rows of a table that have a row's values in these columns, with a null the same as a null: those of the first
/// UNIQUE over the same columns in which nulls are equal, or nothing. It isn't counted as a look-up, and takes a step
/// for each constraint of the table.
pub fn sharing<'a>(
    groups: &'a Groups,
    faults: &'a Faults,
    table: TableId,
    columns: &[u32],
    row: &[Value],
) -> Option<HeldRows<'a>>
    ensures { IfSome result (λ numbers. (rows : List StoredRow) → Show rows faults.entry.now.constraints (shown groups.entry.now.groups)
        → AreSharing columns.now row.now (table_rows rows table) numbers) }
{
    let constraints = faults.constraints();
    for id in faults.on_table(table) {
        if let Some(found) = shared_at(groups, constraints, *id as usize, table, columns, row) {
            return Some(found);
        }
    }
    None
}
