//! The rows where a condition is true. No row is copied to look at it.
ghost use Rattle.std.specs.Prelude.{◌≡◌, ◌<◌, ◌≤◌, ◌+◌, ◌^◌, ◌++◌, ◌∷◌, [], Ok, pos, IfOk};
ghost use Rattle.std.specs.Option.{option_copied};
ghost use Rattle.iv_expr.specs.Scopes.{contents, side_of, table_rows, within};
ghost use Rattle.iv_value.specs.declared.value.Value.TheVariants as variant;
ghost use Rattle.iv_expr.specs.Evaluation.{and_then};
ghost use Rattle.iv_machine.specs.Databases.{row_at};
ghost use Rattle.iv_machine.specs.Proposals.{holds, matching_rows};
ghost use Rattle.iv_exec_context.specs.Answering.{AnswersCause};
ghost use Rattle.iv_exec_proposals.specs.Steps.{added_of_numbers, added_of_row, number_taken, numbers_taken, row_counted, row_taken};
ghost use Rattle.iv_exec_proposals.specs.Steps.{rows_counted, side_taken, sides_taken};

use iv_catalogue::Cause;
use iv_exec_context::holds;
use iv_expr::{Change, Cond, Row, Rows, Scope, Side, TableId};
use iv_store::{ChangeableRows, ReferencingRows};
use iv_value::Value;
use std::alloc::Global;

// Whether a condition takes effect at a row.
fn holds_at<R: Rows>(filter: &Cond, row: &[Value], scope: &Scope<'_, R>) -> Result<bool, Cause>
    ensures { result ≡ holds (within scope.now row.now) filter.now }
{
    let ranges = scope.ranges_with(row);
    holds(filter, &scope.over(&ranges))
}

// Adds one item.
pub fn push<T: Drop>(items: &mut Vec<T>, item: T) -> Result<(), Cause>
    ensures { AnswersCause (λ _. items.new.items) result (Ok (items.old.items ++ item ∷ [])) }
{
    items.push(item)?;
    Ok(())
}

// ---- by number

fn take_number<R: Rows>(
    scope: &Scope<'_, R>,
    filter: &Cond,
    number: u64,
    row: &[Value],
    found: &mut Vec<u64>,
) -> Result<(), Cause>
    ensures { AnswersCause (λ _. found.new.items) result
        (number_taken scope.now filter.now number row.now found.old.items) }
{
    if holds_at(filter, row, scope)? {
        push(found, number)
    } else {
        Ok(())
    }
}

/// The numbers of the rows of a table where a condition is true. If the condition asks for a key, it looks only at the
/// rows of that key.
pub fn numbers_where<R: Rows>(
    alloc: Global,
    scope: &Scope<'_, R>,
    table: TableId,
    filter: &Cond,
) -> Result<Vec<u64>, Cause>
    ensures { AnswersCause (λ v. v.items) result
        (numbers_taken scope.now filter.now (table_rows scope.now.rows table)) }
{
    let mut found = Vec::new(alloc);
    let mut after = 0;
    let search = scope.search(table, filter);
    search.recall_order();
    while let Some((number, row)) = search.next(after) {
        after = number;
        take_number(scope, filter, number, row, &mut found)?;
    }
    Ok(found)
}

fn count_row<R: Rows>(
    scope: &Scope<'_, R>,
    filter: &Cond,
    row: &[Value],
    found: u64,
) -> Result<u64, Cause>
    requires { found < 2 ^ 63 }
    ensures answer { result ≡ row_counted scope.now filter.now row.now found }
    ensures grows { IfOk result (λ more. more ≤ found + 1) }
{
    if holds_at(filter, row, scope)? {
        Ok(found + 1)
    } else {
        Ok(found)
    }
}

/// How many rows of a table there are where a condition is true. If the condition asks for a key, it looks only at the
/// rows of that key, and allocates only for that search.
pub fn count_where<R: Rows>(
    scope: &Scope<'_, R>,
    table: TableId,
    filter: &Cond,
) -> Result<Value, Cause>
    ensures { result ≡ and_then
        (rows_counted scope.now filter.now (table_rows scope.now.rows table))
        (λ n. Ok (variant.Int (pos n))) }
{
    let mut found = 0;
    let mut after = 0;
    let search = scope.search(table, filter);
    search.recall_order();
    while let Some((number, row)) = search.next(after) {
        after = number;
        found = count_row(scope, filter, row, found)?;
    }
    Ok(Value::Int(found as i64))
}

// ---- rows

// Adds the row of a number, if it is there.
fn push_row<K: ReferencingRows>(store: &K, number: u64, rows: &mut Vec<Row>) -> Result<(), Cause>
    ensures { AnswersCause (λ _. rows.new.items) result
        (added_of_row (λ r. Ok r.values)
        (row_at (K.view store.now).base.rows number) rows.old.items) }
{
    match store.row(number) {
        Some(row) => push(rows, row.values.clone()?),
        None => Ok(()),
    }
}

/// The rows of these numbers, which share their values.
pub fn rows_numbered<K: ReferencingRows>(store: &K, numbers: &[u64]) -> Result<Vec<Row>, Cause>
    ensures { AnswersCause (λ v. v.items) result
        (added_of_numbers (λ r. Ok r.values) (K.view store.now).base.rows numbers.now) }
{
    let mut rows = Vec::new(store.allocator());
    for number in numbers {
        push_row(store, *number, &mut rows)?;
    }
    Ok(rows)
}

/// The rows of a table where a condition is true; they share their values.
pub fn rows_where<K: ChangeableRows>(
    store: &K,
    scope: &Scope<'_, K>,
    table: TableId,
    filter: &Cond,
) -> Result<Vec<Row>, Cause>
    requires { scope.now.rows ≡ (K.view store.now).base.rows }
    ensures { AnswersCause (λ v. v.items) result
        (and_then (matching_rows scope.now filter.now (table_rows scope.now.rows table))
        (λ found. Ok (contents found))) }
{
    scope.recall_order();
    let numbers = numbers_where(store.allocator(), scope, table, filter)?;
    rows_numbered(store, numbers.as_slice())
}

// ---- transition tables

fn row_on(side: Side, change: &Change) -> Option<&Row>
    ensures { option_copied result ≡ side_of side change.now }
{
    match side {
        Side::Old => change.old.as_ref(),
        Side::New => change.new.as_ref(),
    }
}

fn take_row<R: Rows>(
    scope: &Scope<'_, R>,
    filter: &Cond,
    row: &Row,
    found: &mut Vec<Row>,
) -> Result<(), Cause>
    ensures { AnswersCause (λ _. found.new.items) result
        (row_taken scope.now filter.now row.now found.old.items) }
{
    if !holds_at(filter, row.values(), scope)? {
        return Ok(());
    }
    push(found, row.clone()?)
}

fn take_side<R: Rows>(
    scope: &Scope<'_, R>,
    filter: &Cond,
    side: Side,
    change: &Change,
    found: &mut Vec<Row>,
) -> Result<(), Cause>
    ensures { AnswersCause (λ _. found.new.items) result
        (side_taken scope.now filter.now (side_of side change.now) found.old.items) }
{
    match row_on(side, change) {
        Some(row) => take_row(scope, filter, row, found),
        None => Ok(()),
    }
}

/// The rows on one side of changes where a condition is true; they share their values.
pub fn sides_where<R: Rows>(
    alloc: Global,
    scope: &Scope<'_, R>,
    side: Side,
    changes: &[Change],
    filter: &Cond,
) -> Result<Vec<Row>, Cause>
    ensures { AnswersCause (λ v. v.items) result
        (sides_taken scope.now filter.now side changes.now) }
{
    let mut found = Vec::new(alloc);
    for change in changes {
        take_side(scope, filter, side, change, &mut found)?;
    }
    Ok(found)
}
