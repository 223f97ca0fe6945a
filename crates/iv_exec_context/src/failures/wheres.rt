//! The first failure of a WHERE.
ghost use Rattle.std.specs.Prelude.{◌≡◌, IfOk, filter_map};
ghost use Rattle.std.specs.Option.{option_copied};
ghost use Rattle.iv_expr.specs.Evaluation.{truth as truth_at};
ghost use Rattle.iv_expr.specs.Scopes.{side_of, table_rows, within};
ghost use Rattle.iv_account.specs.Disagreements.{first_of};
ghost use Rattle.iv_account.specs.Failures.{condition_failure, if_at_fault, is_true_at, stored_side, where_failure};
ghost use Rattle.iv_exec_context.specs.Sides.{of_some};

use crate::failures::condition::condition_failure;
use crate::failures::hands::at_row;
use crate::failures::values::of_part;
use iv_account::{EvaluatedFor, FailedEvaluation, ValueFailure};
use iv_expr::{Change, Cond, Rows, Scope, Side, TableId, truth, truth_at_row};
use iv_value::{Truth, Value};
use std::alloc::{AllocError, Global};

// What fails of a condition at a row, if it has a fault there.
fn at_values<R: Rows>(filter: &Cond, values: &[Value], scope: &Scope<'_, R>) -> Option<ValueFailure>
    ensures { result ≡ if_at_fault (truth_at (within scope.now values.now) filter.now)
        (condition_failure (within scope.now values.now) filter.now) }
{
    let ranges = scope.ranges_with(values);
    let here = scope.over(&ranges);
    match truth(filter, &here) {
        Ok(_) => None,
        Err(_) => condition_failure(filter, &here),
    }
}

// The failure of a WHERE at a row.
fn where_failure<R: Rows>(
    alloc: Global,
    scope: &Scope<'_, R>,
    filter: &Cond,
    table: TableId,
    number: u64,
    values: &[Value],
) -> Result<Option<FailedEvaluation>, AllocError>
    ensures { IfOk result (λ f. f ≡ where_failure scope.now filter.now
        (record { table = table; number = number; values = values.now })) }
{
    let failure = of_part(EvaluatedFor::Where, at_values(filter, values, scope));
    at_row(alloc, table, number, values, failure)
}

/// Whether a condition is true at a row.
pub fn is_true_at<R: Rows>(filter: &Cond, values: &[Value], scope: &Scope<'_, R>) -> bool
    ensures { result ≡ is_true_at scope.now filter.now
        (record { table = 0; number = 0; values = values.now }) }
{
    match truth_at_row(filter, values, scope) {
        Ok(truth) => matches!(truth, Truth::True),
        Err(_) => false,
    }
}

/// The first failure of a WHERE at the rows of a table.
pub fn where_in_table<R: Rows>(
    alloc: Global,
    scope: &Scope<'_, R>,
    filter: &Cond,
    table: TableId,
) -> Result<Option<FailedEvaluation>, AllocError>
    ensures { IfOk result (λ f. f ≡ first_of (where_failure scope.now filter.now)
        (table_rows scope.now.rows table)) }
{
    scope.recall_order();
    let mut after = 0;
    while let Some((number, values)) = scope.scan(table, after) {
        after = number;
        match where_failure(alloc, scope, filter, table, number, values)? {
            Some(failure) => return Ok(Some(failure)),
            None => {}
        }
    }
    Ok(None)
}

/// The values on one side of a change.
pub fn side_values(side: Side, change: &Change) -> Option<&[Value]>
    ensures { option_copied result ≡ side_of side change.now }
{
    let row = match side {
        Side::Old => &change.old,
        Side::New => &change.new,
    };
    match row {
        Some(row) => Some(row.values()),
        None => None,
    }
}

// The failure of a WHERE at one side of a change.
fn where_at_side<R: Rows>(
    alloc: Global,
    scope: &Scope<'_, R>,
    filter: &Cond,
    side: Side,
    change: &Change,
) -> Result<Option<FailedEvaluation>, AllocError>
    ensures { IfOk result (λ f. f ≡ of_some (where_failure scope.now filter.now)
        (stored_side side change.now)) }
{
    match side_values(side, change) {
        Some(values) => where_failure(alloc, scope, filter, change.table, change.row, values),
        None => Ok(None),
    }
}

/// The first failure of a WHERE at one side of changes.
pub fn where_at_sides<R: Rows>(
    alloc: Global,
    scope: &Scope<'_, R>,
    filter: &Cond,
    side: Side,
    changes: &[Change],
) -> Result<Option<FailedEvaluation>, AllocError>
    ensures { IfOk result (λ f. f ≡ first_of (where_failure scope.now filter.now)
        (filter_map (stored_side side) changes.now)) }
{
    for change in changes {
        match where_at_side(alloc, scope, filter, side, change)? {
            Some(failure) => return Ok(Some(failure)),
            None => {}
        }
    }
    Ok(None)
}
