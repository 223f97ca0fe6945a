//! The first failure of a query.
ghost use Rattle.std.specs.Prelude.{◌≡◌, IfOk};
ghost use Rattle.std.specs.List.{enumerate_from};
ghost use Rattle.iv_expr.specs.Scopes.{no_frame, scope_of, table_rows, within};
ghost use Rattle.iv_account.specs.Disagreements.{first_of};
ghost use Rattle.iv_exec_context.specs.Sides.{placed_failure};
ghost use Rattle.iv_account.specs.declared.failure.EvaluatedFor.TheVariants as part_of;
ghost use Rattle.iv_account.specs.Failures.{expression_failure, if_true_at, items_failure, of_part, query_failure, rows_failure, selection_failure};

use crate::failures::expression::expression_failure;
use crate::failures::hands::at_row;
use crate::failures::values::{PartFailure, of_part};
use crate::failures::wheres::{is_true_at, where_in_table};
use iv_account::{EvaluatedFor, FailedEvaluation};
use iv_catalogue::{Outputs, QueryPlan};
use iv_expr::{Cond, Expr, Frame, Rows, Scope, TableId};
use iv_value::Value;
use std::alloc::{AllocError, Global};

// What fails of the item at a place.
fn of_item<R: Rows>(scope: &Scope<'_, R>, place: u64, expression: &Expr) -> Option<PartFailure>
    ensures { result ≡ of_part (part_of.Item place) (expression_failure scope.now expression.now) }
{
    of_part(
        EvaluatedFor::Item(place),
        expression_failure(expression, scope),
    )
}

// The first failure of items.
fn in_items<R: Rows>(scope: &Scope<'_, R>, expressions: &[Expr]) -> Option<PartFailure>
    ensures { result ≡ placed_failure scope.now (enumerate_from 1 expressions.now) }
{
    let mut at = 0usize;
    while at < expressions.len() {
        match of_item(scope, (at + 1) as u64, &expressions[at]) {
            Some(failure) => return Some(failure),
            None => {}
        }
        at += 1;
    }
    None
}

// The first failure of items at a row.
fn items_at<R: Rows>(
    scope: &Scope<'_, R>,
    expressions: &[Expr],
    values: &[Value],
) -> Option<PartFailure>
    ensures { result ≡ placed_failure (within scope.now values.now)
        (enumerate_from 1 expressions.now) }
{
    let ranges = scope.ranges_with(values);
    let here = scope.over(&ranges);
    in_items(&here, expressions)
}

fn items_failure<R: Rows>(
    scope: &Scope<'_, R>,
    outputs: &Outputs,
    values: &[Value],
) -> Option<PartFailure>
    ensures { result ≡ items_failure (within scope.now values.now) outputs.now }
{
    match outputs {
        Outputs::Star => None,
        Outputs::Values(expressions) => items_at(scope, expressions.as_slice(), values),
    }
}

// The first failure of what is selected of a row, if the condition is true there.
fn selection_at<R: Rows>(
    alloc: Global,
    scope: &Scope<'_, R>,
    outputs: &Outputs,
    filter: &Cond,
    table: TableId,
    number: u64,
    values: &[Value],
) -> Result<Option<FailedEvaluation>, AllocError>
    ensures { IfOk result (λ f. f ≡ if_true_at scope.now filter.now
        (selection_failure scope.now outputs.now)
        (record { table = table; number = number; values = values.now })) }
{
    if is_true_at(filter, values, scope) {
        let failure = items_failure(scope, outputs, values);
        at_row(alloc, table, number, values, failure)
    } else {
        Ok(None)
    }
}

fn selections_in_table<R: Rows>(
    alloc: Global,
    scope: &Scope<'_, R>,
    outputs: &Outputs,
    filter: &Cond,
    table: TableId,
) -> Result<Option<FailedEvaluation>, AllocError>
    ensures { IfOk result (λ f. f ≡ first_of (if_true_at scope.now filter.now
        (selection_failure scope.now outputs.now)) (table_rows scope.now.rows table)) }
{
    scope.recall_order();
    let mut after = 0;
    while let Some((number, values)) = scope.scan(table, after) {
        after = number;
        match selection_at(alloc, scope, outputs, filter, table, number, values)? {
            Some(failure) => return Ok(Some(failure)),
            None => {}
        }
    }
    Ok(None)
}

// The WHERE at all rows, and then the items at those where it is true.
fn selections_failure<R: Rows>(
    alloc: Global,
    scope: &Scope<'_, R>,
    outputs: &Outputs,
    filter: &Cond,
    table: TableId,
) -> Result<Option<FailedEvaluation>, AllocError>
    ensures { IfOk result (λ f. f ≡ rows_failure scope.now filter.now
        (selection_failure scope.now outputs.now) (table_rows scope.now.rows table)) }
{
    match where_in_table(alloc, scope, filter, table)? {
        Some(failure) => Ok(Some(failure)),
        None => selections_in_table(alloc, scope, outputs, filter, table),
    }
}

/// The first failure of a query, in the order in which the machine evaluates. It walks the rows once for the WHERE and
/// once for the items, and allocates only what it answers and for searches by key.
pub fn query_failure<R: Rows>(
    alloc: Global,
    rows: &R,
    query: &QueryPlan,
) -> Result<Option<FailedEvaluation>, AllocError>
    ensures { IfOk result (λ f. f ≡ query_failure (R.rows rows.now) query.now) }
{
    let frame = Frame::none();
    let scope = Scope::new(rows, &frame);
    match query {
        QueryPlan::Rows {
            table,
            outputs,
            filter,
        } => selections_failure(alloc, &scope, outputs, filter, *table),
        QueryPlan::Count { table, filter } => where_in_table(alloc, &scope, filter, *table),
    }
}
