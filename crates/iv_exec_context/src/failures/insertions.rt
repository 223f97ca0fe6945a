//! The first failure of what an INSERT proposes.
ghost use Rattle.std.specs.Prelude.{◌≡◌, IfOk, filter_map};
ghost use Rattle.iv_expr.specs.Scopes.{table_rows};
ghost use Rattle.iv_account.specs.Disagreements.{first_of};
ghost use Rattle.iv_account.specs.Failures.{if_true_at, insertion_failure, insertions_failure, rows_failure, stored_rows, stored_side, tuple_failure};
ghost use Rattle.iv_exec_context.specs.Sides.{of_some};

use crate::failures::hands::{at_source, at_variables};
use crate::failures::values::{expressions_failure, outputs_failure};
use crate::failures::wheres::{is_true_at, side_values, where_at_sides, where_in_table};
use iv_account::FailedEvaluation;
use iv_catalogue::{Catalogue, InsertColumns, InsertRows, Outputs};
use iv_expr::{Change, Cond, Expr, Range, Rows, Scope, Side, TableId};
use iv_value::Value;
use sqlite_items::Items;
use std::alloc::{AllocError, Global};

// ---- VALUES

fn tuple_failure<R: Rows>(
    alloc: Global,
    catalogue: &Catalogue,
    scope: &Scope<'_, R>,
    table: TableId,
    listed: &InsertColumns,
    tuple: &[Expr],
) -> Result<Option<FailedEvaluation>, AllocError>
    ensures { IfOk result (λ f. f
        ≡ tuple_failure catalogue.now scope.now table listed.now tuple.now) }
{
    let failure = expressions_failure(catalogue, scope, table, listed, tuple);
    at_variables(alloc, scope, failure)
}

fn tuples_failure<R: Rows>(
    alloc: Global,
    catalogue: &Catalogue,
    scope: &Scope<'_, R>,
    table: TableId,
    listed: &InsertColumns,
    tuples: &[Items<Expr>],
) -> Result<Option<FailedEvaluation>, AllocError>
    ensures { IfOk result (λ f. f ≡ first_of
        (tuple_failure catalogue.now scope.now table listed.now) tuples.now) }
{
    for tuple in tuples {
        match tuple_failure(alloc, catalogue, scope, table, listed, tuple.as_slice())? {
            Some(failure) => return Ok(Some(failure)),
            None => {}
        }
    }
    Ok(None)
}

// ---- from a query

// The first failure of the insertion of what a query gives of a row, if its condition is true there.
fn insertion_at<R: Rows>(
    alloc: Global,
    catalogue: &Catalogue,
    scope: &Scope<'_, R>,
    table: TableId,
    listed: &InsertColumns,
    outputs: &Outputs,
    filter: &Cond,
    source: TableId,
    number: u64,
    values: &[Value],
) -> Result<Option<FailedEvaluation>, AllocError>
    ensures { IfOk result (λ f. f ≡ if_true_at scope.now filter.now
        (insertion_failure catalogue.now scope.now table listed.now outputs.now)
        (record { table = source; number = number; values = values.now })) }
{
    if is_true_at(filter, values, scope) {
        let failure = outputs_failure(catalogue, scope, table, listed, outputs, values);
        at_source(alloc, source, number, values, failure)
    } else {
        Ok(None)
    }
}

fn from_table<R: Rows>(
    alloc: Global,
    catalogue: &Catalogue,
    scope: &Scope<'_, R>,
    table: TableId,
    listed: &InsertColumns,
    outputs: &Outputs,
    filter: &Cond,
    source: TableId,
) -> Result<Option<FailedEvaluation>, AllocError>
    ensures { IfOk result (λ f. f ≡ first_of (if_true_at scope.now filter.now
        (insertion_failure catalogue.now scope.now table listed.now outputs.now))
        (table_rows scope.now.rows source)) }
{
    scope.recall_order();
    let mut after = 0;
    while let Some((number, values)) = scope.scan(source, after) {
        after = number;
        match insertion_at(
            alloc, catalogue, scope, table, listed, outputs, filter, source, number, values,
        )? {
            Some(failure) => return Ok(Some(failure)),
            None => {}
        }
    }
    Ok(None)
}

fn insertion_of_side<R: Rows>(
    alloc: Global,
    catalogue: &Catalogue,
    scope: &Scope<'_, R>,
    table: TableId,
    listed: &InsertColumns,
    outputs: &Outputs,
    filter: &Cond,
    side: Side,
    change: &Change,
) -> Result<Option<FailedEvaluation>, AllocError>
    ensures { IfOk result (λ f. f ≡ of_some (if_true_at scope.now filter.now
        (insertion_failure catalogue.now scope.now table listed.now outputs.now))
        (stored_side side change.now)) }
{
    match side_values(side, change) {
        Some(values) => insertion_at(
            alloc,
            catalogue,
            scope,
            table,
            listed,
            outputs,
            filter,
            change.table,
            change.row,
            values,
        ),
        None => Ok(None),
    }
}

fn from_sides<R: Rows>(
    alloc: Global,
    catalogue: &Catalogue,
    scope: &Scope<'_, R>,
    table: TableId,
    listed: &InsertColumns,
    outputs: &Outputs,
    filter: &Cond,
    side: Side,
    changes: &[Change],
) -> Result<Option<FailedEvaluation>, AllocError>
    ensures { IfOk result (λ f. f ≡ first_of (if_true_at scope.now filter.now
        (insertion_failure catalogue.now scope.now table listed.now outputs.now))
        (filter_map (stored_side side) changes.now)) }
{
    for change in changes {
        match insertion_of_side(
            alloc, catalogue, scope, table, listed, outputs, filter, side, change,
        )? {
            Some(failure) => return Ok(Some(failure)),
            None => {}
        }
    }
    Ok(None)
}

// The WHERE at all rows, and then the values at those where it is true.
fn from_query<R: Rows>(
    alloc: Global,
    catalogue: &Catalogue,
    scope: &Scope<'_, R>,
    table: TableId,
    listed: &InsertColumns,
    outputs: &Outputs,
    range: Range,
    filter: &Cond,
) -> Result<Option<FailedEvaluation>, AllocError>
    ensures { IfOk result (λ f. f ≡ rows_failure scope.now filter.now
        (insertion_failure catalogue.now scope.now table listed.now outputs.now)
        (stored_rows scope.now range)) }
{
    match range {
        Range::Table(source) => match where_in_table(alloc, scope, filter, source)? {
            Some(failure) => Ok(Some(failure)),
            None => from_table(
                alloc, catalogue, scope, table, listed, outputs, filter, source,
            ),
        },
        Range::Transition(side) => {
            let changes = scope.transition();
            match where_at_sides(alloc, scope, filter, side, changes)? {
                Some(failure) => Ok(Some(failure)),
                None => from_sides(
                    alloc, catalogue, scope, table, listed, outputs, filter, side, changes,
                ),
            }
        }
    }
}

/// The first failure of an INSERT.
pub fn insertions_failure<R: Rows>(
    alloc: Global,
    catalogue: &Catalogue,
    scope: &Scope<'_, R>,
    table: TableId,
    listed: &InsertColumns,
    rows: &InsertRows,
) -> Result<Option<FailedEvaluation>, AllocError>
    ensures { IfOk result (λ f. f
        ≡ insertions_failure catalogue.now scope.now table listed.now rows.now) }
{
    match rows {
        InsertRows::Values(tuples) => {
            tuples_failure(alloc, catalogue, scope, table, listed, tuples.as_slice())
        }
        InsertRows::Query {
            outputs,
            range,
            filter,
        } => from_query(
            alloc, catalogue, scope, table, listed, outputs, *range, filter,
        ),
    }
}
