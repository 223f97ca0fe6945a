//! The first failure of what a data statement proposes.
ghost use Rattle.std.specs.Prelude.{◌≡◌, IfOk};
ghost use Rattle.iv_expr.specs.Scopes.{table_rows};
ghost use Rattle.iv_account.specs.Disagreements.{first_of};
ghost use Rattle.iv_account.specs.Failures.{if_true_at, proposal_failure, rows_failure, update_failure};

use crate::failures::hands::at_row;
use crate::failures::insertions::insertions_failure;
use crate::failures::values::settings_failure;
use crate::failures::wheres::{is_true_at, where_in_table};
use iv_account::FailedEvaluation;
use iv_catalogue::{Catalogue, DataStatement, Setting};
use iv_expr::{Cond, Frame, Rows, Scope, TableId};
use iv_value::Value;
use std::alloc::{AllocError, Global};

// The first failure of the update of a row, if the condition is true there.
fn update_at<R: Rows>(
    alloc: Global,
    catalogue: &Catalogue,
    scope: &Scope<'_, R>,
    table: TableId,
    settings: &[Setting],
    filter: &Cond,
    number: u64,
    values: &[Value],
) -> Result<Option<FailedEvaluation>, AllocError>
    ensures { IfOk result (λ f. f ≡ if_true_at scope.now filter.now
        (update_failure catalogue.now scope.now table settings.now)
        (record { table = table; number = number; values = values.now })) }
{
    if is_true_at(filter, values, scope) {
        let failure = settings_failure(catalogue, scope, table, settings, values);
        at_row(alloc, table, number, values, failure)
    } else {
        Ok(None)
    }
}

fn updates_in_table<R: Rows>(
    alloc: Global,
    catalogue: &Catalogue,
    scope: &Scope<'_, R>,
    table: TableId,
    settings: &[Setting],
    filter: &Cond,
) -> Result<Option<FailedEvaluation>, AllocError>
    ensures { IfOk result (λ f. f ≡ first_of (if_true_at scope.now filter.now
        (update_failure catalogue.now scope.now table settings.now))
        (table_rows scope.now.rows table)) }
{
    scope.recall_order();
    let mut after = 0;
    while let Some((number, values)) = scope.scan(table, after) {
        after = number;
        match update_at(
            alloc, catalogue, scope, table, settings, filter, number, values,
        )? {
            Some(failure) => return Ok(Some(failure)),
            None => {}
        }
    }
    Ok(None)
}

// The WHERE at all rows, and then the values at those where it is true.
fn updates_failure<R: Rows>(
    alloc: Global,
    catalogue: &Catalogue,
    scope: &Scope<'_, R>,
    table: TableId,
    settings: &[Setting],
    filter: &Cond,
) -> Result<Option<FailedEvaluation>, AllocError>
    ensures { IfOk result (λ f. f ≡ rows_failure scope.now filter.now
        (update_failure catalogue.now scope.now table settings.now)
        (table_rows scope.now.rows table)) }
{
    match where_in_table(alloc, scope, filter, table)? {
        Some(failure) => Ok(Some(failure)),
        None => updates_in_table(alloc, catalogue, scope, table, settings, filter),
    }
}

/// The first failure of what a data statement proposes, in the order in which the machine evaluates. It walks the rows
/// once for the WHERE and once for the values, and allocates only what it answers and for searches by key.
pub fn proposal_failure<'x, R: Rows>(
    alloc: Global,
    catalogue: &Catalogue,
    rows: &'x R,
    frame: &'x Frame<'x>,
    statement: &DataStatement,
) -> Result<Option<FailedEvaluation>, AllocError>
    ensures { IfOk result (λ f. f
        ≡ proposal_failure catalogue.now (R.rows rows.now) frame.now statement.now) }
{
    let scope = Scope::new(rows, frame);
    match statement {
        DataStatement::Insert {
            table,
            columns,
            rows,
        } => insertions_failure(alloc, catalogue, &scope, *table, columns, rows),
        DataStatement::Update {
            table,
            settings,
            filter,
        } => updates_failure(
            alloc,
            catalogue,
            &scope,
            *table,
            settings.as_slice(),
            filter,
        ),
        DataStatement::Delete { table, filter } => where_in_table(alloc, &scope, filter, *table),
    }
}
