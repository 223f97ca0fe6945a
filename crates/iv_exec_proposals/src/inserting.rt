//! What an INSERT proposes ("Insert statement").
ghost use Rattle.std.specs.Prelude.{◌≡◌, Ok, List, map};
ghost use Rattle.iv_value.specs.declared.value.Value.{Value as Cell};
ghost use Rattle.iv_expr.specs.Evaluation.{value};
ghost use Rattle.iv_expr.specs.Scopes.{range_rows};
ghost use Rattle.iv_machine.specs.Proposals.{insertion, insertion_of, outputs_of, proposed_insertions, where_true};
ghost use Rattle.iv_exec_context.specs.Answering.{AnswersCause};
ghost use Rattle.iv_exec_proposals.specs.Steps.{added, all_added};
ghost use Rattle.iv_exec_proposals.specs.Placements.{row_made};

use crate::finding::{push, rows_where, sides_where};
use crate::making::{row_of_copies, row_of_expressions};
use iv_catalogue::{Cause, InsertColumns, InsertRows, Outputs};
use iv_exec_context::Context;
use iv_expr::{Change, Cond, Expr, Range, Row, Rows, Scope, TableId};
use iv_store::ChangeableRows;
use sqlite_items::Items;
use std::alloc::Global;

// The insertion of a row, which has no number yet.
fn insertion(table: TableId, row: Row) -> Change
    ensures { result ≡ insertion table row }
{
    Change {
        table,
        row: 0,
        old: None,
        new: Some(row),
    }
}

// ---- VALUES

fn insertion_of_tuple<R: Rows>(
    alloc: Global,
    context: &Context<'_>,
    scope: &Scope<'_, R>,
    table: TableId,
    listed: &InsertColumns,
    tuple: &[Expr],
) -> Result<Change, Cause>
    ensures { AnswersCause (λ c. c) result
        (insertion_of context.now table listed.now (map (value scope.now) tuple.now)) }
{
    let row = row_of_expressions(alloc, context, table, listed, tuple, scope)?;
    Ok(insertion(table, row))
}

fn insert_tuple<R: Rows>(
    context: &Context<'_>,
    scope: &Scope<'_, R>,
    table: TableId,
    listed: &InsertColumns,
    tuple: &[Expr],
    changes: &mut Vec<Change>,
) -> Result<(), Cause>
    ensures { AnswersCause (λ _. changes.new.items) result
        (added (λ t. insertion_of context.now table listed.now (map (value scope.now) t))
        tuple.now changes.old.items) }
{
    let change = insertion_of_tuple(*changes.allocator(), context, scope, table, listed, tuple)?;
    push(changes, change)
}

// The insertions of the tuples of VALUES.
fn insert_tuples<R: Rows>(
    alloc: Global,
    context: &Context<'_>,
    scope: &Scope<'_, R>,
    table: TableId,
    listed: &InsertColumns,
    tuples: &[Items<Expr>],
) -> Result<Vec<Change>, Cause>
    ensures { AnswersCause (λ v. v.items) result
        (all_added (λ t. insertion_of context.now table listed.now (map (value scope.now) t))
        tuples.now) }
{
    let mut changes = Vec::new(alloc);
    for tuple in tuples {
        insert_tuple(
            context,
            scope,
            table,
            listed,
            tuple.as_slice(),
            &mut changes,
        )?;
    }
    Ok(changes)
}

// ---- from a query

// The row of what a query gives of a row.
fn row_of_outputs<R: Rows>(
    alloc: Global,
    context: &Context<'_>,
    scope: &Scope<'_, R>,
    table: TableId,
    listed: &InsertColumns,
    outputs: &Outputs,
    row: &Row,
) -> Result<Row, Cause>
    ensures { AnswersCause (λ r. r) result
        (row_made context.now table listed.now (outputs_of scope.now outputs.now row.now)) }
{
    match outputs {
        Outputs::Star => row_of_copies(alloc, context, table, listed, row.values()),
        Outputs::Values(expressions) => {
            let ranges = scope.ranges_with(row.values());
            row_of_expressions(
                alloc,
                context,
                table,
                listed,
                expressions.as_slice(),
                &scope.over(&ranges),
            )
        }
    }
}

fn insertion_of_row<R: Rows>(
    alloc: Global,
    context: &Context<'_>,
    scope: &Scope<'_, R>,
    table: TableId,
    listed: &InsertColumns,
    outputs: &Outputs,
    row: &Row,
) -> Result<Change, Cause>
    ensures { AnswersCause (λ c. c) result
        (insertion_of context.now table listed.now (outputs_of scope.now outputs.now row.now)) }
{
    let row = row_of_outputs(alloc, context, scope, table, listed, outputs, row)?;
    Ok(insertion(table, row))
}

fn insert_row<R: Rows>(
    context: &Context<'_>,
    scope: &Scope<'_, R>,
    table: TableId,
    listed: &InsertColumns,
    outputs: &Outputs,
    row: &Row,
    changes: &mut Vec<Change>,
) -> Result<(), Cause>
    ensures { AnswersCause (λ _. changes.new.items) result
        (added (λ r. insertion_of context.now table listed.now (outputs_of scope.now outputs.now r))
        row.now changes.old.items) }
{
    let alloc = *changes.allocator();
    let change = insertion_of_row(alloc, context, scope, table, listed, outputs, row)?;
    push(changes, change)
}

// The insertions of what a query gives of these rows.
fn insert_rows<R: Rows>(
    alloc: Global,
    context: &Context<'_>,
    scope: &Scope<'_, R>,
    table: TableId,
    listed: &InsertColumns,
    outputs: &Outputs,
    rows: &[Row],
) -> Result<Vec<Change>, Cause>
    ensures { AnswersCause (λ v. v.items) result
        (all_added (λ r. insertion_of context.now table listed.now
        (outputs_of scope.now outputs.now r)) rows.now) }
{
    let mut changes = Vec::new(alloc);
    for row in rows {
        insert_row(context, scope, table, listed, outputs, row, &mut changes)?;
    }
    Ok(changes)
}

// The rows of a range where a condition is true.
fn rows_of_range<K: ChangeableRows>(
    store: &K,
    scope: &Scope<'_, K>,
    range: Range,
    filter: &Cond,
) -> Result<Vec<Row>, Cause>
    requires { scope.now.rows ≡ (K.view store.now).base.rows }
    ensures { AnswersCause (λ v. v.items) result
        (where_true (λ (r : List Cell). r) scope.now filter.now (range_rows scope.now range)) }
{
    match range {
        Range::Table(table) => rows_where(store, scope, table, filter),
        Range::Transition(side) => {
            sides_where(store.allocator(), scope, side, scope.transition(), filter)
        }
    }
}

/// The insertions that an INSERT proposes.
pub fn insertions<K: ChangeableRows>(
    store: &K,
    context: &Context<'_>,
    scope: &Scope<'_, K>,
    table: TableId,
    listed: &InsertColumns,
    rows: &InsertRows,
) -> Result<Vec<Change>, Cause>
    requires { scope.now.rows ≡ (K.view store.now).base.rows }
    ensures { AnswersCause (λ v. v.items) result
        (proposed_insertions context.now scope.now table listed.now rows.now) }
{
    let alloc = store.allocator();
    match rows {
        InsertRows::Values(tuples) => {
            insert_tuples(alloc, context, scope, table, listed, tuples.as_slice())
        }
        InsertRows::Query {
            outputs,
            range,
            filter,
        } => {
            let rows = rows_of_range(store, scope, *range, filter)?;
            insert_rows(
                alloc,
                context,
                scope,
                table,
                listed,
                outputs,
                rows.as_slice(),
            )
        }
    }
}
