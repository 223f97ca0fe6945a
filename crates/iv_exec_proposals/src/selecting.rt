//! What a SELECT gives ("Query specification").
ghost use Rattle.std.specs.Prelude.{◌≡◌, ◌∷◌, [], Ok, length, pos};
ghost use Rattle.iv_value.specs.declared.value.Value.TheVariants as variant;
ghost use Rattle.iv_expr.specs.Evaluation.{and_then, value};
ghost use Rattle.iv_expr.specs.Scopes.{no_frame, scope_of, table_rows};
ghost use Rattle.iv_machine.specs.Context.{each};
ghost use Rattle.iv_machine.specs.Machine.{output_row};
ghost use Rattle.iv_machine.specs.Proposals.{matching_rows, with_cause};
ghost use Rattle.iv_exec_context.specs.Answering.{AnswersCause};
ghost use Rattle.iv_exec_proposals.specs.Steps.{added, all_added};
ghost use Rattle.iv_exec_proposals.specs.Selections.{output_at, rows_selected};

use crate::finding::{count_where, push, rows_where};
use crate::making::row_of;
use iv_catalogue::{Cause, Outputs, QueryPlan};
use iv_expr::{Cond, Expr, Frame, Row, Rows, Scope, TableId, eval};
use iv_store::ChangeableRows;
use iv_value::Value;
use sqlite_items::Items;
use std::alloc::Global;

fn push_output<R: Rows>(
    scope: &Scope<'_, R>,
    expression: &Expr,
    values: &mut Vec<Value>,
) -> Result<(), Cause>
    ensures { AnswersCause (λ _. values.new.items) result
        (added (λ e. with_cause (value scope.now e)) expression.now values.old.items) }
{
    push(values, eval(expression, scope)?)
}

// The values of expressions.
fn outputs_at<R: Rows>(
    alloc: Global,
    scope: &Scope<'_, R>,
    expressions: &[Expr],
) -> Result<Vec<Value>, Cause>
    ensures { AnswersCause (λ v. v.items) result
        (all_added (λ e. with_cause (value scope.now e)) expressions.now) }
{
    let mut values = Vec::new(alloc);
    for expression in expressions {
        push_output(scope, expression, &mut values)?;
    }
    Ok(values)
}

// The row of the values of expressions at a row.
fn output_row<R: Rows>(
    alloc: Global,
    scope: &Scope<'_, R>,
    expressions: &[Expr],
    row: &Row,
) -> Result<Row, Cause>
    ensures { AnswersCause (λ r. r) result
        (output_at scope.now expressions.now row.now) }
{
    let ranges = scope.ranges_with(row.values());
    let values = outputs_at(alloc, &scope.over(&ranges), expressions)?;
    row_of(values)
}

fn push_output_row<R: Rows>(
    scope: &Scope<'_, R>,
    expressions: &[Expr],
    row: &Row,
    rows: &mut Vec<Row>,
) -> Result<(), Cause>
    ensures { AnswersCause (λ _. rows.new.items) result
        (added (output_at scope.now expressions.now) row.now rows.old.items) }
{
    let output = output_row(*rows.allocator(), scope, expressions, row)?;
    push(rows, output)
}

fn output_rows<R: Rows>(
    alloc: Global,
    scope: &Scope<'_, R>,
    expressions: &[Expr],
    rows: &[Row],
) -> Result<Vec<Row>, Cause>
    ensures { AnswersCause (λ v. v.items) result
        (all_added (output_at scope.now expressions.now) rows.now) }
{
    let mut outputs = Vec::new(alloc);
    for row in rows {
        push_output_row(scope, expressions, row, &mut outputs)?;
    }
    Ok(outputs)
}

// What is selected of rows: they themselves, shared, if it is the whole row.
fn outputs_of_rows<R: Rows>(
    alloc: Global,
    scope: &Scope<'_, R>,
    outputs: &Outputs,
    rows: Vec<Row>,
) -> Result<Vec<Row>, Cause>
    ensures { AnswersCause (λ v. v.items) result
        (each (λ r. output_row scope.now outputs.now r) rows.items) }
{
    match outputs {
        Outputs::Star => Ok(rows),
        Outputs::Values(expressions) => {
            output_rows(alloc, scope, expressions.as_slice(), rows.as_slice())
        }
    }
}

// The rows of the whole rows or of the values of expressions where a condition is true.
fn select_rows<K: ChangeableRows>(
    store: &K,
    scope: &Scope<'_, K>,
    table: TableId,
    outputs: &Outputs,
    filter: &Cond,
) -> Result<Vec<Row>, Cause>
    requires { scope.now.rows ≡ (K.view store.now).base.rows }
    ensures { AnswersCause (λ v. v.items) result
        (and_then (matching_rows scope.now filter.now (table_rows scope.now.rows table))
        (each (λ r. output_row scope.now outputs.now r.values))) }
{
    let rows = rows_where(store, scope, table, filter)?;
    outputs_of_rows(store.allocator(), scope, outputs, rows)
}

// One row of one value.
fn one_value(alloc: Global, value: Value) -> Result<Vec<Row>, Cause>
    ensures { AnswersCause (λ v. v.items) result (Ok ((value ∷ []) ∷ [])) }
{
    let mut values = Vec::new(alloc);
    let mut rows = Vec::new(alloc);
    push(&mut values, value)?;
    let row = row_of(values)?;
    push(&mut rows, row)?;
    Ok(rows)
}

// COUNT(*): one row of one integer.
fn select_count<R: Rows>(
    alloc: Global,
    scope: &Scope<'_, R>,
    table: TableId,
    filter: &Cond,
) -> Result<Vec<Row>, Cause>
    ensures { AnswersCause (λ v. v.items) result
        (and_then (matching_rows scope.now filter.now (table_rows scope.now.rows table)) (λ found.
        Ok ((variant.Int (pos (length found)) ∷ []) ∷ []))) }
{
    let count = count_where(scope, table, filter)?;
    one_value(alloc, count)
}

fn select_from<K: ChangeableRows>(
    store: &K,
    scope: &Scope<'_, K>,
    query: &QueryPlan,
) -> Result<Vec<Row>, Cause>
    requires { scope.now ≡ scope_of no_frame (K.view store.now).base.rows }
    ensures { AnswersCause (λ v. v.items) result
        (rows_selected (K.view store.now).base.rows query.now) }
{
    match query {
        QueryPlan::Rows {
            table,
            outputs,
            filter,
        } => select_rows(store, scope, *table, outputs, filter),
        QueryPlan::Count { table, filter } => {
            select_count(store.allocator(), scope, *table, filter)
        }
    }
}

/// The rows of a query, by number; whole rows share their values with the store. `COUNT(*)` gives one row of one
/// integer, and allocates only that row.
pub fn select<K: ChangeableRows>(store: &K, query: &QueryPlan) -> Result<Items<Row>, Cause>
    ensures { AnswersCause (λ rows. rows) result
        (rows_selected (K.view store.now).base.rows query.now) }
{
    let frame = Frame::none();
    let scope = Scope::new(store, &frame);
    let rows = select_from(store, &scope, query)?;
    Ok(Items::from_vec(rows))
}
