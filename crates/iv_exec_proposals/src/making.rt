//! The row of some values: they are evaluated and fitted in order, and each is put into its column.
ghost use Rattle.std.specs.Prelude.{◌≡◌, ◌++◌, ◌∷◌, [], Ok, map, slice_set, IfOk, OnOk};
ghost use Rattle.iv_expr.specs.Evaluation.{value};
ghost use Rattle.iv_machine.specs.Proposals.{defaults_of};
ghost use Rattle.iv_exec_context.specs.Answering.{AnswersCause};
ghost use Rattle.iv_exec_proposals.specs.Placements.{all_placed, placed, placed_at, row_begun, row_made, target};

use iv_catalogue::{Catalogue, Cause, Column, InsertColumns};
use iv_exec_context::{Context, stored_copy, stored_value};
use iv_expr::{Expr, Row, Rows, Scope, TableId};
use iv_value::Value;
use std::alloc::{AllocError, Global};

// The column that the value at a place is for.
fn target(listed: &InsertColumns, place: usize) -> Option<usize>
    ensures { result ≡ target listed.now place }
{
    match listed {
        InsertColumns::All => Some(place),
        InsertColumns::Listed(columns) => match columns.get(place) {
            Some(column) => Some(*column as usize),
            None => None,
        },
    }
}

/// Sets a column of a row, if there is one.
pub fn set(row: &mut Vec<Value>, column: usize, value: Value)
    ensures { row.new.items ≡ slice_set row.old.items column value }
{
    if column < row.len() {
        row[column] = value;
    }
}

// Puts a value into its column: at the end if there are values for all columns.
fn place(
    listed: &InsertColumns,
    row: &mut Vec<Value>,
    column: usize,
    value: Value,
) -> Result<(), Cause>
    ensures { AnswersCause (λ _. row.new.items) result
        (Ok (placed listed.now row.old.items column value)) }
{
    match listed {
        InsertColumns::All => row.push(value)?,
        InsertColumns::Listed(_) => set(row, column, value),
    }
    Ok(())
}

// Puts the value of an expression where it belongs.
fn place_expression<R: Rows>(
    context: &Context<'_>,
    table: TableId,
    listed: &InsertColumns,
    at: usize,
    expression: &Expr,
    scope: &Scope<'_, R>,
    row: &mut Vec<Value>,
) -> Result<(), Cause>
    ensures { AnswersCause (λ _. row.new.items) result
        (placed_at context.now table listed.now (target listed.now at)
        (value scope.now expression.now) row.old.items) }
{
    match target(listed, at) {
        Some(column) => {
            let value = stored_value(context, table, column, expression, scope)?;
            place(listed, row, column, value)
        }
        None => Ok(()),
    }
}

fn place_expressions<R: Rows>(
    context: &Context<'_>,
    table: TableId,
    listed: &InsertColumns,
    expressions: &[Expr],
    scope: &Scope<'_, R>,
    row: &mut Vec<Value>,
) -> Result<(), Cause>
    ensures { AnswersCause (λ _. row.new.items) result
        (all_placed context.now table listed.now
        (map (value scope.now) expressions.now) row.old.items) }
{
    for (at, expression) in expressions.iter().enumerate() {
        place_expression(context, table, listed, at, expression, scope, row)?;
    }
    Ok(())
}

// Puts a copy of a value where it belongs.
fn place_copy(
    context: &Context<'_>,
    table: TableId,
    listed: &InsertColumns,
    at: usize,
    value: &Value,
    row: &mut Vec<Value>,
) -> Result<(), Cause>
    ensures { AnswersCause (λ _. row.new.items) result
        (placed_at context.now table listed.now (target listed.now at)
        (Ok value.now) row.old.items) }
{
    match target(listed, at) {
        Some(column) => {
            let value = stored_copy(context, table, column, value)?;
            place(listed, row, column, value)
        }
        None => Ok(()),
    }
}

fn place_copies(
    context: &Context<'_>,
    table: TableId,
    listed: &InsertColumns,
    values: &[Value],
    row: &mut Vec<Value>,
) -> Result<(), Cause>
    ensures { AnswersCause (λ _. row.new.items) result
        (all_placed context.now table listed.now (map (λ v. Ok v) values.now) row.old.items) }
{
    for (at, value) in values.iter().enumerate() {
        place_copy(context, table, listed, at, value, row)?;
    }
    Ok(())
}

fn push_defaults(row: &mut Vec<Value>, columns: &[Column]) -> Result<(), AllocError>
    ensures { OnOk result (row.new.items ≡ row.old.items ++ map (λ c. c.default) columns.now) }
{
    for column in columns {
        row.push(column.default.clone()?)?;
    }
    Ok(())
}

// The defaults of a table's columns.
fn defaults(alloc: Global, catalogue: &Catalogue, table: TableId) -> Result<Vec<Value>, AllocError>
    ensures { IfOk result (λ row. row.items ≡ defaults_of catalogue.now table) }
{
    let mut row = Vec::new(alloc);
    if let Some(table) = catalogue.table(table) {
        row.reserve_exact(table.columns.len())?;
        push_defaults(&mut row, table.columns.as_slice())?;
    }
    Ok(row)
}

// The row before any value: empty, or of the defaults if the columns are listed. There are so many values for it.
fn begin(
    alloc: Global,
    context: &Context<'_>,
    table: TableId,
    listed: &InsertColumns,
    count: usize,
) -> Result<Vec<Value>, Cause>
    ensures { AnswersCause (λ v. v.items) result
        (Ok (row_begun context.now.schema table listed.now)) }
{
    match listed {
        InsertColumns::All => Ok(Vec::with_capacity(alloc, count)?),
        InsertColumns::Listed(_) => Ok(defaults(alloc, context.catalogue(), table)?),
    }
}

/// A row of these values.
pub fn row_of(values: Vec<Value>) -> Result<Row, Cause>
    ensures { AnswersCause (λ r. r) result (Ok values.items) }
{
    Ok(Row::new(values)?)
}

/// The row of the values of expressions.
pub fn row_of_expressions<R: Rows>(
    alloc: Global,
    context: &Context<'_>,
    table: TableId,
    listed: &InsertColumns,
    expressions: &[Expr],
    scope: &Scope<'_, R>,
) -> Result<Row, Cause>
    ensures { AnswersCause (λ r. r) result
        (row_made context.now table listed.now (map (value scope.now) expressions.now)) }
{
    let mut row = begin(alloc, context, table, listed, expressions.len())?;
    place_expressions(context, table, listed, expressions, scope, &mut row)?;
    row_of(row)
}

/// The row of copies of these values.
pub fn row_of_copies(
    alloc: Global,
    context: &Context<'_>,
    table: TableId,
    listed: &InsertColumns,
    values: &[Value],
) -> Result<Row, Cause>
    ensures { AnswersCause (λ r. r) result
        (row_made context.now table listed.now (map (λ v. Ok v) values.now)) }
{
    let mut row = begin(alloc, context, table, listed, values.len())?;
    place_copies(context, table, listed, values, &mut row)?;
    row_of(row)
}
