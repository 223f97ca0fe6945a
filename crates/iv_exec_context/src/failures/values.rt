//! The first failure of values for the columns of a table ("Store assignment").
ghost use Rattle.std.specs.Prelude.{◌≡◌, chars, if◌then◌else◌, length, nat_le, zip, Some, None};
ghost use Rattle.std.specs.List.{enumerate_from};
ghost use Rattle.std.specs.Option.{option_copied};
ghost use Rattle.iv_value.specs.References.{value_of};
ghost use Rattle.iv_expr.specs.Scopes.{within};
ghost use Rattle.iv_machine.specs.Proposals.{column_at};
ghost use Rattle.iv_account.specs.declared.failure.EvaluatedFor.TheVariants as part_of;
ghost use Rattle.iv_account.specs.declared.failure.ValueFailure.TheVariants as failed;
ghost use Rattle.iv_account.specs.Disagreements.{first_of};
ghost use Rattle.iv_exec_context.specs.Sides.{copies_failure, copy_failure};
ghost use Rattle.iv_account.specs.Failures.{by_column, column_failure, of_part, output_expressions, set_pairs, stored_failure, text_failure, values_failure};

use crate::failures::expression::expression_failure;
use iv_account::{EvaluatedFor, ValueFailure};
use iv_catalogue::{Catalogue, Column, InsertColumns, Outputs, Setting};
use iv_expr::{Expr, Rows, Scope, TableId, eval_ref};
use iv_value::{Kind, Value, ValueRef};

/// What failed, and what it was evaluated for.
pub type PartFailure = (EvaluatedFor, ValueFailure);

// The count of a text's characters.
fn length_of(text: &str) -> usize
    ensures { result ≡ length (chars text.now) }
{
    text.chars().count()
}

fn length_failure(text: &str, most: u16) -> Option<ValueFailure>
    ensures { result ≡ if nat_le (length (chars text.now)) most then None
        else Some (failed.TooLong most (length (chars text.now))) }
{
    let length = length_of(text);
    if length <= most as usize {
        None
    } else {
        Some(ValueFailure::TooLong {
            most,
            length: length as u64,
        })
    }
}

// A text that has more characters than a column of its kind holds.
fn text_failure(value: ValueRef<'_>, kind: Kind) -> Option<ValueFailure>
    ensures { result ≡ text_failure (value_of value.entry) kind }
{
    match (value, kind) {
        (ValueRef::Text(text), Kind::Varchar(most)) => length_failure(text.as_str(), most),
        _ => None,
    }
}

fn column_at(catalogue: &Catalogue, table: TableId, column: u64) -> Option<&Column>
    ensures { option_copied result ≡ column_at catalogue.now table column }
{
    match catalogue.tables().get(table.place() as usize) {
        Some(table) => table.columns.get(column as usize),
        None => None,
    }
}

fn column_failure(column: Option<&Column>, value: ValueRef<'_>) -> Option<ValueFailure>
    ensures { result ≡ column_failure (option_copied column.entry) (value_of value.entry) }
{
    match column {
        Some(column) => text_failure(value, column.kind),
        None => None,
    }
}

/// What fails of an expression whose value is for a column of a table. It allocates nothing.
pub fn stored_failure<R: Rows>(
    catalogue: &Catalogue,
    scope: &Scope<'_, R>,
    table: TableId,
    column: u64,
    expression: &Expr,
) -> Option<ValueFailure>
    ensures { result ≡ stored_failure catalogue.now scope.now table column expression.now }
{
    match eval_ref(expression, scope) {
        Ok(value) => column_failure(column_at(catalogue, table, column), value),
        Err(_) => expression_failure(expression, scope),
    }
}

/// A failure, with what was evaluated.
pub fn of_part(part: EvaluatedFor, failure: Option<ValueFailure>) -> Option<PartFailure>
    ensures { result ≡ of_part part failure }
{
    match failure {
        Some(failure) => Some((part, failure)),
        None => None,
    }
}

fn of_column<R: Rows>(
    catalogue: &Catalogue,
    scope: &Scope<'_, R>,
    table: TableId,
    column: u64,
    expression: &Expr,
) -> Option<PartFailure>
    ensures { result ≡ of_part (part_of.Column table column)
        (stored_failure catalogue.now scope.now table column expression.now) }
{
    of_part(
        EvaluatedFor::Column(table, column),
        stored_failure(catalogue, scope, table, column, expression),
    )
}

// What fails of a copy of a value for a column.
fn of_copy(catalogue: &Catalogue, table: TableId, column: u64, value: &Value) -> Option<PartFailure>
    ensures { result ≡ copy_failure catalogue.now table (column, value.now) }
{
    of_part(
        EvaluatedFor::Column(table, column),
        column_failure(column_at(catalogue, table, column), value.as_ref()),
    )
}

// ---- expressions

// The first failure of expressions for all columns, in their order.
fn in_order<R: Rows>(
    catalogue: &Catalogue,
    scope: &Scope<'_, R>,
    table: TableId,
    expressions: &[Expr],
) -> Option<PartFailure>
    ensures { result ≡ values_failure catalogue.now scope.now table
        (enumerate_from 0 expressions.now) }
{
    let mut at = 0usize;
    while at < expressions.len() {
        match of_column(catalogue, scope, table, at as u64, &expressions[at]) {
            Some(failure) => return Some(failure),
            None => {}
        }
        at += 1;
    }
    None
}

// The first failure of expressions for these columns.
fn in_list<R: Rows>(
    catalogue: &Catalogue,
    scope: &Scope<'_, R>,
    table: TableId,
    columns: &[u32],
    expressions: &[Expr],
) -> Option<PartFailure>
    ensures { result ≡ values_failure catalogue.now scope.now table
        (zip columns.now expressions.now) }
{
    match columns {
        [] => None,
        [column, more @ ..] => match expressions {
            [] => None,
            [expression, rest @ ..] => {
                match of_column(catalogue, scope, table, u64::from(*column), expression) {
                    Some(failure) => Some(failure),
                    None => in_list(catalogue, scope, table, more, rest),
                }
            }
        },
    }
}

/// The first failure of expressions for the columns of an INSERT. It allocates nothing.
pub fn expressions_failure<R: Rows>(
    catalogue: &Catalogue,
    scope: &Scope<'_, R>,
    table: TableId,
    listed: &InsertColumns,
    expressions: &[Expr],
) -> Option<PartFailure>
    ensures { result ≡ values_failure catalogue.now scope.now table
        (by_column listed.now expressions.now) }
{
    match listed {
        InsertColumns::All => in_order(catalogue, scope, table, expressions),
        InsertColumns::Listed(columns) => {
            in_list(catalogue, scope, table, columns.as_slice(), expressions)
        }
    }
}

// ---- copies

// The first failure of copies of values for all columns, in their order.
fn copies_in_order(catalogue: &Catalogue, table: TableId, values: &[Value]) -> Option<PartFailure>
    ensures { result ≡ first_of (copy_failure catalogue.now table) (enumerate_from 0 values.now) }
{
    let mut at = 0usize;
    while at < values.len() {
        match of_copy(catalogue, table, at as u64, &values[at]) {
            Some(failure) => return Some(failure),
            None => {}
        }
        at += 1;
    }
    None
}

// The first failure of copies of values for these columns.
fn copies_in_list(
    catalogue: &Catalogue,
    table: TableId,
    columns: &[u32],
    values: &[Value],
) -> Option<PartFailure>
    ensures { result ≡ first_of (copy_failure catalogue.now table)
        (zip columns.now values.now) }
{
    match columns {
        [] => None,
        [column, more @ ..] => match values {
            [] => None,
            [value, rest @ ..] => match of_copy(catalogue, table, u64::from(*column), value) {
                Some(failure) => Some(failure),
                None => copies_in_list(catalogue, table, more, rest),
            },
        },
    }
}

/// The first failure of copies of values for the columns of an INSERT. It allocates nothing.
pub fn copies_failure(
    catalogue: &Catalogue,
    table: TableId,
    listed: &InsertColumns,
    values: &[Value],
) -> Option<PartFailure>
    ensures { result ≡ copies_failure catalogue.now table listed.now values.now }
{
    match listed {
        InsertColumns::All => copies_in_order(catalogue, table, values),
        InsertColumns::Listed(columns) => {
            copies_in_list(catalogue, table, columns.as_slice(), values)
        }
    }
}

/// The first failure of what a query gives of a row for the columns of an INSERT. It allocates nothing.
#[tactic(auto, using(crate::proofs::Copies::copies_fail))]
pub fn outputs_failure<R: Rows>(
    catalogue: &Catalogue,
    scope: &Scope<'_, R>,
    table: TableId,
    listed: &InsertColumns,
    outputs: &Outputs,
    row: &[Value],
) -> Option<PartFailure>
    ensures { result ≡ values_failure catalogue.now (within scope.now row.now) table
        (by_column listed.now (output_expressions outputs.now row.now)) }
{
    match outputs {
        Outputs::Star => copies_failure(catalogue, table, listed, row),
        Outputs::Values(expressions) => {
            let ranges = scope.ranges_with(row);
            let here = scope.over(&ranges);
            expressions_failure(catalogue, &here, table, listed, expressions.as_slice())
        }
    }
}

// ---- settings

// The first failure of these settings.
fn in_settings<R: Rows>(
    catalogue: &Catalogue,
    scope: &Scope<'_, R>,
    table: TableId,
    settings: &[Setting],
) -> Option<PartFailure>
    ensures { result ≡ values_failure catalogue.now scope.now table (set_pairs settings.now) }
{
    match settings {
        [] => None,
        [setting, rest @ ..] => {
            let column = u64::from(setting.column);
            match of_column(catalogue, scope, table, column, &setting.value) {
                Some(failure) => Some(failure),
                None => in_settings(catalogue, scope, table, rest),
            }
        }
    }
}

/// The first failure of a SET list at a row. It allocates nothing.
pub fn settings_failure<R: Rows>(
    catalogue: &Catalogue,
    scope: &Scope<'_, R>,
    table: TableId,
    settings: &[Setting],
    row: &[Value],
) -> Option<PartFailure>
    ensures { result ≡ values_failure catalogue.now (within scope.now row.now) table
        (set_pairs settings.now) }
{
    let ranges = scope.ranges_with(row);
    let here = scope.over(&ranges);
    in_settings(catalogue, &here, table, settings)
}
