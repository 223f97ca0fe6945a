//! Conditions that take effect, and values that are stored in columns ("Store assignment").
ghost use Rattle.std.specs.Prelude.{◌≡◌, Ok};
ghost use Rattle.std.specs.Option.{option_copied};
ghost use Rattle.iv_expr.specs.Evaluation.{value};
ghost use Rattle.iv_machine.specs.Proposals.{column_at, holds, stored_value, value_for_column};
ghost use Rattle.iv_exec_context.specs.Answering.{AnswersCause};

use crate::context::Context;
use iv_catalogue::{Catalogue, Cause, Column};
use iv_expr::{Cond, Expr, Rows, Scope, TableId, eval, truth};
use iv_value::{Fit, Truth, Value, fit};

/// Whether a condition takes effect: only if it is true. It allocates nothing.
pub fn holds<R: Rows>(condition: &Cond, scope: &Scope<'_, R>) -> Result<bool, Cause>
    ensures { result ≡ holds scope.now condition.now }
{
    Ok(matches!(truth(condition, scope)?, Truth::True))
}

fn column_at(catalogue: &Catalogue, table: TableId, column: usize) -> Option<&Column>
    ensures { option_copied result ≡ column_at catalogue.now table column }
{
    match catalogue.tables().get(table.place() as usize) {
        Some(table) => table.columns.get(column),
        None => None,
    }
}

fn value_for_column(column: Option<&Column>, value: Value) -> Result<Value, Cause>
    ensures { result ≡ value_for_column (option_copied column.entry) value }
{
    match column {
        Some(column) => match fit(&value, column.kind) {
            Fit::Yes => Ok(value),
            Fit::WrongKind => Err(Cause::WrongShape),
            Fit::TooLong => Err(Cause::TextTooLong),
        },
        None => Err(Cause::WrongShape),
    }
}

/// The value of an expression for a column of a table: it is evaluated, and has to fit the column.
pub fn stored_value<R: Rows>(
    context: &Context<'_>,
    table: TableId,
    column: usize,
    expression: &Expr,
    scope: &Scope<'_, R>,
) -> Result<Value, Cause>
    ensures { AnswersCause (λ v. v) result
        (stored_value context.now table column (value scope.now expression.now)) }
{
    let value = eval(expression, scope)?;
    value_for_column(column_at(context.catalogue(), table, column), value)
}

/// A copy of a value for a column of a table; it has to fit the column.
pub fn stored_copy(
    context: &Context<'_>,
    table: TableId,
    column: usize,
    value: &Value,
) -> Result<Value, Cause>
    ensures { AnswersCause (λ v. v) result (stored_value context.now table column (Ok value.now)) }
{
    let copy = value.clone()?;
    value_for_column(column_at(context.catalogue(), table, column), copy)
}
