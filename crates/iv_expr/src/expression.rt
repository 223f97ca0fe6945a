//! The value of an expression.
ghost use Rattle.std.specs.Prelude.{◌≡◌, ◌≢◌, Err, Ok, Some};
ghost use Rattle.std.specs.Option.{option_copied};
ghost use Rattle.iv_expr.specs.Evaluation.{column_of, value};
ghost use Rattle.iv_value.specs.References.{value_of};
ghost use Rattle.iv_expr.specs.References.{CopyOf, result_of};
ghost use Rattle.iv_expr.specs.Suiting.{SuitsExpr};
ghost use Rattle.iv_expr.specs.declared.tree.ExprFault.TheVariants as fault;

use crate::operators::{Operator, operate};
use crate::scope::{Rows, Scope};
use crate::tree::{Expr, ExprFault};
use iv_value::{Value, ValueRef};

/// The value of an expression in a scope. It allocates only the copy of a text.
pub fn eval<R: Rows>(expr: &Expr, scope: &Scope<'_, R>) -> Result<Value, ExprFault>
    ensures value { CopyOf (value scope.now expr.now) result }
    ensures suited { SuitsExpr scope.now expr.now → result ≢ Err fault.IllTyped }
{
    match value_in(expr, scope) {
        Ok(value) => copy(value),
        Err(fault) => Err(fault),
    }
}

fn copy(value: ValueRef<'_>) -> Result<Value, ExprFault>
    ensures { CopyOf (Ok (value_of value.entry)) result }
{
    match value.to_value() {
        Ok(value) => Ok(value),
        Err(_) => Err(ExprFault::NoMemory),
    }
}

/// The value of an expression in a scope, borrowed if it is a text. It allocates nothing.
pub fn eval_ref<'a, R: Rows>(
    expr: &'a Expr,
    scope: &'a Scope<'a, R>,
) -> Result<ValueRef<'a>, ExprFault>
    ensures value { result_of result ≡ value scope.entry.now expr.entry.now }
    ensures suited { SuitsExpr scope.entry.now expr.entry.now → result ≢ Err fault.IllTyped }
{
    value_in(expr, scope)
}

#[tactic(auto, using(crate::proofs::Steps::value_plus, crate::proofs::Steps::value_minus, crate::proofs::Steps::value_times))]
pub fn value_in<'a, R: Rows>(
    expr: &'a Expr,
    scope: &'a Scope<'a, R>,
) -> Result<ValueRef<'a>, ExprFault>
    ensures { result_of result ≡ value scope.entry.now expr.entry.now }
{
    match expr {
        Expr::Literal(literal) => Ok(literal.as_ref()),
        Expr::Column(range, column) => column_in(scope.range(*range), *column),
        Expr::Variable(side, column) => column_in(scope.variable(*side), *column),
        Expr::Plus(left, right) => operate(
            Operator::Plus,
            value_in(left.get(), scope),
            value_in(right.get(), scope),
        ),
        Expr::Minus(left, right) => operate(
            Operator::Minus,
            value_in(left.get(), scope),
            value_in(right.get(), scope),
        ),
        Expr::Times(left, right) => operate(
            Operator::Times,
            value_in(left.get(), scope),
            value_in(right.get(), scope),
        ),
    }
}

fn column_in(row: Option<&[Value]>, column: u32) -> Result<ValueRef<'_>, ExprFault>
    ensures { result_of result ≡ column_of (option_copied row.entry) column }
{
    match row {
        Some(row) => column_at(row, column),
        None => Err(ExprFault::IllTyped),
    }
}

fn column_at(row: &[Value], column: u32) -> Result<ValueRef<'_>, ExprFault>
    ensures { result_of result ≡ column_of (Some row.now) column }
{
    match row.get(column as usize) {
        Some(value) => Ok(value.as_ref()),
        None => Err(ExprFault::IllTyped),
    }
}
