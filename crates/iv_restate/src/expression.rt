//! The trees of expressions.
ghost use Rattle.std.specs.Prelude.{◌≡◌, IfOk};
ghost use Rattle.iv_restate.specs.Seen.{naming_seen, ranges_seen};
ghost use Rattle.iv_restate.specs.Trees.{column_or_null, expression_of, least_integer, literal_of};
ghost use Rattle.iv_value.specs.declared.value.Value.TheVariants as value;

use crate::naming::{Naming, variable_named};
use crate::parentheses::{difference, multiplied, pair, signed, summed};
use crate::scope::{Scope, column_named};
use iv_expr::Expr;
use iv_syntax::{ColumnName, Expression, GREATEST_INTEGER, Sign};
use iv_value::Value;
use std::alloc::{AllocError, Global};

// The least integer: the greatest with a minus sign, and 1 less.
fn least_integer(alloc: Global) -> Result<Expression, AllocError>
    ensures { IfOk result (λ e. e ≡ least_integer) }
{
    let greatest = signed(alloc, Sign::Minus, Expression::Number(GREATEST_INTEGER))?;
    summed(alloc, Sign::Minus, greatest, Expression::Number(1))
}

fn integer(alloc: Global, number: i64) -> Result<Expression, AllocError>
    ensures { IfOk result (λ e. e ≡ literal_of (value.Int number)) }
{
    if number == i64::MIN {
        return least_integer(alloc);
    }
    if number < 0 {
        return signed(alloc, Sign::Minus, Expression::Number((-number) as u64));
    }
    Ok(Expression::Number(number as u64))
}

/// The expression that a value is: a literal, with a minus sign if it is a number below 0; the least integer is a
/// difference.
pub fn literal_of(alloc: Global, value: &Value) -> Result<Expression, AllocError>
    ensures { IfOk result (λ e. e ≡ literal_of value.now) }
{
    match value {
        Value::Null => Ok(Expression::Null),
        Value::Int(number) => integer(alloc, *number),
        Value::Text(characters) => Ok(Expression::Text(characters.clone()?)),
    }
}

fn column_or_null(name: Option<ColumnName>) -> Expression
    ensures { result ≡ column_or_null name }
{
    match name {
        Some(name) => Expression::Column(name),
        None => Expression::Null,
    }
}

/// The tree of an expression: with parentheses where the grammar needs them, and a name for each column.
#[tactic(auto, using(crate::proofs::Steps::expression_of_steps))]
pub fn expression_of<'a>(
    alloc: Global,
    naming: &Naming<'_>,
    scope: &'a Scope<'a>,
    expr: &Expr,
) -> Result<Expression, AllocError>
    ensures { IfOk result (λ e.
        e ≡ expression_of (naming_seen naming.now) (ranges_seen scope.now) expr.now) }
{
    match expr {
        Expr::Literal(value) => literal_of(alloc, value),
        Expr::Column(outward, place) => {
            Ok(column_or_null(column_named(alloc, scope, *outward, *place)?))
        }
        Expr::Variable(side, place) => {
            Ok(column_or_null(variable_named(alloc, naming, *side, *place)?))
        }
        Expr::Plus(a, b) => {
            let a = expression_of(alloc, naming, scope, a.get())?;
            let (a, b) = pair(a, expression_of(alloc, naming, scope, b.get()))?;
            summed(alloc, Sign::Plus, a, b)
        }
        Expr::Minus(a, b) => {
            let a = expression_of(alloc, naming, scope, a.get())?;
            let (a, b) = pair(a, expression_of(alloc, naming, scope, b.get()))?;
            difference(alloc, a, b)
        }
        Expr::Times(a, b) => {
            let a = expression_of(alloc, naming, scope, a.get())?;
            let (a, b) = pair(a, expression_of(alloc, naming, scope, b.get()))?;
            multiplied(alloc, a, b)
        }
    }
}
