//! The first operation of an expression that fails.
ghost use Rattle.std.specs.Prelude.{◌≡◌};
ghost use Rattle.iv_value.specs.References.{value_of};
ghost use Rattle.iv_value.specs.Values.{checked};
ghost use Rattle.iv_value.specs.declared.value.Value.TheVariants as variant;
ghost use Rattle.iv_expr.specs.References.{result_of};
ghost use Rattle.iv_account.specs.Failures.{expression_failure, in_parts, operation, out_of_range};

use iv_account::{Operator, ValueFailure};
use iv_expr::{Expr, ExprFault, Rows, Scope, eval_ref};
use iv_value::{ValueRef, minus, plus, times};

fn apply(operator: Operator, left: i64, right: i64) -> Option<i64>
    ensures { result ≡ checked (operation operator left right) }
{
    match operator {
        Operator::Plus => plus(left, right),
        Operator::Minus => minus(left, right),
        Operator::Times => times(left, right),
    }
}

fn on_numbers(operator: Operator, left: i64, right: i64) -> Option<ValueFailure>
    ensures { result ≡ out_of_range operator (variant.Int left) (variant.Int right) }
{
    match apply(operator, left, right) {
        Some(_) => None,
        None => Some(ValueFailure::OutOfRange {
            left,
            operator,
            right,
        }),
    }
}

// An operation whose result is no INTEGER.
fn out_of_range(operator: Operator, left: ValueRef<'_>, right: ValueRef<'_>) -> Option<ValueFailure>
    ensures { result ≡ out_of_range operator (value_of left.entry) (value_of right.entry) }
{
    match (left, right) {
        (ValueRef::Int(left), ValueRef::Int(right)) => on_numbers(operator, left, right),
        _ => None,
    }
}

// What fails of an operation on these operands, in which this fails.
fn in_operands(
    operator: Operator,
    left: Result<ValueRef<'_>, ExprFault>,
    right: Result<ValueRef<'_>, ExprFault>,
    in_left: Option<ValueFailure>,
    in_right: Option<ValueFailure>,
) -> Option<ValueFailure>
    ensures { result ≡ in_parts (result_of left.entry) (result_of right.entry) in_left in_right
        (out_of_range operator) }
{
    match (left, right) {
        (Ok(left), Ok(right)) => out_of_range(operator, left, right),
        (Ok(_), Err(_)) => in_right,
        (Err(_), _) => in_left,
    }
}

/// The first operation of an expression that fails. It allocates nothing.
#[tactic(auto, using(crate::proofs::Failing::plus_failure, crate::proofs::Failing::minus_failure, crate::proofs::Failing::times_failure))]
pub fn expression_failure<R: Rows>(expression: &Expr, scope: &Scope<'_, R>) -> Option<ValueFailure>
    ensures { result ≡ expression_failure scope.now expression.now }
{
    match expression {
        Expr::Plus(left, right) => in_operands(
            Operator::Plus,
            eval_ref(left.get(), &*scope),
            eval_ref(right.get(), &*scope),
            expression_failure(left.get(), scope),
            expression_failure(right.get(), scope),
        ),
        Expr::Minus(left, right) => in_operands(
            Operator::Minus,
            eval_ref(left.get(), &*scope),
            eval_ref(right.get(), &*scope),
            expression_failure(left.get(), scope),
            expression_failure(right.get(), scope),
        ),
        Expr::Times(left, right) => in_operands(
            Operator::Times,
            eval_ref(left.get(), &*scope),
            eval_ref(right.get(), &*scope),
            expression_failure(left.get(), scope),
            expression_failure(right.get(), scope),
        ),
        Expr::Literal(_) => None,
        Expr::Column(_, _) => None,
        Expr::Variable(_, _) => None,
    }
}
