//! The operators, over the results of their operands: if one is a fault, the left one's comes first.
ghost use Rattle.std.specs.Prelude.{◌≡◌, ◌||◌, Ok};
ghost use Rattle.iv_value.specs.References.{value_of};
ghost use Rattle.iv_value.specs.Truths.{is_true, truth_and, truth_not, truth_of, truth_or};
ghost use Rattle.iv_value.specs.Values.{checked, is_null};
ghost use Rattle.iv_expr.specs.Evaluation.{accepts, and_then, arithmetic, both, comparison_of};
ghost use Rattle.iv_expr.specs.References.{operation, result_of};

use crate::tree::{Comparison, ExprFault};
use iv_value::{Truth, ValueRef, minus, plus, times};
use std::cmp::Ordering;

/// The arithmetic operators.
#[derive(Clone, Copy)]
pub enum Operator {
    Plus,
    Minus,
    Times,
}

/// The operation on two operands.
pub fn operate<'a>(
    operator: Operator,
    left: Result<ValueRef<'a>, ExprFault>,
    right: Result<ValueRef<'a>, ExprFault>,
) -> Result<ValueRef<'a>, ExprFault>
    ensures { result_of result
        ≡ both (arithmetic (operation operator)) (result_of left.entry) (result_of right.entry) }
{
    match (left, right) {
        (Ok(left), Ok(right)) => calculate(operator, left, right),
        (Ok(_), Err(fault)) => Err(fault),
        (Err(fault), _) => Err(fault),
    }
}

fn calculate<'a>(
    operator: Operator,
    left: ValueRef<'a>,
    right: ValueRef<'a>,
) -> Result<ValueRef<'a>, ExprFault>
    ensures { result_of result
        ≡ arithmetic (operation operator) (value_of left.entry) (value_of right.entry) }
{
    match (left, right) {
        (ValueRef::Int(left), ValueRef::Int(right)) => match apply(operator, left, right) {
            Some(number) => Ok(ValueRef::Int(number)),
            None => Err(ExprFault::OutOfRange),
        },
        (ValueRef::Null, ValueRef::Int(_))
        | (ValueRef::Int(_), ValueRef::Null)
        | (ValueRef::Null, ValueRef::Null) => Ok(ValueRef::Null),
        _ => Err(ExprFault::IllTyped),
    }
}

fn apply(operator: Operator, left: i64, right: i64) -> Option<i64>
    ensures { result ≡ checked (operation operator left right) }
{
    match operator {
        Operator::Plus => plus(left, right),
        Operator::Minus => minus(left, right),
        Operator::Times => times(left, right),
    }
}

/// The comparison of two operands.
pub fn compare_both(
    comparison: Comparison,
    left: Result<ValueRef<'_>, ExprFault>,
    right: Result<ValueRef<'_>, ExprFault>,
) -> Result<Truth, ExprFault>
    ensures { result ≡ both (comparison_of comparison) (result_of left.entry)
        (result_of right.entry) }
{
    match (left, right) {
        (Ok(left), Ok(right)) => compare_by(comparison, left, right),
        (Ok(_), Err(fault)) => Err(fault),
        (Err(fault), _) => Err(fault),
    }
}

fn compare_by(
    comparison: Comparison,
    left: ValueRef<'_>,
    right: ValueRef<'_>,
) -> Result<Truth, ExprFault>
    ensures { result ≡ comparison_of comparison (value_of left.entry) (value_of right.entry) }
{
    match left.compare(right) {
        Some(order) => Ok(Truth::of(comparison.accepts(order))),
        None => {
            if left.is_null() || right.is_null() {
                Ok(Truth::Unknown)
            } else {
                Err(ExprFault::IllTyped)
            }
        }
    }
}

impl Comparison {
    /// Whether operands in this order meet the comparison.
    pub fn accepts(self, order: Ordering) -> bool
        ensures { result ≡ accepts self order }
    {
        match self {
            Comparison::Equal => order.is_eq(),
            Comparison::NotEqual => order.is_ne(),
            Comparison::Less => order.is_lt(),
            Comparison::LessEqual => order.is_le(),
            Comparison::Greater => order.is_gt(),
            Comparison::GreaterEqual => order.is_ge(),
        }
    }
}

/// IS NULL of an operand.
pub fn is_null_of(operand: Result<ValueRef<'_>, ExprFault>) -> Result<Truth, ExprFault>
    ensures { result ≡ and_then (result_of operand.entry) (λ v. Ok (truth_of (is_null v))) }
{
    Ok(Truth::of(operand?.is_null()))
}

/// NOT of an operand.
pub fn not_of(operand: Result<Truth, ExprFault>) -> Result<Truth, ExprFault>
    ensures { result ≡ and_then operand (λ t. Ok (truth_not t)) }
{
    Ok(operand?.not())
}

/// AND of two operands.
pub fn and_both(
    left: Result<Truth, ExprFault>,
    right: Result<Truth, ExprFault>,
) -> Result<Truth, ExprFault>
    ensures { result ≡ both (λ x y. Ok (truth_and x y)) left right }
{
    match (left, right) {
        (Ok(left), Ok(right)) => Ok(left.and(right)),
        (Ok(_), Err(fault)) => Err(fault),
        (Err(fault), _) => Err(fault),
    }
}

/// OR of two operands.
pub fn or_both(
    left: Result<Truth, ExprFault>,
    right: Result<Truth, ExprFault>,
) -> Result<Truth, ExprFault>
    ensures { result ≡ both (λ x y. Ok (truth_or x y)) left right }
{
    match (left, right) {
        (Ok(left), Ok(right)) => Ok(left.or(right)),
        (Ok(_), Err(fault)) => Err(fault),
        (Err(fault), _) => Err(fault),
    }
}

/// Whether one more row makes a condition true, or one did before.
pub fn or_true(found: bool, truth: Truth) -> bool
    ensures { result ≡ (found || is_true truth) }
{
    found || matches!(truth, Truth::True)
}
