//! Operations with parentheses where the grammar needs them.
ghost use Rattle.std.specs.Prelude.{◌≡◌, ◌&&◌, ◌||◌, Ok, IfOk};
ghost use Rattle.iv_syntax.specs.Trees.{both, either, enclosed, group, negated, product, signed, sum};
ghost use Rattle.iv_restate.specs.Parentheses.{all_of, as_conjunction, as_factor, as_negation, as_term, as_test, denied, difference};
ghost use Rattle.iv_restate.specs.Parentheses.{is_atom, is_both, is_either, is_negated, is_product, is_sum, is_zero, multiplied, one_of, summed, takes_sign};

use iv_expr::boxes;
use iv_syntax::{Condition, Expression, Sign};
use sqlite_items::Boxed;
use std::alloc::{AllocError, Global};

/// Both, if the second is there. It is generic, so that a tree is dropped by a call if an allocation fails.
pub fn pair<T: Drop>(a: T, b: Result<T, AllocError>) -> Result<(T, T), AllocError>
    ensures { IfOk result (λ p. (p.0 ≡ a) × (b ≡ Ok p.1)) }
{
    match b {
        Ok(b) => Ok((a, b)),
        Err(refused) => {
            drop(a);
            Err(refused)
        }
    }
}

#[tactic(auto, using(crate::proofs::Steps::is_sum_steps))]
fn is_sum(expression: &Expression) -> bool
    ensures { result ≡ is_sum expression.now }
{
    match expression {
        Expression::Sum(_, _, _) => true,
        Expression::Number(_) => false,
        Expression::Text(_) => false,
        Expression::Null => false,
        Expression::Column(_) => false,
        Expression::Group(_) => false,
        Expression::Signed(_, _) => false,
        Expression::Product(_, _) => false,
    }
}

#[tactic(auto, using(crate::proofs::Steps::is_product_steps))]
fn is_product(expression: &Expression) -> bool
    ensures { result ≡ is_product expression.now }
{
    match expression {
        Expression::Product(_, _) => true,
        Expression::Number(_) => false,
        Expression::Text(_) => false,
        Expression::Null => false,
        Expression::Column(_) => false,
        Expression::Group(_) => false,
        Expression::Signed(_, _) => false,
        Expression::Sum(_, _, _) => false,
    }
}

#[tactic(auto, using(crate::proofs::Steps::is_atom_steps))]
fn is_atom(expression: &Expression) -> bool
    ensures { result ≡ is_atom expression.now }
{
    match expression {
        Expression::Number(_) => true,
        Expression::Text(_) => true,
        Expression::Null => true,
        Expression::Column(_) => true,
        _ => false,
    }
}

#[tactic(auto, using(crate::proofs::Steps::is_zero_steps))]
fn is_zero(expression: &Expression) -> bool
    ensures { result ≡ is_zero expression.now }
{
    match expression {
        Expression::Number(number) => *number == 0,
        _ => false,
    }
}

#[tactic(auto, using(iv_syntax::proofs::TreeShapes::group_is))]
fn grouped(alloc: Global, expression: Expression) -> Result<Expression, AllocError>
    ensures { IfOk result (λ e. e ≡ group expression) }
{
    Ok(Expression::Group(Boxed::new(alloc, expression)?))
}

fn as_term(alloc: Global, expression: Expression) -> Result<Expression, AllocError>
    ensures { IfOk result (λ e. e ≡ as_term expression) }
{
    if is_sum(&expression) {
        return grouped(alloc, expression);
    }
    Ok(expression)
}

fn as_factor(alloc: Global, expression: Expression) -> Result<Expression, AllocError>
    ensures { IfOk result (λ e. e ≡ as_factor expression) }
{
    if is_sum(&expression) || is_product(&expression) {
        return grouped(alloc, expression);
    }
    Ok(expression)
}

/// A sign before an operand.
#[tactic(auto, using(iv_syntax::proofs::TreeShapes::signed_is))]
pub fn signed(alloc: Global, sign: Sign, a: Expression) -> Result<Expression, AllocError>
    ensures { IfOk result (λ e. e ≡ signed sign a) }
{
    Ok(Expression::Signed(sign, Boxed::new(alloc, a)?))
}

#[tactic(auto, using(iv_syntax::proofs::TreeShapes::sum_is))]
fn sum(alloc: Global, sign: Sign, a: Expression, b: Expression) -> Result<Expression, AllocError>
    ensures { IfOk result (λ e. e ≡ sum sign a b) }
{
    let (a, b) = boxes(alloc, a, b)?;
    Ok(Expression::Sum(sign, a, b))
}

#[tactic(auto, using(iv_syntax::proofs::TreeShapes::product_is))]
fn product(alloc: Global, a: Expression, b: Expression) -> Result<Expression, AllocError>
    ensures { IfOk result (λ e. e ≡ product a b) }
{
    let (a, b) = boxes(alloc, a, b)?;
    Ok(Expression::Product(a, b))
}

/// A sum or a difference.
pub fn summed(
    alloc: Global,
    sign: Sign,
    a: Expression,
    b: Expression,
) -> Result<Expression, AllocError>
    ensures { IfOk result (λ e. e ≡ summed sign a b) }
{
    let (a, b) = pair(a, as_term(alloc, b))?;
    sum(alloc, sign, a, b)
}

// Whether a sign before it, and before its parentheses, makes no tree deeper than `0 -` does.
fn takes_sign(expression: &Expression) -> bool
    ensures { result ≡ takes_sign expression.now }
{
    is_atom(expression) || is_sum(expression)
}

/// A difference; 0 minus a number, a text, NULL, a column or a sum is that with a sign.
pub fn difference(alloc: Global, a: Expression, b: Expression) -> Result<Expression, AllocError>
    ensures { IfOk result (λ e. e ≡ difference a b) }
{
    if is_zero(&a) && takes_sign(&b) {
        drop(a);
        let operand = as_term(alloc, b)?;
        return signed(alloc, Sign::Minus, operand);
    }
    summed(alloc, Sign::Minus, a, b)
}

/// A product.
pub fn multiplied(alloc: Global, a: Expression, b: Expression) -> Result<Expression, AllocError>
    ensures { IfOk result (λ e. e ≡ multiplied a b) }
{
    let (b, a) = pair(b, as_term(alloc, a))?;
    let (a, b) = pair(a, as_factor(alloc, b))?;
    product(alloc, a, b)
}

#[tactic(auto, using(crate::proofs::Steps::is_negated_steps))]
fn is_negated(condition: &Condition) -> bool
    ensures { result ≡ is_negated condition.now }
{
    matches!(condition, Condition::Not(_))
}

#[tactic(auto, using(crate::proofs::Steps::is_both_steps))]
fn is_both(condition: &Condition) -> bool
    ensures { result ≡ is_both condition.now }
{
    matches!(condition, Condition::And(_, _))
}

#[tactic(auto, using(crate::proofs::Steps::is_either_steps))]
fn is_either(condition: &Condition) -> bool
    ensures { result ≡ is_either condition.now }
{
    matches!(condition, Condition::Or(_, _))
}

#[tactic(auto, using(iv_syntax::proofs::TreeShapes::enclosed_is))]
fn enclosed(alloc: Global, condition: Condition) -> Result<Condition, AllocError>
    ensures { IfOk result (λ c. c ≡ enclosed condition) }
{
    Ok(Condition::Group(Boxed::new(alloc, condition)?))
}

fn as_conjunction(alloc: Global, condition: Condition) -> Result<Condition, AllocError>
    ensures { IfOk result (λ c. c ≡ as_conjunction condition) }
{
    if is_either(&condition) {
        return enclosed(alloc, condition);
    }
    Ok(condition)
}

fn as_negation(alloc: Global, condition: Condition) -> Result<Condition, AllocError>
    ensures { IfOk result (λ c. c ≡ as_negation condition) }
{
    if is_either(&condition) || is_both(&condition) {
        return enclosed(alloc, condition);
    }
    Ok(condition)
}

fn as_test(alloc: Global, condition: Condition) -> Result<Condition, AllocError>
    ensures { IfOk result (λ c. c ≡ as_test condition) }
{
    if is_either(&condition) || (is_both(&condition) || is_negated(&condition)) {
        return enclosed(alloc, condition);
    }
    Ok(condition)
}

#[tactic(auto, using(iv_syntax::proofs::TreeShapes::negated_is))]
fn negated(alloc: Global, condition: Condition) -> Result<Condition, AllocError>
    ensures { IfOk result (λ c. c ≡ negated condition) }
{
    Ok(Condition::Not(Boxed::new(alloc, condition)?))
}

#[tactic(auto, using(iv_syntax::proofs::TreeShapes::both_is))]
fn both(alloc: Global, a: Condition, b: Condition) -> Result<Condition, AllocError>
    ensures { IfOk result (λ c. c ≡ both a b) }
{
    let (a, b) = boxes(alloc, a, b)?;
    Ok(Condition::And(a, b))
}

#[tactic(auto, using(iv_syntax::proofs::TreeShapes::either_is))]
fn either(alloc: Global, a: Condition, b: Condition) -> Result<Condition, AllocError>
    ensures { IfOk result (λ c. c ≡ either a b) }
{
    let (a, b) = boxes(alloc, a, b)?;
    Ok(Condition::Or(a, b))
}

/// NOT over a condition.
pub fn denied(alloc: Global, condition: Condition) -> Result<Condition, AllocError>
    ensures { IfOk result (λ c. c ≡ denied condition) }
{
    let condition = as_test(alloc, condition)?;
    negated(alloc, condition)
}

/// Both conditions, by AND.
pub fn all_of(alloc: Global, a: Condition, b: Condition) -> Result<Condition, AllocError>
    ensures { IfOk result (λ c. c ≡ all_of a b) }
{
    let (b, a) = pair(b, as_conjunction(alloc, a))?;
    let (a, b) = pair(a, as_negation(alloc, b))?;
    both(alloc, a, b)
}

/// One of the conditions, by OR.
pub fn one_of(alloc: Global, a: Condition, b: Condition) -> Result<Condition, AllocError>
    ensures { IfOk result (λ c. c ≡ one_of a b) }
{
    let (a, b) = pair(a, as_conjunction(alloc, b))?;
    either(alloc, a, b)
}
