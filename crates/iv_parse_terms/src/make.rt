//! Trees made of trees.
ghost use Rattle.std.specs.Prelude.{◌≡◌, IfOk};
ghost use Rattle.iv_syntax.specs.Trees.{group, signed, enclosed, negated, exists_where};
ghost use Rattle.iv_parse_terms.specs.readers.Expressions.{joined};
ghost use Rattle.iv_parse_terms.specs.readers.Conditions.{connection};

use crate::item::Connective;
use iv_expr::boxes;
use iv_syntax::{Condition, Expression, RangeName, Sign};
use sqlite_items::Boxed;
use std::alloc::{AllocError, Global};

/// The expression in parentheses.
#[tactic(auto, using(iv_syntax::proofs::TreeShapes::group_is))]
pub fn group_of(alloc: Global, a: Expression) -> Result<Expression, AllocError>
    ensures { IfOk result (λ e. e ≡ group a) }
{
    Ok(Expression::Group(Boxed::new(alloc, a)?))
}

/// The sign and its operand.
#[tactic(auto, using(iv_syntax::proofs::TreeShapes::signed_is))]
pub fn signed_of(alloc: Global, sign: Sign, a: Expression) -> Result<Expression, AllocError>
    ensures { IfOk result (λ e. e ≡ signed sign a) }
{
    Ok(Expression::Signed(sign, Boxed::new(alloc, a)?))
}

/// The product of two expressions, or their sum or difference where there is a sign.
pub fn joined_of(
    alloc: Global,
    sign: Option<Sign>,
    a: Expression,
    b: Expression,
) -> Result<Expression, AllocError>
    ensures { IfOk result (λ e. e ≡ joined sign a b) }
{
    let (a, b) = boxes(alloc, a, b)?;
    match sign {
        Some(sign) => Ok(Expression::Sum(sign, a, b)),
        None => Ok(Expression::Product(a, b)),
    }
}

/// The condition in parentheses.
#[tactic(auto, using(iv_syntax::proofs::TreeShapes::enclosed_is))]
pub fn enclosed_of(alloc: Global, a: Condition) -> Result<Condition, AllocError>
    ensures { IfOk result (λ c. c ≡ enclosed a) }
{
    Ok(Condition::Group(Boxed::new(alloc, a)?))
}

/// NOT and its condition.
#[tactic(auto, using(iv_syntax::proofs::TreeShapes::negated_is))]
pub fn negated_of(alloc: Global, a: Condition) -> Result<Condition, AllocError>
    ensures { IfOk result (λ c. c ≡ negated a) }
{
    Ok(Condition::Not(Boxed::new(alloc, a)?))
}

/// Two conditions with AND or OR between them.
pub fn connected_of(
    alloc: Global,
    connective: Connective,
    a: Condition,
    b: Condition,
) -> Result<Condition, AllocError>
    ensures { IfOk result (λ c. c ≡ connection connective a b) }
{
    let (a, b) = boxes(alloc, a, b)?;
    match connective {
        Connective::And => Ok(Condition::And(a, b)),
        Connective::Or => Ok(Condition::Or(a, b)),
    }
}

/// EXISTS over a table with a condition.
#[tactic(auto, using(iv_syntax::proofs::TreeShapes::exists_where_is))]
pub fn exists_where_of(
    alloc: Global,
    range: RangeName,
    a: Condition,
) -> Result<Condition, AllocError>
    ensures { IfOk result (λ c. c ≡ exists_where range a) }
{
    Ok(Condition::ExistsWhere(range, Boxed::new(alloc, a)?))
}
