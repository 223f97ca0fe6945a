//! What value expressions and search conditions mean, once every name in them is known to name something. Each function
//! allocates only the tree that it makes.
ghost use Rattle.std.specs.Prelude.{◌≡◌, ◌≤◌, IfOk, Ok, length, option_map};
ghost use Rattle.iv_expr.specs.Trees.{and_c, exists_c, not_c, or_c, times};
ghost use Rattle.iv_resolution.specs.Terms.{bound_column, bound_condition, bound_expression, bound_filter, bound_sign, bound_sum, integer_of};
ghost use Rattle.iv_resolve_scope.specs.Seen.{found_seen, names_seen, ranges_seen};

use crate::names::{Names, inside, source_range};
use crate::ranges::{Found, Ranges, column_meant};
use iv_catalogue::MOST_TABLES;
use iv_expr::{Cond, Expr, Range, boxes};
use iv_resolution::Origin;
use iv_syntax::{Condition, Expression, GREATEST_INTEGER, Sign};
use iv_value::Value;
use sqlite_items::Boxed;
use std::alloc::{AllocError, Global};

/// The integer that a number is, or the greatest if the number is beyond it.
#[tactic(auto, unfolding(iv_resolution::specs::Terms::integer_of))]
pub fn integer_of(number: u64) -> i64
    ensures { result ≡ integer_of number }
{
    number.min(GREATEST_INTEGER) as i64
}

fn bound_column(found: Option<Found>) -> Expr
    ensures { result ≡ bound_column (option_map found_seen found) }
{
    match found {
        Some(found) => match found.origin {
            Origin::Rows => Expr::Column(found.outward, found.place),
            Origin::Variable(side) => Expr::Variable(side, found.place),
        },
        None => Expr::Literal(Value::Null),
    }
}

// Both, if the second is there. Here and below a generic function owns what falls if an allocation fails, so that it is
// dropped by a call, as in `boxes` of `iv_expr`.
fn pair<T: Drop>(a: T, b: Result<T, AllocError>) -> Result<(T, T), AllocError>
    ensures { IfOk result (λ p. (p.0 ≡ a) × (b ≡ Ok p.1)) }
{
    match b {
        Ok(b) => Ok((a, b)),
        Err(refused) => {
            drop(a);
            Err(refused)
        }
    }
}

// Unary minus is 0 minus the operand.
#[tactic(auto, using(iv_expr::proofs::Trees::minus_is))]
fn bound_sign(alloc: Global, sign: Sign, a: Expr) -> Result<Expr, AllocError>
    ensures { IfOk result (λ e. e ≡ bound_sign sign a) }
{
    match sign {
        Sign::Plus => Ok(a),
        Sign::Minus => {
            let (zero, a) = boxes(alloc, Expr::Literal(Value::Int(0)), a)?;
            Ok(Expr::Minus(zero, a))
        }
    }
}

#[tactic(auto, using(iv_expr::proofs::Trees::plus_is, iv_expr::proofs::Trees::minus_is))]
fn bound_sum(alloc: Global, sign: Sign, a: Expr, b: Expr) -> Result<Expr, AllocError>
    ensures { IfOk result (λ e. e ≡ bound_sum sign a b) }
{
    let (a, b) = boxes(alloc, a, b)?;
    match sign {
        Sign::Plus => Ok(Expr::Plus(a, b)),
        Sign::Minus => Ok(Expr::Minus(a, b)),
    }
}

#[tactic(auto, using(iv_expr::proofs::Trees::times_is))]
fn bound_product(alloc: Global, a: Expr, b: Expr) -> Result<Expr, AllocError>
    ensures { IfOk result (λ e. e ≡ times a b) }
{
    let (a, b) = boxes(alloc, a, b)?;
    Ok(Expr::Times(a, b))
}

/// What an expression means.
#[tactic(auto, using(crate::proofs::Steps::bound_expression_steps))]
pub fn bound_expression<'a>(
    alloc: Global,
    expression: &'a Expression,
    ranges: &'a Ranges<'a>,
) -> Result<Expr, AllocError>
    ensures { IfOk result (λ e. e ≡ bound_expression (ranges_seen ranges.now) expression.now) }
{
    match expression {
        Expression::Number(number) => Ok(Expr::Literal(Value::Int(integer_of(*number)))),
        Expression::Text(text) => Ok(Expr::Literal(Value::Text(text.clone()?))),
        Expression::Null => Ok(Expr::Literal(Value::Null)),
        Expression::Column(column) => Ok(bound_column(column_meant(column, ranges))),
        Expression::Group(a) => bound_expression(alloc, a.get(), ranges),
        Expression::Signed(sign, a) => {
            let a = bound_expression(alloc, a.get(), ranges)?;
            bound_sign(alloc, *sign, a)
        }
        Expression::Product(a, b) => {
            let a = bound_expression(alloc, a.get(), ranges)?;
            let (a, b) = pair(a, bound_expression(alloc, b.get(), ranges))?;
            bound_product(alloc, a, b)
        }
        Expression::Sum(sign, a, b) => {
            let a = bound_expression(alloc, a.get(), ranges)?;
            let (a, b) = pair(a, bound_expression(alloc, b.get(), ranges))?;
            bound_sum(alloc, *sign, a, b)
        }
    }
}

#[tactic(auto, using(iv_expr::proofs::Trees::not_is))]
fn negated(alloc: Global, a: Cond) -> Result<Cond, AllocError>
    ensures { IfOk result (λ c. c ≡ not_c a) }
{
    Ok(Cond::Not(Boxed::new(alloc, a)?))
}

#[tactic(auto, using(iv_expr::proofs::Trees::and_is))]
fn both(alloc: Global, a: Cond, b: Cond) -> Result<Cond, AllocError>
    ensures { IfOk result (λ c. c ≡ and_c a b) }
{
    let (a, b) = boxes(alloc, a, b)?;
    Ok(Cond::And(a, b))
}

#[tactic(auto, using(iv_expr::proofs::Trees::or_is))]
fn either(alloc: Global, a: Cond, b: Cond) -> Result<Cond, AllocError>
    ensures { IfOk result (λ c. c ≡ or_c a b) }
{
    let (a, b) = boxes(alloc, a, b)?;
    Ok(Cond::Or(a, b))
}

#[tactic(auto, using(iv_expr::proofs::Trees::exists_is))]
fn exists(alloc: Global, range: Range, a: Cond) -> Result<Cond, AllocError>
    ensures { IfOk result (λ c. c ≡ exists_c range a) }
{
    Ok(Cond::Exists(range, Boxed::new(alloc, a)?))
}

/// What a condition means.
#[tactic(auto, using(crate::proofs::Steps::bound_condition_steps))]
pub fn bound_condition<'a>(
    alloc: Global,
    condition: &'a Condition,
    names: &'a Names<'a>,
    ranges: &'a Ranges<'a>,
) -> Result<Cond, AllocError>
    requires { length names.now.tables.now ≤ MOST_TABLES }
    ensures { IfOk result (λ c.
        c ≡ bound_condition (names_seen names.now) (ranges_seen ranges.now) condition.now) }
{
    match condition {
        Condition::Compare(op, a, b) => {
            let a = bound_expression(alloc, a, ranges)?;
            let (a, b) = pair(a, bound_expression(alloc, b, ranges))?;
            Ok(Cond::Compare(*op, a, b))
        }
        Condition::IsNull(a) => Ok(Cond::IsNull(bound_expression(alloc, a, ranges)?)),
        Condition::IsNotNull(a) => {
            let a = bound_expression(alloc, a, ranges)?;
            negated(alloc, Cond::IsNull(a))
        }
        Condition::Exists(range) => {
            let source = source_range(names, range.table.as_str());
            exists(alloc, source, Cond::Always)
        }
        Condition::ExistsWhere(range, a) => {
            let inner = inside(range, names, ranges);
            let a = bound_condition(alloc, a.get(), names, &inner)?;
            let source = source_range(names, range.table.as_str());
            exists(alloc, source, a)
        }
        Condition::Group(a) => bound_condition(alloc, a.get(), names, ranges),
        Condition::Not(a) => {
            let a = bound_condition(alloc, a.get(), names, ranges)?;
            negated(alloc, a)
        }
        Condition::And(a, b) => {
            let a = bound_condition(alloc, a.get(), names, ranges)?;
            let (a, b) = pair(a, bound_condition(alloc, b.get(), names, ranges))?;
            both(alloc, a, b)
        }
        Condition::Or(a, b) => {
            let a = bound_condition(alloc, a.get(), names, ranges)?;
            let (a, b) = pair(a, bound_condition(alloc, b.get(), names, ranges))?;
            either(alloc, a, b)
        }
    }
}

/// The same of a condition that may be left out, which is true of every row.
pub fn bound_filter<'a>(
    alloc: Global,
    filter: &'a Option<Condition>,
    names: &'a Names<'a>,
    ranges: &'a Ranges<'a>,
) -> Result<Cond, AllocError>
    requires { length names.now.tables.now ≤ MOST_TABLES }
    ensures { IfOk result (λ c.
        c ≡ bound_filter (names_seen names.now) (ranges_seen ranges.now) filter.now) }
{
    match filter {
        Some(condition) => bound_condition(alloc, condition, names, ranges),
        None => Ok(Cond::Always),
    }
}
