//! The trees of search conditions.
ghost use Rattle.std.specs.Prelude.{◌≡◌, ◌∷◌, IfOk, option_map};
ghost use Rattle.std.specs.Option.{option_copied};
ghost use Rattle.iv_syntax.specs.Trees.{exists_where};
ghost use Rattle.iv_restate.specs.Seen.{naming_seen, ranges_seen};
ghost use Rattle.iv_restate.specs.Trees.{condition_of, exists_of, expression_of, inner_range, is_always, not_of, null_operand, true_condition};

use crate::expression::expression_of;
use crate::naming::{Naming, alias_of, source_columns, source_name};
use crate::parentheses::{all_of, denied, one_of, pair};
use crate::scope::Scope;
use iv_expr::{Cond, Expr, Range};
use iv_syntax::{Condition, Expression, Name, RangeName};
use sqlite_items::Boxed;
use std::alloc::{AllocError, Global};

// What an IS NULL is of.
fn null_operand(cond: &Cond) -> Option<&Expr>
    ensures { option_copied result ≡ null_operand cond.now }
{
    match cond {
        Cond::IsNull(a) => Some(a),
        _ => None,
    }
}

fn is_always(cond: &Cond) -> bool
    ensures { result ≡ is_always cond.now }
{
    matches!(cond, Cond::Always)
}

fn true_condition() -> Condition
    ensures { result ≡ true_condition }
{
    Condition::IsNull(Expression::Null)
}

#[tactic(auto, using(iv_syntax::proofs::TreeShapes::exists_where_is))]
fn exists_where(alloc: Global, range: RangeName, a: Condition) -> Result<Condition, AllocError>
    ensures { IfOk result (λ c. c ≡ exists_where range a) }
{
    Ok(Condition::ExistsWhere(range, Boxed::new(alloc, a)?))
}

// NOT over a condition.
#[cycle(condition_of)]
fn not_of<'a>(
    alloc: Global,
    naming: &'a Naming<'a>,
    scope: &'a Scope<'a>,
    part: &Cond,
) -> Result<Condition, AllocError>
    ensures { IfOk result (λ c.
        c ≡ not_of (option_map (expression_of (naming_seen naming.now) (ranges_seen scope.now)) (null_operand part.now))
        (condition_of (naming_seen naming.now) (ranges_seen scope.now) part.now)) }
{
    match null_operand(part) {
        Some(a) => Ok(Condition::IsNotNull(expression_of(alloc, naming, scope, a)?)),
        None => {
            let condition = condition_of(alloc, &*naming, &*scope, part)?;
            denied(alloc, condition)
        }
    }
}

// EXISTS over a range where a condition is true.
#[cycle(condition_of)]
fn exists_of<'a>(
    alloc: Global,
    naming: &'a Naming<'a>,
    scope: &'a Scope<'a>,
    range: Range,
    part: &Cond,
) -> Result<Condition, AllocError>
    ensures { IfOk result (λ c.
        c ≡ exists_of (naming_seen naming.now) (ranges_seen scope.now) range (is_always part.now)
        (condition_of (naming_seen naming.now)
        (inner_range (naming_seen naming.now) (ranges_seen scope.now) range ∷ ranges_seen scope.now) part.now)) }
{
    let Some(name) = source_name(naming, range) else {
        return Ok(true_condition());
    };
    let table = name.clone()?;
    let alias = alias_of(alloc, naming, scope)?;
    if is_always(part) {
        return Ok(Condition::Exists(RangeName {
            table,
            alias: Some(alias),
        }));
    }
    let called = RangeName {
        table,
        alias: Some(alias.clone()?),
    };
    let inner = Scope::Within(alias.as_str(), source_columns(naming, range), scope);
    let condition = condition_of(alloc, &*naming, &inner, part)?;
    exists_where(alloc, called, condition)
}

/// The tree of a condition. The range of an EXISTS has an alias; a condition that is true of every row is
/// `NULL IS NULL`.
#[cycle(condition_of)]
#[tactic(auto, using(crate::proofs::Steps::condition_of_steps))]
pub fn condition_of<'a>(
    alloc: Global,
    naming: &'a Naming<'a>,
    scope: &'a Scope<'a>,
    cond: &Cond,
) -> Result<Condition, AllocError>
    ensures { IfOk result (λ c.
        c ≡ condition_of (naming_seen naming.now) (ranges_seen scope.now) cond.now) }
{
    match cond {
        Cond::Always => Ok(true_condition()),
        Cond::Compare(comparison, a, b) => {
            let a = expression_of(alloc, naming, scope, a)?;
            let (a, b) = pair(a, expression_of(alloc, naming, scope, b))?;
            Ok(Condition::Compare(*comparison, a, b))
        }
        Cond::IsNull(a) => Ok(Condition::IsNull(expression_of(alloc, naming, scope, a)?)),
        Cond::Not(a) => not_of(alloc, &*naming, &*scope, a.get()),
        Cond::And(a, b) => {
            let a = condition_of(alloc, &*naming, &*scope, a.get())?;
            let (a, b) = pair(a, condition_of(alloc, &*naming, &*scope, b.get()))?;
            all_of(alloc, a, b)
        }
        Cond::Or(a, b) => {
            let a = condition_of(alloc, &*naming, &*scope, a.get())?;
            let (a, b) = pair(a, condition_of(alloc, &*naming, &*scope, b.get()))?;
            one_of(alloc, a, b)
        }
        Cond::Exists(range, a) => exists_of(alloc, &*naming, &*scope, *range, a.get()),
    }
}
