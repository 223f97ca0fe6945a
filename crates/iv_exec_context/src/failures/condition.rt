//! The first operation of a condition that fails.
ghost use Rattle.std.specs.Prelude.{◌≡◌};
ghost use Rattle.iv_expr.specs.Evaluation.{truth as truth_at};
ghost use Rattle.iv_expr.specs.References.{result_of};
ghost use Rattle.iv_expr.specs.Scopes.{contents, table_rows, transition_rows, within};
ghost use Rattle.iv_account.specs.Disagreements.{first_of};
ghost use Rattle.iv_account.specs.Failures.{condition_failure, if_at_fault, in_parts, nothing};
ghost use Rattle.iv_exec_context.specs.Sides.{of_some};
ghost use Rattle.iv_expr.specs.Scopes.{side_of};

use crate::failures::expression::expression_failure;
use iv_account::ValueFailure;
use iv_expr::{Change, Cond, ExprFault, Range, Rows, Scope, Side, TableId, eval_ref, truth};
use iv_value::{Truth, Value, ValueRef};

// What fails in the first of two values that has a fault.
fn in_values(
    left: Result<ValueRef<'_>, ExprFault>,
    right: Result<ValueRef<'_>, ExprFault>,
    in_left: Option<ValueFailure>,
    in_right: Option<ValueFailure>,
) -> Option<ValueFailure>
    ensures { result ≡ in_parts (result_of left.entry) (result_of right.entry) in_left in_right
        nothing }
{
    match (left, right) {
        (Ok(_), Ok(_)) => None,
        (Ok(_), Err(_)) => in_right,
        (Err(_), _) => in_left,
    }
}

// What fails in the first of two truths that has a fault.
fn in_truths(
    left: Result<Truth, ExprFault>,
    right: Result<Truth, ExprFault>,
    in_left: Option<ValueFailure>,
    in_right: Option<ValueFailure>,
) -> Option<ValueFailure>
    ensures { result ≡ in_parts left right in_left in_right nothing }
{
    match (left, right) {
        (Ok(_), Ok(_)) => None,
        (Ok(_), Err(_)) => in_right,
        (Err(_), _) => in_left,
    }
}

/// The first operation of a condition that fails. It allocates only for searches by key.
#[cycle(condition_failure)]
#[tactic(auto, using(crate::proofs::Failing::not_failure, crate::proofs::Failing::and_failure, crate::proofs::Failing::or_failure, crate::proofs::Failing::exists_failure))]
pub fn condition_failure<R: Rows>(condition: &Cond, scope: &Scope<'_, R>) -> Option<ValueFailure>
    ensures { result ≡ condition_failure scope.now condition.now }
{
    match condition {
        Cond::Always => None,
        Cond::Compare(_, left, right) => in_values(
            eval_ref(left, &*scope),
            eval_ref(right, &*scope),
            expression_failure(left, &*scope),
            expression_failure(right, &*scope),
        ),
        Cond::IsNull(operand) => expression_failure(operand, &*scope),
        Cond::Not(operand) => condition_failure(operand.get(), scope),
        Cond::And(left, right) => in_truths(
            truth(left.get(), &*scope),
            truth(right.get(), &*scope),
            condition_failure(left.get(), scope),
            condition_failure(right.get(), scope),
        ),
        Cond::Or(left, right) => in_truths(
            truth(left.get(), &*scope),
            truth(right.get(), &*scope),
            condition_failure(left.get(), scope),
            condition_failure(right.get(), scope),
        ),
        Cond::Exists(range, operand) => match range {
            Range::Table(table) => in_table(*table, operand.get(), scope),
            Range::Transition(side) => in_transition(*side, operand.get(), scope),
        },
    }
}

// What fails of a condition at a row, if it has a fault there.
#[cycle(condition_failure)]
fn at_values<R: Rows>(condition: &Cond, row: &[Value], scope: &Scope<'_, R>) -> Option<ValueFailure>
    ensures { result ≡ if_at_fault (truth_at (within scope.now row.now) condition.now)
        (condition_failure (within scope.now row.now) condition.now) }
{
    let ranges = (&*scope).ranges_with(row);
    let here = (&*scope).over(&ranges);
    match truth(&*condition, &here) {
        Ok(_) => None,
        Err(_) => condition_failure(condition, &here),
    }
}

// The first failure of a condition at a row of a table.
#[cycle(condition_failure)]
fn in_table<R: Rows>(table: TableId, condition: &Cond, scope: &Scope<'_, R>) -> Option<ValueFailure>
    ensures { result ≡ first_of (λ row. if_at_fault (truth_at (within scope.now row) condition.now)
        (condition_failure (within scope.now row) condition.now))
        (contents (table_rows scope.now.rows table)) }
{
    (&*scope).recall_order();
    let mut after = 0;
    while let Some((number, row)) = (&*scope).scan(table, after) {
        after = number;
        match at_values(&*condition, row, &*scope) {
            Some(failure) => return Some(failure),
            None => {}
        }
    }
    None
}

// What fails of a condition at one side of a change.
#[cycle(condition_failure)]
fn at_side<R: Rows>(
    side: Side,
    change: &Change,
    condition: &Cond,
    scope: &Scope<'_, R>,
) -> Option<ValueFailure>
    ensures { result ≡ of_some (λ row. if_at_fault (truth_at (within scope.now row) condition.now)
        (condition_failure (within scope.now row) condition.now)) (side_of side change.now) }
{
    let row = match side {
        Side::Old => &change.old,
        Side::New => &change.new,
    };
    match row {
        Some(row) => at_values(condition, row.values(), scope),
        None => None,
    }
}

// The first failure of a condition at a row of a transition table.
#[cycle(condition_failure)]
fn in_transition<R: Rows>(
    side: Side,
    condition: &Cond,
    scope: &Scope<'_, R>,
) -> Option<ValueFailure>
    ensures { result ≡ first_of (λ row. if_at_fault (truth_at (within scope.now row) condition.now)
        (condition_failure (within scope.now row) condition.now))
        (transition_rows side scope.now.frame.transition) }
{
    for change in (&*scope).transition() {
        match at_side(side, change, &*condition, &*scope) {
            Some(failure) => return Some(failure),
            None => {}
        }
    }
    None
}
