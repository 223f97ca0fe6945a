//! The truth of a condition.
ghost use Rattle.std.specs.Prelude.{◌≡◌, ◌≢◌, Err, map, []};
ghost use Rattle.std.specs.Option.{option_copied};
ghost use Rattle.iv_expr.specs.Evaluation.{any_true, check_truth as truth_of_check, truth as truth_at};
ghost use Rattle.iv_expr.specs.Scopes.{contents, side_of, table_rows, transition_rows, within};
ghost use Rattle.iv_expr.specs.Suiting.{Suits};
ghost use Rattle.iv_expr.specs.declared.tree.ExprFault.TheVariants as fault;

use crate::expression::value_in;
use crate::number::TableId;
use crate::operators::{and_both, compare_both, is_null_of, not_of, or_both, or_true};
use crate::row::Change;
use crate::scope::{Frame, Rows, Scope};
use crate::tree::{Cond, ExprFault, Range, Side};
use iv_value::{Truth, Value};

/// The truth of a condition in a scope. Both sides of every operator are evaluated, and all rows of every EXISTS,
/// except those that a search by key leaves out. It allocates only for such a search.
pub fn truth<R: Rows>(cond: &Cond, scope: &Scope<'_, R>) -> Result<Truth, ExprFault>
    ensures value { result ≡ truth_at scope.now cond.now }
    ensures suited { Suits scope.now cond.now → result ≢ Err fault.IllTyped }
{
    truth_in(cond, scope)
}

#[cycle(truth_in)]
#[tactic(auto, using(crate::proofs::Steps::truth_not_at, crate::proofs::Steps::truth_and_at, crate::proofs::Steps::truth_or_at, crate::proofs::Steps::truth_exists_at))]
fn truth_in<R: Rows>(cond: &Cond, scope: &Scope<'_, R>) -> Result<Truth, ExprFault>
    ensures { result ≡ truth_at scope.now cond.now }
{
    match cond {
        Cond::Always => Ok(Truth::True),
        Cond::Compare(comparison, left, right) => {
            compare_both(
                *comparison,
                value_in(left, &*scope),
                value_in(right, &*scope),
            )
        }
        Cond::IsNull(operand) => is_null_of(value_in(operand, &*scope)),
        Cond::Not(operand) => not_of(truth_in(operand.get(), scope)),
        Cond::And(left, right) => and_both(
            truth_in(left.get(), scope),
            truth_in(right.get(), scope),
        ),
        Cond::Or(left, right) => or_both(truth_in(left.get(), scope), truth_in(right.get(), scope)),
        Cond::Exists(range, operand) => match range {
            Range::Table(table) => exists_in_table(*table, operand.get(), scope),
            Range::Transition(side) => exists_in_transition(*side, operand.get(), scope),
        },
    }
}

// Whether a condition is true at a row of a table. It looks only at the rows of a key that the condition asks for.
#[cycle(truth_in)]
fn exists_in_table<R: Rows>(
    table: TableId,
    cond: &Cond,
    scope: &Scope<'_, R>,
) -> Result<Truth, ExprFault>
    ensures { result ≡ any_true (map (λ row. truth_at (within scope.now row) cond.now)
        (contents (table_rows scope.now.rows table))) }
{
    let mut found = false;
    let mut after = 0;
    let search = (&*scope).search(table, &*cond);
    search.recall_order();
    while let Some((number, row)) = search.next(after) {
        after = number;
        let ranges = (&*scope).ranges_with(row);
        match truth_in(&*cond, &(&*scope).over(&ranges)) {
            Ok(at_row) => found = or_true(found, at_row),
            Err(fault) => return Err(fault),
        }
    }
    Ok(Truth::of(found))
}

// Whether a condition is true at a row of a transition table.
#[cycle(truth_in)]
fn exists_in_transition<R: Rows>(
    side: Side,
    cond: &Cond,
    scope: &Scope<'_, R>,
) -> Result<Truth, ExprFault>
    ensures { result ≡ any_true (map (λ row. truth_at (within scope.now row) cond.now)
        (transition_rows side scope.now.frame.transition)) }
{
    let mut found = false;
    for change in (&*scope).transition() {
        if let Some(row) = row_on(side, change) {
            let ranges = (&*scope).ranges_with(row);
            match truth_in(&*cond, &(&*scope).over(&ranges)) {
                Ok(at_row) => found = or_true(found, at_row),
                Err(fault) => return Err(fault),
            }
        }
    }
    Ok(Truth::of(found))
}

fn row_on(side: Side, change: &Change) -> Option<&[Value]>
    ensures { option_copied result ≡ side_of side change.now }
{
    let row = match side {
        Side::Old => &change.old,
        Side::New => &change.new,
    };
    match row {
        Some(row) => Some(row.values()),
        None => None,
    }
}

/// No tables at all.
#[derive(Drop)]
pub struct NoTables {}

impl Rows for NoTables {
    ghost rows = { λ s. [] };

    fn recall_order(&self) {}

    fn scan(&self, _table: TableId, _after: u64) -> Option<(u64, &[Value])> {
        None
    }
}

/// The truth of a CHECK's condition at a row by itself; a fault counts as false. It allocates nothing.
pub fn check_truth(cond: &Cond, row: &[Value]) -> Truth
    ensures { result ≡ truth_of_check cond.now row.now }
{
    let tables = NoTables {};
    let frame = Frame::none();
    let outside = Scope::new(&tables, &frame);
    match truth_at_row(cond, row, &outside) {
        Ok(truth) => truth,
        Err(_) => Truth::False,
    }
}

/// The truth of a condition in a scope with one more range inside, at this row.
pub fn truth_at_row<R: Rows>(
    cond: &Cond,
    row: &[Value],
    scope: &Scope<'_, R>,
) -> Result<Truth, ExprFault>
    ensures { result ≡ truth_at (within scope.now row.now) cond.now }
{
    let ranges = scope.ranges_with(row);
    truth(cond, &scope.over(&ranges))
}
