//! What fails in the WHEN of a trigger and in a SET.
ghost use Rattle.std.specs.Prelude.{◌≡◌, IfOk};
ghost use Rattle.iv_account.specs.declared.failure.EvaluatedFor.TheVariants as part_of;
ghost use Rattle.iv_account.specs.Failures.{at_row, of_part, set_failure, stored_failure, variables, when_failure};

use crate::failures::condition::condition_failure;
use crate::failures::hands::at_variables;
use crate::failures::values::{of_part, stored_failure};
use iv_account::{EvaluatedFor, FailedEvaluation};
use iv_catalogue::{Catalogue, Setting, Trigger};
use iv_expr::{Change, Frame, Rows, Scope, TableId};
use std::alloc::{AllocError, Global};

/// The failure of a trigger's WHEN.
pub fn when_failure<'x, R: Rows>(
    alloc: Global,
    rows: &'x R,
    trigger: &Trigger,
    frame: &'x Frame<'x>,
) -> Result<Option<FailedEvaluation>, AllocError>
    ensures { IfOk result (λ f. f ≡ when_failure (R.rows rows.now) trigger.now frame.now) }
{
    let scope = Scope::new(rows, frame);
    let failure = of_part(
        EvaluatedFor::When(trigger.id),
        condition_failure(&trigger.when, &scope),
    );
    at_variables(alloc, &scope, failure)
}

// The failure of a SET for a table in a scope.
fn set_failure_in<R: Rows>(
    alloc: Global,
    catalogue: &Catalogue,
    scope: &Scope<'_, R>,
    table: TableId,
    setting: &Setting,
) -> Result<Option<FailedEvaluation>, AllocError>
    ensures { IfOk result (λ f. f ≡ at_row (variables scope.now.frame)
        (of_part (part_of.Column table setting.now.column)
        (stored_failure catalogue.now scope.now table setting.now.column setting.now.value))) }
{
    let column = u64::from(setting.column);
    let failure = of_part(
        EvaluatedFor::Column(table, column),
        stored_failure(catalogue, scope, table, column, &setting.value),
    );
    at_variables(alloc, scope, failure)
}

/// The failure of a SET at a change.
pub fn set_failure<'x, R: Rows>(
    alloc: Global,
    catalogue: &Catalogue,
    rows: &'x R,
    setting: &Setting,
    change: &'x Change,
) -> Result<Option<FailedEvaluation>, AllocError>
    ensures { IfOk result (λ f. f
        ≡ set_failure catalogue.now (R.rows rows.now) setting.now change.now) }
{
    let frame = Frame::at(&[], change);
    let scope = Scope::new(rows, &frame);
    set_failure_in(alloc, catalogue, &scope, change.table, setting)
}
