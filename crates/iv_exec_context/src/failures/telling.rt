//! What failed, as an account records it.
ghost use Rattle.std.specs.Prelude.{◌≡◌, false, Option, Ok, OnOk};
ghost use Rattle.iv_account.specs.Accounts.{failure_told};
ghost use Rattle.iv_account.specs.Failures.{proposal_failure, query_failure, set_failure, when_failure};
ghost use Rattle.iv_account.specs.Telling.{and_told};
ghost use Rattle.iv_account.specs.declared.failure.FailedEvaluation.{FailedEvaluation as Failed};

use crate::failures::proposal::proposal_failure;
use crate::failures::query::query_failure;
use crate::failures::trigger::{set_failure, when_failure};
use iv_account::{Account, tells_failure};
use iv_catalogue::{Catalogue, Cause, DataStatement, QueryPlan, Setting, Trigger};
use iv_expr::{Change, Frame, Rows};
use std::alloc::AllocError;

// Whether an account is asked for, and tells what failed where this is the cause.
#[tactic(auto, using(crate::proofs::Untold::nothing_told, crate::proofs::Untold::unasked))]
fn tells(account: &Account, cause: &Cause) -> bool
    ensures told { (failure : Option Failed) → result ≡ false
        → account.now ≡ and_told account.now (failure_told cause.now failure) }
    ensures unasked { account.now.asked ≡ false → result ≡ false }
{
    account.is_asked() && tells_failure(cause)
}

/// Records the failure of a trigger's WHEN, if this is the cause of one.
pub fn tell_when<'x, R: Rows>(
    rows: &'x R,
    trigger: &Trigger,
    frame: &'x Frame<'x>,
    cause: &Cause,
    account: &mut Account,
) -> Result<(), AllocError>
    ensures told { OnOk result (account.new ≡ and_told account.old (failure_told cause.now
        (when_failure (R.rows rows.now) trigger.now frame.now))) }
    ensures unasked { account.old.asked ≡ false → result ≡ Ok tt }
{
    if !tells(account, cause) {
        return Ok(());
    }
    let failure = when_failure(account.allocator(), rows, trigger, frame)?;
    account.failed(cause, failure)
}

/// Records the failure of a SET at a change, if this is the cause of one.
pub fn tell_set<'x, R: Rows>(
    catalogue: &Catalogue,
    rows: &'x R,
    setting: &Setting,
    change: &'x Change,
    cause: &Cause,
    account: &mut Account,
) -> Result<(), AllocError>
    ensures told { OnOk result (account.new ≡ and_told account.old (failure_told cause.now
        (set_failure catalogue.now (R.rows rows.now) setting.now change.now))) }
    ensures unasked { account.old.asked ≡ false → result ≡ Ok tt }
{
    if !tells(account, cause) {
        return Ok(());
    }
    let failure = set_failure(account.allocator(), catalogue, rows, setting, change)?;
    account.failed(cause, failure)
}

/// Records the first failure of what a data statement proposes, if this is the cause of one.
pub fn tell_proposal<'x, R: Rows>(
    catalogue: &Catalogue,
    rows: &'x R,
    frame: &'x Frame<'x>,
    statement: &DataStatement,
    cause: &Cause,
    account: &mut Account,
) -> Result<(), AllocError>
    ensures told { OnOk result (account.new ≡ and_told account.old (failure_told cause.now
        (proposal_failure catalogue.now (R.rows rows.now) frame.now statement.now))) }
    ensures unasked { account.old.asked ≡ false → result ≡ Ok tt }
{
    if !tells(account, cause) {
        return Ok(());
    }
    let failure = proposal_failure(account.allocator(), catalogue, rows, frame, statement)?;
    account.failed(cause, failure)
}

/// Records the first failure of a query, if this is the cause of one.
pub fn tell_query<R: Rows>(
    rows: &R,
    query: &QueryPlan,
    cause: &Cause,
    account: &mut Account,
) -> Result<(), AllocError>
    ensures told { OnOk result (account.new ≡ and_told account.old (failure_told cause.now
        (query_failure (R.rows rows.now) query.now))) }
    ensures unasked { account.old.asked ≡ false → result ≡ Ok tt }
{
    if !tells(account, cause) {
        return Ok(());
    }
    let failure = query_failure(account.allocator(), rows, query)?;
    account.failed(cause, failure)
}
