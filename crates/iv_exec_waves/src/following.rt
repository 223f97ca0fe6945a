//! Records what follows a wave: the foreign keys that act after it, or the row for which it is refused.
ghost use Rattle.std.specs.Prelude.{◌≡◌, ◌+◌, ◌*◌, ◌≤◌, ◌∷◌, [], false, length, Ok, OnOk};
ghost use Rattle.iv_machine.specs.declared.database.Database.{Database};
ghost use Rattle.iv_machine.specs.Context.{Context};
ghost use Rattle.iv_machine.specs.Databases.{row_at};
ghost use Rattle.iv_machine.specs.ReferentialActions.{following_wave};
ghost use Rattle.iv_store.specs.Lookups.{foreign_keys};
ghost use Rattle.iv_account.specs.declared.entry.Entry.TheVariants as entry;
ghost use Rattle.iv_account.specs.Accounts.{acted_told, action_fault_told, conflict_told, disagreement_at, following_told, if_some};
ghost use Rattle.iv_account.specs.Telling.{and_told};
ghost use Rattle.iv_exec_triggers.specs.Recording.{Records};
ghost use Rattle.iv_laws_kept.specs.FollowingWaves.{LedTo};
ghost use Rattle.iv_exec_actions.specs.Answers.{AnswersWave};

use iv_account::Account;
use iv_catalogue::{Catalogue, Cause, Fault, Refusal};
use iv_exec_actions::{disagreement_at, next_wave, row_actions, row_then};
use iv_expr::Wave;
use iv_store::ReferencingRows;
use std::alloc::AllocError;

// Tells which foreign keys act on the rows of the next wave.
fn tell_actions<K: ReferencingRows>(
    store: &K,
    catalogue: &Catalogue,
    wave: &Wave,
    next: &Wave,
    account: &mut Account,
) -> Result<(), AllocError>
    ensures told { (before : Database)
        → LedTo before wave.now.changes (K.view store.now).base
        → OnOk result (account.new ≡ and_told account.old (acted_told catalogue.now
        before.rows (K.view store.now).base.rows next.now.changes)) }
    ensures unasked { account.old.asked ≡ false → result ≡ Ok tt }
{
    if !account.is_asked() || next.changes().is_empty() {
        return Ok(());
    }
    let actions = row_actions(store, catalogue, wave, next)?;
    account.acted(actions)
}

// Tells a row that refers to a key which RESTRICT protects, as it was before the wave.
fn tell_restricted<K: ReferencingRows>(
    store: &K,
    wave: &Wave,
    fault: &Fault,
    account: &mut Account,
) -> Result<(), AllocError>
    ensures told { (before : Database)
        → LedTo before wave.now.changes (K.view store.now).base
        → OnOk result (account.new ≡ and_told account.old
        (entry.Faulted fault.now (if_some (row_at before.rows fault.now.row)) ∷ [])) }
    ensures unasked { account.old.asked ≡ false → result ≡ Ok tt }
{
    if !account.is_asked() {
        return Ok(());
    }
    let rows = row_then(store, wave, fault.row)?;
    account.faulted(*fault, rows)
}

// Tells a row about which two foreign keys disagree, as it was before the wave, and how they do.
fn tell_conflict<K: ReferencingRows>(
    store: &K,
    catalogue: &Catalogue,
    wave: &Wave,
    fault: &Fault,
    account: &mut Account,
) -> Result<(), AllocError>
    ensures told { (before : Database)
        → LedTo before wave.now.changes (K.view store.now).base
        → OnOk result (account.new ≡ and_told account.old
        (conflict_told fault.now (if_some (row_at before.rows fault.now.row))
        (disagreement_at catalogue.now before.rows (K.view store.now).base.rows fault.now) ∷ [])) }
    ensures unasked { account.old.asked ≡ false → result ≡ Ok tt }
{
    if !account.is_asked() {
        return Ok(());
    }
    let how = disagreement_at(store, catalogue, wave, fault)?;
    account.disagreed(*fault, row_then(store, wave, fault.row)?, how)
}

// Tells the row of a refusal for RESTRICT, or for two foreign keys that disagree.
fn tell_refusal<K: ReferencingRows>(
    store: &K,
    catalogue: &Catalogue,
    wave: &Wave,
    cause: &Cause,
    account: &mut Account,
) -> Result<(), AllocError>
    ensures told { (before : Database)
        → LedTo before wave.now.changes (K.view store.now).base
        → OnOk result (account.new ≡ and_told account.old
        (action_fault_told catalogue.now
        before.rows (K.view store.now).base.rows cause.now)) }
    ensures unasked { account.old.asked ≡ false → result ≡ Ok tt }
{
    match cause {
        Cause::Restrict(fault) => tell_restricted(store, wave, fault, account),
        Cause::ActionConflict(fault) => tell_conflict(store, catalogue, wave, fault, account),
        _ => Ok(()),
    }
}

// The wave that follows from a wave, as `next_wave` of `iv_exec_actions` answers it, with what is told of it.
pub fn next_wave_told<K: ReferencingRows>(
    store: &mut K,
    catalogue: &Catalogue,
    wave: &Wave,
    account: &mut Account,
) -> Result<Wave, Refusal>
    ensures followed { (before : Database) (context : Context)
        → context.schema ≡ catalogue.now
        → (K.view store.old).constraints ≡ catalogue.now.constraints
        → LedTo before wave.now.changes (K.view store.old).base
        → AnswersWave result (following_wave context before (K.view store.old).base) }
    ensures looked_up { K.lookups store.new ≤ K.lookups store.old
        + foreign_keys catalogue.now.constraints * length wave.now.changes }
    ensures kept { K.view store.new ≡ K.view store.old }
    ensures told { (before : Database) (context : Context)
        → context.schema ≡ catalogue.now
        → (K.view store.old).constraints ≡ catalogue.now.constraints
        → LedTo before wave.now.changes (K.view store.old).base
        → Records result account.old account.new
        (following_told context before (K.view store.old).base) }
{
    match next_wave(store, catalogue, wave) {
        Ok(next) => {
            tell_actions(store, catalogue, wave, &next, account)?;
            Ok(next)
        }
        Err(refusal) => {
            tell_refusal(store, catalogue, wave, &refusal.cause, account)?;
            Err(refusal)
        }
    }
}
