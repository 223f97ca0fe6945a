//! INSERT, UPDATE and DELETE.
ghost use Rattle.std.specs.Prelude.{◌≡◌, true, false, length, OnOk};
ghost use Rattle.iv_catalogue.specs.Refusals.{is_memory_cause};
ghost use Rattle.iv_catalogue.specs.declared.cause.Cause.TheVariants.{OutOfMemory};
ghost use Rattle.iv_laws_fitting.specs.PlanShapes.{data_suits, plain_shape};
ghost use Rattle.iv_machine.specs.Machine.{change_outcome, may_tell};
ghost use Rattle.iv_account.specs.Sessions.{change_told};
ghost use Rattle.iv_account.specs.Telling.{and_told};
ghost use Rattle.iv_state.specs.Changing.{Changes, account_said, said_of};
ghost use Rattle.iv_state.specs.Kept.{current};
ghost use Rattle.iv_state.specs.Performing.{Follows};
ghost use Rattle.iv_state.specs.Looking.{LookedUp, LooksUpFew};
ghost use Rattle.iv_store.specs.Lookups.{LooksUp};
ghost use Rattle.iv_laws_rows.specs.Changing.{AnswersAt, StoreFits, UnlessMemory, with_database};

use crate::session_state::{SessionState, Work};
use iv_account::Account;
use iv_catalogue::{Catalogue, Cause, DataStatement, Refusal, TriggerId};
use iv_machine::{Answer, Limits};
use iv_modes::Modes;
use iv_step::Outcome;
use iv_store::{ChangeableRows, Keeper};

/// How data statements change a store.
pub trait DataStatements {
    /// Runs INSERT, UPDATE or DELETE of a script, with all that follows from it, and answers how many rows it changed
    /// itself ("Insert statement", "Update statement: searched", "Delete statement: searched"). A refused statement
    /// leaves the store with what it changed so far, so that the count of changes is exact; the caller undoes it to a
    /// mark from before. The borrowed store has no call for marks. The account records what happens, if it is asked
    /// for.
    fn change<K: ChangeableRows>(
        store: &mut K,
        statement: &DataStatement,
        catalogue: &Catalogue,
        modes: &Modes,
        limits: Limits,
        account: &mut Account,
    ) -> Result<u64, Refusal>
        requires store { StoreFits catalogue.now (K.view store.old) }
        requires statement { data_suits catalogue.now.tables
            (plain_shape catalogue.now.tables) statement.now ≡ true }
        ensures answer { AnswersAt (λ size. ((K.view store.new).base, size))
            (K.view store.new).base.count result
            (said_of catalogue.now modes.now.modes limits statement.now (K.view store.old).base) }
        ensures kept { K.view store.new ≡ with_database (K.view store.old) (K.view store.new).base }
        ensures looked_up { UnlessMemory result (LooksUp
            (K.view store.old) (K.lookups store.old) (K.view store.new) (K.lookups store.new)) }
        ensures store { OnOk result (StoreFits catalogue.now (K.view store.new)) }
        ensures told { UnlessMemory result (account.new ≡ and_told account.old
            (account_said catalogue.now modes.now.modes limits statement.now
            (K.view store.old).base)) };
}

// The modes of the constraints.
pub(crate) fn modes_now<'a>(initial: &'a Modes, changed: &'a Option<Modes>) -> &'a Modes
    ensures { result.now ≡ current initial.entry.now changed.entry.now }
{
    match changed {
        Some(modes) => modes,
        None => initial,
    }
}

// Runs a data statement whole, or not at all. If it begins a transaction, its mark stays.
fn run_change<D: DataStatements, K: Keeper>(
    store: &mut K,
    work: &mut Work,
    statement: &DataStatement,
    catalogue: &Catalogue,
    modes: &Modes,
    limits: Limits,
    begins: bool,
    account: &mut Account,
) -> Result<u64, Refusal>
    requires store { StoreFits catalogue.now (K.view store.old) }
    requires statement { data_suits catalogue.now.tables
        (plain_shape catalogue.now.tables) statement.now ≡ true }
    ensures changes { Changes begins (K.view store.old)
        (said_of catalogue.now modes.now.modes limits statement.now (K.view store.old).base)
        result (K.view store.new)
        (record { changes = work.new.changes; undone = work.new.undone }) }
    ensures looked_up { UnlessMemory result (LookedUp (length (K.view store.old).constraints)
        (record { changes = work.new.changes; undone = work.new.undone })
        (K.lookups store.old) (K.lookups store.new)) }
    ensures store { StoreFits catalogue.now (K.view store.new) }
    ensures told { UnlessMemory result (account.new ≡ and_told account.old
        (account_said catalogue.now modes.now.modes limits statement.now (K.view store.old).base)) }
{
    let before = store.change_count();
    let mark = store.mark()?;
    match D::change(store, statement, catalogue, modes, limits, account) {
        Ok(size) => {
            work.changes = store.change_count().saturating_sub(before);
            work.undone = 0;
            if !begins {
                store.forget(mark);
            }
            Ok(size)
        }
        Err(refusal) => {
            let made = store.change_count().saturating_sub(before);
            work.changes = made;
            work.undone = made;
            store.undo(mark);
            Err(refusal)
        }
    }
}

// The trigger, if the catalogue has it.
fn known_trigger(catalogue: &Catalogue, trigger: Option<TriggerId>) -> Option<TriggerId>
    ensures told { may_tell true catalogue.now result ≡ true }
    ensures known { may_tell true catalogue.now trigger ≡ true → result ≡ trigger }
{
    let id = trigger?;
    catalogue.trigger(id)?;
    Some(id)
}

// A refusal as it is; one for lack of memory tells a trigger only if the catalogue has it.
fn told(catalogue: &Catalogue, refusal: Refusal) -> Refusal
    ensures other { is_memory_cause refusal.cause ≡ false → result ≡ refusal }
    ensures memory { is_memory_cause refusal.cause ≡ true → result.cause ≡ OutOfMemory }
    ensures told { is_memory_cause refusal.cause ≡ true
        → may_tell true catalogue.now result.trigger ≡ true }
{
    match refusal.cause {
        Cause::OutOfMemory => Refusal {
            cause: refusal.cause,
            trigger: known_trigger(catalogue, refusal.trigger),
        },
        _ => refusal,
    }
}

impl<K: Keeper + Drop> SessionState<K> {
    // INSERT, UPDATE and DELETE.
    pub(crate) fn change<D: DataStatements>(
        &mut self,
        statement: &DataStatement,
        account: &mut Account,
    ) -> Outcome
        requires { data_suits self.old.state.schema.tables
            (plain_shape self.old.state.schema.tables) statement.now ≡ true }
        ensures follows { Follows self.old.state
            (change_outcome self.old.state statement.now) result self.new }
        ensures looked_up { UnlessMemory result (LooksUpFew self.old self.new) }
        ensures told { UnlessMemory result (account.new ≡ and_told account.old
            (change_told self.old.state statement.now)) }
    {
        let begins = !self.active;
        match run_change::<D, K>(
            &mut self.store,
            &mut self.work,
            statement,
            &self.catalogue,
            modes_now(&self.initial, &self.changed),
            self.limits,
            begins,
            account,
        ) {
            Ok(size) => {
                self.active = true;
                Ok(Answer::Changed(size))
            }
            Err(refusal) => Err(told(&self.catalogue, refusal)),
        }
    }
}
