//! Savepoints.
ghost use Rattle.std.specs.Prelude.{◌≡◌, ◌+◌, ◌-◌, ◌<◌, ◌≤◌, ◌^◌, length, take, true, false, IfOk, IfSome, Ok, Err, None};
ghost use Rattle.std.specs.List.{remove};
ghost use Rattle.iv_catalogue.specs.declared.cause.Cause.TheVariants.{UnknownSavepoint};
ghost use Rattle.iv_catalogue.specs.Refusals.{is_memory, refusal_answer};
ghost use Rattle.iv_machine.specs.declared.answer.Answer.TheVariants.{Done};
ghost use Rattle.iv_machine.specs.Machine.{accept, inside, is_open, outcome_unless, with_transaction, state_with_savepoint, release_outcome};
ghost use Rattle.iv_machine.specs.Machine.{rollback_to_outcome, savepoint_named, transaction_cause};
ghost use Rattle.iv_account.specs.Sessions.{savepoint_told};
ghost use Rattle.iv_account.specs.Telling.{MayTell, and_told};
ghost use Rattle.iv_laws_rows.specs.Changing.{UnlessMemory};
ghost use Rattle.iv_store.specs.Stores.{store_without_mark};
ghost use Rattle.iv_state.specs.Kept.{brought_back, current};
ghost use Rattle.iv_state.specs.Looking.{LooksUpFew};
ghost use Rattle.iv_state.specs.Performing.{Performs};
ghost use Rattle.iv_state.specs.Saving.{IsWithout, last_named, with_marks};

use crate::changes::modes_now;
use crate::savepoint_list::SavepointList;
use crate::session_state::{SessionState, Work};
use iv_account::Account;
use iv_catalogue::{Cause, Refusal};
use iv_machine::Answer;
use iv_modes::Modes;
use iv_step::Outcome;
use iv_store::{Keeper, Mark};
use iv_syntax::Name;
use std::alloc::AllocError;

// The same modes again, if they were changed.
fn copied(modes: &Option<Modes>) -> Result<Option<Modes>, AllocError>
    ensures { IfOk result (λ copy. copy ≡ modes.now) }
{
    match modes {
        Some(modes) => Ok(Some(modes.copy()?)),
        None => Ok(None),
    }
}

// Sets modes that were changed to those of a savepoint, or to the initial ones if it has none.
fn bring_back(changed: &mut Option<Modes>, initial: &Modes, saved: &Option<Modes>)
    requires { IfSome changed.old
        (λ m. m.deferrable ≡ (current initial.now saved.now).deferrable) }
    ensures { changed.new ≡ brought_back changed.old (current initial.now saved.now) }
{
    if let Some(modes) = changed {
        modes.restore(modes_now(initial, saved));
    }
}

// Takes a savepoint out, with its mark.
fn take_out<K: Keeper>(store: &mut K, saves: &mut SavepointList, place: usize)
    requires there { place < length saves.old.saves }
    requires small { place < 2 ^ 63 }
    requires room { length saves.old.saves < length (K.view store.old).marks }
    ensures saves { saves.new.saves ≡ remove saves.old.saves place }
    ensures store { K.view store.new ≡ store_without_mark (K.view store.old) (place + 1) }
    ensures room { saves.old.room ≤ saves.new.room }
    ensures not_looked_up { K.lookups store.new ≡ K.lookups store.old }
{
    store.forget(Mark::new(place + 1));
    saves.remove(place);
}

// Takes the savepoints of a name out, with their marks.
fn take_named<K: Keeper>(store: &mut K, saves: &mut SavepointList, name: &str)
    requires { length saves.old.saves < length (K.view store.old).marks }
    ensures without { IsWithout name.now saves.old.saves (K.view store.old) saves.new.saves
        (K.view store.new) }
    ensures none { last_named name.now saves.new.saves ≡ None }
    ensures room { saves.old.room ≤ saves.new.room }
    ensures not_looked_up { K.lookups store.new ≡ K.lookups store.old }
{
    while let Some(place) = saves.place_of(name) {
        take_out(store, saves, place);
    }
}

// Takes the savepoints from this place on out, with their marks.
fn take_from<K: Keeper>(store: &mut K, saves: &mut SavepointList, place: usize)
    requires there { place ≤ length saves.old.saves }
    requires room { length (K.view store.old).marks ≡ length saves.old.saves + 1 }
    ensures saves { saves.new.saves ≡ take place saves.old.saves }
    ensures store { K.view store.new
        ≡ with_marks (K.view store.old) (take (place + 1) (K.view store.old).marks) }
    ensures not_looked_up { K.lookups store.new ≡ K.lookups store.old }
{
    let mut left = saves.len();
    while place < left {
        left -= 1;
        take_out(store, saves, left);
    }
}

pub(crate) fn refuse<T>(cause: Cause) -> Result<T, Refusal>
    ensures { result ≡ refusal_answer cause }
{
    Err(Refusal::of(cause))
}

impl<K: Keeper + Drop> SessionState<K> {
    // START TRANSACTION, and what a data statement begins.
    pub(crate) fn start(&mut self) -> Outcome
        requires { is_open self.old.state ≡ false }
        ensures performs { Performs self.old.state
            (accept (with_transaction self.old.state) Done) result self.new }
        ensures still { self.new.looked_up ≡ self.old.looked_up }
    {
        let _ = self.store.mark()?;
        self.active = true;
        self.work = Work::none();
        Ok(Answer::Done)
    }

    // SAVEPOINT.
    pub(crate) fn savepoint(&mut self, name: &Name) -> Outcome
        requires { is_open self.old.state ≡ true }
        ensures performs { Performs self.old.state
            (accept (state_with_savepoint self.old.state name.now) Done) result self.new }
        ensures still { self.new.looked_up ≡ self.old.looked_up }
    {
        self.saves.make_room()?;
        let own = String::from_str(self.store.allocator(), name.as_str())?;
        let modes = copied(&self.changed)?;
        let _ = self.store.mark()?;
        take_named(&mut self.store, &mut self.saves, name.as_str());
        self.saves.push(own, modes);
        self.work = Work::none();
        Ok(Answer::Done)
    }

    // RELEASE SAVEPOINT, with nothing told.
    fn release_quietly(&mut self, name: &Name) -> Outcome
        requires { is_open self.old.state ≡ true }
        ensures performs { Performs self.old.state
            (release_outcome self.old.state (savepoint_named name.now self.old.state.savepoints))
            result self.new }
        ensures still { self.new.looked_up ≡ self.old.looked_up }
    {
        self.work = Work::none();
        match self.saves.place_of(name.as_str()) {
            Some(place) => {
                take_from(&mut self.store, &mut self.saves, place);
                Ok(Answer::Done)
            }
            None => refuse(Cause::UnknownSavepoint),
        }
    }

    // RELEASE SAVEPOINT.
    pub(crate) fn release(&mut self, name: &Name, account: &mut Account) -> Outcome
        requires { is_open self.old.state ≡ true }
        ensures performs { Performs self.old.state
            (release_outcome self.old.state (savepoint_named name.now self.old.state.savepoints))
            result self.new }
        ensures still { self.new.looked_up ≡ self.old.looked_up }
        ensures told { UnlessMemory result (account.new
            ≡ and_told account.old (savepoint_told self.old.state name.now)) }
    {
        self.tell_standing(name.as_str(), account)?;
        self.release_quietly(name)
    }

    // ROLLBACK TO SAVEPOINT, with nothing told.
    fn back_to(&mut self, name: &str) -> Outcome
        requires { is_open self.old.state ≡ true }
        ensures looked_up { LooksUpFew self.old self.new }
        ensures sure_store { K.sure ≡ true → is_memory result ≡ false }
        ensures performs { Performs self.old.state
            (rollback_to_outcome self.old.state
            (savepoint_named name.now self.old.state.savepoints)) result self.new }
    {
        self.work = Work::none();
        let place = match self.saves.place_of(name) {
            Some(place) => place,
            None => return refuse(Cause::UnknownSavepoint),
        };
        let change_count = self.store.change_count();
        self.store.undo_to(Mark::new(place + 1))?;
        bring_back(&mut self.changed, &self.initial, self.saves.modes_at(place));
        self.saves.truncate(place + 1);
        self.work.undone = change_count.saturating_sub(self.store.change_count());
        Ok(Answer::Done)
    }

    // ROLLBACK TO SAVEPOINT. If its account can't be allocated, it is empty.
    pub(crate) fn back_to_telling(&mut self, name: &str, account: &mut Account) -> Outcome
        requires { is_open self.old.state ≡ true }
        ensures looked_up { LooksUpFew self.old self.new }
        ensures performs { Performs self.old.state
            (rollback_to_outcome self.old.state
            (savepoint_named name.now self.old.state.savepoints)) result self.new }
        ensures told { MayTell true account.old account.new
            (savepoint_told self.old.state name.now) }
    {
        self.tell_rollback_to(name, account);
        self.back_to(name)
    }

    // ROLLBACK TO SAVEPOINT, refused outside a transaction.
    fn back_to_or_refuse(&mut self, name: &str) -> Outcome
        ensures performs { Performs self.old.state
            (outcome_unless self.old.state (transaction_cause (is_open self.old.state) inside)
            (rollback_to_outcome self.old.state
            (savepoint_named name.now self.old.state.savepoints))) result self.new }
        ensures looked_up { LooksUpFew self.old self.new }
        ensures sure { is_open self.old.state ≡ false → is_memory result ≡ false }
        ensures sure_store { K.sure ≡ true → is_memory result ≡ false }
    {
        if self.in_transaction() {
            self.back_to(name)
        } else {
            self.refuse_now(Cause::NoTransaction)
        }
    }

    /// ROLLBACK TO SAVEPOINT as a call. The answer, the next state and the undone changes are the machine's, or an
    /// allocation failed and the state is as before. Outside a transaction it allocates nothing, and on a store that
    /// goes back to a mark without an allocation it never does.
    pub fn rollback_to(&mut self, name: &str) -> Outcome
        ensures looked_up { LooksUpFew self.old self.new }
        ensures lookups { self.new.lookups ≡ self.new.looked_up - self.old.looked_up }
        ensures not_looked_up { ((store : K) → K.lookups store ≡ 0) → self.new.lookups ≡ 0 }
        ensures sure { is_open self.old.state ≡ false → is_memory result ≡ false }
        ensures sure_store { K.sure ≡ true → is_memory result ≡ false }
        ensures performs { Performs self.old.state
            (outcome_unless self.old.state (transaction_cause (is_open self.old.state) inside)
            (rollback_to_outcome self.old.state
            (savepoint_named name.now self.old.state.savepoints))) result self.new }
    {
        let looked_up = self.looked_up();
        let answer = self.back_to_or_refuse(name);
        self.count_lookups(looked_up);
        answer
    }
}
