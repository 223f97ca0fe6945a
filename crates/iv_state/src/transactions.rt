//! The ends of a transaction, and what is pending in it.
ghost use Rattle.std.specs.Prelude.{◌≡◌, ◌≢◌, ◌-◌, ◌^◌, [], length, map, min, true, IfOk, OnErr, OnOk, None, if◌then◌else◌, option_copied};
ghost use Rattle.iv_machine.specs.declared.database.Which.TheVariants.{All, Deferred};
ghost use Rattle.iv_machine.specs.Databases.{is_chosen, row_at, scan};
ghost use Rattle.iv_machine.specs.Machine.{commit_outcome, first_violation, is_open, no_work, rollback_outcome, state_at_end};
ghost use Rattle.iv_state.specs.Ending.{commit_answer};
ghost use Rattle.iv_state.specs.Looking.{LookedUp, LooksUpFew};

use crate::session_state::{SessionState, Work};
use iv_catalogue::Fault;
use iv_expr::StoredRow;
use iv_machine::Which;
use iv_modes::Modes;
use iv_store::{Keeper, Mark};
use iv_syntax::ConstraintMode;
use std::alloc::AllocError;

impl<K: Keeper + Drop> SessionState<K> {
    // The modes of the constraints.
    pub(crate) fn modes(&self) -> &Modes
        ensures modes { result.now.modes ≡ self.now.state.modes }
        ensures settable { result.now.deferrable
            ≡ map (λ c. c.deferrable) self.now.state.schema.constraints }
    {
        match &self.changed {
            Some(modes) => modes,
            None => &self.initial,
        }
    }

    /// The mode of each constraint now, by its number.
    pub fn constraint_modes(&self) -> &[ConstraintMode]
        ensures { result.now ≡ self.now.state.modes }
    {
        self.modes().as_slice()
    }

    /// The row of this number. It looks no key up and allocates nothing.
    pub fn row(&self, number: u64) -> Option<&StoredRow>
        ensures { option_copied result ≡ row_at self.now.state.database.rows number }
    {
        self.store.row(number)
    }

    /// The violations of deferred constraints, in creation order of the constraints, then by row.
    pub fn pending(&self) -> Result<Vec<Fault>, AllocError>
        ensures { IfOk result (λ faults. faults.items ≡
            scan self.now.state.database.rows self.now.state.schema.constraints
            (is_chosen self.now.state.modes Deferred)) }
    {
        self.store.list_faults(self.modes(), Which::Deferred)
    }

    /// How many violations of deferred constraints there are; the count stays at 2^64 - 1 once it is there. It
    /// allocates nothing.
    pub fn pending_count(&self) -> u64
        ensures { result ≡ min (length (scan self.now.state.database.rows
            self.now.state.schema.constraints (is_chosen self.now.state.modes Deferred)))
            (2 ^ 64 - 1) }
    {
        self.store.count_faults(self.modes(), Which::Deferred)
    }

    // The first violation of any constraint.
    fn first_violation(&self) -> Option<Fault>
        ensures { result ≡ first_violation self.now.state }
    {
        self.store.first_fault(self.modes(), Which::All)
    }

    // Why COMMIT is refused.
    fn commit_fault(&self) -> Option<Fault>
        ensures { result
            ≡ (if is_open self.now.state then first_violation self.now.state else None) }
    {
        if self.in_transaction() {
            self.first_violation()
        } else {
            None
        }
    }

    // Says what a call did, which began when so many keys were looked up.
    pub(crate) fn note(&mut self, changes: u64, undone: u64, looked_up: u64)
        ensures state { self.new.state ≡ self.old.state }
        ensures work { self.new.work ≡ record { changes = changes; undone = undone } }
        ensures lookups { self.new.lookups ≡ self.old.looked_up - looked_up }
        ensures not_looked_up { ((store : K) → K.lookups store ≡ 0) → self.new.lookups ≡ 0 }
        ensures looked_up { self.new.looked_up ≡ self.old.looked_up }
    {
        let lookups = self.store.looked_up().saturating_sub(looked_up);
        self.work = Work {
            changes,
            undone,
            lookups,
        };
    }

    /// How many keys were looked up so far; the count stays at 2^64 - 1 once it is there.
    pub fn looked_up(&self) -> u64
        ensures { result ≡ self.now.looked_up }
    {
        self.store.looked_up()
    }

    /// Resets the work counters.
    pub fn clear_work(&mut self)
        ensures state { self.new.state ≡ self.old.state }
        ensures work { self.new.work ≡ no_work }
        ensures lookups { self.new.lookups ≡ 0 }
        ensures looked_up { self.new.looked_up ≡ self.old.looked_up }
    {
        self.work = Work::none();
    }

    /// Sets how many keys the last call looked up, from the count at its beginning.
    pub fn count_lookups(&mut self, looked_up: u64)
        ensures state { self.new.state ≡ self.old.state }
        ensures work { self.new.work ≡ self.old.work }
        ensures lookups { self.new.lookups ≡ self.old.looked_up - looked_up }
        ensures not_looked_up { ((store : K) → K.lookups store ≡ 0) → self.new.lookups ≡ 0 }
        ensures looked_up { self.new.looked_up ≡ self.old.looked_up }
    {
        self.work.lookups = self.store.looked_up().saturating_sub(looked_up);
    }

    // How many changes a ROLLBACK takes back.
    fn undone_at_end(&self) -> u64
        ensures { result ≡ (rollback_outcome self.now.state).work.undone }
    {
        if self.active {
            self.store.change_count()
        } else {
            0
        }
    }

    // Ends the transaction with the database from its start.
    fn undo_transaction(&mut self)
        ensures state { self.new.state ≡ (rollback_outcome self.old.state).state }
        ensures looked_up { LookedUp (length self.old.state.schema.constraints)
            (rollback_outcome self.old.state).work self.old.looked_up self.new.looked_up }
    {
        if self.active {
            self.store.undo(Mark::new(0));
            self.store.settle();
            self.saves.clear();
            self.changed = None;
            self.active = false;
        }
    }

    /// Ends the transaction and restores the database from its start. Outside a transaction it does nothing. It
    /// allocates nothing.
    pub fn rollback(&mut self)
        ensures state { self.new.state ≡ (rollback_outcome self.old.state).state }
        ensures work { self.new.work ≡ (rollback_outcome self.old.state).work }
        ensures looked_up { LooksUpFew self.old self.new }
        ensures lookups { self.new.lookups ≡ self.new.looked_up - self.old.looked_up }
        ensures not_looked_up { ((store : K) → K.lookups store ≡ 0) → self.new.lookups ≡ 0 }
    {
        let looked_up = self.looked_up();
        let undone = self.undone_at_end();
        self.undo_transaction();
        self.note(0, undone, looked_up);
    }

    // Ends the transaction with the database as it is.
    fn settle(&mut self)
        ensures state { self.new.state ≡
            (if is_open self.old.state then state_at_end self.old.state self.old.state.database else
            self.old.state) }
        ensures work { self.new.work ≡ no_work }
        ensures still { self.new.looked_up ≡ self.old.looked_up }
        ensures lookups { self.new.lookups ≡ self.new.looked_up - self.old.looked_up }
        ensures not_looked_up { ((store : K) → K.lookups store ≡ 0) → self.new.lookups ≡ 0 }
    {
        if self.active {
            self.store.settle();
            self.saves.clear();
            self.changed = None;
            self.active = false;
        }
        self.work = Work::none();
    }

    /// Ends the transaction. If no constraint is violated, the database stays; otherwise it is restored from the
    /// transaction's start. Outside a transaction the call does nothing. It allocates nothing.
    pub fn commit(&mut self) -> Result<(), Fault>
        ensures answer { commit_answer result ≡ (commit_outcome self.old.state).answer }
        ensures state { self.new.state ≡ (commit_outcome self.old.state).state }
        ensures work { self.new.work ≡ (commit_outcome self.old.state).work }
        ensures looked_up { LooksUpFew self.old self.new }
        ensures lookups { self.new.lookups ≡ self.new.looked_up - self.old.looked_up }
        ensures not_looked_up { ((store : K) → K.lookups store ≡ 0) → self.new.lookups ≡ 0 }
        // Inside a transaction it is accepted exactly if the scan of all constraints is empty.
        ensures accepted { OnOk result (is_open self.old.state ≡ true →
            scan self.old.state.database.rows self.old.state.schema.constraints
            (is_chosen self.old.state.modes All) ≡ []) }
        ensures refused { OnErr result
            (scan self.old.state.database.rows self.old.state.schema.constraints
            (is_chosen self.old.state.modes All) ≢ []) }
    {
        match self.commit_fault() {
            None => {
                self.settle();
                Ok(())
            }
            Some(fault) => {
                self.rollback();
                Err(fault)
            }
        }
    }
}
