//! The calls that need no resolution.
ghost use Rattle.std.specs.Prelude.{◌≡◌, ◌≢◌, ◌-◌, ◌^◌, [], length, min, true, false, is_some, IfErr, IfOk, OnErr, OnOk, option_copied};
ghost use Rattle.iv_expr.specs.Scopes.{contents, table_rows};
ghost use Rattle.iv_catalogue.specs.Refusals.{is_memory, is_memory_cause};
ghost use Rattle.iv_machine.specs.declared.database.Which.TheVariants.{All, Deferred};
ghost use Rattle.iv_machine.specs.Databases.{is_chosen, row_at, scan};
ghost use Rattle.iv_machine.specs.Machine.{commit_outcome, empty_state, inside, is_open, no_work, outcome_unless, rollback_outcome};
ghost use Rattle.iv_machine.specs.Machine.{rollback_to_outcome, savepoint_named, transaction_cause};
ghost use Rattle.iv_account.specs.Sessions.{commit_told};
ghost use Rattle.iv_account.specs.Telling.{MayTell, no_account};
ghost use Rattle.iv_step.specs.Pending.{FaultsRise, violations_told};
ghost use Rattle.iv_state.specs.Kept.{with_account};
ghost use Rattle.iv_state.specs.Ending.{commit_answer};
ghost use Rattle.iv_state.specs.Performing.{Performs};
ghost use Rattle.iv_session.specs.FewLookups.{FewLookups};

use iv_account::{Account, Entry};
use iv_catalogue::{Catalogue, Cause, Fault};
use iv_expr::{Row, StoredRow, TableId};
use iv_machine::Limits;
use iv_state::{SessionState, Work};
use iv_step::Outcome;
use iv_store::Keeper;
use iv_syntax::ConstraintMode;
use sqlite_items::Items;
use std::alloc::{AllocError, Global};
use std::marker::Model;

/// A session: the state of the machine, with the work of the last call, and the account of the last statement, if one
/// is asked for. Contracts see this state.
pub struct Session<K: Keeper + Drop> {
    pub(crate) state: SessionState<K>,
    pub(crate) account: Account,
}

// Written out, so that it is proved once, and not again in each crate that drops a session.
impl<K: Keeper + Drop> Drop for Session<K> {
    fn drop(self) {
        let Session { state, account } = self;
        drop(state);
        drop(account);
    }
}

impl<K: Keeper + Drop> Model for Session<K> {
    ghost use Rattle.iv_state.specs.Kept.{Seen, with_account};
    ghost use Rattle.iv_expr.specs.contracts.tree.Cond as cond;
    ghost use Rattle.iv_expr.specs.contracts.tree.Expr as expr;
    ghost use Rattle.std.specs.Coded.{codes};
    ghost use Rattle.iv_step.proofs.Reached.{IsReached};

    ghost Value = { Seen };

    ghost coded = { Prim.hlevel (codes, cond.the_row.coded, expr.the_row.coded) };

    ghost view = { λ s. with_account s.state s.account };

    // The state is one that statements reach from an empty one.
    ghost invariant = { λ s. IsReached s.state.state };
}

impl<K: Keeper + Drop> Session<K> {
    /// A session without tables, with these limits. No account is asked for.
    pub fn new(alloc: Global, limits: Limits) -> Result<Self, AllocError>
        ensures { IfOk result (λ s. s
            ≡ record {
              state = empty_state limits;
              work = no_work;
              lookups = 0;
              looked_up = 0;
              account = no_account false;
            }) }
    {
        Ok(Session {
            state: SessionState::new(alloc, limits)?,
            account: Account::new(alloc, false),
        })
    }

    /// Turns accounts on or off, and clears the account of the last statement. It allocates nothing.
    pub fn explain(&mut self, asked: bool)
        ensures { self.new ≡ with_account self.old (no_account asked) }
    {
        self.account = Account::new(self.state.allocator(), asked);
    }

    /// Whether an account of each statement is asked for.
    pub fn explains(&self) -> bool
        ensures { result ≡ self.now.account.asked }
    {
        self.account.is_asked()
    }

    /// What happened in the last statement or call of `commit`, in order, if an account was asked for, and otherwise
    /// nothing.
    pub fn account(&self) -> &[Entry]
        ensures { result.now ≡ self.now.account.entries }
    {
        self.account.entries()
    }

    /// Whether the last statement or call was a COMMIT or a ROLLBACK TO SAVEPOINT whose account could not be allocated.
    /// That account is then empty; otherwise it is whole.
    pub fn is_untold(&self) -> bool
        ensures { result ≡ self.now.account.untold }
    {
        self.account.is_untold()
    }

    /// The limits that it was made with.
    pub fn limits(&self) -> Limits
        ensures { result ≡ self.now.state.limits }
    {
        self.state.limits()
    }

    /// The tables, constraints and triggers.
    pub fn catalogue(&self) -> &Catalogue
        ensures { result.now ≡ self.now.state.schema }
    {
        self.state.catalogue()
    }

    /// The mode of each constraint now, by its number. Outside a transaction each is in its initial mode.
    pub fn modes(&self) -> &[ConstraintMode]
        ensures { result.now ≡ self.now.state.modes }
    {
        self.state.constraint_modes()
    }

    /// The row of this number, with its table; none if there is no such row now. It looks no key up and allocates
    /// nothing.
    pub fn row(&self, number: u64) -> Option<&StoredRow>
        ensures { option_copied result ≡ row_at self.now.state.database.rows number }
    {
        self.state.row(number)
    }

    /// The rows of a table, by number; none if there is no such table. They share their values with the session. It
    /// takes time in proportion to them.
    pub fn rows(&self, table: TableId) -> Result<Items<Row>, Cause>
        ensures rows { IfOk result (λ rows. rows
            ≡ contents (table_rows self.now.state.database.rows table)) }
        ensures memory { IfErr result (λ cause. is_memory_cause cause ≡ true) }
    {
        self.state.rows(table)
    }

    /// Whether a transaction is open.
    pub fn in_transaction(&self) -> bool
        ensures open { result ≡ is_some self.now.state.start }
        // Outside a transaction no constraint is violated.
        ensures unviolated { result ≡ false →
            scan self.now.state.database.rows self.now.state.schema.constraints
            (is_chosen self.now.state.modes All) ≡ [] }
    {
        self.state.in_transaction()
    }

    /// What the last statement or call did.
    pub fn work(&self) -> Work
        ensures work { record { changes = result.changes; undone = result.undone } ≡ self.now.work }
        ensures lookups { result.lookups ≡ self.now.lookups }
    {
        self.state.work()
    }

    /// The violations of deferred constraints, in creation order of the constraints, then by row.
    pub fn pending(&self) -> Result<Vec<Fault>, AllocError>
        ensures faults { IfOk result (λ faults. faults.items ≡
            scan self.now.state.database.rows self.now.state.schema.constraints
            (is_chosen self.now.state.modes Deferred)) }
        ensures rise { IfOk result (λ faults. FaultsRise faults.items) }
    {
        self.state.pending()
    }

    /// What an account tells of these violations, of rows as they are now.
    pub fn violations(&self, faults: &[Fault]) -> Result<Account, AllocError>
        ensures { IfOk result (λ account. account.entries
            ≡ violations_told self.now.state faults.now) }
    {
        self.state.violations(faults)
    }

    /// How many violations of deferred constraints there are; the count stays at 2^64 - 1 once it is there. It
    /// allocates nothing.
    pub fn pending_count(&self) -> u64
        ensures { result ≡ min (length (scan self.now.state.database.rows
            self.now.state.schema.constraints (is_chosen self.now.state.modes Deferred)))
            (2 ^ 64 - 1) }
    {
        self.state.pending_count()
    }

    /// Ends the transaction and restores the database from its start. Outside a transaction it does nothing. It can't
    /// fail for lack of memory.
    pub fn rollback(&mut self)
        ensures state { self.new.state ≡ (rollback_outcome self.old.state).state }
        ensures work { self.new.work ≡ (rollback_outcome self.old.state).work }
        ensures bounded { FewLookups self.old.state self.new }
        ensures lookups { self.new.lookups ≡ self.new.looked_up - self.old.looked_up }
        ensures not_looked_up { ((store : K) → K.lookups store ≡ 0) → self.new.lookups ≡ 0 }
        ensures account { self.new.account ≡ no_account self.old.account.asked }
    {
        self.account = Account::new(self.state.allocator(), self.account.is_asked());
        self.state.rollback();
    }

    /// Ends the transaction. If no constraint is violated, the database stays; otherwise it is restored from the
    /// transaction's start. Outside a transaction the call does nothing. It can't fail for lack of memory: an account
    /// that can't be allocated is empty, and `is_untold` says so.
    pub fn commit(&mut self) -> Result<(), Fault>
        ensures answer { commit_answer result ≡ (commit_outcome self.old.state).answer }
        ensures state { self.new.state ≡ (commit_outcome self.old.state).state }
        ensures work { self.new.work ≡ (commit_outcome self.old.state).work }
        ensures bounded { FewLookups self.old.state self.new }
        ensures lookups { self.new.lookups ≡ self.new.looked_up - self.old.looked_up }
        ensures not_looked_up { ((store : K) → K.lookups store ≡ 0) → self.new.lookups ≡ 0 }
        // It is accepted exactly if the scan of all constraints is empty.
        ensures accepted { OnOk result
            (scan self.old.state.database.rows self.old.state.schema.constraints
            (is_chosen self.old.state.modes All) ≡ []) }
        ensures refused { OnErr result
            (scan self.old.state.database.rows self.old.state.schema.constraints
            (is_chosen self.old.state.modes All) ≢ []) }
        ensures told { MayTell true (no_account self.old.account.asked) self.new.account
            (commit_told self.old.state) }
    {
        self.account = Account::new(self.state.allocator(), self.account.is_asked());
        self.state.tell_commit(&mut self.account);
        self.state.commit()
    }

    /// ROLLBACK TO SAVEPOINT as a call. The answer, the next state and the undone changes are the machine's, or an
    /// allocation failed and the state is as before. Outside a transaction it allocates nothing, and on a store that
    /// goes back to a mark without an allocation it never does.
    pub fn rollback_to(&mut self, name: &str) -> Outcome
        ensures bounded { FewLookups self.old.state self.new }
        ensures lookups { self.new.lookups ≡ self.new.looked_up - self.old.looked_up }
        ensures not_looked_up { ((store : K) → K.lookups store ≡ 0) → self.new.lookups ≡ 0 }
        ensures sure { is_open self.old.state ≡ false → is_memory result ≡ false }
        ensures sure_store { K.sure ≡ true → is_memory result ≡ false }
        ensures performs { Performs self.old.state
            (outcome_unless self.old.state (transaction_cause (is_open self.old.state) inside)
            (rollback_to_outcome self.old.state
            (savepoint_named name.now self.old.state.savepoints))) result self.new }
        ensures account { self.new.account ≡ no_account self.old.account.asked }
    {
        self.account = Account::new(self.state.allocator(), self.account.is_asked());
        self.state.rollback_to(name)
    }
}
