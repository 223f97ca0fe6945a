//! What executes statements as `step` says.
ghost use Rattle.std.specs.Prelude.{◌≡◌, Bool, true, false, IfErr, IfOk, is_some};
ghost use Rattle.iv_expr.specs.Scopes.{contents, table_rows};
ghost use Rattle.iv_catalogue.specs.Refusals.{is_memory, is_memory_cause};
ghost use Rattle.iv_machine.specs.Machine.{State, empty_state};
ghost use Rattle.iv_account.specs.Telling as telling;
ghost use Rattle.iv_step.specs.Pending.{FaultsRise, pending, violations_told};
ghost use Rattle.iv_step.specs.Step.{Executes, takes_no_memory};
ghost use Rattle.iv_step.specs.Sure.{is_rollback_to};
ghost use Rattle.iv_step.specs.Telling.{Tells};

use iv_account::{Account, Entry};
use iv_catalogue::{Catalogue, Cause, Fault, Refusal};
use iv_expr::{Row, TableId};
use iv_machine::{Answer, Limits};
use iv_syntax::Statement;
use sqlite_items::Items;
use std::alloc::{AllocError, Global};

/// What a statement answers.
pub type Outcome = Result<Answer, Refusal>;

/// Whether an allocation failed.
pub fn is_memory_refused(outcome: &Outcome) -> bool
    ensures { result ≡ is_memory outcome.now }
{
    match outcome {
        Ok(_) => false,
        Err(refusal) => matches!(refusal.cause, Cause::OutOfMemory),
    }
}

/// A database that executes statements, one after another.
pub trait Executor {
    /// The state of the machine.
    ghost state: { Self → State };

    /// The account of the last statement, if it is asked for.
    ghost told: { Self → telling.Account };

    /// Whether ROLLBACK TO SAVEPOINT allocates nothing.
    ghost sure_store: { Bool };

    /// A database without tables, with these limits. No account is asked for.
    fn new(alloc: Global, limits: Limits) -> Result<Self, AllocError>
    where
        Self: Sized,
        ensures state { IfOk result (λ s. state s ≡ empty_state limits) }
        ensures told { IfOk result (λ s. told s ≡ telling.no_account false) };

    /// Turns accounts on or off, and clears the account of the last statement.
    fn explain(&mut self, asked: bool)
        ensures state { state self.new ≡ state self.old }
        ensures told { told self.new ≡ telling.no_account asked };

    /// The account of the last statement, if it was asked for.
    fn account(&self) -> &[Entry]
        ensures { result.now ≡ (told self.now).entries };

    /// Whether the account of the last statement, a COMMIT or a ROLLBACK TO SAVEPOINT, could not be allocated, so that it
    /// is empty.
    fn is_untold(&self) -> bool
        ensures { result ≡ (told self.now).untold };

    /// The limits of its statements.
    fn limits(&self) -> Limits
        ensures { result ≡ (state self.now).limits };

    /// The tables, constraints and triggers.
    fn catalogue(&self) -> &Catalogue
        ensures { result.now ≡ (state self.now).schema };

    /// Whether a transaction is open.
    fn in_transaction(&self) -> bool
        ensures { result ≡ is_some (state self.now).start };

    /// The rows of a table, by number. They share their values with the database.
    fn rows(&self, table: TableId) -> Result<Items<Row>, Cause>
        ensures rows { IfOk result (λ rows. rows ≡ contents (table_rows (state self.now).database.rows table)) }
        ensures memory { IfErr result (λ cause. is_memory_cause cause ≡ true) };

    /// The violations of deferred constraints.
    fn pending(&self) -> Result<Vec<Fault>, AllocError>
        ensures faults { IfOk result (λ faults. faults.items ≡ pending (state self.now)) }
        ensures rise { IfOk result (λ faults. FaultsRise faults.items) };

    /// What an account tells of these violations.
    fn violations(&self, faults: &[Fault]) -> Result<Account, AllocError>
        ensures { IfOk result (λ account. account.entries
            ≡ violations_told (state self.now) faults.now) };

    /// Executes a statement. The answer and the next state are the machine's, or an allocation failed and the state is
    /// as before.
    fn execute(&mut self, statement: &Statement) -> Outcome
        ensures step { Executes (state self.old) statement.now result (state self.new) }
        ensures sure { takes_no_memory (state self.old) statement.now ≡ true
            → is_memory result ≡ false }
        ensures sure_store { sure_store ≡ true → is_rollback_to statement.now ≡ true
            → is_memory result ≡ false }
        ensures told { Tells (told self.old).asked (state self.old) statement.now result
            (told self.new) };
}
