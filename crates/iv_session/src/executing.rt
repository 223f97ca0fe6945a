//! Whole statements.
ghost use Rattle.std.specs.Prelude.{◌≡◌, ◌-◌, true, false, None, IfOk, OnErr, MatchBool};
ghost use Rattle.iv_catalogue.specs.Refusals.{is_memory};
ghost use Rattle.iv_machine.specs.Machine.{is_open, occasion_of, resolution_outcome, transaction_cause};
ghost use Rattle.iv_resolution.specs.Resolution.{resolution};
ghost use Rattle.iv_account.specs.Telling.{MayTell};
ghost use Rattle.iv_step.specs.Step.{Executes, step, takes_no_memory};
ghost use Rattle.iv_step.specs.Sure.{is_rollback_to};
ghost use Rattle.iv_step.specs.Telling.{Tells, may_be_untold, resolution_told, statement_told};
ghost use Rattle.iv_state.specs.Performing.{Runs};
ghost use Rattle.iv_session.specs.RunningAll.{AllExecuted, IsRunOf};
ghost use Rattle.iv_session.specs.FewLookups.{FewLookups, defines_schema};
ghost use Rattle.iv_laws_rows.specs.Changing.{UnlessMemory};
ghost use Rattle.iv_state.specs.Looking.{LooksUpFew};

use crate::levels::Levels;
use crate::session::Session;
use iv_catalogue::Cause;
use iv_resolve::{is_writable, resolve};
use iv_step::{Outcome, is_memory_refused};
use iv_store::Keeper;
use iv_syntax::Statement;
use std::alloc::AllocError;

impl<K: Keeper + Drop> Session<K> {
    // Resolves a statement and does what it means.
    fn resolve_and_perform(&mut self, statement: &Statement) -> Outcome
        requires { transaction_cause (is_open self.old.state) (occasion_of statement.now) ≡ None }
        ensures runs { Runs self.old.state statement.now
            (resolution_outcome self.old.state (resolution self.old.state.schema statement.now))
            result self.new }
        ensures looked_up { defines_schema statement.now ≡ false
            → UnlessMemory result (LooksUpFew self.old self.new) }
        ensures told { MatchBool (is_memory result) (Unit {0})
            (MayTell (may_be_untold (resolution self.old.state.schema statement.now))
            self.old.account self.new.account
            (resolution_told self.old.state (resolution self.old.state.schema statement.now))) }
    {
        self.state.clear_work();
        match resolve(self.state.allocator(), self.state.catalogue(), statement) {
            Ok(plan) => self.state.perform::<Levels>(plan, &mut self.account),
            Err(refusal) => Err(refusal),
        }
    }

    // What a statement does, except the count of look-ups.
    fn run(&mut self, statement: &Statement) -> Outcome
        ensures runs { Runs self.old.state statement.now
            (step self.old.state statement.now) result self.new }
        ensures looked_up { defines_schema statement.now ≡ false
            → UnlessMemory result (LooksUpFew self.old self.new) }
        ensures sure { takes_no_memory self.old.state statement.now ≡ true
            → is_memory result ≡ false }
        ensures sure_store { K.sure ≡ true → is_rollback_to statement.now ≡ true
            → is_memory result ≡ false }
        ensures told { MatchBool (is_memory result) (Unit {0})
            (MayTell (may_be_untold (resolution self.old.state.schema statement.now))
            self.old.account self.new.account (statement_told self.old.state statement.now)) }
    {
        if let Some(cause) = self.state.transaction_cause(statement) {
            return self.state.refuse_now(cause);
        }
        match statement {
            Statement::Commit => self.state.commit_statement(&mut self.account),
            Statement::Rollback => self.state.rollback_statement(),
            Statement::RollbackTo(name) => {
                if is_writable(statement) {
                    self.state
                        .tell_rollback_to(name.as_str(), &mut self.account);
                    self.state.rollback_to(name.as_str())
                } else {
                    self.state.refuse_now(Cause::Limit)
                }
            }
            _ => self.resolve_and_perform(statement),
        }
    }

    // The same, with what is told of the statement after what was told before.
    fn execute_telling(&mut self, statement: &Statement) -> Outcome
        ensures step { Executes self.old.state statement.now result self.new.state }
        ensures sure { takes_no_memory self.old.state statement.now ≡ true
            → is_memory result ≡ false }
        // a store that goes back to a mark without an allocation
        ensures sure_store { K.sure ≡ true → is_rollback_to statement.now ≡ true
            → is_memory result ≡ false }
        ensures work { MatchBool (is_memory result) (Unit {0}) (self.new.work
            ≡ (step self.old.state statement.now).work) }
        ensures lookups { self.new.lookups ≡ self.new.looked_up - self.old.looked_up }
        // one that doesn't change the schema
        ensures bounded { defines_schema statement.now ≡ false
            → UnlessMemory result (FewLookups self.old.state self.new) }
        // a store that counts no look-up
        ensures not_looked_up { ((store : K) → K.lookups store ≡ 0) → self.new.lookups ≡ 0 }
        ensures told { MatchBool (is_memory result) (Unit {0})
            (MayTell (may_be_untold (resolution self.old.state.schema statement.now))
            self.old.account self.new.account (statement_told self.old.state statement.now)) }
    {
        let looked_up = self.state.looked_up();
        let answer = self.run(statement);
        self.state.count_lookups(looked_up);
        answer
    }

    /// Runs a statement. The answer, the next state and the work are the machine's, or an allocation failed and the
    /// state is as before. If an account is asked for, it records what happens, in time and memory in proportion to it.
    /// If the account of a COMMIT or a ROLLBACK TO SAVEPOINT can't be allocated, it is empty, and the statement goes on.
    pub fn execute(&mut self, statement: &Statement) -> Outcome
        ensures step { Executes self.old.state statement.now result self.new.state }
        ensures sure { takes_no_memory self.old.state statement.now ≡ true
            → is_memory result ≡ false }
        // a store that goes back to a mark without an allocation
        ensures sure_store { K.sure ≡ true → is_rollback_to statement.now ≡ true
            → is_memory result ≡ false }
        ensures work { MatchBool (is_memory result) (Unit {0}) (self.new.work
            ≡ (step self.old.state statement.now).work) }
        ensures lookups { self.new.lookups ≡ self.new.looked_up - self.old.looked_up }
        // one that doesn't change the schema
        ensures bounded { defines_schema statement.now ≡ false
            → UnlessMemory result (FewLookups self.old.state self.new) }
        // a store that counts no look-up
        ensures not_looked_up { ((store : K) → K.lookups store ≡ 0) → self.new.lookups ≡ 0 }
        // what is told of only this statement, if an account is asked for
        ensures told { Tells self.old.account.asked self.old.state statement.now result
            self.new.account }
    {
        let asked = self.explains();
        self.explain(asked);
        let answer = self.execute_telling(statement);
        if is_memory_refused(&answer) {
            self.explain(asked);
        }
        answer
    }

    /// Executes the statements one after another, each as `execute` does. The list of outcomes is reserved first: if it
    /// can't be allocated, nothing ran. Work and account are then those of the last statement.
    pub fn run_all(&mut self, statements: &[Statement]) -> Result<Vec<Outcome>, AllocError>
        ensures outcomes { IfOk result (λ outcomes.
            IsRunOf self.old.state statements.now outcomes.items self.new.state) }
        // each by the clauses of `execute`
        ensures each { IfOk result (λ outcomes.
            AllExecuted K.sure self.old statements.now outcomes.items self.new) }
        ensures asked { self.new.account.asked ≡ self.old.account.asked }
        ensures none { OnErr result (self.new ≡ self.old) }
    {
        let mut outcomes = Vec::with_capacity(self.state.allocator(), statements.len())?;
        let mut rest = statements;
        while let Some((statement, others)) = rest.split_first() {
            outcomes.push_reserved(self.execute(statement));
            rest = others;
        }
        Ok(outcomes)
    }
}
