//! What a resolved statement does.
ghost use Rattle.std.specs.Prelude.{◌≡◌, true, false, None};
ghost use Rattle.iv_catalogue.specs.Refusals.{is_memory, refusal_answer};
ghost use Rattle.iv_machine.specs.Machine.{change_outcome, commit_outcome, is_open, no_work, occasion_of, query_outcome, rollback_outcome, schema_outcome};
ghost use Rattle.iv_machine.specs.Machine.{transaction_cause, transaction_occasion, transaction_outcome};
ghost use Rattle.iv_laws_fitting.specs.PlanShapes.{data_suits, plain_shape};
ghost use Rattle.iv_account.specs.Sessions.{change_told, commit_told, query_told};
ghost use Rattle.iv_account.specs.Telling.{MayTell, and_told};
ghost use Rattle.iv_catalogue.specs.declared.plan.Plan.TheVariants as kind;
ghost use Rattle.iv_laws_rows.specs.Changing.{UnlessMemory};
ghost use Rattle.iv_state.specs.Telling.{TellsPlan};
ghost use Rattle.iv_state.specs.Fits.{PlanFits, SchemaFits};
ghost use Rattle.iv_state.specs.Looking.{LooksUpFew, is_definition};
ghost use Rattle.iv_state.specs.Performing.{Follows, Performs, PerformsPlan};

use crate::changes::DataStatements;
use crate::savepoints::refuse;
use crate::session_state::{SessionState, Work};
use iv_account::Account;
use iv_catalogue::{Cause, DataStatement, Plan, QueryPlan, SchemaPlan, TransactionPlan};
use iv_machine::Answer;
use iv_step::Outcome;
use iv_store::Keeper;
use iv_syntax::Statement;

impl<K: Keeper + Drop> SessionState<K> {
    /// COMMIT as a statement ("Commit statement"). If its account can't be allocated, it is empty.
    pub fn commit_statement(&mut self, account: &mut Account) -> Outcome
        ensures performs { Performs self.old.state (commit_outcome self.old.state) result self.new }
        ensures looked_up { LooksUpFew self.old self.new }
        ensures sure { is_memory result ≡ false }
        ensures told { MayTell true account.old account.new (commit_told self.old.state) }
    {
        self.tell_commit(account);
        match self.commit() {
            Ok(()) => Ok(Answer::Done),
            Err(fault) => refuse(Cause::CommitRefused(fault)),
        }
    }

    /// ROLLBACK as a statement ("Rollback statement").
    pub fn rollback_statement(&mut self) -> Outcome
        ensures performs { Performs self.old.state
            (rollback_outcome self.old.state) result self.new }
        ensures looked_up { LooksUpFew self.old self.new }
        ensures sure { is_memory result ≡ false }
    {
        self.rollback();
        Ok(Answer::Done)
    }

    // A statement of transaction management.
    pub(crate) fn transact(&mut self, plan: &TransactionPlan, account: &mut Account) -> Outcome
        requires { transaction_cause (is_open self.old.state) (transaction_occasion plan.now)
            ≡ None }
        ensures performs { Performs self.old.state
            (transaction_outcome self.old.state plan.now) result self.new }
        ensures looked_up { LooksUpFew self.old self.new }
        ensures told { TellsPlan self.old.state (kind.Transaction plan.now) result
            account.old account.new }
    {
        match plan {
            TransactionPlan::Start => self.start(),
            TransactionPlan::Commit => self.commit_statement(account),
            TransactionPlan::Rollback => self.rollback_statement(),
            TransactionPlan::Savepoint(name) => self.savepoint(name),
            TransactionPlan::Release(name) => self.release(name, account),
            TransactionPlan::RollbackTo(name) => self.back_to_telling(name.as_str(), account),
            TransactionPlan::SetConstraints(set, mode) => {
                self.set_constraints(set, *mode, account)
            }
        }
    }

    // A statement that changes the schema.
    fn define(&mut self, plan: SchemaPlan, account: &mut Account) -> Outcome
        requires { SchemaFits self.old.state plan }
        ensures performs { Performs self.old.state
            (schema_outcome self.old.state plan) result self.new }
        ensures told { TellsPlan self.old.state (kind.Schema plan) result
            account.old account.new }
    {
        match plan {
            SchemaPlan::CreateTable(table, constraints) => self.create_table(table, constraints),
            SchemaPlan::AddConstraint(constraint) => self.add_constraint(constraint, account),
            SchemaPlan::CreateTrigger(trigger) => self.create_trigger(trigger),
            SchemaPlan::DropTrigger(id) => {
                self.drop_trigger(id);
                Ok(Answer::Done)
            }
        }
    }

    // A data statement that is handed over.
    fn change_whole<D: DataStatements>(
        &mut self,
        statement: DataStatement,
        account: &mut Account,
    ) -> Outcome
        requires { data_suits self.old.state.schema.tables
            (plain_shape self.old.state.schema.tables) statement ≡ true }
        ensures follows { Follows self.old.state
            (change_outcome self.old.state statement) result self.new }
        ensures looked_up { UnlessMemory result (LooksUpFew self.old self.new) }
        ensures told { UnlessMemory result (account.new ≡ and_told account.old
            (change_told self.old.state statement)) }
    {
        let answer = self.change::<D>(&statement, account);
        drop(statement);
        answer
    }

    // A query that is handed over.
    fn query_whole(&mut self, plan: QueryPlan, account: &mut Account) -> Outcome
        ensures performs { Performs self.old.state
            (query_outcome self.old.state plan) result self.new }
        ensures still { self.new.looked_up ≡ self.old.looked_up }
        ensures told { UnlessMemory result (account.new
            ≡ and_told account.old (query_told self.old.state plan)) }
    {
        let answer = self.query(&plan, account);
        drop(plan);
        answer
    }

    // A statement of transaction management that is handed over.
    fn transact_whole(&mut self, plan: TransactionPlan, account: &mut Account) -> Outcome
        requires { transaction_cause (is_open self.old.state) (transaction_occasion plan) ≡ None }
        ensures performs { Performs self.old.state
            (transaction_outcome self.old.state plan) result self.new }
        ensures looked_up { LooksUpFew self.old self.new }
        ensures told { TellsPlan self.old.state (kind.Transaction plan) result
            account.old account.new }
    {
        let answer = self.transact(&plan, account);
        drop(plan);
        answer
    }

    /// Does what a resolved statement means. Data statements run as `D` says. The account records what happens, if it
    /// is asked for.
    #[tactic(auto, using(crate::proofs::Performed::plan_performed))]
    pub fn perform<D: DataStatements>(&mut self, plan: Plan, account: &mut Account) -> Outcome
        requires { PlanFits self.old.state plan }
        ensures performs { PerformsPlan self.old.state plan result self.new }
        ensures looked_up { is_definition plan ≡ false
            → UnlessMemory result (LooksUpFew self.old self.new) }
        ensures told { TellsPlan self.old.state plan result account.old account.new }
    {
        match plan {
            Plan::Schema(definition) => self.define(definition, account),
            Plan::Change(statement) => self.change_whole::<D>(statement, account),
            Plan::Query(query) => self.query_whole(query, account),
            Plan::Transaction(control) => self.transact_whole(control, account),
        }
    }

    /// Why a statement is refused for the transaction that is open or isn't.
    pub fn transaction_cause(&self, statement: &Statement) -> Option<Cause>
        ensures { result ≡ transaction_cause (is_open self.now.state) (occasion_of statement.now) }
    {
        let open = self.in_transaction();
        match statement {
            Statement::CreateTable { .. }
            | Statement::AlterTable { .. }
            | Statement::CreateTrigger(_)
            | Statement::DropTrigger(_) => open.then_some(Cause::InTransaction),
            Statement::StartTransaction => open.then_some(Cause::ActiveTransaction),
            Statement::Savepoint(_)
            | Statement::Release(_)
            | Statement::RollbackTo(_)
            | Statement::SetConstraints(_, _) => (!open).then_some(Cause::NoTransaction),
            _ => None,
        }
    }

    /// Refuses a statement, which did nothing.
    pub fn refuse_now(&mut self, cause: Cause) -> Outcome
        ensures answer { result ≡ refusal_answer cause }
        ensures state { self.new.state ≡ self.old.state }
        ensures still { self.new.looked_up ≡ self.old.looked_up }
        ensures work { self.new.work ≡ no_work }
    {
        self.work = Work::none();
        refuse(cause)
    }
}
