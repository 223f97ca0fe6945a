//! Statements that change the schema.
ghost use Rattle.std.specs.Prelude.{◌≡◌};
ghost use Rattle.iv_catalogue.specs.Catalogues.{with_table, with_trigger, without_trigger};
ghost use Rattle.iv_account.specs.Sessions.{addition_told};
ghost use Rattle.iv_account.specs.Telling.{and_told};
ghost use Rattle.iv_laws_rows.specs.Changing.{UnlessMemory};
ghost use Rattle.iv_catalogue.specs.declared.plan.SchemaPlan.TheVariants.{AddConstraint, CreateTable, CreateTrigger, DropTrigger};
ghost use Rattle.iv_machine.specs.declared.answer.Answer.TheVariants.{Done};
ghost use Rattle.iv_machine.specs.Machine.{accept, add_constraint_outcome, with_schema};
ghost use Rattle.iv_state.specs.Fits.{SchemaFits, adding_refusal};
ghost use Rattle.iv_state.specs.Performing.{Performs};

use crate::adding::{add_constraint, add_table};
use crate::session_state::{SessionState, Work};
use iv_account::Account;
use iv_catalogue::{Cause, Constraint, Constraints, Refusal, Table, Trigger, TriggerId};
use iv_machine::Answer;
use iv_step::Outcome;
use iv_store::{AddFault, Keeper};
use std::alloc::AllocError;

// The refusal of a constraint that isn't added.
fn adding_refusal(fault: AddFault) -> Refusal
    ensures { result ≡ adding_refusal fault }
{
    match fault {
        AddFault::Row(row) => Refusal::of(Cause::AddRefused(row)),
        AddFault::NoMemory => Refusal::from(AllocError),
    }
}

impl<K: Keeper + Drop> SessionState<K> {
    // CREATE TABLE.
    pub(crate) fn create_table(&mut self, table: Table, constraints: Constraints) -> Outcome
        requires { SchemaFits self.old.state (CreateTable table constraints) }
        ensures { Performs self.old.state
            (accept (with_schema self.old.state
            (with_table self.old.state.schema table constraints)) Done) result self.new }
    {
        self.work = Work::none();
        match add_table(&mut self.store, &mut self.catalogue, table, constraints) {
            Ok(modes) => {
                self.initial = modes;
                Ok(Answer::Done)
            }
            Err(error) => Err(Refusal::from(error)),
        }
    }

    // ALTER TABLE ADD.
    pub(crate) fn add_constraint(
        &mut self,
        constraint: Constraint,
        account: &mut Account,
    ) -> Outcome
        requires { SchemaFits self.old.state (AddConstraint constraint) }
        ensures performs { Performs self.old.state
            (add_constraint_outcome self.old.state constraint) result self.new }
        ensures told { UnlessMemory result (account.new
            ≡ and_told account.old (addition_told self.old.state constraint)) }
    {
        self.work = Work::none();
        match add_constraint(&mut self.store, &mut self.catalogue, constraint, account) {
            Ok(modes) => {
                self.initial = modes;
                Ok(Answer::Done)
            }
            Err(fault) => Err(adding_refusal(fault)),
        }
    }

    // CREATE TRIGGER.
    pub(crate) fn create_trigger(&mut self, trigger: Trigger) -> Outcome
        requires { SchemaFits self.old.state (CreateTrigger trigger) }
        ensures { Performs self.old.state
            (accept (with_schema self.old.state (with_trigger self.old.state.schema trigger)) Done)
            result self.new }
    {
        self.work = Work::none();
        match self.catalogue.add_trigger(trigger) {
            Ok(()) => Ok(Answer::Done),
            Err(error) => Err(Refusal::from(error)),
        }
    }

    // DROP TRIGGER.
    pub(crate) fn drop_trigger(&mut self, id: TriggerId)
        requires { SchemaFits self.old.state (DropTrigger id) }
        ensures state { self.new.state
            ≡ with_schema self.old.state (without_trigger self.old.state.schema id) }
        ensures work { self.new.work ≡ record { changes = 0; undone = 0 } }
    {
        self.work = Work::none();
        self.catalogue.drop_trigger(id);
    }
}
