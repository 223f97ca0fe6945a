//! The least cause that a statement deserves, or its plan.
ghost use Rattle.std.specs.Prelude.{◌≡◌, IfOk, None};
ghost use Rattle.iv_resolution.specs.Bound.{bound};
ghost use Rattle.iv_resolution.specs.Resolution.{Resolves, least};

use crate::faulty::is_faulty;
use crate::limits::is_beyond_limits;
use crate::misshaped::is_misshaped;
use crate::planning::{
    plan_of_constraints, plan_of_delete, plan_of_insert, plan_of_select, plan_of_trigger,
    plan_of_update, trigger_id,
};
use iv_catalogue::{Catalogue, Cause, Plan, Refusal, SchemaPlan, TransactionPlan};
use iv_resolve_name_faults::{duplicate_name, unknown_name};
use iv_resolve_scope::table_names;
use iv_resolve_statements::table_id;
use iv_resolve_tables::{bound_alteration, bound_table};
use iv_syntax::Statement;
use std::alloc::{AllocError, Global};

// The least cause that the statement deserves. It allocates nothing as seen from outside: if an allocation fails, names
// are compared in place.
fn least(alloc: Global, statement: &Statement, catalogue: &Catalogue) -> Option<Cause>
    ensures { result ≡ least catalogue.now statement.now }
{
    if unknown_name(alloc, catalogue, statement).is_some() {
        return Some(Cause::Unknown);
    }
    if duplicate_name(alloc, catalogue, statement).is_some() {
        return Some(Cause::Duplicate);
    }
    if is_faulty(alloc, statement, catalogue) {
        return Some(Cause::SchemaFault);
    }
    if is_misshaped(alloc, statement, catalogue) {
        return Some(Cause::WrongShape);
    }
    if is_beyond_limits(statement, catalogue) {
        return Some(Cause::Limit);
    }
    None
}

fn bound(alloc: Global, statement: &Statement, catalogue: &Catalogue) -> Result<Plan, AllocError>
    ensures { IfOk result (λ p. p ≡ bound catalogue.now statement.now) }
{
    match statement {
        Statement::CreateTable { name, elements } => {
            bound_table(alloc, catalogue, name, elements.as_slice())
        }
        Statement::AlterTable { table, constraint } => {
            let id = table_id(&table_names(catalogue), table.as_str());
            bound_alteration(alloc, catalogue, id, constraint)
        }
        Statement::CreateTrigger(trigger) => plan_of_trigger(alloc, trigger, catalogue),
        Statement::DropTrigger(name) => {
            let id = trigger_id(catalogue, name.as_str());
            Ok(Plan::Schema(SchemaPlan::DropTrigger(id)))
        }
        Statement::Insert(insert) => plan_of_insert(alloc, insert, catalogue),
        Statement::Update(update) => plan_of_update(alloc, update, catalogue),
        Statement::Delete(delete) => plan_of_delete(alloc, delete, catalogue),
        Statement::Select(select) => plan_of_select(alloc, select, catalogue),
        Statement::StartTransaction => Ok(Plan::Transaction(TransactionPlan::Start)),
        Statement::Commit => Ok(Plan::Transaction(TransactionPlan::Commit)),
        Statement::Rollback => Ok(Plan::Transaction(TransactionPlan::Rollback)),
        Statement::Savepoint(name) => Ok(Plan::Transaction(TransactionPlan::Savepoint(
            name.clone()?,
        ))),
        Statement::Release(name) => Ok(Plan::Transaction(TransactionPlan::Release(name.clone()?))),
        Statement::RollbackTo(name) => Ok(Plan::Transaction(TransactionPlan::RollbackTo(
            name.clone()?,
        ))),
        Statement::SetConstraints(constraints, mode) => {
            plan_of_constraints(alloc, constraints, *mode, catalogue)
        }
    }
}

// The plan of a statement that deserves no cause.
fn planned(alloc: Global, statement: &Statement, catalogue: &Catalogue) -> Result<Plan, Refusal>
    requires { least catalogue.now statement.now ≡ None }
    ensures { Resolves catalogue.now statement.now result }
{
    match bound(alloc, statement, catalogue) {
        Ok(plan) => Ok(plan),
        Err(error) => Err(Refusal::from(error)),
    }
}

/// The plan of a statement, or the least cause that it deserves. Only a plan is allocated.
pub fn resolve(alloc: Global, catalogue: &Catalogue, statement: &Statement) -> Result<Plan, Refusal>
    ensures { Resolves catalogue.now statement.now result }
{
    match least(alloc, statement, catalogue) {
        Some(cause) => Err(Refusal::of(cause)),
        None => planned(alloc, statement, catalogue),
    }
}
