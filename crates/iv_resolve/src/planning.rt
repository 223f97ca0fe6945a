//! The plans of statements. Each function allocates only the plan.
ghost use Rattle.std.specs.Prelude.{◌≡◌, [], IfOk, map};
ghost use Rattle.iv_catalogue.specs.declared.plan.Plan.TheVariants as plan;
ghost use Rattle.iv_catalogue.specs.declared.plan.SchemaPlan.TheVariants.{CreateTrigger};
ghost use Rattle.iv_catalogue.specs.declared.plan.TransactionPlan.TheVariants.{SetConstraints};
ghost use Rattle.iv_resolution.specs.Bound.{bound_constraints, bound_delete, bound_insert, bound_select, bound_trigger};
ghost use Rattle.iv_resolution.specs.Bound.{bound_update, constraint_id, trigger_id};
ghost use Rattle.iv_resolution.specs.Tables.{table_names};

use iv_catalogue::{
    Catalogue, ConstraintId, ConstraintSet, Plan, SchemaPlan, TransactionPlan, TriggerId,
};
use iv_resolve_scope::{Ranges, table_names};
use iv_resolve_statements::{
    bound_delete, bound_insert, bound_select, bound_trigger, bound_update,
};
use iv_syntax::{
    ConstraintList, ConstraintMode, Delete, Insert, Name, Select, TriggerDefinition, Update,
};
use sqlite_items::Items;
use std::alloc::{AllocError, Global};

/// The plan of an INSERT.
pub fn plan_of_insert(
    alloc: Global,
    insert: &Insert,
    catalogue: &Catalogue,
) -> Result<Plan, AllocError>
    ensures { IfOk result (λ p. p
        ≡ plan.Change (bound_insert (table_names catalogue.now) [] insert.now)) }
{
    let names = table_names(catalogue);
    Ok(Plan::Change(bound_insert(alloc, insert, &names, &Ranges::Nothing)?))
}

/// The plan of an UPDATE.
pub fn plan_of_update(
    alloc: Global,
    update: &Update,
    catalogue: &Catalogue,
) -> Result<Plan, AllocError>
    ensures { IfOk result (λ p. p
        ≡ plan.Change (bound_update (table_names catalogue.now) [] update.now)) }
{
    let names = table_names(catalogue);
    Ok(Plan::Change(bound_update(alloc, update, &names, &Ranges::Nothing)?))
}

/// The plan of a DELETE.
pub fn plan_of_delete(
    alloc: Global,
    delete: &Delete,
    catalogue: &Catalogue,
) -> Result<Plan, AllocError>
    ensures { IfOk result (λ p. p
        ≡ plan.Change (bound_delete (table_names catalogue.now) [] delete.now)) }
{
    let names = table_names(catalogue);
    Ok(Plan::Change(bound_delete(alloc, delete, &names, &Ranges::Nothing)?))
}

/// The plan of a SELECT.
pub fn plan_of_select(
    alloc: Global,
    select: &Select,
    catalogue: &Catalogue,
) -> Result<Plan, AllocError>
    ensures { IfOk result (λ p. p
        ≡ plan.Query (bound_select (table_names catalogue.now) select.now)) }
{
    let names = table_names(catalogue);
    Ok(Plan::Query(bound_select(alloc, select, &names, &Ranges::Nothing)?))
}

/// The plan of a CREATE TRIGGER.
pub fn plan_of_trigger(
    alloc: Global,
    trigger: &TriggerDefinition,
    catalogue: &Catalogue,
) -> Result<Plan, AllocError>
    ensures { IfOk result (λ p. p
        ≡ plan.Schema (CreateTrigger (bound_trigger catalogue.now trigger.now))) }
{
    let bound = bound_trigger(alloc, trigger, catalogue, catalogue.triggers_ever())?;
    Ok(Plan::Schema(SchemaPlan::CreateTrigger(bound)))
}

/// The number of the trigger of that name; 0 if there is none.
#[tactic(auto, using(crate::proofs::Named::number_of))]
pub fn trigger_id(catalogue: &Catalogue, name: &str) -> TriggerId
    ensures { result ≡ trigger_id catalogue.now name.now }
{
    match catalogue.trigger_named(name) {
        Some(id) => id,
        None => TriggerId::new(0),
    }
}

fn constraint_id(catalogue: &Catalogue, name: &str) -> ConstraintId
    ensures { result ≡ constraint_id catalogue.now name.now }
{
    match catalogue.constraint_named(name) {
        Some(id) => id,
        None => ConstraintId::new(0),
    }
}

fn constraint_ids(
    alloc: Global,
    names: &[Name],
    catalogue: &Catalogue,
) -> Result<Items<ConstraintId>, AllocError>
    ensures { IfOk result (λ ids. ids ≡ map (constraint_id catalogue.now) names.now) }
{
    let mut ids = Items::new(alloc);
    for name in names {
        ids.push(constraint_id(catalogue, name.as_str()))?;
    }
    Ok(ids)
}

fn bound_constraints(
    alloc: Global,
    constraints: &ConstraintList,
    catalogue: &Catalogue,
) -> Result<ConstraintSet, AllocError>
    ensures { IfOk result (λ s. s ≡ bound_constraints catalogue.now constraints.now) }
{
    match constraints {
        ConstraintList::All => Ok(ConstraintSet::All),
        ConstraintList::Named(names) => {
            Ok(ConstraintSet::Named(constraint_ids(alloc, names.as_slice(), catalogue)?))
        }
    }
}

/// The plan of a SET CONSTRAINTS.
pub fn plan_of_constraints(
    alloc: Global,
    constraints: &ConstraintList,
    mode: ConstraintMode,
    catalogue: &Catalogue,
) -> Result<Plan, AllocError>
    ensures { IfOk result (λ p. p
        ≡ plan.Transaction (SetConstraints
        (bound_constraints catalogue.now constraints.now) mode)) }
{
    let set = bound_constraints(alloc, constraints, catalogue)?;
    Ok(Plan::Transaction(TransactionPlan::SetConstraints(set, mode)))
}
