//! The first name of a statement that names nothing.
ghost use Rattle.std.specs.Prelude.{◌≡◌, [], not, option_map};
ghost use Rattle.iv_catalogue.specs.Catalogues.{has_constraint, has_trigger};
ghost use Rattle.iv_resolution.specs.Tables.{table_names};
ghost use Rattle.iv_resolution.specs.Items.{constraint_item, first_of, told_if, trigger_item};
ghost use Rattle.iv_resolution.specs.NameFaults.{unknown_in_constraints, unknown_in_delete, unknown_in_insert, unknown_in_select};
ghost use Rattle.iv_resolution.specs.NameFaults.{unknown_in_update, unknown_name};
ghost use Rattle.iv_resolve_name_faults.specs.Seen.{item_seen};

use crate::catalogued::{has_constraint, has_trigger};
use crate::changes::{unknown_in_delete, unknown_in_insert, unknown_in_select, unknown_in_update};
use crate::item::NamedItem;
use crate::tables::{unknown_in_alteration, unknown_in_table};
use crate::triggers::unknown_in_trigger;
use iv_catalogue::Catalogue;
use iv_resolve_scope::{Ranges, table_names};
use iv_syntax::{ConstraintList, Delete, Insert, Name, Select, Statement, Update};
use std::alloc::Global;

fn of_insert<'t>(insert: &'t Insert, catalogue: &Catalogue) -> Option<NamedItem<'t>>
    ensures { option_map item_seen result
        ≡ unknown_in_insert (table_names catalogue.now) [] insert.entry.now }
{
    let names = table_names(catalogue);
    unknown_in_insert(insert, &names, &Ranges::Nothing)
}

fn of_update<'t>(update: &'t Update, catalogue: &Catalogue) -> Option<NamedItem<'t>>
    ensures { option_map item_seen result
        ≡ unknown_in_update (table_names catalogue.now) [] update.entry.now }
{
    let names = table_names(catalogue);
    unknown_in_update(update, &names, &Ranges::Nothing)
}

fn of_delete<'t>(delete: &'t Delete, catalogue: &Catalogue) -> Option<NamedItem<'t>>
    ensures { option_map item_seen result
        ≡ unknown_in_delete (table_names catalogue.now) [] delete.entry.now }
{
    let names = table_names(catalogue);
    unknown_in_delete(delete, &names, &Ranges::Nothing)
}

fn of_select<'t>(select: &'t Select, catalogue: &Catalogue) -> Option<NamedItem<'t>>
    ensures { option_map item_seen result
        ≡ unknown_in_select (table_names catalogue.now) [] select.entry.now }
{
    let names = table_names(catalogue);
    unknown_in_select(select, &names, &Ranges::Nothing)
}

fn first_no_constraint<'t>(names: &'t [Name], catalogue: &Catalogue) -> Option<NamedItem<'t>>
    ensures { option_map item_seen result ≡ first_of
        (λ n. told_if (not (has_constraint catalogue.now n)) (constraint_item n))
        names.entry.now }
{
    for name in names {
        if !has_constraint(catalogue, name.as_str()) {
            return Some(NamedItem::Constraint(name.as_str()));
        }
    }
    None
}

fn of_constraints<'t>(
    constraints: &'t ConstraintList,
    catalogue: &Catalogue,
) -> Option<NamedItem<'t>>
    ensures { option_map item_seen result
        ≡ unknown_in_constraints catalogue.now constraints.entry.now }
{
    match constraints {
        ConstraintList::All => None,
        ConstraintList::Named(names) => first_no_constraint(names.as_slice(), catalogue),
    }
}

fn of_dropped<'t>(name: &'t Name, catalogue: &Catalogue) -> Option<NamedItem<'t>>
    ensures { option_map item_seen result ≡ told_if
        (not (has_trigger catalogue.now name.entry.now)) (trigger_item name.entry.now) }
{
    if has_trigger(catalogue, name.as_str()) {
        None
    } else {
        Some(NamedItem::Trigger(name.as_str()))
    }
}

/// The first name of the statement that names nothing. If an index can't be allocated, names are looked for in place,
/// so the call can't fail for lack of memory.
pub fn unknown_name<'a>(
    alloc: Global,
    catalogue: &Catalogue,
    statement: &'a Statement,
) -> Option<NamedItem<'a>>
    ensures { option_map item_seen result ≡ unknown_name catalogue.now statement.entry.now }
{
    match statement {
        Statement::CreateTable { name, elements } => {
            unknown_in_table(alloc, catalogue, name.as_str(), elements.as_slice())
        }
        Statement::AlterTable { table, constraint } => {
            unknown_in_alteration(catalogue, table.as_str(), constraint)
        }
        Statement::CreateTrigger(trigger) => unknown_in_trigger(alloc, trigger, catalogue),
        Statement::DropTrigger(name) => of_dropped(name, catalogue),
        Statement::Insert(insert) => of_insert(insert, catalogue),
        Statement::Update(update) => of_update(update, catalogue),
        Statement::Delete(delete) => of_delete(delete, catalogue),
        Statement::Select(select) => of_select(select, catalogue),
        Statement::SetConstraints(constraints, _) => of_constraints(constraints, catalogue),
        _ => None,
    }
}
