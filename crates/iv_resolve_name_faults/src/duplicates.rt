//! The first new name of a statement that is in use or comes twice, or the first column that comes twice in a list. No
//! call can fail for lack of memory.
ghost use Rattle.std.specs.Prelude.{◌≡◌, ◌+◌, None, map, option_map};
ghost use Rattle.std.specs.Option.{option_copied};
ghost use Rattle.iv_catalogue.specs.Catalogues.{has_table, has_trigger};
ghost use Rattle.iv_resolution.specs.Constraints.{table_constraint};
ghost use Rattle.iv_resolution.specs.Tables.{altered_at};
ghost use Rattle.iv_resolution.specs.Items.{column_item, first_of, in_use_fault, table_item, told_if, trigger_item, twice_fault};
ghost use Rattle.iv_resolution.specs.NameFaults.{addition_in_use, column_twice, column_twice_listed, duplicate_in_action, duplicate_in_alteration};
ghost use Rattle.iv_resolution.specs.NameFaults.{duplicate_in_insert, duplicate_in_rule, duplicate_in_table, duplicate_in_trigger, duplicate_in_update};
ghost use Rattle.iv_resolution.specs.NameFaults.{told_of_altered, transition_twice};
ghost use Rattle.iv_resolve_name_faults.specs.Seen.{fault_seen};

use crate::again::name_again;
use crate::catalogued::{has_table, has_trigger};
use crate::columns_again::column_again;
use crate::constraints_again::{constraint_in_use, duplicate_in_constraints};
use crate::item::{NameFault, NamedItem, first_fault};
use crate::lists::{column_twice, column_twice_listed, duplicate_in_rule};
use iv_catalogue::{Catalogue, Table};
use iv_resolve_scope::table_place;
use iv_resolve_tables::{count_stored, table_constraint};
use iv_syntax::{
    Assignment, Insert, Name, Referencing, TableConstraint, TableElement, TriggerAction,
    TriggerDefinition, Update,
};
use std::alloc::Global;

// ---- INSERT and UPDATE

/// The first column that comes twice in the list of an INSERT.
pub fn duplicate_in_insert<'t>(alloc: Global, insert: &'t Insert) -> Option<NameFault<'t>>
    ensures { option_map fault_seen result ≡ duplicate_in_insert insert.entry.now }
{
    match insert {
        Insert::DefaultValues(_) => None,
        Insert::Rows { columns, .. } => column_twice_listed(alloc, columns),
    }
}

fn assigned_twice<'t>(alloc: Global, assignments: &'t [Assignment]) -> Option<NameFault<'t>>
    ensures { option_map fault_seen result
        ≡ column_twice (map (λ a. a.column) assignments.entry.now) }
{
    match name_again(alloc, assignments) {
        Some(name) => Some(NameFault::Twice(NamedItem::Column(None, name))),
        None => None,
    }
}

/// The first column that an UPDATE sets twice.
pub fn duplicate_in_update<'t>(alloc: Global, update: &'t Update) -> Option<NameFault<'t>>
    ensures { option_map fault_seen result ≡ duplicate_in_update update.entry.now }
{
    assigned_twice(alloc, update.assignments.as_slice())
}

// ---- CREATE TRIGGER

fn duplicate_in_action<'t>(alloc: Global, action: &'t TriggerAction) -> Option<NameFault<'t>>
    ensures { option_map fault_seen result ≡ duplicate_in_action action.entry.now }
{
    match action {
        TriggerAction::Insert(insert) => duplicate_in_insert(alloc, insert),
        TriggerAction::Update(update) => duplicate_in_update(alloc, update),
        TriggerAction::Delete(_) => None,
        TriggerAction::Signal(_) => None,
        TriggerAction::Set(_, _, _) => None,
    }
}

fn duplicate_in_body<'t>(alloc: Global, body: &'t [TriggerAction]) -> Option<NameFault<'t>>
    ensures { option_map fault_seen result ≡ first_of duplicate_in_action body.entry.now }
{
    for action in body {
        if let Some(fault) = duplicate_in_action(alloc, action) {
            return Some(fault);
        }
    }
    None
}

fn transition_twice<'t>(alloc: Global, items: &'t [Referencing]) -> Option<NameFault<'t>>
    ensures { option_map fault_seen result
        ≡ transition_twice (map (λ i. i.name) items.entry.now) }
{
    match name_again(alloc, items) {
        Some(name) => Some(NameFault::Twice(NamedItem::Transition(name))),
        None => None,
    }
}

fn trigger_in_use<'t>(catalogue: &Catalogue, name: &'t Name) -> Option<NameFault<'t>>
    ensures { option_map fault_seen result ≡ told_if (has_trigger catalogue.now name.entry.now)
        (in_use_fault (trigger_item name.entry.now)) }
{
    if has_trigger(catalogue, name.as_str()) {
        Some(NameFault::InUse(NamedItem::Trigger(name.as_str())))
    } else {
        None
    }
}

/// The first name of a CREATE TRIGGER that is in use or comes twice.
pub fn duplicate_in_trigger<'t>(
    alloc: Global,
    trigger: &'t TriggerDefinition,
    catalogue: &Catalogue,
) -> Option<NameFault<'t>>
    ensures { option_map fault_seen result
        ≡ duplicate_in_trigger catalogue.now trigger.entry.now }
{
    let body = duplicate_in_body(alloc, trigger.body.as_slice());
    let after_columns = first_fault(
        transition_twice(alloc, trigger.referencing.as_slice()),
        body,
    );
    let after_name = first_fault(
        column_twice(alloc, trigger.columns.as_slice()),
        after_columns,
    );
    first_fault(trigger_in_use(catalogue, &trigger.name), after_name)
}

// ---- CREATE TABLE and ALTER TABLE

fn table_in_use<'t>(catalogue: &Catalogue, name: &'t str) -> Option<NameFault<'t>>
    ensures { option_map fault_seen result ≡ told_if (has_table catalogue.now name.entry.now)
        (in_use_fault (table_item name.entry.now)) }
{
    if has_table(catalogue, name) {
        Some(NameFault::InUse(NamedItem::Table(name)))
    } else {
        None
    }
}

fn column_fault<'t>(column: Option<&'t str>) -> Option<NameFault<'t>>
    ensures { option_map fault_seen result
        ≡ option_map (λ n. twice_fault (column_item None n)) (option_copied column.entry) }
{
    match column {
        Some(name) => Some(NameFault::Twice(NamedItem::Column(None, name))),
        None => None,
    }
}

/// The first name in the text of a CREATE TABLE that is in use or comes twice.
pub fn duplicate_in_table<'t>(
    alloc: Global,
    name: &'t str,
    elements: &'t [TableElement],
    catalogue: &Catalogue,
) -> Option<NameFault<'t>>
    ensures { option_map fault_seen result
        ≡ duplicate_in_table catalogue.now name.entry.now elements.entry.now }
{
    let again = column_again(alloc, elements);
    let before = duplicate_in_constraints(alloc, catalogue, name, again.before);
    let after_name = first_fault(before, column_fault(again.name));
    first_fault(table_in_use(catalogue, name), after_name)
}

fn addition_in_use<'a>(
    alloc: Global,
    catalogue: &Catalogue,
    place: u32,
    table: &'a Table,
    constraint: &'a TableConstraint,
) -> Option<NameFault<'a>>
    ensures { option_map fault_seen result ≡ addition_in_use catalogue.now
        (altered_at catalogue.now place table.entry.now)
        (table_constraint constraint.entry.now) }
{
    let next = count_stored(catalogue, place) as u128 + 1;
    constraint_in_use(
        alloc,
        catalogue,
        table.name.as_str(),
        next,
        &constraint.name,
    )
}

fn duplicate_of_altered<'a>(
    alloc: Global,
    name: &str,
    constraint: &'a TableConstraint,
    catalogue: &'a Catalogue,
) -> Option<NameFault<'a>>
    ensures { option_map fault_seen result ≡ told_of_altered catalogue.entry.now name.now
        (λ own. addition_in_use catalogue.entry.now own (table_constraint constraint.entry.now)) }
{
    let tables = catalogue.tables();
    match table_place(tables, name) {
        Some(place) => match tables.get(place) {
            Some(found) => addition_in_use(alloc, catalogue, place as u32, found, constraint),
            None => None,
        },
        None => None,
    }
}

fn added_rule_is_duplicate<'t>(
    alloc: Global,
    constraint: &'t TableConstraint,
) -> Option<NameFault<'t>>
    ensures { option_map fault_seen result
        ≡ duplicate_in_rule (table_constraint constraint.entry.now).rule }
{
    let written = table_constraint(constraint);
    duplicate_in_rule(alloc, &written.rule)
}

/// The name of the constraint that an ALTER TABLE adds if it is in use, or the first column that comes twice in its
/// key.
pub fn duplicate_in_alteration<'a>(
    alloc: Global,
    name: &str,
    constraint: &'a TableConstraint,
    catalogue: &'a Catalogue,
) -> Option<NameFault<'a>>
    ensures { option_map fault_seen result
        ≡ duplicate_in_alteration catalogue.entry.now name.now constraint.entry.now }
{
    let rule = added_rule_is_duplicate(alloc, constraint);
    first_fault(
        duplicate_of_altered(alloc, name, constraint, catalogue),
        rule,
    )
}
