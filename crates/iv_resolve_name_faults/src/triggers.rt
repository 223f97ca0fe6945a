//! The first name of a CREATE TRIGGER that names nothing.
ghost use Rattle.std.specs.Prelude.{◌≡◌, ◌≤◌, Some, is_none, length, not, option_map};
ghost use Rattle.iv_resolution.specs.Scopes.{has_column};
ghost use Rattle.iv_resolution.specs.Triggers.{row_variables, subject_of, variable_named};
ghost use Rattle.iv_resolve_scope.specs.Seen.{columns_seen, items_seen, names_seen, ranges_seen};
ghost use Rattle.iv_resolution.specs.Items.{column_item, first_of, told_if, variable_item};
ghost use Rattle.iv_resolution.specs.NameFaults.{unknown_in_action, unknown_in_columns, unknown_in_set, unknown_in_trigger};
ghost use Rattle.iv_resolve_name_faults.specs.Seen.{item_seen};

use crate::changes::{unknown_in_delete, unknown_in_insert, unknown_in_target, unknown_in_update};
use crate::item::{NamedItem, first_item};
use crate::terms::{unknown_in_columns, unknown_in_expression, unknown_in_filter};
use iv_catalogue::{Catalogue, MOST_TABLES};
use iv_resolve_scope::{Names, Ranges, ReferencingIndex, ReferencingItems};
use iv_resolve_statements::{names_among, subject, variable_named, variables};
use iv_syntax::{TriggerAction, TriggerDefinition};
use std::alloc::Global;

fn unknown_variable<'t>(names: &Names<'_>, variable: &'t str) -> Option<NamedItem<'t>>
    ensures { option_map item_seen result ≡ told_if
        (is_none (variable_named
        (row_variables (columns_seen names.now.subject) (items_seen names.now.referencing))
        variable.entry.now))
        (variable_item variable.entry.now) }
{
    match variable_named(names, variable) {
        Some(_) => None,
        None => Some(NamedItem::RowVariable(variable)),
    }
}

fn unknown_in_variable<'t>(
    names: &Names<'_>,
    variable: &'t str,
    column: &'t str,
) -> Option<NamedItem<'t>>
    ensures { option_map item_seen result ≡ told_if
        (not (has_column (columns_seen names.now.subject) column.entry.now))
        (column_item (Some variable.entry.now) column.entry.now) }
{
    if names.subject.has(column) {
        None
    } else {
        Some(NamedItem::Column(Some(variable), column))
    }
}

#[tactic(auto, unfolding(iv_resolution::specs::NameFaults::unknown_in_set))]
fn unknown_in_set<'t>(
    names: &Names<'_>,
    variable: &'t str,
    column: &'t str,
) -> Option<NamedItem<'t>>
    ensures { option_map item_seen result ≡ unknown_in_set (names_seen names.now)
        (row_variables (columns_seen names.now.subject) (items_seen names.now.referencing))
        variable.entry.now column.entry.now }
{
    let unknown = unknown_variable(names, variable);
    first_item(unknown, unknown_in_variable(names, variable, column))
}

#[tactic(auto, unfolding(iv_resolution::specs::NameFaults::unknown_in_action))]
fn unknown_in_action<'t, 'a>(
    action: &'t TriggerAction,
    names: &'a Names<'a>,
    ranges: &'a Ranges<'a>,
) -> Option<NamedItem<'t>>
    requires tables { length names.now.tables.now ≤ MOST_TABLES }
    requires variables { ranges_seen ranges.now
        ≡ row_variables (columns_seen names.now.subject) (items_seen names.now.referencing) }
    ensures { option_map item_seen result ≡ unknown_in_action (names_seen names.now)
        (ranges_seen ranges.now) action.entry.now }
{
    match action {
        TriggerAction::Insert(insert) => unknown_in_insert(insert, names, ranges),
        TriggerAction::Update(update) => unknown_in_update(update, names, ranges),
        TriggerAction::Delete(delete) => unknown_in_delete(delete, names, ranges),
        TriggerAction::Signal(_) => None,
        TriggerAction::Set(variable, column, value) => {
            let set = unknown_in_set(names, variable.as_str(), column.as_str());
            first_item(set, unknown_in_expression(value, ranges))
        }
    }
}

fn unknown_in_body<'t, 'a>(
    body: &'t [TriggerAction],
    names: &'a Names<'a>,
    ranges: &'a Ranges<'a>,
) -> Option<NamedItem<'t>>
    requires tables { length names.now.tables.now ≤ MOST_TABLES }
    requires variables { ranges_seen ranges.now
        ≡ row_variables (columns_seen names.now.subject) (items_seen names.now.referencing) }
    ensures { option_map item_seen result ≡ first_of
        (unknown_in_action (names_seen names.now) (ranges_seen ranges.now)) body.entry.now }
{
    for action in body {
        if let Some(item) = unknown_in_action(action, names, ranges) {
            return Some(item);
        }
    }
    None
}

// The first column of UPDATE OF that is none of the trigger's table.
fn unknown_in_update_of<'t>(
    trigger: &'t TriggerDefinition,
    catalogue: &Catalogue,
) -> Option<NamedItem<'t>>
    ensures { option_map item_seen result ≡ unknown_in_columns
        (subject_of catalogue.now trigger.entry.now) trigger.entry.now.columns }
{
    unknown_in_columns(&subject(trigger, catalogue), trigger.columns.as_slice())
}

// The first name of the trigger that names nothing, with the items of REFERENCING in an index or without one.
fn unknown_among<'t, 'a>(
    trigger: &'t TriggerDefinition,
    catalogue: &'a Catalogue,
    items: ReferencingItems<'a>,
) -> Option<NamedItem<'t>>
    requires { items_seen items ≡ trigger.now.referencing }
    ensures { option_map item_seen result
        ≡ unknown_in_trigger catalogue.now trigger.entry.now }
{
    let names = names_among(trigger, catalogue, items);
    let ranges = variables(&names);
    let body = unknown_in_body(trigger.body.as_slice(), &names, &ranges);
    let after_columns = first_item(unknown_in_filter(&trigger.when, &names, &ranges), body);
    let after_table = first_item(unknown_in_update_of(trigger, catalogue), after_columns);
    first_item(
        unknown_in_target(&names, trigger.table.as_str()),
        after_table,
    )
}

/// The first name of a CREATE TRIGGER that names nothing. The items of REFERENCING are found by an index; if it can't
/// be allocated, one after another.
pub fn unknown_in_trigger<'t>(
    alloc: Global,
    trigger: &'t TriggerDefinition,
    catalogue: &Catalogue,
) -> Option<NamedItem<'t>>
    ensures { option_map item_seen result
        ≡ unknown_in_trigger catalogue.now trigger.entry.now }
{
    let items = trigger.referencing.as_slice();
    match ReferencingIndex::new(alloc, items) {
        Ok(index) => unknown_among(trigger, catalogue, ReferencingItems::Indexed(&index)),
        Err(_) => unknown_among(trigger, catalogue, ReferencingItems::Listed(items)),
    }
}
