//! CREATE TRIGGER.
ghost use Rattle.std.specs.Prelude.{◌≡◌, ◌&&◌, ◌==◌, length, not};
ghost use Rattle.std.specs.List.{list_all};
ghost use Rattle.iv_resolution.specs.Writable.{are_event_columns, is_action, is_name, is_trigger_definition};

use crate::names::{are_names, is_name};
use crate::statements::{is_delete, is_insert, is_update};
use crate::terms::{is_expression, is_filter};
use iv_syntax::{Name, Referencing, TriggerAction, TriggerDefinition, TriggerEvent};

fn is_action(action: &TriggerAction) -> bool
    ensures { result ≡ is_action action.now }
{
    match action {
        TriggerAction::Insert(insert) => is_insert(insert),
        TriggerAction::Update(update) => is_update(update),
        TriggerAction::Delete(delete) => is_delete(delete),
        TriggerAction::Signal(_) => true,
        TriggerAction::Set(variable, column, value) => {
            is_name(variable.as_str()) && (is_name(column.as_str()) && is_expression(value))
        }
    }
}

fn are_actions(body: &[TriggerAction]) -> bool
    ensures { result ≡ list_all is_action body.now }
{
    body.iter().all(|action| is_action(action))
}

// Only UPDATE has a list of columns.
fn are_event_columns(event: TriggerEvent, columns: &[Name]) -> bool
    ensures { result ≡ are_event_columns event columns.now }
{
    match event {
        TriggerEvent::Update => are_names(columns),
        TriggerEvent::Insert => columns.len() == 0,
        TriggerEvent::Delete => columns.len() == 0,
    }
}

fn are_items(items: &[Referencing]) -> bool
    ensures { result ≡ list_all (λ i. is_name i.name) items.now }
{
    items.iter().all(|item| is_name(item.name.as_str()))
}

fn is_body(body: &[TriggerAction]) -> bool
    ensures { result ≡ (not (length body.now == 0) && list_all is_action body.now) }
{
    body.len() != 0 && are_actions(body)
}

/// Whether a CREATE TRIGGER can be written.
pub fn is_trigger_definition(trigger: &TriggerDefinition) -> bool
    ensures { result ≡ is_trigger_definition trigger.now }
{
    is_name(trigger.name.as_str())
        && (is_name(trigger.table.as_str())
            && (are_event_columns(trigger.event, trigger.columns.as_slice())
                && (are_items(trigger.referencing.as_slice())
                    && (is_filter(&trigger.when) && is_body(trigger.body.as_slice())))))
}
