//! Values in a CREATE TRIGGER that don't suit their columns.
ghost use Rattle.std.specs.Prelude.{◌≡◌, ◌≤◌, length};
ghost use Rattle.std.specs.List.{list_any};
ghost use Rattle.iv_resolution.specs.Triggers.{misshaped_action, misshaped_trigger};
ghost use Rattle.iv_resolve_scope.specs.Seen.{names_seen, ranges_seen};

use crate::misshaped::{misshaped_delete, misshaped_insert, misshaped_update};
use crate::names::{trigger_names, variables};
use iv_catalogue::{Catalogue, MOST_TABLES};
use iv_resolve_scope::{Names, Ranges, clashes_with, misshaped_expression, misshaped_filter};
use iv_syntax::{TriggerAction, TriggerDefinition};

#[tactic(auto, unfolding(iv_resolution::specs::Triggers::misshaped_action))]
fn misshaped_action<'a>(
    action: &'a TriggerAction,
    names: &'a Names<'a>,
    ranges: &'a Ranges<'a>,
) -> bool
    requires { length names.now.tables.now ≤ MOST_TABLES }
    ensures { result ≡ misshaped_action (names_seen names.now) (ranges_seen ranges.now) action.now }
{
    match action {
        TriggerAction::Insert(insert) => misshaped_insert(insert, names, ranges),
        TriggerAction::Update(update) => misshaped_update(update, names, ranges),
        TriggerAction::Delete(delete) => misshaped_delete(delete, names, ranges),
        TriggerAction::Signal(_) => false,
        TriggerAction::Set(_, column, value) => {
            clashes_with(names.subject.type_named(column.as_str()), value, ranges)
                | misshaped_expression(value, ranges)
        }
    }
}

fn misshaped_body<'a>(
    body: &'a [TriggerAction],
    names: &'a Names<'a>,
    ranges: &'a Ranges<'a>,
) -> bool
    requires { length names.now.tables.now ≤ MOST_TABLES }
    ensures { result ≡ list_any
        (misshaped_action (names_seen names.now) (ranges_seen ranges.now)) body.now }
{
    body.iter()
        .any(|action| misshaped_action(action, names, ranges))
}

/// Whether a value of a CREATE TRIGGER doesn't suit its column.
pub fn misshaped_trigger<'a>(trigger: &'a TriggerDefinition, catalogue: &'a Catalogue) -> bool
    ensures { result ≡ misshaped_trigger catalogue.now trigger.now }
{
    let names = trigger_names(trigger, catalogue);
    let ranges = variables(&names);
    misshaped_filter(&trigger.when, &names, &ranges)
        || misshaped_body(trigger.body.as_slice(), &names, &ranges)
}
