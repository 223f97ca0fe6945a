//! CREATE TRIGGER: the first in its WHEN and its body that doesn't suit.
ghost use Rattle.std.specs.Prelude.{◌≡◌, ◌≤◌, length, option_map};
ghost use Rattle.iv_resolution.specs.Items.{first_of};
ghost use Rattle.iv_resolution.specs.Scopes.{named_columns, type_named};
ghost use Rattle.iv_resolve_scope.specs.Seen.{ranges_seen};
ghost use Rattle.iv_resolve_reasons.specs.Seen.{scope_seen, shape_seen};
ghost use Rattle.iv_resolve_reasons.specs.Shapes.{set_told, shape_in_action, shape_in_set, shape_in_trigger};

use crate::changes::{shape_in_delete, shape_in_insert, shape_in_update};
use crate::scope::{Scope, scope_names, scope_variables, trigger_scope};
use crate::shape::{ShapeFault, first_shape};
use crate::terms::{shape_in_expression, shape_in_filter};
use iv_catalogue::{Catalogue, MOST_TABLES};
use iv_resolve_scope::{Columns, Ranges, clashes_with};
use iv_syntax::{ColumnType, Expression, TriggerAction, TriggerDefinition};

fn set_told<'t, 'a>(
    variable: &'t str,
    column: &'t str,
    kind: Option<ColumnType>,
    value: &'t Expression,
    ranges: &'a Ranges<'a>,
) -> Option<ShapeFault<'t>>
    ensures { option_map shape_seen result ≡ set_told variable.entry.now column.entry.now kind
        (ranges_seen ranges.now) value.entry.now }
{
    match kind {
        Some(kind) => {
            if clashes_with(Some(kind), value, ranges) {
                Some(ShapeFault::Set {
                    variable,
                    column,
                    kind,
                    value,
                })
            } else {
                None
            }
        }
        None => None,
    }
}

#[tactic(auto, unfolding(crate::specs::Shapes::shape_in_set))]
fn shape_in_set<'t, 'a>(
    variable: &'t str,
    column: &'t str,
    value: &'t Expression,
    scope: &Scope<'t>,
    ranges: &'a Ranges<'a>,
) -> Option<ShapeFault<'t>>
    ensures { option_map shape_seen result ≡ shape_in_set (scope_seen scope.now)
        (ranges_seen ranges.now) variable.entry.now column.entry.now value.entry.now }
{
    let kind = Columns::Stored(scope.subject).type_named(column);
    let told = set_told(variable, column, kind, value, ranges);
    first_shape(told, shape_in_expression(value, ranges))
}

#[tactic(auto, unfolding(crate::specs::Shapes::shape_in_action))]
fn shape_in_action<'t, 'a>(
    action: &'t TriggerAction,
    scope: &Scope<'t>,
    ranges: &'a Ranges<'a>,
) -> Option<ShapeFault<'t>>
    requires { length scope.now.tables.now ≤ MOST_TABLES }
    ensures { option_map shape_seen result ≡ shape_in_action (scope_seen scope.now)
        (ranges_seen ranges.now) action.entry.now }
{
    match action {
        TriggerAction::Insert(insert) => shape_in_insert(insert, scope, ranges),
        TriggerAction::Update(update) => shape_in_update(update, scope, ranges),
        TriggerAction::Delete(delete) => shape_in_delete(delete, scope, ranges),
        TriggerAction::Signal(_) => None,
        TriggerAction::Set(variable, column, value) => {
            shape_in_set(variable.as_str(), column.as_str(), value, scope, ranges)
        }
    }
}

fn shape_in_body<'t, 'a>(
    body: &'t [TriggerAction],
    scope: &Scope<'t>,
    ranges: &'a Ranges<'a>,
) -> Option<ShapeFault<'t>>
    requires { length scope.now.tables.now ≤ MOST_TABLES }
    ensures { option_map shape_seen result ≡ first_of
        (shape_in_action (scope_seen scope.now) (ranges_seen ranges.now)) body.entry.now }
{
    for action in body {
        if let Some(fault) = shape_in_action(action, scope, ranges) {
            return Some(fault);
        }
    }
    None
}

/// The first in a CREATE TRIGGER that doesn't suit. Each name is looked for among all items of REFERENCING, at most four
/// if none comes twice.
pub fn shape_in_trigger<'t>(
    trigger: &'t TriggerDefinition,
    catalogue: &'t Catalogue,
) -> Option<ShapeFault<'t>>
    ensures { option_map shape_seen result
        ≡ shape_in_trigger catalogue.entry.now trigger.entry.now }
{
    let scope = trigger_scope(trigger, catalogue);
    let names = scope_names(&scope);
    let ranges = scope_variables(&scope);
    let when = shape_in_filter(&trigger.when, &names, &ranges);
    let body = shape_in_body(trigger.body.as_slice(), &scope, &ranges);
    first_shape(when, body)
}
