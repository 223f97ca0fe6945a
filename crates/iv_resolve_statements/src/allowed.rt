//! What the time, event and granularity of a trigger allow.
ghost use Rattle.std.specs.Prelude.{◌≡◌, ◌&&◌, not, true, false};
ghost use Rattle.std.specs.List.{list_any};
ghost use Rattle.iv_resolution.specs.Triggers.{faulty_trigger, for_each_row, has_side, is_allowed_action, is_allowed_item, is_before, is_old, is_side};
ghost use Rattle.iv_resolution.specs.Triggers.{item_twice, items_of, names_row, row_variables, sets_old, some_item_twice};
ghost use Rattle.iv_resolve_scope.specs.Seen.{columns_seen, items_seen};

use crate::names::{trigger_names, variable_named};
use iv_catalogue::Catalogue;
use iv_expr::Side;
use iv_resolution::Origin;
use iv_resolve_scope::Names;
use iv_syntax::{
    ActionTime, Granularity, Referencing, TransitionName, TriggerAction, TriggerDefinition,
    TriggerEvent,
};

fn is_before(trigger: &TriggerDefinition) -> bool
    ensures { result ≡ is_before trigger.now }
{
    matches!(trigger.time, ActionTime::Before)
}

fn for_each_row(trigger: &TriggerDefinition) -> bool
    ensures { result ≡ for_each_row trigger.now }
{
    matches!(trigger.granularity, Granularity::Row)
}

fn has_side(event: TriggerEvent, side: Side) -> bool
    ensures { result ≡ has_side event side }
{
    match event {
        TriggerEvent::Insert => matches!(side, Side::New),
        TriggerEvent::Update => true,
        TriggerEvent::Delete => matches!(side, Side::Old),
    }
}

fn is_side(side: Side, other: Side) -> bool
    ensures { result ≡ is_side side other }
{
    side == other
}

#[tactic(auto, unfolding(iv_resolution::specs::Triggers::is_allowed_item))]
fn is_allowed_item(trigger: &TriggerDefinition, item: &Referencing) -> bool
    ensures { result ≡ is_allowed_item trigger.now item.now }
{
    has_side(trigger.event, item.side)
        && match item.what {
            TransitionName::Row => for_each_row(trigger),
            TransitionName::Table => !is_before(trigger),
        }
}

fn has_forbidden_item(trigger: &TriggerDefinition, items: &[Referencing]) -> bool
    ensures { result ≡ list_any (λ i. not (is_allowed_item trigger.now i)) items.now }
{
    items.iter().any(|item| !is_allowed_item(trigger, item))
}

fn is_item(item: &Referencing, side: Side, row: bool) -> bool
    ensures { result ≡ (is_side side item.now.side && elim row [
      | true ↦ names_row item.now
      | false ↦ not (names_row item.now)
    ]) }
{
    is_side(side, item.side)
        && match item.what {
            TransitionName::Row => row,
            TransitionName::Table => !row,
        }
}

fn item_twice(items: &[Referencing], side: Side, row: bool) -> bool
    ensures { result ≡ item_twice items.now side row }
{
    let mut count = 0usize;
    for item in items {
        if is_item(item, side, row) {
            count += 1;
        }
    }
    count > 1
}

fn some_item_twice(items: &[Referencing]) -> bool
    ensures { result ≡ some_item_twice items.now }
{
    (item_twice(items, Side::Old, true) || item_twice(items, Side::New, true))
        || (item_twice(items, Side::Old, false) || item_twice(items, Side::New, false))
}

#[tactic(auto, unfolding(iv_resolution::specs::Triggers::is_allowed_action))]
fn is_allowed_action(trigger: &TriggerDefinition, action: &TriggerAction) -> bool
    ensures { result ≡ is_allowed_action trigger.now action.now }
{
    match action {
        TriggerAction::Signal(_) => true,
        TriggerAction::Set(_, _, _) => is_before(trigger) && for_each_row(trigger),
        TriggerAction::Insert(_) => !is_before(trigger),
        TriggerAction::Update(_) => !is_before(trigger),
        TriggerAction::Delete(_) => !is_before(trigger),
    }
}

fn has_forbidden_action(trigger: &TriggerDefinition, body: &[TriggerAction]) -> bool
    ensures { result ≡ list_any (λ a. not (is_allowed_action trigger.now a)) body.now }
{
    body.iter()
        .any(|action| !is_allowed_action(trigger, action))
}

fn is_old(origin: Origin) -> bool
    ensures { result ≡ is_old origin }
{
    match origin {
        Origin::Rows => false,
        Origin::Variable(side) => is_side(Side::Old, side),
    }
}

#[tactic(auto, unfolding(iv_resolution::specs::Triggers::sets_old))]
fn sets_old<'a>(action: &'a TriggerAction, names: &'a Names<'a>) -> bool
    ensures { result ≡ sets_old
        (row_variables (columns_seen names.now.subject) (items_seen names.now.referencing))
        action.now }
{
    match action {
        TriggerAction::Set(variable, _, _) => match variable_named(names, variable.as_str()) {
            Some(origin) => is_old(origin),
            None => false,
        },
        TriggerAction::Insert(_) => false,
        TriggerAction::Update(_) => false,
        TriggerAction::Delete(_) => false,
        TriggerAction::Signal(_) => false,
    }
}

fn some_sets_old<'a>(body: &'a [TriggerAction], names: &'a Names<'a>) -> bool
    ensures { result ≡ list_any
        (sets_old (row_variables (columns_seen names.now.subject)
        (items_seen names.now.referencing))) body.now }
{
    body.iter().any(|action| sets_old(action, names))
}

/// Whether the time, event and granularity of a trigger don't allow an item of REFERENCING or a statement of its body,
/// an item comes twice, or a SET is of the row variable OLD.
pub fn faulty_trigger<'a>(trigger: &'a TriggerDefinition, catalogue: &'a Catalogue) -> bool
    ensures { result ≡ faulty_trigger catalogue.now trigger.now }
{
    let names = trigger_names(trigger, catalogue);
    some_item_twice(trigger.referencing.as_slice())
        || (has_forbidden_item(trigger, trigger.referencing.as_slice())
            || (has_forbidden_action(trigger, trigger.body.as_slice())
                || some_sets_old(trigger.body.as_slice(), &names)))
}
