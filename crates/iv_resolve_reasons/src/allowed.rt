//! CREATE TRIGGER: the first that its time, event and granularity don't allow. Nothing here allocates; each function
//! takes time in proportion to the trigger.
ghost use Rattle.std.specs.Prelude.{◌≡◌, ◌&&◌, ◌≤◌, None, Some, length, not, true, false, option_map};
ghost use Rattle.std.specs.List.{enumerate_from};
ghost use Rattle.iv_resolution.specs.Items.{first_of, told_if};
ghost use Rattle.iv_resolution.specs.Scopes.{named_columns};
ghost use Rattle.iv_resolution.specs.Triggers.{for_each_row, has_side, is_before, is_old, is_side, item_twice, names_row, row_variables, variable_named};
ghost use Rattle.iv_resolve_scope.specs.Seen.{items_seen};
ghost use Rattle.iv_resolve_reasons.specs.SchemaFaults.{change_before, fault_in_trigger, fault_of_action, fault_of_item, fault_of_names, fault_of_set};
ghost use Rattle.iv_resolve_reasons.specs.SchemaFaults.{item_again, row_of_statement, set_after, set_of_old, set_of_statement, side_without_rows, table_before};
ghost use Rattle.iv_syntax.specs.declared.trigger.TransitionName.TheVariants.{Row, Table};
ghost use Rattle.iv_resolve_reasons.specs.Seen.{schema_fault_seen};

use crate::rule::{SchemaFault, first_rule};
use crate::scope::{Scope, scope_names, trigger_scope};
use iv_catalogue::Catalogue;
use iv_expr::Side;
use iv_resolution::Origin;
use iv_resolve_statements::variable_named;
use iv_syntax::{
    ActionTime, Granularity, Name, Referencing, TransitionName, TriggerAction, TriggerDefinition,
    TriggerEvent,
};

fn is_before(trigger: &TriggerDefinition) -> bool
    ensures { result ≡ is_before trigger.now }
{
    matches!(trigger.time, ActionTime::Before)
}

fn for_each_row(trigger: &TriggerDefinition) -> bool
    ensures { result ≡ for_each_row trigger.now }
{
    matches!(trigger.granularity, Granularity::Row)
}

fn has_side(event: TriggerEvent, side: Side) -> bool
    ensures { result ≡ has_side event side }
{
    match event {
        TriggerEvent::Insert => matches!(side, Side::New),
        TriggerEvent::Update => true,
        TriggerEvent::Delete => matches!(side, Side::Old),
    }
}

fn is_side(side: Side, other: Side) -> bool
    ensures { result ≡ is_side side other }
{
    side == other
}

// ---- REFERENCING

fn is_item(item: &Referencing, side: Side, row: bool) -> bool
    ensures { result ≡ (is_side side item.now.side && elim row [
      | true ↦ names_row item.now
      | false ↦ not (names_row item.now)
    ]) }
{
    is_side(side, item.side)
        && match item.what {
            TransitionName::Row => row,
            TransitionName::Table => !row,
        }
}

fn item_twice(items: &[Referencing], side: Side, row: bool) -> bool
    ensures { result ≡ item_twice items.now side row }
{
    let mut count = 0usize;
    for item in items {
        if is_item(item, side, row) {
            count += 1;
        }
    }
    count > 1
}

fn row_again<'t>(items: &[Referencing], side: Side) -> Option<SchemaFault<'t>>
    ensures { option_map schema_fault_seen result
        ≡ told_if (item_twice items.now side true) (item_again side Row) }
{
    if item_twice(items, side, true) {
        Some(SchemaFault::ItemAgain(side, TransitionName::Row))
    } else {
        None
    }
}

fn table_again<'t>(items: &[Referencing], side: Side) -> Option<SchemaFault<'t>>
    ensures { option_map schema_fault_seen result
        ≡ told_if (item_twice items.now side false) (item_again side Table) }
{
    if item_twice(items, side, false) {
        Some(SchemaFault::ItemAgain(side, TransitionName::Table))
    } else {
        None
    }
}

// The old or new row, or the old or new table, that is named twice.
fn fault_of_names<'t>(items: &[Referencing]) -> Option<SchemaFault<'t>>
    ensures { option_map schema_fault_seen result ≡ fault_of_names items.now }
{
    let rows = first_rule(row_again(items, Side::Old), row_again(items, Side::New));
    let tables = first_rule(table_again(items, Side::Old), table_again(items, Side::New));
    first_rule(rows, tables)
}

fn side_told<'t>(trigger: &TriggerDefinition, item: &'t Referencing) -> Option<SchemaFault<'t>>
    ensures { option_map schema_fault_seen result
        ≡ told_if (not (has_side trigger.now.event item.entry.now.side))
        (side_without_rows item.entry.now.name item.entry.now.side trigger.now.event) }
{
    if has_side(trigger.event, item.side) {
        return None;
    }
    Some(SchemaFault::SideWithoutRows(item.name.as_str(), item.side, trigger.event))
}

fn row_told<'t>(trigger: &TriggerDefinition, name: &'t Name) -> Option<SchemaFault<'t>>
    ensures { option_map schema_fault_seen result
        ≡ told_if (not (for_each_row trigger.now)) (row_of_statement name.entry.now) }
{
    if for_each_row(trigger) {
        return None;
    }
    Some(SchemaFault::RowOfStatement(name.as_str()))
}

fn table_told<'t>(trigger: &TriggerDefinition, name: &'t Name) -> Option<SchemaFault<'t>>
    ensures { option_map schema_fault_seen result
        ≡ told_if (is_before trigger.now) (table_before name.entry.now) }
{
    if is_before(trigger) {
        Some(SchemaFault::TableBefore(name.as_str()))
    } else {
        None
    }
}

#[tactic(auto, unfolding(crate::specs::SchemaFaults::fault_of_item))]
fn fault_of_item<'t>(trigger: &TriggerDefinition, item: &'t Referencing) -> Option<SchemaFault<'t>>
    ensures { option_map schema_fault_seen result ≡ fault_of_item trigger.now item.entry.now }
{
    let side = side_told(trigger, item);
    match item.what {
        TransitionName::Row => first_rule(side, row_told(trigger, &item.name)),
        TransitionName::Table => first_rule(side, table_told(trigger, &item.name)),
    }
}

fn fault_of_items<'t>(
    trigger: &TriggerDefinition,
    items: &'t [Referencing],
) -> Option<SchemaFault<'t>>
    ensures { option_map schema_fault_seen result
        ≡ first_of (fault_of_item trigger.now) items.entry.now }
{
    for item in items {
        if let Some(fault) = fault_of_item(trigger, item) {
            return Some(fault);
        }
    }
    None
}

// ---- the body

fn change_told<'t>(trigger: &TriggerDefinition, number: usize) -> Option<SchemaFault<'t>>
    ensures { option_map schema_fault_seen result
        ≡ told_if (is_before trigger.now) (change_before number) }
{
    if is_before(trigger) {
        Some(SchemaFault::ChangeBefore(number))
    } else {
        None
    }
}

fn set_after_told<'t>(trigger: &TriggerDefinition, number: usize) -> Option<SchemaFault<'t>>
    ensures { option_map schema_fault_seen result
        ≡ told_if (not (is_before trigger.now)) (set_after number) }
{
    if is_before(trigger) {
        return None;
    }
    Some(SchemaFault::SetAfter(number))
}

fn set_of_statement_told<'t>(trigger: &TriggerDefinition, number: usize) -> Option<SchemaFault<'t>>
    ensures { option_map schema_fault_seen result
        ≡ told_if (not (for_each_row trigger.now)) (set_of_statement number) }
{
    if for_each_row(trigger) {
        return None;
    }
    Some(SchemaFault::SetOfStatement(number))
}

#[tactic(auto, unfolding(crate::specs::SchemaFaults::fault_of_action))]
fn fault_of_action<'t>(
    trigger: &TriggerDefinition,
    number: usize,
    action: &'t TriggerAction,
) -> Option<SchemaFault<'t>>
    ensures { option_map schema_fault_seen result
        ≡ fault_of_action trigger.now number action.entry.now }
{
    match action {
        TriggerAction::Signal(_) => None,
        TriggerAction::Set(_, _, _) => {
            let after = set_after_told(trigger, number);
            first_rule(after, set_of_statement_told(trigger, number))
        }
        TriggerAction::Insert(_) => change_told(trigger, number),
        TriggerAction::Update(_) => change_told(trigger, number),
        TriggerAction::Delete(_) => change_told(trigger, number),
    }
}

#[tactic(auto, using(crate::proofs::Numbered::numbered_end))]
fn fault_of_actions<'t>(
    trigger: &TriggerDefinition,
    body: &'t [TriggerAction],
) -> Option<SchemaFault<'t>>
    ensures { option_map schema_fault_seen result ≡ first_of
        (λ p. fault_of_action trigger.now p.0 p.1) (enumerate_from 1 body.entry.now) }
{
    for at in 0..body.len() {
        let fault = fault_of_action(trigger, at + 1, &body[at]);
        if fault.is_some() {
            return fault;
        }
    }
    None
}

fn is_old(origin: Origin) -> bool
    ensures { result ≡ is_old origin }
{
    match origin {
        Origin::Rows => false,
        Origin::Variable(side) => is_side(Side::Old, side),
    }
}

fn set_told<'t>(
    scope: &Scope<'_>,
    number: usize,
    variable: &'t str,
    column: &'t str,
) -> Option<SchemaFault<'t>>
    ensures { option_map schema_fault_seen result ≡ elim (variable_named
        (row_variables (named_columns scope.now.subject.now) (items_seen scope.now.referencing))
        variable.entry.now) [
          | Some o ↦ told_if (is_old o) (set_of_old number variable.entry.now column.entry.now)
          | None ↦ None
        ] }
{
    let names = scope_names(scope);
    match variable_named(&names, variable) {
        Some(origin) => {
            if is_old(origin) {
                Some(SchemaFault::SetOfOld {
                    number,
                    variable,
                    column,
                })
            } else {
                None
            }
        }
        None => None,
    }
}

#[tactic(auto, unfolding(crate::specs::SchemaFaults::fault_of_set))]
fn fault_of_set<'t>(
    scope: &Scope<'_>,
    number: usize,
    action: &'t TriggerAction,
) -> Option<SchemaFault<'t>>
    ensures { option_map schema_fault_seen result ≡ fault_of_set
        (row_variables (named_columns scope.now.subject.now) (items_seen scope.now.referencing))
        number action.entry.now }
{
    match action {
        TriggerAction::Set(variable, column, _) => {
            set_told(scope, number, variable.as_str(), column.as_str())
        }
        TriggerAction::Insert(_) => None,
        TriggerAction::Update(_) => None,
        TriggerAction::Delete(_) => None,
        TriggerAction::Signal(_) => None,
    }
}

#[tactic(auto, using(crate::proofs::Numbered::numbered_end))]
fn fault_of_sets<'t>(scope: &Scope<'_>, body: &'t [TriggerAction]) -> Option<SchemaFault<'t>>
    ensures { option_map schema_fault_seen result ≡ first_of
        (λ p. fault_of_set (row_variables (named_columns scope.now.subject.now)
        (items_seen scope.now.referencing)) p.0 p.1) (enumerate_from 1 body.entry.now) }
{
    for at in 0..body.len() {
        let fault = fault_of_set(scope, at + 1, &body[at]);
        if fault.is_some() {
            return fault;
        }
    }
    None
}

/// The first rule that a CREATE TRIGGER breaks: an item of REFERENCING that comes twice or isn't allowed, a statement of
/// the body that isn't allowed, or a SET of the row variable OLD.
pub fn fault_in_trigger<'t>(
    trigger: &'t TriggerDefinition,
    catalogue: &Catalogue,
) -> Option<SchemaFault<'t>>
    ensures { option_map schema_fault_seen result
        ≡ fault_in_trigger catalogue.now trigger.entry.now }
{
    let scope = trigger_scope(trigger, catalogue);
    let body = trigger.body.as_slice();
    let items = trigger.referencing.as_slice();
    let sets = fault_of_sets(&scope, body);
    let after_items = first_rule(fault_of_actions(trigger, body), sets);
    let after_names = first_rule(fault_of_items(trigger, items), after_items);
    first_rule(fault_of_names(items), after_names)
}
