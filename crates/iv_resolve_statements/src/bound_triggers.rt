//! The plan of a CREATE TRIGGER.
ghost use Rattle.std.specs.Prelude.{◌≡◌, ◌≤◌, IfOk, Ok, length, map};
ghost use Rattle.iv_resolution.specs.Bound.{bound_action, bound_trigger, table_id};
ghost use Rattle.iv_resolution.specs.Tables.{table_names};
ghost use Rattle.iv_resolve_scope.specs.Seen.{names_seen, ranges_seen};

use crate::binding::{bound_delete, bound_insert, bound_update};
use crate::names::{subject, trigger_names, variables};
use iv_catalogue::{BodyStatement, Catalogue, MOST_TABLES, Setting, Trigger, TriggerId};
use iv_expr::TableId;
use iv_resolve_scope::{Names, Ranges, bound_expression, bound_filter, places_of, table_place};
use iv_syntax::{TriggerAction, TriggerDefinition};
use sqlite_items::Items;
use std::alloc::{AllocError, Global};

fn bound_action<'a>(
    alloc: Global,
    action: &'a TriggerAction,
    names: &'a Names<'a>,
    ranges: &'a Ranges<'a>,
) -> Result<BodyStatement, AllocError>
    requires { length names.now.tables.now ≤ MOST_TABLES }
    ensures { IfOk result (λ s. s
        ≡ bound_action (names_seen names.now) (ranges_seen ranges.now) action.now) }
{
    match action {
        TriggerAction::Insert(insert) => {
            bound_insert(alloc, insert, names, ranges).map(BodyStatement::Data)
        }
        TriggerAction::Update(update) => {
            bound_update(alloc, update, names, ranges).map(BodyStatement::Data)
        }
        TriggerAction::Delete(delete) => {
            bound_delete(alloc, delete, names, ranges).map(BodyStatement::Data)
        }
        TriggerAction::Signal(text) => Ok(BodyStatement::Signal(text.clone()?)),
        TriggerAction::Set(_, column, value) => Ok(BodyStatement::Set(Setting {
            column: names.subject.place_of(column.as_str()),
            value: bound_expression(alloc, value, ranges)?,
        })),
    }
}

fn bound_body<'a>(
    alloc: Global,
    body: &'a [TriggerAction],
    names: &'a Names<'a>,
    ranges: &'a Ranges<'a>,
) -> Result<Items<BodyStatement>, AllocError>
    requires { length names.now.tables.now ≤ MOST_TABLES }
    ensures { IfOk result (λ ss. ss
        ≡ map (bound_action (names_seen names.now) (ranges_seen ranges.now)) body.now) }
{
    let mut statements = Items::new(alloc);
    for action in body {
        statements.push(bound_action(alloc, action, names, ranges)?)?;
    }
    Ok(statements)
}

#[tactic(auto, unfolding(iv_resolution::specs::Bound::table_id))]
fn subject_id(catalogue: &Catalogue, name: &str) -> TableId
    ensures { result ≡ table_id (table_names catalogue.now) name.now }
{
    match table_place(catalogue.tables(), name) {
        Some(place) => TableId::new(place as u32),
        None => TableId::new(0),
    }
}

// Two results as one.
fn both<A: Drop, B: Drop>(
    first: Result<A, AllocError>,
    second: Result<B, AllocError>,
) -> Result<(A, B), AllocError>
    ensures { IfOk result (λ p. (first ≡ Ok p.0) × (second ≡ Ok p.1)) }
{
    let a = first?;
    let b = second?;
    Ok((a, b))
}

/// The plan of a CREATE TRIGGER, with the number that the trigger gets. It allocates only the plan.
pub fn bound_trigger<'a>(
    alloc: Global,
    trigger: &'a TriggerDefinition,
    catalogue: &'a Catalogue,
    created: u32,
) -> Result<Trigger, AllocError>
    requires { created ≡ catalogue.now.created }
    ensures { IfOk result (λ t. t ≡ bound_trigger catalogue.now trigger.now) }
{
    let names = trigger_names(trigger, catalogue);
    let ranges = variables(&names);
    let columns = places_of(
        alloc,
        &subject(trigger, catalogue),
        trigger.columns.as_slice(),
    );
    let (name, columns) = both(trigger.name.clone(), columns)?;
    let body = bound_body(alloc, trigger.body.as_slice(), &names, &ranges);
    let (when, body) = both(bound_filter(alloc, &trigger.when, &names, &ranges), body)?;
    Ok(Trigger {
        id: TriggerId::new(created),
        name,
        table: subject_id(catalogue, trigger.table.as_str()),
        time: trigger.time,
        event: trigger.event,
        columns,
        granularity: trigger.granularity,
        when,
        body,
    })
}
