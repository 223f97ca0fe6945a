//! Which AFTER triggers fire, and on what.
ghost use Rattle.std.specs.Prelude.{◌≡◌};
ghost use Rattle.iv_machine.specs.BeforeTriggers.{is_before, is_on, same_event, for_each_row};
ghost use Rattle.iv_machine.specs.Levels.{is_after_on};
ghost use Rattle.iv_machine.specs.Proposals.{table_of, event_of};
ghost use Rattle.iv_exec_triggers.specs.ByTable.{FiresOn, expanded, after_firings};

use crate::by_table::Transitions;
use crate::columns::is_on_columns;
use crate::matching::{event_of, is_on, table_of};
use iv_catalogue::{DataStatement, Trigger};
use iv_expr::{Change, TableColumn};
use iv_syntax::{ActionTime, Granularity};

/// How a trigger fires: not at all, once, or for each of the transitions of its table and event.
#[derive(Clone, Copy)]
pub enum Fires<'a> {
    Never,
    Once(&'a [Change]),
    EachRow(&'a [Change]),
}

fn is_before(trigger: &Trigger) -> bool
    ensures { result ≡ is_before trigger.now }
{
    match trigger.time {
        ActionTime::Before => true,
        ActionTime::After => false,
    }
}

// Whether it is an AFTER trigger, and on one of these columns if it lists columns.
fn is_after_on(columns: &[TableColumn], trigger: &Trigger) -> bool
    ensures { result ≡ is_after_on columns.now trigger.now }
{
    !is_before(trigger) && is_on_columns(columns, trigger)
}

fn for_each_row(trigger: &Trigger) -> bool
    ensures { result ≡ for_each_row trigger.now }
{
    match trigger.granularity {
        Granularity::Row => true,
        Granularity::Statement => false,
    }
}

fn is_of_statement(statement: &DataStatement, trigger: &Trigger) -> bool
    ensures { result ≡ is_on (table_of statement.now) (event_of statement.now) trigger.now }
{
    is_on(table_of(statement), event_of(statement), trigger)
}

/// How a trigger fires after a data statement whose level has these columns, and on which transitions, which are lent.
/// A trigger whose UPDATE OF list has none of the level's columns doesn't fire.
pub fn firings<'a>(
    statement: &DataStatement,
    trigger: &Trigger,
    columns: &[TableColumn],
    transitions: &'a Transitions,
) -> Fires<'a>
    ensures fires { expanded trigger.now result
        ≡ after_firings statement.now columns.now transitions.entry.now trigger.now }
    ensures lent { FiresOn trigger.now transitions.entry.now result }
{
    if !is_after_on(columns, trigger) {
        return Fires::Never;
    }
    let changes = transitions.of(trigger.table, trigger.event);
    if for_each_row(trigger) {
        Fires::EachRow(changes)
    } else if is_of_statement(statement, trigger) || changes.len() > 0 {
        Fires::Once(changes)
    } else {
        Fires::Never
    }
}
