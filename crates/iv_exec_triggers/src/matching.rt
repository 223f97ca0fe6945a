//! Which triggers are on a table, an event and a granularity ("Trigger definition").
ghost use Rattle.std.specs.Prelude.{◌≡◌};
ghost use Rattle.iv_machine.specs.BeforeTriggers.{event_of_change, is_before_row, is_before_statement, is_on, same_event};
ghost use Rattle.iv_machine.specs.Proposals.{event_of, table_of};

use iv_catalogue::{DataStatement, Trigger};
use iv_expr::{Change, TableId};
use iv_syntax::{ActionTime, Granularity, TriggerEvent};

/// The table that a data statement is about.
pub fn table_of(statement: &DataStatement) -> TableId
    ensures { result ≡ table_of statement.now }
{
    match statement {
        DataStatement::Insert { table, .. } => *table,
        DataStatement::Update { table, .. } => *table,
        DataStatement::Delete { table, .. } => *table,
    }
}

/// The event that a data statement is.
pub fn event_of(statement: &DataStatement) -> TriggerEvent
    ensures { result ≡ event_of statement.now }
{
    match statement {
        DataStatement::Insert { .. } => TriggerEvent::Insert,
        DataStatement::Update { .. } => TriggerEvent::Update,
        DataStatement::Delete { .. } => TriggerEvent::Delete,
    }
}

/// The event that a change is.
pub fn event_of_change(change: &Change) -> TriggerEvent
    ensures { result ≡ event_of_change change.now }
{
    if change.old.is_none() {
        TriggerEvent::Insert
    } else if change.new.is_none() {
        TriggerEvent::Delete
    } else {
        TriggerEvent::Update
    }
}

fn same_event(event: TriggerEvent, other: TriggerEvent) -> bool
    ensures { result ≡ same_event event other }
{
    match event {
        TriggerEvent::Insert => matches!(other, TriggerEvent::Insert),
        TriggerEvent::Update => matches!(other, TriggerEvent::Update),
        TriggerEvent::Delete => matches!(other, TriggerEvent::Delete),
    }
}

/// Whether a trigger is on this table and event.
pub fn is_on(table: TableId, event: TriggerEvent, trigger: &Trigger) -> bool
    ensures { result ≡ is_on table event trigger.now }
{
    trigger.table.place() == table.place() && same_event(trigger.event, event)
}

/// Whether it is a BEFORE trigger for each row.
pub fn is_before_row(trigger: &Trigger) -> bool
    ensures { result ≡ is_before_row trigger.now }
{
    match trigger.time {
        ActionTime::Before => matches!(trigger.granularity, Granularity::Row),
        ActionTime::After => false,
    }
}

/// Whether it is a BEFORE trigger for each statement.
pub fn is_before_statement(trigger: &Trigger) -> bool
    ensures { result ≡ is_before_statement trigger.now }
{
    match trigger.time {
        ActionTime::Before => matches!(trigger.granularity, Granularity::Statement),
        ActionTime::After => false,
    }
}
