//! The catalogue's triggers, by their places.
ghost use Rattle.std.specs.Prelude.{◌≡◌, slice_get, option_copied};
ghost use Rattle.iv_shown.specs.Catalogue.{event_number, granularity_number, time_number, trigger_column, trigger_name_at, trigger_shown};

use crate::connection::Connection;
use iv_catalogue::Trigger;
use iv_syntax::{ActionTime, Granularity, TriggerEvent};

/// A trigger in numbers, as `include/sqlkeep.h` names them.
#[repr(C)]
#[derive(Drop)]
pub struct ShownTrigger {
    pub table: u32,
    pub time: u32,
    pub event: u32,
    pub granularity: u32,
    pub columns: u64,
    pub statements: u64,
}

fn time_number(time: ActionTime) -> u32
    ensures { result ≡ time_number time }
{
    match time {
        ActionTime::Before => 0,
        ActionTime::After => 1,
    }
}

fn event_number(event: TriggerEvent) -> u32
    ensures { result ≡ event_number event }
{
    match event {
        TriggerEvent::Insert => 0,
        TriggerEvent::Update => 1,
        TriggerEvent::Delete => 2,
    }
}

fn granularity_number(granularity: Granularity) -> u32
    ensures { result ≡ granularity_number granularity }
{
    match granularity {
        Granularity::Row => 0,
        Granularity::Statement => 1,
    }
}

pub fn trigger_shown(trigger: &Trigger) -> ShownTrigger
    ensures { result ≡ trigger_shown trigger.now }
{
    ShownTrigger {
        table: trigger.table.place(),
        time: time_number(trigger.time),
        event: event_number(trigger.event),
        granularity: granularity_number(trigger.granularity),
        columns: trigger.columns.len() as u64,
        statements: trigger.body.len() as u64,
    }
}

pub fn trigger_at(connection: &Connection, at: usize) -> Option<&Trigger>
    ensures { option_copied result ≡ slice_get connection.now.session.state.schema.triggers at }
{
    connection.session.catalogue().triggers().get(at)
}

pub fn trigger_name(connection: &Connection, at: usize) -> Option<&[u8]>
    ensures { option_copied result ≡ trigger_name_at connection.now.session.state.schema at }
{
    match trigger_at(connection, at) {
        Some(trigger) => Some(trigger.name.as_str().as_bytes()),
        None => None,
    }
}

pub fn trigger_column(connection: &Connection, at: usize, place: usize) -> Option<u32>
    ensures { result ≡ trigger_column connection.now.session.state.schema at place }
{
    match trigger_at(connection, at) {
        Some(trigger) => trigger.columns.as_slice().get(place).copied(),
        None => None,
    }
}
