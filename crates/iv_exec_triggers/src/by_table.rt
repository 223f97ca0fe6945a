//! The net changes of a data statement by table and event.
ghost use Rattle.std.specs.Prelude.{◌≡◌, ◌<◌, ◌≤◌, ◌*◌, ◌+◌, ◌++◌, ◌∷◌, [], length, slice_set, replicate, IfOk, OnOk};
ghost use Rattle.iv_machine.specs.BeforeTriggers.{event_of_change};
ghost use Rattle.iv_exec_triggers.specs.ByTable.{event_place, place_of, transitions_on, ByTableAndEvent, OfTablesBelow};

use crate::matching::event_of_change;
use crate::net::copy_change;
use iv_expr::{Change, TableId, Wave};
use iv_syntax::TriggerEvent;
use sqlite_items::Items;
use std::alloc::{AllocError, Global};
use std::marker::Model;

/// Changes by their table and event. Contracts see them as lists, three for each table.
#[derive(Drop)]
pub struct Transitions {
    parts: Vec<Items<Change>>,
}

impl Model for Transitions {
    ghost use Rattle.std.specs.Prelude.{List};
    ghost use Rattle.iv_expr.specs.declared.row.Change.{Change as Item};

    ghost Value = { List (List Item) };

    ghost view = { λ t. t.parts.items };
}

fn event_place(event: TriggerEvent) -> usize
    ensures value { result ≡ event_place event }
    ensures small { result < 3 }
{
    match event {
        TriggerEvent::Insert => 0,
        TriggerEvent::Update => 1,
        TriggerEvent::Delete => 2,
    }
}

impl Transitions {
    /// The changes of a table and event, lent.
    pub fn of(&self, table: TableId, event: TriggerEvent) -> &[Change]
        ensures { result.now ≡ transitions_on self.now table event }
    {
        match self
            .parts
            .get(3 * table.place() as usize + event_place(event))
        {
            Some(part) => part.as_slice(),
            None => &[],
        }
    }
}

fn push_to(part: &mut Items<Change>, change: Change) -> Result<(), AllocError>
    ensures { OnOk result (part.new ≡ part.old ++ change ∷ []) }
{
    part.push(change)
}

// Adds a change to those of its table and event.
fn add(parts: &mut [Items<Change>], change: Change) -> Result<(), AllocError>
    requires { 3 * change.table + 2 < length parts.old }
    ensures length { length parts.new ≡ length parts.old }
    ensures added { OnOk result (parts.new
        ≡ slice_set parts.old (place_of change.table (event_of_change change))
        (transitions_on parts.old change.table (event_of_change change) ++ change ∷ [])) }
{
    let at = 3 * change.table.place() as usize + event_place(event_of_change(&change));
    push_to(&mut parts[at], change)
}

// A list of as many empty lists.
fn empty(alloc: Global, count: usize) -> Result<Vec<Items<Change>>, AllocError>
    ensures { IfOk result (λ parts. parts.items ≡ replicate count []) }
{
    let mut parts = Vec::new(alloc);
    for _at in 0..count {
        let part = Items::new(alloc);
        parts.push(part)?;
    }
    Ok(parts)
}

// Adds changes to lists that are empty.
fn fill(parts: &mut [Items<Change>], tables: usize, changes: &[Change]) -> Result<(), AllocError>
    requires empty { parts.old ≡ replicate (3 * tables) [] }
    requires tables { OfTablesBelow tables changes.now }
    ensures length { length parts.new ≡ length parts.old }
    ensures parted { OnOk result (ByTableAndEvent parts.new changes.now) }
{
    for change in changes {
        let copy = copy_change(change)?;
        add(parts, copy)?;
    }
    Ok(())
}

// The greater of a number of tables and the one that the table of a change asks.
fn with_table(tables: usize, change: &Change) -> usize
    requires { tables ≤ 4294967296 }
    ensures most { tables ≤ result }
    ensures within { change.now.table < result }
    ensures few { result ≤ 4294967296 }
{
    let place = change.table.place() as usize;
    if place < tables { tables } else { place + 1 }
}

// A number of tables that includes the tables of all changes.
fn tables_of(changes: &[Change]) -> usize
    ensures within { OfTablesBelow result changes.now }
    ensures few { result ≤ 4294967296 }
{
    let mut tables = 0usize;
    for change in changes {
        tables = with_table(tables, change);
    }
    tables
}

/// The changes of a wave by table and event. They are made once for a data statement and lent to each trigger that
/// fires. The rows are shared.
pub fn transitions_of(alloc: Global, net: &Wave) -> Result<Transitions, AllocError>
    ensures { IfOk result (λ parts. ByTableAndEvent parts net.now.changes) }
{
    let changes = net.changes();
    let tables = tables_of(changes);
    let mut parts = empty(alloc, 3 * tables)?;
    fill(parts.as_mut_slice(), tables, changes)?;
    Ok(Transitions { parts })
}
