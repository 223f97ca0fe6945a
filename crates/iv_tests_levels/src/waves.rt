//! What is asked of the waves of a data statement.
use crate::changes::{Changed, Planned, add, wave};
use crate::shown::{show_changes, show_columns, show_number};
use crate::statements::{Doing, statement};
use iv_exec_triggers::{level_columns, transitions, transitions_of};
use iv_expr::{TableId, Wave};
use iv_syntax::TriggerEvent;
use std::alloc::Global;
use std::panic::Expect;
use std::process::Abort;

/// The waves of a data statement.
#[derive(Clone, Copy)]
pub enum Waves {
    These(&'static [Planned]),
    /// As many waves, each of which inserts one row into table 0.
    Insertions(u64),
}

/// What is asked of waves.
#[derive(Clone, Copy)]
pub enum Asked {
    /// Their net changes.
    Net,
    /// Those of a table and an event.
    NetOf(u32, TriggerEvent),
    /// How many these are.
    CountOf(u32, TriggerEvent),
    /// The columns of the level of a statement with these waves.
    Columns(Doing),
}

fn these(rt: &impl Abort, alloc: Global, planned: &[Planned]) -> Vec<Wave> {
    let mut waves = Vec::new(alloc);
    for one in planned {
        waves.push(wave(rt, alloc, one)).expect(rt, "memory");
    }
    waves
}

fn insertions(rt: &impl Abort, alloc: Global, count: u64) -> Vec<Wave> {
    let mut waves = Vec::new(alloc);
    for number in 0..count {
        let mut wave = Wave::new(alloc);
        add(rt, alloc, &mut wave, &Changed(0, number + 1, &[], &[1]));
        waves.push(wave).expect(rt, "memory");
    }
    waves
}

fn made(rt: &impl Abort, alloc: Global, waves: &Waves) -> Vec<Wave> {
    match waves {
        Waves::These(planned) => these(rt, alloc, planned),
        Waves::Insertions(count) => insertions(rt, alloc, *count),
    }
}

fn show_net(rt: &impl Abort, alloc: Global, waves: &[Wave], shown: &mut String) {
    let net = transitions(alloc, waves).expect(rt, "memory");
    show_changes(rt, net.changes(), shown);
    drop(net);
}

fn show_part(
    rt: &impl Abort,
    alloc: Global,
    waves: &[Wave],
    (table, event): (u32, TriggerEvent),
    counts: bool,
    shown: &mut String,
) {
    let net = transitions(alloc, waves).expect(rt, "memory");
    let parts = transitions_of(alloc, &net).expect(rt, "memory");
    drop(net);
    let changes = parts.of(TableId::new(table), event);
    if counts {
        show_number(rt, "", changes.len() as u64, ", ", shown);
    } else {
        show_changes(rt, changes, shown);
    }
    drop(parts);
}

fn show_level(rt: &impl Abort, alloc: Global, waves: &[Wave], doing: &Doing, shown: &mut String) {
    let statement = statement(rt, alloc, doing);
    let columns = level_columns(alloc, statement.get(), waves).expect(rt, "memory");
    drop(statement);
    show_columns(rt, columns.as_slice(), shown);
}

/// Shows what is asked of waves.
pub fn show_of_waves(
    rt: &impl Abort,
    alloc: Global,
    waves: &Waves,
    asked: &Asked,
    shown: &mut String,
) {
    let made = made(rt, alloc, waves);
    let waves = made.as_slice();
    match asked {
        Asked::Net => show_net(rt, alloc, waves, shown),
        Asked::NetOf(table, event) => show_part(rt, alloc, waves, (*table, *event), false, shown),
        Asked::CountOf(table, event) => show_part(rt, alloc, waves, (*table, *event), true, shown),
        Asked::Columns(doing) => show_level(rt, alloc, waves, doing, shown),
    }
    drop(made);
}
