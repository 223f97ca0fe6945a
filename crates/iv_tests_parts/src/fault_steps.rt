//! Rows that change, as data, and the violations that are told of them, as text. What a step tells ends with a bar.
ghost use Rattle.iv_store_faults.specs.Watching.{AreWatched, IsShownBy};
ghost use Rattle.iv_laws_kept.specs.GroupFlags.{AreFlagged};
ghost use Rattle.iv_store_violating.specs.Shown as violating;

use crate::rows;
use crate::shown::{compare, show, show_count, show_faults, show_listed};
use crate::watching::{Watched, watch};
use iv_catalogue::Fault;
use iv_machine::Which;
use iv_modes::Modes;
use iv_store_faults::Faults;
use iv_store_groups::Groups;
use iv_store_rows::Versions;
use std::alloc::Global;
use std::panic::Expect;
use std::process::Abort;

/// A change of a row, or a thing that is told.
#[derive(Clone, Copy)]
pub enum Step {
    /// The row of a number of a table gets only this integer, or goes.
    Set(u32, u64, Option<i64>),
    /// The change of a row is taken back that it had from this integer.
    TakeBack(u32, u64, Option<i64>),
    /// All violations.
    List,
    /// The first violation.
    First,
    /// How many violations there are.
    Count,
    /// How many constraints are watched.
    Constraints,
    /// How many look-ups there were.
    LookedUp,
}

/// The modes of no constraint.
pub fn no_modes(rt: &impl Abort, alloc: Global) -> Modes {
    Modes::initial(alloc, &[]).expect(rt, "memory")
}

fn show_first(rt: &impl Abort, first: Option<Fault>, shown: &mut String) {
    match first {
        Some(fault) => show_faults(rt, &[fault], shown),
        None => show(rt, "none | ", shown),
    }
}

fn tell(
    rt: &impl Abort,
    groups: &Groups,
    faults: &Faults,
    modes: &Modes,
    step: Step,
    shown: &mut String,
)
    requires { AreFlagged faults.now.constraints (violating.shown groups.now.groups) faults.now.violating }
{
    match step {
        Step::List => {
            let listed = faults.list(groups, modes, Which::All);
            show_listed(rt, listed.expect(rt, "memory"), shown)
        }
        Step::First => show_first(rt, faults.first(groups, modes, Which::All), shown),
        Step::Count => show_count(rt, faults.count(groups, modes, Which::All), shown),
        Step::Constraints => show_count(rt, faults.constraints().len() as u64, shown),
        Step::LookedUp => show_count(rt, groups.looked_up(), shown),
        _ => rt.panic("a step that is none of these"),
    }
}

fn take(
    rt: &impl Abort,
    alloc: Global,
    versions: &mut Versions,
    groups: &mut Groups,
    faults: &mut Faults,
    modes: &Modes,
    step: Step,
    shown: &mut String,
)
    requires shown { IsShownBy versions.old.rows faults.old groups.old }
    requires watched { AreWatched faults.old groups.old }
    ensures shown { IsShownBy versions.new.rows faults.new groups.new }
    ensures watched { AreWatched faults.new groups.new }
{
    match step {
        Step::Set(table, number, integer) => {
            rows::set(rt, alloc, versions, groups, faults, table, number, integer)
        }
        Step::TakeBack(table, number, integer) => {
            rows::take_back(rt, alloc, versions, groups, faults, table, number, integer)
        }
        _ => tell(rt, groups, faults, modes, step, shown),
    }
}

fn take_each(
    rt: &impl Abort,
    alloc: Global,
    versions: &mut Versions,
    groups: &mut Groups,
    faults: &mut Faults,
    modes: &Modes,
    steps: &[Step],
    shown: &mut String,
)
    requires shown { IsShownBy versions.old.rows faults.old groups.old }
    requires watched { AreWatched faults.old groups.old }
{
    for step in steps {
        take(rt, alloc, versions, groups, faults, modes, *step, shown);
    }
}

/// Asserts what steps from no row on tell.
pub fn shows(rt: &impl Abort, alloc: Global, watched: Watched, steps: &[Step], wanted: &str) {
    let modes = no_modes(rt, alloc);
    let mut versions = Versions::new(alloc);
    let mut groups = Groups::new(alloc);
    let mut faults = Faults::new(alloc);
    let mut shown = String::new(alloc);
    watch(rt, alloc, &mut groups, &mut faults, watched);
    take_each(
        rt,
        alloc,
        &mut versions,
        &mut groups,
        &mut faults,
        &modes,
        steps,
        &mut shown,
    );
    drop(versions);
    drop(groups);
    drop(faults);
    drop(modes);
    compare(rt, "rows and violations", shown.as_str(), wanted);
}
