//! A violation that is flagged, and listed with ample memory.
ghost use Rattle.std.specs.Prelude.{◌≡◌, []};

use crate::fault_steps::no_modes;
use crate::shown::{compare, show_listed};
use iv_catalogue::Fault;
use iv_key::Key;
use iv_machine::Which;
use iv_modes::Modes;
use iv_store_groups::Groups;
use iv_store_violating::ViolatingGroups;
use std::alloc::Global;
use std::panic::Expect;
use std::process::Abort;

// The violations of all constraints, if the first gets a group of row 5, which is marked.
fn listed(
    rt: &impl Abort,
    alloc: Global,
    groups: &mut Groups,
    marks: &mut ViolatingGroups,
    modes: &Modes,
) -> Vec<Fault>
    requires no_group { groups.old.groups ≡ [] }
    requires no_mark { marks.old ≡ [] }
{
    groups.cover(1).expect(rt, "memory");
    groups.add(0, &Key::new(&[], &[]), 5).expect(rt, "memory");
    marks.cover(1).expect(rt, "memory");
    marks.cover_places(0, 1).expect(rt, "memory");
    marks.set(0, 0, true);
    marks
        .list(alloc, groups, modes, Which::All)
        .expect(rt, "memory")
}

// Asserts what is told of them.
fn shows(rt: &impl Abort, alloc: Global, wanted: &str) {
    let modes = no_modes(rt, alloc);
    let mut groups = Groups::new(alloc);
    let mut marks = ViolatingGroups::new(alloc);
    let mut shown = String::new(alloc);
    let listed = listed(rt, alloc, &mut groups, &mut marks, &modes);
    drop(modes);
    drop(groups);
    drop(marks);
    show_listed(rt, listed, &mut shown);
    compare(rt, "a marked row", shown.as_str(), wanted);
}

#[test]
fn a_marked_row_is_listed(rt: HostRuntime) {
    shows(&rt, rt.alloc(), "0:5 | ");
}
