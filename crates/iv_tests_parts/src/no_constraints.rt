//! Rows that come, change, change back and go while no constraint is watched.
use crate::fault_steps::Step::{Constraints, Count, First, List, LookedUp, Set, TakeBack};
use crate::fault_steps::{Step, shows};
use crate::watching::Watched;

const CHANGES: [Step; 17] = [
    Set(0, 1, Some(1)),
    Set(0, 2, Some(2)),
    Set(0, 3, Some(3)),
    Set(0, 1, Some(2)),
    List,
    Set(0, 2, Some(3)),
    List,
    Set(0, 3, Some(4)),
    List,
    TakeBack(0, 3, Some(3)),
    List,
    TakeBack(0, 2, Some(2)),
    List,
    TakeBack(0, 1, Some(1)),
    List,
    Set(0, 1, None),
    LookedUp,
];

#[test]
fn no_change_violates(rt: HostRuntime) {
    let wanted = "| | | | | | 0 | ";
    shows(&rt, rt.alloc(), Watched::Nothing, &CHANGES, wanted);
}

const CHILD_FIRST: [Step; 4] = [Set(1, 1, Some(7)), List, Set(0, 2, Some(7)), List];

#[test]
fn a_child_without_a_parent_violates_nothing(rt: HostRuntime) {
    shows(&rt, rt.alloc(), Watched::Nothing, &CHILD_FIRST, "| | ");
}

const NO_ROW: [Step; 3] = [First, Count, Constraints];

#[test]
fn nothing_is_told(rt: HostRuntime) {
    shows(
        &rt,
        rt.alloc(),
        Watched::Nothing,
        &NO_ROW,
        "none | 0 | 0 | ",
    );
}
