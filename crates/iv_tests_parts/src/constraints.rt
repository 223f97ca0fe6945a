//! Constraints that are covered, kept apart and cleared.
use crate::group_steps::Act::{Add, Holders, Place, Room, Rows};
use crate::group_steps::Step::{Clear, Constraints, Cover, Groups, LookedUp, Under};
use crate::group_steps::{ONE, Step, shows};

const COVERED: [Step; 5] = [Constraints, Cover(2), Constraints, Cover(1), Constraints];

#[test]
fn constraints_are_covered(rt: HostRuntime) {
    shows(&rt, rt.alloc(), &COVERED, "0 | 2 | 2 | ");
}

// One key has the row 4 in constraint 0, and the rows 6 and 7 in constraint 1; then constraint 0 is cleared.
const APART: [Step; 12] = [
    Cover(2),
    Under(0, ONE, Add(4)),
    Under(1, ONE, Add(7)),
    Under(1, ONE, Add(6)),
    Under(0, ONE, Rows),
    Under(1, ONE, Rows),
    Clear(0),
    Under(0, ONE, Rows),
    Under(1, ONE, Rows),
    Groups(0),
    Groups(1),
    LookedUp,
];

#[test]
fn constraints_are_apart(rt: HostRuntime) {
    shows(&rt, rt.alloc(), &APART, "4 | 6 7 | | 6 7 | 0 | 1 | 7 | ");
}

const UNKNOWN: [Step; 6] = [
    Under(3, ONE, Rows),
    Under(3, ONE, Holders),
    Under(3, ONE, Place),
    Under(3, ONE, Room),
    Groups(3),
    LookedUp,
];

#[test]
fn an_unknown_constraint_has_no_rows(rt: HostRuntime) {
    shows(&rt, rt.alloc(), &UNKNOWN, "| | none | 0 | 0 | 2 | ");
}
