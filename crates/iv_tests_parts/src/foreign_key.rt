//! A PRIMARY KEY and a foreign key to it, which are watched from the first row: a child that comes before its parent.
use crate::fault_steps::Step::{Constraints, List, Set};
use crate::fault_steps::{Step, shows};
use crate::watching::Watched;

const CHILD_FIRST: [Step; 5] = [
    Constraints,
    Set(1, 1, Some(7)),
    List,
    Set(0, 2, Some(7)),
    List,
];

#[test]
fn a_child_waits_for_its_parent(rt: HostRuntime) {
    let wanted = "2 | 1:1 | | ";
    shows(&rt, rt.alloc(), Watched::Reference, &CHILD_FIRST, wanted);
}
