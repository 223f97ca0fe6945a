//! A UNIQUE constraint that is watched from the first row: rows that share their value for a while.
use crate::fault_steps::Step::{Count, First, List, Set, TakeBack};
use crate::fault_steps::{Step, shows};
use crate::watching::Watched;

// Three rows are raised one after the other, and it is taken back, the last first.
const RAISED_AND_LOWERED: [Step; 17] = [
    Set(0, 1, Some(1)),
    Set(0, 2, Some(2)),
    Set(0, 3, Some(3)),
    Set(0, 1, Some(2)),
    List,
    First,
    Count,
    Set(0, 2, Some(3)),
    List,
    Set(0, 3, Some(4)),
    List,
    TakeBack(0, 3, Some(3)),
    List,
    TakeBack(0, 2, Some(2)),
    List,
    TakeBack(0, 1, Some(1)),
    List,
];

#[test]
fn rows_share_their_value_for_a_while(rt: HostRuntime) {
    let wanted = "0:1 0:2 | 0:1 | 2 | 0:2 0:3 | | 0:2 0:3 | 0:1 0:2 | | ";
    shows(
        &rt,
        rt.alloc(),
        Watched::Unique,
        &RAISED_AND_LOWERED,
        wanted,
    );
}
