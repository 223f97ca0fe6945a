//! Rows that come, go and come back, with ample memory.
use crate::version_steps::Step::{
    After, Count, Gone, Mark, Next, Put, Row, Rows, Settle, StepBackTo, Undo, UndoTo,
};
use crate::version_steps::{Step, shows};

// Three rows of two tables and a mark; one goes, one changes, and another mark; two rows more; and back.
const THERE_AND_BACK: [Step; 19] = [
    Put(0, 1, 10),
    Put(1, 2, 20),
    Put(0, 3, 30),
    Mark,
    Gone(0, 1),
    Put(0, 3, 31),
    Mark,
    Put(0, 4, 40),
    Put(1, 5, 50),
    Rows(0),
    Rows(1),
    StepBackTo(1),
    Rows(0),
    Row(3),
    Undo(0),
    Rows(0),
    Row(3),
    Next,
    Count,
];

#[test]
fn rows_come_back(rt: HostRuntime) {
    let wanted = "3:31 4:40 | 2:20 5:50 | 5 4 | 3:31 | 31 | 1:10 3:30 | 30 | 4 | 3 | ";
    shows(&rt, rt.alloc(), &THERE_AND_BACK, wanted);
}

// Five of six rows go after all is settled.
const SETTLED: [Step; 19] = [
    Put(0, 1, 7),
    Put(0, 2, 7),
    Put(0, 3, 7),
    Put(0, 4, 7),
    Put(0, 5, 7),
    Put(0, 6, 7),
    Settle,
    Gone(0, 1),
    Gone(0, 2),
    Gone(0, 3),
    Gone(0, 4),
    Gone(0, 5),
    Rows(0),
    Count,
    Settle,
    Rows(0),
    Put(0, 7, 8),
    Rows(0),
    Count,
];

#[test]
fn slots_are_given_up(rt: HostRuntime) {
    let wanted = "6:7 | 5 | 6:7 | 6:7 7:8 | 1 | ";
    shows(&rt, rt.alloc(), &SETTLED, wanted);
}

// Four rows and a mark; the first two go, one comes in before all, and back.
const AT_THE_FRONT: [Step; 15] = [
    Put(0, 2, 7),
    Put(0, 3, 7),
    Put(0, 4, 7),
    Put(0, 5, 7),
    Mark,
    Gone(0, 2),
    Rows(0),
    Gone(0, 3),
    Rows(0),
    After(0, 4),
    Put(0, 1, 8),
    Rows(0),
    UndoTo(0),
    Rows(0),
    After(0, 3),
];

#[test]
fn a_look_begins_at_the_first_row(rt: HostRuntime) {
    let wanted = "3:7 4:7 5:7 | 4:7 5:7 | 5 | 1:8 4:7 5:7 | 2:7 3:7 4:7 5:7 | 4 | ";
    shows(&rt, rt.alloc(), &AT_THE_FRONT, wanted);
}

// Six rows and a mark; three go after the first, one of them comes back, one comes in between, and back.
const AFTER_THE_FIRST: [Step; 18] = [
    Put(0, 2, 7),
    Put(0, 4, 7),
    Put(0, 6, 7),
    Put(0, 8, 7),
    Put(0, 10, 7),
    Put(0, 12, 7),
    Mark,
    Gone(0, 4),
    Gone(0, 6),
    Rows(0),
    Gone(0, 8),
    Rows(0),
    Put(0, 6, 8),
    Rows(0),
    Put(0, 5, 8),
    Rows(0),
    UndoTo(0),
    Rows(0),
];

#[test]
fn a_look_passes_rows_that_went(rt: HostRuntime) {
    let wanted = "2:7 8:7 10:7 12:7 | 2:7 10:7 12:7 | 2:7 6:8 10:7 12:7 | 2:7 5:8 6:8 10:7 12:7 | \
        2:7 4:7 6:7 8:7 10:7 12:7 | ";
    shows(&rt, rt.alloc(), &AFTER_THE_FIRST, wanted);
}

// Six rows and a mark; every other goes, one of them comes back, the first goes, and back.
const HERE_AND_THERE: [Step; 17] = [
    Put(0, 2, 7),
    Put(0, 4, 7),
    Put(0, 6, 7),
    Put(0, 8, 7),
    Put(0, 10, 7),
    Put(0, 12, 7),
    Mark,
    Gone(0, 4),
    Gone(0, 8),
    Gone(0, 12),
    Rows(0),
    Put(0, 8, 8),
    Rows(0),
    Gone(0, 2),
    Rows(0),
    UndoTo(0),
    Rows(0),
];

#[test]
fn rows_go_here_and_there(rt: HostRuntime) {
    let wanted = "2:7 6:7 10:7 | 2:7 6:7 8:8 10:7 | 6:7 8:8 10:7 | 2:7 4:7 6:7 8:7 10:7 12:7 | ";
    shows(&rt, rt.alloc(), &HERE_AND_THERE, wanted);
}
