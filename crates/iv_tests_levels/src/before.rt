//! BEFORE triggers of a statement, and of the rows of a wave.
use crate::cases::Case::{self, OfTrigger};
use crate::cases::shows;
use crate::changes::{Changed, NULL, Planned};
use crate::statements::Doing::{Delete, SetFirst, SetSecond};
use crate::triggers::Question::{Rows, Statement};
use crate::triggers::{Action, Run};
use iv_syntax::{ActionTime, Granularity, TriggerEvent};

// ---- of a statement

const OF_DELETE: Run = Run {
    time: ActionTime::Before,
    event: TriggerEvent::Delete,
    granularity: Granularity::Statement,
    listed: &[],
    action: Action::Signal,
};

// It lists the second column.
const OF_SECOND: Run = Run {
    time: ActionTime::Before,
    event: TriggerEvent::Update,
    granularity: Granularity::Statement,
    listed: &[1],
    action: Action::Signal,
};

static STATEMENTS: [Case; 4] = [
    OfTrigger(OF_DELETE, Statement(Delete)),
    OfTrigger(OF_DELETE, Statement(SetFirst(1))),
    OfTrigger(OF_SECOND, Statement(SetFirst(1))),
    OfTrigger(OF_SECOND, Statement(SetSecond(1))),
];

#[test]
fn a_signal_refuses_statements_of_its_event_that_set_one_of_its_columns(rt: HostRuntime) {
    let wanted = "signal 1 of 0 in 0; done; done; signal 1 of 0 in 0; ";
    shows(&rt, rt.alloc(), &STATEMENTS, wanted);
}

// ---- of rows

const OF_INSERTED: Run = Run {
    time: ActionTime::Before,
    event: TriggerEvent::Insert,
    granularity: Granularity::Row,
    listed: &[],
    action: Action::Fill,
};

// It lists the second column.
const OF_UPDATED: Run = Run {
    time: ActionTime::Before,
    event: TriggerEvent::Update,
    granularity: Granularity::Row,
    listed: &[1],
    action: Action::Fill,
};

const INSERTED: Planned = Planned(&[], &[Changed(0, 1, &[], &[NULL, 2])]);

// A wave that names the first column.
const UPDATED: Planned = Planned(&[(0, 0)], &[Changed(0, 1, &[1, 2], &[NULL, 3])]);

// A wave that names the second column.
const UPDATED_LISTED: Planned = Planned(&[(0, 1)], &[Changed(0, 1, &[1, 2], &[NULL, 3])]);

static ROWS: [Case; 3] = [
    OfTrigger(OF_INSERTED, Rows(INSERTED)),
    OfTrigger(OF_UPDATED, Rows(UPDATED)),
    OfTrigger(OF_UPDATED, Rows(UPDATED_LISTED)),
];

#[test]
fn a_null_is_filled_in_waves_of_the_event_that_name_one_of_its_columns(rt: HostRuntime) {
    let wanted = "0 1: none to 9 2, done; 0 1: 1 2 to null 3, done; 0 1: 1 2 to 9 3, done; ";
    shows(&rt, rt.alloc(), &ROWS, wanted);
}
