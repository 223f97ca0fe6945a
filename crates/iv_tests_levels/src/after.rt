//! Which AFTER triggers fire on what a data statement with its waves changes, and the columns of its level.
use crate::cases::Case::{self, OfTrigger, OfWaves};
use crate::cases::shows;
use crate::changes::{Changed, Planned};
use crate::statements::Doing::{Delete, SetFirst, SetSecond};
use crate::triggers::Question::Fires;
use crate::triggers::{Action, Run};
use crate::waves::Asked::Columns;
use crate::waves::Waves::These;
use iv_syntax::{ActionTime, Granularity, TriggerEvent};

static LEVEL: [Case; 1] = [OfWaves(
    These(&[
        Planned(&[(2, 0), (0, 1)], &[]),
        Planned(&[(2, 0), (2, 1)], &[]),
    ]),
    Columns(SetSecond(1)),
)];

#[test]
fn a_level_has_each_column_once(rt: HostRuntime) {
    shows(&rt, rt.alloc(), &LEVEL, "0 1, 2 0, 2 1, done; ");
}

// An AFTER trigger of UPDATE.
const ONCE: Run = Run {
    time: ActionTime::After,
    event: TriggerEvent::Update,
    granularity: Granularity::Statement,
    listed: &[],
    action: Action::Signal,
};

// An AFTER trigger of UPDATE, for each row.
const EACH: Run = Run {
    time: ActionTime::After,
    event: TriggerEvent::Update,
    granularity: Granularity::Row,
    listed: &[],
    action: Action::Signal,
};

// An AFTER trigger of UPDATE, for the statement, which lists the second column.
const LISTED: Run = Run {
    time: ActionTime::After,
    event: TriggerEvent::Update,
    granularity: Granularity::Statement,
    listed: &[1],
    action: Action::Signal,
};

// No row is changed.
const NONE: Planned = Planned(&[], &[]);

// The row of table 0 is updated.
const ONE: Planned = Planned(&[], &[Changed(0, 1, &[1, 2], &[1, 3])]);

// The row of table 0 is updated in a level that names the first column of the table and the second of another.
const ONE_OTHERWISE: Planned = Planned(&[(0, 0), (1, 1)], &[Changed(0, 1, &[1, 2], &[1, 3])]);

// The row of table 0 is updated in a level that names the second column of the table.
const ONE_LISTED: Planned = Planned(&[(0, 1)], &[Changed(0, 1, &[1, 2], &[1, 3])]);

static FIRINGS: [Case; 7] = [
    OfTrigger(ONCE, Fires(SetFirst(1), NONE)),
    OfTrigger(ONCE, Fires(Delete, NONE)),
    OfTrigger(ONCE, Fires(Delete, ONE)),
    OfTrigger(EACH, Fires(SetFirst(1), NONE)),
    OfTrigger(EACH, Fires(SetFirst(1), ONE)),
    OfTrigger(LISTED, Fires(SetFirst(1), ONE_OTHERWISE)),
    OfTrigger(LISTED, Fires(SetFirst(1), ONE_LISTED)),
];

// A trigger of the statement fires without rows, one of rows for each, and one with a list if the level names one of
// its columns.
#[test]
fn triggers_fire_by_event_by_granularity_and_by_column(rt: HostRuntime) {
    let wanted = "once on 0, done; never, done; once on 1, done; \
                  for each of 0, done; for each of 1, done; \
                  never, done; once on 1, done; ";
    shows(&rt, rt.alloc(), &FIRINGS, wanted);
}
