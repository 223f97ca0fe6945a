//! The net changes of waves, and those of each table and event.
use crate::cases::Case::{self, OfWaves};
use crate::cases::shows;
use crate::changes::{Changed, NULL, Planned};
use crate::waves::Asked::{CountOf, Net, NetOf};
use crate::waves::Waves::{self, Insertions, These};
use iv_syntax::TriggerEvent;

// Row 1 is updated twice and row 2 once; row 3 is updated and deleted; row 7 is inserted and deleted; row 8 is
// inserted and updated; row 5 of another table is deleted.
const WAVES: Waves = These(&[
    Planned(
        &[],
        &[Changed(0, 1, &[1], &[2]), Changed(0, 3, &[30], &[31])],
    ),
    Planned(&[], &[Changed(0, 7, &[], &[70]), Changed(0, 8, &[], &[80])]),
    Planned(
        &[],
        &[
            Changed(0, 1, &[2], &[3]),
            Changed(0, 2, &[20], &[20]),
            Changed(0, 3, &[31], &[]),
            Changed(2, 5, &[50], &[]),
            Changed(0, 7, &[70], &[]),
            Changed(0, 8, &[80], &[81]),
        ],
    ),
]);

// The row of the first table goes; then that of the second, while that of the third is updated; then that one goes too.
const CHAIN: Waves = These(&[
    Planned(&[], &[Changed(0, 1, &[10], &[])]),
    Planned(
        &[],
        &[Changed(1, 2, &[20], &[]), Changed(2, 3, &[30], &[31])],
    ),
    Planned(&[], &[Changed(2, 3, &[31], &[])]),
]);

// The row of table 0 goes. Then that of table 1, which it cascades to; that of table 2 loses its reference to the
// first by SET NULL. Then it goes too, since the second cascades to it.
const SET_NULL: Waves = These(&[
    Planned(&[], &[Changed(0, 1, &[1], &[])]),
    Planned(
        &[],
        &[
            Changed(1, 2, &[2, 1], &[]),
            Changed(2, 3, &[1, 2], &[NULL, 2]),
        ],
    ),
    Planned(&[], &[Changed(2, 3, &[NULL, 2], &[])]),
]);

static FEW: [Case; 6] = [
    OfWaves(WAVES, Net),
    OfWaves(WAVES, NetOf(0, TriggerEvent::Update)),
    OfWaves(WAVES, NetOf(2, TriggerEvent::Delete)),
    OfWaves(WAVES, NetOf(1, TriggerEvent::Insert)),
    OfWaves(CHAIN, Net),
    OfWaves(SET_NULL, Net),
];

// The changes of each row are one; those of a table and an event; and a deletion wins over SET NULL.
#[test]
fn net_changes_of_few_waves(rt: HostRuntime) {
    let wanted =
        "0 1: 1 to 3, 0 2: 20 to 20, 0 3: 30 to none, 2 5: 50 to none, 0 8: none to 81, done; \
                  0 1: 1 to 3, 0 2: 20 to 20, done; 2 5: 50 to none, done; done; \
                  0 1: 10 to none, 1 2: 20 to none, 2 3: 30 to none, done; \
                  0 1: 1 to none, 1 2: 2 1 to none, 2 3: 1 2 to none, done; ";
    shows(&rt, rt.alloc(), &FEW, wanted);
}

static MANY: [Case; 1] = [OfWaves(Insertions(65_536), CountOf(0, TriggerEvent::Insert))];

#[test]
fn net_changes_of_many_waves(rt: HostRuntime) {
    shows(&rt, rt.alloc(), &MANY, "65536, done; ");
}
