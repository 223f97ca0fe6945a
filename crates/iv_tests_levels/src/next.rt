//! The wave that follows by referential actions, over both stores.
use crate::cases::Case::{self, InIndex, InPlain};
use crate::cases::shows;
use crate::changes::{Changed, NULL, Planned};
use crate::statements::Doing::Insert;
use crate::steps::Step::{self, Follow, Run};

// Rows 1 and 2 swapped the keys 1 and 2; rows 3 and 4 refer to what they were.
const SWAPPED: Step = Run(Insert(&[(2, Some(3)), (1, Some(4)), (3, Some(1)), (4, Some(2))]));

// UPDATE t SET k = 3 - k WHERE k < 3.
const SWAPS: [Step; 2] = [
    SWAPPED,
    Follow(Planned(
        &[],
        &[
            Changed(0, 1, &[1, 3], &[2, 3]),
            Changed(0, 2, &[2, 4], &[1, 4]),
        ],
    )),
];

// DELETE FROM t WHERE k > 5, of rows that were numbered 5 and 6.
const GOES: [Step; 2] = [
    SWAPPED,
    Follow(Planned(
        &[],
        &[Changed(0, 5, &[8, NULL], &[]), Changed(0, 6, &[9, 8], &[])],
    )),
];

static IN_BOTH: [Case; 4] = [
    InPlain(&SWAPS),
    InIndex(&SWAPS),
    InPlain(&GOES),
    InIndex(&GOES),
];

// The second is restricted by a row that goes too.
#[test]
fn swapped_keys_cascade_and_a_lost_key_is_restricted(rt: HostRuntime) {
    let wanted = "4, 0 3: 3 1 to 3 2, 0 4: 4 2 to 4 1, on 0 1, done; \
                  4, 0 3: 3 1 to 3 2, 0 4: 4 2 to 4 1, on 0 1, done; \
                  4, restrict 1 at 6; 4, restrict 1 at 6; ";
    shows(&rt, rt.alloc(), &IN_BOTH, wanted);
}
