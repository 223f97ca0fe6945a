//! A statement with all that follows from it, and a query, over both stores.
use crate::cases::Case::{self, InIndex, InPlain};
use crate::cases::shows;
use crate::statements::Doing::{Insert, SetFirst, Shift};
use crate::steps::Query::{Above2, Count};
use crate::steps::Step::{self, Explain, Run, Select};

// Rows 1 to 3 are there, and each is shifted by one. Then all become 7.
const SHIFT: [Step; 7] = [
    Run(Insert(&[(1, None)])),
    Run(Insert(&[(2, None)])),
    Run(Insert(&[(3, None)])),
    Run(Shift),
    Select(Above2),
    Select(Count),
    Run(SetFirst(7)),
];

// Rows 1 to 3 hold 2 to 4, and become 7. Row 1 is then one of two with the key 7, and row 2 is the first other.
const LEVEL: [Step; 5] = [
    Run(Insert(&[(1, None)])),
    Run(Insert(&[(2, None)])),
    Run(Insert(&[(3, None)])),
    Run(Shift),
    Explain(SetFirst(7)),
];

static IN_BOTH: [Case; 4] = [
    InPlain(&SHIFT),
    InIndex(&SHIFT),
    InPlain(&LEVEL),
    InIndex(&LEVEL),
];

#[test]
fn unique_after_a_shift_and_an_account_of_a_refused_update(rt: HostRuntime) {
    let wanted = "1, 1, 1, 3,  3 null 4 null,  3, violates 0 at 1; \
                  1, 1, 1, 3,  3 null 4 null,  3, violates 0 at 1; \
                  1, 1, 1, 3, \
                  changed 0 1: 2 null to 7 null, 0 2: 3 null to 7 null, 0 3: 4 null to 7 null, \
                  faulted 0 at 1, 0 1: 7 null, 0 2: 7 null, violates 0 at 1; \
                  1, 1, 1, 3, \
                  changed 0 1: 2 null to 7 null, 0 2: 3 null to 7 null, 0 3: 4 null to 7 null, \
                  faulted 0 at 1, 0 1: 7 null, 0 2: 7 null, violates 0 at 1; ";
    shows(&rt, rt.alloc(), &IN_BOTH, wanted);
}
