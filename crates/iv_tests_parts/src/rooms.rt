//! Room that is made, taken and given back, the places of groups, and rows that go and come back.
use crate::group_steps::Act::{
    Add, AddAll, Holders, LeaveAnywhere, MakeRoom, Place, PutAll, PutBack, Remove, RemoveAll, Room,
};
use crate::group_steps::Step::{Cover, Groups, LookedUp, RowsAt, Under};
use crate::group_steps::{ONE, Step, THREE, TWO, shows};

// Room is asked for twice if there is none, and once more if it is taken.
const ROOMS: [Step; 13] = [
    Cover(1),
    Under(0, ONE, Room),
    Under(0, ONE, MakeRoom),
    Under(0, ONE, MakeRoom),
    Under(0, ONE, Room),
    Under(0, ONE, PutBack(9)),
    Under(0, ONE, Room),
    Under(0, ONE, MakeRoom),
    Under(0, ONE, PutBack(9)),
    Under(0, ONE, Room),
    Under(0, ONE, Remove(9)),
    Under(0, ONE, Room),
    LookedUp,
];

#[test]
fn room_is_made_and_taken(rt: HostRuntime) {
    let wanted = "0 | 1 | 0 | 0 | 0 | 1 | 0 | 2 | 6 | ";
    shows(&rt, rt.alloc(), &ROOMS, wanted);
}

// The key 1 has room and no row at first, and the key 2 has a row that goes.
const PLACES: [Step; 12] = [
    Cover(1),
    Under(0, ONE, MakeRoom),
    Under(0, TWO, Add(7)),
    RowsAt(0, 1),
    Under(0, ONE, Place),
    Under(0, TWO, Place),
    Under(0, THREE, Place),
    Under(0, ONE, PutBack(9)),
    Under(0, TWO, Remove(7)),
    RowsAt(0, 0),
    RowsAt(0, 1),
    Groups(0),
];

#[test]
fn groups_stay_at_their_places(rt: HostRuntime) {
    let wanted = "7 | 0 | 1 | none | 0 | 1 | 9 | | 2 | ";
    shows(&rt, rt.alloc(), &PLACES, wanted);
}

const HUNDRED: [Step; 8] = [
    Cover(1),
    Under(0, ONE, AddAll),
    Under(0, ONE, RemoveAll),
    Under(0, ONE, Holders),
    Under(0, ONE, Room),
    Under(0, ONE, PutAll),
    Under(0, ONE, Holders),
    Under(0, ONE, Room),
];

#[test]
fn rows_come_back(rt: HostRuntime) {
    let wanted = "| 100 | \
        0 1 2 3 4 5 6 7 8 9 10 11 12 13 14 15 16 17 18 19 20 21 22 23 24 25 26 27 28 29 30 31 32 33 \
        34 35 36 37 38 39 40 41 42 43 44 45 46 47 48 49 50 51 52 53 54 55 56 57 58 59 60 61 62 63 64 \
        65 66 67 68 69 70 71 72 73 74 75 76 77 78 79 80 81 82 83 84 85 86 87 88 89 90 91 92 93 94 95 \
        96 97 98 99 | 0 | ";
    shows(&rt, rt.alloc(), &HUNDRED, wanted);
}

const ANYWHERE: [Step; 2] = [Cover(1), Under(0, ONE, LeaveAnywhere)];

// Nine turns in which the rows come; then, for n from 1 to 9, there are 10 - n pairs of places that are n apart, with
// 2 n + 4 turns each: 2 (1 * 9 + 2 * 8 + .. + 9 * 1) = 330 and 4 * 45 = 180.
#[test]
fn rows_leave_and_come_back_everywhere(rt: HostRuntime) {
    shows(&rt, rt.alloc(), &ANYWHERE, "519 | ");
}
