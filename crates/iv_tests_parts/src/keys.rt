//! The rows of keys of one column and of two, of texts and of nulls.
use crate::group_steps::Act::{Add, Holders, Place, Remove, Room, Rows};
use crate::group_steps::Step::{Cover, LookedUp, Under};
use crate::group_steps::{A_BC, AB_C, BC_A, C_AB, LEAST, MET, NULL, ONE, Step, TWO_NULLS, shows};

const ONE_KEY: [Step; 8] = [
    Cover(1),
    Under(0, ONE, Add(5)),
    Under(0, ONE, Add(3)),
    Under(0, ONE, Rows),
    Under(0, ONE, Remove(5)),
    LookedUp,
    Under(0, ONE, Holders),
    Under(0, ONE, Room),
];

#[test]
fn rows_of_one_key_rise(rt: HostRuntime) {
    shows(&rt, rt.alloc(), &ONE_KEY, "3 5 | 0 | 4 | 3 | 1 | ");
}

// The texts of the first two keys make the same text together, and the third has those of the first in another order.
const TEXTS: [Step; 8] = [
    Cover(1),
    Under(0, AB_C, Add(1)),
    Under(0, A_BC, Add(2)),
    Under(0, C_AB, Add(3)),
    Under(0, AB_C, Rows),
    Under(0, A_BC, Rows),
    Under(0, C_AB, Rows),
    Under(0, BC_A, Rows),
];

#[test]
fn keys_of_texts_are_apart(rt: HostRuntime) {
    shows(&rt, rt.alloc(), &TEXTS, "1 | 2 | 3 | | ");
}

// Null has the hash of one byte by SipHash, and an integer is its own hash: this one is found behind null.
const NULLS: [Step; 11] = [
    Cover(1),
    Under(0, NULL, Add(8)),
    Under(0, MET, Add(9)),
    Under(0, LEAST, Add(7)),
    Under(0, NULL, Rows),
    Under(0, MET, Rows),
    Under(0, LEAST, Rows),
    Under(0, TWO_NULLS, Rows),
    Under(0, NULL, Place),
    Under(0, MET, Place),
    Under(0, LEAST, Place),
];

#[test]
fn null_is_a_key_of_its_own(rt: HostRuntime) {
    shows(&rt, rt.alloc(), &NULLS, "8 | 9 | 7 | | 0 | 1 | 2 | ");
}
