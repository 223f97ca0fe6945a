//! A hundred rows of one key that come, go and come back.
use crate::checked;
use iv_key::Key;
use iv_store_groups::Groups;
use std::process::Abort;

/// Adds the rows 0 to 99.
pub fn add_all(rt: &impl Abort, groups: &mut Groups, constraint: usize, key: &Key<'_>) {
    for row in 0..100u64 {
        checked::add(rt, groups, constraint, key, row);
    }
}

// The numbers below 100: the even ones falling, then the odd ones rising.
fn removed_at(turn: u64) -> u64 {
    if turn < 50 {
        98u64.wrapping_sub(turn.wrapping_mul(2))
    } else {
        turn.wrapping_sub(50).wrapping_mul(2).wrapping_add(1)
    }
}

/// Removes the even numbers below 100 falling, then the odd ones rising.
pub fn remove_all(rt: &impl Abort, groups: &mut Groups, constraint: usize, key: &Key<'_>) {
    for turn in 0..100u64 {
        checked::remove(rt, groups, constraint, key, removed_at(turn));
    }
}

// The numbers below 100: the odd ones rising, after each an even one falling.
fn put_at(turn: u64) -> u64 {
    if turn % 2 == 0 {
        turn.wrapping_add(1)
    } else {
        99u64.wrapping_sub(turn)
    }
}

/// Puts the odd numbers below 100 back rising, after each an even one falling.
pub fn put_all(rt: &impl Abort, groups: &mut Groups, constraint: usize, key: &Key<'_>) {
    for turn in 0..100u64 {
        checked::put_back(rt, groups, constraint, key, put_at(turn));
    }
}
