//! Rows that leave a group anywhere and come back, beside a plain set. A row that isn't in it comes to both, and one that
//! is in it leaves both.
use crate::checked;
use crate::shown::show_count;
use iv_key::Key;
use iv_store_groups::Groups;
use std::alloc::Global;
use std::panic::Expect;
use std::process::Abort;

// The rows are 10, 20, .., 90, and 5, 15, .., 95 come between them.
fn row_at(place: u64) -> u64 {
    place.wrapping_add(1).wrapping_mul(10)
}

fn row_before(place: u64) -> u64 {
    row_at(place).wrapping_sub(5)
}

// The row of a turn. The rows of the places from one on, up to another, leave in rising order, and come back in falling
// order. Then a row comes before the one of the first place, and one before that of the other, and both leave.
fn row_of_turn(from: u64, to: u64, turn: u64) -> u64 {
    let rows = to.wrapping_sub(from);
    if turn < rows {
        row_at(from.wrapping_add(turn))
    } else if turn < rows.wrapping_mul(2) {
        row_at(from.wrapping_add(rows.wrapping_mul(2).wrapping_sub(1).wrapping_sub(turn)))
    } else if turn % 2 == 0 {
        row_before(from)
    } else {
        row_before(to)
    }
}

// How many turns there are.
fn count_turns(from: u64, to: u64) -> u64 {
    if from == to {
        0
    } else {
        to.wrapping_sub(from).wrapping_mul(2).wrapping_add(4)
    }
}

fn push_turns(rt: &impl Abort, from: u64, to: u64, rows: &mut Vec<u64>) {
    for turn in 0..count_turns(from, to) {
        rows.push(row_of_turn(from, to, turn)).expect(rt, "memory");
    }
}

// The nine rows, which come.
fn push_nine(rt: &impl Abort, rows: &mut Vec<u64>) {
    for place in 0..9u64 {
        rows.push(row_at(place)).expect(rt, "memory");
    }
}

// The rows of the turns from and to each place of the group.
fn push_all(rt: &impl Abort, rows: &mut Vec<u64>) {
    for from in 0..10u64 {
        for to in from..10 {
            push_turns(rt, from, to, rows);
        }
    }
}

// A set of rows has a bit for each, and these are the bits of a row: none if it isn't one of those above.
fn bit_of(row: u64) -> u64 {
    match row {
        5..=95 if row % 5 == 0 => 1u64.wrapping_shl((row / 5) as u32),
        _ => 0,
    }
}

// The set of rows that rise; else none.
fn set_of(rows: &[u64]) -> u64 {
    let mut set = 0u64;
    for row in rows {
        if bit_of(*row) <= set {
            return 0;
        }
        set |= bit_of(*row);
    }
    set
}

// The set of the rows of a key.
fn held(rt: &impl Abort, alloc: Global, groups: &Groups, constraint: usize, key: &Key<'_>) -> u64 {
    let held = groups.holders(constraint, key);
    let rows = held.to_vec(alloc).expect(rt, "memory");
    let set = set_of(rows.as_slice());
    drop(rows);
    set
}

// A row goes where it is in the set, and comes if it isn't.
fn turn_about(
    rt: &impl Abort,
    groups: &mut Groups,
    constraint: usize,
    key: &Key<'_>,
    set: u64,
    row: u64,
) {
    if set & bit_of(row) == 0 {
        checked::add(rt, groups, constraint, key, row);
    } else {
        checked::remove(rt, groups, constraint, key, row);
    }
}

// In how many turns the rows of the key are those of the set.
fn count_alike(
    rt: &impl Abort,
    alloc: Global,
    groups: &mut Groups,
    constraint: usize,
    key: &Key<'_>,
    rows: &[u64],
) -> u64 {
    let mut set = 0u64;
    let mut alike = 0u64;
    for row in rows {
        turn_about(rt, groups, constraint, key, set, *row);
        set ^= bit_of(*row);
        let is_alike = held(rt, alloc, groups, constraint, key) == set;
        alike = alike.wrapping_add(u64::from(is_alike));
    }
    alike
}

/// In how many of all turns the rows of a key are those of the set, the nine included.
pub fn show_alike(
    rt: &impl Abort,
    alloc: Global,
    groups: &mut Groups,
    constraint: usize,
    key: &Key<'_>,
    shown: &mut String,
) {
    let mut rows = Vec::new(alloc);
    push_nine(rt, &mut rows);
    push_all(rt, &mut rows);
    let alike = count_alike(rt, alloc, groups, constraint, key, rows.as_slice());
    drop(rows);
    show_count(rt, alike, shown);
}
