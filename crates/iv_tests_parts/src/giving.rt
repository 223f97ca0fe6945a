//! Keys that come and go, and what is given back of their groups.
use crate::checked;
use crate::group_steps::Act::{
    Add, AddAll, Holders, MakeRoom, Place, PutBack, Remove, RemoveAll, Room, Rows,
};
use crate::group_steps::Step::{Cover, Due, GiveBack, Groups as Count, LookedUp, Settle, Under};
use crate::group_steps::{AB_C, LEAST, MET, NULL, ONE, Step, THREE, TWO, shows};
use crate::shown::{compare, show_count};
use iv_key::Key;
use iv_store_groups::Groups;
use iv_value::Value;
use std::alloc::Global;
use std::panic::Expect;
use std::process::Abort;

/// Gives back what is due.
pub fn settle(groups: &mut Groups) {
    let steps = groups.take_due();
    for _ in 0..steps {
        if let Some(at) = groups.step() {
            groups.give_back(at.constraint, at.place);
        }
    }
}

// The group of the key 1 has no row, and that of the key 3 comes to its place.
const ANOTHER_COMES: [Step; 14] = [
    Cover(1),
    Under(0, ONE, MakeRoom),
    Under(0, TWO, Add(7)),
    Under(0, THREE, Add(8)),
    GiveBack(0, 0),
    Count(0),
    Under(0, ONE, Place),
    Under(0, TWO, Place),
    Under(0, THREE, Place),
    Under(0, ONE, Room),
    GiveBack(0, 0),
    Under(0, THREE, Rows),
    Under(0, ONE, Add(9)),
    Under(0, ONE, Place),
];

#[test]
fn the_last_group_comes_to_the_place(rt: HostRuntime) {
    let wanted = "1 | 2 | none | 1 | 0 | 0 | 0 | 8 | 2 | ";
    shows(&rt, rt.alloc(), &ANOTHER_COMES, wanted);
}

// Three keys come and go, so that twelve steps are due. A round has three groups and two steps more, and is enough.
const ROUND: [Step; 13] = [
    Cover(1),
    Under(0, ONE, Add(7)),
    Under(0, TWO, Add(8)),
    Under(0, AB_C, Add(9)),
    Under(0, ONE, Remove(7)),
    Under(0, TWO, Remove(8)),
    Under(0, AB_C, Remove(9)),
    LookedUp,
    Settle,
    Count(0),
    LookedUp,
    Due,
    Under(0, TWO, Rows),
];

#[test]
fn a_round_finds_all_groups_without_rows(rt: HostRuntime) {
    let wanted = "0 | 1 | 2 | 6 | 0 | 6 | 0 | | ";
    shows(&rt, rt.alloc(), &ROUND, wanted);
}

// Five steps are a round: two groups, two constraints and the way from the last to the first.
const STEPS: [Step; 8] = [
    Cover(2),
    Due,
    Under(0, ONE, Add(7)),
    Due,
    Under(0, TWO, Add(8)),
    Under(0, ONE, Remove(7)),
    Under(0, TWO, Remove(8)),
    Due,
];

#[test]
fn no_more_than_a_round_is_due(rt: HostRuntime) {
    shows(&rt, rt.alloc(), &STEPS, "0 | 1 | 0 | 1 | 5 | ");
}

// The first two keys have one hash. Each is found after the other has gone, and after both have come again.
const ONE_HASH: [Step; 16] = [
    Cover(1),
    Under(0, NULL, Add(8)),
    Under(0, MET, Add(9)),
    Under(0, LEAST, Add(7)),
    Under(0, NULL, Remove(8)),
    Settle,
    Count(0),
    Under(0, NULL, Place),
    Under(0, MET, Rows),
    Under(0, NULL, Add(5)),
    Under(0, MET, Remove(9)),
    Settle,
    Count(0),
    Under(0, MET, Place),
    Under(0, NULL, Rows),
    Under(0, LEAST, Rows),
];

#[test]
fn keys_of_one_hash_go(rt: HostRuntime) {
    let wanted = "0 | 2 | none | 9 | 1 | 2 | none | 5 | 7 | ";
    shows(&rt, rt.alloc(), &ONE_HASH, wanted);
}

// A hundred rows of one key come, and all except one go. It keeps that row, and its room goes.
const ROOM: [Step; 12] = [
    Cover(1),
    Under(0, ONE, AddAll),
    Under(0, ONE, RemoveAll),
    Under(0, ONE, PutBack(5)),
    Under(0, ONE, Room),
    Settle,
    Under(0, ONE, Holders),
    Under(0, ONE, Room),
    Under(0, ONE, MakeRoom),
    Under(0, ONE, PutBack(9)),
    Under(0, ONE, Holders),
    Under(0, ONE, Room),
];

#[test]
fn room_is_given_up(rt: HostRuntime) {
    shows(&rt, rt.alloc(), &ROOM, "0 | 99 | 5 | 0 | 0 | 5 9 | 0 | ");
}

// A key of one integer or, for odd numbers, of two.
fn columns_of(number: i64) -> &'static [u32] {
    if number % 2 == 0 { &[0] } else { &[0, 1] }
}

fn come(rt: &impl Abort, groups: &mut Groups, number: i64) {
    let values = [Value::Int(number), Value::Int(7)];
    let key = Key::new(columns_of(number), &values);
    checked::make_room(rt, groups, 0, &key);
    checked::put_back(rt, groups, 0, &key, number.cast_unsigned());
}

fn go(rt: &impl Abort, groups: &mut Groups, number: i64) {
    let values = [Value::Int(number), Value::Int(7)];
    let key = Key::new(columns_of(number), &values);
    checked::remove(rt, groups, 0, &key, number.cast_unsigned());
}

// The key of a number comes, and the one goes that is so many before it.
fn come_and_go(rt: &impl Abort, groups: &mut Groups, number: i64, live: i64) {
    come(rt, groups, number);
    if number > live {
        go(rt, groups, number.wrapping_sub(live));
    }
}

// The keys of so many numbers behind the last one come, and as many go; then it is settled. The last number.
fn go_on(rt: &impl Abort, groups: &mut Groups, last: i64, count: u64, live: i64) -> i64 {
    let mut number = last;
    for _ in 0..count {
        number = number.wrapping_add(1);
        come_and_go(rt, groups, number, live);
    }
    settle(groups);
    number
}

// After how many of so many settles there were more groups.
fn count_too_many(
    rt: &impl Abort,
    groups: &mut Groups,
    live: i64,
    settles: u64,
    every: u64,
    most: usize,
) -> u64 {
    let mut number = 0i64;
    let mut count = 0u64;
    for _ in 0..settles {
        number = go_on(rt, groups, number, every, live);
        count = count.wrapping_add(u64::from(groups.count_groups(0) > most));
    }
    count
}

// Keys come one after the other, and so many of them live. A key that comes and one that goes make four steps due, so a round
// over n groups takes n / 3 such pairs at most, and each pair leaves one group without rows: there are fewer than two
// for each key that lives.
fn stays_bounded(rt: &impl Abort, alloc: Global, live: i64, settles: u64, every: u64, most: usize) {
    let mut groups = Groups::new(alloc);
    groups.cover(1).expect(rt, "memory");
    let count = count_too_many(rt, &mut groups, live, settles, every, most);
    let mut shown = String::new(alloc);
    show_count(rt, count, &mut shown);
    drop(groups);
    compare(rt, "groups", shown.as_str(), "0 | ");
}

#[test]
fn one_key_at_a_time_has_one_group(rt: HostRuntime) {
    stays_bounded(&rt, rt.alloc(), 1, 500, 1, 1);
}

#[test]
fn groups_stay_within_twice_the_keys(rt: HostRuntime) {
    stays_bounded(&rt, rt.alloc(), 50, 2000, 1, 100);
}

#[test]
fn many_keys_may_go_at_once(rt: HostRuntime) {
    stays_bounded(&rt, rt.alloc(), 50, 20, 100, 50);
}
