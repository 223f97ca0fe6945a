//! What is done to groups, as data, and what they tell, as text. What a step tells ends with a bar.
use crate::asserted::assert_that;
use crate::cells::{Cell, row_of};
use crate::shown::{compare, show, show_count, show_numbers};
use crate::{checked, gaps, giving, hundred};
use iv_key::Key;
use iv_numbers::HeldRows;
use iv_store_groups::Groups;
use iv_value::Value;
use std::alloc::Global;
use std::panic::Expect;
use std::process::Abort;

/// The places of a key's values among those of all keys.
pub type Columns = &'static [u32];

/// The key 1, the key 2 and the key 3.
pub const ONE: Columns = &[0];

pub const TWO: Columns = &[1];

pub const THREE: Columns = &[2];
/// The key of the least integer.
pub const LEAST: Columns = &[3];
/// The key of the integer that has the hash of the key of one null.
pub const MET: Columns = &[9];
/// The keys of one null and of two.
pub const NULL: Columns = &[4];

pub const TWO_NULLS: Columns = &[4, 4];
/// Keys of two texts.
pub const AB_C: Columns = &[5, 6];

pub const C_AB: Columns = &[6, 5];

pub const A_BC: Columns = &[7, 8];

pub const BC_A: Columns = &[8, 7];

// The values of all keys.
const GIVEN: [Cell; 10] = [
    Cell::Int(1),
    Cell::Int(2),
    Cell::Int(3),
    Cell::Int(-9_223_372_036_854_775_808),
    Cell::Null,
    Cell::Word("ab"),
    Cell::Word("c"),
    Cell::Word("a"),
    Cell::Word("bc"),
    Cell::Int(7_541_581_120_933_061_747),
];

/// A thing that is done to the groups of all constraints, or told of them.
#[derive(Clone, Copy)]
pub enum Step {
    /// There are so many constraints at least.
    Cover(usize),
    /// How many constraints there are.
    Constraints,
    /// How many look-ups there were.
    LookedUp,
    /// All groups of a constraint go.
    Clear(usize),
    /// What is due is given back.
    Settle,
    /// How many steps are due, which are then due no more.
    Due,
    /// A group without rows goes, or the room of one with rows: whether there were none.
    GiveBack(usize, usize),
    /// How many groups a constraint has.
    Groups(usize),
    /// The rows of a constraint's group at a place.
    RowsAt(usize, usize),
    /// A thing that is done to the group of a key of a constraint.
    Under(usize, Columns, Act),
}

/// A thing that is done to the group of a key, or told of it.
#[derive(Clone, Copy)]
pub enum Act {
    /// A row comes.
    Add(u64),
    /// Room is made.
    MakeRoom,
    /// A row comes back: the place of the group.
    PutBack(u64),
    /// A row goes: the place of the group.
    Remove(u64),
    /// The rows 0 to 99 come.
    AddAll,
    /// They come back.
    PutAll,
    /// They go.
    RemoveAll,
    /// Rows leave anywhere and come back: in how many turns all were there that should be.
    LeaveAnywhere,
    /// The rows, which is a look-up.
    Rows,
    /// The rows, which isn't.
    Holders,
    /// The place of the group.
    Place,
    /// How many more rows the key takes without an allocation.
    Room,
}

fn show_held(rt: &impl Abort, alloc: Global, held: &HeldRows<'_>, shown: &mut String) {
    let rows = held.to_vec(alloc).expect(rt, "memory");
    show_numbers(rt, rows.as_slice(), shown);
    drop(rows);
}

// The rows at a place that there is.
fn show_rows_at(
    rt: &impl Abort,
    alloc: Global,
    groups: &Groups,
    constraint: usize,
    place: usize,
    shown: &mut String,
) {
    assert_that(rt, place < groups.count_groups(constraint), "no such group");
    show_held(rt, alloc, &groups.rows_at(constraint, place), shown);
}

// The place of a group, if there is one.
fn show_place(rt: &impl Abort, place: Option<usize>, shown: &mut String) {
    match place {
        Some(place) => show_count(rt, place as u64, shown),
        None => show(rt, "none | ", shown),
    }
}

fn act_under(
    rt: &impl Abort,
    alloc: Global,
    groups: &mut Groups,
    constraint: usize,
    key: &Key<'_>,
    act: Act,
    shown: &mut String,
) {
    match act {
        Act::Add(row) => checked::add(rt, groups, constraint, key, row),
        Act::MakeRoom => checked::make_room(rt, groups, constraint, key),
        Act::PutBack(row) => {
            let place = checked::put_back(rt, groups, constraint, key, row);
            show_count(rt, place as u64, shown)
        }
        Act::Remove(row) => {
            let place = checked::remove(rt, groups, constraint, key, row);
            show_count(rt, place as u64, shown)
        }
        Act::AddAll => hundred::add_all(rt, groups, constraint, key),
        Act::PutAll => hundred::put_all(rt, groups, constraint, key),
        Act::RemoveAll => hundred::remove_all(rt, groups, constraint, key),
        Act::LeaveAnywhere => gaps::show_alike(rt, alloc, groups, constraint, key, shown),
        Act::Rows => show_numbers(rt, groups.rows(constraint, key), shown),
        Act::Holders => show_held(rt, alloc, &groups.holders(constraint, key), shown),
        Act::Place => show_place(rt, groups.place(constraint, key), shown),
        Act::Room => show_count(rt, groups.room(constraint, key), shown),
    }
}

fn take(
    rt: &impl Abort,
    alloc: Global,
    groups: &mut Groups,
    values: &[Value],
    step: Step,
    shown: &mut String,
) {
    match step {
        Step::Cover(count) => groups.cover(count).expect(rt, "memory"),
        Step::Constraints => show_count(rt, groups.constraints() as u64, shown),
        Step::LookedUp => show_count(rt, groups.looked_up(), shown),
        Step::Clear(constraint) => checked::clear(rt, groups, constraint),
        Step::Settle => giving::settle(groups),
        Step::Due => show_count(rt, groups.take_due(), shown),
        Step::GiveBack(constraint, place) => {
            let dead = checked::give_back(rt, groups, constraint, place);
            show_count(rt, u64::from(dead), shown)
        }
        Step::Groups(constraint) => show_count(rt, groups.count_groups(constraint) as u64, shown),
        Step::RowsAt(constraint, place) => {
            show_rows_at(rt, alloc, groups, constraint, place, shown)
        }
        Step::Under(constraint, columns, act) => act_under(
            rt,
            alloc,
            groups,
            constraint,
            &Key::new(columns, values),
            act,
            shown,
        ),
    }
}

fn take_each(
    rt: &impl Abort,
    alloc: Global,
    groups: &mut Groups,
    values: &[Value],
    steps: &[Step],
    shown: &mut String,
) {
    for step in steps {
        take(rt, alloc, groups, values, *step, shown);
    }
}

/// Asserts what steps from no constraint on tell.
pub fn shows(rt: &impl Abort, alloc: Global, steps: &[Step], wanted: &str) {
    let row = row_of(rt, alloc, &GIVEN);
    let mut groups = Groups::new(alloc);
    let mut shown = String::new(alloc);
    take_each(rt, alloc, &mut groups, row.values(), steps, &mut shown);
    drop(groups);
    drop(row);
    compare(rt, "groups", shown.as_str(), wanted);
}
