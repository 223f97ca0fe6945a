//! What is done to versions, as data, and what they tell, as text. What a step tells ends with a bar.
ghost use Rattle.std.specs.Prelude.{◌≡◌, ◌<◌, ◌≤◌, length};

use crate::asserted::assert_that;
use crate::rows::change_to;
use crate::shown::{compare, show, show_count, show_number, show_some};
use iv_expr::{Rows, TableId};
use iv_store_rows::Versions;
use iv_value::Value;
use std::alloc::Global;
use std::panic::Expect;
use std::process::Abort;

// No table of a test has more rows.
const MOST_ROWS: u64 = 10;

/// A thing that is done to versions, or told of them.
#[derive(Clone, Copy)]
pub enum Step {
    /// The row of a number of a table comes or changes to only this integer.
    Put(u32, u64, i64),
    /// The row of a number of a table goes.
    Gone(u32, u64),
    /// A mark is set.
    Mark,
    /// Back to the mark of a place.
    UndoTo(usize),
    /// Back to the mark of a place, step by step: the row of each change that is taken back.
    StepBackTo(usize),
    /// Back to the mark of a place, which goes.
    Undo(usize),
    /// All is settled.
    Settle,
    /// The rows of a table: of each its number and its integer.
    Rows(u32),
    /// The number of the next row of a table after this one.
    After(u32, u64),
    /// The integer of the row of a number.
    Row(u64),
    /// The number of the next new row.
    Next,
    /// How many changes are counted.
    Count,
}

// Changes a row of a table.
fn set(
    rt: &impl Abort,
    alloc: Global,
    versions: &mut Versions,
    table: u32,
    number: u64,
    integer: Option<i64>,
)
    ensures { versions.new.marks ≡ versions.old.marks }
{
    let change = change_to(rt, alloc, versions, table, number, integer);
    versions.change(&change).expect(rt, "memory");
    drop(change);
}

// The integer of a row, if it is of one that isn't negative.
fn integer_in(values: &[Value]) -> Option<u64> {
    match values {
        [Value::Int(integer)] => u64::try_from(*integer).ok(),
        _ => None,
    }
}

fn show_row(rt: &impl Abort, versions: &Versions, number: u64, shown: &mut String) {
    match versions.row(number) {
        Some(row) => show_some(rt, integer_in(row.values.values()), shown),
        None => show(rt, "no row | ", shown),
    }
}

fn show_rows(rt: &impl Abort, versions: &Versions, table: u32, shown: &mut String) {
    let mut after = 0;
    for _ in 0..MOST_ROWS {
        let Some((number, values)) = versions.scan(TableId::new(table), after) else {
            break;
        };
        show_number(rt, "", number, ":", shown);
        show_number(rt, "", integer_in(values).unwrap_or(0), " ", shown);
        after = number;
    }
    show(rt, "| ", shown);
}

fn show_after(rt: &impl Abort, versions: &Versions, table: u32, number: u64, shown: &mut String) {
    match versions.scan(TableId::new(table), number) {
        Some((next, _)) => show_count(rt, next, shown),
        None => show(rt, "no row | ", shown),
    }
}

// Takes a step that leaves the marks as they are.
fn change_or_show(
    rt: &impl Abort,
    alloc: Global,
    versions: &mut Versions,
    step: Step,
    shown: &mut String,
)
    ensures { versions.new.marks ≡ versions.old.marks }
{
    match step {
        Step::Put(table, number, integer) => {
            set(rt, alloc, versions, table, number, Some(integer))
        }
        Step::Gone(table, number) => set(rt, alloc, versions, table, number, None),
        Step::Rows(table) => show_rows(rt, versions, table, shown),
        Step::After(table, number) => show_after(rt, versions, table, number, shown),
        Step::Row(number) => show_row(rt, versions, number, shown),
        Step::Next => show_count(rt, versions.next(), shown),
        Step::Count => show_count(rt, versions.count(), shown),
        _ => rt.panic("a step that is none of these"),
    }
}

// Goes back to a mark step by step, and shows the row of each change.
fn step_back_to(rt: &impl Abort, versions: &mut Versions, place: usize, shown: &mut String)
    requires { place < length versions.old.marks }
    ensures { place < length versions.new.marks }
{
    while let Some(change) = versions.last_change(place) {
        show_number(rt, "", change.row, " ", shown);
        versions.step_back(place);
    }
    versions.undo_to(place);
    show(rt, "| ", shown);
}

// Takes a step that goes back to a mark, and tells how many marks there are then.
fn go_back(
    rt: &impl Abort,
    versions: &mut Versions,
    step: Step,
    place: usize,
    shown: &mut String,
) -> usize
    requires { place < length versions.old.marks }
    ensures { result ≤ length versions.new.marks }
{
    match step {
        Step::UndoTo(_) => {
            versions.undo_to(place);
            place.saturating_add(1)
        }
        Step::StepBackTo(_) => {
            step_back_to(rt, versions, place, shown);
            place.saturating_add(1)
        }
        _ => {
            versions.undo(place);
            place
        }
    }
}

// Takes a step if there are so many marks, and tells how many there are then.
fn take(
    rt: &impl Abort,
    alloc: Global,
    versions: &mut Versions,
    marks: usize,
    step: Step,
    shown: &mut String,
) -> usize
    requires { marks ≤ length versions.old.marks }
    ensures { result ≤ length versions.new.marks }
{
    match step {
        Step::Mark => versions.mark().expect(rt, "memory").saturating_add(1),
        Step::Settle => {
            versions.settle();
            0
        }
        Step::UndoTo(place) | Step::StepBackTo(place) | Step::Undo(place) => {
            assert_that(rt, place < marks, "no such mark");
            go_back(rt, versions, step, place, shown)
        }
        _ => {
            change_or_show(rt, alloc, versions, step, shown);
            marks
        }
    }
}

fn take_each(
    rt: &impl Abort,
    alloc: Global,
    versions: &mut Versions,
    steps: &[Step],
    shown: &mut String,
) {
    let mut marks = 0usize;
    for step in steps {
        marks = take(rt, alloc, versions, marks, *step, shown);
    }
}

/// Asserts what steps from no row on tell.
pub fn shows(rt: &impl Abort, alloc: Global, steps: &[Step], wanted: &str) {
    let mut versions = Versions::new(alloc);
    let mut shown = String::new(alloc);
    take_each(rt, alloc, &mut versions, steps, &mut shown);
    drop(versions);
    compare(rt, "versions", shown.as_str(), wanted);
}
