//! Random changes of three tables, forwards and backwards: both stores show the same after each.
use crate::demand::Columns::{One, Two};
use crate::demand::Demand::{Above, NotNull, PrimaryKey, References, Unique, UniqueNulls};
use crate::demand::{Demand, Reference};
use crate::numbers::Numbers;
use crate::schema::Cell;
use crate::shown::{BY_MODE, show_each, show_number};
use crate::story::{Step, add_table, compare, offer, take_each};
use crate::tested::Tested;
use iv_catalogue::ConstraintId;
use iv_machine::Which;
use iv_modes::Modes;
use iv_store::{ChangeableRows, Keeper, ReferencingRows};
use iv_store_index::IndexStore;
use iv_store_plain::PlainStore;
use iv_syntax::ConstraintMode::{Deferred, Immediate};
use iv_syntax::MatchType::{Full, Simple};
use iv_value::Kind;
use std::alloc::Global;
use std::panic::Expect;
use std::process::Abort;

const STEPS: u64 = 300;

// Rows that change have numbers up to this one.
const MOST_ROWS: u64 = 16;

const MOST_MARKS: usize = 6;

static KINDS: [Kind; 3] = [Kind::Integer, Kind::Integer, Kind::Varchar(3)];

static INTEGERS: [Kind; 3] = [Kind::Integer, Kind::Integer, Kind::Integer];

// Table 0: a key, and a UNIQUE of an integer and a text.
static FIRST: [Demand; 2] = [PrimaryKey(One(0)), Unique(Two(1, 2))];

// Table 1: a key of two columns, and a reference to table 0.
static SECOND: [Demand; 2] = [
    PrimaryKey(Two(0, 1)),
    References(Reference {
        columns: One(0),
        matching: Simple,
        referenced: 0,
        key: One(0),
        mode: Some(Immediate),
    }),
];

// Table 2: references to the key of table 1, whose columns come in another order, and to table 0.
static THIRD: [Demand; 5] = [
    UniqueNulls(One(0)),
    References(Reference {
        columns: Two(1, 2),
        matching: Full,
        referenced: 1,
        key: Two(1, 0),
        mode: Some(Deferred),
    }),
    References(Reference {
        columns: One(2),
        matching: Simple,
        referenced: 0,
        key: One(0),
        mode: None,
    }),
    Above(0, 1),
    NotNull(1),
];

// Table 0 also references table 2, whose key may be null once, and itself; its UNIQUE is there once more for nulls.
static LAST: [Demand; 3] = [
    References(Reference {
        columns: One(1),
        matching: Simple,
        referenced: 2,
        key: One(0),
        mode: Some(Deferred),
    }),
    References(Reference {
        columns: One(1),
        matching: Full,
        referenced: 0,
        key: One(0),
        mode: None,
    }),
    UniqueNulls(Two(1, 2)),
];

fn add_tables<K: Keeper + Drop>(
    rt: &impl Abort,
    alloc: Global,
    store: &mut Tested<K>,
    shown: &mut String,
) {
    add_table(rt, alloc, store, 0, &KINDS, &FIRST);
    add_table(rt, alloc, store, 1, &INTEGERS[..2], &SECOND);
    add_table(rt, alloc, store, 2, &INTEGERS, &THIRD);
    for demand in &LAST {
        offer(rt, alloc, store, 0, demand, shown);
    }
}

// What is counted: what a step does, and whether there are more violations after it, or fewer.
#[derive(Clone, Copy)]
enum Done {
    Inserted,
    Replaced,
    Deleted,
    Marked,
    UndoneTo,
    Undone,
    Forgotten,
    Settled,
    More,
    Fewer,
}

// How often each of these was done, in their order.
type Tally = [u32; 10];

fn count(tally: &mut Tally, done: Done) {
    if let Some(count) = tally.get_mut(done as usize) {
        *count = count.saturating_add(1);
    }
}

// How often that was done which was done least often.
fn least(tally: &Tally) -> u32 {
    let mut least = u32::MAX;
    for count in tally {
        least = least.min(*count);
    }
    least
}

// What a step depends on: a row's number, its table if there is such a row, the number of the next row, and the count
// of marks.
#[derive(Clone, Copy)]
struct Seen {
    number: u64,
    table: Option<u32>,
    next: u64,
    marks: usize,
}

// Whether a row that is put was there before.
fn put_done(number: u64, seen: &Seen) -> Done {
    if number == seen.number && seen.table.is_some() {
        Done::Replaced
    } else {
        Done::Inserted
    }
}

// What a step does.
fn step_done(step: &Step, seen: &Seen) -> Done {
    match step {
        Step::PutTwo(_, number, ..) => put_done(*number, seen),
        Step::PutThree(_, number, ..) => put_done(*number, seen),
        Step::Gone(..) => Done::Deleted,
        Step::Mark => Done::Marked,
        Step::UndoTo(_) => Done::UndoneTo,
        Step::Undo(_) => Done::Undone,
        Step::Forget(_) => Done::Forgotten,
        _ => Done::Settled,
    }
}

// Counts whether there are more violations than before, or fewer.
fn count_violations(tally: &mut Tally, before: u64, after: u64) {
    if before < after {
        count(tally, Done::More);
    }
    if before > after {
        count(tally, Done::Fewer);
    }
}

// Null, or an integer from 1 to 5.
fn integer(numbers: &mut Numbers) -> Cell {
    match numbers.below(6) {
        0 => Cell::Null,
        number => Cell::Int(number.cast_signed()),
    }
}

// Null, or a short text.
fn word(numbers: &mut Numbers) -> Cell {
    match numbers.below(4) {
        0 => Cell::Null,
        1 => Cell::Word(""),
        2 => Cell::Word("a"),
        _ => Cell::Word("ab"),
    }
}

// A row of a table.
fn put(numbers: &mut Numbers, table: u32, number: u64) -> Step {
    let first = integer(numbers);
    let second = integer(numbers);
    match table {
        0 => Step::PutThree(table, number, first, second, word(numbers)),
        1 => Step::PutTwo(table, number, first, second),
        _ => Step::PutThree(table, number, first, second, integer(numbers)),
    }
}

// A row comes, with this number.
fn insert(numbers: &mut Numbers, number: u64) -> Step {
    match numbers.below(3) {
        0 => put(numbers, 0, number),
        1 => put(numbers, 1, number),
        _ => put(numbers, 2, number),
    }
}

// A row comes, changes or goes.
fn change(numbers: &mut Numbers, seen: &Seen) -> Step {
    match seen.table {
        None => insert(numbers, seen.number),
        Some(table) if numbers.below(4) == 0 => Step::Gone(table, seen.number),
        Some(table) => put(numbers, table, seen.number),
    }
}

// The place of a mark, mostly the last one; there is one.
fn marked_place(numbers: &mut Numbers, marks: usize) -> usize {
    if numbers.below(4) == 0 {
        return numbers.below(marks as u64) as usize;
    }
    marks.saturating_sub(1)
}

// A way back over marks if there is one; otherwise a mark.
fn go_back(numbers: &mut Numbers, marks: usize) -> Step {
    if marks == 0 {
        return Step::Mark;
    }
    let place = marked_place(numbers, marks);
    match numbers.below(3) {
        0 => Step::UndoTo(place),
        1 => Step::Undo(place),
        _ => Step::Forget(place),
    }
}

// The next new row comes, or all is settled.
fn grow_or_settle(numbers: &mut Numbers, next: u64) -> Step {
    if numbers.below(2) == 0 {
        Step::Settle
    } else {
        insert(numbers, next)
    }
}

fn step(numbers: &mut Numbers, seen: &Seen) -> Step {
    match numbers.below(16) {
        0..=9 => change(numbers, seen),
        10 | 11 if seen.marks < MOST_MARKS => Step::Mark,
        15 => grow_or_settle(numbers, seen.next),
        _ => go_back(numbers, seen.marks),
    }
}

// The rows that hold a key by one of the foreign keys: the fifth constraint is one of two columns.
fn children(numbers: &mut Numbers) -> Step {
    let first = integer(numbers);
    match numbers.below(5) {
        0 => Step::ShowChildrenOfTwo(5, first, integer(numbers)),
        1 => Step::ShowChildren(3, first),
        2 => Step::ShowChildren(6, first),
        3 => Step::ShowChildren(9, first),
        _ => Step::ShowChildren(10, first),
    }
}

// The table of a row, if there is one of this number.
fn table_at(store: &PlainStore, number: u64) -> Option<u32> {
    match store.row(number) {
        Some(row) => Some(row.table.place()),
        None => None,
    }
}

// Chooses a row's number, and looks what there is.
fn look(numbers: &mut Numbers, store: &Tested<PlainStore>) -> Seen {
    let number = numbers.below(MOST_ROWS).saturating_add(1);
    Seen {
        number,
        table: table_at(store.store(), number),
        next: store.store().next_row(),
        marks: store.marks(),
    }
}

// Takes these steps of a turn, and shows the violations by mode after them.
fn shown_after<K: Keeper + Drop>(
    rt: &impl Abort,
    alloc: Global,
    store: &mut Tested<K>,
    (seed, turn): (u64, u64),
    steps: &[Step],
    modes: &Modes,
) -> String {
    let mut shown = String::new(alloc);
    show_number(rt, "seed ", seed, ", ", &mut shown);
    show_number(rt, "step ", turn, ": ", &mut shown);
    take_each(rt, alloc, store, steps, &mut shown);
    show_each(rt, store.store(), modes, &BY_MODE, &mut shown);
    shown
}

// Takes a random step over both stores, and asserts that they show the same after it.
fn same_after(
    rt: &impl Abort,
    alloc: Global,
    turn: (u64, u64),
    numbers: &mut Numbers,
    plain: &mut Tested<PlainStore>,
    index: &mut Tested<IndexStore>,
    modes: &Modes,
    tally: &mut Tally,
) {
    let seen = look(numbers, plain);
    let step = step(numbers, &seen);
    count(tally, step_done(&step, &seen));
    let steps = [step, Step::ShowRows(3), children(numbers)];
    let before = plain.store().count_faults(modes, Which::All);
    let one = shown_after(rt, alloc, plain, turn, &steps, modes);
    let other = shown_after(rt, alloc, index, turn, &steps, modes);
    count_violations(tally, before, plain.store().count_faults(modes, Which::All));
    compare(rt, "both stores", one.as_str(), other.as_str());
}

// Takes random steps over both stores; in every second one the modes are switched.
fn same_after_each(
    rt: &impl Abort,
    alloc: Global,
    seed: u64,
    plain: &mut Tested<PlainStore>,
    index: &mut Tested<IndexStore>,
    modes: [&Modes; 2],
    tally: &mut Tally,
) {
    let mut numbers = Numbers::new(seed);
    for turn in 0..STEPS {
        let modes = modes[(turn % 2) as usize];
        same_after(
            rt,
            alloc,
            (seed, turn),
            &mut numbers,
            plain,
            index,
            modes,
            tally,
        );
    }
}

// The modes that SET CONSTRAINTS may set are the other ones.
fn switch(rt: &impl Abort, modes: &mut Modes) {
    assert!(rt; modes.set(&[ConstraintId::new(3)], Deferred).is_ok());
    let others = [ConstraintId::new(5), ConstraintId::new(9)];
    assert!(rt; modes.set(&others, Immediate).is_ok());
}

// A switch makes two constraints immediate; the third is deferred after it, and one is deferred in neither.
fn two_are_made_immediate(rt: &impl Abort, initial: &Modes, switched: &Modes) {
    let made = initial.made_immediate(switched).expect(rt, "memory");
    assert!(rt; made.is_deferred(ConstraintId::new(5)));
    assert!(rt; made.is_deferred(ConstraintId::new(9)));
    assert!(rt; !made.is_deferred(ConstraintId::new(3)));
    assert!(rt; !made.is_deferred(ConstraintId::new(0)));
    drop(made);
}

// How often that was done over two new stores which was done least often.
fn least_done(
    rt: &impl Abort,
    alloc: Global,
    seed: u64,
    plain: &mut Tested<PlainStore>,
    index: &mut Tested<IndexStore>,
) -> u32 {
    let mut tally = [0; 10];
    let initial = Modes::initial(alloc, plain.catalogue().constraints()).expect(rt, "memory");
    let mut switched = initial.copy().expect(rt, "memory");
    switch(rt, &mut switched);
    two_are_made_immediate(rt, &initial, &switched);
    same_after_each(
        rt,
        alloc,
        seed,
        plain,
        index,
        [&initial, &switched],
        &mut tally,
    );
    least(&tally)
}

// A new store with the three tables.
fn started<K: Keeper + Drop>(rt: &impl Abort, alloc: Global) -> Tested<K> {
    let mut shown = String::new(alloc);
    let mut store = Tested::new(alloc);
    add_tables(rt, alloc, &mut store, &mut shown);
    compare(
        rt,
        "the last constraints",
        shown.as_str(),
        "added | added | added | ",
    );
    store
}

// Each thing is done, so that what both stores show isn't the same for nothing.
fn same_from(rt: &impl Abort, alloc: Global, seed: u64) {
    let mut plain = started::<PlainStore>(rt, alloc);
    let mut index = started::<IndexStore>(rt, alloc);
    let least = least_done(rt, alloc, seed, &mut plain, &mut index);
    drop(plain);
    drop(index);
    assert!(rt; least >= 3, "seed {seed}");
}

#[test]
fn both_stores_show_the_same(rt: HostRuntime) {
    for seed in [1, 20_240_229, 987_654_321] {
        same_from(&rt, rt.alloc(), seed);
    }
}
