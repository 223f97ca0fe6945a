//! What is done to a store, as data, and told on both stores.
use crate::demand::{Demand, constraint_of, constraints_of};
use crate::schema::{Cell, row_of, table_of};
use crate::shown::{ALL, BY_MODE, show, show_at_first, show_children, show_number, show_rows};
use crate::tested::Tested;
use iv_store::Keeper;
use iv_store_index::IndexStore;
use iv_store_plain::PlainStore;
use iv_value::Kind;
use std::alloc::Global;
use std::process::Abort;
use std::slice;

static INTEGERS: [Kind; 2] = [Kind::Integer, Kind::Integer];

/// A thing that is done to a store, or shown of it.
#[derive(Clone, Copy)]
pub enum Step {
    /// The table of a number comes, of one integer column, without constraints.
    Table(u32),
    /// The table of a number comes, of one integer column, with a constraint.
    TableWith(u32, Demand),
    /// The table of a number comes, of two integer columns, without constraints.
    WideTable(u32),
    /// A constraint of a table is offered: the row that violates it is shown, or that it was added.
    Offer(u32, Demand),
    /// A row of a table comes or changes: its number, and the value of its one column.
    Put(u32, u64, Cell),
    /// A row of a table of two columns comes or changes.
    PutTwo(u32, u64, Cell, Cell),
    /// A row of a table of three columns comes or changes.
    PutThree(u32, u64, Cell, Cell, Cell),
    /// A row of a table goes.
    Gone(u32, u64),
    /// The database is marked, and the mark's place is shown.
    Mark,
    /// Back to the mark of a place, which stays.
    UndoTo(usize),
    /// Back to the mark of a place, which goes.
    Undo(usize),
    /// The mark of a place is dropped.
    Forget(usize),
    /// All marks are dropped.
    Settle,
    /// All violations are shown.
    ShowAll,
    /// All violations are shown, those that are deferred, and those that are immediate.
    ShowModes,
    /// The rows of so many tables are shown.
    ShowRows(u32),
    /// The rows that hold a key of one value by a constraint are shown.
    ShowChildren(u32, Cell),
    /// The rows that hold a key of two values by a constraint are shown.
    ShowChildrenOfTwo(u32, Cell, Cell),
}

/// Adds the table of a number, which is the next one, of columns of these kinds, with its constraints.
pub fn add_table<K: Keeper + Drop>(
    rt: &impl Abort,
    alloc: Global,
    store: &mut Tested<K>,
    number: u32,
    kinds: &[Kind],
    demands: &[Demand],
) {
    let before = store.constraints();
    let table = table_of(rt, alloc, number, kinds);
    let constraints = constraints_of(rt, alloc, before, number, demands);
    store.add_table(rt, alloc, table, constraints);
}

/// Offers a constraint of a table, and shows the row that violates it, or that it was added.
pub fn offer<K: Keeper + Drop>(
    rt: &impl Abort,
    alloc: Global,
    store: &mut Tested<K>,
    table: u32,
    demand: &Demand,
    shown: &mut String,
) {
    let numbers = (store.constraints(), 0);
    let constraint = constraint_of(rt, alloc, numbers, table, demand);
    let violating = store.add_constraint(rt, alloc, &constraint);
    drop(constraint);
    match violating {
        Some(row) => show_number(rt, "row ", row, " | ", shown),
        None => show(rt, "added | ", shown),
    }
}

fn put<K: Keeper + Drop>(
    rt: &impl Abort,
    alloc: Global,
    store: &mut Tested<K>,
    table: u32,
    number: u64,
    cells: &[Cell],
) {
    let row = row_of(rt, alloc, cells);
    store.set(rt, table, number, Some(row));
}

fn mark<K: Keeper + Drop>(rt: &impl Abort, store: &mut Tested<K>, shown: &mut String) {
    let place = store.mark(rt);
    show_number(rt, "at ", place as u64, " | ", shown);
}

// Takes a step that shows what a store holds.
fn take_shown<K: Keeper + Drop>(
    rt: &impl Abort,
    alloc: Global,
    store: &mut Tested<K>,
    step: &Step,
    shown: &mut String,
) {
    match step {
        Step::ShowAll => show_at_first(rt, alloc, store, &ALL, shown),
        Step::ShowModes => show_at_first(rt, alloc, store, &BY_MODE, shown),
        Step::ShowRows(tables) => show_rows(rt, store.store(), *tables, shown),
        Step::ShowChildren(constraint, cell) => {
            show_children(rt, alloc, store, *constraint, &[0], &[*cell], shown)
        }
        Step::ShowChildrenOfTwo(constraint, first, second) => {
            let cells = [*first, *second];
            show_children(rt, alloc, store, *constraint, &[0, 1], &cells, shown)
        }
        _ => panic!(rt; "a step that is none of these"),
    }
}

// Takes a step with a table, a constraint or a row.
fn take_added<K: Keeper + Drop>(
    rt: &impl Abort,
    alloc: Global,
    store: &mut Tested<K>,
    step: &Step,
    shown: &mut String,
) {
    match step {
        Step::Table(table) => add_table(rt, alloc, store, *table, &INTEGERS[..1], &[]),
        Step::TableWith(table, demand) => {
            let demands = slice::from_ref(demand);
            add_table(rt, alloc, store, *table, &INTEGERS[..1], demands)
        }
        Step::WideTable(table) => add_table(rt, alloc, store, *table, &INTEGERS, &[]),
        Step::Offer(table, demand) => offer(rt, alloc, store, *table, demand, shown),
        Step::Put(table, number, cell) => put(rt, alloc, store, *table, *number, &[*cell]),
        Step::PutTwo(table, number, first, second) => {
            put(rt, alloc, store, *table, *number, &[*first, *second])
        }
        Step::PutThree(table, number, first, second, third) => {
            put(
                rt,
                alloc,
                store,
                *table,
                *number,
                &[*first, *second, *third],
            )
        }
        _ => take_shown(rt, alloc, store, step, shown),
    }
}

// Takes a step.
fn take<K: Keeper + Drop>(
    rt: &impl Abort,
    alloc: Global,
    store: &mut Tested<K>,
    step: &Step,
    shown: &mut String,
) {
    match step {
        Step::Gone(table, number) => store.set(rt, *table, *number, None),
        Step::Mark => mark(rt, store, shown),
        Step::UndoTo(place) => store.undo_to(rt, *place),
        Step::Undo(place) => store.undo(rt, *place),
        Step::Forget(place) => store.forget(rt, *place),
        Step::Settle => store.settle(),
        _ => take_added(rt, alloc, store, step, shown),
    }
}

/// Takes steps.
pub fn take_each<K: Keeper + Drop>(
    rt: &impl Abort,
    alloc: Global,
    store: &mut Tested<K>,
    steps: &[Step],
    shown: &mut String,
) {
    for step in steps {
        take(rt, alloc, store, step, shown);
    }
}

// Takes steps, each after a mark, and shows all violations after each.
fn show_forth<K: Keeper + Drop>(
    rt: &impl Abort,
    alloc: Global,
    store: &mut Tested<K>,
    steps: &[Step],
    shown: &mut String,
) {
    for step in steps {
        store.mark(rt);
        take_each(rt, alloc, store, &[*step, Step::ShowAll], shown);
    }
}

// Goes back over all marks, the last first, and shows all violations after each.
fn show_back<K: Keeper + Drop>(
    rt: &impl Abort,
    alloc: Global,
    store: &mut Tested<K>,
    shown: &mut String,
) {
    for place in (0..store.marks()).rev() {
        take_each(rt, alloc, store, &[Step::Undo(place), Step::ShowAll], shown);
    }
}

// Takes the first steps; then, if there are others, goes forth and back.
fn tell<K: Keeper + Drop>(
    rt: &impl Abort,
    alloc: Global,
    store: &mut Tested<K>,
    first: &[Step],
    steps: &[Step],
    shown: &mut String,
) {
    take_each(rt, alloc, store, first, shown);
    if !steps.is_empty() {
        show_forth(rt, alloc, store, steps, shown);
        show(rt, "/ ", shown);
        show_back(rt, alloc, store, shown);
    }
}

// What is shown of a new store.
fn told<K: Keeper + Drop>(
    rt: &impl Abort,
    alloc: Global,
    first: &[Step],
    steps: &[Step],
) -> String {
    let mut store = Tested::<K>::new(alloc);
    let mut shown = String::new(alloc);
    tell(rt, alloc, &mut store, first, steps, &mut shown);
    drop(store);
    shown
}

/// Asserts that this is shown.
pub fn compare(rt: &impl Abort, name: &str, shown: &str, wanted: &str) {
    assert_eq!(rt; shown, wanted, "{name}");
}

/// Both stores show what is wanted if the first steps are taken, and then the others forth, each after a mark, and back
/// over the marks, with all violations after each.
pub fn shows_both_ways(
    rt: &impl Abort,
    alloc: Global,
    first: &[Step],
    steps: &[Step],
    wanted: &str,
) {
    let plain = told::<PlainStore>(rt, alloc, first, steps);
    compare(rt, "PlainStore", plain.as_str(), wanted);
    let index = told::<IndexStore>(rt, alloc, first, steps);
    compare(rt, "IndexStore", index.as_str(), wanted);
}

/// Both stores show what is wanted if these steps are taken.
pub fn shows(rt: &impl Abort, alloc: Global, steps: &[Step], wanted: &str) {
    shows_both_ways(rt, alloc, steps, &[], wanted);
}
