//! What a store holds and answers, as text.
use crate::schema::{Cell, row_of};
use crate::tested::Tested;
use iv_catalogue::Fault;
use iv_expr::TableId;
use iv_key::Key;
use iv_machine::Which;
use iv_modes::Modes;
use iv_store::Keeper;
use iv_value::Value;
use std::alloc::Global;
use std::panic::Expect;
use std::process::Abort;

// No table of a test has more rows.
const MOST_ROWS: u64 = 1000;

/// All violations.
pub static ALL: [Which; 1] = [Which::All];

/// All violations, those of the deferred constraints, and those of the immediate ones.
pub static BY_MODE: [Which; 3] = [Which::All, Which::Deferred, Which::Immediate];

/// Adds these words.
pub fn show(rt: &impl Abort, words: &str, shown: &mut String) {
    shown.push_str(words).expect(rt, "memory");
}

/// Adds a number between these words.
pub fn show_number(rt: &impl Abort, before: &str, number: u64, after: &str, shown: &mut String) {
    write!(shown, "{before}{number}{after}").expect(rt, "memory");
}

// Numbers, each with a space after it, and a bar.
fn show_numbers(rt: &impl Abort, numbers: &[u64], shown: &mut String) {
    for number in numbers {
        show_number(rt, "", *number, " ", shown);
    }
    show(rt, "| ", shown);
}

// Violations: each the place of its constraint and the number of its row; and a bar.
fn show_faults(rt: &impl Abort, faults: &[Fault], shown: &mut String) {
    for fault in faults {
        show_number(rt, "", u64::from(fault.constraint.place()), ":", shown);
        show_number(rt, "", fault.row, " ", shown);
    }
    show(rt, "| ", shown);
}

// The violations that are listed. The first and the count are those of the list.
fn show_violations<K: Keeper>(
    rt: &impl Abort,
    store: &K,
    modes: &Modes,
    which: Which,
    shown: &mut String,
) {
    let faults = store.list_faults(modes, which).expect(rt, "memory");
    assert!(rt; store.count_faults(modes, which) == faults.len() as u64);
    assert!(rt; store.first_fault(modes, which) == faults.first().copied());
    show_faults(rt, faults.as_slice(), shown);
}

/// The violations that are listed for each of these.
pub fn show_each<K: Keeper>(
    rt: &impl Abort,
    store: &K,
    modes: &Modes,
    each: &[Which],
    shown: &mut String,
) {
    for which in each {
        show_violations(rt, store, modes, *which, shown);
    }
}

/// The violations that are listed under the modes at the start of a transaction.
pub fn show_at_first<K: Keeper + Drop>(
    rt: &impl Abort,
    alloc: Global,
    store: &Tested<K>,
    each: &[Which],
    shown: &mut String,
) {
    let modes = Modes::initial(alloc, store.catalogue().constraints()).expect(rt, "memory");
    show_each(rt, store.store(), &modes, each, shown);
}

/// The rows that hold a key by a constraint: these values.
pub fn show_children<K: Keeper + Drop>(
    rt: &impl Abort,
    alloc: Global,
    store: &mut Tested<K>,
    constraint: u32,
    columns: &[u32],
    cells: &[Cell],
    shown: &mut String,
) {
    let row = row_of(rt, alloc, cells);
    let key = Key::new(columns, row.values());
    let rows = store.children(rt, constraint, &key);
    show_numbers(rt, rows.as_slice(), shown);
}

fn show_value(rt: &impl Abort, value: &Value, shown: &mut String) {
    match value {
        Value::Null => show(rt, " null", shown),
        Value::Int(integer) => write!(shown, " {integer}").expect(rt, "memory"),
        Value::Text(text) => write!(shown, " '{}'", text.as_str()).expect(rt, "memory"),
    }
}

// A row: its number and its values.
fn show_row(rt: &impl Abort, number: u64, values: &[Value], shown: &mut String) {
    show_number(rt, "", number, ":", shown);
    for value in values {
        show_value(rt, value, shown);
    }
    show(rt, ", ", shown);
}

// The rows of a table.
fn show_table<K: Keeper>(rt: &impl Abort, store: &K, table: TableId, shown: &mut String) {
    let mut after = 0;
    for _ in 0..MOST_ROWS {
        let Some((number, values)) = store.scan(table, after) else {
            break;
        };
        show_row(rt, number, values, shown);
        after = number;
    }
    show(rt, "/ ", shown);
}

/// The rows of so many tables, the number of the next row and the count of changes.
pub fn show_rows<K: Keeper>(rt: &impl Abort, store: &K, tables: u32, shown: &mut String) {
    for table in 0..tables {
        show_table(rt, store, TableId::new(table), shown);
    }
    show_number(rt, "", store.next_row(), " ", shown);
    show_number(rt, "", store.change_count(), " | ", shown);
}
