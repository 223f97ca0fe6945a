//! Changes, columns, answers and accounts as text.
use iv_account::Entry;
use iv_catalogue::{Cause, Fault, Refusal};
use iv_expr::{Change, Row, StoredRow, TableColumn, TableId};
use iv_value::Value;
use std::panic::Expect;
use std::process::Abort;

// ---- words and numbers

/// Adds these words.
pub fn show(rt: &impl Abort, words: &str, shown: &mut String) {
    shown.push_str(words).expect(rt, "memory");
}

/// Adds a number between these words.
pub fn show_number(rt: &impl Abort, before: &str, number: u64, after: &str, shown: &mut String) {
    write!(shown, "{before}{number}{after}").expect(rt, "memory");
}

/// Asserts that this is shown.
pub fn compare(rt: &impl Abort, name: &str, shown: &str, wanted: &str) {
    assert_eq!(rt; shown, wanted, "{name}");
}

// ---- rows

fn show_value(rt: &impl Abort, value: &Value, shown: &mut String) {
    match value {
        Value::Null => show(rt, " null", shown),
        Value::Int(integer) => write!(shown, " {integer}").expect(rt, "memory"),
        Value::Text(_) => show(rt, " a text", shown),
    }
}

/// Each value with a space before it.
pub fn show_values(rt: &impl Abort, values: &[Value], shown: &mut String) {
    for value in values {
        show_value(rt, value, shown);
    }
}

// The table and the number of a row.
fn show_place(rt: &impl Abort, table: TableId, number: u64, shown: &mut String) {
    show_number(rt, "", u64::from(table.place()), " ", shown);
    show_number(rt, "", number, ":", shown);
}

fn show_side(rt: &impl Abort, row: &Option<Row>, shown: &mut String) {
    match row {
        Some(row) => show_values(rt, row.values(), shown),
        None => show(rt, " none", shown),
    }
}

/// Table and row number of each change, what the row was, and what it is.
pub fn show_changes(rt: &impl Abort, changes: &[Change], shown: &mut String) {
    for change in changes {
        show_place(rt, change.table, change.row, shown);
        show_side(rt, &change.old, shown);
        show(rt, " to", shown);
        show_side(rt, &change.new, shown);
        show(rt, ", ", shown);
    }
}

/// Table and place of each column.
pub fn show_columns(rt: &impl Abort, columns: &[TableColumn], shown: &mut String) {
    for named in columns {
        show_number(rt, "", u64::from(named.table.place()), " ", shown);
        show_number(rt, "", u64::from(named.column), ", ", shown);
    }
}

// ---- refusals

fn show_fault(rt: &impl Abort, before: &str, fault: &Fault, shown: &mut String) {
    let constraint = u64::from(fault.constraint.place());
    show_number(rt, before, constraint, " at ", shown);
    show_number(rt, "", fault.row, "", shown);
}

fn show_cause(rt: &impl Abort, cause: &Cause, shown: &mut String) {
    match cause {
        Cause::Violation(fault) => show_fault(rt, "violates ", fault, shown),
        Cause::Restrict(fault) => show_fault(rt, "restrict ", fault, shown),
        Cause::Signal(trigger, place) => {
            show_number(rt, "signal ", u64::from(*place), " of ", shown);
            show_number(rt, "", u64::from(trigger.place()), "", shown)
        }
        _ => show(rt, "another refusal", shown),
    }
}

/// The cause of a refusal, and the trigger that was running.
pub fn show_refusal(rt: &impl Abort, refusal: &Refusal, shown: &mut String) {
    show_cause(rt, &refusal.cause, shown);
    match &refusal.trigger {
        Some(running) => show_number(rt, " in ", u64::from(running.place()), "; ", shown),
        None => show(rt, "; ", shown),
    }
}

// ---- accounts

fn show_rows(rt: &impl Abort, rows: &[StoredRow], shown: &mut String) {
    for row in rows {
        show(rt, ", ", shown);
        show_place(rt, row.table, row.number, shown);
        show_values(rt, row.values.values(), shown);
    }
    show(rt, ", ", shown);
}

fn show_entry(rt: &impl Abort, entry: &Entry, shown: &mut String) {
    match entry {
        Entry::Changed(changes) => {
            show(rt, "changed ", shown);
            show_changes(rt, changes.as_slice(), shown)
        }
        Entry::Faulted(fault, rows) => {
            show_fault(rt, "faulted ", fault, shown);
            show_rows(rt, rows.as_slice(), shown)
        }
        _ => show(rt, "another entry, ", shown),
    }
}

/// The waves of an account, its fault, and the rows of that.
pub fn show_entries(rt: &impl Abort, entries: &[Entry], shown: &mut String) {
    for entry in entries {
        show_entry(rt, entry, shown);
    }
}
