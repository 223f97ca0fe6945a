//! The plain program of a wave: the database after its changes. It takes time in proportion to the square of
//! the rows, and to the rows times the changes.
ghost use Rattle.std.specs.Prelude.{◌≡◌, ◌≤◌, ◌+◌, ◌==◌, nat_lt, max, length, filter_map, option_map, unwrap_or, false, slice_get};
ghost use Rattle.std.specs.Prelude.{if◌then◌else◌, IsTrue, MatchOption, IfOk, OnOk};
ghost use Rattle.std.specs.List.{prefix_len};
ghost use Rattle.iv_machine.specs.Bounds.{most_changes_in_a_transaction, last_row_number};
ghost use Rattle.iv_machine.specs.Databases.{has_change, rows_with, in_order, new_row, rows_after, next_after, size, database_after};
ghost use Rattle.iv_machine.specs.Waves.{is_beyond_last_row};

use crate::database::Database;
use iv_expr::{Change, StoredRow, Wave};
use sqlite_items::Items;
use std::alloc::{AllocError, Global};

// Whether one of the changes is of the row of this number.
fn has_change(changes: &[Change], number: u64) -> bool
    ensures { result ≡ has_change changes.now number }
{
    changes.iter().any(|change| change.row == number)
}

// How many rows from the front on have numbers below this one.
fn place(rows: &[StoredRow], number: u64) -> usize
    ensures { result ≡ prefix_len (λ r. nat_lt r.number number) rows.now }
{
    let mut at = 0usize;
    for row in rows {
        if row.number >= number {
            return at;
        }
        at += 1;
    }
    at
}

// Whether the row at a place has this number.
fn has_number(rows: &[StoredRow], at: usize, number: u64) -> bool
    ensures value { result ≡
        unwrap_or (option_map (λ r. r.number == number) (slice_get rows.now at)) false }
    ensures within { IsTrue result → at + 1 ≤ length rows.now }
{
    match rows.get(at) {
        Some(row) => row.number == number,
        None => false,
    }
}

// Puts a row among rows in rising number, in the place of one that has its number.
#[tactic(auto, using(crate::proofs::Puts::put_replaces))]
fn put(rows: &mut Vec<StoredRow>, row: StoredRow) -> Result<(), AllocError>
    ensures { OnOk result (rows.new.items ≡ rows_with row rows.old.items) }
{
    let at = place(rows, row.number);
    if has_number(rows, at, row.number) {
        rows[at] = row;
    } else {
        rows.insert(at, row)?;
    }
    Ok(())
}

// The row that a change leaves.
fn new_row(change: &Change) -> Result<Option<StoredRow>, AllocError>
    ensures { IfOk result (λ row. row ≡ new_row change.now) }
{
    match &change.new {
        Some(values) => Ok(Some(StoredRow {
            table: change.table,
            number: change.row,
            values: values.clone()?,
        })),
        None => Ok(None),
    }
}

// Puts the row that a change leaves, if it leaves one.
fn put_new(rows: &mut Vec<StoredRow>, change: &Change) -> Result<(), AllocError>
    ensures { OnOk result (MatchOption (new_row change.now)
        (rows.new.items ≡ rows.old.items) (λ r. rows.new.items ≡ rows_with r rows.old.items)) }
{
    match new_row(change)? {
        Some(row) => put(rows, row),
        None => Ok(()),
    }
}

// Puts a row if none of the changes is of it.
fn put_outside(
    rows: &mut Vec<StoredRow>,
    row: &StoredRow,
    changes: &[Change],
) -> Result<(), AllocError>
    ensures { OnOk result (rows.new.items ≡
        (if has_change changes.now row.now.number then rows.old.items
        else rows_with row.now rows.old.items)) }
{
    if has_change(changes, row.number) {
        Ok(())
    } else {
        put(rows, row.clone()?)
    }
}

// The rows that changes leave, in rising number.
fn new_rows(alloc: Global, changes: &[Change]) -> Result<Vec<StoredRow>, AllocError>
    ensures { IfOk result (λ rows. rows.items ≡ in_order (filter_map new_row changes.now)) }
{
    let mut rows = Vec::new(alloc);
    let mut left = changes.len();
    while left > 0 {
        left -= 1;
        put_new(&mut rows, &changes[left])?;
    }
    Ok(rows)
}

// Puts the rows that no change is of among those that the changes leave.
fn put_all_outside(
    found: &mut Vec<StoredRow>,
    rows: &[StoredRow],
    changes: &[Change],
) -> Result<(), AllocError>
    requires { found.old.items ≡ in_order (filter_map new_row changes.now) }
    ensures { OnOk result (found.new.items ≡ rows_after rows.now changes.now) }
{
    let mut left = rows.len();
    while left > 0 {
        left -= 1;
        put_outside(found, &rows[left], changes)?;
    }
    Ok(())
}

// The number after a change, which is not below this one.
fn after(change: &Change, next: u64) -> u64
    requires { change.now.row ≤ last_row_number }
    ensures { result ≡ max (change.now.row + 1) next }
{
    if change.row < next {
        next
    } else {
        change.row + 1
    }
}

// The next number after changes.
fn next_after(next: u64, changes: &[Change]) -> u64
    requires { is_beyond_last_row changes.now ≡ false }
    ensures { result ≡ next_after next changes.now }
{
    let mut next = next;
    let mut left = changes.len();
    while left > 0 {
        left -= 1;
        next = after(&changes[left], next);
    }
    next
}

/// The database after a wave: its rows replaced, left out or added, and each change counted. The rows are
/// shared with the one before.
pub fn database_after(
    alloc: Global,
    database: &Database,
    wave: &Wave,
) -> Result<Database, AllocError>
    requires numbers { is_beyond_last_row wave.now.changes ≡ false }
    requires count { database.now.count + size wave.now ≤ most_changes_in_a_transaction }
    ensures { IfOk result (λ d. d ≡ database_after database.now wave.now) }
{
    let changes = wave.changes();
    let mut rows = new_rows(alloc, changes)?;
    put_all_outside(&mut rows, database.rows.as_slice(), changes)?;
    Ok(Database {
        rows: Items::from_vec(rows),
        next: next_after(database.next, changes),
        count: database.count + changes.len() as u64,
    })
}
