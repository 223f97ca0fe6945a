//! The rows that a query gave.
ghost use Rattle.std.specs.Prelude.{◌≡◌, ◌≢◌, drop, length, IfSome};
ghost use Rattle.iv_shown.specs.Copying.{Copies};
ghost use Rattle.iv_shown.specs.Statuses.{found};
ghost use Rattle.sqlkeep_c.specs.Statuses.{status_by, status_if_open};
ghost use Rattle.iv_shown.specs.Cells.{AreCopied, cell_of, text_of};
ghost use Rattle.iv_shown.specs.Rows.{row_at, rows_of, value_at};

use crate::handle::{Handle, put, take};
use iv_shown::{
    CLOSED, Cell, NOTHING, OK, TakenRows, cell_of, copied, copy_rows_from, rows_of, text_of,
    value_at,
};
use std::alloc::Global;

/// How many values a row of the last outcome has.
#[unsafe(no_mangle)]
pub extern "C" fn sqlkeep_columns(
    alloc: Global,
    handle: &mut Handle,
    row: usize,
    count: &mut usize,
) -> u32
    ensures count { IfSome handle.old.kept.behind (λ old. IfSome (row_at old.outcome row) (λ values.
        count.new ≡ length values)) }
    ensures kept { handle.new.kept.behind ≡ handle.old.kept.behind }
    ensures others { result ≢ OK → count.new ≡ count.old }
    ensures status { result ≡ status_by (λ old. found (row_at old.outcome row)) handle.old.kept.behind }
{
    let Some(connection) = take(handle, alloc) else {
        return CLOSED;
    };
    let status = match rows_of(&connection.outcome).get(row) {
        Some(row) => {
            *count = row.values().len();
            OK
        }
        None => NOTHING,
    };
    put(handle, connection);
    status
}

/// The value in this row and column of the last outcome.
#[unsafe(no_mangle)]
pub extern "C" fn sqlkeep_value(
    alloc: Global,
    handle: &mut Handle,
    row: usize,
    column: usize,
    value: &mut Cell,
) -> u32
    ensures value { IfSome handle.old.kept.behind (λ old. IfSome (value_at old.outcome row column) (λ it.
        value.new ≡ cell_of it)) }
    ensures kept { handle.new.kept.behind ≡ handle.old.kept.behind }
    ensures others { result ≢ OK → value.new ≡ value.old }
    ensures status { result
        ≡ status_by (λ old. found (value_at old.outcome row column)) handle.old.kept.behind }
{
    let Some(connection) = take(handle, alloc) else {
        return CLOSED;
    };
    let status = match value_at(&connection.outcome, row, column) {
        Some(it) => {
            *value = cell_of(it);
            OK
        }
        None => NOTHING,
    };
    put(handle, connection);
    status
}

/// Copies bytes of the text in this row and column of the last outcome, from this byte on.
#[unsafe(no_mangle)]
pub extern "C" fn sqlkeep_value_text(
    alloc: Global,
    handle: &mut Handle,
    row: usize,
    column: usize,
    from: usize,
    buffer: &mut [u8],
    count: &mut usize,
) -> u32
    ensures bytes { IfSome handle.old.kept.behind (λ old. IfSome (value_at old.outcome row column) (λ it.
        Copies from (text_of it) buffer.old buffer.new count.new)) }
    ensures kept { handle.new.kept.behind ≡ handle.old.kept.behind }
    ensures others { result ≢ OK → (buffer.new ≡ buffer.old) × (count.new ≡ count.old) }
    ensures status { result
        ≡ status_by (λ old. found (value_at old.outcome row column)) handle.old.kept.behind }
{
    let Some(connection) = take(handle, alloc) else {
        return CLOSED;
    };
    let found = value_at(&connection.outcome, row, column);
    let status = match found {
        Some(it) => {
            *count = copied(text_of(it), from, buffer);
            OK
        }
        None => NOTHING,
    };
    put(handle, connection);
    status
}

/// Copies rows of the last outcome from this one on, as many as have room: a cell for each value, row by row, and the bytes
/// of the texts, one after the other. If no row is copied though there is one, a buffer is too small for it.
#[unsafe(no_mangle)]
pub extern "C" fn sqlkeep_rows(
    alloc: Global,
    handle: &mut Handle,
    from: usize,
    cells: &mut [Cell],
    texts: &mut [u8],
    taken: &mut TakenRows,
) -> u32
    ensures rows { IfSome handle.old.kept.behind (λ old.
        AreCopied (drop from (rows_of old.outcome)) cells.old cells.new texts.old texts.new taken.new) }
    ensures kept { handle.new.kept.behind ≡ handle.old.kept.behind }
    ensures others { result ≢ OK → (cells.new ≡ cells.old) × (texts.new ≡ texts.old) × (taken.new ≡ taken.old) }
    ensures status { result ≡ status_if_open handle.old.kept.behind }
{
    let Some(connection) = take(handle, alloc) else {
        return CLOSED;
    };
    *taken = copy_rows_from(&connection.outcome, from, cells, texts);
    put(handle, connection);
    OK
}
