//! The rows of the database by their numbers.
ghost use Rattle.std.specs.Prelude.{◌≡◌, ◌≢◌, IfSome};
ghost use Rattle.iv_machine.specs.Databases.{row_at};
ghost use Rattle.iv_shown.specs.Cells.{cell_of, text_of};
ghost use Rattle.iv_shown.specs.Copying.{Copies};
ghost use Rattle.iv_shown.specs.Statuses.{found};
ghost use Rattle.iv_shown.specs.StoredRows.{stored_row_shown, stored_value};
ghost use Rattle.sqlkeep_c.specs.Statuses.{status_by};

use crate::handle::{Handle, put, take};
use iv_shown::{
    CLOSED, Cell, NOTHING, OK, ShownStoredRow, cell_of, copied, stored_row, stored_row_shown,
    stored_value, text_of,
};
use std::alloc::Global;

/// The row of this number: its table, and how many values it has.
#[unsafe(no_mangle)]
pub extern "C" fn sqlkeep_row(
    alloc: Global,
    handle: &mut Handle,
    number: u64,
    row: &mut ShownStoredRow,
) -> u32
    ensures row { IfSome handle.old.kept.behind (λ old. IfSome (row_at old.session.state.database.rows number) (λ it.
        row.new ≡ stored_row_shown it)) }
    ensures kept { handle.new.kept.behind ≡ handle.old.kept.behind }
    ensures others { result ≢ OK → row.new ≡ row.old }
    ensures status { result
        ≡ status_by (λ old. found (row_at old.session.state.database.rows number)) handle.old.kept.behind }
{
    let Some(connection) = take(handle, alloc) else {
        return CLOSED;
    };
    let status = match stored_row(&connection, number) {
        Some(it) => {
            *row = stored_row_shown(it);
            OK
        }
        None => NOTHING,
    };
    put(handle, connection);
    status
}

/// The value in this column of the row of this number.
#[unsafe(no_mangle)]
pub extern "C" fn sqlkeep_row_value(
    alloc: Global,
    handle: &mut Handle,
    number: u64,
    column: usize,
    value: &mut Cell,
) -> u32
    ensures value { IfSome handle.old.kept.behind (λ old. IfSome (stored_value old.session.state.database.rows number column) (λ it.
        value.new ≡ cell_of it)) }
    ensures kept { handle.new.kept.behind ≡ handle.old.kept.behind }
    ensures others { result ≢ OK → value.new ≡ value.old }
    ensures status { result
        ≡ status_by (λ old. found (stored_value old.session.state.database.rows number column)) handle.old.kept.behind }
{
    let Some(connection) = take(handle, alloc) else {
        return CLOSED;
    };
    let status = match stored_value(&connection, number, column) {
        Some(it) => {
            *value = cell_of(it);
            OK
        }
        None => NOTHING,
    };
    put(handle, connection);
    status
}

/// Copies bytes of the text in this column of the row of this number, from this byte on.
#[unsafe(no_mangle)]
pub extern "C" fn sqlkeep_row_text(
    alloc: Global,
    handle: &mut Handle,
    number: u64,
    column: usize,
    from: usize,
    buffer: &mut [u8],
    count: &mut usize,
) -> u32
    ensures bytes { IfSome handle.old.kept.behind (λ old. IfSome (stored_value old.session.state.database.rows number column) (λ it.
        Copies from (text_of it) buffer.old buffer.new count.new)) }
    ensures kept { handle.new.kept.behind ≡ handle.old.kept.behind }
    ensures others { result ≢ OK → (buffer.new ≡ buffer.old) × (count.new ≡ count.old) }
    ensures status { result
        ≡ status_by (λ old. found (stored_value old.session.state.database.rows number column)) handle.old.kept.behind }
{
    let Some(connection) = take(handle, alloc) else {
        return CLOSED;
    };
    let status = match stored_value(&connection, number, column) {
        Some(it) => {
            *count = copied(text_of(it), from, buffer);
            OK
        }
        None => NOTHING,
    };
    put(handle, connection);
    status
}
