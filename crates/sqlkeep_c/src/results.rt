//! The rows of a query apart from the session that gave them.
ghost use Rattle.std.specs.Prelude.{◌≡◌, ◌≢◌, [], None, Ok, Some, IfSome, drop, slice_get};
ghost use Rattle.iv_shown.specs.Cells.{AreCopied};
ghost use Rattle.iv_machine.specs.declared.answer.Answer.TheVariants as answer;
ghost use Rattle.iv_shown.specs.Copying.{Copies};
ghost use Rattle.iv_connection.specs.Results.{last_names, names_of, result_shown, rows_given};
ghost use Rattle.iv_shown.specs.Statuses.{found};
ghost use Rattle.sqlkeep_c.specs.Calls.{Called};
ghost use Rattle.sqlkeep_c.specs.ResultStatuses.{IsStatusOfTaking, result_status, result_status_by};

use crate::handle::{Handle, put, take};
use crate::result_handle::{ResultHandle, put_rows, take_rows};
use iv_connection::{ShownResult, result_column, result_shown, take_result};
use iv_shown::{CLOSED, Cell, OK, OPEN, TakenRows, copied_if_there, copy_rows_of};
use std::alloc::Global;

/// Takes the rows of the last outcome out of the session, with the names of their columns. They stay until the result is freed.
#[unsafe(no_mangle)]
pub extern "C" fn sqlkeep_result_take(
    alloc: Global,
    handle: &mut Handle,
    rows: &mut ResultHandle,
) -> u32
    ensures rows { result ≡ OK → IfSome handle.old.kept.behind (λ old. IfSome rows.new.kept.behind (λ r.
        Some r.rows ≡ rows_given old.outcome)) }
    ensures names { result ≡ OK → IfSome handle.old.kept.behind (λ old. IfSome rows.new.kept.behind (λ r.
        names_of r ≡ last_names old)) }
    ensures taken { rows.new.kept.behind ≡ None → result ≢ OK }
    ensures rest { Called handle.old.kept.behind handle.new.kept.behind (λ old new. result ≡ OK
        → new ≡ record old { outcome = Ok (answer.Rows []) }) }
    ensures others { result ≢ OK → (handle.new.kept.behind ≡ handle.old.kept.behind)
        × (rows.new.kept.behind ≡ rows.old.kept.behind) }
    ensures status { IsStatusOfTaking handle.old.kept.behind rows.old.kept.behind result }
{
    let Some(mut connection) = take(handle, alloc) else {
        return CLOSED;
    };
    if rows.is_open() {
        put(handle, connection);
        return OPEN;
    }
    let taken = take_result(alloc, &mut connection);
    put(handle, connection);
    match taken {
        Ok(there) => {
            put_rows(rows, there);
            OK
        }
        Err(status) => status,
    }
}

/// Frees a result, and leaves it empty.
#[unsafe(no_mangle)]
pub extern "C" fn sqlkeep_result_free(alloc: Global, rows: &mut ResultHandle) -> u32
    ensures freed { rows.new.kept.behind ≡ None }
    ensures status { result ≡ result_status rows.old.kept.behind }
{
    match take_rows(rows, alloc) {
        Some(there) => {
            drop(there);
            OK
        }
        None => CLOSED,
    }
}

/// How many rows and columns a result has.
#[unsafe(no_mangle)]
pub extern "C" fn sqlkeep_result_size(
    alloc: Global,
    rows: &mut ResultHandle,
    size: &mut ShownResult,
) -> u32
    ensures size { IfSome rows.old.kept.behind (λ r. size.new ≡ result_shown r) }
    ensures kept { rows.new.kept.behind ≡ rows.old.kept.behind }
    ensures others { result ≢ OK → size.new ≡ size.old }
    ensures status { result ≡ result_status rows.old.kept.behind }
{
    let Some(there) = take_rows(rows, alloc) else {
        return CLOSED;
    };
    *size = result_shown(&there);
    put_rows(rows, there);
    OK
}

/// Copies the name of a column of a result.
#[unsafe(no_mangle)]
pub extern "C" fn sqlkeep_result_column(
    alloc: Global,
    rows: &mut ResultHandle,
    column: usize,
    from: usize,
    buffer: &mut [u8],
    count: &mut usize,
) -> u32
    ensures bytes { IfSome rows.old.kept.behind (λ r. IfSome (slice_get (names_of r) column) (λ name.
        Copies from name buffer.old buffer.new count.new)) }
    ensures kept { rows.new.kept.behind ≡ rows.old.kept.behind }
    ensures others { result ≢ OK → (buffer.new ≡ buffer.old) × (count.new ≡ count.old) }
    ensures status { result
        ≡ result_status_by (λ r. found (slice_get (names_of r) column)) rows.old.kept.behind }
{
    let Some(there) = take_rows(rows, alloc) else {
        return CLOSED;
    };
    let status = copied_if_there(result_column(&there, column), from, buffer, count);
    put_rows(rows, there);
    status
}

/// Copies rows of a result from this one on, as many as have room, as `sqlkeep_rows` does.
#[unsafe(no_mangle)]
pub extern "C" fn sqlkeep_result_rows(
    alloc: Global,
    rows: &mut ResultHandle,
    from: usize,
    cells: &mut [Cell],
    texts: &mut [u8],
    taken: &mut TakenRows,
) -> u32
    ensures rows { IfSome rows.old.kept.behind (λ r.
        AreCopied (drop from r.rows) cells.old cells.new texts.old texts.new taken.new) }
    ensures kept { rows.new.kept.behind ≡ rows.old.kept.behind }
    ensures others { result ≢ OK → (cells.new ≡ cells.old) × (texts.new ≡ texts.old) × (taken.new ≡ taken.old) }
    ensures status { result ≡ result_status rows.old.kept.behind }
{
    let Some(there) = take_rows(rows, alloc) else {
        return CLOSED;
    };
    *taken = copy_rows_of(there.rows.as_slice(), from, cells, texts);
    put_rows(rows, there);
    OK
}
