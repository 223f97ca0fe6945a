//! Rows in rising number: the place of a number, and the list after a row is put in or taken out.
ghost use Rattle.std.specs.Prelude.{◌≡◌, ◌≤◌, ◌<◌, ◌==◌, not, false, find, filter, length, nat_lt, slice_get, unwrap_or, option_map, IsTrue, OnOk, OnErr};
ghost use Rattle.std.specs.List.{prefix_len};
ghost use Rattle.std.specs.Option.{option_copied};
ghost use Rattle.iv_expr.specs.Scopes.{Rises, row_above, table_rows};
ghost use Rattle.iv_machine.specs.Databases.{row_at, rows_with};
ghost use Rattle.iv_machine.specs.SetRows.{set_row, without_row};

use iv_expr::{Row, StoredRow, TableId};
use sqlite_items::at;
use std::alloc::AllocError;

// How many rows have numbers below this one. If it is above the last one, the other rows aren't looked at.
fn place(rows: &[StoredRow], number: u64) -> usize
    requires { Rises 0 rows.now }
    ensures value { result ≡ prefix_len (λ r. nat_lt r.number number) rows.now }
    ensures within { result ≤ length rows.now }
{
    match rows.last() {
        Some(row) if row.number < number => rows.len(),
        _ => rows.partition_point(|row| row.number < number),
    }
}

// Whether the row at a place has this number.
fn has_number(rows: &[StoredRow], place: usize, number: u64) -> bool
    ensures value { result ≡
        unwrap_or (option_map (λ r. r.number == number) (slice_get rows.now place)) false }
    ensures within { IsTrue result → place < length rows.now }
{
    match at(rows, place) {
        Some(row) => row.number == number,
        None => false,
    }
}

/// The row of a number.
pub fn row_at(rows: &[StoredRow], number: u64) -> Option<&StoredRow>
    requires { Rises 0 rows.now }
    ensures { option_copied result ≡ row_at rows.now number }
{
    match at(rows, place(rows, number)) {
        Some(row) if row.number == number => Some(row),
        _ => None,
    }
}

// The first of these rows that is one of a table.
fn first_of_table(rows: &[StoredRow], table: TableId) -> Option<&StoredRow>
    ensures { option_copied result ≡ find (λ r. r.table == table) rows.now }
{
    rows.iter().find(|row| row.table == table)
}

/// The first row of a table above a number.
pub fn row_above(rows: &[StoredRow], table: TableId, number: u64) -> Option<&StoredRow>
    requires { Rises 0 rows.now }
    ensures { option_copied result ≡ row_above number (table_rows rows.now table) }
{
    let from = place(rows, number.saturating_add(1));
    first_of_table(&rows[from..], table)
}

// Puts a row in, in the place of one that has its number.
fn put(rows: &mut Vec<StoredRow>, row: StoredRow) -> Result<(), AllocError>
    requires { Rises 0 rows.old.items }
    ensures ok { OnOk result (rows.new.items ≡ rows_with row rows.old.items) }
    ensures err { OnErr result (rows.new.items ≡ rows.old.items) }
{
    let place = place(rows, row.number);
    if has_number(rows, place, row.number) {
        rows[place] = row;
    } else {
        rows.insert(place, row)?;
    }
    Ok(())
}

// Takes the row of a number out, if there is one.
fn take_out(rows: &mut Vec<StoredRow>, number: u64)
    requires { Rises 0 rows.old.items }
    ensures { rows.new.items ≡ without_row number rows.old.items }
{
    let place = place(rows, number);
    if has_number(rows, place, number) {
        rows.remove(place);
    }
}

/// Puts in the row of a number with these values, or takes it out if there are none.
pub fn set_row(
    rows: &mut Vec<StoredRow>,
    table: TableId,
    number: u64,
    values: Option<Row>,
) -> Result<(), AllocError>
    requires { Rises 0 rows.old.items }
    ensures ok { OnOk result (rows.new.items ≡ set_row table number values rows.old.items) }
    ensures err { OnErr result (rows.new.items ≡ rows.old.items) }
{
    match values {
        Some(values) => put(
            rows,
            StoredRow {
                table,
                number,
                values,
            },
        ),
        None => {
            take_out(rows, number);
            Ok(())
        }
    }
}
