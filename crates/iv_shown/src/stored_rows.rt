//! The rows of the database by their numbers.
ghost use Rattle.std.specs.Prelude.{◌≡◌, option_copied};
ghost use Rattle.iv_machine.specs.Databases.{row_at};
ghost use Rattle.iv_shown.specs.StoredRows.{stored_row_shown, stored_value};

use crate::connection::Connection;
use iv_expr::StoredRow;
use iv_value::Value;

/// A row of the database: the place of its table, and how many values it has.
#[repr(C)]
#[derive(Drop)]
pub struct ShownStoredRow {
    pub table: u64,
    pub columns: u64,
}

/// The row of this number.
pub fn stored_row(connection: &Connection, number: u64) -> Option<&StoredRow>
    ensures { option_copied result ≡ row_at connection.now.session.state.database.rows number }
{
    connection.session.row(number)
}

pub fn stored_row_shown(row: &StoredRow) -> ShownStoredRow
    ensures { result ≡ stored_row_shown row.now }
{
    ShownStoredRow {
        table: u64::from(row.table.place()),
        columns: row.values.values().len() as u64,
    }
}

/// The value in this column of the row of this number.
pub fn stored_value(connection: &Connection, number: u64, column: usize) -> Option<&Value>
    ensures { option_copied result
        ≡ stored_value connection.now.session.state.database.rows number column }
{
    match connection.session.row(number) {
        Some(row) => row.values.values().get(column),
        None => None,
    }
}
