//! A look for the next row of a table.
ghost use Rattle.std.specs.Prelude.{◌≡◌};
ghost use Rattle.std.specs.Option.{option_copied};
ghost use Rattle.iv_expr.specs.Scopes.{row_above, table_rows};
ghost use Rattle.iv_machine.specs.Databases.{row_at};
ghost use Rattle.iv_store_rows.specs.InSlots.{SlotsRise, live_rows};
ghost use Rattle.iv_store_rows.specs.Filing.{Files, row_of};

use crate::numbers::next_above;
use crate::place::{live_at, place};
use crate::slot::Slot;
use iv_expr::{StoredRow, TableId};
use iv_numbers::RowNumbers;

// The row of a number, if it is there and one of a table.
fn row_of(slots: &[Slot], table: TableId, number: u64) -> Option<&StoredRow>
    requires { SlotsRise 0 slots.now }
    ensures { option_copied result ≡ row_of table (row_at (live_rows slots.now) number) }
{
    match live_at(slots, place(slots, number), number) {
        Some(row) if row.table == table => Some(row),
        _ => None,
    }
}

/// The first row of a table above a number: that of the next number of the table. It looks once among the numbers and
/// once among the slots: at once if none is missing before it, else by halving.
pub fn row_above<'a>(
    slots: &'a [Slot],
    numbers: &[RowNumbers],
    table: TableId,
    number: u64,
) -> Option<&'a StoredRow>
    requires { Files slots.now numbers.now }
    ensures { option_copied result ≡ row_above number (table_rows (live_rows slots.now) table) }
{
    let mut after = number;
    while let Some(next) = next_above(numbers, table, after) {
        if let Some(row) = row_of(slots, table, next) {
            return Some(row);
        }
        after = next;
    }
    None
}
