//! Rows in slots, with their numbers among those of their tables.
ghost use Rattle.std.specs.Prelude.{◌≡◌, ◌<◌, ◌^◌, true, OnOk, OnErr};
ghost use Rattle.iv_numbers.specs.Rows.{put};
ghost use Rattle.iv_store_rows.specs.InSlots.{slots_with, slots_without, has_slot};
ghost use Rattle.iv_store_rows.specs.Filing.{Files, OneChanged, RoomStays, can_put, dropped, held_for};

use crate::numbers::{drop_number, file, make_room};
use crate::set;
use crate::slot::Slot;
use iv_expr::{StoredRow, TableId};
use iv_numbers::RowNumbers;
use std::alloc::AllocError;

/// Puts a row into the slot of its number, or into a new one, and its number among those of its table. If an allocation
/// fails, all rows stay.
pub fn put(
    slots: &mut Vec<Slot>,
    numbers: &mut Vec<RowNumbers>,
    row: StoredRow,
) -> Result<(), AllocError>
    requires files { Files slots.old.items numbers.old.items }
    requires positive { 0 < row.number }
    requires small { row.number < 2 ^ 63 }
    ensures files { Files slots.new.items numbers.new.items }
    ensures ok { OnOk result (slots.new.items ≡ slots_with row slots.old.items) }
    ensures err { OnErr result (slots.new.items ≡ slots.old.items) }
    ensures filed { OnOk result (OneChanged numbers.old.items numbers.new.items row.table
        (put row.number (held_for numbers.old.items row.table))) }
    ensures room { OnErr result (RoomStays numbers.old.items numbers.new.items) }
{
    let table = row.table;
    let number = row.number;
    make_room(numbers, table, number)?;
    set::put(slots, row)?;
    file(numbers, table, number);
    Ok(())
}

/// Puts a row back that has a slot, and whose number is there or has room. It allocates nothing.
pub fn put_back(slots: &mut Vec<Slot>, numbers: &mut Vec<RowNumbers>, row: StoredRow)
    requires files { Files slots.old.items numbers.old.items }
    requires positive { 0 < row.number }
    requires small { row.number < 2 ^ 63 }
    requires slot { has_slot slots.old.items row.number ≡ true }
    requires room { can_put row.number (held_for numbers.old.items row.table) ≡ true }
    ensures files { Files slots.new.items numbers.new.items }
    ensures slots { slots.new.items ≡ slots_with row slots.old.items }
    ensures filed { OneChanged numbers.old.items numbers.new.items row.table
        (put row.number (held_for numbers.old.items row.table)) }
{
    file(numbers, row.table, row.number);
    set::replace(slots, row);
}

/// Removes the row of a number, if there is one, and its number from those of its table: its slot stays, and the number
/// leaves room.
pub fn take_out(slots: &mut Vec<Slot>, numbers: &mut Vec<RowNumbers>, table: TableId, number: u64)
    requires { Files slots.old.items numbers.old.items }
    ensures files { Files slots.new.items numbers.new.items }
    ensures slots { slots.new.items ≡ slots_without number slots.old.items }
    ensures filed { OneChanged numbers.old.items numbers.new.items table
        (dropped number (held_for numbers.old.items table)) }
{
    set::empty(slots, number);
    drop_number(numbers, table, number);
}
