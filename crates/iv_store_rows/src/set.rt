//! Slots after a row is put in or removed.
ghost use Rattle.std.specs.Prelude.{◌≡◌, true, OnOk, OnErr};
ghost use Rattle.iv_store_rows.specs.InSlots.{SlotsRise, slots_with, slots_without, swept, has_slot};

use crate::place::{has_number, place};
use crate::slot::Slot;
use iv_expr::StoredRow;
use iv_numbers::give_room_back;
use std::alloc::AllocError;

/// Puts a row into the slot of its number, or into a new one if there is none.
pub fn put(slots: &mut Vec<Slot>, row: StoredRow) -> Result<(), AllocError>
    requires { SlotsRise 0 slots.old.items }
    ensures ok { OnOk result (slots.new.items ≡ slots_with row slots.old.items) }
    ensures err { OnErr result (slots.new.items ≡ slots.old.items) }
{
    let place = place(slots, row.number);
    let is_there = has_number(slots, place, row.number);
    let slot = Slot { row, is_live: true };
    if is_there {
        slots[place] = slot;
    } else {
        slots.insert(place, slot)?;
    }
    Ok(())
}

/// Puts a row into the slot of its number, which is there.
pub fn replace(slots: &mut Vec<Slot>, row: StoredRow)
    requires rises { SlotsRise 0 slots.old.items }
    requires slot { has_slot slots.old.items row.number ≡ true }
    ensures { slots.new.items ≡ slots_with row slots.old.items }
{
    let place = place(slots, row.number);
    if has_number(slots, place, row.number) {
        slots[place] = Slot { row, is_live: true };
    }
}

/// Removes the row of a number, if there is one: its slot stays.
pub fn empty(slots: &mut Vec<Slot>, number: u64)
    requires { SlotsRise 0 slots.old.items }
    ensures { slots.new.items ≡ slots_without number slots.old.items }
{
    let place = place(slots, number);
    if has_number(slots, place, number) {
        slots[place].is_live = false;
    }
}

/// Gives up the slots without rows, and memory if the others use less than a quarter of it.
pub fn keep_live(slots: &mut Vec<Slot>)
    ensures { slots.new.items ≡ swept slots.old.items }
{
    slots.retain(|slot| slot.is_live);
    give_room_back(slots);
}
