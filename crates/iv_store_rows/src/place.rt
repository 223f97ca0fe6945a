//! The place of a number among slots, which are by rising number.
ghost use Rattle.std.specs.Prelude.{◌≡◌, ◌≤◌, ◌<◌, ◌==◌, false, length, slice_get, unwrap_or, option_map, IsTrue};
ghost use Rattle.std.specs.Option.{option_copied};
ghost use Rattle.iv_machine.specs.Databases.{row_at};
ghost use Rattle.iv_store_rows.specs.ByNumber.{place_by};
ghost use Rattle.iv_store_rows.specs.InSlots.{SlotsRise, slot_number, live_rows};

use crate::slot::Slot;
use iv_expr::StoredRow;
use sqlite_items::at;

// The place of a number, if there is a slot for each number from the first one on.
fn likely_place(slots: &[Slot], number: u64) -> usize {
    match slots {
        [first, ..] => number.saturating_sub(first.row.number) as usize,
        [] => 0,
    }
}

/// How many slots have numbers below this one. If it is above the last one, or no number up to it is missing, that
/// takes constant time; else it halves.
pub fn place(slots: &[Slot], number: u64) -> usize
    requires { SlotsRise 0 slots.now }
    ensures value { result ≡ place_by slot_number number slots.now }
    ensures within { result ≤ length slots.now }
{
    let likely = likely_place(slots, number);
    if has_number(slots, likely, number) {
        return likely;
    }
    match slots.last() {
        Some(slot) if slot.row.number < number => slots.len(),
        _ => slots.partition_point(|slot| slot.row.number < number),
    }
}

/// Whether the slot at a place has this number.
pub fn has_number(slots: &[Slot], place: usize, number: u64) -> bool
    ensures value { result ≡
        unwrap_or (option_map (λ s. s.row.number == number) (slice_get slots.now place)) false }
    ensures within { IsTrue result → place < length slots.now }
{
    match at(slots, place) {
        Some(slot) => slot.row.number == number,
        None => false,
    }
}

/// The row of a number, whose place this is, if the row is there.
pub fn live_at(slots: &[Slot], place: usize, number: u64) -> Option<&StoredRow>
    requires rises { SlotsRise 0 slots.now }
    requires place { place ≡ place_by slot_number number slots.now }
    ensures { option_copied result ≡ row_at (live_rows slots.now) number }
{
    match at(slots, place) {
        Some(slot) if slot.is_live && slot.row.number == number => Some(&slot.row),
        _ => None,
    }
}
