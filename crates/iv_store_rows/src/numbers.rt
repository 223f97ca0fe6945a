//! For each table the numbers under which its rows are looked for, by rising number.
ghost use Rattle.std.specs.Prelude.{◌≡◌, ◌<◌, ◌≤◌, ℕ, true, length, slice_index_or, slice_set, OnOk, OnErr};
ghost use Rattle.iv_numbers.specs.Rows.{IsRising, has_row, no_rows, number_above, put, removed, roomy};
ghost use Rattle.iv_store_rows.specs.Filing.{OneChanged, can_put, dropped, held_for, is_filed, ready};

use iv_expr::TableId;
use iv_numbers::RowNumbers;
use sqlite_items::at;
use std::alloc::AllocError;

/// The first number of a table above one: at once if no number up to it is missing, else by halving.
pub fn next_above(numbers: &[RowNumbers], table: TableId, number: u64) -> Option<u64>
    ensures next { result ≡ number_above number (held_for numbers.now table).rows }
    ensures rising { IsRising (held_for numbers.now table).rows }
{
    match at(numbers, table.place() as usize) {
        Some(held) => held.held().next_above(number),
        None => None,
    }
}

// Whether a number is one of a table's.
fn is_filed(numbers: &[RowNumbers], table: TableId, number: u64) -> bool
    ensures { result ≡ is_filed numbers.now table number }
{
    match at(numbers, table.place() as usize) {
        Some(held) => held.held().has(number),
        None => false,
    }
}

// Makes numbers for so many tables.
fn grow(numbers: &mut Vec<RowNumbers>, tables: usize) -> Result<(), AllocError>
    ensures ok { OnOk result (tables ≤ length numbers.new.items) }
    ensures same { (t : ℕ) → held_for numbers.new.items t ≡ held_for numbers.old.items t }
{
    while numbers.len() < tables {
        let more = RowNumbers::new(*numbers.allocator());
        numbers.push(more)?;
    }
    Ok(())
}

// Ensures that the numbers at a place have room for one more.
fn make_room_at(numbers: &mut Vec<RowNumbers>, place: usize) -> Result<(), AllocError>
    requires { place < length numbers.old.items }
    ensures ok { OnOk result (numbers.new.items ≡ slice_set numbers.old.items place
        (roomy (slice_index_or numbers.old.items place no_rows))) }
    ensures err { OnErr result (numbers.new.items ≡ numbers.old.items) }
{
    numbers[place].make_room()
}

// Puts a number among those at a place.
fn put_at(numbers: &mut Vec<RowNumbers>, place: usize, number: u64)
    requires there { place < length numbers.old.items }
    requires room { 0 < (slice_index_or numbers.old.items place no_rows).room }
    ensures { numbers.new.items ≡ slice_set numbers.old.items place
        (put number (slice_index_or numbers.old.items place no_rows)) }
{
    numbers[place].put(number);
}

// Removes a number from those at a place.
fn remove_at(numbers: &mut Vec<RowNumbers>, place: usize, number: u64)
    requires there { place < length numbers.old.items }
    requires has { has_row number (slice_index_or numbers.old.items place no_rows).rows ≡ true }
    ensures { numbers.new.items ≡ slice_set numbers.old.items place
        (removed number (slice_index_or numbers.old.items place no_rows)) }
{
    numbers[place].remove(number);
}

/// Ensures that a number can be put among those of a table without an allocation.
pub fn make_room(
    numbers: &mut Vec<RowNumbers>,
    table: TableId,
    number: u64,
) -> Result<(), AllocError>
    ensures ok { OnOk result (OneChanged numbers.old.items numbers.new.items table
        (ready number (held_for numbers.old.items table))) }
    ensures err { OnErr result ((t : ℕ) → held_for numbers.new.items t ≡ held_for numbers.old.items t) }
{
    let place = table.place() as usize;
    grow(numbers, place + 1)?;
    if is_filed(numbers.as_slice(), table, number) {
        return Ok(());
    }
    make_room_at(numbers, place)
}

/// Puts a number among those of a table, if it isn't there. It uses one of the room, and allocates nothing.
pub fn file(numbers: &mut Vec<RowNumbers>, table: TableId, number: u64)
    requires { can_put number (held_for numbers.old.items table) ≡ true }
    ensures { OneChanged numbers.old.items numbers.new.items table
        (put number (held_for numbers.old.items table)) }
{
    if !is_filed(numbers.as_slice(), table, number) {
        put_at(numbers, table.place() as usize, number);
    }
}

/// Removes a number from those of a table, if it is one of them. Its place is kept as room.
pub fn drop_number(numbers: &mut Vec<RowNumbers>, table: TableId, number: u64)
    ensures { OneChanged numbers.old.items numbers.new.items table
        (dropped number (held_for numbers.old.items table)) }
{
    if is_filed(numbers.as_slice(), table, number) {
        remove_at(numbers, table.place() as usize, number);
    }
}

// Gives up the room of the numbers at a place.
fn give_room_back_at(numbers: &mut Vec<RowNumbers>, place: usize)
    requires { place < length numbers.old.items }
    ensures rows { (t : ℕ) → (held_for numbers.new.items t).rows ≡ (held_for numbers.old.items t).rows }
    ensures count { length numbers.new.items ≡ length numbers.old.items }
{
    numbers[place].give_room_back();
}

/// Gives up the room of all tables' numbers, and memory if the numbers use less than a quarter of it.
pub fn give_rooms_back(numbers: &mut Vec<RowNumbers>)
    ensures { (t : ℕ) → (held_for numbers.new.items t).rows ≡ (held_for numbers.old.items t).rows }
{
    for place in 0..numbers.len() {
        give_room_back_at(numbers, place);
    }
}
