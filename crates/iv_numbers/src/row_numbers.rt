//! Row numbers in rising order.
ghost use Rattle.std.specs.Prelude.{◌≡◌, ℕ, ◌+◌, ◌-◌, ◌<◌, ◌≤◌, length, true, false, OnOk, OnErr, MatchResult, insert, remove};
ghost use Rattle.std.specs.Borrow.{sem};
ghost use Rattle.iv_numbers.specs.Closing.{NumbersStay};
ghost use Rattle.iv_numbers.specs.GapLayout.{AreWithin, held, size};
ghost use Rattle.iv_numbers.specs.Rows.{IsRising, Found, added, has_row, no_rows, put, removed, roomy, with_row, without_row};

use crate::gap_layout::{GapLayout, insert_at, move_gap, remove_at, size};
use crate::held_rows::HeldRows;
use std::alloc::{AllocError, Global};
use std::marker::Model;

/// Different row numbers in rising order, and their room: how many more they take without an allocation. They stand in
/// two parts of a list of places, with a gap where the last number came or went in the middle. The next number beside
/// it takes constant time, as do the first and the last.
#[derive(Drop)]
pub struct RowNumbers {
    places: Vec<u64>,
    live: GapLayout,
    room: usize,
}

impl Model for RowNumbers {
    ghost use Rattle.std.specs.Prelude.{ℕ, ◌+◌, ◌≤◌, length};
    ghost use Rattle.iv_numbers.specs.Rows.{Rows, IsRising};
    ghost use Rattle.iv_numbers.specs.GapLayout.{held};
    ghost use Rattle.iv_numbers.specs.Kept.{IsKept};

    ghost Value = { Rows };

    ghost view = { λ r. record { rows = held r.places.items r.live; room = r.room } };

    ghost invariant = { λ r. IsKept r.places.items r.live r.room };
}

// Doubles the places if less than a fifth of them is free. The numbers are then moved to the middle once in many
// changes, even if they go at one end and come at the other.
fn more_places(places: &mut Vec<u64>, live: GapLayout) -> Result<(), AllocError>
    requires within { AreWithin live (length places.old.items) }
    ensures within { OnOk result (AreWithin live (length places.new.items)) }
    ensures free { OnOk result (size live < length places.new.items) }
    ensures held { OnOk result (held places.new.items live ≡ held places.old.items live) }
    ensures err { OnErr result (places.new.items ≡ places.old.items) }
{
    let count = size(live);
    if count + count / 4 >= places.len() {
        places.resize(places.len().saturating_mul(2).max(1), 0)?;
    }
    Ok(())
}

// The numbers that stand in the parts.
fn held(places: &[u64], live: GapLayout) -> HeldRows<'_>
    requires { AreWithin live (length places.now) }
    ensures { result ≡ held places.now live }
{
    HeldRows::new(
        &places[live.start..live.gap_start],
        &places[live.gap_end..live.end],
    )
}

impl RowNumbers {
    /// No numbers and no room. It allocates nothing.
    pub fn new(alloc: Global) -> RowNumbers
        ensures { result ≡ no_rows }
    {
        RowNumbers {
            places: Vec::new(alloc),
            live: GapLayout {
                start: 0,
                gap_start: 0,
                gap_end: 0,
                end: 0,
            },
            room: 0,
        }
    }

    /// The numbers.
    pub fn held(&self) -> HeldRows<'_>
        ensures value { result ≡ self.now.rows }
        ensures rising { IsRising result }
    {
        held(self.places.as_slice(), self.live)
    }

    /// The numbers as one slice. The gap is closed for it, which moves what is behind it.
    pub fn closed(&mut self) -> &[u64]
        ensures* stays { sem 𝓛 (NumbersStay self.entry) }
        ensures value { result.now ≡ self.old.rows }
        ensures rising { IsRising result.now }
    {
        self.live = move_gap(self.places.as_mut_slice(), self.live, size(self.live));
        &self.places.as_slice()[self.live.start..self.live.gap_start]
    }

    /// How many more numbers are taken without an allocation.
    pub fn room(&self) -> usize
        ensures { result ≡ self.now.room }
    {
        self.room
    }

    // The place of a number, or the place where it would be inserted.
    fn find(&self, row: u64) -> Result<usize, usize>
        ensures { Found self.now.rows row result }
    {
        self.held().find(row)
    }

    // The place of one of the numbers.
    fn place_of(&self, row: u64) -> usize
        requires { has_row row self.now.rows ≡ true }
        ensures within { result < length self.now.rows }
        ensures removed { remove self.now.rows result ≡ without_row row self.now.rows }
    {
        match self.find(row) {
            Ok(at) => at,
            Err(at) => at,
        }
    }

    // Makes room for one number if there is none.
    fn grow(&mut self) -> Result<(), AllocError>
        requires { self.old.room ≡ 0 }
        ensures ok { OnOk result (self.new ≡ record { rows = self.old.rows; room = 1 }) }
        ensures err { OnErr result (self.new ≡ self.old) }
    {
        more_places(&mut self.places, self.live)?;
        self.room = 1;
        Ok(())
    }

    // Inserts a number at its place, if a place is free.
    fn insert(&mut self, at: usize, row: u64, room: usize)
        requires absent { has_row row self.old.rows ≡ false }
        requires within { at ≤ length self.old.rows }
        requires inserted { insert self.old.rows at row ≡ with_row row self.old.rows }
        requires room { room < self.old.room }
        ensures { self.new ≡ record { rows = with_row row self.old.rows; room = room } }
    {
        self.live = insert_at(self.places.as_mut_slice(), self.live, at, row);
        self.room = room;
    }

    /// Ensures that there is room for one number at least.
    pub fn make_room(&mut self) -> Result<(), AllocError>
        ensures ok { OnOk result (self.new ≡ roomy self.old) }
        ensures err { OnErr result (self.new ≡ self.old) }
    {
        if self.room == 0 {
            self.grow()?;
        }
        Ok(())
    }

    /// Puts a number that isn't among them. It uses one of the room, and allocates nothing.
    pub fn put(&mut self, row: u64)
        requires { 0 < self.old.room }
        ensures { self.new ≡ put row self.old }
    {
        match self.find(row) {
            Ok(_) => {}
            Err(at) => {
                let room = self.room - 1;
                self.insert(at, row, room);
            }
        }
    }

    /// Adds a number. It uses one of the room, and allocates if there is none.
    pub fn add(&mut self, row: u64) -> Result<(), AllocError>
        requires { has_row row self.old.rows ≡ false }
        ensures ok { OnOk result (self.new ≡ added row self.old) }
        ensures err { OnErr result (self.new ≡ self.old) }
    {
        self.make_room()?;
        self.put(row);
        Ok(())
    }

    /// Removes a number. Its place is kept as room.
    pub fn remove(&mut self, row: u64)
        requires { has_row row self.old.rows ≡ true }
        ensures { self.new ≡ removed row self.old }
    {
        let at = self.place_of(row);
        self.live = remove_at(self.places.as_mut_slice(), self.live, at);
        self.room += 1;
    }

    // Moves the numbers, which have no room, into places only for them. If these can't be allocated, they stay where
    // they are.
    fn shorten(&mut self)
        requires { self.old.room ≡ 0 }
        ensures { self.new ≡ self.old }
    {
        let alloc = *self.places.allocator();
        if let Ok(places) = self.held().to_vec(alloc) {
            let end = places.len();
            self.places = places;
            self.live = GapLayout {
                start: 0,
                gap_start: end,
                gap_end: end,
                end,
            };
        }
    }

    /// Gives the room up, and memory if the numbers use less than a quarter of it.
    pub fn give_room_back(&mut self)
        ensures { self.new ≡ record { rows = self.old.rows; room = 0 } }
    {
        self.room = 0;
        if size(self.live) < self.places.len() / 4 {
            self.shorten();
        }
    }
}
