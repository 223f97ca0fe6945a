//! The rows of one group.
ghost use Rattle.std.specs.Prelude.{◌≡◌, ◌<◌, ◌∷◌, [], length, true, false, IfOk, OnOk, OnErr};
ghost use Rattle.std.specs.Borrow.{sem};
ghost use Rattle.iv_numbers.specs.Rows.{IsRising, added, has_row, no_rows, put, removed, roomy};
ghost use Rattle.iv_store_groups.specs.Closing.{RowsStay};
ghost use Rattle.iv_store_groups.specs.Groups.{tight};
ghost use Rattle.iv_store_groups.specs.Held.{rows_held};

use iv_numbers::{HeldRows, RowNumbers};
use std::alloc::{AllocError, Global};
use std::marker::Model;
use std::slice;

/// Rows and where they stand: a single one here itself, more in a list of their own. If there is none, there is room
/// for one.
#[derive(Drop)]
pub enum Numbers {
    Empty,
    One(u64),
    Many(Box<RowNumbers>),
}

/// The rows of one key. A single row allocates nothing of its own.
#[derive(Drop)]
pub struct GroupRows {
    numbers: Numbers,
}

impl Model for GroupRows {
    ghost use Rattle.iv_numbers.specs.Rows.{Rows};
    ghost use Rattle.iv_store_groups.specs.Held.{rows_held};

    ghost Value = { Rows };

    ghost view = { λ r. rows_held r.numbers };
}

// The rows.
fn held(numbers: &Numbers) -> HeldRows<'_>
    ensures value { result ≡ (rows_held numbers.now).rows }
    ensures rising { IsRising result }
{
    match numbers {
        Numbers::Empty => HeldRows::new(&[], &[]),
        Numbers::One(row) => HeldRows::new(slice::from_ref(row), &[]),
        Numbers::Many(rows) => rows.held(),
    }
}

// How many more rows there is room for.
fn room(numbers: &Numbers) -> usize
    ensures { result ≡ (rows_held numbers.now).room }
{
    match numbers {
        Numbers::Empty => 1,
        Numbers::One(_) => 0,
        Numbers::Many(rows) => rows.room(),
    }
}

// A row, and room for one more.
fn with_room(alloc: Global, row: u64) -> Result<RowNumbers, AllocError>
    ensures { IfOk result (λ rows. rows ≡ roomy (added row no_rows)) }
{
    let mut rows = RowNumbers::new(alloc);
    rows.add(row)?;
    rows.make_room()?;
    Ok(rows)
}

// Two rows.
fn both(alloc: Global, row: u64, other: u64) -> Result<RowNumbers, AllocError>
    requires { has_row other (row ∷ []) ≡ false }
    ensures { IfOk result (λ rows. rows ≡ added other (added row no_rows)) }
{
    let mut rows = RowNumbers::new(alloc);
    rows.add(row)?;
    rows.add(other)?;
    Ok(rows)
}

// Makes room for one row at least.
fn make_room(alloc: Global, numbers: &mut Numbers) -> Result<(), AllocError>
    ensures ok { OnOk result (rows_held numbers.new ≡ roomy (rows_held numbers.old)) }
    ensures err { OnErr result (rows_held numbers.new ≡ rows_held numbers.old) }
{
    match numbers {
        Numbers::Empty => Ok(()),
        Numbers::One(row) => {
            let rows = with_room(alloc, *row)?;
            *numbers = Numbers::Many(Box::new(alloc, rows)?);
            Ok(())
        }
        Numbers::Many(rows) => rows.make_room(),
    }
}

// Adds a row.
fn add(alloc: Global, numbers: &mut Numbers, row: u64) -> Result<(), AllocError>
    requires { has_row row (rows_held numbers.old).rows ≡ false }
    ensures ok { OnOk result (rows_held numbers.new ≡ added row (rows_held numbers.old)) }
    ensures err { OnErr result (rows_held numbers.new ≡ rows_held numbers.old) }
{
    match numbers {
        Numbers::Empty => {
            *numbers = Numbers::One(row);
            Ok(())
        }
        Numbers::One(first) => {
            let rows = both(alloc, *first, row)?;
            *numbers = Numbers::Many(Box::new(alloc, rows)?);
            Ok(())
        }
        Numbers::Many(rows) => rows.add(row),
    }
}

// Puts a row if there is room.
fn put(numbers: &mut Numbers, row: u64)
    requires { 0 < (rows_held numbers.old).room }
    ensures { rows_held numbers.new ≡ put row (rows_held numbers.old) }
{
    match numbers {
        Numbers::Empty => *numbers = Numbers::One(row),
        Numbers::One(_) => unreachable!(),
        Numbers::Many(rows) => rows.put(row),
    }
}

// Removes a row that is there.
fn remove(numbers: &mut Numbers, row: u64)
    requires { has_row row (rows_held numbers.old).rows ≡ true }
    ensures { rows_held numbers.new ≡ removed row (rows_held numbers.old) }
{
    match numbers {
        Numbers::Empty => unreachable!(),
        Numbers::One(_) => *numbers = Numbers::Empty,
        Numbers::Many(rows) => rows.remove(row),
    }
}

// Gives the room of rows up.
fn give_room_back(numbers: &mut Numbers)
    requires { 0 < length (rows_held numbers.old).rows }
    ensures { rows_held numbers.new ≡ tight (rows_held numbers.old) }
{
    match numbers {
        Numbers::Empty => unreachable!(),
        Numbers::One(_) => {}
        Numbers::Many(rows) => rows.give_room_back(),
    }
}

impl GroupRows {
    /// No row, and room for one. It allocates nothing.
    pub fn with_room() -> GroupRows
        ensures { result ≡ roomy no_rows }
    {
        GroupRows {
            numbers: Numbers::Empty,
        }
    }

    /// One row, and no room. It allocates nothing.
    pub fn with_row(row: u64) -> GroupRows
        ensures { result ≡ added row no_rows }
    {
        GroupRows {
            numbers: Numbers::One(row),
        }
    }

    /// The rows.
    pub fn held(&self) -> HeldRows<'_>
        ensures value { result ≡ self.now.rows }
        ensures rising { IsRising result }
    {
        held(&self.numbers)
    }

    /// The rows as one slice, which are moved for it.
    pub fn closed(&mut self) -> &[u64]
        ensures* stays { sem 𝓛 (RowsStay self.entry) }
        ensures value { result.now ≡ self.old.rows }
        ensures rising { IsRising result.now }
    {
        match &mut self.numbers {
            Numbers::Empty => &[],
            Numbers::One(row) => slice::from_ref(row),
            Numbers::Many(rows) => rows.closed(),
        }
    }

    /// How many more rows are taken without an allocation.
    pub fn room(&self) -> usize
        ensures { result ≡ self.now.room }
    {
        room(&self.numbers)
    }

    /// Ensures that there is room for one row at least.
    pub fn make_room(&mut self, alloc: Global) -> Result<(), AllocError>
        ensures ok { OnOk result (self.new ≡ roomy self.old) }
        ensures err { OnErr result (self.new ≡ self.old) }
    {
        make_room(alloc, &mut self.numbers)
    }

    /// Adds a row. It uses one of the room, and allocates if there is none.
    pub fn add(&mut self, alloc: Global, row: u64) -> Result<(), AllocError>
        requires { has_row row self.old.rows ≡ false }
        ensures ok { OnOk result (self.new ≡ added row self.old) }
        ensures err { OnErr result (self.new ≡ self.old) }
    {
        add(alloc, &mut self.numbers, row)
    }

    /// Puts a row that isn't among them. It uses one of the room, and allocates nothing.
    pub fn put(&mut self, row: u64)
        requires { 0 < self.old.room }
        ensures { self.new ≡ put row self.old }
    {
        put(&mut self.numbers, row);
    }

    /// Removes a row. Its place is kept as room.
    pub fn remove(&mut self, row: u64)
        requires { has_row row self.old.rows ≡ true }
        ensures { self.new ≡ removed row self.old }
    {
        remove(&mut self.numbers, row);
    }

    /// Gives the room up, and memory if it is far more than the rows need.
    pub fn give_room_back(&mut self)
        requires { 0 < length self.old.rows }
        ensures { self.new ≡ tight self.old }
    {
        give_room_back(&mut self.numbers);
    }
}
