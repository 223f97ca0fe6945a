//! The row numbers of one key, as they are lent.
ghost use Rattle.std.specs.Prelude.{◌≡◌, ℕ, ◌+◌, ◌<◌, ◌≤◌, ◌^◌, ◌==◌, ◌++◌, length, slice_get, slice_index, true, false, IfOk, OnOk, OnErr};
ghost use Rattle.std.specs.Option.{option_copied};
ghost use Rattle.std.specs.List.Sorted.{IsSearchInRange};
ghost use Rattle.iv_numbers.specs.Rows.{IsRising, Found, has_row, number_above};
ghost use Rattle.iv_numbers.specs.Search.{further};

use crate::searching::{is_at, likely_place, search};
use std::alloc::{AllocError, Global};
use std::marker::Model;

/// Some row numbers, in two parts, one behind the other. Contracts see them as one list.
#[derive(Drop)]
pub struct HeldRows<'a> {
    front: &'a [u64],
    back: &'a [u64],
}

impl<'a> Model for HeldRows<'a> {
    ghost use Rattle.std.specs.Prelude.{ℕ, ◌+◌, ◌<◌, ◌^◌, List, ◌++◌, length};

    ghost Value = { List ℕ };

    ghost view = { λ r. r.front.now ++ r.back.now };

    ghost invariant = { λ r. length r.front.now + length r.back.now < 2 ^ 64 };
}

// How many there are in both parts.
fn len(front: &[u64], back: &[u64]) -> usize
    requires few { length front.now + length back.now < 2 ^ 64 }
    ensures { result ≡ length (front.now ++ back.now) }
{
    front.len() + back.len()
}

// The first of both parts.
fn first(front: &[u64], back: &[u64]) -> Option<u64>
    ensures { result ≡ slice_get (front.now ++ back.now) 0 }
{
    match front {
        [row, ..] => Some(*row),
        [] => first_of(back),
    }
}

// The first of some numbers.
fn first_of(rows: &[u64]) -> Option<u64>
    ensures { result ≡ slice_get rows.now 0 }
{
    match rows {
        [row, ..] => Some(*row),
        [] => None,
    }
}

// Adds the numbers of both parts. If an allocation fails it adds none.
fn push_onto(front: &[u64], back: &[u64], rows: &mut Vec<u64>) -> Result<(), AllocError>
    requires few { length front.now + length back.now < 2 ^ 64 }
    ensures ok { OnOk result (rows.new.items ≡ rows.old.items ++ front.now ++ back.now) }
    ensures err { OnErr result (rows.new.items ≡ rows.old.items) }
{
    rows.reserve(front.len() + back.len())?;
    rows.extend_from_slice(front)?;
    rows.extend_from_slice(back)?;
    Ok(())
}

// What a search in the second part tells, if the first has so many numbers.
fn further(count: usize, said: Result<usize, usize>, len: usize) -> Result<usize, usize>
    requires few { count + len < 2 ^ 64 }
    requires within { IsSearchInRange said len }
    ensures { result ≡ further count said }
{
    match said {
        Ok(at) => Ok(count + at),
        Err(at) => Err(count + at),
    }
}

// Whether a number is to be looked for among these, and not before them.
fn is_behind(rows: &[u64], row: u64) -> bool
    ensures behind { result ≡ true → (0 < length rows.now) × (slice_index rows.now 0 ≤ row) }
    ensures before { result ≡ false → 0 < length rows.now → row < slice_index rows.now 0 }
{
    match rows {
        [first, ..] => *first <= row,
        [] => false,
    }
}

// The place of a number in both parts, or the place where it would be inserted.
fn find(front: &[u64], back: &[u64], row: u64) -> Result<usize, usize>
    requires few { length front.now + length back.now < 2 ^ 64 }
    requires rising { IsRising (front.now ++ back.now) }
    ensures { Found (front.now ++ back.now) row result }
{
    if is_behind(back, row) {
        return further(front.len(), search(back, row), back.len());
    }
    search(front, row)
}

// The first of some numbers above one. If no number up to it is missing, that takes constant time; else it halves.
fn above(rows: &[u64], row: u64) -> Option<u64>
    requires { IsRising rows.now }
    ensures { result ≡ number_above row rows.now }
{
    let likely = likely_place(rows, row);
    if is_at(rows, likely, row) {
        return first_of(&rows[likely + 1..]);
    }
    let place = rows.partition_point(|other| *other <= row);
    first_of(&rows[place..])
}

// The first number of both parts above one.
fn next_above(front: &[u64], back: &[u64], row: u64) -> Option<u64>
    requires { IsRising (front.now ++ back.now) }
    ensures { result ≡ number_above row (front.now ++ back.now) }
{
    if is_behind(back, row) {
        return above(back, row);
    }
    match above(front, row) {
        Some(number) => Some(number),
        None => first_of(back),
    }
}

impl<'a> HeldRows<'a> {
    /// The numbers of two parts, one behind the other.
    pub fn new(front: &'a [u64], back: &'a [u64]) -> HeldRows<'a>
        requires { length front.now + length back.now < 2 ^ 64 }
        ensures { result ≡ front.entry.now ++ back.entry.now }
    {
        HeldRows { front, back }
    }

    /// How many there are.
    pub fn len(&self) -> usize
        ensures { result ≡ length self.now }
    {
        len(self.front, self.back)
    }

    /// Whether there is none.
    pub fn is_empty(&self) -> bool
        ensures { result ≡ (length self.now == 0) }
    {
        len(self.front, self.back) == 0
    }

    /// The first of them.
    pub fn first(&self) -> Option<u64>
        ensures { result ≡ slice_get self.now 0 }
    {
        first(self.front, self.back)
    }

    /// Whether a number is among them.
    pub fn has(&self, row: u64) -> bool
        requires { IsRising self.now }
        ensures { result ≡ has_row row self.now }
    {
        self.find(row).is_ok()
    }

    /// The first of them above a number.
    pub fn next_above(&self, row: u64) -> Option<u64>
        requires { IsRising self.now }
        ensures { result ≡ number_above row self.now }
    {
        next_above(self.front, self.back, row)
    }

    /// Adds all of them to others. If an allocation fails, it adds none.
    pub fn push_onto(&self, rows: &mut Vec<u64>) -> Result<(), AllocError>
        ensures ok { OnOk result (rows.new.items ≡ rows.old.items ++ self.now) }
        ensures err { OnErr result (rows.new.items ≡ rows.old.items) }
    {
        push_onto(self.front, self.back, rows)
    }

    /// All of them, as a list of their own.
    pub fn to_vec(&self, alloc: Global) -> Result<Vec<u64>, AllocError>
        ensures { IfOk result (λ rows. rows.items ≡ self.now) }
    {
        let mut rows = Vec::new(alloc);
        push_onto(self.front, self.back, &mut rows)?;
        Ok(rows)
    }

    // The place of a number, or the place where it would be inserted.
    pub(crate) fn find(&self, row: u64) -> Result<usize, usize>
        requires { IsRising self.now }
        ensures { Found self.now row result }
    {
        find(self.front, self.back, row)
    }
}
