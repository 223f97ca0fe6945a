//! Places, some of them flagged.
ghost use Rattle.std.specs.Prelude.{◌≡◌, ℕ, ◌+◌, ◌-◌, ◌<◌, ◌≤◌, ◌==◌, if◌then◌else◌, List, [], ◌∷◌, ◌++◌, length, slice_index};
ghost use Rattle.std.specs.Prelude.{vec_len, true, false, OnOk, OnErr};
ghost use Rattle.iv_laws_kept.specs.Numbers.{has};
ghost use Rattle.iv_store_violating.specs.Flagging.{Paired, flag, flags, with_flag, is_any, NoRepeats};

use iv_numbers::give_room_back;
use std::alloc::{AllocError, Global};
use std::marker::Model;

/// Places from 0, each flagged or not. Contracts see it as the list of these flags. It is a sparse set: all places in
/// one order, of which the first so many are flagged, with the position of each place in it. To flag a place is one
/// exchange of two places, which allocates nothing; only a new place does.
#[derive(Drop)]
pub struct GroupFlags {
    order: Vec<usize>,
    position: Vec<usize>,
    flagged: usize,
}

impl Model for GroupFlags {
    ghost use Rattle.std.specs.Prelude.{List, Bool};
    ghost use Rattle.iv_store_violating.specs.Flagging.{Paired, flags};

    ghost Value = { List Bool };

    ghost view = { λ m. flags m.flagged m.position.items };

    ghost invariant = { λ m. Paired m.order.items m.position.items m.flagged };
}

// Exchanges the places at two positions of the order.
fn exchange(order: &mut Vec<usize>, position: &mut Vec<usize>, flagged: usize, i: usize, j: usize)
    requires paired { Paired order.old.items position.old.items flagged }
    requires first { i < vec_len order.old }
    requires second { j < vec_len order.old }
    ensures paired { Paired order.new.items position.new.items flagged }
    ensures order_len { vec_len order.new ≡ vec_len order.old }
    ensures position_len { vec_len position.new ≡ vec_len position.old }
    ensures positions { (p : ℕ) → slice_index position.new.items p ≡
        (if p == slice_index order.old.items j then i else
        (if p == slice_index order.old.items i then j else slice_index position.old.items p)) }
{
    let one = order[i];
    let other = order[j];
    order[i] = other;
    order[j] = one;
    position[one] = j;
    position[other] = i;
}

// Takes the last place away, which stands last in the order too and isn't flagged.
fn cut(order: &mut Vec<usize>, position: &mut Vec<usize>, flagged: usize)
    requires paired { Paired order.old.items position.old.items flagged }
    requires some { 0 < length order.old.items }
    requires last { slice_index position.old.items (length order.old.items - 1) ≡ length order.old.items - 1 }
    requires unflagged { flagged ≤ length order.old.items - 1 }
    ensures paired { Paired order.new.items position.new.items flagged }
    ensures count { length order.new.items ≡ length order.old.items - 1 }
    ensures flags { (p : ℕ) → flag (flags flagged position.new.items) p ≡ flag (flags flagged position.old.items) p }
{
    order.pop();
    position.pop();
}

// Takes the last place away, which is at a position behind those of the flagged ones.
fn cut_at(order: &mut Vec<usize>, position: &mut Vec<usize>, flagged: usize, from: usize)
    requires paired { Paired order.old.items position.old.items flagged }
    requires some { 0 < length order.old.items }
    requires from { slice_index position.old.items (length order.old.items - 1) ≡ from }
    requires unflagged { flagged ≤ from }
    ensures paired { Paired order.new.items position.new.items flagged }
    ensures count { length order.new.items ≡ length order.old.items - 1 }
    ensures flags { (p : ℕ) → flag (flags flagged position.new.items) p ≡ flag (flags flagged position.old.items) p }
{
    let last = order.len() - 1;
    exchange(order, position, flagged, from, last);
    cut(order, position, flagged);
}

// Takes the last place away if it isn't flagged, and gives memory back that is far more than the others need.
fn drop_last(order: &mut Vec<usize>, position: &mut Vec<usize>, flagged: usize)
    requires { Paired order.old.items position.old.items flagged }
    ensures paired { Paired order.new.items position.new.items flagged }
    ensures count { length order.old.items ≤ length order.new.items + 1 }
    ensures flags { (p : ℕ) → flag (flags flagged position.new.items) p ≡ flag (flags flagged position.old.items) p }
{
    let from = match position.last() {
        Some(from) => *from,
        None => return,
    };
    if from < flagged {
        return;
    }
    cut_at(order, position, flagged, from);
    give_room_back(order);
    give_room_back(position);
}

// Adds places, until there are so many.
fn cover(violating: &mut GroupFlags, count: usize) -> Result<(), AllocError>
    ensures ok { OnOk result (count ≤ length violating.new) }
    ensures stays { length violating.old ≤ length violating.new }
    ensures flags { (place : ℕ) → flag violating.new place ≡ flag violating.old place }
{
    while violating.len() < count {
        violating.add()?;
    }
    Ok(())
}

impl GroupFlags {
    /// No place. It allocates nothing.
    pub fn new(alloc: Global) -> GroupFlags
        ensures { result ≡ [] }
    {
        GroupFlags {
            order: Vec::new(alloc),
            position: Vec::new(alloc),
            flagged: 0,
        }
    }

    /// How many places there are. Each is a number below it.
    pub fn len(&self) -> usize
        ensures { result ≡ length self.now }
    {
        self.position.len()
    }

    // Adds a place, which isn't flagged.
    fn add(&mut self) -> Result<(), AllocError>
        ensures ok { OnOk result (self.new ≡ self.old ++ false ∷ []) }
        ensures err { OnErr result (self.new ≡ self.old) }
    {
        let place = self.position.len();
        self.order.push(place)?;
        if let Err(refused) = self.position.push(place) {
            self.order.pop();
            return Err(AllocError::from(refused));
        }
        Ok(())
    }

    /// Ensures that there are so many places at least. A new one isn't flagged.
    pub fn cover(&mut self, count: usize) -> Result<(), AllocError>
        ensures ok { OnOk result (count ≤ length self.new) }
        ensures stays { length self.old ≤ length self.new }
        ensures flags { (place : ℕ) → flag self.new place ≡ flag self.old place }
    {
        cover(self, count)
    }

    /// Whether a place is flagged: false if there is no such place.
    pub fn is_flagged(&self, place: usize) -> bool
        ensures { result ≡ flag self.now place }
    {
        match self.position.get(place) {
            Some(position) => *position < self.flagged,
            None => false,
        }
    }

    /// Whether some place is flagged. It is one comparison.
    pub fn is_any(&self) -> bool
        ensures { result ≡ is_any self.now }
    {
        self.flagged > 0
    }

    // Flags a place.
    fn raise(&mut self, place: usize)
        requires { place < length self.old }
        ensures { self.new ≡ with_flag self.old place true }
    {
        let from = self.position[place];
        if from >= self.flagged {
            let edge = self.flagged;
            exchange(&mut self.order, &mut self.position, edge, from, edge);
            self.flagged += 1;
        }
    }

    // Takes the flag of a place away.
    fn lower(&mut self, place: usize)
        requires { place < length self.old }
        ensures { self.new ≡ with_flag self.old place false }
    {
        let from = self.position[place];
        if from < self.flagged {
            let edge = self.flagged - 1;
            exchange(
                &mut self.order,
                &mut self.position,
                self.flagged,
                from,
                edge,
            );
            self.flagged = edge;
        }
    }

    /// Flags a place, or removes its flag. It allocates nothing.
    pub fn set(&mut self, place: usize, raised: bool)
        requires { place < length self.old }
        ensures { self.new ≡ with_flag self.old place raised }
    {
        if raised {
            self.raise(place);
        } else {
            self.lower(place);
        }
    }

    /// Removes the last place if it isn't flagged. It allocates nothing, and gives memory back if the other places use
    /// less than a quarter of it.
    pub fn drop_last(&mut self)
        ensures count { length self.old ≤ length self.new + 1 }
        ensures flags { (place : ℕ) → flag self.new place ≡ flag self.old place }
    {
        drop_last(&mut self.order, &mut self.position, self.flagged);
    }

    /// The flagged places, each once, in no order that callers know.
    pub fn flagged(&self) -> &[usize]
        ensures members { (place : ℕ) → has place result.now ≡ flag self.now place }
        ensures once { NoRepeats result.now }
    {
        &self.order[..self.flagged]
    }
}
