//! The groups of all constraints.
ghost use Rattle.std.specs.Prelude.{◌≡◌, ℕ, ◌<◌, ◌≤◌, ◌^◌, [], length, max, true, false, IfSome, OnOk, OnErr, Some};
ghost use Rattle.std.specs.Borrow.{sem};
ghost use Rattle.iv_numbers.specs.Rows.{IsRising, has_row};
ghost use Rattle.iv_store_groups.specs.Groups.{EachIsApart, EachIsFound, EachRises, counted, given_back, groups_of, is_dead, place_in, room_of, rows_at};
ghost use Rattle.iv_store_groups.specs.Groups.{rows_of, with_groups, with_room_under, with_row_put, with_row_under, without_row_under};
ghost use Rattle.iv_store_groups.specs.Lending.{LendsCounted, Looked};

use crate::counted_groups::CountedGroups;
use crate::hand::{Hand, Place, due_steps, stay, step};
use crate::indexes::{clear, cover, give_back_under, room_under, rows_in, rows_under};
use iv_key::Key;
use iv_numbers::HeldRows;
use std::alloc::{AllocError, Global};
use std::marker::Model;

/// The rows of each key of each constraint. Contracts see for each constraint, by its number, the groups in the order
/// in which their keys came. A group stays at its place until one is given back or the constraint is cleared.
///
/// What looks keys up for constraints borrows `counted`, which has none of the calls here that aren't counted.
#[derive(Drop)]
pub struct Groups {
    counted: CountedGroups,
}

impl Model for Groups {
    ghost use Rattle.iv_store_groups.specs.Groups.{Contents};

    ghost Value = { Contents };

    ghost view = { λ a. a.counted };
}

impl Groups {
    /// No constraint, and no look-up. It allocates nothing.
    pub fn new(alloc: Global) -> Groups
        ensures { result ≡ record { groups = []; looked_up = 0 } }
    {
        Groups {
            counted: CountedGroups {
                alloc,
                indexes: Vec::new(alloc),
                looked_up: 0,
                hand: Hand {
                    constraint: 0,
                    place: 0,
                    due: 0,
                },
            },
        }
    }

    /// The groups by the calls that are counted.
    pub fn counted(&mut self) -> &mut CountedGroups
        ensures* lends { sem 𝓛 (LendsCounted self.entry result) }
        ensures value { result.now ≡ self.old }
    {
        &mut self.counted
    }

    /// How many constraints there are. Their numbers are those below it.
    pub fn constraints(&self) -> usize
        ensures { result ≡ length self.now.groups }
    {
        self.counted.constraints()
    }

    /// How many look-ups there were: each `make_room`, `add`, `put_back`, `remove`, `rows` and `place` is one. The
    /// count stays at 2^64 - 1.
    pub fn looked_up(&self) -> u64
        ensures { result ≡ self.now.looked_up }
    {
        self.counted.looked_up()
    }

    /// Does nothing. Its contract tells what holds of the groups of every constraint: each is found under its key, no
    /// two have one key, and the rows of every key rise.
    pub fn recall_groups(&self)
        ensures found { (constraint : ℕ) → EachIsFound (groups_of self.now.groups constraint) }
        ensures apart { (constraint : ℕ) → EachIsApart (groups_of self.now.groups constraint) }
        ensures rising { (constraint : ℕ) → EachRises (groups_of self.now.groups constraint) }
    {
        self.counted.recall_groups();
    }

    /// Ensures that there are so many constraints at least. A new one has no group.
    pub fn cover(&mut self, count: usize) -> Result<(), AllocError>
        ensures ok { OnOk result (count ≤ length self.new.groups) }
        ensures few { length self.new.groups ≤ max count (length self.old.groups) }
        ensures stays { length self.old.groups ≤ length self.new.groups }
        ensures groups { (constraint : ℕ) → groups_of self.new.groups constraint ≡ groups_of self.old.groups constraint }
        ensures looked_up { self.new.looked_up ≡ self.old.looked_up }
    {
        let counted = &mut self.counted;
        cover(counted.alloc, &mut counted.indexes, count)
    }

    /// Removes all groups of a constraint. It allocates nothing.
    pub fn clear(&mut self, constraint: usize)
        requires known { constraint < length self.old.groups }
        ensures groups { self.new.groups ≡ with_groups self.old.groups constraint [] }
        ensures looked_up { self.new.looked_up ≡ self.old.looked_up }
    {
        let counted = &mut self.counted;
        clear(counted.alloc, &mut counted.indexes, constraint);
    }

    /// How many groups a constraint has. Their places are the numbers below it.
    pub fn count_groups(&self, constraint: usize) -> usize
        ensures count { result ≡ length (groups_of self.now.groups constraint) }
        ensures small { result < 2 ^ 63 }
    {
        self.counted.count_groups(constraint)
    }

    /// The rows of the group at a place, in rising order. It is no look-up.
    pub fn rows_at(&self, constraint: usize, place: usize) -> HeldRows<'_>
        requires { place < length (groups_of self.now.groups constraint) }
        ensures value { result ≡ rows_at (groups_of self.now.groups constraint) place }
        ensures rising { IsRising result }
    {
        let counted = &self.counted;
        rows_in(counted.indexes.as_slice(), constraint, place)
    }

    /// The rows of a key, in rising order, as `rows` gives them, without a count: searches ask it.
    pub fn holders(&self, constraint: usize, key: &Key<'_>) -> HeldRows<'_>
        ensures value { result ≡ rows_of (groups_of self.now.groups constraint) key.now }
        ensures rising { IsRising result }
    {
        let counted = &self.counted;
        rows_under(counted.indexes.as_slice(), constraint, key)
    }

    /// How many more rows a key takes without an allocation. It isn't counted.
    pub fn room(&self, constraint: usize, key: &Key<'_>) -> u64
        ensures { result ≡ room_of (groups_of self.now.groups constraint) key.now }
    {
        let counted = &self.counted;
        room_under(counted.indexes.as_slice(), constraint, key) as u64
    }

    /// The rows of a key, in rising order: none, if it has no group.
    pub fn rows(&mut self, constraint: usize, key: &Key<'_>) -> &[u64]
        ensures* stays { sem 𝓛 (Looked self.entry) }
        ensures value { result.now ≡ rows_of (groups_of self.old.groups constraint) key.now }
        ensures rising { IsRising result.now }
    {
        self.counted.rows(constraint, key)
    }

    /// The place of a key's group.
    pub fn place(&mut self, constraint: usize, key: &Key<'_>) -> Option<usize>
        ensures place { result ≡ place_in (groups_of self.old.groups constraint) key.now }
        ensures groups { self.new.groups ≡ self.old.groups }
        ensures looked_up { self.new.looked_up ≡ counted self.old.looked_up }
        ensures grows { self.old.looked_up ≤ self.new.looked_up }
    {
        match self.counted.find(constraint, key) {
            Some(found) => Some(found.place),
            None => None,
        }
    }

    /// Ensures that a key has room for one row at least. A key without a group gets one behind the others, and its
    /// values are copied.
    pub fn make_room(&mut self, constraint: usize, key: &Key<'_>) -> Result<(), AllocError>
        requires known { constraint < length self.old.groups }
        ensures ok { OnOk result (self.new.groups
            ≡ with_groups self.old.groups constraint (with_room_under key.now (groups_of self.old.groups constraint))) }
        ensures err { OnErr result (self.new.groups ≡ self.old.groups) }
        ensures looked_up { self.new.looked_up ≡ counted self.old.looked_up }
        ensures grows { self.old.looked_up ≤ self.new.looked_up }
    {
        self.counted.make_room(constraint, key)
    }

    /// Adds a row that isn't under the key. It uses one of the room, and allocates if there is none; if the key has no
    /// group, its values are copied.
    pub fn add(&mut self, constraint: usize, key: &Key<'_>, row: u64) -> Result<(), AllocError>
        requires known { constraint < length self.old.groups }
        requires absent { has_row row (rows_of (groups_of self.old.groups constraint) key.now) ≡ false }
        ensures ok { OnOk result (self.new.groups
            ≡ with_groups self.old.groups constraint (with_row_under key.now row (groups_of self.old.groups constraint))) }
        ensures err { OnErr result (self.new.groups ≡ self.old.groups) }
        ensures looked_up { self.new.looked_up ≡ counted self.old.looked_up }
        ensures grows { self.old.looked_up ≤ self.new.looked_up }
    {
        self.counted.add(constraint, key, row)
    }

    /// Puts a row under a key that has room, if it isn't under it, and answers the place of its group. It uses one of
    /// the room, and allocates nothing.
    pub fn put_back(&mut self, constraint: usize, key: &Key<'_>, row: u64) -> usize
        requires known { constraint < length self.old.groups }
        requires room { 0 < room_of (groups_of self.old.groups constraint) key.now }
        ensures groups { self.new.groups
            ≡ with_groups self.old.groups constraint (with_row_put key.now row (groups_of self.old.groups constraint)) }
        ensures place { place_in (groups_of self.old.groups constraint) key.now ≡ Some result }
        ensures looked_up { self.new.looked_up ≡ counted self.old.looked_up }
        ensures grows { self.old.looked_up ≤ self.new.looked_up }
    {
        self.counted.put_back(constraint, key, row).place
    }

    /// Removes a row that is under the key, and answers the place of its group. The key has one more room.
    pub fn remove(&mut self, constraint: usize, key: &Key<'_>, row: u64) -> usize
        requires known { constraint < length self.old.groups }
        requires present { has_row row (rows_of (groups_of self.old.groups constraint) key.now) ≡ true }
        ensures groups { self.new.groups
            ≡ with_groups self.old.groups constraint (without_row_under key.now row (groups_of self.old.groups constraint)) }
        ensures place { place_in (groups_of self.old.groups constraint) key.now ≡ Some result }
        ensures looked_up { self.new.looked_up ≡ counted self.old.looked_up }
        ensures grows { self.old.looked_up ≤ self.new.looked_up }
    {
        self.counted.remove(constraint, key, row).place
    }

    /// Gives back the group at a place if it has no row, and answers whether it had none: the constraint no longer has
    /// it, and its last group comes to the place. A group with rows gives up its room. It is no look-up, and can't fail
    /// for lack of memory: if a smaller block can't be had, the larger one stays.
    pub fn give_back(&mut self, constraint: usize, place: usize) -> bool
        requires known { constraint < length self.old.groups }
        requires place { place < length (groups_of self.old.groups constraint) }
        ensures dead { result ≡ is_dead (groups_of self.old.groups constraint) place }
        ensures groups { self.new.groups
            ≡ with_groups self.old.groups constraint (given_back (groups_of self.old.groups constraint) place) }
        ensures looked_up { self.new.looked_up ≡ self.old.looked_up }
    {
        let counted = &mut self.counted;
        let dead = give_back_under(&mut counted.indexes, constraint, place);
        stay(&mut counted.hand, dead, constraint, place);
        dead
    }

    /// How many steps the hand should go to find what can be given back; they are then due no more. No clause says how
    /// many: one for each group that was made since the last call, three for each row that left something to be given
    /// back, and at most once round all groups.
    pub fn take_due(&mut self) -> u64
        ensures { self.new ≡ self.old }
    {
        let counted = &mut self.counted;
        let steps = due_steps(counted.hand.due, counted.indexes.as_slice());
        counted.hand.due = 0;
        steps
    }

    /// Moves the hand one step. It answers where the hand was, if a group is there; otherwise the hand goes to the next
    /// constraint.
    pub fn step(&mut self) -> Option<Place>
        ensures known { IfSome result (λ at. at.constraint < length self.old.groups) }
        ensures place { IfSome result (λ at. at.place < length (groups_of self.old.groups at.constraint)) }
        ensures groups { self.new ≡ self.old }
    {
        let counted = &mut self.counted;
        step(&mut counted.hand, counted.indexes.as_slice())
    }
}
