//! The groups of all constraints, as they are lent to what looks keys up for constraints: with counted calls.
ghost use Rattle.std.specs.Prelude.{◌≡◌, ℕ, ◌<◌, ◌≤◌, ◌^◌, [], length, option_map, true, false, IfOk, IfSome, OnOk, OnErr, Some};
ghost use Rattle.std.specs.Borrow.{sem};
ghost use Rattle.iv_numbers.specs.Rows.{IsRising, has_row};
ghost use Rattle.iv_store_groups.specs.Groups.{EachIsApart, EachIsFound, EachRises, counted, groups_of, place_in, room_of, rows_at, rows_of, with_groups};
ghost use Rattle.iv_store_groups.specs.Groups.{with_room_under, with_row_put, with_row_under, without_row_under};
ghost use Rattle.iv_store_groups.specs.Lending.{CountedAreLooked};

use crate::hand::{Hand, count_left, count_made};
use crate::indexes::{
    FoundGroup, add_under, count_at, count_in, group_under, is_loose, make_room_under, put_under,
    recall_groups, remove_under, rows_under,
};
use crate::key_index::KeyIndex;
use iv_key::Key;
use std::alloc::{AllocError, Global};
use std::marker::Model;

/// The rows of each key of each constraint, with the calls whose look-ups are counted, and no other way to a key or to
/// its rows. Contracts see them as they see `Groups`.
#[derive(Drop)]
pub struct CountedGroups {
    pub(crate) alloc: Global,
    pub(crate) indexes: Vec<KeyIndex>,
    pub(crate) looked_up: u64,
    // A hand that goes round all groups, to find what can be given back.
    pub(crate) hand: Hand,
}

impl Model for CountedGroups {
    ghost use Rattle.iv_store_groups.specs.Groups.{AreSound, Contents};

    ghost Value = { Contents };

    ghost view = { λ a. record { groups = a.indexes.items; looked_up = a.looked_up } };

    ghost invariant = { λ a. AreSound a.indexes.items };
}

// Counts a look-up.
fn count(looked_up: &mut u64)
    ensures counted { looked_up.new ≡ counted looked_up.old }
    ensures grows { looked_up.old ≤ looked_up.new }
{
    *looked_up = looked_up.saturating_add(1);
}

impl CountedGroups {
    /// How many constraints there are. Their numbers are those below it.
    pub fn constraints(&self) -> usize
        ensures { result ≡ length self.now.groups }
    {
        self.indexes.len()
    }

    /// How many look-ups there were: each `rows`, `list_rows`, `find`, `make_room`,
    /// `add`, `put_back` and `remove` is one. The
    /// count stays at 2^64 - 1.
    pub fn looked_up(&self) -> u64
        ensures { result ≡ self.now.looked_up }
    {
        self.looked_up
    }

    /// Does nothing. Its contract tells what holds of the groups of every constraint: each is found under its key, no
    /// two have one key, and the rows of every key rise.
    pub fn recall_groups(&self)
        ensures found { (constraint : ℕ) → EachIsFound (groups_of self.now.groups constraint) }
        ensures apart { (constraint : ℕ) → EachIsApart (groups_of self.now.groups constraint) }
        ensures rising { (constraint : ℕ) → EachRises (groups_of self.now.groups constraint) }
    {
        recall_groups(self.indexes.as_slice());
    }

    /// How many groups a constraint has. It tells nothing of them.
    pub fn count_groups(&self, constraint: usize) -> usize
        ensures count { result ≡ length (groups_of self.now.groups constraint) }
        ensures small { result < 2 ^ 63 }
    {
        count_in(self.indexes.as_slice(), constraint)
    }

    // No rows.
    fn none(&self) -> &[u64]
        ensures { result.now ≡ [] }
    {
        &[]
    }

    /// The rows of a key, in rising order: none, if it has no group.
    pub fn rows(&mut self, constraint: usize, key: &Key<'_>) -> &[u64]
        ensures* stays { sem 𝓛 (CountedAreLooked self.entry) }
        ensures value { result.now ≡ rows_of (groups_of self.old.groups constraint) key.now }
        ensures rising { IsRising result.now }
    {
        count(&mut self.looked_up);
        if constraint < self.indexes.len() {
            self.indexes[constraint].rows_closed(key)
        } else {
            self.none()
        }
    }

    /// The rows of a key, in rising order, copied into a list. A look-up whose list can't be allocated is counted too.
    pub fn list_rows(&mut self, constraint: usize, key: &Key<'_>) -> Result<Vec<u64>, AllocError>
        ensures rows { IfOk result (λ v. v.items ≡ rows_of (groups_of self.old.groups constraint) key.now) }
        ensures groups { self.new.groups ≡ self.old.groups }
        ensures looked_up { self.new.looked_up ≡ counted self.old.looked_up }
        ensures grows { self.old.looked_up ≤ self.new.looked_up }
    {
        count(&mut self.looked_up);
        rows_under(self.indexes.as_slice(), constraint, key).to_vec(self.alloc)
    }

    /// The group of a key.
    pub fn find(&mut self, constraint: usize, key: &Key<'_>) -> Option<FoundGroup>
        ensures place { option_map (λ g. g.place) result ≡ place_in (groups_of self.old.groups constraint) key.now }
        ensures count { IfSome result (λ g. g.count ≡ length (rows_at (groups_of self.old.groups constraint) g.place)) }
        ensures groups { self.new.groups ≡ self.old.groups }
        ensures looked_up { self.new.looked_up ≡ counted self.old.looked_up }
        ensures grows { self.old.looked_up ≤ self.new.looked_up }
    {
        count(&mut self.looked_up);
        group_under(self.indexes.as_slice(), constraint, key)
    }

    /// Ensures that a key has room for one row at least. A key without a group gets one behind the others, and its
    /// values are copied.
    pub fn make_room(&mut self, constraint: usize, key: &Key<'_>) -> Result<(), AllocError>
        requires known { constraint < length self.old.groups }
        ensures ok { OnOk result (self.new.groups
            ≡ with_groups self.old.groups constraint (with_room_under key.now (groups_of self.old.groups constraint))) }
        ensures err { OnErr result (self.new.groups ≡ self.old.groups) }
        ensures looked_up { self.new.looked_up ≡ counted self.old.looked_up }
        ensures grows { self.old.looked_up ≤ self.new.looked_up }
    {
        count(&mut self.looked_up);
        let before = count_in(self.indexes.as_slice(), constraint);
        let made = make_room_under(self.alloc, &mut self.indexes, constraint, key);
        let now = count_in(self.indexes.as_slice(), constraint);
        count_made(&mut self.hand, before, now);
        made
    }

    /// Adds a row that isn't under the key. It uses one of the room, and allocates if there is none; if the key has no
    /// group, its values are copied.
    pub fn add(&mut self, constraint: usize, key: &Key<'_>, row: u64) -> Result<(), AllocError>
        requires known { constraint < length self.old.groups }
        requires absent { has_row row (rows_of (groups_of self.old.groups constraint) key.now) ≡ false }
        ensures ok { OnOk result (self.new.groups
            ≡ with_groups self.old.groups constraint (with_row_under key.now row (groups_of self.old.groups constraint))) }
        ensures err { OnErr result (self.new.groups ≡ self.old.groups) }
        ensures looked_up { self.new.looked_up ≡ counted self.old.looked_up }
        ensures grows { self.old.looked_up ≤ self.new.looked_up }
    {
        count(&mut self.looked_up);
        let before = count_in(self.indexes.as_slice(), constraint);
        let added = add_under(self.alloc, &mut self.indexes, constraint, key, row);
        let now = count_in(self.indexes.as_slice(), constraint);
        count_made(&mut self.hand, before, now);
        added
    }

    /// Puts a row under a key that has room, if it isn't under it, and answers its group. It uses one of the room, and
    /// allocates nothing.
    pub fn put_back(&mut self, constraint: usize, key: &Key<'_>, row: u64) -> FoundGroup
        requires known { constraint < length self.old.groups }
        requires room { 0 < room_of (groups_of self.old.groups constraint) key.now }
        ensures groups { self.new.groups
            ≡ with_groups self.old.groups constraint (with_row_put key.now row (groups_of self.old.groups constraint)) }
        ensures place { place_in (groups_of self.old.groups constraint) key.now ≡ Some result.place }
        ensures count { result.count ≡ length (rows_at (groups_of self.new.groups constraint) result.place) }
        ensures looked_up { self.new.looked_up ≡ counted self.old.looked_up }
        ensures grows { self.old.looked_up ≤ self.new.looked_up }
    {
        count(&mut self.looked_up);
        let place = put_under(&mut self.indexes, constraint, key, row);
        FoundGroup {
            place,
            count: count_at(self.indexes.as_slice(), constraint, place),
        }
    }

    /// Removes a row that is under the key, and answers its group. The key has one more room.
    pub fn remove(&mut self, constraint: usize, key: &Key<'_>, row: u64) -> FoundGroup
        requires known { constraint < length self.old.groups }
        requires present { has_row row (rows_of (groups_of self.old.groups constraint) key.now) ≡ true }
        ensures groups { self.new.groups
            ≡ with_groups self.old.groups constraint (without_row_under key.now row (groups_of self.old.groups constraint)) }
        ensures place { place_in (groups_of self.old.groups constraint) key.now ≡ Some result.place }
        ensures count { result.count ≡ length (rows_at (groups_of self.new.groups constraint) result.place) }
        ensures looked_up { self.new.looked_up ≡ counted self.old.looked_up }
        ensures grows { self.old.looked_up ≤ self.new.looked_up }
    {
        count(&mut self.looked_up);
        let place = remove_under(&mut self.indexes, constraint, key, row);
        let loose = is_loose(self.indexes.as_slice(), constraint, place);
        count_left(&mut self.hand, loose);
        FoundGroup {
            place,
            count: count_at(self.indexes.as_slice(), constraint, place),
        }
    }
}
