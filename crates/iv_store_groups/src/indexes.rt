//! The groups of a constraint, by its number.
ghost use Rattle.std.specs.Prelude.{◌≡◌, ℕ, ◌<◌, ◌≤◌, ◌^◌, [], length, max, option_map, true, false, IfSome, OnOk, OnErr, Some};
ghost use Rattle.iv_numbers.specs.Rows.{IsRising, has_row};
ghost use Rattle.iv_store_groups.specs.Groups.{AreSound, EachIsApart, EachIsFound, EachRises, given_back, groups_of, is_dead, place_in, room_of, rows_at};
ghost use Rattle.iv_store_groups.specs.Groups.{rows_of, with_groups, with_room_under, with_row_put, with_row_under, without_row_under};

use crate::key_index::KeyIndex;
use iv_key::Key;
use iv_numbers::HeldRows;
use std::alloc::{AllocError, Global};

/// The group of a key: where it stands, and how many rows it has.
#[derive(Clone, Copy)]
pub struct FoundGroup {
    pub place: usize,
    pub count: usize,
}

/// Adds constraints of no group, until there are so many.
#[tactic(auto, using(crate::proofs::SoundLemmas::sound_like))]
pub fn cover(alloc: Global, indexes: &mut Vec<KeyIndex>, count: usize) -> Result<(), AllocError>
    requires { AreSound indexes.old.items }
    ensures ok { OnOk result (count ≤ length indexes.new.items) }
    ensures few { length indexes.new.items ≤ max count (length indexes.old.items) }
    ensures stays { length indexes.old.items ≤ length indexes.new.items }
    ensures groups { (constraint : ℕ) → groups_of indexes.new.items constraint ≡ groups_of indexes.old.items constraint }
    ensures sound { AreSound indexes.new.items }
{
    while indexes.len() < count {
        let index = KeyIndex::new(alloc);
        indexes.push(index)?;
    }
    Ok(())
}

/// Takes all groups of a constraint away.
#[tactic(auto, using(crate::proofs::SoundLemmas::sound_cleared))]
pub fn clear(alloc: Global, indexes: &mut Vec<KeyIndex>, constraint: usize)
    requires known { constraint < length indexes.old.items }
    requires sound { AreSound indexes.old.items }
    ensures groups { indexes.new.items ≡ with_groups indexes.old.items constraint [] }
    ensures sound { AreSound indexes.new.items }
{
    indexes[constraint] = KeyIndex::new(alloc);
}

/// How many groups a constraint has.
pub fn count_in(indexes: &[KeyIndex], constraint: usize) -> usize
    ensures len { result ≡ length (groups_of indexes.now constraint) }
    ensures small { result < 2 ^ 63 }
{
    match indexes.get(constraint) {
        Some(index) => index.len(),
        None => 0,
    }
}

/// The place of a key's group in a constraint.
pub fn place_under(indexes: &[KeyIndex], constraint: usize, key: &Key<'_>) -> Option<usize>
    ensures { result ≡ place_in (groups_of indexes.now constraint) key.now }
{
    match indexes.get(constraint) {
        Some(index) => index.place(key),
        None => None,
    }
}

/// The rows of a key in a constraint.
pub fn rows_under<'a>(indexes: &'a [KeyIndex], constraint: usize, key: &Key<'_>) -> HeldRows<'a>
    ensures value { result ≡ rows_of (groups_of indexes.now constraint) key.now }
    ensures rising { IsRising result }
{
    match indexes.get(constraint) {
        Some(index) => index.rows(key),
        None => HeldRows::new(&[], &[]),
    }
}

/// The rows of the group at a place of a constraint.
pub fn rows_in(indexes: &[KeyIndex], constraint: usize, place: usize) -> HeldRows<'_>
    requires { place < length (groups_of indexes.now constraint) }
    ensures value { result ≡ rows_at (groups_of indexes.now constraint) place }
    ensures rising { IsRising result }
{
    match indexes.get(constraint) {
        Some(index) => index.rows_at(place),
        None => HeldRows::new(&[], &[]),
    }
}

/// The room of a key in a constraint.
pub fn room_under(indexes: &[KeyIndex], constraint: usize, key: &Key<'_>) -> usize
    ensures { result ≡ room_of (groups_of indexes.now constraint) key.now }
{
    match indexes.get(constraint) {
        Some(index) => index.room(key),
        None => 0,
    }
}

/// Makes room under a key of a constraint.
#[tactic(auto, using(crate::proofs::SoundLemmas::sound_set))]
pub fn make_room_under(
    alloc: Global,
    indexes: &mut Vec<KeyIndex>,
    constraint: usize,
    key: &Key<'_>,
) -> Result<(), AllocError>
    requires known { constraint < length indexes.old.items }
    requires sound { AreSound indexes.old.items }
    ensures ok { OnOk result (indexes.new.items
        ≡ with_groups indexes.old.items constraint (with_room_under key.now (groups_of indexes.old.items constraint))) }
    ensures err { OnErr result (indexes.new.items ≡ indexes.old.items) }
    ensures sound { AreSound indexes.new.items }
{
    let index = &mut indexes[constraint];
    let made = index.make_room(alloc, key);
    index.recall_groups();
    made
}

/// Adds a row under a key of a constraint.
#[tactic(auto, using(crate::proofs::SoundLemmas::sound_set))]
pub fn add_under(
    alloc: Global,
    indexes: &mut Vec<KeyIndex>,
    constraint: usize,
    key: &Key<'_>,
    row: u64,
) -> Result<(), AllocError>
    requires known { constraint < length indexes.old.items }
    requires absent { has_row row (rows_of (groups_of indexes.old.items constraint) key.now) ≡ false }
    requires sound { AreSound indexes.old.items }
    ensures ok { OnOk result (indexes.new.items
        ≡ with_groups indexes.old.items constraint (with_row_under key.now row (groups_of indexes.old.items constraint))) }
    ensures err { OnErr result (indexes.new.items ≡ indexes.old.items) }
    ensures sound { AreSound indexes.new.items }
{
    let index = &mut indexes[constraint];
    let made = index.add(alloc, key, row);
    index.recall_groups();
    made
}

/// Puts a row under a key of a constraint, and answers the place of its group.
#[tactic(auto, using(crate::proofs::SoundLemmas::sound_set))]
pub fn put_under(indexes: &mut Vec<KeyIndex>, constraint: usize, key: &Key<'_>, row: u64) -> usize
    requires known { constraint < length indexes.old.items }
    requires room { 0 < room_of (groups_of indexes.old.items constraint) key.now }
    requires sound { AreSound indexes.old.items }
    ensures groups { indexes.new.items
        ≡ with_groups indexes.old.items constraint (with_row_put key.now row (groups_of indexes.old.items constraint)) }
    ensures place { place_in (groups_of indexes.old.items constraint) key.now ≡ Some result }
    ensures sound { AreSound indexes.new.items }
{
    let index = &mut indexes[constraint];
    let place = index.put_back(key, row);
    index.recall_groups();
    place
}

/// Removes a row from a key of a constraint, and answers the place of its group.
#[tactic(auto, using(crate::proofs::SoundLemmas::sound_set))]
pub fn remove_under(
    indexes: &mut Vec<KeyIndex>,
    constraint: usize,
    key: &Key<'_>,
    row: u64,
) -> usize
    requires known { constraint < length indexes.old.items }
    requires present { has_row row (rows_of (groups_of indexes.old.items constraint) key.now) ≡ true }
    requires sound { AreSound indexes.old.items }
    ensures groups { indexes.new.items
        ≡ with_groups indexes.old.items constraint (without_row_under key.now row (groups_of indexes.old.items constraint)) }
    ensures place { place_in (groups_of indexes.old.items constraint) key.now ≡ Some result }
    ensures sound { AreSound indexes.new.items }
{
    let index = &mut indexes[constraint];
    let place = index.remove(key, row);
    index.recall_groups();
    place
}

/// Gives back the group at a place of a constraint if it has no row, or else its room, and answers whether it had none.
#[tactic(auto, using(crate::proofs::SoundLemmas::sound_set))]
pub fn give_back_under(indexes: &mut Vec<KeyIndex>, constraint: usize, place: usize) -> bool
    requires known { constraint < length indexes.old.items }
    requires place { place < length (groups_of indexes.old.items constraint) }
    requires sound { AreSound indexes.old.items }
    ensures dead { result ≡ is_dead (groups_of indexes.old.items constraint) place }
    ensures groups { indexes.new.items
        ≡ with_groups indexes.old.items constraint (given_back (groups_of indexes.old.items constraint) place) }
    ensures sound { AreSound indexes.new.items }
{
    let index = &mut indexes[constraint];
    let dead = index.give_back(place);
    index.recall_groups();
    dead
}

/// Does nothing. Its contract says what holds of the groups of every constraint.
pub fn recall_groups(indexes: &[KeyIndex])
    requires { AreSound indexes.now }
    ensures found { (constraint : ℕ) → EachIsFound (groups_of indexes.now constraint) }
    ensures apart { (constraint : ℕ) → EachIsApart (groups_of indexes.now constraint) }
    ensures rising { (constraint : ℕ) → EachRises (groups_of indexes.now constraint) }
{
    let _ = indexes;
}

/// Whether something is to be given back of the group at a place of a constraint.
pub fn is_loose(indexes: &[KeyIndex], constraint: usize, place: usize) -> bool {
    match indexes.get(constraint) {
        Some(index) => index.is_loose(place),
        None => false,
    }
}

/// How many rows the group at a place of a constraint has: none, if there is no such place.
pub fn count_at(indexes: &[KeyIndex], constraint: usize, place: usize) -> usize
    ensures { result ≡ length (rows_at (groups_of indexes.now constraint) place) }
{
    match indexes.get(constraint) {
        Some(index) => index.count_at(place),
        None => 0,
    }
}

/// The group of a key in a constraint.
pub fn group_under(indexes: &[KeyIndex], constraint: usize, key: &Key<'_>) -> Option<FoundGroup>
    ensures place { option_map (λ g. g.place) result ≡ place_in (groups_of indexes.now constraint) key.now }
    ensures count { IfSome result (λ g. g.count ≡ length (rows_at (groups_of indexes.now constraint) g.place)) }
{
    match place_under(indexes, constraint, key) {
        Some(place) => Some(FoundGroup {
            place,
            count: count_at(indexes, constraint, place),
        }),
        None => None,
    }
}
