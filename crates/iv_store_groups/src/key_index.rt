//! The groups of one constraint.
ghost use Rattle.std.specs.Prelude.{◌≡◌, ◌<◌, ◌≤◌, ◌^◌, [], ◌∷◌, ◌++◌, ◌==◌, length, swap_remove, true, false, if◌then◌else◌, IfSome};
ghost use Rattle.std.specs.Prelude.{OnOk, OnErr, Some, slice_index_or, slice_set};
ghost use Rattle.iv_value.specs.Values.{all_same};
ghost use Rattle.iv_key.specs.Hashes.{hash_of};
ghost use Rattle.std.specs.Borrow.{sem};
ghost use Rattle.iv_store_groups.specs.Closing.{IndexStays};
ghost use Rattle.iv_store_groups.specs.Linked.{EndsAt, NoneFrom};
ghost use Rattle.iv_numbers.specs.Rows.{IsRising, added, has_row, put, removed, roomy};
ghost use Rattle.iv_store_groups.specs.Groups.{GroupOf, IsIndexed, IsSound, changed, given_back, is_dead, place_in, room_of, rows_at, rows_of, tight};
ghost use Rattle.iv_store_groups.specs.Groups.{with_room_under, with_row_put, with_row_under, without_group, without_row_under};

use crate::group::Group;
use crate::hash_index::{HashIndex, push};
use iv_key::Key;
use iv_numbers::{HeldRows, give_room_back};
use std::alloc::{AllocError, Global};
use std::marker::Model;

/// The groups of one constraint, each found by the hash of its key. A group stays at its place until one is given back.
#[derive(Drop)]
pub struct KeyIndex {
    hashes: HashIndex,
    groups: Vec<Group>,
    // The place of the group that was changed last, which is asked before the hashes.
    recent: usize,
}

impl Model for KeyIndex {
    ghost use Rattle.std.specs.Prelude.{List};
    ghost use Rattle.iv_store_groups.specs.Groups.{GroupOf, IsIndexed};

    ghost Value = { List GroupOf };

    ghost view = { λ x. x.groups.items };

    ghost invariant = { λ x. IsIndexed x.hashes x.groups.items };
}

// The place of a key's group. The last place of its hash has this end.
fn find_from(hashes: &HashIndex, groups: &[Group], key: &Key<'_>, end: usize) -> Option<usize>
    requires indexed { IsIndexed hashes.now groups.now }
    requires within { end ≤ length hashes.now }
    requires found { EndsAt hashes.now (hash_of key.now) end }
    requires none { NoneFrom hashes.now (hash_of key.now) end (length hashes.now) }
    ensures place { result ≡ place_in groups.now key.now }
    ensures within { IfSome result (λ place. place < length groups.now) }
{
    let mut end = end;
    while end > 0 {
        let place = end - 1;
        if groups[place].is_of(key) {
            return Some(place);
        }
        end = hashes.before(place);
    }
    None
}

// The place of a key's group.
fn find(hashes: &HashIndex, groups: &[Group], key: &Key<'_>, hash: u64) -> Option<usize>
    requires indexed { IsIndexed hashes.now groups.now }
    requires hash { hash ≡ hash_of key.now }
    ensures place { result ≡ place_in groups.now key.now }
    ensures within { IfSome result (λ place. place < length groups.now) }
{
    find_from(hashes, groups, key, hashes.last(hash))
}

// Whether the group at a place is that of a key.
fn is_at(groups: &[Group], place: usize, key: &Key<'_>) -> bool
    ensures { result ≡ true → (place < length groups.now)
        × ((d : GroupOf) → all_same (slice_index_or groups.now place d).key key.now ≡ true) }
{
    match groups.get(place) {
        Some(group) => group.is_of(key),
        None => false,
    }
}

// The place of a key's group, which is likely this one.
fn find_near(hashes: &HashIndex, groups: &[Group], recent: usize, key: &Key<'_>) -> Option<usize>
    requires { IsIndexed hashes.now groups.now }
    ensures place { result ≡ place_in groups.now key.now }
    ensures within { IfSome result (λ place. place < length groups.now) }
{
    if is_at(groups, recent, key) {
        return Some(recent);
    }
    find(hashes, groups, key, key.hash())
}

// Does nothing. Its contract says what holds of groups beside their hashes.
fn recall_groups(hashes: &HashIndex, groups: &[Group])
    requires { IsIndexed hashes.now groups.now }
    ensures { IsSound groups.now }
{
    let _ = hashes;
    let _ = groups;
}

// The rows of a key.
fn rows_under<'a>(hashes: &HashIndex, groups: &'a [Group], key: &Key<'_>) -> HeldRows<'a>
    requires { IsIndexed hashes.now groups.now }
    ensures value { result ≡ rows_of groups.now key.now }
    ensures rising { IsRising result }
{
    match find(hashes, groups, key, key.hash()) {
        Some(place) => groups[place].rows(),
        None => HeldRows::new(&[], &[]),
    }
}

// How many more rows a key takes without an allocation.
fn room_under(hashes: &HashIndex, groups: &[Group], key: &Key<'_>) -> usize
    requires { IsIndexed hashes.now groups.now }
    ensures { result ≡ room_of groups.now key.now }
{
    match find(hashes, groups, key, key.hash()) {
        Some(place) => groups[place].room(),
        None => 0,
    }
}

// Makes room in the group at a place.
fn make_room_at(alloc: Global, groups: &mut Vec<Group>, place: usize) -> Result<(), AllocError>
    requires within { place < length groups.old.items }
    ensures ok { OnOk result ((d : GroupOf) → groups.new.items
        ≡ slice_set groups.old.items place (changed roomy (slice_index_or groups.old.items place d))) }
    ensures err { OnErr result (groups.new.items ≡ groups.old.items) }
{
    let group = &mut groups[place];
    group.make_room(alloc)
}

// Adds a row to the group at a place.
fn add_at(alloc: Global, groups: &mut Vec<Group>, place: usize, row: u64) -> Result<(), AllocError>
    requires within { place < length groups.old.items }
    requires absent { (d : GroupOf) → has_row row (slice_index_or groups.old.items place d).held.rows ≡ false }
    ensures ok { OnOk result ((d : GroupOf) → groups.new.items
        ≡ slice_set groups.old.items place (changed (added row) (slice_index_or groups.old.items place d))) }
    ensures err { OnErr result (groups.new.items ≡ groups.old.items) }
{
    let group = &mut groups[place];
    group.add(alloc, row)
}

// Puts a row into the group at a place.
fn put_at(groups: &mut Vec<Group>, place: usize, row: u64)
    requires within { place < length groups.old.items }
    requires room { (d : GroupOf) → 0 < (slice_index_or groups.old.items place d).held.room }
    ensures { (d : GroupOf) → groups.new.items
        ≡ slice_set groups.old.items place (changed (put row) (slice_index_or groups.old.items place d)) }
{
    let group = &mut groups[place];
    group.put(row);
}

// Removes a row from the group at a place.
fn remove_at(groups: &mut Vec<Group>, place: usize, row: u64)
    requires within { place < length groups.old.items }
    requires present { (d : GroupOf) → has_row row (slice_index_or groups.old.items place d).held.rows ≡ true }
    ensures { (d : GroupOf) → groups.new.items
        ≡ slice_set groups.old.items place (changed (removed row) (slice_index_or groups.old.items place d)) }
{
    let group = &mut groups[place];
    group.remove(row);
}

// Adds a group behind the others. The last place of its hash has this end.
fn add_group(
    hashes: &mut HashIndex,
    groups: &mut Vec<Group>,
    hash: u64,
    end: usize,
    group: Group,
) -> Result<(), AllocError>
    requires within { end ≤ length hashes.old }
    requires found { EndsAt hashes.old hash end }
    requires none { NoneFrom hashes.old hash end (length hashes.old) }
    ensures hashes { OnOk result (hashes.new ≡ hashes.old ++ hash ∷ []) }
    ensures groups { OnOk result (groups.new.items ≡ groups.old.items ++ group ∷ []) }
    ensures err { OnErr result ((hashes.new ≡ hashes.old) × (groups.new.items ≡ groups.old.items)) }
{
    groups.reserve(1)?;
    push(hashes, hash, end)?;
    groups.push_reserved(group);
    Ok(())
}

// Makes room under a key.
fn make_room_under(
    alloc: Global,
    hashes: &mut HashIndex,
    groups: &mut Vec<Group>,
    recent: &mut usize,
    key: &Key<'_>,
) -> Result<(), AllocError>
    requires indexed { IsIndexed hashes.old groups.old.items }
    ensures ok { OnOk result (groups.new.items ≡ with_room_under key.now groups.old.items) }
    ensures err { OnErr result (groups.new.items ≡ groups.old.items) }
    ensures indexed { IsIndexed hashes.new groups.new.items }
{
    let hash = key.hash();
    let end = hashes.last(hash);
    match find_from(hashes, groups.as_slice(), key, end) {
        Some(place) => {
            *recent = place;
            make_room_at(alloc, groups, place)?;
        }
        None => {
            *recent = groups.len();
            let group = Group::with_room(alloc, key)?;
            add_group(hashes, groups, hash, end, group)?;
        }
    }
    Ok(())
}

// Adds a row under a key.
fn add_under(
    alloc: Global,
    hashes: &mut HashIndex,
    groups: &mut Vec<Group>,
    key: &Key<'_>,
    row: u64,
) -> Result<(), AllocError>
    requires indexed { IsIndexed hashes.old groups.old.items }
    requires absent { has_row row (rows_of groups.old.items key.now) ≡ false }
    ensures ok { OnOk result (groups.new.items ≡ with_row_under key.now row groups.old.items) }
    ensures err { OnErr result (groups.new.items ≡ groups.old.items) }
    ensures indexed { IsIndexed hashes.new groups.new.items }
{
    let hash = key.hash();
    let end = hashes.last(hash);
    match find_from(hashes, groups.as_slice(), key, end) {
        Some(place) => add_at(alloc, groups, place, row)?,
        None => {
            let group = Group::with_row(alloc, key, row)?;
            add_group(hashes, groups, hash, end, group)?;
        }
    }
    Ok(())
}

// Puts a row under a key, and tells the place of its group.
fn put_under(
    hashes: &HashIndex,
    groups: &mut Vec<Group>,
    recent: usize,
    key: &Key<'_>,
    row: u64,
) -> usize
    requires indexed { IsIndexed hashes.now groups.old.items }
    requires room { 0 < room_of groups.old.items key.now }
    ensures groups { groups.new.items ≡ with_row_put key.now row groups.old.items }
    ensures place { place_in groups.old.items key.now ≡ Some result }
    ensures indexed { IsIndexed hashes.now groups.new.items }
{
    match find_near(hashes, groups.as_slice(), recent, key) {
        Some(place) => {
            put_at(groups, place, row);
            place
        }
        None => unreachable!(),
    }
}

// Removes a row from a key, and tells the place of its group.
fn remove_under(
    hashes: &HashIndex,
    groups: &mut Vec<Group>,
    recent: usize,
    key: &Key<'_>,
    row: u64,
) -> usize
    requires indexed { IsIndexed hashes.now groups.old.items }
    requires present { has_row row (rows_of groups.old.items key.now) ≡ true }
    ensures groups { groups.new.items ≡ without_row_under key.now row groups.old.items }
    ensures place { place_in groups.old.items key.now ≡ Some result }
    ensures indexed { IsIndexed hashes.now groups.new.items }
{
    match find_near(hashes, groups.as_slice(), recent, key) {
        Some(place) => {
            remove_at(groups, place, row);
            place
        }
        None => unreachable!(),
    }
}

// Whether the group at a place has no row.
fn is_dead(groups: &[Group], place: usize) -> bool
    requires { place < length groups.now }
    ensures { result ≡ is_dead groups.now place }
{
    groups[place].rows().is_empty()
}

// Takes the group at a place away, whatever its rows are. The last one comes to its place.
fn remove_group(hashes: &mut HashIndex, groups: &mut Vec<Group>, place: usize)
    requires indexed { IsIndexed hashes.old groups.old.items }
    requires within { place < length groups.old.items }
    ensures groups { groups.new.items ≡ without_group groups.old.items place }
    ensures indexed { IsIndexed hashes.new groups.new.items }
{
    hashes.remove(place);
    let group = groups.swap_remove(place);
    drop(group);
    hashes.give_room_back();
    give_room_back(groups);
}

// Gives up the room of the group at a place.
fn tighten(groups: &mut Vec<Group>, place: usize)
    requires within { place < length groups.old.items }
    requires rows { (d : GroupOf) → 0 < length (slice_index_or groups.old.items place d).held.rows }
    ensures { (d : GroupOf) → groups.new.items
        ≡ slice_set groups.old.items place (changed tight (slice_index_or groups.old.items place d)) }
{
    let group = &mut groups[place];
    group.give_room_back();
}

// Gives the group at a place back if it has no row, or else its room, and tells whether it has none.
fn give_back_at(hashes: &mut HashIndex, groups: &mut Vec<Group>, place: usize) -> bool
    requires indexed { IsIndexed hashes.old groups.old.items }
    requires within { place < length groups.old.items }
    ensures dead { result ≡ is_dead groups.old.items place }
    ensures groups { groups.new.items ≡ given_back groups.old.items place }
    ensures indexed { IsIndexed hashes.new groups.new.items }
{
    if is_dead(groups.as_slice(), place) {
        remove_group(hashes, groups, place);
        return true;
    }
    tighten(groups, place);
    false
}

impl KeyIndex {
    /// No groups. It allocates nothing.
    pub fn new(alloc: Global) -> KeyIndex
        ensures { result ≡ [] }
    {
        KeyIndex {
            hashes: HashIndex::new(alloc),
            groups: Vec::new(alloc),
            recent: 0,
        }
    }

    /// How many groups there are. Their places are the numbers below it.
    pub fn len(&self) -> usize
        ensures len { result ≡ length self.now }
        ensures small { result < 2 ^ 63 }
    {
        self.groups.len()
    }

    /// Does nothing. Its contract says what holds of the groups: each is found under its key, no two have one key, and the rows
    /// of every key rise.
    pub fn recall_groups(&self)
        ensures { IsSound self.now }
    {
        recall_groups(&self.hashes, self.groups.as_slice());
    }

    /// The place of a key's group.
    pub fn place(&self, key: &Key<'_>) -> Option<usize>
        ensures { result ≡ place_in self.now key.now }
    {
        find_near(&self.hashes, self.groups.as_slice(), self.recent, key)
    }

    /// The rows of a key, in rising order.
    pub fn rows(&self, key: &Key<'_>) -> HeldRows<'_>
        ensures value { result ≡ rows_of self.now key.now }
        ensures rising { IsRising result }
    {
        rows_under(&self.hashes, self.groups.as_slice(), key)
    }

    // No rows.
    fn none(&self) -> &[u64]
        ensures { result.now ≡ [] }
    {
        &[]
    }

    // The rows of the group at a place, as one slice, which are moved for it.
    fn closed_at(&mut self, place: usize) -> &[u64]
        requires { place < length self.old }
        ensures* stays { sem 𝓛 (IndexStays self.entry) }
        ensures value { (d : GroupOf) → result.now ≡ (slice_index_or self.old place d).held.rows }
        ensures rising { IsRising result.now }
    {
        self.groups[place].rows_closed()
    }

    /// The rows of a key, in rising order, as one slice, which are moved for it.
    pub fn rows_closed(&mut self, key: &Key<'_>) -> &[u64]
        ensures* stays { sem 𝓛 (IndexStays self.entry) }
        ensures value { result.now ≡ rows_of self.old key.now }
        ensures rising { IsRising result.now }
    {
        match self.place(key) {
            Some(place) => self.closed_at(place),
            None => self.none(),
        }
    }

    /// The rows of the group at a place, in rising order.
    pub fn rows_at(&self, place: usize) -> HeldRows<'_>
        requires { place < length self.now }
        ensures value { result ≡ rows_at self.now place }
        ensures rising { IsRising result }
    {
        self.groups[place].rows()
    }

    /// How many rows the group at a place has: none, if there is no such place.
    pub fn count_at(&self, place: usize) -> usize
        ensures { result ≡ length (rows_at self.now place) }
    {
        match self.groups.get(place) {
            Some(group) => group.rows().len(),
            None => 0,
        }
    }

    /// How many more rows a key takes without an allocation.
    pub fn room(&self, key: &Key<'_>) -> usize
        ensures { result ≡ room_of self.now key.now }
    {
        room_under(&self.hashes, self.groups.as_slice(), key)
    }

    /// Ensures that a key has room for one row at least, in its group or in a new one behind the others.
    pub fn make_room(&mut self, alloc: Global, key: &Key<'_>) -> Result<(), AllocError>
        ensures ok { OnOk result (self.new ≡ with_room_under key.now self.old) }
        ensures err { OnErr result (self.new ≡ self.old) }
    {
        make_room_under(
            alloc,
            &mut self.hashes,
            &mut self.groups,
            &mut self.recent,
            key,
        )
    }

    /// Adds a row under a key, in its group or in a new one behind the others.
    pub fn add(&mut self, alloc: Global, key: &Key<'_>, row: u64) -> Result<(), AllocError>
        requires { has_row row (rows_of self.old key.now) ≡ false }
        ensures ok { OnOk result (self.new ≡ with_row_under key.now row self.old) }
        ensures err { OnErr result (self.new ≡ self.old) }
    {
        add_under(alloc, &mut self.hashes, &mut self.groups, key, row)
    }

    /// Puts a row under a key that has room, if it isn't under it, and answers the place of its group.
    pub fn put_back(&mut self, key: &Key<'_>, row: u64) -> usize
        requires { 0 < room_of self.old key.now }
        ensures groups { self.new ≡ with_row_put key.now row self.old }
        ensures place { place_in self.old key.now ≡ Some result }
    {
        let place = put_under(&self.hashes, &mut self.groups, self.recent, key, row);
        self.recent = place;
        place
    }

    /// Removes a row from a key, and answers the place of its group.
    pub fn remove(&mut self, key: &Key<'_>, row: u64) -> usize
        requires { has_row row (rows_of self.old key.now) ≡ true }
        ensures groups { self.new ≡ without_row_under key.now row self.old }
        ensures place { place_in self.old key.now ≡ Some result }
    {
        let place = remove_under(&self.hashes, &mut self.groups, self.recent, key, row);
        self.recent = place;
        place
    }

    /// Gives back the group at a place if it has no row, and answers whether it had none: the last group comes to its
    /// place. A group with rows gives up its room.
    pub fn give_back(&mut self, place: usize) -> bool
        requires { place < length self.old }
        ensures dead { result ≡ is_dead self.old place }
        ensures groups { self.new ≡ given_back self.old place }
    {
        give_back_at(&mut self.hashes, &mut self.groups, place)
    }

    /// Whether there is a group at a place that has no row, or far more room than rows. No clause says so: it tells
    /// whether something is to be given back.
    pub fn is_loose(&self, place: usize) -> bool {
        match self.groups.get(place) {
            Some(group) => group.is_loose(),
            None => false,
        }
    }
}
