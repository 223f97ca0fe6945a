//! The places of hashes in a list, found by the hash.
ghost use Rattle.std.specs.Prelude.{◌≡◌, ◌≢◌, ℕ, suc, ◌+◌, ◌-◌, ◌^◌, ◌<◌, ◌≤◌, ◌==◌, List, [], ◌∷◌, ◌++◌, length, take, slice_get, slice_index};
ghost use Rattle.std.specs.Prelude.{slice_index_or, slice_set, swap_remove, Some, None, true, false, if◌then◌else◌, IfOk, OnOk, OnErr};
ghost use Rattle.iv_store_groups.specs.Linked.{AreFiled, AreFree, EndsAt, Ended, HasEnds, IsLinked, IsParted, IsReached, LeadDown, NoneFrom, NoneWhereFree};
ghost use Rattle.iv_store_groups.specs.Linked.{Noted, end_by, gone, has_at, is_open, last_end, map_end, slot_of};

use iv_numbers::give_room_back;
use std::alloc::{AllocError, Global};
use std::collections::BTreeMap;
use std::marker::Model;

/// A list of hashes. A slot has the last place of the hash that came to it first; the last places of other hashes with
/// the same slot are in a tree, so a search takes at most the logarithm of the length. A link leads from a place to the
/// one before it with the same hash. An end is one more than a place, and 0 if there is none. If the hash of a slot
/// leaves, the slot is `GONE`, since the tree may still have others of it, until another hash that isn't in the tree
/// comes or the slots are filled anew.
#[derive(Drop)]
pub struct HashIndex {
    slots: Vec<u32>,
    others: BTreeMap<u64, u32>,
    befores: Vec<u32>,
    hashes: Vec<u64>,
    // How many hashes left since the slots were filled.
    left: usize,
}

impl Model for HashIndex {
    ghost use Rattle.std.specs.Prelude.{ℕ, List};
    ghost use Rattle.iv_store_groups.specs.Linked.{IsLinked};

    ghost Value = { List ℕ };

    ghost view = { λ x. x.hashes.items };

    ghost invariant = { λ x. IsLinked x.slots.items x.others x.befores.items x.hashes.items };
}

const FEWEST_SLOTS: usize = 16;

// How many hashes there can be: their ends are below what stands for none.
const MOST: usize = 0xffff_fffe;

// What stands in a slot whose hash left: no place has this end.
const GONE: u32 = u32::MAX;

// The slot of a hash among so many, which are a power of two.
fn slot_of(hash: u64, count: usize) -> usize
    ensures { result ≡ slot_of hash count }
{
    hash as usize & count.saturating_sub(1)
}

// The end of the last place of a hash by the tree.
fn end_in(others: &BTreeMap<u64, u32>, hash: u64) -> usize
    ensures { result ≡ map_end others.now hash }
{
    match others.get(&hash) {
        Some(end) => *end as usize,
        None => 0,
    }
}

// Whether this end stands in a slot.
fn stands_in(slots: &[u32], slot: usize, end: usize) -> bool
    ensures { result ≡ has_at slots.now slot end }
{
    match slots.get(slot) {
        Some(other) => *other as usize == end,
        None => false,
    }
}

// What stands in a slot.
fn end_at(slots: &[u32], slot: usize) -> Option<usize>
    ensures { result ≡ slice_get slots.now slot }
{
    match slots.get(slot) {
        Some(end) => Some(*end as usize),
        None => None,
    }
}

// Whether a place has this hash.
fn has_at(hashes: &[u64], place: usize, hash: u64) -> bool
    ensures { result ≡ has_at hashes.now place hash }
{
    match hashes.get(place) {
        Some(other) => *other == hash,
        None => false,
    }
}

// The end of the last place of a hash, in whose slot this end stands.
fn end_by(others: &BTreeMap<u64, u32>, hashes: &[u64], hash: u64, end: usize) -> usize
    ensures { result ≡ end_by hashes.now hash (map_end others.now hash) (Some end) }
{
    if end == 0 {
        return 0;
    }
    if has_at(hashes, end - 1, hash) {
        end
    } else {
        end_in(others, hash)
    }
}

// The end of the last place of a hash.
#[tactic(auto, unfolding(crate::specs::Linked::last_end))]
fn last_in(slots: &[u32], others: &BTreeMap<u64, u32>, hashes: &[u64], hash: u64) -> usize
    ensures { result ≡ last_end slots.now others.now hashes.now hash }
{
    match end_at(slots, slot_of(hash, slots.len())) {
        Some(end) => end_by(others, hashes, hash, end),
        None => end_in(others, hash),
    }
}

// Whether a hash may come into a slot, in which this end stands.
fn is_open_at(others: &BTreeMap<u64, u32>, hashes: &[u64], hash: u64, end: usize) -> bool
    ensures { result ≡ is_open hashes.now hash (map_end others.now hash) (Some end) }
{
    if end == 0 {
        return true;
    }
    if end == GONE as usize {
        return end_in(others, hash) == 0;
    }
    has_at(hashes, end - 1, hash)
}

// Whether a hash may come into a slot.
fn is_open(
    slots: &[u32],
    others: &BTreeMap<u64, u32>,
    hashes: &[u64],
    hash: u64,
    slot: usize,
) -> bool
    ensures { result ≡ is_open hashes.now hash (map_end others.now hash) (slice_get slots.now slot) }
{
    match end_at(slots, slot) {
        Some(end) => is_open_at(others, hashes, hash, end),
        None => false,
    }
}

// The end of a place.
fn end_of(place: usize) -> u32
    requires { place < gone }
    ensures { result ≡ place + 1 }
{
    place as u32 + 1
}

// Notes the end of a hash that comes behind the others.
fn note(
    slots: &mut Vec<u32>,
    others: &mut BTreeMap<u64, u32>,
    hashes: &[u64],
    hash: u64,
) -> Result<(), AllocError>
    requires few { length hashes.now + 1 < gone }
    requires filed { AreFiled slots.old.items others.old hashes.now }
    ensures ok { OnOk result (Noted slots.old.items others.old hashes.now hash slots.new.items others.new) }
    ensures slots { OnErr result (slots.new.items ≡ slots.old.items) }
    ensures others { OnErr result ((q : ℕ) → map_end others.new q ≡ map_end others.old q) }
{
    let end = end_of(hashes.len());
    let slot = slot_of(hash, slots.len());
    if is_open(slots.as_slice(), others, hashes, hash, slot) {
        slots[slot] = end;
        return Ok(());
    }
    others.insert(hash, end)?;
    Ok(())
}

// Notes the end of each hash, if nothing is noted yet.
fn note_all(
    slots: &mut Vec<u32>,
    others: &mut BTreeMap<u64, u32>,
    hashes: &[u64],
) -> Result<(), AllocError>
    requires few { length hashes.now < gone }
    requires free { AreFree slots.old.items }
    requires empty { others.old.entries ≡ [] }
    ensures { OnOk result (HasEnds slots.new.items others.new hashes.now) }
{
    let mut place = 0;
    while place < hashes.len() {
        note(slots, others, &hashes[..place], hashes[place])?;
        place += 1;
    }
    Ok(())
}

// The map has this end for a hash that it has, or has the hash no more. It allocates nothing.
fn set_in_map(others: &mut BTreeMap<u64, u32>, hash: u64, end: u32)
    requires { 0 < map_end others.old hash }
    ensures here { map_end others.new hash ≡ end }
    ensures rest { (q : ℕ) → q ≢ hash → map_end others.new q ≡ map_end others.old q }
{
    if end == 0 {
        others.remove(&hash);
        return;
    }
    match others.insert(hash, end) {
        Ok(_) => {}
        Err(_) => unreachable!(),
    }
}

// What stands for an end in a slot.
fn slot_end(end: u32) -> u32
    ensures { result ≡ (if end == 0 then gone else end) }
{
    if end == 0 { GONE } else { end }
}

// The hash at a place, whose last place it is, has another last end.
fn set_end(
    slots: &mut Vec<u32>,
    others: &mut BTreeMap<u64, u32>,
    hashes: &[u64],
    place: usize,
    end: u32,
)
    requires few { length hashes.now < gone }
    requires filed { AreFiled slots.old.items others.old hashes.now }
    requires within { place < length hashes.now }
    requires last { last_end slots.old.items others.old hashes.now (slice_index hashes.now place) ≡ suc place }
    requires down { end ≤ place }
    requires same { EndsAt hashes.now (slice_index hashes.now place) end }
    ensures { Ended slots.old.items others.old hashes.now place end slots.new.items others.new }
{
    let hash = hashes[place];
    let slot = slot_of(hash, slots.len());
    if stands_in(slots.as_slice(), slot, place + 1) {
        slots[slot] = slot_end(end);
        return;
    }
    set_in_map(others, hash, end);
}

// The place above this one, of the hash of another place above it, whose link leads to this place or below it.
fn reach(befores: &[u32], hashes: &[u64], from: usize, place: usize) -> usize
    requires down { LeadDown place befores.now hashes.now }
    requires above { place < from }
    requires within { from < length hashes.now }
    ensures { IsReached from place befores.now hashes.now result }
{
    let mut found = from;
    while befores[found] as usize > place + 1 {
        found = befores[found] as usize - 1;
    }
    found
}

// Takes a place out of the links of its hash.
fn unlink(
    slots: &mut Vec<u32>,
    others: &mut BTreeMap<u64, u32>,
    befores: &mut Vec<u32>,
    hashes: &[u64],
    place: usize,
)
    requires linked { IsLinked slots.old.items others.old befores.old.items hashes.now }
    requires within { place < length hashes.now }
    ensures { IsParted place slots.new.items others.new befores.new.items hashes.now }
{
    let before = befores[place];
    let end = last_in(slots.as_slice(), others, hashes, hashes[place]);
    if end == place + 1 {
        set_end(slots, others, hashes, place, before);
        return;
    }
    let next = reach(befores.as_slice(), hashes, end - 1, place);
    befores[next] = before;
}

// Gives a place that nothing leads to the last hash, and puts it into that one's links.
fn take_over(
    slots: &[u32],
    others: &BTreeMap<u64, u32>,
    befores: &mut Vec<u32>,
    hashes: &mut Vec<u64>,
    place: usize,
)
    requires parted { IsParted place slots.now others.now befores.old.items hashes.old.items }
    requires within { place + 1 < length hashes.old.items }
    ensures linked { IsLinked slots.now others.now befores.new.items hashes.new.items }
    ensures hashes { hashes.new.items ≡ slice_set hashes.old.items place (slice_index hashes.old.items (length hashes.old.items - 1)) }
{
    let _ = slots;
    let _ = others;
    let last = hashes.len() - 1;
    let next = reach(befores.as_slice(), hashes.as_slice(), last, place);
    befores[place] = befores[next];
    befores[next] = end_of(place);
    hashes[place] = hashes[last];
}

// Takes the last place away, which nothing leads to.
fn cut(slots: &[u32], others: &BTreeMap<u64, u32>, befores: &mut Vec<u32>, hashes: &mut Vec<u64>)
    requires some { 0 < length hashes.old.items }
    requires parted { IsParted (length hashes.old.items - 1) slots.now others.now befores.old.items hashes.old.items }
    ensures linked { IsLinked slots.now others.now befores.new.items hashes.new.items }
    ensures hashes { hashes.new.items ≡ take (length hashes.old.items - 1) hashes.old.items }
{
    let _ = slots;
    let _ = others;
    befores.pop();
    hashes.pop();
}

// Ensures that nothing leads to the last place, if nothing leads to this one: the last hash comes to it.
fn free_last(
    slots: &mut Vec<u32>,
    others: &mut BTreeMap<u64, u32>,
    befores: &mut Vec<u32>,
    hashes: &mut Vec<u64>,
    place: usize,
)
    requires parted { IsParted place slots.old.items others.old befores.old.items hashes.old.items }
    requires within { place < length hashes.old.items }
    ensures parted { IsParted (length hashes.old.items - 1) slots.new.items others.new befores.new.items hashes.new.items }
    ensures hashes { hashes.new.items ≡ slice_set hashes.old.items place (slice_index hashes.old.items (length hashes.old.items - 1)) }
{
    let last = hashes.len() - 1;
    if place == last {
        return;
    }
    take_over(slots.as_slice(), others, befores, hashes, place);
    unlink(slots, others, befores, hashes.as_slice(), last);
}

// Takes the hash at a place away. The last one comes to its place.
fn remove_at(
    slots: &mut Vec<u32>,
    others: &mut BTreeMap<u64, u32>,
    befores: &mut Vec<u32>,
    hashes: &mut Vec<u64>,
    place: usize,
)
    requires linked { IsLinked slots.old.items others.old befores.old.items hashes.old.items }
    requires within { place < length hashes.old.items }
    ensures linked { IsLinked slots.new.items others.new befores.new.items hashes.new.items }
    ensures hashes { hashes.new.items ≡ swap_remove hashes.old.items place 0 }
{
    unlink(slots, others, befores, hashes.as_slice(), place);
    free_last(slots, others, befores, hashes, place);
    cut(slots.as_slice(), others, befores, hashes);
}

// A list of as many free slots.
fn free_slots(alloc: Global, count: usize) -> Result<Vec<u32>, AllocError>
    ensures { IfOk result (λ slots. AreFree slots.items) }
{
    let mut slots = Vec::new(alloc);
    slots.resize(count, 0)?;
    Ok(slots)
}

// How many slots so many hashes get, of this number at most: as few as there can be so that they aren't full.
fn slots_for(hashes: usize, most: usize) -> usize {
    let mut count = most;
    while count > FEWEST_SLOTS && hashes < count / 4 {
        count /= 2;
    }
    count
}

impl HashIndex {
    /// No hashes. It allocates nothing.
    pub fn new(alloc: Global) -> HashIndex
        ensures { result ≡ [] }
    {
        HashIndex {
            slots: Vec::new(alloc),
            others: BTreeMap::new(alloc),
            befores: Vec::new(alloc),
            hashes: Vec::new(alloc),
            left: 0,
        }
    }

    /// The end of the last place of a hash.
    pub fn last(&self, hash: u64) -> usize
        ensures within { result ≤ length self.now }
        ensures found { EndsAt self.now hash result }
        ensures none { NoneFrom self.now hash result (length self.now) }
    {
        last_in(
            self.slots.as_slice(),
            &self.others,
            self.hashes.as_slice(),
            hash,
        )
    }

    /// The end of the last place below this one that has its hash.
    pub fn before(&self, place: usize) -> usize
        requires { place < length self.now }
        ensures down { result ≤ place }
        ensures found { EndsAt self.now (slice_index self.now place) result }
        ensures none { NoneFrom self.now (slice_index self.now place) result place }
    {
        self.befores[place] as usize
    }

    // Adds a hash at the end, with the slots that there are. The last place of the hash has this end.
    fn add(&mut self, hash: u64, before: usize) -> Result<(), AllocError>
        requires few { length self.old + 1 < gone }
        requires within { before ≤ length self.old }
        requires found { EndsAt self.old hash before }
        requires none { NoneFrom self.old hash before (length self.old) }
        ensures ok { OnOk result (self.new ≡ self.old ++ hash ∷ []) }
        ensures err { OnErr result (self.new ≡ self.old) }
    {
        self.befores.reserve(1)?;
        self.hashes.reserve(1)?;
        note(
            &mut self.slots,
            &mut self.others,
            self.hashes.as_slice(),
            hash,
        )?;
        self.befores.push_reserved(before as u32);
        self.hashes.push_reserved(hash);
        Ok(())
    }

    // Puts the hashes into so many new slots, none of which is `GONE`. The links stay as they are.
    fn fill_slots(&mut self, count: usize) -> Result<(), AllocError>
        ensures { self.new ≡ self.old }
    {
        let alloc = *self.hashes.allocator();
        let mut slots = free_slots(alloc, count)?;
        let mut others = BTreeMap::new(alloc);
        note_all(&mut slots, &mut others, self.hashes.as_slice())?;
        self.slots = slots;
        self.others = others;
        self.left = 0;
        Ok(())
    }

    // Gives the hashes twice as many slots.
    fn widen(&mut self) -> Result<(), AllocError>
        ensures { self.new ≡ self.old }
    {
        let count = self.slots.len().saturating_mul(2).max(FEWEST_SLOTS);
        self.fill_slots(count)
    }

    // Gives the hashes new slots, if more hashes than an eighth of the slots left since these were filled: as many as
    // before, or fewer if the hashes would fill less than a quarter of them. If these can't be allocated, the old ones
    // stay.
    fn renew_slots(&mut self)
        ensures { self.new ≡ self.old }
    {
        if self.left > self.slots.len() / 8 {
            self.left = 0;
            let count = slots_for(self.hashes.len(), self.slots.len());
            let _ = self.fill_slots(count);
        }
    }

    /// Gives memory back if the hashes use less than a quarter of it.
    pub fn give_room_back(&mut self)
        ensures { self.new ≡ self.old }
    {
        give_room_back(&mut self.befores);
        give_room_back(&mut self.hashes);
        self.renew_slots();
    }

    /// Removes the hash at a place. The last one comes to its place. It allocates nothing.
    pub fn remove(&mut self, place: usize)
        requires { place < length self.old }
        ensures { self.new ≡ swap_remove self.old place 0 }
    {
        remove_at(
            &mut self.slots,
            &mut self.others,
            &mut self.befores,
            &mut self.hashes,
            place,
        );
        self.left = self.left.saturating_add(1);
    }

    // How many hashes there are.
    fn len(&self) -> usize
        ensures { result ≡ length self.now }
    {
        self.hashes.len()
    }

    // Whether there are so many hashes that more slots are wanted.
    fn is_full(&self) -> bool {
        self.hashes.len() >= self.slots.len() / 2
    }
}

/// Adds a hash at the end, whose last place has this end.
pub fn push(index: &mut HashIndex, hash: u64, end: usize) -> Result<(), AllocError>
    requires within { end ≤ length index.old }
    requires found { EndsAt index.old hash end }
    requires none { NoneFrom index.old hash end (length index.old) }
    ensures ok { OnOk result (index.new ≡ index.old ++ hash ∷ []) }
    ensures err { OnErr result (index.new ≡ index.old) }
{
    if index.is_full() {
        index.widen()?;
    }
    if index.len() >= MOST {
        return Err(AllocError);
    }
    index.add(hash, end)
}
