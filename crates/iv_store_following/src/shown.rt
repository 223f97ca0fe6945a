//! The groups of one constraint, told without the room that their keys have.
ghost use Rattle.std.specs.Prelude.{◌≡◌, ◌≢◌, ℕ, ◌+◌, ◌<◌, ◌≤◌, List, length, option_map, Some, true, IfSome, OnOk, OnErr};
ghost use Rattle.iv_value.specs.declared.value.Value.{Value};
ghost use Rattle.iv_store_groups.specs.Groups.{groups_of, room_of};
ghost use Rattle.iv_store_groups.specs.Laws.{size_of};
ghost use Rattle.iv_store_violating.specs.Shown.{shown_of};
ghost use Rattle.iv_laws_kept.specs.Kept.{OneEach, rows_in};
ghost use Rattle.iv_laws_kept.specs.Numbers.{has, with_number, without, Rise};
ghost use Rattle.iv_laws_kept.specs.GroupFlags.{rows_at};
ghost use Rattle.iv_store_following.specs.KeyGroups.{place_of, with_group, with_rows};

use iv_key::Key;
use iv_store_groups::{CountedGroups, FoundGroup};
use std::alloc::AllocError;

/// The group of a key. It takes one look-up.
pub fn find(groups: &mut CountedGroups, id: usize, key: &Key<'_>) -> Option<FoundGroup>
    ensures place { option_map (λ g. g.place) result ≡ place_of (shown_of groups.old.groups id) key.now }
    ensures count { IfSome result (λ g. g.count ≡ length (rows_at (shown_of groups.old.groups id) g.place)) }
    ensures once { OneEach (shown_of groups.old.groups id) }
    ensures kept { groups.new.groups ≡ groups.old.groups }
    ensures grows { groups.old.looked_up ≤ groups.new.looked_up }
    ensures looked_up { groups.new.looked_up ≤ groups.old.looked_up + 1 }
{
    groups.recall_groups();
    groups.find(id, key)
}

/// Does nothing. Its contract says that the rows under each key rise.
pub fn recall_order(groups: &CountedGroups)
    ensures { (id : ℕ) (key : List Value) → Rise (rows_in (shown_of groups.now.groups id) key) }
{
    groups.recall_groups();
}

/// Ensures that a key has room for one more row, in its group or in a new one behind the others. It takes one look-up.
pub fn make_room(groups: &mut CountedGroups, id: usize, key: &Key<'_>) -> Result<(), AllocError>
    requires known { id < length groups.old.groups }
    ensures ok { OnOk result (shown_of groups.new.groups id ≡ with_group key.now (shown_of groups.old.groups id)) }
    ensures err { OnErr result (groups.new.groups ≡ groups.old.groups) }
    ensures room { OnOk result (0 < room_of (groups_of groups.new.groups id) key.now) }
    ensures others { (k : ℕ) → k ≢ id → groups_of groups.new.groups k ≡ groups_of groups.old.groups k }
    ensures count { length groups.new.groups ≡ length groups.old.groups }
    ensures sizes { (k : ℕ) (other : List Value) → size_of (groups_of groups.old.groups k) other ≤ size_of (groups_of groups.new.groups k) other }
    ensures grows { groups.old.looked_up ≤ groups.new.looked_up }
    ensures looked_up { groups.new.looked_up ≤ groups.old.looked_up + 1 }
{
    groups.make_room(id, key)?;
    Ok(())
}

/// Adds a row to the group of a key that has room, if it isn't in it, and answers that group. It allocates nothing, and
/// takes one look-up.
pub fn put(groups: &mut CountedGroups, id: usize, key: &Key<'_>, row: u64) -> FoundGroup
    requires known { id < length groups.old.groups }
    requires room { 0 < room_of (groups_of groups.old.groups id) key.now }
    ensures place { place_of (shown_of groups.old.groups id) key.now ≡ Some result.place }
    ensures held { result.count ≡ length (rows_at (shown_of groups.new.groups id) result.place) }
    ensures rows { shown_of groups.new.groups id
        ≡ with_rows (shown_of groups.old.groups id) result.place (with_number row (rows_at (shown_of groups.old.groups id) result.place)) }
    ensures others { (k : ℕ) → k ≢ id → groups_of groups.new.groups k ≡ groups_of groups.old.groups k }
    ensures count { length groups.new.groups ≡ length groups.old.groups }
    ensures sizes { (k : ℕ) (other : List Value) → size_of (groups_of groups.old.groups k) other ≤ size_of (groups_of groups.new.groups k) other }
    ensures grows { groups.old.looked_up ≤ groups.new.looked_up }
    ensures looked_up { groups.new.looked_up ≤ groups.old.looked_up + 1 }
{
    groups.recall_groups();
    groups.put_back(id, key, row)
}

/// Removes a row from the group of a key, and answers that group. It allocates nothing, and takes one look-up.
pub fn take(groups: &mut CountedGroups, id: usize, key: &Key<'_>, row: u64) -> FoundGroup
    requires known { id < length groups.old.groups }
    requires present { has row (rows_in (shown_of groups.old.groups id) key.now) ≡ true }
    ensures place { place_of (shown_of groups.old.groups id) key.now ≡ Some result.place }
    ensures held { result.count ≡ length (rows_at (shown_of groups.new.groups id) result.place) }
    ensures rows { shown_of groups.new.groups id
        ≡ with_rows (shown_of groups.old.groups id) result.place (without row (rows_at (shown_of groups.old.groups id) result.place)) }
    ensures room { (other : List Value) → room_of (groups_of groups.old.groups id) other ≤ room_of (groups_of groups.new.groups id) other }
    ensures others { (k : ℕ) → k ≢ id → groups_of groups.new.groups k ≡ groups_of groups.old.groups k }
    ensures count { length groups.new.groups ≡ length groups.old.groups }
    ensures sizes { (k : ℕ) (other : List Value) → size_of (groups_of groups.old.groups k) other ≤ size_of (groups_of groups.new.groups k) other }
    ensures grows { groups.old.looked_up ≤ groups.new.looked_up }
    ensures looked_up { groups.new.looked_up ≤ groups.old.looked_up + 1 }
{
    groups.recall_groups();
    groups.remove(id, key, row)
}
