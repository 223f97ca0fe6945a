//! A foreign key's part of a change.
ghost use Rattle.std.specs.Prelude.{◌≡◌, ◌≢◌, ℕ, ◌+◌, ◌<◌, ◌≤◌, ◌==◌, Bool, List, length, Some, not, true, false};
ghost use Rattle.iv_value.specs.declared.value.Value.{Value};
ghost use Rattle.iv_key.specs.Keys.{key_of};
ghost use Rattle.iv_store_groups.specs.Groups.{groups_of};
ghost use Rattle.iv_store_violating.specs.Shown.{shown_of};
ghost use Rattle.iv_laws_kept.specs.Kept.{is_empty, rows_in};
ghost use Rattle.iv_laws_kept.specs.GroupFlags.{violating_of};
ghost use Rattle.iv_store_following.specs.References.{ChildIsFlagged, KeysAreReferred, ReferenceMoved, TellsOld, TellsReferenced};
ghost use Rattle.iv_store_following.specs.BorrowedChange.{stays_put};
ghost use Rattle.iv_store_following.specs.Steps.{IsReady, IsWatched, OnlyOf, RowMoved};

use crate::borrowed_change::BorrowedChange;
use crate::keys::{is_one_key, new_key, new_referenced_key, old_key, old_referenced_key};
use crate::shown::find;
use crate::step::{move_row, refer};
use iv_catalogue::{Constraint, ForeignKey};
use iv_key::Key;
use iv_store_groups::CountedGroups;
use iv_store_violating::ViolatingGroups;
use iv_value::Value;
use sqlite_items::Items;

/// A foreign key with the number of the key that it names, that key's columns, and the referencing columns that are
/// paired with these and with the foreign key's own list.
#[derive(Drop)]
pub struct KeyReference {
    pub key: ForeignKey,
    pub named: usize,
    pub named_columns: Items<u32>,
    pub columns: Items<u32>,
    pub back: Items<u32>,
}

// Whether some row is kept under a key of a constraint. One look-up.
fn has_rows(groups: &mut CountedGroups, id: usize, key: &Key<'_>) -> bool
    requires known { id < length groups.old.groups }
    ensures has { result ≡ not (is_empty (rows_in (shown_of groups.old.groups id) key.now)) }
    ensures kept { groups.new.groups ≡ groups.old.groups }
    ensures grows { groups.old.looked_up ≤ groups.new.looked_up }
    ensures looked_up { groups.new.looked_up ≤ groups.old.looked_up + 1 }
{
    match find(groups, id, key) {
        Some(found) => found.count > 0,
        None => false,
    }
}

// Whether rows are kept under the key of the old side of a change, in the columns of the named key. One look-up.
fn old_is_referenced(
    groups: &mut CountedGroups,
    r: &KeyReference,
    change: &BorrowedChange<'_>,
) -> bool
    requires known { r.now.named < length groups.old.groups }
    ensures told { TellsOld r.now change.now (shown_of groups.old.groups r.now.named) result }
    ensures kept { groups.new.groups ≡ groups.old.groups }
    ensures grows { groups.old.looked_up ≤ groups.new.looked_up }
    ensures looked_up { groups.new.looked_up ≤ groups.old.looked_up + 1 }
{
    match change.old() {
        Some(row) => has_rows(
            groups,
            r.named,
            &Key::new(r.named_columns.as_slice(), row.values()),
        ),
        None => false,
    }
}

/// Whether the key of a referencing row is referenced. It takes one look-up.
pub fn is_referenced(groups: &mut CountedGroups, r: &KeyReference, row: &[Value]) -> bool
    requires known { r.now.named < length groups.old.groups }
    ensures told { TellsReferenced r.now row.now (shown_of groups.old.groups r.now.named) result }
    ensures kept { groups.new.groups ≡ groups.old.groups }
    ensures grows { groups.old.looked_up ≤ groups.new.looked_up }
    ensures looked_up { groups.new.looked_up ≤ groups.old.looked_up + 1 }
{
    if r.key.columns.len() != r.key.key.len() {
        return false;
    }
    let own = Key::new(r.key.columns.as_slice(), row);
    if !Key::new(r.back.as_slice(), row).same(&own) {
        return false;
    }
    has_rows(groups, r.named, &Key::new(r.columns.as_slice(), row))
}

// Whether the key of the new side of a change is referenced. One look-up.
fn new_is_referenced(
    groups: &mut CountedGroups,
    r: &KeyReference,
    change: &BorrowedChange<'_>,
) -> bool
    requires known { r.now.named < length groups.old.groups }
    ensures told { (row : List Value) → change.now.new ≡ Some row
        → TellsReferenced r.now row (shown_of groups.old.groups r.now.named) result }
    ensures kept { groups.new.groups ≡ groups.old.groups }
    ensures grows { groups.old.looked_up ≤ groups.new.looked_up }
    ensures looked_up { groups.new.looked_up ≤ groups.old.looked_up + 1 }
{
    match change.new() {
        Some(row) => is_referenced(groups, r, row.values()),
        None => false,
    }
}

// Flags the groups anew whose keys are the referenced keys of the two sides; nothing is done if it is one
// key.
fn refer_sides(
    groups: &mut CountedGroups,
    violating: &mut ViolatingGroups,
    id: usize,
    constraint: &Constraint,
    r: &KeyReference,
    change: &BorrowedChange<'_>,
)
    requires watched { IsWatched id groups.old.groups violating.old }
    requires known { r.now.named < length groups.old.groups }
    ensures kept { groups.new.groups ≡ groups.old.groups }
    ensures flagged { KeysAreReferred r.now change.now (shown_of groups.old.groups r.now.named) constraint.now
        (shown_of groups.old.groups id) (violating_of violating.old id) (violating_of violating.new id) }
    ensures only { OnlyOf id 3 groups.old groups.new violating.old violating.new }
    ensures watched { IsWatched id groups.new.groups violating.new }
{
    let old = old_referenced_key(&r.key, change);
    let new = new_referenced_key(&r.key, change);
    if is_one_key(&old, &new) {
        return;
    }
    let referenced = old_is_referenced(groups, r, change);
    refer(groups, violating, id, &constraint.rule, &old, referenced);
    refer(groups, violating, id, &constraint.rule, &new, true);
}

// Whether the key of the new side of a change is referenced, if the row comes to it from another one. One look-up.
fn moved_is_referenced(
    groups: &mut CountedGroups,
    constraint: &Constraint,
    r: &KeyReference,
    change: &BorrowedChange<'_>,
) -> bool
    requires known { r.now.named < length groups.old.groups }
    ensures told { stays_put constraint.now change.now ≡ false
        → (row : List Value) → change.now.new ≡ Some row
        → TellsReferenced r.now row (shown_of groups.old.groups r.now.named) result }
    ensures kept { groups.new.groups ≡ groups.old.groups }
    ensures grows { groups.old.looked_up ≤ groups.new.looked_up }
    ensures looked_up { groups.new.looked_up ≤ groups.old.looked_up + 1 }
{
    let old = old_key(constraint, change);
    let new = new_key(constraint, change);
    if is_one_key(&old, &new) {
        return false;
    }
    new_is_referenced(groups, r, change)
}

// Moves a row of a foreign key's table; nothing is done if its key stays.
fn move_child(
    groups: &mut CountedGroups,
    violating: &mut ViolatingGroups,
    id: usize,
    constraint: &Constraint,
    r: &KeyReference,
    change: &BorrowedChange<'_>,
)
    requires ready { IsReady change.now constraint.now (groups_of groups.old.groups id) }
    requires watched { IsWatched id groups.old.groups violating.old }
    requires known { r.now.named < length groups.old.groups }
    ensures moved { RowMoved change.now constraint.now (shown_of groups.old.groups id)
        (shown_of groups.new.groups id) }
    ensures flagged { ChildIsFlagged r.now change.now (shown_of groups.old.groups r.now.named) constraint.now
        (shown_of groups.old.groups id) (violating_of violating.old id)
        (shown_of groups.new.groups id) (violating_of violating.new id) }
    ensures only { OnlyOf id 3 groups.old groups.new violating.old violating.new }
    ensures watched { IsWatched id groups.new.groups violating.new }
{
    let referenced = moved_is_referenced(groups, constraint, r, change);
    move_row(groups, violating, id, constraint, change, referenced);
}

/// A foreign key's part of a change, after the part of the key that it names. It allocates nothing, and takes at most
/// six look-ups.
pub fn move_reference(
    groups: &mut CountedGroups,
    violating: &mut ViolatingGroups,
    id: usize,
    constraint: &Constraint,
    r: &KeyReference,
    change: &BorrowedChange<'_>,
)
    requires ready { IsReady change.now constraint.now (groups_of groups.old.groups id) }
    requires watched { IsWatched id groups.old.groups violating.old }
    requires known { r.now.named < length groups.old.groups }
    requires apart { id ≢ r.now.named }
    ensures moved { ReferenceMoved r.now change.now (shown_of groups.old.groups r.now.named) constraint.now
        (shown_of groups.old.groups id) (violating_of violating.old id)
        (shown_of groups.new.groups id) (violating_of violating.new id) }
    ensures only { OnlyOf id 6 groups.old groups.new violating.old violating.new }
    ensures watched { IsWatched id groups.new.groups violating.new }
{
    refer_sides(groups, violating, id, constraint, r, change);
    move_child(groups, violating, id, constraint, r, change);
}
