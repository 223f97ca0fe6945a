//! One constraint's part of a change: the changed row leaves a group and enters another, and the flags follow.
ghost use Rattle.std.specs.Prelude.{◌≡◌, ℕ, ◌<◌, ◌≤◌, Bool, List, length, if◌then◌else◌, Some, true, false, OnOk};
ghost use Rattle.iv_value.specs.declared.value.Value.{Value};
ghost use Rattle.iv_value.specs.Values.{all_same};
ghost use Rattle.iv_key.specs.Keys.{none_null};
ghost use Rattle.iv_store_groups.specs.Groups.{groups_of, room_of};
ghost use Rattle.iv_store_violating.specs.Shown.{shown_of};
ghost use Rattle.iv_laws_kept.specs.Kept.{keeps_nulls, rows_in, violates_alone};
ghost use Rattle.iv_laws_kept.specs.GroupFlags.{violating_of};
ghost use Rattle.iv_laws_kept.specs.Moves.{left};
ghost use Rattle.iv_laws_kept.specs.Numbers.{has, with_number, without};
ghost use Rattle.iv_store_following.specs.KeyGroups.{break_by, violate_by, Flagged};
ghost use Rattle.iv_store_following.specs.BorrowedChange.{come, is_key, side_key, stays_put};
ghost use Rattle.iv_store_following.specs.Steps.{IsReady, IsWatched, OnlyOf, RowMoved, RowsStay};

use crate::borrowed_change::BorrowedChange;
use crate::keys::{is_free, is_one_key, new_key, old_key};
use crate::shown::{find, make_room, put, recall_order, take};
use iv_catalogue::{Constraint, Rule};
use iv_key::Key;
use iv_store_groups::CountedGroups;
use iv_store_violating::ViolatingGroups;
use iv_syntax::NullTreatment;
use std::alloc::AllocError;

// Whether a rule keeps keys with nulls like others.
fn keeps_nulls(rule: &Rule) -> bool
    ensures { result ≡ keeps_nulls rule.now }
{
    match rule {
        Rule::NotNull(_) => false,
        Rule::Check(_) => false,
        Rule::Unique(nulls, _) => match nulls {
            NullTreatment::Distinct => false,
            NullTreatment::NotDistinct => true,
        },
        Rule::PrimaryKey(_) => false,
        Rule::ForeignKey(_) => false,
    }
}

// Whether each row under a key violates a rule by itself.
fn violates_alone(rule: &Rule, key: &Key<'_>) -> bool
    ensures { result ≡ violates_alone rule.now key.now }
{
    !keeps_nulls(rule) && !key.none_null()
}

// Whether so many rows that have a key break a rule. Whether the key is referenced matters only for a foreign key.
fn breaks(rule: &Rule, key: &Key<'_>, count: usize, referenced: bool) -> bool
    ensures { (is_referenced : List Value → Bool)
        → (keeps_nulls rule.now ≡ false → is_referenced key.now ≡ referenced)
        → result ≡ break_by is_referenced rule.now key.now count }
{
    match rule {
        Rule::NotNull(_) => false,
        Rule::Check(_) => false,
        Rule::Unique(_, _) => count > 1,
        Rule::PrimaryKey(_) => count > 1,
        Rule::ForeignKey(fk) => !(is_free(fk.matching, key) || referenced),
    }
}

/// Whether so many rows under a key violate a rule as a whole.
pub fn violate(rule: &Rule, key: &Key<'_>, count: usize, referenced: bool) -> bool
    ensures { (is_referenced : List Value → Bool)
        → (none_null key.now ≡ true → is_referenced key.now ≡ referenced)
        → result ≡ violate_by is_referenced rule.now key.now count }
{
    count > 0 && (violates_alone(rule, key) || breaks(rule, key, count, referenced))
}

// Adds a row under a key that has room, and flags the key's group if it violates the rule. Whether the key is
// referenced matters only for a foreign key.
fn enter(
    groups: &mut CountedGroups,
    violating: &mut ViolatingGroups,
    id: usize,
    rule: &Rule,
    key: &Key<'_>,
    row: u64,
    referenced: bool,
)
    requires room { 0 < room_of (groups_of groups.old.groups id) key.now }
    requires watched { IsWatched id groups.old.groups violating.old }
    ensures rows { (other : List Value) → rows_in (shown_of groups.new.groups id) other
        ≡ (if all_same key.now other then with_number row (rows_in (shown_of groups.old.groups id) other)
        else rows_in (shown_of groups.old.groups id) other) }
    ensures flagged { (is_referenced : List Value → Bool)
        → (none_null key.now ≡ true → is_referenced key.now ≡ referenced)
        → Flagged is_referenced rule.now (shown_of groups.old.groups id) (violating_of violating.old id)
        → Flagged is_referenced rule.now (shown_of groups.new.groups id) (violating_of violating.new id) }
    ensures only { OnlyOf id 1 groups.old groups.new violating.old violating.new }
    ensures watched { IsWatched id groups.new.groups violating.new }
{
    let found = put(groups, id, key, row);
    violating.set(id, found.place, violate(rule, key, found.count, referenced));
}

// Takes a row out from under a key, and flags the key's group if it still violates the rule.
fn leave(
    groups: &mut CountedGroups,
    violating: &mut ViolatingGroups,
    id: usize,
    rule: &Rule,
    key: &Key<'_>,
    row: u64,
)
    requires present { has row (rows_in (shown_of groups.old.groups id) key.now) ≡ true }
    requires watched { IsWatched id groups.old.groups violating.old }
    ensures rows { (other : List Value) → rows_in (shown_of groups.new.groups id) other
        ≡ (if all_same key.now other then without row (rows_in (shown_of groups.old.groups id) other)
        else rows_in (shown_of groups.old.groups id) other) }
    ensures room { (other : List Value) → room_of (groups_of groups.old.groups id) other
        ≤ room_of (groups_of groups.new.groups id) other }
    ensures flagged { (is_referenced : List Value → Bool)
        → Flagged is_referenced rule.now (shown_of groups.old.groups id) (violating_of violating.old id)
        → Flagged is_referenced rule.now (shown_of groups.new.groups id) (violating_of violating.new id) }
    ensures only { OnlyOf id 1 groups.old groups.new violating.old violating.new }
    ensures watched { IsWatched id groups.new.groups violating.new }
{
    let found = take(groups, id, key, row);
    let referenced = !violating.is_flagged(id, found.place);
    violating.set(id, found.place, violate(rule, key, found.count, referenced));
}

// Takes a row out from under the key of its old side, if it has one.
fn leave_old(
    groups: &mut CountedGroups,
    violating: &mut ViolatingGroups,
    id: usize,
    rule: &Rule,
    key: &Option<Key<'_>>,
    row: u64,
)
    requires present { (k : List Value) → key.now ≡ Some k
        → has row (rows_in (shown_of groups.old.groups id) k) ≡ true }
    requires watched { IsWatched id groups.old.groups violating.old }
    ensures rows { (other : List Value) → rows_in (shown_of groups.new.groups id) other
        ≡ left (is_key key.now other) row (rows_in (shown_of groups.old.groups id) other) }
    ensures room { (other : List Value) → room_of (groups_of groups.old.groups id) other
        ≤ room_of (groups_of groups.new.groups id) other }
    ensures flagged { (is_referenced : List Value → Bool)
        → Flagged is_referenced rule.now (shown_of groups.old.groups id) (violating_of violating.old id)
        → Flagged is_referenced rule.now (shown_of groups.new.groups id) (violating_of violating.new id) }
    ensures only { OnlyOf id 1 groups.old groups.new violating.old violating.new }
    ensures watched { IsWatched id groups.new.groups violating.new }
{
    if let Some(key) = key {
        leave(groups, violating, id, rule, key, row);
    }
}

// Adds a row under the key of its new side, if it has one.
fn enter_new(
    groups: &mut CountedGroups,
    violating: &mut ViolatingGroups,
    id: usize,
    rule: &Rule,
    key: &Option<Key<'_>>,
    row: u64,
    referenced: bool,
)
    requires room { (k : List Value) → key.now ≡ Some k → 0 < room_of (groups_of groups.old.groups id) k }
    requires watched { IsWatched id groups.old.groups violating.old }
    ensures rows { (other : List Value) → rows_in (shown_of groups.new.groups id) other
        ≡ come (is_key key.now other) row (rows_in (shown_of groups.old.groups id) other) }
    ensures flagged { (is_referenced : List Value → Bool)
        → ((k : List Value) → key.now ≡ Some k → none_null k ≡ true → is_referenced k ≡ referenced)
        → Flagged is_referenced rule.now (shown_of groups.old.groups id) (violating_of violating.old id)
        → Flagged is_referenced rule.now (shown_of groups.new.groups id) (violating_of violating.new id) }
    ensures only { OnlyOf id 1 groups.old groups.new violating.old violating.new }
    ensures watched { IsWatched id groups.new.groups violating.new }
{
    if let Some(key) = key {
        enter(groups, violating, id, rule, key, row, referenced);
    }
}

/// Moves a changed row from the key of its old side to that of its new side, and flags both groups anew. It does
/// nothing if the key is the same or the constraint has no group. Whether the new key is referenced matters only for a
/// foreign key. It allocates nothing, and takes at most two look-ups.
pub fn move_row(
    groups: &mut CountedGroups,
    violating: &mut ViolatingGroups,
    id: usize,
    constraint: &Constraint,
    change: &BorrowedChange<'_>,
    referenced: bool,
)
    requires ready { IsReady change.now constraint.now (groups_of groups.old.groups id) }
    requires watched { IsWatched id groups.old.groups violating.old }
    ensures moved { RowMoved change.now constraint.now (shown_of groups.old.groups id)
        (shown_of groups.new.groups id) }
    ensures flagged { (is_referenced : List Value → Bool)
        → ((key : List Value) → stays_put constraint.now change.now ≡ false
        → side_key constraint.now change.now.table change.now.new ≡ Some key
        → none_null key ≡ true → is_referenced key ≡ referenced)
        → Flagged is_referenced constraint.now.rule (shown_of groups.old.groups id) (violating_of violating.old id)
        → Flagged is_referenced constraint.now.rule (shown_of groups.new.groups id) (violating_of violating.new id) }
    ensures only { OnlyOf id 2 groups.old groups.new violating.old violating.new }
    ensures watched { IsWatched id groups.new.groups violating.new }
{
    recall_order(groups);
    if groups.count_groups(id) == 0 {
        return;
    }
    let old = old_key(constraint, change);
    let new = new_key(constraint, change);
    if is_one_key(&old, &new) {
        return;
    }
    leave_old(groups, violating, id, &constraint.rule, &old, change.row());
    enter_new(
        groups,
        violating,
        id,
        &constraint.rule,
        &new,
        change.row(),
        referenced,
    );
}

// Flags the group of a key of a foreign key anew.
fn refer_to(
    groups: &mut CountedGroups,
    violating: &mut ViolatingGroups,
    id: usize,
    rule: &Rule,
    key: &Key<'_>,
    referenced: bool,
)
    requires watched { IsWatched id groups.old.groups violating.old }
    ensures kept { groups.new.groups ≡ groups.old.groups }
    ensures flagged { (before after : List Value → Bool) → after key.now ≡ referenced
        → ((other : List Value) → none_null other ≡ true → all_same key.now other ≡ false → after other ≡ before other)
        → Flagged before rule.now (shown_of groups.old.groups id) (violating_of violating.old id)
        → Flagged after rule.now (shown_of groups.new.groups id) (violating_of violating.new id) }
    ensures only { OnlyOf id 1 groups.old groups.new violating.old violating.new }
    ensures watched { IsWatched id groups.new.groups violating.new }
{
    if let Some(found) = find(groups, id, key) {
        violating.set(id, found.place, violate(rule, key, found.count, referenced));
    }
}

/// Flags the group of a foreign key's key anew, after the key came to be referenced or no longer is. It allocates
/// nothing, and takes at most one look-up.
pub fn refer(
    groups: &mut CountedGroups,
    violating: &mut ViolatingGroups,
    id: usize,
    rule: &Rule,
    key: &Option<Key<'_>>,
    referenced: bool,
)
    requires watched { IsWatched id groups.old.groups violating.old }
    ensures kept { groups.new.groups ≡ groups.old.groups }
    ensures flagged { (before after : List Value → Bool)
        → ((k : List Value) → key.now ≡ Some k → after k ≡ referenced)
        → ((other : List Value) → none_null other ≡ true → is_key key.now other ≡ false → after other ≡ before other)
        → Flagged before rule.now (shown_of groups.old.groups id) (violating_of violating.old id)
        → Flagged after rule.now (shown_of groups.new.groups id) (violating_of violating.new id) }
    ensures only { OnlyOf id 1 groups.old groups.new violating.old violating.new }
    ensures watched { IsWatched id groups.new.groups violating.new }
{
    if let Some(key) = key {
        refer_to(groups, violating, id, rule, key, referenced);
    }
}

/// Makes room for the new side of a change under its key, unless it is that of the old side. No row and no flag
/// changes. It takes at most one look-up.
pub fn make_room_for(
    groups: &mut CountedGroups,
    violating: &mut ViolatingGroups,
    id: usize,
    constraint: &Constraint,
    change: &BorrowedChange<'_>,
) -> Result<(), AllocError>
    requires watched { IsWatched id groups.old.groups violating.old }
    ensures stay { RowsStay constraint.now (shown_of groups.old.groups id) (violating_of violating.old id)
        (shown_of groups.new.groups id) (violating_of violating.new id) }
    ensures room { OnOk result ((key : List Value) → stays_put constraint.now change.now ≡ false
        → side_key constraint.now change.now.table change.now.new ≡ Some key
        → 0 < room_of (groups_of groups.new.groups id) key) }
    ensures only { OnlyOf id 1 groups.old groups.new violating.old violating.new }
    ensures watched { IsWatched id groups.new.groups violating.new }
{
    let new = new_key(constraint, change);
    if new.is_none() {
        return Ok(());
    }
    let old = old_key(constraint, change);
    if is_one_key(&old, &new) {
        return Ok(());
    }
    if let Some(key) = new {
        make_room_under(groups, violating, id, constraint, &key)?;
    }
    Ok(())
}

fn make_room_under(
    groups: &mut CountedGroups,
    violating: &mut ViolatingGroups,
    id: usize,
    constraint: &Constraint,
    key: &Key<'_>,
) -> Result<(), AllocError>
    requires watched { IsWatched id groups.old.groups violating.old }
    ensures stay { RowsStay constraint.now (shown_of groups.old.groups id) (violating_of violating.old id)
        (shown_of groups.new.groups id) (violating_of violating.new id) }
    ensures room { OnOk result (0 < room_of (groups_of groups.new.groups id) key.now) }
    ensures only { OnlyOf id 1 groups.old groups.new violating.old violating.new }
    ensures watched { IsWatched id groups.new.groups violating.new }
{
    violating.cover_places(id, groups.count_groups(id) + 1)?;
    make_room(groups, id, key)?;
    Ok(())
}
