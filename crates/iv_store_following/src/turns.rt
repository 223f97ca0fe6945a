//! A change's parts, constraint by constraint.
ghost use Rattle.std.specs.Prelude.{◌≡◌, ◌≢◌, ℕ, ◌<◌, [], List, length, slice_get, Some, true, false, OnOk, OnErr};
ghost use Rattle.std.specs.Option.{option_copied};
ghost use Rattle.iv_value.specs.declared.value.Value.{Value};
ghost use Rattle.iv_catalogue.specs.declared.constraint.Constraint.{Constraint};
ghost use Rattle.iv_store_groups.specs.Groups.{groups_of};
ghost use Rattle.iv_laws_kept.specs.GroupFlags.{violating_of};
ghost use Rattle.iv_laws_kept.specs.Numbers.{has};
ghost use Rattle.iv_store_violating.specs.Flagging.{NoRepeats};
ghost use Rattle.iv_store_following.specs.declared.reference.KeyReference.{KeyReference as Refers};
ghost use Rattle.iv_store_following.specs.References.{ReferenceMoved, reference_at};
ghost use Rattle.iv_store_violating.specs.Shown.{shown_of};
ghost use Rattle.iv_store_following.specs.Steps.{IsReady, IsWatched, OnlyOf};
ghost use Rattle.iv_store_following.specs.Turns.{AllStay, HasRoom, KeyTurn, ReferenceTurn, RoomTurn, StayTurn, Turned};

use crate::borrowed_change::BorrowedChange;
use crate::reference::{KeyReference, move_reference};
use crate::step::{make_room_for, move_row};
use iv_catalogue::Constraint;
use iv_store_groups::CountedGroups;
use iv_store_violating::ViolatingGroups;
use std::alloc::AllocError;

// The constraint of a number.
fn constraint_at(constraints: &[Constraint], id: usize) -> Option<&Constraint>
    ensures { option_copied result ≡ slice_get constraints.now id }
{
    constraints.get(id)
}

// The part of a constraint that is no foreign key.
fn move_key(
    groups: &mut CountedGroups,
    violating: &mut ViolatingGroups,
    id: usize,
    constraints: &[Constraint],
    change: &BorrowedChange<'_>,
)
    requires watched { IsWatched id groups.old.groups violating.old }
    requires ready { (c : Constraint) → slice_get constraints.now id ≡ Some c
        → IsReady change.now c (groups_of groups.old.groups id) }
    ensures moved { KeyTurn constraints.now change.now id (groups_of groups.old.groups id)
        (violating_of violating.old id) (groups_of groups.new.groups id) (violating_of violating.new id) }
    ensures only { OnlyOf id 2 groups.old groups.new violating.old violating.new }
    ensures watched { IsWatched id groups.new.groups violating.new }
{
    if let Some(constraint) = constraint_at(constraints, id) {
        move_row(groups, violating, id, constraint, change, false);
    }
}

/// The parts of these constraints, none of which is a foreign key. It allocates nothing.
pub fn move_keys(
    groups: &mut CountedGroups,
    violating: &mut ViolatingGroups,
    places: &[u32],
    constraints: &[Constraint],
    change: &BorrowedChange<'_>,
)
    requires once { NoRepeats places.now }
    requires watched { (k : ℕ) → has k places.now ≡ true → IsWatched k groups.old.groups violating.old }
    requires ready { (k : ℕ) (c : Constraint) → has k places.now ≡ true
        → slice_get constraints.now k ≡ Some c → IsReady change.now c (groups_of groups.old.groups k) }
    ensures { Turned (KeyTurn constraints.now change.now) 2 places.now [] groups.old groups.new violating.old violating.new }
{
    for place in places {
        move_key(groups, violating, *place as usize, constraints, change);
    }
}

/// The reference of a constraint, if it is a foreign key.
pub fn reference_at(references: &[Option<KeyReference>], id: usize) -> Option<&KeyReference>
    ensures { option_copied result ≡ reference_at references.now id }
{
    match references.get(id) {
        Some(reference) => reference.as_ref(),
        None => None,
    }
}

// The part of a foreign key, by its reference.
fn move_by(
    groups: &mut CountedGroups,
    violating: &mut ViolatingGroups,
    id: usize,
    constraints: &[Constraint],
    r: &KeyReference,
    change: &BorrowedChange<'_>,
)
    requires watched { IsWatched id groups.old.groups violating.old }
    requires known { r.now.named < length groups.old.groups }
    requires apart { id ≢ r.now.named }
    requires ready { (c : Constraint) → slice_get constraints.now id ≡ Some c
        → IsReady change.now c (groups_of groups.old.groups id) }
    ensures moved { (c : Constraint) → slice_get constraints.now id ≡ Some c
        → ReferenceMoved r.now change.now (shown_of groups.old.groups r.now.named) c
        (shown_of groups.old.groups id) (violating_of violating.old id)
        (shown_of groups.new.groups id) (violating_of violating.new id) }
    ensures only { OnlyOf id 6 groups.old groups.new violating.old violating.new }
    ensures watched { IsWatched id groups.new.groups violating.new }
{
    if let Some(constraint) = constraint_at(constraints, id) {
        move_reference(groups, violating, id, constraint, r, change);
    }
}

// The part of a foreign key.
fn move_at(
    groups: &mut CountedGroups,
    violating: &mut ViolatingGroups,
    id: usize,
    constraints: &[Constraint],
    references: &[Option<KeyReference>],
    change: &BorrowedChange<'_>,
)
    requires watched { IsWatched id groups.old.groups violating.old }
    requires named { (r : Refers) → reference_at references.now id ≡ Some r
        → (r.named < length groups.old.groups) × (id ≢ r.named) }
    requires ready { (c : Constraint) → slice_get constraints.now id ≡ Some c
        → IsReady change.now c (groups_of groups.old.groups id) }
    ensures moved { ReferenceTurn constraints.now references.now change.now groups.old.groups id
        (groups_of groups.old.groups id) (violating_of violating.old id)
        (groups_of groups.new.groups id) (violating_of violating.new id) }
    ensures only { OnlyOf id 6 groups.old groups.new violating.old violating.new }
    ensures watched { IsWatched id groups.new.groups violating.new }
{
    if let Some(r) = reference_at(references, id) {
        move_by(groups, violating, id, constraints, r, change);
    }
}

/// The parts of these foreign keys, after those of the keys that they name. It allocates nothing.
pub fn move_references(
    groups: &mut CountedGroups,
    violating: &mut ViolatingGroups,
    places: &[u32],
    constraints: &[Constraint],
    references: &[Option<KeyReference>],
    change: &BorrowedChange<'_>,
)
    requires once { NoRepeats places.now }
    requires watched { (k : ℕ) → has k places.now ≡ true → IsWatched k groups.old.groups violating.old }
    requires named { (k : ℕ) (r : Refers) → reference_at references.now k ≡ Some r
        → (r.named < length groups.old.groups) × (has r.named places.now ≡ false) }
    requires ready { (k : ℕ) (c : Constraint) → has k places.now ≡ true
        → slice_get constraints.now k ≡ Some c → IsReady change.now c (groups_of groups.old.groups k) }
    ensures { Turned (ReferenceTurn constraints.now references.now change.now groups.old.groups) 6 places.now []
        groups.old groups.new violating.old violating.new }
{
    for place in places {
        move_at(
            groups,
            violating,
            *place as usize,
            constraints,
            references,
            change,
        );
    }
}

// Room for one constraint's part of a change.
fn make_room_at(
    groups: &mut CountedGroups,
    violating: &mut ViolatingGroups,
    id: usize,
    constraints: &[Constraint],
    change: &BorrowedChange<'_>,
) -> Result<(), AllocError>
    requires watched { IsWatched id groups.old.groups violating.old }
    ensures stay { StayTurn constraints.now id (groups_of groups.old.groups id) (violating_of violating.old id)
        (groups_of groups.new.groups id) (violating_of violating.new id) }
    ensures room { OnOk result (HasRoom constraints.now change.now id (groups_of groups.new.groups id)) }
    ensures only { OnlyOf id 1 groups.old groups.new violating.old violating.new }
    ensures watched { IsWatched id groups.new.groups violating.new }
{
    if let Some(constraint) = constraint_at(constraints, id) {
        make_room_for(groups, violating, id, constraint, change)?;
    }
    Ok(())
}

/// Room for a change in these constraints. No row moves, whether or not an allocation fails.
pub fn make_rooms(
    groups: &mut CountedGroups,
    violating: &mut ViolatingGroups,
    places: &[u32],
    constraints: &[Constraint],
    change: &BorrowedChange<'_>,
) -> Result<(), AllocError>
    requires once { NoRepeats places.now }
    requires watched { (k : ℕ) → has k places.now ≡ true → IsWatched k groups.old.groups violating.old }
    ensures room { OnOk result ((k : ℕ) → has k places.now ≡ true
        → HasRoom constraints.now change.now k (groups_of groups.new.groups k)) }
    ensures stay { AllStay constraints.now (length places.now) groups.old groups.new violating.old violating.new }
{
    for place in places {
        make_room_at(groups, violating, *place as usize, constraints, change)?;
    }
    Ok(())
}
