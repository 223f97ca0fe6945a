//! A change of a row, followed by all constraints.
ghost use Rattle.std.specs.Prelude.{◌≡◌, ℕ, ◌<◌, length, slice_get, Some, true, OnOk, OnErr};
ghost use Rattle.iv_catalogue.specs.declared.constraint.Constraint.{Constraint};
ghost use Rattle.iv_store_groups.specs.Groups.{groups_of};
ghost use Rattle.iv_laws_kept.specs.Kept.{AllNamed};
ghost use Rattle.iv_laws_kept.specs.Numbers.{has};
ghost use Rattle.iv_store_violating.specs.Shown.{shown};
ghost use Rattle.iv_store_following.specs.Following.{AreMet, Followed};
ghost use Rattle.iv_store_following.specs.References.{AreReferences};
ghost use Rattle.iv_store_following.specs.BorrowedChange.{IsPresent};
ghost use Rattle.iv_store_following.specs.Steps.{IsReady, IsWatched};
ghost use Rattle.iv_store_following.specs.Turns.{AllStay, HasRoom};

use crate::borrowed_change::BorrowedChange;
use crate::reference::KeyReference;
use crate::turns::{make_rooms, move_keys, move_references};
use iv_catalogue::Constraint;
use iv_store_groups::CountedGroups;
use iv_store_violating::ViolatingGroups;
use std::alloc::AllocError;

/// The constraints that the rows of one table meet, by their places among all constraints.
#[derive(Drop)]
pub struct WatchedConstraints<'a> {
    /// All constraints, in creation order.
    pub constraints: &'a [Constraint],
    /// The key that each of them refers to, if it is a foreign key.
    pub references: &'a [Option<KeyReference>],
    /// The constraints on the table, except foreign keys.
    pub keys: &'a [u32],
    /// The foreign keys that are on the table or refer to it.
    pub foreign_keys: &'a [u32],
}

/// Follows a change for which there is room. `lists` has the constraints that the rows of its table meet. It
/// allocates nothing, and takes at most six look-ups for each of them.
pub fn follow(
    groups: &mut CountedGroups,
    violating: &mut ViolatingGroups,
    lists: &WatchedConstraints<'_>,
    change: &BorrowedChange<'_>,
)
    requires met { AreMet lists.now.constraints.now change.now.table lists.now.keys.now lists.now.foreign_keys.now }
    requires references { AreReferences lists.now.constraints.now lists.now.references.now }
    requires named { AllNamed lists.now.constraints.now }
    requires watched { (k : ℕ) → k < length lists.now.constraints.now → IsWatched k groups.old.groups violating.old }
    requires ready { (k : ℕ) (c : Constraint) → slice_get lists.now.constraints.now k ≡ Some c
        → IsReady change.now c (groups_of groups.old.groups k) }
    ensures { Followed lists.now.constraints.now change.now 6 groups.old groups.new violating.old violating.new }
{
    move_keys(groups, violating, lists.keys, lists.constraints, change);
    move_references(
        groups,
        violating,
        lists.foreign_keys,
        lists.constraints,
        lists.references,
        change,
    );
}

// Room for a change in all constraints that it concerns.
fn make_all_rooms(
    groups: &mut CountedGroups,
    violating: &mut ViolatingGroups,
    lists: &WatchedConstraints<'_>,
    change: &BorrowedChange<'_>,
) -> Result<(), AllocError>
    requires met { AreMet lists.now.constraints.now change.now.table lists.now.keys.now lists.now.foreign_keys.now }
    requires watched { (k : ℕ) → k < length lists.now.constraints.now → IsWatched k groups.old.groups violating.old }
    ensures keys { OnOk result ((k : ℕ) → has k lists.now.keys.now ≡ true
        → HasRoom lists.now.constraints.now change.now k (groups_of groups.new.groups k)) }
    ensures foreign_keys { OnOk result ((k : ℕ) → has k lists.now.foreign_keys.now ≡ true
        → HasRoom lists.now.constraints.now change.now k (groups_of groups.new.groups k)) }
    ensures stay { AllStay lists.now.constraints.now (length lists.now.constraints.now) groups.old groups.new violating.old violating.new }
{
    make_rooms(groups, violating, lists.keys, lists.constraints, change)?;
    make_rooms(
        groups,
        violating,
        lists.foreign_keys,
        lists.constraints,
        change,
    )?;
    Ok(())
}

/// Makes room for a change and follows it. If an allocation fails, no row moves. It takes at most seven look-ups for
/// each constraint that the rows of the change's table meet.
pub fn make_room_and_follow(
    groups: &mut CountedGroups,
    violating: &mut ViolatingGroups,
    lists: &WatchedConstraints<'_>,
    change: &BorrowedChange<'_>,
) -> Result<(), AllocError>
    requires met { AreMet lists.now.constraints.now change.now.table lists.now.keys.now lists.now.foreign_keys.now }
    requires references { AreReferences lists.now.constraints.now lists.now.references.now }
    requires named { AllNamed lists.now.constraints.now }
    requires watched { (k : ℕ) → k < length lists.now.constraints.now → IsWatched k groups.old.groups violating.old }
    requires present { IsPresent lists.now.constraints.now (shown groups.old.groups) change.now }
    ensures ok { OnOk result (Followed lists.now.constraints.now change.now 7 groups.old groups.new violating.old violating.new) }
    ensures err { OnErr result (AllStay lists.now.constraints.now (length lists.now.constraints.now) groups.old groups.new violating.old violating.new) }
{
    make_all_rooms(groups, violating, lists, change)?;
    follow(groups, violating, lists, change);
    Ok(())
}
