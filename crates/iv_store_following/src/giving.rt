//! Groups without rows are given back, and the flags follow.
ghost use Rattle.std.specs.Prelude.{◌≡◌, ◌≢◌, ℕ, ◌+◌, ◌<◌, ◌≤◌, Bool, List, length};
ghost use Rattle.iv_store_groups.specs.Groups.{groups_of};
ghost use Rattle.iv_laws_kept.specs.GroupFlags.{violating_of};
ghost use Rattle.iv_store_violating.specs.Flagging.{flag};
ghost use Rattle.iv_store_following.specs.Steps.{IsWatched};
ghost use Rattle.iv_store_following.specs.Turns.{AllGiven, moved_flag};

use iv_store_groups::{Groups, Place};
use iv_store_violating::ViolatingGroups;

// Moves the flag of a place, if it has one, to another place.
fn move_flag(violating: &mut ViolatingGroups, id: usize, from: usize, to: usize)
    requires known { id < length violating.old }
    requires from { from < length (violating_of violating.old id) }
    requires to { to < length (violating_of violating.old id) }
    ensures flags { (place : ℕ) → flag (violating_of violating.new id) place
        ≡ moved_flag (flag (violating_of violating.old id) from) from to place (flag (violating_of violating.old id) place) }
    ensures places { length (violating_of violating.new id) ≡ length (violating_of violating.old id) }
    ensures others { (k : ℕ) → k ≢ id → violating_of violating.new k ≡ violating_of violating.old k }
    ensures count { length violating.new ≡ length violating.old }
{
    if violating.is_flagged(id, from) {
        violating.set(id, from, false);
        violating.set(id, to, true);
    }
}

// Moves the flag of the last group, if it has one, to the place that this group comes to, and takes the last place away.
fn follow_group(violating: &mut ViolatingGroups, id: usize, from: usize, to: usize)
    requires known { id < length violating.old }
    requires from { from < length (violating_of violating.old id) }
    requires to { to < length (violating_of violating.old id) }
    ensures flags { (place : ℕ) → flag (violating_of violating.new id) place
        ≡ moved_flag (flag (violating_of violating.old id) from) from to place (flag (violating_of violating.old id) place) }
    ensures places { length (violating_of violating.old id) ≤ length (violating_of violating.new id) + 1 }
    ensures others { (k : ℕ) → k ≢ id → violating_of violating.new k ≡ violating_of violating.old k }
    ensures count { length violating.new ≡ length violating.old }
{
    move_flag(violating, id, from, to);
    violating.drop_place(id);
}

// Gives the group at a place back if it has no row, or else its room. The flag of the last group comes with it to the
// place.
fn give_back_at(groups: &mut Groups, violating: &mut ViolatingGroups, id: usize, place: usize)
    requires watched { IsWatched id groups.old.groups violating.old }
    requires place { place < length (groups_of groups.old.groups id) }
    ensures { AllGiven groups.old groups.new violating.old violating.new }
{
    groups.recall_groups();
    let last = groups.count_groups(id) - 1;
    if groups.give_back(id, place) {
        follow_group(violating, id, last, place);
    }
}

// Gives the next group that the hand comes to back, if it has no row, or else its room. Of so many constraints there
// are flags.
fn give_back_next(groups: &mut Groups, violating: &mut ViolatingGroups, constraints: usize)
    requires { (k : ℕ) → k < constraints → IsWatched k groups.old.groups violating.old }
    ensures { AllGiven groups.old groups.new violating.old violating.new }
{
    match groups.step() {
        Some(at) => give_back_there(groups, violating, constraints, at),
        None => {}
    }
}

// Gives the group back at a place that the hand came to.
fn give_back_there(
    groups: &mut Groups,
    violating: &mut ViolatingGroups,
    constraints: usize,
    at: Place,
)
    requires watched { (k : ℕ) → k < constraints → IsWatched k groups.old.groups violating.old }
    requires place { at.place < length (groups_of groups.old.groups at.constraint) }
    ensures { AllGiven groups.old groups.new violating.old violating.new }
{
    if at.constraint < constraints {
        give_back_at(groups, violating, at.constraint, at.place);
    }
}

/// Gives back groups without rows, and the room of others, as many steps as are due. It can't fail for lack of memory,
/// and makes no look-up. There are flags of so many constraints.
pub fn give_back(groups: &mut Groups, violating: &mut ViolatingGroups, constraints: usize)
    requires { (k : ℕ) → k < constraints → IsWatched k groups.old.groups violating.old }
    ensures { AllGiven groups.old groups.new violating.old violating.new }
{
    let steps = groups.take_due();
    for _ in 0..steps {
        give_back_next(groups, violating, constraints);
    }
}
