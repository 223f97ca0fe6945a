//! Constraints that are taken up.
ghost use Rattle.std.specs.Prelude.{◌≡◌, ℕ, ◌+◌, ◌*◌, ◌<◌, ◌≤◌, ◌++◌, List, length, OnOk, OnErr};
ghost use Rattle.iv_catalogue.specs.declared.limits.TheConstants.{MOST_CONSTRAINTS, MOST_TABLES};
ghost use Rattle.iv_store_groups.specs.Groups.{groups_of};
ghost use Rattle.iv_laws_kept.specs.Kept.{AllNamed};
ghost use Rattle.iv_laws_kept.specs.GroupFlags.{violating_of};
ghost use Rattle.iv_store_violating.specs.Flagging.{flag};
ghost use Rattle.iv_store_faults.specs.Watching.{IsTakenUp, ViolatingStay};

use crate::naming::references_of;
use crate::table_constraints::{TableConstraints, with_constraints};
use iv_catalogue::{Constraint, copy_constraints};
use iv_store_following::KeyReference;
use iv_store_groups::Groups;
use iv_store_violating::ViolatingGroups;
use std::alloc::{AllocError, Global};

// A place for the flag of each group of these constraints.
fn cover_places(
    violating: &mut ViolatingGroups,
    groups: &Groups,
    first: usize,
    end: usize,
) -> Result<(), AllocError>
    requires { end ≤ length violating.old }
    ensures places { OnOk result ((id : ℕ) → first ≤ id → id < end
        → length (groups_of groups.now.groups id) ≤ length (violating_of violating.new id)) }
    ensures count { length violating.new ≡ length violating.old }
    ensures stays { (id : ℕ) → length (violating_of violating.old id) ≤ length (violating_of violating.new id) }
    ensures flags { (id place : ℕ) → flag (violating_of violating.new id) place ≡ flag (violating_of violating.old id) place }
{
    for id in first..end {
        violating.cover_places(id, groups.count_groups(id))?;
    }
    Ok(())
}

// A constraint for each number, and a place for the flag of each group of the new ones.
fn cover_both(
    violating: &mut ViolatingGroups,
    groups: &Groups,
    first: usize,
    end: usize,
) -> Result<(), AllocError>
    requires first { first ≡ length violating.old }
    requires more { first ≤ end }
    ensures places { OnOk result ((id : ℕ) → first ≤ id → id < end
        → length (groups_of groups.now.groups id) ≤ length (violating_of violating.new id)) }
    ensures count { OnOk result (length violating.new ≡ end) }
    ensures stay { ViolatingStay violating.old violating.new }
{
    violating.cover(end)?;
    cover_places(violating, groups, first, end)?;
    Ok(())
}

// The same, or as many constraints as before if an allocation fails.
fn cover_new(
    violating: &mut ViolatingGroups,
    groups: &Groups,
    first: usize,
    end: usize,
) -> Result<(), AllocError>
    requires first { first ≡ length violating.old }
    requires more { first ≤ end }
    ensures places { OnOk result ((id : ℕ) → first ≤ id → id < end
        → length (groups_of groups.now.groups id) ≤ length (violating_of violating.new id)) }
    ensures count { OnOk result (length violating.new ≡ end) }
    ensures same { OnErr result (length violating.new ≡ length violating.old) }
    ensures stay { ViolatingStay violating.old violating.new }
{
    match cover_both(violating, groups, first, end) {
        Ok(()) => Ok(()),
        Err(refused) => {
            violating.truncate(first);
            Err(refused)
        }
    }
}

// Appends constraints and their references, both or neither.
fn append_both(
    constraints: &mut Vec<Constraint>,
    references: &mut Vec<Option<KeyReference>>,
    more: &mut Vec<Constraint>,
    news: &mut Vec<Option<KeyReference>>,
) -> Result<(), AllocError>
    ensures constraints { OnOk result (constraints.new.items ≡ constraints.old.items ++ more.old.items) }
    ensures references { OnOk result (references.new.items ≡ references.old.items ++ news.old.items) }
    ensures err_constraints { OnErr result (constraints.new.items ≡ constraints.old.items) }
    ensures err_references { OnErr result (references.new.items ≡ references.old.items) }
{
    let first = constraints.len();
    constraints.append(more)?;
    match references.append(news) {
        Ok(()) => Ok(()),
        Err(refused) => {
            constraints.truncate(first);
            Err(refused)
        }
    }
}

/// Watches more constraints, all or none, with a place for the flag of each of their groups. If an allocation fails,
/// all is as before.
pub fn take_up(
    alloc: Global,
    constraints: &mut Vec<Constraint>,
    references: &mut Vec<Option<KeyReference>>,
    tables: &mut Vec<TableConstraints>,
    violating: &mut ViolatingGroups,
    groups: &Groups,
    more: &[Constraint],
) -> Result<(), AllocError>
    requires taken_up { IsTakenUp constraints.old.items references.old.items tables.old.items violating.old }
    requires named { AllNamed (constraints.old.items ++ more.now) }
    requires few { length constraints.old.items + length more.now ≤ MOST_TABLES * MOST_CONSTRAINTS }
    ensures ok { OnOk result (constraints.new.items ≡ constraints.old.items ++ more.now) }
    ensures err { OnErr result (constraints.new.items ≡ constraints.old.items) }
    ensures places { OnOk result ((id : ℕ) → length constraints.old.items ≤ id → id < length constraints.new.items
        → length (groups_of groups.now.groups id) ≤ length (violating_of violating.new id)) }
    ensures stay { ViolatingStay violating.old violating.new }
    ensures taken_up { IsTakenUp constraints.new.items references.new.items tables.new.items violating.new }
{
    let mut copies = copy_constraints(alloc, more)?;
    let mut news = references_of(alloc, constraints.as_slice(), more)?;
    let first = constraints.len();
    let lists = with_constraints(alloc, tables.as_slice(), first, more)?;
    cover_new(violating, groups, first, first + more.len())?;
    match append_both(constraints, references, &mut copies, &mut news) {
        Ok(()) => {
            *tables = lists;
            Ok(())
        }
        Err(refused) => {
            violating.truncate(first);
            Err(refused)
        }
    }
}
