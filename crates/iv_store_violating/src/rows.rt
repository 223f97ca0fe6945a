//! The rows of the groups at some places of a constraint: the first, how many there are, and all of them.
ghost use Rattle.std.specs.Prelude.{◌≡◌, ℕ, ◌-◌, ◌^◌, ◌<◌, ◌++◌, List, length, min, flat_map, true, IfOk, OnOk};
ghost use Rattle.std.specs.Option.{option_copied};
ghost use Rattle.iv_machine.specs.Databases.{first};
ghost use Rattle.iv_laws_kept.specs.Kept.{groups_of};
ghost use Rattle.iv_laws_kept.specs.GroupFlags.{rows_at};
ghost use Rattle.iv_laws_kept.specs.Numbers.{has, in_rising_order, Rise};
ghost use Rattle.iv_store_violating.specs.Answers.{lesser};
ghost use Rattle.iv_store_violating.specs.Shown.{shown};

use iv_numbers::HeldRows;
use iv_store_groups::Groups;
use std::alloc::{AllocError, Global};

// The rows of the group at a place of a constraint.
fn rows_of(groups: &Groups, constraint: usize, place: usize) -> HeldRows<'_>
    requires { place < length (groups_of (shown groups.now.groups) constraint) }
    ensures value { result ≡ rows_at (groups_of (shown groups.now.groups) constraint) place }
    ensures rising { Rise result }
{
    groups.rows_at(constraint, place)
}

/// The lesser of two numbers, if they are there.
pub fn lesser(one: Option<u64>, other: Option<u64>) -> Option<u64>
    ensures { result ≡ lesser one other }
{
    match one {
        None => other,
        Some(a) => match other {
            None => Some(a),
            Some(b) => Some(if a < b { a } else { b }),
        },
    }
}

// The first of some rows.
fn first_of(rows: &HeldRows<'_>) -> Option<u64>
    ensures { result ≡ first rows.now }
{
    rows.first()
}

/// The first of the rows of the groups at these places. It takes the time of one look at each place.
pub fn first_row(groups: &Groups, constraint: usize, places: &[usize]) -> Option<u64>
    requires { (place : ℕ) → has place places.now ≡ true
        → place < length (groups_of (shown groups.now.groups) constraint) }
    ensures { result ≡ first (in_rising_order
        (flat_map (rows_at (groups_of (shown groups.now.groups) constraint)) places.now)) }
{
    let mut least = None;
    for place in places {
        least = lesser(least, first_of(&rows_of(groups, constraint, *place)));
    }
    least
}

/// How many rows the groups at these places have; the count stays at 2^64 - 1 once it is there. It takes the time of
/// one look at each place.
pub fn count_rows(groups: &Groups, constraint: usize, places: &[usize]) -> u64
    requires { (place : ℕ) → has place places.now ≡ true
        → place < length (groups_of (shown groups.now.groups) constraint) }
    ensures { result ≡ min (length
        (flat_map (rows_at (groups_of (shown groups.now.groups) constraint)) places.now)) (2 ^ 64 - 1) }
{
    let mut count: u64 = 0;
    for place in places {
        count = count.saturating_add(rows_of(groups, constraint, *place).len() as u64);
    }
    count
}

// Adds the rows of the groups at these places.
fn push_rows(
    rows: &mut Vec<u64>,
    groups: &Groups,
    constraint: usize,
    places: &[usize],
) -> Result<(), AllocError>
    requires { (place : ℕ) → has place places.now ≡ true
        → place < length (groups_of (shown groups.now.groups) constraint) }
    ensures { OnOk result (rows.new.items ≡ rows.old.items
        ++ flat_map (rows_at (groups_of (shown groups.now.groups) constraint)) places.now) }
{
    for place in places {
        rows_of(groups, constraint, *place).push_onto(rows)?;
    }
    Ok(())
}

/// Puts numbers in rising order, each once.
pub fn sort_once(numbers: &mut Vec<u64>)
    ensures { numbers.new.items ≡ in_rising_order numbers.old.items }
{
    numbers.sort_unstable();
    numbers.dedup();
}

/// The rows of the groups at these places, in rising order.
pub fn list_rows(
    alloc: Global,
    groups: &Groups,
    constraint: usize,
    places: &[usize],
) -> Result<Vec<u64>, AllocError>
    requires { (place : ℕ) → has place places.now ≡ true
        → place < length (groups_of (shown groups.now.groups) constraint) }
    ensures { IfOk result (λ v. v.items ≡ in_rising_order
        (flat_map (rows_at (groups_of (shown groups.now.groups) constraint)) places.now)) }
{
    let mut rows = Vec::new(alloc);
    push_rows(&mut rows, groups, constraint, places)?;
    sort_once(&mut rows);
    Ok(rows)
}
