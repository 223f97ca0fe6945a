//! Calls of groups whose conditions are asserted first, by calls that aren't counted.
ghost use Rattle.std.specs.Prelude.{◌≡◌, ◌<◌, length, true};
ghost use Rattle.iv_numbers.specs.Rows.{has_row};
ghost use Rattle.iv_store_groups.specs.Groups.{groups_of, rows_of};

use crate::asserted::assert_that;
use iv_key::Key;
use iv_store_groups::Groups;
use std::panic::Expect;
use std::process::Abort;

// Asserts that there is a constraint.
fn is_known(rt: &impl Abort, groups: &Groups, constraint: usize)
    ensures { constraint < length groups.now.groups }
{
    assert_that(rt, constraint < groups.constraints(), "no such constraint");
}

// Whether a row is under a key.
fn holds(groups: &Groups, constraint: usize, key: &Key<'_>, row: u64) -> bool
    ensures { result ≡ has_row row (rows_of (groups_of groups.now.groups constraint) key.now) }
{
    groups.holders(constraint, key).has(row)
}

/// Adds a row that isn't under the key.
pub fn add(rt: &impl Abort, groups: &mut Groups, constraint: usize, key: &Key<'_>, row: u64) {
    is_known(rt, groups, constraint);
    assert_that(rt, !holds(groups, constraint, key, row), "the row is there");
    groups.add(constraint, key, row).expect(rt, "memory");
}

/// Makes room under a key of a constraint that there is.
pub fn make_room(rt: &impl Abort, groups: &mut Groups, constraint: usize, key: &Key<'_>) {
    is_known(rt, groups, constraint);
    groups.make_room(constraint, key).expect(rt, "memory");
}

/// Puts a row back under a key that has room, and tells the place.
pub fn put_back(
    rt: &impl Abort,
    groups: &mut Groups,
    constraint: usize,
    key: &Key<'_>,
    row: u64,
) -> usize {
    is_known(rt, groups, constraint);
    assert_that(rt, groups.room(constraint, key) > 0, "no room");
    groups.put_back(constraint, key, row)
}

/// Removes a row that is under the key, and tells the place.
pub fn remove(
    rt: &impl Abort,
    groups: &mut Groups,
    constraint: usize,
    key: &Key<'_>,
    row: u64,
) -> usize {
    is_known(rt, groups, constraint);
    assert_that(rt, holds(groups, constraint, key, row), "no such row");
    groups.remove(constraint, key, row)
}

/// Takes the groups of a constraint away that there is.
pub fn clear(rt: &impl Abort, groups: &mut Groups, constraint: usize) {
    is_known(rt, groups, constraint);
    groups.clear(constraint);
}

/// Gives back what can be of the group at a place that there is, and tells whether it had no row.
pub fn give_back(rt: &impl Abort, groups: &mut Groups, constraint: usize, place: usize) -> bool {
    is_known(rt, groups, constraint);
    assert_that(rt, place < groups.count_groups(constraint), "no such group");
    groups.give_back(constraint, place)
}
