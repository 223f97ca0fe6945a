//! Rows that change, with the groups and the violations that are kept of them. What a change asks for is asserted before.
ghost use Rattle.std.specs.Prelude.{◌≡◌, ◌<◌, ◌≤◌, List, None, Some, true, length, IfSome};
ghost use Rattle.iv_value.specs.declared.value.Value.{Value};
ghost use Rattle.iv_key.specs.Keys.{key_of, none_null};
ghost use Rattle.iv_store_groups.specs.Groups.{groups_of, room_of};
ghost use Rattle.iv_laws_levels.specs.FittingWaves.{old_row};
ghost use Rattle.iv_machine.specs.Bounds.{last_row_number, most_changes_in_a_transaction};
ghost use Rattle.iv_machine.specs.Databases.{row_at};
ghost use Rattle.iv_machine.specs.Waves.{values_at};
ghost use Rattle.iv_laws_kept.specs.Kept.{kept_key, unique_key};
ghost use Rattle.iv_laws_kept.specs.Moves.{taken_back};
ghost use Rattle.iv_store_following.specs.BorrowedChange.{side_key};
ghost use Rattle.iv_store_faults.specs.Watching.{AreWatched, HasRoomBack, IsShownBy};

use crate::asserted::assert_that;
use crate::cells;
use crate::cells::Cell::Int;
use iv_catalogue::{Constraint, Rule};
use iv_expr::{Change, Row, StoredRow, TableId};
use iv_key::Key;
use iv_machine::{LAST_ROW_NUMBER, MOST_CHANGES_IN_A_TRANSACTION};
use iv_store_faults::Faults;
use iv_store_groups::{CountedGroups, Groups};
use iv_store_rows::Versions;
use iv_syntax::NullTreatment;
use iv_value::Value;
use std::alloc::Global;
use std::panic::Expect;
use std::process::Abort;

// The values of a row, which is in this table and has this number.
fn values_of(rt: &impl Abort, row: &StoredRow, table: TableId, number: u64) -> Row
    ensures { row.now ≡ record { table = table; number = number; values = result } }
{
    assert_that(
        rt,
        row.table.place() == table.place(),
        "another table's row",
    );
    assert_that(rt, row.number == number, "another row");
    row.values.clone().expect(rt, "memory")
}

// What the row of a number holds, which isn't one of another table.
fn held(rt: &impl Abort, versions: &Versions, table: TableId, number: u64) -> Option<Row>
    ensures is { row_at versions.now.rows number
        ≡ old_row (record { table = table; row = number; old = result; new = None }) }
    ensures current { values_at versions.now.rows number ≡ result }
    ensures own { IfSome (row_at versions.now.rows number) (λ row. row.table ≡ table) }
{
    match versions.row(number) {
        Some(row) => Some(values_of(rt, row, table, number)),
        None => None,
    }
}

// A row of only this integer, if there is one.
fn row_of(rt: &impl Abort, alloc: Global, integer: Option<i64>) -> Option<Row> {
    match integer {
        Some(integer) => Some(cells::row_of(rt, alloc, &[Int(integer)])),
        None => None,
    }
}

/// The change that gives the row of a number only this integer, or takes it out, if it isn't one of another table.
pub fn change_to(
    rt: &impl Abort,
    alloc: Global,
    versions: &Versions,
    table: u32,
    number: u64,
    integer: Option<i64>,
) -> Change
    ensures is { row_at versions.now.rows result.row ≡ old_row result }
    ensures current { values_at versions.now.rows result.row ≡ result.old }
    ensures own { IfSome (row_at versions.now.rows result.row) (λ row. row.table ≡ result.table) }
    ensures positive { 0 < result.row }
    ensures small { result.row ≤ last_row_number }
    ensures room { length versions.now.journal < most_changes_in_a_transaction }
{
    assert_that(
        rt,
        number > 0 && number <= LAST_ROW_NUMBER,
        "no number of a row",
    );
    assert_that(
        rt,
        versions.count() < MOST_CHANGES_IN_A_TRANSACTION,
        "no more changes",
    );
    let table = TableId::new(table);
    let old = held(rt, versions, table, number);
    let new = row_of(rt, alloc, integer);
    Change {
        table,
        row: number,
        old,
        new,
    }
}

// Makes a change. The groups and the violations follow it.
fn make(
    rt: &impl Abort,
    versions: &mut Versions,
    groups: &mut CountedGroups,
    faults: &mut Faults,
    change: &Change,
)
    requires shown { IsShownBy versions.old.rows faults.old groups.old }
    requires watched { AreWatched faults.old groups.old }
    requires is { row_at versions.old.rows change.now.row ≡ old_row change.now }
    requires current { values_at versions.old.rows change.now.row ≡ change.now.old }
    requires own { IfSome (row_at versions.old.rows change.now.row) (λ row. row.table ≡ change.now.table) }
    requires positive { 0 < change.now.row }
    requires small { change.now.row ≤ last_row_number }
    requires room { length versions.old.journal < most_changes_in_a_transaction }
    ensures shown { IsShownBy versions.new.rows faults.new groups.new }
    ensures watched { AreWatched faults.new groups.new }
{
    faults.moved(groups, change).expect(rt, "memory");
    versions.change(change).expect(rt, "memory");
}

// Whether a key of these columns has no null and has room.
fn has_room_under(groups: &Groups, id: usize, columns: &[u32], row: &[Value]) -> bool
    ensures no_null { result ≡ true → none_null (key_of columns.now row.now) ≡ true }
    ensures room { result ≡ true → 0 < room_of (groups_of groups.now.groups id) (key_of columns.now row.now) }
{
    let key = Key::new(columns, row);
    if !key.none_null() {
        return false;
    }
    groups.room(id, &key) > 0
}

// Whether there is room under the key under which a UNIQUE keeps a row, which has no null unless nulls are not distinct.
fn has_room_by(
    groups: &Groups,
    id: usize,
    nulls: NullTreatment,
    columns: &[u32],
    row: &[Value],
) -> bool
    ensures { result ≡ true → (key : List Value) → unique_key nulls (key_of columns.now row.now) ≡ Some key
        → 0 < room_of (groups_of groups.now.groups id) key }
{
    match nulls {
        NullTreatment::Distinct => has_room_under(groups, id, columns, row),
        NullTreatment::NotDistinct => groups.room(id, &Key::new(columns, row)) > 0,
    }
}

// Whether the rule is UNIQUE or PRIMARY KEY, and there is room under the row's key, which has no null unless nulls are
// not distinct.
fn has_room_for(groups: &Groups, id: usize, rule: &Rule, row: &[Value]) -> bool
    ensures { result ≡ true → (key : List Value) → kept_key rule.now row.now ≡ Some key
        → 0 < room_of (groups_of groups.now.groups id) key }
{
    match rule {
        Rule::Unique(nulls, columns) => has_room_by(groups, id, *nulls, columns.as_slice(), row),
        Rule::PrimaryKey(columns) => has_room_under(groups, id, columns.as_slice(), row),
        _ => false,
    }
}

// Whether a constraint has room for the old side of a change, if the row is one of its table.
fn has_room_at(groups: &Groups, id: usize, constraint: &Constraint, change: &Change) -> bool
    ensures { result ≡ true → (key : List Value)
        → side_key constraint.now change.now.table change.now.old ≡ Some key
        → 0 < room_of (groups_of groups.now.groups id) key }
{
    if change.table.place() != constraint.table.place() {
        return true;
    }
    match &change.old {
        Some(row) => has_room_for(groups, id, &constraint.rule, row.values()),
        None => true,
    }
}

// Whether each constraint has room for the old side of a change.
fn has_room_back(groups: &Groups, constraints: &[Constraint], change: &Change) -> bool
    ensures { result ≡ true → HasRoomBack constraints.now groups.now.groups change.now }
{
    for (place, constraint) in constraints.iter().enumerate() {
        if !has_room_at(groups, place, constraint, change) {
            return false;
        }
    }
    true
}

// The change that takes a change back.
fn turned(rt: &impl Abort, change: &Change) -> Change
    ensures { result ≡ taken_back change.now }
{
    let Change {
        table,
        row,
        old,
        new,
    } = change.clone().expect(rt, "memory");
    Change {
        table,
        row,
        old: new,
        new: old,
    }
}

// Takes a change back. The groups and the violations follow it.
fn make_back(
    rt: &impl Abort,
    versions: &mut Versions,
    groups: &mut CountedGroups,
    faults: &mut Faults,
    change: &Change,
    back: &Change,
)
    requires shown { IsShownBy versions.old.rows faults.old groups.old }
    requires watched { AreWatched faults.old groups.old }
    requires back { back.now ≡ taken_back change.now }
    requires is { row_at versions.old.rows change.now.row ≡ old_row (taken_back change.now) }
    requires current { values_at versions.old.rows change.now.row ≡ change.now.new }
    requires own { IfSome (row_at versions.old.rows change.now.row) (λ row. row.table ≡ change.now.table) }
    requires positive { 0 < change.now.row }
    requires small { change.now.row ≤ last_row_number }
    requires room { length versions.old.journal < most_changes_in_a_transaction }
    requires has_room { HasRoomBack faults.old.constraints groups.old.groups change.now }
    ensures shown { IsShownBy versions.new.rows faults.new groups.new }
    ensures watched { AreWatched faults.new groups.new }
{
    faults.moved_back(groups, change);
    versions.change(back).expect(rt, "memory");
}

// Makes a change that takes another one back, if each key that a row is put back under has room.
fn change_back(
    rt: &impl Abort,
    versions: &mut Versions,
    groups: &mut Groups,
    faults: &mut Faults,
    back: &Change,
)
    requires shown { IsShownBy versions.old.rows faults.old groups.old }
    requires watched { AreWatched faults.old groups.old }
    requires is { row_at versions.old.rows back.now.row ≡ old_row back.now }
    requires current { values_at versions.old.rows back.now.row ≡ back.now.old }
    requires own { IfSome (row_at versions.old.rows back.now.row) (λ row. row.table ≡ back.now.table) }
    requires positive { 0 < back.now.row }
    requires small { back.now.row ≤ last_row_number }
    requires room { length versions.old.journal < most_changes_in_a_transaction }
    ensures shown { IsShownBy versions.new.rows faults.new groups.new }
    ensures watched { AreWatched faults.new groups.new }
{
    let change = turned(rt, back);
    assert_that(
        rt,
        has_room_back(groups, faults.constraints(), &change),
        "no room back",
    );
    make_back(rt, versions, groups.counted(), faults, &change, back);
    drop(change);
}

/// Gives the row of a number only this integer, or takes it out, if it isn't one of another table.
pub fn set(
    rt: &impl Abort,
    alloc: Global,
    versions: &mut Versions,
    groups: &mut Groups,
    faults: &mut Faults,
    table: u32,
    number: u64,
    integer: Option<i64>,
)
    requires shown { IsShownBy versions.old.rows faults.old groups.old }
    requires watched { AreWatched faults.old groups.old }
    ensures shown { IsShownBy versions.new.rows faults.new groups.new }
    ensures watched { AreWatched faults.new groups.new }
{
    let change = change_to(rt, alloc, versions, table, number, integer);
    make(rt, versions, groups.counted(), faults, &change);
    drop(change);
}

/// Takes the change of a row back that it had from this integer, if each key that it is put back under has room.
pub fn take_back(
    rt: &impl Abort,
    alloc: Global,
    versions: &mut Versions,
    groups: &mut Groups,
    faults: &mut Faults,
    table: u32,
    number: u64,
    integer: Option<i64>,
)
    requires shown { IsShownBy versions.old.rows faults.old groups.old }
    requires watched { AreWatched faults.old groups.old }
    ensures shown { IsShownBy versions.new.rows faults.new groups.new }
    ensures watched { AreWatched faults.new groups.new }
{
    let back = change_to(rt, alloc, versions, table, number, integer);
    change_back(rt, versions, groups, faults, &back);
    drop(back);
}
