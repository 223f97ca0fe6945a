//! Referential actions on the rows of the next wave, and rows as they were before a wave.
ghost use Rattle.std.specs.Prelude.{◌≡◌, ◌++◌, if◌then◌else◌, flat_map, IfOk, OnOk};
ghost use Rattle.iv_expr.specs.Changes.{RisingChanges, wave_of};
ghost use Rattle.iv_machine.specs.declared.database.Database.{Database};
ghost use Rattle.iv_machine.specs.Databases.{row_at};
ghost use Rattle.iv_machine.specs.ReferentialActions.{keeps_reference};
ghost use Rattle.iv_account.specs.Accounts.{actions_at as actions_between, if_some};
ghost use Rattle.iv_laws_levels.specs.Holders.{row_before};
ghost use Rattle.iv_laws_kept.specs.FollowingWaves.{LedTo};
ghost use Rattle.iv_exec_actions.specs.ByTable.{at_places};
ghost use Rattle.iv_exec_actions.specs.RowActions.{actions_among, actions_at, actions_by, actions_for, actions_on_all};

use crate::affected::{AffectedForeignKey, action_for, acts};
use crate::by_table::{ByTable, affected_by_table};
use crate::effect::keeps_reference;
use crate::restrict::change_losing;
use crate::row::{LentRow, copy_of_row_before, row_before};
use iv_account::RowAction;
use iv_catalogue::{Catalogue, ConstraintId};
use iv_expr::{Change, StoredRow, Wave};
use iv_store::ReferencingRows;
use std::alloc::{AllocError, Global};

// What a foreign key has for a row which refers to a key that this change took away.
fn action_where_acting(
    affected: &AffectedForeignKey<'_>,
    row: u64,
    change: &Change,
) -> Option<RowAction>
    ensures { if_some result ≡ actions_for affected.now row change.now }
{
    let action = action_for(affected.key(), change);
    if acts(action) {
        Some(RowAction {
            constraint: ConstraintId::new(affected.id()),
            action,
            table: affected.table(),
            row,
        })
    } else {
        None
    }
}

// Adds what a foreign key has for a row.
fn push_action(
    actions: &mut Vec<RowAction>,
    affected: &AffectedForeignKey<'_>,
    before: &LentRow<'_>,
) -> Result<(), AllocError>
    ensures { OnOk result (actions.new.items ≡
        actions.old.items ++ actions_by before.now affected.now) }
{
    let Some(change) = change_losing(affected, before) else {
        return Ok(());
    };
    if let Some(action) = action_where_acting(affected, before.number(), change) {
        actions.push(action)?;
    }
    Ok(())
}

// Adds what a foreign key has for a row that keeps its reference.
fn push_where_kept(
    actions: &mut Vec<RowAction>,
    affected: &AffectedForeignKey<'_>,
    before: &LentRow<'_>,
    after: &LentRow<'_>,
) -> Result<(), AllocError>
    ensures { OnOk result (actions.new.items ≡
        (if keeps_reference before.now after.now affected.now.reference
        then actions.old.items ++ actions_by before.now affected.now
        else actions.old.items)) }
{
    if keeps_reference(before, after, affected) {
        push_action(actions, affected, before)?;
    }
    Ok(())
}

// What the foreign keys at these places have for a row.
fn push_at_places(
    actions: &mut Vec<RowAction>,
    affected_keys: &ByTable<'_>,
    places: &[usize],
    before: &LentRow<'_>,
    after: &LentRow<'_>,
) -> Result<(), AllocError>
    ensures { OnOk result (actions.new.items ≡ actions.old.items
        ++ actions_among (at_places affected_keys.now places.now) before.now after.now) }
{
    for place in places {
        if let Some(affected) = affected_keys.at(*place) {
            push_where_kept(actions, affected, before, after)?;
        }
    }
    Ok(())
}

// What these foreign keys have for a row.
fn push_among(
    actions: &mut Vec<RowAction>,
    affected_keys: &ByTable<'_>,
    before: &LentRow<'_>,
    after: &LentRow<'_>,
) -> Result<(), AllocError>
    ensures { OnOk result (actions.new.items ≡
        actions.old.items ++ actions_among affected_keys.now before.now after.now) }
{
    let places = affected_keys.places_on(before.table());
    push_at_places(actions, affected_keys, places, before, after)
}

// What these foreign keys have for the row of a number.
fn push_at<K: ReferencingRows>(
    store: &K,
    actions: &mut Vec<RowAction>,
    affected_keys: &ByTable<'_>,
    changes: &[Change],
    number: u64,
) -> Result<(), AllocError>
    requires { RisingChanges changes.now }
    ensures { OnOk result (actions.new.items ≡ actions.old.items
        ++ actions_at affected_keys.now changes.now (K.view store.now).base.rows number) }
{
    let Some(before) = row_before(store, changes, number) else {
        return Ok(());
    };
    match store.row(number) {
        Some(after) => push_among(actions, affected_keys, &before, &LentRow::of(after)),
        None => Ok(()),
    }
}

// What these foreign keys have for the rows of the changes that followed.
fn actions_on_all<K: ReferencingRows>(
    store: &K,
    affected_keys: &ByTable<'_>,
    changes: &[Change],
    next: &[Change],
) -> Result<Vec<RowAction>, AllocError>
    requires { RisingChanges changes.now }
    ensures { IfOk result (λ v. v.items ≡ actions_on_all
        affected_keys.now changes.now (K.view store.now).base.rows next.now) }
{
    let mut actions = Vec::new(store.allocator());
    for change in next {
        push_at(store, &mut actions, affected_keys, changes, change.row)?;
    }
    Ok(actions)
}

/// The foreign keys that act on the rows of the wave `next`, in a store as it is after the wave before it: by row, then
/// in creation order. The call looks no key up.
pub fn row_actions<K: ReferencingRows>(
    store: &K,
    catalogue: &Catalogue,
    wave: &Wave,
    next: &Wave,
) -> Result<Vec<RowAction>, AllocError>
    ensures { (before : Database)
        → LedTo before wave.now.changes (K.view store.now).base
        → IfOk result (λ v. v.items ≡ flat_map (λ change. actions_between catalogue.now
        before.rows (K.view store.now).base.rows change.row) next.now.changes) }
{
    let changes = wave.changes();
    let affected_keys = affected_by_table(store.allocator(), catalogue.constraints(), changes)?;
    actions_on_all(store, &affected_keys, changes, next.changes())
}

// The list of a row, if there is one.
fn listed(alloc: Global, row: Option<StoredRow>) -> Result<Vec<StoredRow>, AllocError>
    ensures { IfOk result (λ v. v.items ≡ if_some row) }
{
    let mut rows = Vec::new(alloc);
    if let Some(row) = row {
        rows.push(row)?;
    }
    Ok(rows)
}

/// The row of a number as it was before a wave, in a store as it is after the wave: a list of one or none.
pub fn row_then<K: ReferencingRows>(
    store: &K,
    wave: &Wave,
    number: u64,
) -> Result<Vec<StoredRow>, AllocError>
    ensures { (before : Database)
        → LedTo before wave.now.changes (K.view store.now).base
        → IfOk result (λ v. v.items ≡ if_some (row_at before.rows number)) }
{
    let row = copy_of_row_before(store, wave.changes(), number)?;
    listed(store.allocator(), row)
}
