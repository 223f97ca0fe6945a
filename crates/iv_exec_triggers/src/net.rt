//! The net changes of the waves of a level.
ghost use Rattle.std.specs.Prelude.{◌≡◌, ◌≤◌, ◌<◌, ◌++◌, [], IfOk, OnOk, filter_map, length, ◌⊎◌};
ghost use Rattle.std.specs.List.{cons_option};
ghost use Rattle.iv_expr.specs.Changes.{RisingChanges, RisingChangesFrom, last_row, wave_of};
ghost use Rattle.iv_machine.specs.declared.database.Database.{Database};
ghost use Rattle.iv_machine.specs.Waves.{net_wave};
ghost use Rattle.iv_laws_levels.specs.FittingWaves.{Chain};
ghost use Rattle.iv_exec_triggers.specs.Merging.{joined, kept, merged, Merging};

use iv_expr::{Change, Row, Wave};
use std::alloc::{AllocError, Global};

// Adds a change that leaves something before or after it.
#[tactic(auto, using(iv_expr::proofs::Changes::last_row_push))]
fn push_kept(net: &mut Wave, change: Change) -> Result<(), AllocError>
    requires { last_row net.old.changes < change.row }
    ensures changes { OnOk result (net.new.changes
        ≡ net.old.changes ++ cons_option (kept change) []) }
    ensures columns { OnOk result (net.new.columns ≡ net.old.columns) }
    ensures last { OnOk result (last_row net.new.changes ≤ change.row) }
{
    if change.old.is_none() && change.new.is_none() {
        Ok(())
    } else {
        net.push(change)
    }
}

fn copy_of(row: &Option<Row>) -> Result<Option<Row>, AllocError>
    ensures { IfOk result (λ r. r ≡ row.now) }
{
    match row {
        Some(row) => Ok(Some(row.clone()?)),
        None => Ok(None),
    }
}

// Adds what an older and a newer change of one row come to.
fn push_joined(net: &mut Wave, older: &Change, newer: &Change) -> Result<(), AllocError>
    requires { last_row net.old.changes < older.now.row }
    ensures changes { OnOk result (net.new.changes
        ≡ net.old.changes ++ cons_option (joined older.now newer.now) []) }
    ensures columns { OnOk result (net.new.columns ≡ net.old.columns) }
    ensures last { OnOk result (last_row net.new.changes ≤ older.now.row) }
{
    let old = copy_of(&older.old)?;
    let new = copy_of(&newer.new)?;
    push_kept(
        net,
        Change {
            table: older.table,
            row: older.row,
            old,
            new,
        },
    )
}

// The copy shares the rows.
pub(crate) fn copy_change(change: &Change) -> Result<Change, AllocError>
    ensures { IfOk result (λ c. c ≡ change.now) }
{
    change.clone()
}

// Adds changes that come after those that are there.
fn push_all(net: &mut Wave, more: &[Change]) -> Result<(), AllocError>
    requires { RisingChangesFrom (last_row net.old.changes) more.now }
    ensures changes { OnOk result (net.new.changes ≡ net.old.changes ++ more.now) }
    ensures columns { OnOk result (net.new.columns ≡ net.old.columns) }
{
    for change in more {
        let copy = copy_change(change)?;
        net.push(copy)?;
    }
    Ok(())
}

// The changes of a wave that leave something before or after them.
fn left_of(alloc: Global, wave: &[Change]) -> Result<Wave, AllocError>
    requires { RisingChanges wave.now }
    ensures { IfOk result (λ net. net ≡ wave_of (filter_map kept wave.now)) }
{
    let mut left = Wave::new(alloc);
    for change in wave {
        let copy = copy_change(change)?;
        push_kept(&mut left, copy)?;
    }
    Ok(left)
}

// Older and newer changes, each by rising row number, as one wave.
fn merge(alloc: Global, older: &[Change], newer: &[Change]) -> Result<Wave, AllocError>
    requires older { RisingChanges older.now }
    requires newer { RisingChanges newer.now }
    ensures { IfOk result (λ net. net ≡ wave_of (merged older.now newer.now)) }
{
    let mut net = Wave::new(alloc);
    let mut at = 0usize;
    let mut to = 0usize;
    while at < older.len() && to < newer.len() {
        let before = &older[at];
        let after = &newer[to];
        if before.row < after.row {
            let copy = copy_change(before)?;
            net.push(copy)?;
            at += 1;
        } else if after.row < before.row {
            let copy = copy_change(after)?;
            net.push(copy)?;
            to += 1;
        } else {
            push_joined(&mut net, before, after)?;
            at += 1;
            to += 1;
        }
    }
    push_rest(&mut net, older, newer, at, to)?;
    Ok(net)
}

// Adds the changes from two places on, of which one is the end.
fn push_rest(
    net: &mut Wave,
    older: &[Change],
    newer: &[Change],
    at: usize,
    to: usize,
) -> Result<(), AllocError>
    requires merging { Merging older.now newer.now at to net.old.changes }
    requires end { (at ≡ length older.now) ⊎ (to ≡ length newer.now) }
    ensures changes { OnOk result (net.new.changes ≡ merged older.now newer.now) }
    ensures columns { OnOk result (net.new.columns ≡ net.old.columns) }
{
    if at < older.len() {
        push_all(net, &older[at..])
    } else {
        push_all(net, &newer[to..])
    }
}

/// The net changes of the waves of a data statement, by row number: each row's values before the first of its changes
/// and after the last, from the waves only. The list of waves is halved and the halves merged, so the time is the
/// number of changes times the logarithm of the number of waves. The rows are shared.
pub fn transitions(alloc: Global, waves: &[Wave]) -> Result<Wave, AllocError>
    ensures { IfOk result (λ net. (db last : Database) → Chain db waves.now last
        → net ≡ net_wave db.rows last.rows waves.now) }
{
    match waves {
        [] => Ok(Wave::new(alloc)),
        [wave] => left_of(alloc, wave.changes()),
        _ => {
            let half = waves.len() / 2;
            let older = transitions(alloc, &waves[..half])?;
            let newer = transitions(alloc, &waves[half..])?;
            merge(alloc, older.changes(), newer.changes())
        }
    }
}
