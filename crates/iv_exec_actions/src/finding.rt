//! The rows that foreign keys may change after a wave.
ghost use Rattle.std.specs.Prelude.{◌≡◌, ◌++◌, ◌+◌, ◌*◌, ◌≤◌, ℕ, false, length, map, flat_map, IfOk, OnOk};
ghost use Rattle.std.specs.List.Sorted.{IsStrictlyIncreasing};
ghost use Rattle.iv_expr.specs.Changes.{RisingChanges};
ghost use Rattle.iv_store.specs.Stores.{RisingNumbers};
ghost use Rattle.iv_laws_kept.specs.FollowingWaves.{is_among};
ghost use Rattle.iv_exec_actions.specs.Finding.{leads, found_by, found_by_all, found};

use crate::affected::{AffectedForeignKey, action_for, acts, key_taken};
use iv_catalogue::ConstraintId;
use iv_expr::Change;
use iv_key::Key;
use iv_store::ReferencingRows;
use std::alloc::{AllocError, Global};

// Whether a change is the first that takes a key away, and the foreign key does something then.
fn leads(affected: &AffectedForeignKey<'_>, change: &Change, key: &Key<'_>) -> bool
    ensures { result ≡ leads affected.now change.now key.now }
{
    match affected.change_taking(key) {
        Some(first) => first.row == change.row && acts(action_for(affected.key(), first)),
        None => false,
    }
}

// Adds the rows that refer to the key which a change took away first.
#[tactic(auto, using(crate::proofs::Numbers::no_zero, crate::proofs::Numbers::none_of_both))]
fn push_found<K: ReferencingRows>(
    store: &mut K,
    numbers: &mut Vec<u64>,
    affected: &AffectedForeignKey<'_>,
    change: &Change,
) -> Result<(), AllocError>
    ensures numbers { OnOk result (numbers.new.items ≡
        numbers.old.items ++ found_by (K.view store.old) affected.now change.now) }
    ensures positive { is_among numbers.old.items 0 ≡ false
        → OnOk result (is_among numbers.new.items 0 ≡ false) }
    ensures looked_up { K.lookups store.new ≤ K.lookups store.old + 1 }
    ensures kept { K.view store.new ≡ K.view store.old }
{
    match key_taken(affected.key(), change) {
        None => Ok(()),
        Some(key) => {
            if !leads(affected, change, &key) {
                return Ok(());
            }
            let mut children = store.children(ConstraintId::new(affected.id()), &key)?;
            numbers.append(&mut children)
        }
    }
}

fn push_found_by<K: ReferencingRows>(
    store: &mut K,
    numbers: &mut Vec<u64>,
    affected: &AffectedForeignKey<'_>,
    changes: &[Change],
) -> Result<(), AllocError>
    ensures numbers { OnOk result (numbers.new.items ≡
        numbers.old.items ++ flat_map (found_by (K.view store.old) affected.now) changes.now) }
    ensures positive { is_among numbers.old.items 0 ≡ false
        → OnOk result (is_among numbers.new.items 0 ≡ false) }
    ensures looked_up { K.lookups store.new ≤ K.lookups store.old + length changes.now }
    ensures kept { K.view store.new ≡ K.view store.old }
{
    for change in changes {
        push_found(store, numbers, affected, change)?;
    }
    Ok(())
}

fn push_found_by_all<K: ReferencingRows>(
    store: &mut K,
    numbers: &mut Vec<u64>,
    affected_keys: &[AffectedForeignKey<'_>],
    changes: &[Change],
) -> Result<(), AllocError>
    ensures numbers { OnOk result (numbers.new.items ≡
        numbers.old.items ++ found_by_all (K.view store.old) affected_keys.now changes.now) }
    ensures positive { is_among numbers.old.items 0 ≡ false
        → OnOk result (is_among numbers.new.items 0 ≡ false) }
    ensures looked_up { K.lookups store.new ≤
        K.lookups store.old + length affected_keys.now * length changes.now }
    ensures kept { K.view store.new ≡ K.view store.old }
{
    for affected in affected_keys {
        push_found_by(store, numbers, affected, changes)?;
    }
    Ok(())
}

// Adds the rows of the changes.
fn push_rows(numbers: &mut Vec<u64>, changes: &[Change]) -> Result<(), AllocError>
    ensures { OnOk result (numbers.new.items ≡
        numbers.old.items ++ map (λ c. c.row) changes.now) }
{
    for change in changes {
        numbers.push(change.row)?;
    }
    Ok(())
}

// Puts numbers in rising order, each once.
fn sort_once(numbers: &mut Vec<u64>)
    ensures rising { IsStrictlyIncreasing numbers.new.items }
    ensures same { (n : ℕ) → is_among numbers.new.items n ≡ is_among numbers.old.items n }
{
    numbers.sort_unstable();
    numbers.dedup();
}

/// The numbers of the rows that refer to a key which the wave removed, and of the wave's own rows, in rising order.
pub fn found<K: ReferencingRows>(
    alloc: Global,
    store: &mut K,
    affected_keys: &[AffectedForeignKey<'_>],
    changes: &[Change],
) -> Result<Vec<u64>, AllocError>
    requires { RisingChanges changes.now }
    ensures rising { IfOk result (λ v. RisingNumbers 0 v.items) }
    ensures same { IfOk result (λ v. (n : ℕ) → is_among v.items n ≡
        is_among (found (K.view store.old) affected_keys.now changes.now) n) }
    ensures looked_up { K.lookups store.new ≤
        K.lookups store.old + length affected_keys.now * length changes.now }
    ensures kept { K.view store.new ≡ K.view store.old }
{
    let mut numbers = Vec::new(alloc);
    push_found_by_all(store, &mut numbers, affected_keys, changes)?;
    push_rows(&mut numbers, changes)?;
    sort_once(&mut numbers);
    Ok(numbers)
}
