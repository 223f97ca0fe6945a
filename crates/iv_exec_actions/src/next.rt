//! The wave that follows from a wave.
ghost use Rattle.std.specs.Prelude.{◌≡◌, ◌<◌, ◌≤◌, ◌+◌, ◌*◌, ◌++◌, ◌||◌, [], None, ℕ, false, get_or, length, filter_map, IfOk, OnOk};
ghost use Rattle.std.specs.List.{cons_option, list_any};
ghost use Rattle.iv_expr.specs.Changes.{RisingChanges, last_row};
ghost use Rattle.iv_machine.specs.declared.database.Database.{Database};
ghost use Rattle.iv_machine.specs.Context.{Context};
ghost use Rattle.iv_machine.specs.ReferentialActions.{following_wave};
ghost use Rattle.iv_store.specs.Lookups.{foreign_keys};
ghost use Rattle.iv_store.specs.Stores.{RisingNumbers};
ghost use Rattle.iv_laws_kept.specs.FollowingWaves.{earlier, least, LedTo};
ghost use Rattle.iv_exec_actions.specs.Following.{restricted_at, effects_at, conflict_at, change_at, sets_at, next_at, answer_among};
ghost use Rattle.iv_exec_actions.specs.Answers.{AnswersWave};

use crate::by_table::{ByTable, affected_by_table};
use crate::change::change_by;
use crate::conflict::first_conflict;
use crate::effect::effects_among;
use crate::finding::found;
use crate::restrict::{any_may_restrict, restricted_fault};
use crate::row::{LentRow, row_before};
use crate::setting::{columns_where, flag_setting};
use iv_catalogue::{Catalogue, Cause, ConstraintId, Fault, Refusal};
use iv_expr::{Change, StoredRow, TableColumn, Wave};
use iv_machine::Effect;
use iv_store::ReferencingRows;
use std::alloc::{AllocError, Global};

// The fault of the lower constraint; of two of one constraint, the one given first.
fn earlier(fault: Option<Fault>, other: Option<Fault>) -> Option<Fault>
    ensures { result ≡ earlier fault other }
{
    match fault {
        None => other,
        Some(fault) => match other {
            None => Some(fault),
            Some(other) => {
                if other.constraint.place() < fault.constraint.place() {
                    Some(other)
                } else {
                    Some(fault)
                }
            }
        },
    }
}

fn restricted_at<K: ReferencingRows>(
    store: &K,
    affected_keys: &ByTable<'_>,
    changes: &[Change],
    number: u64,
) -> Option<Fault>
    requires { RisingChanges changes.now }
    ensures { result ≡
        restricted_at affected_keys.now changes.now (K.view store.now).base.rows number }
{
    match row_before(store, changes, number) {
        Some(row) => restricted_fault(affected_keys, &row),
        None => None,
    }
}

// The first row of these numbers that refers to a key lost under RESTRICT.
fn first_restricted<K: ReferencingRows>(
    store: &K,
    affected_keys: &ByTable<'_>,
    changes: &[Change],
    numbers: &[u64],
) -> Option<Fault>
    requires { RisingChanges changes.now }
    ensures { result ≡ least
        (restricted_at affected_keys.now changes.now (K.view store.now).base.rows) numbers.now }
{
    let mut first = None;
    let mut left = numbers.len();
    while left > 0 {
        left -= 1;
        first = earlier(
            restricted_at(store, affected_keys, changes, numbers[left]),
            first,
        );
    }
    first
}

// The same first row, found without a look at any row if no foreign key has RESTRICT.
#[tactic(auto, using(crate::proofs::Idle::none_restricted))]
fn restricted<K: ReferencingRows>(
    store: &K,
    affected_keys: &ByTable<'_>,
    changes: &[Change],
    numbers: &[u64],
) -> Option<Fault>
    requires { RisingChanges changes.now }
    ensures { result ≡ least
        (restricted_at affected_keys.now changes.now (K.view store.now).base.rows) numbers.now }
{
    if any_may_restrict(affected_keys.as_slice()) {
        first_restricted(store, affected_keys, changes, numbers)
    } else {
        None
    }
}

/// What foreign keys do to a row of the store.
pub fn effects_at<K: ReferencingRows>(
    store: &K,
    catalogue: &Catalogue,
    affected_keys: &ByTable<'_>,
    changes: &[Change],
    after: &StoredRow,
) -> Result<Vec<(u32, Effect)>, AllocError>
    requires { RisingChanges changes.now }
    ensures { IfOk result (λ v. v.items ≡ effects_at
        catalogue.now affected_keys.now changes.now (K.view store.now).base.rows after.now) }
{
    let alloc = store.allocator();
    match row_before(store, changes, after.number) {
        Some(before) => effects_among(
            alloc,
            catalogue,
            affected_keys,
            &before,
            &LentRow::of(after),
        ),
        None => Ok(Vec::new(alloc)),
    }
}

fn conflict_at<K: ReferencingRows>(
    store: &K,
    catalogue: &Catalogue,
    affected_keys: &ByTable<'_>,
    changes: &[Change],
    number: u64,
) -> Result<Option<Fault>, AllocError>
    requires { RisingChanges changes.now }
    ensures { IfOk result (λ f. f ≡ conflict_at
        catalogue.now affected_keys.now changes.now (K.view store.now).base.rows number) }
{
    let Some(row) = store.row(number) else {
        return Ok(None);
    };
    let effects = effects_at(store, catalogue, affected_keys, changes, row)?;
    match first_conflict(effects.as_slice()) {
        Some(id) => Ok(Some(Fault {
            constraint: ConstraintId::new(id),
            row: row.number,
        })),
        None => Ok(None),
    }
}

// The first row of these numbers on which two foreign keys disagree.
fn first_disagreement<K: ReferencingRows>(
    store: &K,
    catalogue: &Catalogue,
    affected_keys: &ByTable<'_>,
    changes: &[Change],
    numbers: &[u64],
) -> Result<Option<Fault>, AllocError>
    requires { RisingChanges changes.now }
    ensures { IfOk result (λ f. f ≡ least (conflict_at
        catalogue.now affected_keys.now changes.now (K.view store.now).base.rows) numbers.now) }
{
    let mut first = None;
    let mut left = numbers.len();
    while left > 0 {
        left -= 1;
        let fault = conflict_at(store, catalogue, affected_keys, changes, numbers[left])?;
        first = earlier(fault, first);
    }
    Ok(first)
}

// The same first row, found without a look at any row if there is only one foreign key.
#[tactic(auto, using(crate::proofs::Idle::none_disagreeing))]
fn disagreement<K: ReferencingRows>(
    store: &K,
    catalogue: &Catalogue,
    affected_keys: &ByTable<'_>,
    changes: &[Change],
    numbers: &[u64],
) -> Result<Option<Fault>, AllocError>
    requires { RisingChanges changes.now }
    ensures { IfOk result (λ f. f ≡ least (conflict_at
        catalogue.now affected_keys.now changes.now (K.view store.now).base.rows) numbers.now) }
{
    if affected_keys.as_slice().len() > 1 {
        first_disagreement(store, catalogue, affected_keys, changes, numbers)
    } else {
        Ok(None)
    }
}

// The change of the row of a number, if there is one. The foreign keys that set values of the row are flagged.
fn change_at<K: ReferencingRows>(
    store: &K,
    flags: &mut Vec<bool>,
    catalogue: &Catalogue,
    affected_keys: &ByTable<'_>,
    changes: &[Change],
    number: u64,
) -> Result<Option<Change>, AllocError>
    requires { RisingChanges changes.now }
    ensures change { IfOk result (λ c. c ≡ change_at
        catalogue.now affected_keys.now changes.now (K.view store.now).base.rows number) }
    ensures flagged { OnOk result ((id : ℕ) → get_or flags.new.items id false ≡ (sets_at
        catalogue.now affected_keys.now changes.now (K.view store.now).base.rows id number
        || get_or flags.old.items id false)) }
{
    let Some(row) = store.row(number) else {
        return Ok(None);
    };
    let effects = effects_at(store, catalogue, affected_keys, changes, row)?;
    flag_setting(flags, effects.as_slice())?;
    change_by(store.allocator(), row, effects.as_slice())
}

// Adds the change of the row of a number, if there is one.
fn push_change<K: ReferencingRows>(
    store: &K,
    next: &mut Wave,
    flags: &mut Vec<bool>,
    catalogue: &Catalogue,
    affected_keys: &ByTable<'_>,
    changes: &[Change],
    number: u64,
) -> Result<(), AllocError>
    requires rising { RisingChanges changes.now }
    requires above { last_row next.old.changes < number }
    ensures pushed { OnOk result (next.new.changes ≡ next.old.changes ++ cons_option (change_at
        catalogue.now affected_keys.now changes.now (K.view store.now).base.rows number) []) }
    ensures last { OnOk result (last_row next.new.changes ≤ number) }
    ensures flagged { OnOk result ((id : ℕ) → get_or flags.new.items id false ≡ (sets_at
        catalogue.now affected_keys.now changes.now (K.view store.now).base.rows id number
        || get_or flags.old.items id false)) }
{
    match change_at(store, flags, catalogue, affected_keys, changes, number)? {
        None => Ok(()),
        Some(change) => next.push(change),
    }
}

// The changes of the rows of these numbers. The foreign keys that set values of some of them are flagged.
fn next_changes<K: ReferencingRows>(
    store: &K,
    flags: &mut Vec<bool>,
    catalogue: &Catalogue,
    affected_keys: &ByTable<'_>,
    changes: &[Change],
    numbers: &[u64],
) -> Result<Wave, AllocError>
    requires rising { RisingChanges changes.now }
    requires numbers { RisingNumbers 0 numbers.now }
    ensures changes { IfOk result (λ w. w.changes ≡ filter_map (change_at
        catalogue.now affected_keys.now changes.now (K.view store.now).base.rows) numbers.now) }
    ensures flagged { OnOk result ((id : ℕ) → get_or flags.new.items id false ≡ (list_any (sets_at
        catalogue.now affected_keys.now changes.now (K.view store.now).base.rows id) numbers.now
        || get_or flags.old.items id false)) }
{
    let mut next = Wave::new(store.allocator());
    for number in numbers {
        push_change(
            store,
            &mut next,
            flags,
            catalogue,
            affected_keys,
            changes,
            *number,
        )?;
    }
    Ok(next)
}

// The changes with these columns. A wave tells of its changes that they are by rising row number.
fn with_columns(next: Wave, columns: Vec<TableColumn>) -> Wave
    ensures { result ≡ record { changes = next.changes; columns = columns.items } }
{
    let _ = next.changes();
    let (changes, _) = next.into_parts();
    Wave::from_parts(changes, columns)
}

// The changes of the rows of these numbers, with the columns of the foreign keys that set values of some of them.
fn next_at<K: ReferencingRows>(
    store: &K,
    catalogue: &Catalogue,
    affected_keys: &ByTable<'_>,
    changes: &[Change],
    numbers: &[u64],
) -> Result<Wave, AllocError>
    requires rising { RisingChanges changes.now }
    requires numbers { RisingNumbers 0 numbers.now }
    ensures { IfOk result (λ w. w ≡ next_at
        catalogue.now affected_keys.now changes.now (K.view store.now).base.rows numbers.now) }
{
    let alloc = store.allocator();
    let mut flags = Vec::new(alloc);
    let next = next_changes(
        store,
        &mut flags,
        catalogue,
        affected_keys,
        changes,
        numbers,
    )?;
    let columns = columns_where(alloc, affected_keys.as_slice(), flags.as_slice())?;
    Ok(with_columns(next, columns))
}

// What follows, from the rows of these numbers.
fn answer_among<K: ReferencingRows>(
    store: &K,
    catalogue: &Catalogue,
    affected_keys: &ByTable<'_>,
    changes: &[Change],
    numbers: &[u64],
) -> Result<Wave, Refusal>
    requires rising { RisingChanges changes.now }
    requires numbers { RisingNumbers 0 numbers.now }
    ensures { AnswersWave result (answer_among
        catalogue.now affected_keys.now changes.now (K.view store.now).base numbers.now) }
{
    if affected_keys.is_empty() {
        return Ok(Wave::new(store.allocator()));
    }
    if let Some(fault) = restricted(store, affected_keys, changes, numbers) {
        return Err(Refusal::of(Cause::Restrict(fault)));
    }
    if let Some(fault) = disagreement(store, catalogue, affected_keys, changes, numbers)? {
        return Err(Refusal::of(Cause::ActionConflict(fault)));
    }
    Ok(next_at(store, catalogue, affected_keys, changes, numbers)?)
}

/// The wave that follows from a wave by referential actions, in a store as it is after the wave. The first row that
/// refers to a key lost under RESTRICT comes first, then the first row on which two foreign keys disagree.
pub fn next_wave<K: ReferencingRows>(
    store: &mut K,
    catalogue: &Catalogue,
    wave: &Wave,
) -> Result<Wave, Refusal>
    ensures followed { (before : Database) (context : Context)
        → context.schema ≡ catalogue.now
        → (K.view store.old).constraints ≡ catalogue.now.constraints
        → LedTo before wave.now.changes (K.view store.old).base
        → AnswersWave result (following_wave context before (K.view store.old).base) }
    ensures looked_up { K.lookups store.new ≤ K.lookups store.old
        + foreign_keys catalogue.now.constraints * length wave.now.changes }
    ensures kept { K.view store.new ≡ K.view store.old }
{
    let alloc = store.allocator();
    let changes = wave.changes();
    let affected_keys = affected_by_table(alloc, catalogue.constraints(), changes)?;
    let numbers = found(alloc, store, affected_keys.as_slice(), changes)?;
    answer_among(
        store,
        catalogue,
        &affected_keys,
        changes,
        numbers.as_slice(),
    )
}
