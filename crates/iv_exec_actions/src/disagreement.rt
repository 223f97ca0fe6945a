//! How two foreign keys disagree about a row, as an account tells it.
ghost use Rattle.std.specs.Prelude.{◌≡◌, IfOk};
ghost use Rattle.std.specs.Option.{option_copied};
ghost use Rattle.iv_expr.specs.Changes.{RisingChanges};
ghost use Rattle.iv_machine.specs.declared.database.Database.{Database};
ghost use Rattle.iv_account.specs.Accounts.{disagreement_at as disagreement_between};
ghost use Rattle.iv_account.specs.Disagreements.{at_column, disagreement, first_of, other_value, with_earlier, with_others};
ghost use Rattle.iv_laws_kept.specs.FollowingWaves.{LedTo};
ghost use Rattle.iv_exec_actions.specs.Following.{disagreement_by};

use crate::by_table::{ByTable, affected_by_table};
use crate::conflict::{columns_set, sets_otherwise};
use crate::next::effects_at;
use iv_account::Disagreement;
use iv_catalogue::{Catalogue, ConstraintId, Fault};
use iv_expr::{Change, Wave};
use iv_machine::Effect;
use iv_store::ReferencingRows;
use iv_value::Value;
use std::alloc::AllocError;

// The other value to which the first of these pairs sets the column of another.
fn other_value<'a>(pairs: &'a [(u32, Value)], own: &(u32, Value)) -> Option<&'a Value>
    ensures { option_copied result ≡ other_value pairs.now own.now }
{
    match pairs {
        [] => None,
        [pair, rest @ ..] => {
            if sets_otherwise(pair, own) {
                Some(&pair.1)
            } else {
                other_value(rest, own)
            }
        }
    }
}

// How an earlier effect sets the column of a pair otherwise.
fn at_column(
    earlier: &(u32, Effect),
    own: &(u32, Value),
) -> Result<Option<Disagreement>, AllocError>
    ensures { IfOk result (λ how. how ≡ at_column earlier.now own.now) }
{
    match other_value(columns_set(&earlier.1), own) {
        Some(other) => Ok(Some(Disagreement {
            earlier: ConstraintId::new(earlier.0),
            column: own.0,
            earlier_value: other.clone()?,
            value: own.1.clone()?,
        })),
        None => Ok(None),
    }
}

// How an earlier effect sets the first of these columns otherwise.
fn at_columns(
    earlier: &(u32, Effect),
    pairs: &[(u32, Value)],
) -> Result<Option<Disagreement>, AllocError>
    ensures { IfOk result (λ how. how ≡ first_of (at_column earlier.now) pairs.now) }
{
    match pairs {
        [] => Ok(None),
        [pair, rest @ ..] => match at_column(earlier, pair)? {
            Some(how) => Ok(Some(how)),
            None => at_columns(earlier, rest),
        },
    }
}

// How an effect disagrees with that of an earlier foreign key.
fn with_earlier(
    own: &(u32, Effect),
    earlier: &(u32, Effect),
) -> Result<Option<Disagreement>, AllocError>
    ensures { IfOk result (λ how. how ≡ with_earlier own.now earlier.now) }
{
    if earlier.0 < own.0 {
        at_columns(earlier, columns_set(&own.1))
    } else {
        Ok(None)
    }
}

// How an effect disagrees with the first of these that it disagrees with.
fn with_some(
    own: &(u32, Effect),
    effects: &[(u32, Effect)],
) -> Result<Option<Disagreement>, AllocError>
    ensures { IfOk result (λ how. how ≡ first_of (with_earlier own.now) effects.now) }
{
    match effects {
        [] => Ok(None),
        [earlier, rest @ ..] => match with_earlier(own, earlier)? {
            Some(how) => Ok(Some(how)),
            None => with_some(own, rest),
        },
    }
}

// How an effect, if it is this foreign key's, disagrees with others.
fn with_others(
    id: u32,
    effects: &[(u32, Effect)],
    own: &(u32, Effect),
) -> Result<Option<Disagreement>, AllocError>
    ensures { IfOk result (λ how. how ≡ with_others id effects.now own.now) }
{
    if own.0 == id {
        with_some(own, effects)
    } else {
        Ok(None)
    }
}

// How this foreign key's effects among some disagree with others.
fn disagreement_among(
    id: u32,
    all: &[(u32, Effect)],
    effects: &[(u32, Effect)],
) -> Result<Option<Disagreement>, AllocError>
    ensures { IfOk result (λ how. how ≡ first_of (with_others id all.now) effects.now) }
{
    match effects {
        [] => Ok(None),
        [own, rest @ ..] => match with_others(id, all, own)? {
            Some(how) => Ok(Some(how)),
            None => disagreement_among(id, all, rest),
        },
    }
}

// How this foreign key disagrees with an earlier one about a row with these effects.
fn disagreement(
    id: ConstraintId,
    effects: &[(u32, Effect)],
) -> Result<Option<Disagreement>, AllocError>
    ensures { IfOk result (λ how. how ≡ disagreement id effects.now) }
{
    disagreement_among(id.place(), effects, effects)
}

// How a foreign key disagrees with an earlier one about a row of the store.
fn disagreement_by<K: ReferencingRows>(
    store: &K,
    catalogue: &Catalogue,
    affected_keys: &ByTable<'_>,
    changes: &[Change],
    fault: &Fault,
) -> Result<Option<Disagreement>, AllocError>
    requires { RisingChanges changes.now }
    ensures { IfOk result (λ how. how ≡ disagreement_by
        catalogue.now affected_keys.now changes.now (K.view store.now).base.rows fault.now) }
{
    let Some(row) = store.row(fault.row) else {
        return Ok(None);
    };
    let effects = effects_at(store, catalogue, affected_keys, changes, row)?;
    disagreement(fault.constraint, effects.as_slice())
}

/// How a foreign key disagrees with an earlier one about a row, in a store as it is after a wave: the first column that
/// they set to different values. The call looks no key up.
pub fn disagreement_at<K: ReferencingRows>(
    store: &K,
    catalogue: &Catalogue,
    wave: &Wave,
    fault: &Fault,
) -> Result<Option<Disagreement>, AllocError>
    ensures { (before : Database)
        → LedTo before wave.now.changes (K.view store.now).base
        → IfOk result (λ how. how ≡ disagreement_between catalogue.now
        before.rows (K.view store.now).base.rows fault.now) }
{
    let changes = wave.changes();
    let affected_keys = affected_by_table(store.allocator(), catalogue.constraints(), changes)?;
    disagreement_by(store, catalogue, &affected_keys, changes, fault)
}
