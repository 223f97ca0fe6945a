//! Effects that disagree.
ghost use Rattle.std.specs.Prelude.{◌≡◌, ◌==◌, ◌&&◌, not, nat_lt, find};
ghost use Rattle.std.specs.List.{list_any};
ghost use Rattle.std.specs.Option.{option_map};
ghost use Rattle.iv_value.specs.Values.{is_same};
ghost use Rattle.iv_machine.specs.ReferentialActions.{is_deletion, columns_set, have_deletion, is_set_otherwise, disagree};
ghost use Rattle.iv_laws_kept.specs.FollowingWaves.{clashes, first_conflict};

use iv_machine::Effect;
use iv_value::{Value, same};

/// The columns that an effect sets, with their values.
pub fn columns_set(effect: &Effect) -> &[(u32, Value)]
    ensures { result.now ≡ columns_set effect.now }
{
    match effect {
        Effect::DeleteRow => &[],
        Effect::SetColumns(pairs) => pairs.as_slice(),
    }
}

fn is_deletion(effect: &(u32, Effect)) -> bool
    ensures { result ≡ is_deletion effect.now.1 }
{
    matches!(&effect.1, Effect::DeleteRow)
}

/// Whether one of the effects deletes the row.
pub fn have_deletion(effects: &[(u32, Effect)]) -> bool
    ensures { result ≡ have_deletion effects.now }
{
    effects.iter().any(|effect| is_deletion(effect))
}

/// Whether a pair sets the column of another to another value.
pub fn sets_otherwise(pair: &(u32, Value), own: &(u32, Value)) -> bool
    ensures { result ≡ ((pair.now.0 == own.now.0) && not (is_same pair.now.1 own.now.1)) }
{
    pair.0 == own.0 && !same(&pair.1, &own.1)
}

fn is_set_otherwise(pairs: &[(u32, Value)], own: &(u32, Value)) -> bool
    ensures { result ≡ is_set_otherwise pairs.now own.now }
{
    pairs.iter().any(|pair| sets_otherwise(pair, own))
}

// Whether some pair's column is set otherwise by these.
fn any_set_otherwise(pairs: &[(u32, Value)], owns: &[(u32, Value)]) -> bool
    ensures { result ≡ list_any (is_set_otherwise pairs.now) owns.now }
{
    owns.iter().any(|own| is_set_otherwise(pairs, own))
}

// Whether an earlier foreign key's effect disagrees with this one.
fn disagrees_before(earlier: &(u32, Effect), own: &(u32, Effect)) -> bool
    ensures { result ≡
        (nat_lt earlier.now.0 own.now.0 && disagree earlier.now.1 own.now.1) }
{
    earlier.0 < own.0 && any_set_otherwise(columns_set(&earlier.1), columns_set(&own.1))
}

fn clashes(effects: &[(u32, Effect)], own: &(u32, Effect)) -> bool
    ensures { result ≡ clashes effects.now own.now }
{
    effects.iter().any(|earlier| disagrees_before(earlier, own))
}

// The first effect's foreign key that clashes with one of all.
fn first_clash(all: &[(u32, Effect)], effects: &[(u32, Effect)]) -> Option<u32>
    ensures { result ≡ option_map (λ e. e.0) (find (clashes all.now) effects.now) }
{
    for effect in effects {
        if clashes(all, effect) {
            return Some(effect.0);
        }
    }
    None
}

/// The first foreign key that disagrees with an earlier one about a row that no effect deletes.
pub fn first_conflict(effects: &[(u32, Effect)]) -> Option<u32>
    ensures { result ≡ first_conflict effects.now }
{
    if have_deletion(effects) {
        None
    } else {
        first_clash(effects, effects)
    }
}
