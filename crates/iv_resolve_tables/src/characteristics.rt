//! When a constraint is checked.
ghost use Rattle.std.specs.Prelude.{◌≡◌};
ghost use Rattle.iv_resolution.specs.Constraints.{initial_mode, is_contradictory, is_deferrable, says_deferred};

use iv_syntax::{ConstraintMode, ConstraintTime};

fn says_deferred(time: ConstraintTime) -> bool
    ensures { result ≡ says_deferred time }
{
    match time.initially {
        Some(mode) => matches!(mode, ConstraintMode::Deferred),
        None => false,
    }
}

/// Whether a constraint is DEFERRABLE: INITIALLY DEFERRED by itself means it.
pub fn is_deferrable(time: ConstraintTime) -> bool
    ensures { result ≡ is_deferrable time }
{
    match time.deferrable {
        Some(deferrable) => deferrable,
        None => says_deferred(time),
    }
}

/// Whether it says NOT DEFERRABLE and INITIALLY DEFERRED.
pub fn is_contradictory(time: ConstraintTime) -> bool
    ensures { result ≡ is_contradictory time }
{
    !is_deferrable(time) && says_deferred(time)
}

/// The mode that it has at the start of each transaction.
pub fn initial_mode(time: ConstraintTime) -> ConstraintMode
    ensures { result ≡ initial_mode time }
{
    if says_deferred(time) {
        ConstraintMode::Deferred
    } else {
        ConstraintMode::Immediate
    }
}
