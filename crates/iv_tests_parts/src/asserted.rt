//! How a condition is asserted.
ghost use Rattle.std.specs.Prelude.{◌≡◌, true};

use std::process::Abort;

/// Asserts that a condition holds, or else tells what isn't so. An `assert!` costs twice as much to prove as this call.
pub fn assert_that(rt: &impl Abort, holds: bool, otherwise: &str)
    ensures { holds ≡ true }
{
    if !holds {
        rt.panic(otherwise);
    }
}
