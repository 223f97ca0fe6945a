//! Why nothing is read.
use std::alloc::AllocError;

/// Why a rule of the grammar reads nothing.
#[derive(Clone, Copy, Debug, PartialEq, Eq)]
pub enum Stop {
    /// The furthest word is none that may stand there.
    NoMatch,
    /// What is read is deeper than `DEEPEST_TREE`.
    TooDeep,
    /// Memory was refused.
    NoMemory,
}

impl From<AllocError> for Stop {
    ghost use Rattle.std.specs.Prelude.{◌≡◌};
    ghost use Rattle.iv_parse_terms.specs.declared.stop.Stop.TheVariants.{NoMemory};

    ghost from_gives = { λ _ e. e ≡ NoMemory };

    fn from(_: AllocError) -> Stop {
        Stop::NoMemory
    }
}
