//! Why a database isn't dumped.
use std::alloc::{AllocError, AllocFailed};

/// Why a database isn't dumped.
#[derive(Clone, Copy, Debug, PartialEq, Eq)]
pub enum DumpRefusal {
    /// A transaction is open.
    InTransaction,
    /// A statement would be longer than a script may be.
    TooLong,
    /// What the scripts make isn't the database.
    Differs,
    /// An allocation failed.
    NoMemory,
}

impl From<AllocError> for DumpRefusal {
    ghost use Rattle.std.specs.Prelude.{◌≡◌};
    ghost use Rattle.iv_dump.specs.declared.refusal.DumpRefusal.TheVariants.{NoMemory};

    ghost from_gives = { λ _ refusal. refusal ≡ NoMemory };

    fn from(_: AllocError) -> DumpRefusal {
        DumpRefusal::NoMemory
    }
}

impl<T: Drop> From<AllocFailed<T>> for DumpRefusal {
    ghost use Rattle.std.specs.Prelude.{◌≡◌};
    ghost use Rattle.iv_dump.specs.declared.refusal.DumpRefusal.TheVariants.{NoMemory};

    ghost from_gives = { λ _ refusal. refusal ≡ NoMemory };

    fn from(failed: AllocFailed<T>) -> DumpRefusal {
        drop(failed);
        DumpRefusal::NoMemory
    }
}
