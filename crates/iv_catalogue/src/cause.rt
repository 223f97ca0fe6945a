//! Why a statement is refused.
ghost use Rattle.std.specs.Prelude.{◌≡◌};
ghost use Rattle.iv_catalogue.specs.Refusals.{refusal_of};

use crate::number::{ConstraintId, TriggerId};
use iv_expr::ExprFault;
use std::alloc::{AllocError, AllocFailed};

/// A violation: the constraint and the number of the row that violates it.
#[derive(Clone, Copy, Debug, PartialEq, Eq)]
pub struct Fault {
    pub constraint: ConstraintId,
    pub row: u64,
}

/// The 22 causes of a refusal, in the order of their numbers from 1.
#[derive(Clone, Copy, Debug, PartialEq, Eq)]
pub enum Cause {
    /// A name that names nothing.
    Unknown,
    /// A name that is in use or comes twice.
    Duplicate,
    /// A definition that no schema can have.
    SchemaFault,
    /// A schema statement inside a transaction.
    InTransaction,
    /// A savepoint or mode statement outside a transaction.
    NoTransaction,
    /// START TRANSACTION inside a transaction.
    ActiveTransaction,
    UnknownSavepoint,
    NotDeferrable(ConstraintId),
    /// The number of values isn't that of the columns, or an integer meets a text.
    WrongShape,
    NumberOutOfRange,
    TextTooLong,
    /// ON DELETE RESTRICT or ON UPDATE RESTRICT, with the row that refers.
    Restrict(Fault),
    /// An immediate constraint that a statement violates, with the first row.
    Violation(Fault),
    /// Two referential actions that set one column of the row to different values.
    ActionConflict(Fault),
    /// SIGNAL of a trigger, by its place in the body, from 1.
    Signal(TriggerId, u32),
    DepthLimit(TriggerId),
    TooManyChanges,
    TransactionTooLarge,
    /// A constraint that COMMIT found violated, with the first row.
    CommitRefused(Fault),
    /// A constraint to be added that this row violates.
    AddRefused(u64),
    /// A number beyond the limits of the language, or one table, column or constraint too many.
    Limit,
    /// An allocation failed.
    OutOfMemory,
}

/// A refusal, with the innermost trigger whose body or WHEN was running.
#[derive(Clone, Copy, Debug, PartialEq, Eq)]
pub struct Refusal {
    pub cause: Cause,
    pub trigger: Option<TriggerId>,
}

impl Refusal {
    /// The refusal for this cause, outside any trigger.
    pub fn of(cause: Cause) -> Refusal
        ensures { result ≡ refusal_of cause }
    {
        Refusal {
            cause,
            trigger: None,
        }
    }
}

impl From<AllocError> for Cause {
    ghost use Rattle.std.specs.Prelude.{◌≡◌};
    ghost use Rattle.iv_catalogue.specs.declared.cause.Cause.TheVariants.{OutOfMemory};

    ghost from_gives = { λ _ cause. cause ≡ OutOfMemory };

    fn from(_: AllocError) -> Cause {
        Cause::OutOfMemory
    }
}

impl<T: Drop> From<AllocFailed<T>> for Cause {
    ghost use Rattle.std.specs.Prelude.{◌≡◌};
    ghost use Rattle.iv_catalogue.specs.declared.cause.Cause.TheVariants.{OutOfMemory};

    ghost from_gives = { λ _ cause. cause ≡ OutOfMemory };

    fn from(failed: AllocFailed<T>) -> Cause {
        Cause::from(AllocError::from(failed))
    }
}

impl From<ExprFault> for Cause {
    ghost use Rattle.std.specs.Prelude.{◌≡◌};
    ghost use Rattle.iv_catalogue.specs.Refusals.{cause_of};

    ghost from_gives = { λ fault cause. cause ≡ cause_of fault };

    fn from(fault: ExprFault) -> Cause {
        match fault {
            ExprFault::OutOfRange => Cause::NumberOutOfRange,
            ExprFault::IllTyped => Cause::WrongShape,
            ExprFault::NoMemory => Cause::OutOfMemory,
        }
    }
}

impl From<Cause> for Refusal {
    ghost use Rattle.std.specs.Prelude.{◌≡◌};
    ghost use Rattle.iv_catalogue.specs.Refusals.{refusal_of};

    ghost from_gives = { λ cause refusal. refusal ≡ refusal_of cause };

    fn from(cause: Cause) -> Refusal {
        Refusal::of(cause)
    }
}

impl From<AllocError> for Refusal {
    ghost use Rattle.std.specs.Prelude.{◌≡◌};
    ghost use Rattle.iv_catalogue.specs.Refusals.{out_of_memory};

    ghost from_gives = { λ _ refusal. refusal ≡ out_of_memory };

    fn from(_: AllocError) -> Refusal {
        Refusal::of(Cause::OutOfMemory)
    }
}

impl<T: Drop> From<AllocFailed<T>> for Refusal {
    ghost use Rattle.std.specs.Prelude.{◌≡◌};
    ghost use Rattle.iv_catalogue.specs.Refusals.{out_of_memory};

    ghost from_gives = { λ _ refusal. refusal ≡ out_of_memory };

    fn from(failed: AllocFailed<T>) -> Refusal {
        Refusal::from(AllocError::from(failed))
    }
}
