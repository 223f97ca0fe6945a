//! What a cause says: its number, its name, and the constraint and the trigger that it speaks of.
ghost use Rattle.std.specs.Prelude.{◌≡◌, ◌≤◌, length};
ghost use Rattle.iv_text.specs.Causes.{cause_name, cause_number, constraint_of, number_length, or_inside, trigger_of};
ghost use Rattle.iv_text.specs.Lines.{cause_words};

use crate::outcome::cause_words;
use iv_catalogue::{Cause, ConstraintId, TriggerId};

/// The number of a cause.
pub fn cause_number(cause: &Cause) -> u32
    ensures { result ≡ cause_number cause.now }
{
    match cause {
        Cause::Unknown => 1,
        Cause::Duplicate => 2,
        Cause::SchemaFault => 3,
        Cause::InTransaction => 4,
        Cause::NoTransaction => 5,
        Cause::ActiveTransaction => 6,
        Cause::UnknownSavepoint => 7,
        Cause::NotDeferrable(_) => 8,
        Cause::WrongShape => 9,
        Cause::NumberOutOfRange => 10,
        Cause::TextTooLong => 11,
        Cause::Restrict(_) => 12,
        Cause::Violation(_) => 13,
        Cause::ActionConflict(_) => 14,
        Cause::Signal(_, _) => 15,
        Cause::DepthLimit(_) => 16,
        Cause::TooManyChanges => 17,
        Cause::TransactionTooLarge => 18,
        Cause::CommitRefused(_) => 19,
        Cause::AddRefused(_) => 20,
        Cause::Limit => 21,
        Cause::OutOfMemory => 22,
    }
}

// How many bytes of a cause's words are its number and the space after it.
fn number_length(cause: &Cause) -> usize
    ensures is { result ≡ number_length cause.now }
    ensures within { result ≤ length (cause_words cause.now) }
{
    if cause_number(cause) < 10 { 2 } else { 3 }
}

/// The name of a cause.
pub fn cause_name(cause: &Cause) -> &'static [u8]
    ensures { result.now ≡ cause_name cause.now }
{
    let start = number_length(cause);
    &cause_words(cause).as_bytes()[start..]
}

/// The constraint that a cause speaks of.
pub fn constraint_of(cause: &Cause) -> Option<ConstraintId>
    ensures { result ≡ constraint_of cause.now }
{
    match cause {
        Cause::NotDeferrable(id) => Some(*id),
        Cause::Restrict(fault) => Some(fault.constraint),
        Cause::Violation(fault) => Some(fault.constraint),
        Cause::ActionConflict(fault) => Some(fault.constraint),
        Cause::CommitRefused(fault) => Some(fault.constraint),
        _ => None,
    }
}

/// The trigger that a cause speaks of, or else the innermost one that was running.
pub fn trigger_of(cause: &Cause, inside: Option<TriggerId>) -> Option<TriggerId>
    ensures { result ≡ or_inside (trigger_of cause.now) inside }
{
    match cause {
        Cause::Signal(id, _) => Some(*id),
        Cause::DepthLimit(id) => Some(*id),
        _ => inside,
    }
}
