//! What C reads of an outcome.
ghost use Rattle.std.specs.Prelude.{◌≡◌};
ghost use Rattle.iv_connection.specs.Statements.{outcome_shown, row_of};

use iv_catalogue::Cause;
use iv_session::{Answer, Outcome};
use iv_text::cause_number;

/// A statement was done.
pub const DONE: u32 = 0;

/// A statement was done that inserts, updates or deletes rows.
pub const CHANGED: u32 = 1;

/// A query gave rows.
pub const ROWS: u32 = 2;

/// A statement was refused.
pub const REFUSED: u32 = 3;

/// The kind of an outcome, and its numbers.
#[repr(C)]
#[derive(Drop)]
pub struct ShownOutcome {
    pub kind: u32,
    /// The number of the cause, 0 where nothing was refused.
    pub cause: u32,
    /// How many rows were changed, or how many a query gave.
    pub count: u64,
    /// The row that the cause speaks of, 0 where it speaks of none.
    pub row: u64,
}

pub(crate) fn row_of(cause: &Cause) -> u64
    ensures { result ≡ row_of cause.now }
{
    match cause {
        Cause::Restrict(fault) => fault.row,
        Cause::Violation(fault) => fault.row,
        Cause::ActionConflict(fault) => fault.row,
        Cause::CommitRefused(fault) => fault.row,
        Cause::AddRefused(row) => *row,
        _ => 0,
    }
}

fn accepted(kind: u32, count: u64) -> ShownOutcome
    ensures { result ≡ record { kind = kind; cause = 0; count = count; row = 0 } }
{
    ShownOutcome {
        kind,
        cause: 0,
        count,
        row: 0,
    }
}

/// An outcome in the numbers that C reads.
pub fn outcome_shown(outcome: &Outcome) -> ShownOutcome
    ensures { result ≡ outcome_shown outcome.now }
{
    match outcome {
        Ok(Answer::Done) => accepted(DONE, 0),
        Ok(Answer::Changed(count)) => accepted(CHANGED, *count),
        Ok(Answer::Rows(rows)) => accepted(ROWS, rows.len() as u64),
        Err(refusal) => ShownOutcome {
            kind: REFUSED,
            cause: cause_number(&refusal.cause),
            count: 0,
            row: row_of(&refusal.cause),
        },
    }
}
