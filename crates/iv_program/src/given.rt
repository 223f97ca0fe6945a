//! What a command line gives.

use iv_machine::Limits;
use std::alloc::AllocError;

/// What the words of a command line say.
#[derive(Clone, Copy, Debug)]
pub struct Options<'a> {
    pub limits: Limits,
    /// Whether the account of each statement is written.
    pub explain: bool,
    /// Whether the transcript is written as JSON.
    pub json: bool,
    /// Whether the database that the script leaves is written in place of the transcript.
    pub dump: bool,
    /// Whether the statements are written in one layout, and not run.
    pub format: bool,
    /// The file of the script; standard input where there is none.
    pub file: Option<&'a str>,
}

/// Why the words of a command line give no options.
#[derive(Debug, Drop)]
pub enum WordsError {
    /// Memory was refused.
    NoMemory,
    /// They ask for the help, which is this text.
    Help(String),
    /// They ask for the version, which this line tells.
    Version(String),
    /// They are refused: the text that says why.
    Refused(String),
}

impl From<AllocError> for WordsError {
    ghost use Rattle.std.specs.Prelude.{◌≡◌};
    ghost use Rattle.iv_program.specs.declared.given.WordsError.TheVariants.{NoMemory};

    ghost from_gives = { λ _ error. error ≡ NoMemory };

    fn from(_: AllocError) -> Self {
        WordsError::NoMemory
    }
}
