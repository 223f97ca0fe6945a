//! What a run did, or why it didn't.
ghost use Rattle.std.specs.Prelude.{◌≡◌};
ghost use Rattle.iv_script.specs.RunFaults.{run_fault_text};

use iv_parse::SyntaxFault;
use std::alloc::AllocError;
use thiserror::Error;

/// How many statements were accepted and refused, how many of the refused had cause 22, the fault of the script where it
/// has one, and how many refused COMMITs and ROLLBACK TOs have an empty account, or statements no lines of what is pending,
/// since memory was refused for it.
#[derive(Clone, Copy, Debug, PartialEq, Eq)]
pub struct Summary {
    pub accepted: u64,
    pub refused: u64,
    pub memory_refused: u64,
    pub fault: Option<SyntaxFault>,
    pub untold: u64,
}

/// Why a script was not run to its end.
#[derive(Debug, Drop, PartialEq, Eq, Error)]
#[error("{}", self.text())]
pub enum RunFault {
    Read,
    TooLong,
    NotUtf8,
    Write,
    NoMemory,
}

impl RunFault {
    /// The text of the fault, which `Display` shows.
    pub fn text(&self) -> &'static str
        ensures { result.now ≡ run_fault_text self.now }
    {
        match self {
            RunFault::Read => "cannot read the script",
            RunFault::TooLong => "the script is longer than 1048576 bytes",
            RunFault::NotUtf8 => "the script is not UTF-8",
            RunFault::Write => "cannot write",
            RunFault::NoMemory => "out of memory",
        }
    }
}

impl From<AllocError> for RunFault {
    ghost use Rattle.std.specs.Prelude.{◌≡◌};
    ghost use Rattle.iv_script.specs.declared.summary.RunFault.TheVariants.{NoMemory};

    ghost from_gives = { λ _ e. e ≡ NoMemory };

    fn from(_: AllocError) -> RunFault {
        RunFault::NoMemory
    }
}
