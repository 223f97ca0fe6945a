//! What standard error is told of a script that is dumped or laid out.
ghost use Rattle.std.specs.Prelude.{◌≡◌, ◌++◌, ◌≤◌, MatchResult, IfErr, IfOk, true};
ghost use Rattle.iv_text.specs.Writing.{Writes};
ghost use Rattle.iv_program.specs.Notes.{are_none, fault_alone, fault_note, notes_status, notes_text, open_note, place_note, refused_note, some_fault_note, some_refused_note, stop_line, stop_text, TellsNotes, TellsStop};

use crate::script::ScriptFault;
use iv_script::{Place, RunFault};
use iv_text::{DeviceFault, Sink, write_all, write_nothing, write_number};
use std::alloc::AllocError;

/// What there is to tell of a script that was read.
#[derive(Clone, Copy, Debug, PartialEq, Eq)]
pub struct Notes {
    /// Its fault; nothing is written of it then.
    pub fault: Option<ScriptFault>,
    /// How many of its statements were refused.
    pub refused: u64,
    /// Whether a transaction was open at its end. It was rolled back.
    pub is_open: bool,
}

/// Only the fault: of a script with one nothing is run.
pub fn fault_alone(fault: Option<ScriptFault>) -> Notes
    ensures { result ≡ fault_alone fault }
{
    Notes {
        fault,
        refused: 0,
        is_open: false,
    }
}

/// Why nothing is written of a script, or not all.
#[derive(Debug, Drop, PartialEq, Eq)]
pub enum Stop {
    Run(RunFault),
    /// A statement of the dump would be longer than a script may be.
    LongStatement,
    /// What the dump makes isn't the database.
    NotRestored,
}

impl From<AllocError> for Stop {
    ghost use Rattle.std.specs.Prelude.{◌≡◌};
    ghost use Rattle.iv_script.specs.declared.summary.RunFault.TheVariants.{NoMemory};
    ghost use Rattle.iv_program.specs.declared.notes.Stop.TheVariants.{Run};

    ghost from_gives = { λ _ stop. stop ≡ Run NoMemory };

    fn from(_: AllocError) -> Stop {
        Stop::Run(RunFault::NoMemory)
    }
}

impl Stop {
    /// What tells it.
    pub fn text(&self) -> &'static str
        ensures { result.now ≡ stop_text self.now }
    {
        match self {
            Stop::Run(fault) => fault.text(),
            Stop::LongStatement => "a statement of the dump is longer than 1048576 bytes",
            Stop::NotRestored => "the dump doesn't make the same database again",
        }
    }
}

#[tactic(auto, using(iv_text::proofs::WriteLemmas::writes_then))]
fn write_place<E: Sink>(faults: &mut E, place: Place) -> Result<(), DeviceFault>
    ensures { Writes (E.state faults.old) (E.state faults.new) result (place_note place) }
{
    write_number(faults, place.line)?;
    write_all(faults, b", column ")?;
    write_number(faults, place.column)?;
    write_all(faults, b"\n")
}

fn write_some_fault<E: Sink>(faults: &mut E, fault: ScriptFault) -> Result<(), DeviceFault>
    ensures { Writes (E.state faults.old) (E.state faults.new) result (some_fault_note fault) }
{
    write_all(faults, b"sqlkeep: statement ")?;
    write_number(faults, fault.number)?;
    write_all(faults, b" can't be read: line ")?;
    write_place(faults, fault.place)
}

fn write_fault<E: Sink>(faults: &mut E, fault: Option<ScriptFault>) -> Result<(), DeviceFault>
    ensures { Writes (E.state faults.old) (E.state faults.new) result (fault_note fault) }
{
    match fault {
        Some(fault) => write_some_fault(faults, fault),
        None => write_nothing(faults),
    }
}

fn write_some_refused<E: Sink>(faults: &mut E, refused: u64) -> Result<(), DeviceFault>
    ensures { Writes (E.state faults.old) (E.state faults.new) result (some_refused_note refused) }
{
    write_all(faults, b"sqlkeep: refused statements: ")?;
    write_number(faults, refused)?;
    write_all(faults, b"\n")
}

fn write_refused<E: Sink>(faults: &mut E, refused: u64) -> Result<(), DeviceFault>
    ensures { Writes (E.state faults.old) (E.state faults.new) result (refused_note refused) }
{
    if refused == 0 {
        return write_nothing(faults);
    }
    write_some_refused(faults, refused)
}

fn write_open<E: Sink>(faults: &mut E, is_open: bool) -> Result<(), DeviceFault>
    ensures { Writes (E.state faults.old) (E.state faults.new) result (open_note is_open) }
{
    if is_open {
        write_all(faults, b"sqlkeep: the open transaction was rolled back\n")
    } else {
        write_nothing(faults)
    }
}

#[tactic(auto, using(iv_text::proofs::WriteLemmas::writes_then))]
fn write_notes<E: Sink>(faults: &mut E, notes: Notes) -> Result<(), DeviceFault>
    ensures { Writes (E.state faults.old) (E.state faults.new) result (notes_text notes) }
{
    write_fault(faults, notes.fault)?;
    write_refused(faults, notes.refused)?;
    write_open(faults, notes.is_open)
}

#[tactic(auto, using(iv_text::proofs::WriteLemmas::writes_then))]
fn write_stop<E: Sink>(faults: &mut E, stop: &Stop) -> Result<(), DeviceFault>
    ensures { Writes (E.state faults.old) (E.state faults.new) result (stop_line stop.now) }
{
    write_all(faults, b"sqlkeep: ")?;
    write_all(faults, stop.text().as_bytes())?;
    write_all(faults, b"\n")
}

fn are_none(notes: Notes) -> bool
    ensures { result ≡ are_none notes }
{
    notes.fault.is_none() && notes.refused == 0 && !notes.is_open
}

fn tell<E: Sink>(faults: &mut E, notes: Notes)
    ensures told { TellsNotes notes (E.state faults.old) (E.state faults.new) }
    ensures quiet { are_none notes ≡ true → faults.new ≡ faults.old }
{
    if !are_none(notes) {
        let _ = write_notes(faults, notes);
    }
}

fn status_of(notes: Notes) -> u8
    ensures { result ≡ notes_status notes }
{
    if notes.fault.is_none() && notes.refused == 0 {
        0
    } else {
        1
    }
}

/// The status of a script that was dumped or laid out, and what there is to tell of it on `faults`. A line that can't be
/// written changes no status.
pub fn conclude<E: Sink>(faults: &mut E, done: Result<Notes, Stop>) -> u8
    ensures status { MatchResult done (λ notes. result ≡ notes_status notes) (λ _. result ≡ 2) }
    ensures notes { IfOk done (λ notes. TellsNotes notes (E.state faults.old) (E.state faults.new)) }
    ensures quiet { IfOk done (λ notes. are_none notes ≡ true → faults.new ≡ faults.old) }
    ensures stop { IfErr done (λ stop. TellsStop stop (E.state faults.old) (E.state faults.new)) }
    ensures bound { result ≤ 2 }
{
    match done {
        Ok(notes) => {
            tell(faults, notes);
            status_of(notes)
        }
        Err(stop) => {
            let _ = write_stop(faults, &stop);
            2
        }
    }
}
