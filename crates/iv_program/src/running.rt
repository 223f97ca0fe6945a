//! A script that is run: its transcript, its status, and the line of what stopped it.
ghost use Rattle.std.specs.Prelude.{◌≡◌, ◌<◌, ◌≤◌, IfErr, IfSome, MatchResult};
ghost use Rattle.iv_text.specs.Sinks.{FailsOnce, FailsNever};
ghost use Rattle.iv_text.specs.Writing.{Writes};
ghost use Rattle.iv_script.specs.Lengths.{Fits};
ghost use Rattle.iv_program.specs.Statuses.{status_of, stop_line, Stopped, WritesLine, WroteTranscript};

use iv_machine::Limits;
use iv_script::{DeviceFault, LONGEST, RunFault, Sink, Source, Summary, run};
use iv_step::Executor;
use iv_text::{Style, write_all};
use std::alloc::Global;

// Writes the line of a fault.
fn write_stop<E: Sink>(faults: &mut E, fault: &RunFault) -> Result<(), DeviceFault>
    ensures { Writes (E.state faults.old) (E.state faults.new) result (stop_line fault.now) }
{
    write_all(faults, b"sqlkeep: ")?;
    write_all(faults, fault.text().as_bytes())?;
    write_all(faults, b"\n")
}

/// The status of a run, and its line on `faults` where it did not run to its end. A line that can't be written changes
/// no status.
pub fn status<E: Sink>(faults: &mut E, done: Result<Summary, RunFault>) -> u8
    ensures status { MatchResult done
        (λ s. result ≡ status_of s)
        (λ _. result ≡ 2) }
    ensures line { IfErr done (λ fault.
        WritesLine fault (E.state faults.old) (E.state faults.new)) }
    ensures quiet { result < 2 → faults.new ≡ faults.old }
{
    match done {
        Ok(summary) => {
            if summary.refused == 0 && summary.fault.is_none() {
                0
            } else {
                1
            }
        }
        Err(fault) => {
            let _ = write_stop(faults, &fault);
            2
        }
    }
}

/// Runs the script that the reader gives, under these limits, and writes its transcript in this style. The answer is the status: 0 where every statement was accepted, 1 where one was refused or the script has a fault, and 2 where it
/// did not run to its end, which alone has a line on `faults`.
pub fn run_script<X: Executor + Drop, R: Source, W: Sink, E: Sink>(
    alloc: Global,
    limits: Limits,
    style: Style,
    reader: &mut R,
    writer: &mut W,
    faults: &mut E,
) -> u8
    // What was written is the transcript, and the status is 0 where all was accepted and else 1.
    ensures transcript { result < 2 → IfSome (R.remaining reader.old) (λ bytes.
        WroteTranscript X.sure_store bytes limits style result (W.state writer.old) (W.state writer.new)) }
    ensures fits { result < 2 → IfSome (R.remaining reader.old) (λ bytes. Fits LONGEST bytes) }
    ensures bound { result ≤ 2 }
    // A run that did not reach its end wrote nothing, unless a write failed.
    ensures silent { result ≡ 2
        → ¬ (FailsOnce (W.state writer.old) (W.state writer.new)) → writer.new ≡ writer.old }
    // A call of a device that fails has status 2.
    ensures works { result < 2 → (R.failed reader.new ≡ R.failed reader.old)
        × FailsNever (W.state writer.old) (W.state writer.new) }
    // Only a run that did not end has status 2, and the line of its fault was written to `faults`, or
    // a write of it failed.
    ensures stopped { result ≡ 2 → (fault : RunFault)
        × Stopped LONGEST fault (R.remaining reader.old) (R.failed reader.old)
        (R.failed reader.new) (W.state writer.old) (W.state writer.new)
        × WritesLine fault (E.state faults.old) (E.state faults.new) }
    ensures quiet { result < 2 → faults.new ≡ faults.old }
{
    let done = run::<X, R, W>(alloc, reader, writer, limits, style);
    status(faults, done)
}
