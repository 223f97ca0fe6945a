//! A script in one layout.
ghost use Rattle.std.specs.Prelude.{◌≡◌, ◌<◌, ◌≤◌, IfErr, IfOk, IfSome, OnErr, OnOk};
ghost use Rattle.iv_text.specs.Sinks.{FailsNever, FailsOnce};
ghost use Rattle.iv_script.specs.Lengths.{Fits};
ghost use Rattle.iv_write.specs.Scripts.{AllCanBeWritten};
ghost use Rattle.iv_program.specs.Formats.{Formats, Formatted, IsLaidOut, LaysOut};
ghost use Rattle.iv_program.specs.Notes.{TellsStop, fault_alone};
ghost use Rattle.iv_program.specs.Stopping.{StoppedBy, Unwritten};

use crate::notes::{Notes, Stop, conclude, fault_alone};
use crate::script::{Script, ScriptFault, read_script};
use iv_script::{LONGEST, RunFault};
use iv_syntax::Statement;
use iv_text::{Sink, Source, write_all};
use iv_write::write_script;
use std::alloc::Global;

// Writes statements in the one layout.
fn write_statements<W: Sink>(
    alloc: Global,
    statements: &[Statement],
    writer: &mut W,
) -> Result<(), Stop>
    requires { AllCanBeWritten statements.now }
    ensures written { OnOk result (IsLaidOut statements.now (W.state writer.old) (W.state writer.new)) }
    ensures works { OnOk result (FailsNever (W.state writer.old) (W.state writer.new)) }
    ensures unwritten { IfErr result (λ stop. Unwritten stop (W.state writer.old) (W.state writer.new)) }
    ensures silent { OnErr result (¬ (FailsOnce (W.state writer.old) (W.state writer.new)) → writer.new ≡ writer.old) }
{
    let text = write_script(alloc, statements)?;
    let written = write_all(writer, text.as_bytes());
    drop(text);
    match written {
        Ok(()) => Ok(()),
        Err(_) => Err(Stop::Run(RunFault::Write)),
    }
}

// Writes the statements of a script that has no fault; of another one nothing.
fn write_laid_out<W: Sink>(
    alloc: Global,
    statements: &[Statement],
    fault: Option<ScriptFault>,
    writer: &mut W,
) -> Result<(), Stop>
    requires { AllCanBeWritten statements.now }
    ensures written { OnOk result (LaysOut fault statements.now (W.state writer.old) (W.state writer.new)) }
    ensures works { OnOk result (FailsNever (W.state writer.old) (W.state writer.new)) }
    ensures unwritten { IfErr result (λ stop. Unwritten stop (W.state writer.old) (W.state writer.new)) }
    ensures silent { OnErr result (¬ (FailsOnce (W.state writer.old) (W.state writer.new)) → writer.new ≡ writer.old) }
{
    match fault {
        Some(_) => Ok(()),
        None => write_statements(alloc, statements, writer),
    }
}

// Writes a script that was read.
fn format_read<W: Sink>(alloc: Global, read: &Script, writer: &mut W) -> Result<Notes, Stop>
    requires { AllCanBeWritten read.now.parsed.statements }
    ensures notes { IfOk result (λ notes. notes ≡ fault_alone read.now.fault) }
    ensures written { OnOk result (LaysOut read.now.fault read.now.parsed.statements
        (W.state writer.old) (W.state writer.new)) }
    ensures works { OnOk result (FailsNever (W.state writer.old) (W.state writer.new)) }
    ensures unwritten { IfErr result (λ stop. Unwritten stop (W.state writer.old) (W.state writer.new)) }
    ensures silent { OnErr result (¬ (FailsOnce (W.state writer.old) (W.state writer.new)) → writer.new ≡ writer.old) }
{
    match write_laid_out(alloc, read.parsed.statements.as_slice(), read.fault, writer) {
        Ok(()) => Ok(fault_alone(read.fault)),
        Err(stop) => Err(stop),
    }
}

// Reads a script and writes it.
fn format_script<R: Source, W: Sink>(
    alloc: Global,
    reader: &mut R,
    writer: &mut W,
) -> Result<Notes, Stop>
    ensures formatted { IfOk result (λ notes. IfSome (R.remaining reader.old) (λ bytes.
        Formats bytes notes (W.state writer.old) (W.state writer.new))) }
    ensures notes { IfOk result (λ notes. notes ≡ fault_alone notes.fault) }
    ensures fits { OnOk result (IfSome (R.remaining reader.old) (λ bytes. Fits LONGEST bytes)) }
    ensures works { OnOk result ((R.failed reader.new ≡ R.failed reader.old)
        × FailsNever (W.state writer.old) (W.state writer.new)) }
    ensures stopped { IfErr result (λ stop. StoppedBy LONGEST stop (R.remaining reader.old)
        (R.failed reader.old) (R.failed reader.new) (W.state writer.old) (W.state writer.new)) }
    ensures silent { OnErr result (¬ (FailsOnce (W.state writer.old) (W.state writer.new)) → writer.new ≡ writer.old) }
{
    match read_script(alloc, reader) {
        Ok(read) => {
            let done = format_read(alloc, &read, writer);
            drop(read);
            done
        }
        Err(fault) => Err(Stop::Run(fault)),
    }
}

/// Writes the statements of a script in one layout, without running them. The status is 0, or 1 if the script has a fault;
/// then nothing is written, and `faults` is told where it is. With status 2 the line on `faults` says why.
pub fn run_format<R: Source, W: Sink, E: Sink>(
    alloc: Global,
    reader: &mut R,
    writer: &mut W,
    faults: &mut E,
) -> u8
    // What was written is the text of the statements that the bytes are, and is read as these and no others; of a script
    // with a fault nothing was.
    ensures formatted { result < 2 → IfSome (R.remaining reader.old) (λ bytes.
        Formatted bytes result (W.state writer.old) (W.state writer.new) (E.state faults.old) (E.state faults.new)) }
    ensures fits { result < 2 → IfSome (R.remaining reader.old) (λ bytes. Fits LONGEST bytes) }
    ensures bound { result ≤ 2 }
    // If the status is 2, nothing was written unless a write failed.
    ensures silent { result ≡ 2
        → ¬ (FailsOnce (W.state writer.old) (W.state writer.new)) → writer.new ≡ writer.old }
    // A call of a device that fails has status 2.
    ensures works { result < 2 → (R.failed reader.new ≡ R.failed reader.old)
        × FailsNever (W.state writer.old) (W.state writer.new) }
    // Then the line on `faults` says why, or a write of it failed.
    ensures stopped { result ≡ 2 → (stop : Stop)
        × StoppedBy LONGEST stop (R.remaining reader.old) (R.failed reader.old)
        (R.failed reader.new) (W.state writer.old) (W.state writer.new)
        × TellsStop stop (E.state faults.old) (E.state faults.new) }
    ensures quiet { result ≡ 0 → faults.new ≡ faults.old }
{
    let done = format_script(alloc, reader, writer);
    conclude(faults, done)
}
