//! A dump of the database that a script leaves.
ghost use Rattle.std.specs.Prelude.{◌≡◌, ◌<◌, ◌≤◌, IfErr, IfOk, IfSome, OnErr, OnOk, flat_map, is_some, string_bytes};
ghost use Rattle.iv_machine.specs.Machine.{empty_state};
ghost use Rattle.iv_text.specs.Sinks.{FailsNever, FailsOnce};
ghost use Rattle.iv_text.specs.Writing.{Writes};
ghost use Rattle.iv_script.specs.Lengths.{Fits};
ghost use Rattle.iv_program.specs.Dumps.{Dumped, Dumps, DumpsUnless, LeavesDump, WritesDump, stop_of};
ghost use Rattle.iv_script.specs.declared.summary.RunFault.TheVariants.{NoMemory};
ghost use Rattle.iv_step.specs.Step.{step};
ghost use Rattle.iv_program.specs.declared.notes.Stop.TheVariants.{Run};
ghost use Rattle.iv_program.specs.Executing.{Leaves, refused_of, rolled_back};
ghost use Rattle.iv_program.specs.Notes.{TellsStop};
ghost use Rattle.iv_program.specs.Stopping.{StoppedBy, Unwritten};

use crate::notes::{Notes, Stop, conclude, fault_alone};
use crate::script::{ScriptFault, read_script};
use iv_machine::Limits;
use iv_restore::{DumpRefusal, checked_dump};
use iv_script::{LONGEST, RunFault};
use iv_step::{Executor, Outcome, is_memory_refused};
use iv_syntax::Statement;
use iv_text::{DeviceFault, Sink, Source, write_all};
use std::alloc::Global;

// One if the statement was refused.
fn refused_of(outcome: &Outcome) -> u64
    ensures count { result ≡ refused_of outcome.now }
    ensures small { result ≤ 1 }
{
    match outcome {
        Ok(_) => 0,
        Err(_) => 1,
    }
}

// Executes a statement; answers 1 if it was refused. It stops if an allocation failed.
fn execute_one<X: Executor>(database: &mut X, statement: &Statement) -> Result<u64, Stop>
    ensures state { OnOk result (X.state database.new ≡ (step (X.state database.old) statement.now).state) }
    ensures answer { IfOk result (λ refused. refused ≡ refused_of (step (X.state database.old) statement.now).answer) }
    ensures small { IfOk result (λ refused. refused ≤ 1) }
    ensures stop { IfErr result (λ stop. stop ≡ Run NoMemory) }
{
    let outcome = database.execute(statement);
    let no_memory = is_memory_refused(&outcome);
    let refused = refused_of(&outcome);
    drop(outcome);
    if no_memory {
        return Err(Stop::Run(RunFault::NoMemory));
    }
    Ok(refused)
}

// Executes the statements one after another; answers how many were refused.
fn execute_all<X: Executor>(database: &mut X, statements: &[Statement]) -> Result<u64, Stop>
    ensures ran { IfOk result (λ refused. Leaves (X.state database.old) statements.now (X.state database.new) refused) }
    ensures stop { IfErr result (λ stop. stop ≡ Run NoMemory) }
{
    let mut rest = statements;
    let mut refused = 0u64;
    let mut number = 0u64;
    while let Some((statement, others)) = rest.split_first() {
        number += 1;
        refused += execute_one(database, statement)?;
        rest = others;
    }
    Ok(refused)
}

// Rolls the open transaction back; answers whether there was one.
fn roll_back<X: Executor>(database: &mut X) -> bool
    ensures open { result ≡ is_some (X.state database.old).start }
    ensures state { X.state database.new ≡ rolled_back (X.state database.old) }
{
    let is_open = database.in_transaction();
    drop(database.execute(&Statement::Rollback));
    is_open
}

// Writes the scripts of a dump, one after another.
fn write_scripts<W: Sink>(writer: &mut W, scripts: &[String]) -> Result<(), DeviceFault>
    ensures { Writes (W.state writer.old) (W.state writer.new) result (flat_map string_bytes scripts.now) }
{
    let mut rest = scripts;
    while let Some((script, others)) = rest.split_first() {
        write_all(writer, script.as_bytes())?;
        rest = others;
    }
    Ok(())
}

// Why there is no dump. None is asked for in a transaction.
fn stop_of(refusal: DumpRefusal) -> Stop
    ensures { result ≡ stop_of refusal }
{
    match refusal {
        DumpRefusal::NoMemory => Stop::Run(RunFault::NoMemory),
        DumpRefusal::TooLong | DumpRefusal::InTransaction => Stop::LongStatement,
        DumpRefusal::Differs => Stop::NotRestored,
    }
}

// Writes a dump of a database that is outside a transaction.
fn write_dump<X: Executor + Drop, W: Sink>(
    alloc: Global,
    database: &X,
    writer: &mut W,
) -> Result<(), Stop>
    ensures dumped { OnOk result (WritesDump (X.state database.now) (W.state writer.old) (W.state writer.new)) }
    ensures works { OnOk result (FailsNever (W.state writer.old) (W.state writer.new)) }
    ensures unwritten { IfErr result (λ stop. Unwritten stop (W.state writer.old) (W.state writer.new)) }
    ensures silent { OnErr result (¬ (FailsOnce (W.state writer.old) (W.state writer.new)) → writer.new ≡ writer.old) }
{
    let scripts = match checked_dump(alloc, database) {
        Ok(scripts) => scripts,
        Err(refusal) => return Err(stop_of(refusal)),
    };
    let written = write_scripts(writer, scripts.as_slice());
    drop(scripts);
    match written {
        Ok(()) => Ok(()),
        Err(_) => Err(Stop::Run(RunFault::Write)),
    }
}

// Executes statements in a database, and writes a dump of what they leave.
fn dump_after<X: Executor + Drop, W: Sink>(
    alloc: Global,
    database: &mut X,
    statements: &[Statement],
    writer: &mut W,
) -> Result<Notes, Stop>
    ensures dumped { IfOk result (λ notes.
        LeavesDump (X.state database.old) statements.now notes (W.state writer.old) (W.state writer.new)) }
    ensures works { OnOk result (FailsNever (W.state writer.old) (W.state writer.new)) }
    ensures unwritten { IfErr result (λ stop. Unwritten stop (W.state writer.old) (W.state writer.new)) }
    ensures silent { OnErr result (¬ (FailsOnce (W.state writer.old) (W.state writer.new)) → writer.new ≡ writer.old) }
{
    let refused = execute_all(database, statements)?;
    let is_open = roll_back(database);
    match write_dump(alloc, &*database, writer) {
        Ok(()) => Ok(Notes {
            fault: None,
            refused,
            is_open,
        }),
        Err(stop) => Err(stop),
    }
}

// The same in a new database.
fn dump_statements<X: Executor + Drop, W: Sink>(
    alloc: Global,
    limits: Limits,
    statements: &[Statement],
    writer: &mut W,
) -> Result<Notes, Stop>
    ensures dumped { IfOk result (λ notes.
        LeavesDump (empty_state limits) statements.now notes (W.state writer.old) (W.state writer.new)) }
    ensures works { OnOk result (FailsNever (W.state writer.old) (W.state writer.new)) }
    ensures unwritten { IfErr result (λ stop. Unwritten stop (W.state writer.old) (W.state writer.new)) }
    ensures silent { OnErr result (¬ (FailsOnce (W.state writer.old) (W.state writer.new)) → writer.new ≡ writer.old) }
{
    let mut database = X::new(alloc, limits)?;
    let done = dump_after(alloc, &mut database, statements, writer);
    drop(database);
    done
}

// The same for the statements of a script; nothing is run of one that has a fault.
fn dump_unless<X: Executor + Drop, W: Sink>(
    alloc: Global,
    limits: Limits,
    statements: &[Statement],
    fault: Option<ScriptFault>,
    writer: &mut W,
) -> Result<Notes, Stop>
    ensures dumped { IfOk result (λ notes. DumpsUnless fault limits statements.now notes
        (W.state writer.old) (W.state writer.new)) }
    ensures works { OnOk result (FailsNever (W.state writer.old) (W.state writer.new)) }
    ensures unwritten { IfErr result (λ stop. Unwritten stop (W.state writer.old) (W.state writer.new)) }
    ensures silent { OnErr result (¬ (FailsOnce (W.state writer.old) (W.state writer.new)) → writer.new ≡ writer.old) }
{
    match fault {
        Some(_) => Ok(fault_alone(fault)),
        None => dump_statements::<X, W>(alloc, limits, statements, writer),
    }
}

// Reads a script, runs it and writes the dump.
fn dump_script<X: Executor + Drop, R: Source, W: Sink>(
    alloc: Global,
    limits: Limits,
    reader: &mut R,
    writer: &mut W,
) -> Result<Notes, Stop>
    ensures dumped { IfOk result (λ notes. IfSome (R.remaining reader.old) (λ bytes.
        Dumps bytes limits notes (W.state writer.old) (W.state writer.new))) }
    ensures fits { OnOk result (IfSome (R.remaining reader.old) (λ bytes. Fits LONGEST bytes)) }
    ensures works { OnOk result ((R.failed reader.new ≡ R.failed reader.old)
        × FailsNever (W.state writer.old) (W.state writer.new)) }
    ensures stopped { IfErr result (λ stop. StoppedBy LONGEST stop (R.remaining reader.old)
        (R.failed reader.old) (R.failed reader.new) (W.state writer.old) (W.state writer.new)) }
    ensures silent { OnErr result (¬ (FailsOnce (W.state writer.old) (W.state writer.new)) → writer.new ≡ writer.old) }
{
    match read_script(alloc, reader) {
        Ok(read) => {
            let statements = read.parsed.statements.as_slice();
            let done = dump_unless::<X, W>(alloc, limits, statements, read.fault, writer);
            drop(read);
            done
        }
        Err(fault) => Err(Stop::Run(fault)),
    }
}

/// Runs the script that the reader gives, under these limits, and writes scripts that make the database which it leaves. A
/// refused statement left the database as it was, and a transaction that is open at the end is rolled back. The scripts
/// are run in a database of their own and compared with the first before they are written. The status is 0 if every
/// statement was accepted, and 1 if one was refused or the script has a fault; of a script with a fault nothing is run or
/// written. `faults` is told of each of these. With status 2 the line on `faults` says why there is no dump; so it is if
/// an allocation failed in a statement.
pub fn run_dump<X: Executor + Drop, R: Source, W: Sink, E: Sink>(
    alloc: Global,
    limits: Limits,
    reader: &mut R,
    writer: &mut W,
    faults: &mut E,
) -> u8
    // What was written is a dump of the state that the statements leave.
    ensures dumped { result < 2 → IfSome (R.remaining reader.old) (λ bytes.
        Dumped bytes limits result (W.state writer.old) (W.state writer.new) (E.state faults.old) (E.state faults.new)) }
    ensures fits { result < 2 → IfSome (R.remaining reader.old) (λ bytes. Fits LONGEST bytes) }
    ensures bound { result ≤ 2 }
    // If the status is 2, nothing was written unless a write failed.
    ensures silent { result ≡ 2
        → ¬ (FailsOnce (W.state writer.old) (W.state writer.new)) → writer.new ≡ writer.old }
    // A call of a device that fails has status 2.
    ensures works { result < 2 → (R.failed reader.new ≡ R.failed reader.old)
        × FailsNever (W.state writer.old) (W.state writer.new) }
    // Then the line on `faults` says why, or a write of it failed.
    ensures stopped { result ≡ 2 → (stop : Stop)
        × StoppedBy LONGEST stop (R.remaining reader.old) (R.failed reader.old)
        (R.failed reader.new) (W.state writer.old) (W.state writer.new)
        × TellsStop stop (E.state faults.old) (E.state faults.new) }
{
    let done = dump_script::<X, R, W>(alloc, limits, reader, writer);
    conclude(faults, done)
}
