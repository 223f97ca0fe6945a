//! Scripts that are run, as long as each statement is accepted.
ghost use Rattle.std.specs.Prelude.{◌≡◌, OnOk, map, string_bytes};
ghost use Rattle.iv_restore.specs.Restoring.{AllAccepted, IsAccepted, RunScripts, RunsScript};

use iv_catalogue::Refusal;
use iv_dump::DumpRefusal;
use iv_parse::script;
use iv_step::{Executor, is_memory_refused};
use iv_syntax::Statement;
use std::alloc::Global;

// Executes a statement, which has to be accepted.
#[tactic(auto, using(crate::proofs::Run::was_accepted))]
fn accept<X: Executor>(database: &mut X, statement: &Statement) -> Result<(), DumpRefusal>
    ensures { OnOk result (IsAccepted (X.state database.old) statement.now (X.state database.new)) }
{
    let outcome = database.execute(statement);
    if is_memory_refused(&outcome) {
        drop(outcome);
        return Err(DumpRefusal::NoMemory);
    }
    match outcome {
        Ok(answer) => {
            drop(answer);
            Ok(())
        }
        Err(_) => Err(DumpRefusal::Differs),
    }
}

fn run_statements<X: Executor>(
    database: &mut X,
    statements: &[Statement],
) -> Result<(), DumpRefusal>
    ensures { OnOk result (AllAccepted (X.state database.old) statements.now (X.state database.new)) }
{
    let mut rest = statements;
    while let Some((statement, others)) = rest.split_first() {
        accept(database, statement)?;
        rest = others;
    }
    Ok(())
}

fn run_script<X: Executor>(alloc: Global, database: &mut X, text: &str) -> Result<(), DumpRefusal>
    ensures { OnOk result (RunsScript (X.state database.old) text.now (X.state database.new)) }
{
    let parsed = script(alloc, text)?;
    if parsed.fault.is_some() {
        drop(parsed);
        return Err(DumpRefusal::Differs);
    }
    let ran = run_statements(database, parsed.statements.as_slice());
    drop(parsed);
    ran
}

/// Runs the scripts one after another. Each has to be read whole, and each of its statements accepted.
pub fn run_scripts<X: Executor>(
    alloc: Global,
    database: &mut X,
    scripts: &[String],
) -> Result<(), DumpRefusal>
    ensures { OnOk result (RunScripts (X.state database.old) (map string_bytes scripts.now) (X.state database.new)) }
{
    let mut rest = scripts;
    while let Some((text, others)) = rest.split_first() {
        run_script(alloc, database, text.as_str())?;
        rest = others;
    }
    Ok(())
}
