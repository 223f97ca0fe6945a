//! A dump that makes the database again.
ghost use Rattle.std.specs.Prelude.{◌≡◌, Err, IfOk, OnOk, is_some, map, string_bytes, true, false};
ghost use Rattle.iv_dump.specs.Dumps.{AreDump};
ghost use Rattle.iv_dump.specs.Scripts.{AreShort};
ghost use Rattle.iv_dump.specs.declared.refusal.DumpRefusal.TheVariants.{InTransaction};
ghost use Rattle.iv_restore.specs.Restoring.{IsSame, Restores, RunScripts, restoring_limits};

use crate::comparing::is_same_database;
use crate::running::run_scripts;
use iv_dump::{DumpRefusal, dump};
use iv_machine::Limits;
use iv_step::Executor;
use std::alloc::Global;

// Triggers come last, so none fires; an INSERT may have as many rows as a statement of any session.
fn limits() -> Result<Limits, DumpRefusal>
    ensures { IfOk result (λ limits. limits ≡ restoring_limits) }
{
    match Limits::new(1, 65_536) {
        Some(limits) => Ok(limits),
        None => Err(DumpRefusal::Differs),
    }
}

// Runs the scripts in this database, and compares what they leave.
fn compare<X: Executor>(
    alloc: Global,
    database: &X,
    scripts: &[String],
    restored: &mut X,
) -> Result<(), DumpRefusal>
    ensures { OnOk result (RunScripts (X.state restored.old) (map string_bytes scripts.now) (X.state restored.new)
        × IsSame (X.state database.now) (X.state restored.new)) }
{
    run_scripts(alloc, restored, scripts)?;
    if is_same_database(alloc, database, &*restored)? {
        Ok(())
    } else {
        Err(DumpRefusal::Differs)
    }
}

// Whether the scripts make the database again, in a database of their own.
fn restores<X: Executor + Drop>(
    alloc: Global,
    database: &X,
    scripts: &[String],
) -> Result<(), DumpRefusal>
    ensures { OnOk result (Restores (X.state database.now) (map string_bytes scripts.now)) }
{
    let mut restored = X::new(alloc, limits()?)?;
    let compared = compare(alloc, database, scripts, &mut restored);
    drop(restored);
    compared
}

/// The database as scripts of at most 1,048,576 bytes, to be run one after another in a new session: each table with
/// its constraints and then its rows, in creation order; constraints that refer to later tables after these; triggers
/// last. Before they are handed out they are run in a database of their own, and what they leave is compared with this
/// one; if it isn't the same, the answer is `Differs`. It takes as long as the scripts take to run, and memory for a
/// second database.
pub fn checked_dump<X: Executor + Drop>(
    alloc: Global,
    database: &X,
) -> Result<Vec<String>, DumpRefusal>
    ensures restores { IfOk result (λ scripts. Restores (X.state database.now) (map string_bytes scripts.items)) }
    ensures short { IfOk result (λ scripts. AreShort (map string_bytes scripts.items)) }
    ensures statements { IfOk result (λ scripts. AreDump (X.state database.now) (map string_bytes scripts.items)) }
    ensures outside { IfOk result (λ _. is_some (X.state database.now).start ≡ false) }
    ensures in_transaction { is_some (X.state database.now).start ≡ true → result ≡ Err InTransaction }
{
    let scripts = dump(alloc, database)?;
    match restores(alloc, database, scripts.as_slice()) {
        Ok(()) => Ok(scripts),
        Err(refusal) => {
            drop(scripts);
            Err(refusal)
        }
    }
}
