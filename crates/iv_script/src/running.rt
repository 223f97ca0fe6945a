//! A script's run.
ghost use Rattle.std.specs.Prelude.{◌≡◌, ◌≢◌, ◌+◌, ◌<◌, ◌≤◌, ◌^◌, false, length, max, option_map, MatchResult, IfErr, IfOk, IfSome, IsErrOf, OnOk};
ghost use Rattle.std.specs.Str.{IsUtf8};
ghost use Rattle.iv_text.specs.Counts.{counted};
ghost use Rattle.iv_text.specs.Sinks.{FailsOnce, FailsNever};
ghost use Rattle.iv_script.specs.Lengths.{Fits, IsExact};
ghost use Rattle.iv_script.specs.Transcript.{fault_place, RanScript, RanWithMemory};
ghost use Rattle.iv_script.specs.Running.{RanParsed};

use crate::closing::write_closing;
use crate::read::{LONGEST, read_script};
use crate::statements::{Tally, run_statements};
use crate::summary::{RunFault, Summary};
use crate::telling::Telling;
use iv_machine::Limits;
use iv_parse::{SyntaxFault, script};
use iv_step::Executor;
use iv_syntax::Statement;
use iv_text::{Buffered, DeviceFault, Sink, Source, Style};
use std::alloc::Global;
use std::str::from_utf8;

// Runs the statements of a text, and writes their lines and those of the script's end.
fn run_parsed<S: Executor, W: Sink>(
    session: &mut S,
    telling: Telling,
    text: &str,
    statements: &[Statement],
    fault: Option<SyntaxFault>,
    writer: &mut W,
) -> Result<Tally, DeviceFault>
    requires few { length statements.now < 2 ^ 63 }
    requires asked { telling.style.explain ≡ (S.told session.old).asked }
    ensures { MatchResult result
        (λ t. RanParsed S.sure_store telling.style (S.state session.old) text.now statements.now fault t
        (W.state writer.old) (W.state writer.new))
        (λ _. FailsOnce (W.state writer.old) (W.state writer.new)) }
{
    let tally = run_statements(session, telling, statements, writer)?;
    write_closing(
        writer,
        telling.style,
        text,
        statements.len() as u64,
        fault,
        session.in_transaction(),
    )?;
    Ok(tally)
}

// The same with a buffer in front of the writer, which is empty again at the end.
fn run_buffered<S: Executor, W: Sink>(
    session: &mut S,
    telling: Telling,
    text: &str,
    statements: &[Statement],
    fault: Option<SyntaxFault>,
    writer: &mut W,
) -> Result<Tally, DeviceFault>
    requires few { length statements.now < 2 ^ 63 }
    requires asked { telling.style.explain ≡ (S.told session.old).asked }
    ensures { MatchResult result
        (λ t. RanParsed S.sure_store telling.style (S.state session.old) text.now statements.now fault t
        (W.state writer.old) (W.state writer.new))
        (λ _. FailsOnce (W.state writer.old) (W.state writer.new)) }
{
    let mut buffered = Buffered::new(writer);
    let tally = run_parsed(session, telling, text, statements, fault, &mut buffered)?;
    buffered.flush()?;
    Ok(tally)
}

// Runs the script that this text is.
fn run_text<S: Executor + Drop, W: Sink>(
    alloc: Global,
    text: &str,
    writer: &mut W,
    limits: Limits,
    style: Style,
) -> Result<Summary, RunFault>
    requires { length text.now ≤ LONGEST }
    ensures transcript { IfOk result (λ s.
        RanScript S.sure_store text.now limits style s (W.state writer.old) (W.state writer.new)) }
    ensures with_memory { IfOk result (λ s. s.memory_refused ≡ 0 → s.untold ≡ 0
        → RanWithMemory text.now limits style (fault_place s) (W.state writer.old) (W.state writer.new)) }
    ensures told { IfOk result (λ s. style.explain ≡ false → s.untold ≡ 0) }
    ensures kinds { IfErr result (λ e.
        (e ≢ RunFault.Read) × (e ≢ RunFault.TooLong) × (e ≢ RunFault.NotUtf8)) }
    ensures write { IsErrOf result RunFault.Write
        → FailsOnce (W.state writer.old) (W.state writer.new) }
    ensures silent { IfErr result (λ e. e ≢ RunFault.Write → writer.new ≡ writer.old) }
    ensures works { OnOk result (FailsNever (W.state writer.old) (W.state writer.new)) }
{
    let parsed = script(alloc, text)?;
    let mut session = S::new(alloc, limits)?;
    session.explain(style.explain);
    let telling = Telling { style, alloc };
    let done = run_buffered(
        &mut session,
        telling,
        text,
        parsed.statements.as_slice(),
        parsed.fault,
        writer,
    );
    let fault = parsed.fault;
    drop(session);
    drop(parsed);
    match done {
        Ok(tally) => Ok(Summary {
            accepted: tally.accepted,
            refused: tally.refused,
            memory_refused: tally.memory_refused,
            fault,
            untold: tally.untold,
        }),
        Err(_) => Err(RunFault::Write),
    }
}

// Runs the script that these bytes are.
fn run_bytes<S: Executor + Drop, W: Sink>(
    alloc: Global,
    bytes: &[u8],
    writer: &mut W,
    limits: Limits,
    style: Style,
) -> Result<Summary, RunFault>
    requires { length bytes.now ≤ LONGEST }
    ensures transcript { IfOk result (λ s.
        RanScript S.sure_store bytes.now limits style s (W.state writer.old) (W.state writer.new)) }
    ensures with_memory { IfOk result (λ s. s.memory_refused ≡ 0 → s.untold ≡ 0
        → RanWithMemory bytes.now limits style (fault_place s) (W.state writer.old) (W.state writer.new)) }
    ensures told { IfOk result (λ s. style.explain ≡ false → s.untold ≡ 0) }
    ensures utf8 { OnOk result (IsUtf8 bytes.now) }
    ensures write_utf8 { IsErrOf result RunFault.Write → IsUtf8 bytes.now }
    ensures not_utf8 { IsErrOf result RunFault.NotUtf8 → ¬ (IsUtf8 bytes.now) }
    ensures kinds { IfErr result (λ e. (e ≢ RunFault.Read) × (e ≢ RunFault.TooLong)) }
    ensures write { IsErrOf result RunFault.Write
        → FailsOnce (W.state writer.old) (W.state writer.new) }
    ensures silent { IfErr result (λ e. e ≢ RunFault.Write → writer.new ≡ writer.old) }
    ensures works { OnOk result (FailsNever (W.state writer.old) (W.state writer.new)) }
{
    match from_utf8(bytes) {
        Ok(text) => run_text::<S, W>(alloc, text, writer, limits, style),
        Err(_) => Err(RunFault::NotUtf8),
    }
}

/// Reads a whole script, runs it in a new database and writes its transcript. Until the script is
/// read and parsed and the database is made nothing is run or written. Beside what each statement
/// takes it takes time in proportion to the script and its transcript. Where the style asks for accounts, each statement's
/// account follows its lines, a line tells the name that an Unknown or a Duplicate is about, and another the place of the
/// script's fault. In JSON each statement is one line with all of this.
///
/// The lines go through a buffer: where each write takes all that it is given, there is one for
/// every 8,192 bytes of the transcript, and one at the end for the rest.
///
/// A statement that is refused memory has an outcome of its own, with cause 22; the
/// summary's `memory_refused` counts these, and `refused` counts them too. A COMMIT is never refused memory: where memory is
/// refused for its account, or for that of a ROLLBACK TO, that is empty, and `untold` counts it. Inside a transaction a statement tells which violations
/// of deferred constraints came and went; where memory is refused for that, these lines are left out, the next ones tell the
/// difference from those that were told last, and `untold` counts it. After `RunFault::Write` nothing
/// is said of how much was written.
pub fn run<S: Executor + Drop, R: Source, W: Sink>(
    alloc: Global,
    reader: &mut R,
    writer: &mut W,
    limits: Limits,
    style: Style,
) -> Result<Summary, RunFault>
    // What was written is the transcript, for some choice of the `memory_refused` statements and of the `untold`
    // accounts and lines of what is pending.
    ensures transcript { IfOk result (λ s. IfSome (R.remaining reader.old) (λ bytes.
        RanScript S.sure_store bytes limits style s (W.state writer.old) (W.state writer.new))) }
    // Where both of these are 0, it is the transcript of the machine.
    ensures with_memory { IfOk result (λ s. s.memory_refused ≡ 0 → s.untold ≡ 0 → IfSome (R.remaining reader.old) (λ bytes.
        RanWithMemory bytes limits style (fault_place s) (W.state writer.old) (W.state writer.new))) }
    // Where no account is asked for, none is untold.
    ensures told { IfOk result (λ s. style.explain ≡ false → s.untold ≡ 0) }
    // A script that ran is short enough and UTF-8, and so is one whose transcript couldn't be
    // written.
    ensures fits { OnOk result (IfSome (R.remaining reader.old) (λ bytes. Fits LONGEST bytes)) }
    ensures write_fits { IsErrOf result RunFault.Write
        → IfSome (R.remaining reader.old) (λ bytes. Fits LONGEST bytes) }
    ensures too_long { IsErrOf result RunFault.TooLong
        → IfSome (R.remaining reader.old) (λ bytes. LONGEST < length bytes) }
    ensures not_utf8 { IsErrOf result RunFault.NotUtf8
        → IfSome (R.remaining reader.old) (λ bytes. (length bytes ≤ LONGEST) × ¬ (IsUtf8 bytes)) }
    // Where no read failed and no memory was refused, a script that is too long is `TooLong`, and
    // one that isn't, and isn't UTF-8, is `NotUtf8`.
    ensures exact { ¬ (IsErrOf result RunFault.Read) → ¬ (IsErrOf result RunFault.NoMemory)
        → IfSome (R.remaining reader.old) (λ bytes. IsExact LONGEST bytes result) }
    ensures read { IsErrOf result RunFault.Read
        → R.failed reader.new ≡ counted (R.failed reader.old) 1 }
    ensures write { IsErrOf result RunFault.Write
        → FailsOnce (W.state writer.old) (W.state writer.new) }
    ensures silent { IfErr result (λ e. e ≢ RunFault.Write → writer.new ≡ writer.old) }
    // With any other answer no call of that device has failed: after a failed call none is made
    // again.
    ensures no_read_failed { ¬ (IsErrOf result RunFault.Read)
        → R.failed reader.new ≡ R.failed reader.old }
    ensures no_write_failed { ¬ (IsErrOf result RunFault.Write)
        → FailsNever (W.state writer.old) (W.state writer.new) }
    // No byte is asked for beyond one more than a script may have.
    ensures asked { R.asked reader.new
        ≤ max (R.asked reader.old) (R.given reader.old + (LONGEST + 1)) }
    // The end of a script that ran was reported once, and none is reported twice: after it no read
    // is made.
    ensures ended { OnOk result (R.ends reader.new ≡ counted (R.ends reader.old) 1) }
    ensures ended_once { R.ends reader.new ≤ R.ends reader.old + 1 }
{
    let bytes = read_script(alloc, reader)?;
    run_bytes::<S, W>(alloc, bytes.as_slice(), writer, limits, style)
}
