//! Whole scripts, and their transcripts.
ghost use Rattle.std.specs.Prelude.{◌≡◌, ◌≢◌, ◌<◌, ◌≤◌, false, length, IfOk, IsErrOf, OnErr, OnOk};
ghost use Rattle.std.specs.Str.{IsUtf8};
ghost use Rattle.iv_script.specs.Lengths.{Fits};
ghost use Rattle.iv_connection.specs.Scripts.{IsTranscript, IsWithMemory};

use iv_machine::Limits;
use iv_script::{LONGEST, RunFault, Summary, run};
use iv_shown::{Connection, Database, NO_MEMORY, NOT_UTF8, OK, TOO_LONG};
use iv_text::{Format, Std, Style};
use std::alloc::Global;

// Runs a script in a new database, and gives its transcript.
fn transcript(
    alloc: Global,
    text: &[u8],
    limits: Limits,
    explain: bool,
) -> Result<(Summary, Vec<u8>), RunFault>
    ensures transcript { IfOk result (λ r. IsTranscript text.now limits explain r.0 r.1.items) }
    ensures with_memory { IfOk result (λ r. r.0.memory_refused ≡ 0 → r.0.untold ≡ 0
        → IsWithMemory text.now limits explain r.0 r.1.items) }
    ensures told { IfOk result (λ r. explain ≡ false → r.0.untold ≡ 0) }
    ensures fits { OnOk result (Fits LONGEST text.now) }
    ensures too_long { IsErrOf result RunFault.TooLong → LONGEST < length text.now }
    ensures not_utf8 { IsErrOf result RunFault.NotUtf8
        → (length text.now ≤ LONGEST) × ¬ (IsUtf8 text.now) }
{
    let mut reader = Std::new(text);
    let mut writer = Std::new(Vec::new(alloc));
    let style = Style {
        format: Format::Words,
        explain,
    };
    let summary = run::<Database, _, _>(alloc, &mut reader, &mut writer, limits, style)?;
    Ok((summary, writer.into_inner()))
}

/// The status for a script that did not run.
pub fn run_status(fault: &RunFault) -> u32
    ensures too_long { result ≡ TOO_LONG → fault.now ≡ RunFault.TooLong }
    ensures not_utf8 { result ≡ NOT_UTF8 → fault.now ≡ RunFault.NotUtf8 }
    ensures others { result ≢ TOO_LONG → result ≢ NOT_UTF8 → result ≡ NO_MEMORY }
    ensures not_ok { result ≢ OK }
{
    match fault {
        RunFault::TooLong => TOO_LONG,
        RunFault::NotUtf8 => NOT_UTF8,
        _ => NO_MEMORY,
    }
}

/// Runs a script, and keeps its transcript.
pub fn run_kept(
    alloc: Global,
    connection: &mut Connection,
    text: &[u8],
) -> Result<Summary, RunFault>
    ensures transcript { IfOk result (λ s. IsTranscript text.now connection.old.limits
        connection.old.session.account.asked s connection.new.transcript.items) }
    ensures with_memory { IfOk result (λ s. s.memory_refused ≡ 0 → s.untold ≡ 0
        → IsWithMemory text.now connection.old.limits connection.old.session.account.asked s connection.new.transcript.items) }
    ensures told { IfOk result (λ s. connection.old.session.account.asked ≡ false → s.untold ≡ 0) }
    ensures rest { connection.new ≡ record connection.old { transcript = connection.new.transcript } }
    ensures others { OnErr result (connection.new ≡ connection.old) }
    ensures fits { OnOk result (Fits LONGEST text.now) }
    ensures too_long { IsErrOf result RunFault.TooLong → LONGEST < length text.now }
    ensures not_utf8 { IsErrOf result RunFault.NotUtf8
        → (length text.now ≤ LONGEST) × ¬ (IsUtf8 text.now) }
{
    let (summary, bytes) = transcript(
        alloc,
        text,
        connection.limits,
        connection.session.explains(),
    )?;
    connection.transcript = bytes;
    Ok(summary)
}
