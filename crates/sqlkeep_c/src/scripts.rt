//! Whole scripts, and their transcripts.
ghost use Rattle.std.specs.Prelude.{◌≡◌, ◌≢◌, false, IfSome};
ghost use Rattle.iv_script.specs.declared.summary.Summary.{Summary as Counts};
ghost use Rattle.sqlkeep_c.specs.Calls.{Called};
ghost use Rattle.iv_shown.specs.Copying.{Copies};
ghost use Rattle.iv_connection.specs.Scripts.{IsTranscript, IsWithMemory, Shows};
ghost use Rattle.sqlkeep_c.specs.Statuses.{IsStatusOfScript, status_if_open};

use crate::handle::{Handle, put, take};
use iv_connection::{RunSummary, run_kept, run_status, summary_shown};
use iv_script::LONGEST;
use iv_shown::{CLOSED, OK, copied};
use std::alloc::Global;

/// Runs a whole script in a new database with the limits of the session, and keeps its transcript, with accounts where
/// the session is asked for them.
#[unsafe(no_mangle)]
pub extern "C" fn sqlkeep_run(
    alloc: Global,
    handle: &mut Handle,
    text: &[u8],
    summary: &mut RunSummary,
) -> u32
    // What is kept is the transcript, for some choice of the statements and of the accounts that were refused memory; where
    // there are none it is that of the machine. Where no account is asked for, memory is refused for none.
    ensures transcript { Called handle.old.kept.behind handle.new.kept.behind (λ old new. result ≡ OK
        → (counts : Counts) × Shows counts summary.new
        × IsTranscript text.now old.limits old.session.account.asked counts new.transcript.items
        × (counts.memory_refused ≡ 0 → counts.untold ≡ 0
        → IsWithMemory text.now old.limits old.session.account.asked counts new.transcript.items)
        × (old.session.account.asked ≡ false → counts.untold ≡ 0)) }
    ensures rest { Called handle.old.kept.behind handle.new.kept.behind (λ old new.
        new ≡ record old { transcript = new.transcript }) }
    ensures others { result ≢ OK → (handle.new.kept.behind ≡ handle.old.kept.behind)
        × (summary.new ≡ summary.old) }
    ensures status { IsStatusOfScript LONGEST handle.old.kept.behind text.now result }
{
    let Some(mut connection) = take(handle, alloc) else {
        return CLOSED;
    };
    let done = run_kept(alloc, &mut connection, text);
    put(handle, connection);
    match done {
        Ok(counts) => {
            *summary = summary_shown(&counts);
            OK
        }
        Err(fault) => run_status(&fault),
    }
}

/// Copies bytes of the transcript, from this one on.
#[unsafe(no_mangle)]
pub extern "C" fn sqlkeep_transcript(
    alloc: Global,
    handle: &mut Handle,
    from: usize,
    buffer: &mut [u8],
    count: &mut usize,
) -> u32
    ensures bytes { IfSome handle.old.kept.behind (λ old.
        Copies from old.transcript.items buffer.old buffer.new count.new) }
    ensures kept { handle.new.kept.behind ≡ handle.old.kept.behind }
    ensures others { result ≢ OK → (buffer.new ≡ buffer.old) × (count.new ≡ count.old) }
    ensures status { result ≡ status_if_open handle.old.kept.behind }
{
    let Some(connection) = take(handle, alloc) else {
        return CLOSED;
    };
    *count = copied(connection.transcript.as_slice(), from, buffer);
    put(handle, connection);
    OK
}
