//! Statements, one after the other in the session.
ghost use Rattle.std.specs.Prelude.{◌≡◌, ◌≢◌, None, Some, true, IfSome, slice_get};
ghost use Rattle.iv_text.specs.declared.format.Format.TheVariants.{Json, Words};
ghost use Rattle.sqlkeep_c.specs.Calls.{Called};
ghost use Rattle.iv_connection.specs.Kinds.{kind_of};
ghost use Rattle.iv_connection.specs.OutcomeLines.{executed, lines_of};
ghost use Rattle.iv_session.specs.Executed.{Executed};
ghost use Rattle.iv_shown.specs.Places.{place_at};
ghost use Rattle.iv_connection.specs.Statements.{IsRead, fault_shown, outcome_shown};
ghost use Rattle.iv_shown.specs.Statuses.{found};
ghost use Rattle.sqlkeep_c.specs.Statuses.{IsStatus, IsStatusOfFinding, IsStatusOfText, status_by};

use crate::handle::{Handle, put, take};
use iv_connection::{
    ReadScript, ShownFault, ShownOutcome, execute_kept, fault_shown, keep_lines, keep_parsed,
    kind_of, outcome_shown, parse_text, read_shown,
};
use iv_shown::{CLOSED, NO_MEMORY, NOTHING, OK, StatementPlace, statement_place};
use iv_text::Format;
use std::alloc::Global;

/// Reads the statements of a text, and keeps them.
#[unsafe(no_mangle)]
pub extern "C" fn sqlkeep_read(
    alloc: Global,
    handle: &mut Handle,
    text: &[u8],
    script: &mut ReadScript,
) -> u32
    ensures script { Called handle.old.kept.behind handle.new.kept.behind (λ old new.
        result ≡ OK → IsRead text.now new.statements new.fault script.new) }
    ensures text { Called handle.old.kept.behind handle.new.kept.behind (λ old new.
        result ≡ OK → new.text ≡ record { text = text.now; holes = 0 }) }
    ensures rest { Called handle.old.kept.behind handle.new.kept.behind (λ old new. result ≡ OK
        → new ≡ record old { statements = new.statements; fault = new.fault; text = new.text; executed = None }) }
    ensures others { result ≢ OK → (handle.new.kept.behind ≡ handle.old.kept.behind)
        × (script.new ≡ script.old) }
    ensures status { IsStatusOfText handle.old.kept.behind text.now result }
{
    let Some(mut connection) = take(handle, alloc) else {
        return CLOSED;
    };
    match parse_text(alloc, text) {
        Ok(parsed) => {
            *script = read_shown(parsed.statements.len(), parsed.fault);
            keep_parsed(&mut connection, parsed);
            put(handle, connection);
            OK
        }
        Err(status) => {
            put(handle, connection);
            status
        }
    }
}

/// Tells where the fault is of the text that was read last: where its statement begins, the first word of it that can't stand where it
/// does, and whether the text ends there.
#[unsafe(no_mangle)]
pub extern "C" fn sqlkeep_fault(alloc: Global, handle: &mut Handle, fault: &mut ShownFault) -> u32
    ensures fault { IfSome handle.old.kept.behind (λ old. IfSome old.fault (λ f.
        fault.new ≡ fault_shown f)) }
    ensures kept { handle.new.kept.behind ≡ handle.old.kept.behind }
    ensures others { result ≢ OK → fault.new ≡ fault.old }
    ensures status { result ≡ status_by (λ old. found old.fault) handle.old.kept.behind }
{
    let Some(connection) = take(handle, alloc) else {
        return CLOSED;
    };
    let status = match &connection.fault {
        Some(found) => {
            *fault = fault_shown(found);
            OK
        }
        None => NOTHING,
    };
    put(handle, connection);
    status
}

/// Executes a statement of those that were read, and keeps its outcome and, where one is asked for, its account.
#[unsafe(no_mangle)]
pub extern "C" fn sqlkeep_execute(
    alloc: Global,
    handle: &mut Handle,
    at: usize,
    outcome: &mut ShownOutcome,
) -> u32
    ensures executed { Called handle.old.kept.behind handle.new.kept.behind (λ old new.
        result ≡ OK → IfSome (slice_get old.statements at) (λ st.
        Executed true old.session st new.outcome new.session)) }
    ensures shown { Called handle.old.kept.behind handle.new.kept.behind (λ old new.
        result ≡ OK → outcome.new ≡ outcome_shown new.outcome) }
    ensures rest { Called handle.old.kept.behind handle.new.kept.behind (λ old new. result ≡ OK
        → new ≡ record old {
          session = new.session;
          outcome = new.outcome;
          executed = Some at;
          is_told = old.session.account.asked;
        }) }
    ensures others { result ≢ OK → (handle.new.kept.behind ≡ handle.old.kept.behind)
        × (outcome.new ≡ outcome.old) }
    ensures status { result
        ≡ status_by (λ old. found (slice_get old.statements at)) handle.old.kept.behind }
{
    let Some(mut connection) = take(handle, alloc) else {
        return CLOSED;
    };
    if !execute_kept(&mut connection, at) {
        put(handle, connection);
        return NOTHING;
    }
    *outcome = outcome_shown(&connection.outcome);
    put(handle, connection);
    OK
}

/// The kind of a statement of those that were read: 0 is about the schema, 1 changes rows, 2 is a query, 3 is about
/// transactions.
#[unsafe(no_mangle)]
pub extern "C" fn sqlkeep_statement_kind(
    alloc: Global,
    handle: &mut Handle,
    at: usize,
    kind: &mut u32,
) -> u32
    ensures kind { IfSome handle.old.kept.behind (λ old. IfSome (slice_get old.statements at) (λ st.
        kind.new ≡ kind_of st)) }
    ensures kept { handle.new.kept.behind ≡ handle.old.kept.behind }
    ensures others { result ≢ OK → kind.new ≡ kind.old }
    ensures status { result
        ≡ status_by (λ old. found (slice_get old.statements at)) handle.old.kept.behind }
{
    let Some(connection) = take(handle, alloc) else {
        return CLOSED;
    };
    let status = match connection.statements.as_slice().get(at) {
        Some(statement) => {
            *kind = kind_of(statement);
            OK
        }
        None => NOTHING,
    };
    put(handle, connection);
    status
}

/// Where a statement of those that were read begins and ends: bytes of the text or the template that they were read from.
#[unsafe(no_mangle)]
pub extern "C" fn sqlkeep_statement_place(
    alloc: Global,
    handle: &mut Handle,
    at: usize,
    place: &mut StatementPlace,
) -> u32
    ensures place { IfSome handle.old.kept.behind (λ old. result ≡ OK
        → Some place.new ≡ place_at old.statements old.text at) }
    ensures kept { handle.new.kept.behind ≡ handle.old.kept.behind }
    ensures others { result ≢ OK → place.new ≡ place.old }
    ensures status { IsStatusOfFinding (λ old. found (place_at old.statements old.text at)) handle.old.kept.behind result }
{
    let Some(mut connection) = take(handle, alloc) else {
        return CLOSED;
    };
    let there = statement_place(alloc, &mut connection, at);
    put(handle, connection);
    match there {
        Ok(Some(it)) => {
            *place = it;
            OK
        }
        Ok(None) => NOTHING,
        Err(_) => NO_MEMORY,
    }
}

/// Writes the lines of the last outcome, and those of its account and the name that a refusal is about where accounts are asked
/// for, and keeps them as a transcript.
#[unsafe(no_mangle)]
pub extern "C" fn sqlkeep_lines(alloc: Global, handle: &mut Handle, number: u64) -> u32
    ensures lines { Called handle.old.kept.behind handle.new.kept.behind (λ old new.
        result ≡ OK → new.transcript.items ≡ lines_of Words number old) }
    ensures rest { Called handle.old.kept.behind handle.new.kept.behind (λ old new.
        new ≡ record old { transcript = new.transcript }) }
    ensures others { result ≢ OK → handle.new.kept.behind ≡ handle.old.kept.behind }
    ensures status { IsStatus handle.old.kept.behind result }
{
    let Some(mut connection) = take(handle, alloc) else {
        return CLOSED;
    };
    let status = keep_lines(alloc, Format::Words, number, &mut connection);
    put(handle, connection);
    status
}

/// Writes the last outcome as a JSON object on one line, with its account and the name that a refusal is about where accounts are
/// asked for, and keeps it as a transcript.
#[unsafe(no_mangle)]
pub extern "C" fn sqlkeep_lines_json(alloc: Global, handle: &mut Handle, number: u64) -> u32
    ensures lines { Called handle.old.kept.behind handle.new.kept.behind (λ old new.
        result ≡ OK → new.transcript.items ≡ lines_of Json number old) }
    ensures rest { Called handle.old.kept.behind handle.new.kept.behind (λ old new.
        new ≡ record old { transcript = new.transcript }) }
    ensures others { result ≢ OK → handle.new.kept.behind ≡ handle.old.kept.behind }
    ensures status { IsStatus handle.old.kept.behind result }
{
    let Some(mut connection) = take(handle, alloc) else {
        return CLOSED;
    };
    let status = keep_lines(alloc, Format::Json, number, &mut connection);
    put(handle, connection);
    status
}
