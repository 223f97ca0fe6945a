//! The texts of the last refusal: its cause, and the names that it speaks of.
ghost use Rattle.std.specs.Prelude.{◌≡◌, ◌≢◌, IfErr, IfSome};
ghost use Rattle.iv_text.specs.Lines.{cause_words};
ghost use Rattle.iv_shown.specs.Copying.{Copies};
ghost use Rattle.iv_shown.specs.Statuses.{found_refusal};
ghost use Rattle.sqlkeep_c.specs.Statuses.{status_by};
ghost use Rattle.iv_shown.specs.Texts.{refusal_constraint, refusal_signal, refusal_trigger};

use crate::handle::{Handle, put, take};
use iv_shown::{
    CLOSED, NOTHING, OK, copied, copied_if_there, last_constraint, last_signal, last_trigger,
};
use iv_text::cause_words;
use std::alloc::Global;

/// Copies the number and the name of the cause of the last refusal, as a transcript has them.
#[unsafe(no_mangle)]
pub extern "C" fn sqlkeep_cause(
    alloc: Global,
    handle: &mut Handle,
    from: usize,
    buffer: &mut [u8],
    count: &mut usize,
) -> u32
    ensures bytes { IfSome handle.old.kept.behind (λ old. IfErr old.outcome (λ r.
        Copies from (cause_words r.cause) buffer.old buffer.new count.new)) }
    ensures kept { handle.new.kept.behind ≡ handle.old.kept.behind }
    ensures others { result ≢ OK → (buffer.new ≡ buffer.old) × (count.new ≡ count.old) }
    ensures status { result
        ≡ status_by (λ old. found_refusal old.outcome) handle.old.kept.behind }
{
    let Some(connection) = take(handle, alloc) else {
        return CLOSED;
    };
    let status = match &connection.outcome {
        Ok(_) => NOTHING,
        Err(refusal) => {
            *count = copied(cause_words(&refusal.cause).as_bytes(), from, buffer);
            OK
        }
    };
    put(handle, connection);
    status
}

/// Copies the name of the constraint that the last refusal speaks of.
#[unsafe(no_mangle)]
pub extern "C" fn sqlkeep_constraint(
    alloc: Global,
    handle: &mut Handle,
    from: usize,
    buffer: &mut [u8],
    count: &mut usize,
) -> u32
    ensures bytes { IfSome handle.old.kept.behind (λ old. IfErr old.outcome (λ r. Copies from
        (refusal_constraint old.session.state.schema r) buffer.old buffer.new count.new)) }
    ensures kept { handle.new.kept.behind ≡ handle.old.kept.behind }
    ensures others { result ≢ OK → (buffer.new ≡ buffer.old) × (count.new ≡ count.old) }
    ensures status { result
        ≡ status_by (λ old. found_refusal old.outcome) handle.old.kept.behind }
{
    let Some(connection) = take(handle, alloc) else {
        return CLOSED;
    };
    let status = copied_if_there(last_constraint(&connection), from, buffer, count);
    put(handle, connection);
    status
}

/// Copies the name of the trigger that the last refusal speaks of, or else of the innermost that was running.
#[unsafe(no_mangle)]
pub extern "C" fn sqlkeep_trigger(
    alloc: Global,
    handle: &mut Handle,
    from: usize,
    buffer: &mut [u8],
    count: &mut usize,
) -> u32
    ensures bytes { IfSome handle.old.kept.behind (λ old. IfErr old.outcome (λ r. Copies from
        (refusal_trigger old.session.state.schema r) buffer.old buffer.new count.new)) }
    ensures kept { handle.new.kept.behind ≡ handle.old.kept.behind }
    ensures others { result ≢ OK → (buffer.new ≡ buffer.old) × (count.new ≡ count.old) }
    ensures status { result
        ≡ status_by (λ old. found_refusal old.outcome) handle.old.kept.behind }
{
    let Some(connection) = take(handle, alloc) else {
        return CLOSED;
    };
    let status = copied_if_there(last_trigger(&connection), from, buffer, count);
    put(handle, connection);
    status
}

/// Copies the text of the SIGNAL that refused the last statement.
#[unsafe(no_mangle)]
pub extern "C" fn sqlkeep_signal(
    alloc: Global,
    handle: &mut Handle,
    from: usize,
    buffer: &mut [u8],
    count: &mut usize,
) -> u32
    ensures bytes { IfSome handle.old.kept.behind (λ old. IfErr old.outcome (λ r. Copies from
        (refusal_signal old.session.state.schema r) buffer.old buffer.new count.new)) }
    ensures kept { handle.new.kept.behind ≡ handle.old.kept.behind }
    ensures others { result ≢ OK → (buffer.new ≡ buffer.old) × (count.new ≡ count.old) }
    ensures status { result
        ≡ status_by (λ old. found_refusal old.outcome) handle.old.kept.behind }
{
    let Some(connection) = take(handle, alloc) else {
        return CLOSED;
    };
    let status = copied_if_there(last_signal(&connection), from, buffer, count);
    put(handle, connection);
    status
}
