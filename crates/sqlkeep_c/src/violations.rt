//! The violations of deferred constraints: what COMMIT would find.
ghost use Rattle.std.specs.Prelude.{◌≡◌, ◌≢◌, length, slice_get, None, Some, IfSome};
ghost use Rattle.iv_machine.specs.declared.database.Which.TheVariants.{Deferred};
ghost use Rattle.iv_machine.specs.Databases.{is_chosen, scan};
ghost use Rattle.sqlkeep_c.specs.Calls.{Called};
ghost use Rattle.iv_shown.specs.Copying.{Copies};
ghost use Rattle.iv_shown.specs.Cells.{cell_of, text_of};
ghost use Rattle.iv_shown.specs.Pending.{violation_shown, violation_value};
ghost use Rattle.iv_shown.specs.Statuses.{found};
ghost use Rattle.sqlkeep_c.specs.Statuses.{IsStatus, status_by};
ghost use Rattle.iv_shown.specs.Texts.{constraint_named};

use crate::handle::{Handle, put, take};
use iv_shown::{
    CLOSED, Cell, NO_MEMORY, NOTHING, OK, ShownViolation, constraint_named, copied, copy_text,
    keep_pending, violation_shown, violation_value, write_value,
};
use std::alloc::Global;

/// Looks for the violations of deferred constraints, and keeps them, by the constraint's creation, then by row.
#[unsafe(no_mangle)]
pub extern "C" fn sqlkeep_pending(alloc: Global, handle: &mut Handle, count: &mut usize) -> u32
    ensures faults { Called handle.old.kept.behind handle.new.kept.behind (λ old new. result ≡ OK
        → new.pending.items ≡ scan old.session.state.database.rows old.session.state.schema.constraints
        (is_chosen old.session.state.modes Deferred)) }
    ensures count { Called handle.old.kept.behind handle.new.kept.behind (λ old new. result ≡ OK
        → count.new ≡ length new.pending.items) }
    ensures rest { Called handle.old.kept.behind handle.new.kept.behind (λ old new.
        new ≡ record old { pending = new.pending }) }
    ensures others { result ≢ OK → (handle.new.kept.behind ≡ handle.old.kept.behind)
        × (count.new ≡ count.old) }
    ensures status { IsStatus handle.old.kept.behind result }
{
    let Some(mut connection) = take(handle, alloc) else {
        return CLOSED;
    };
    let done = keep_pending(&mut connection);
    put(handle, connection);
    match done {
        Ok(found) => {
            *count = found;
            OK
        }
        Err(_) => NO_MEMORY,
    }
}

/// The row of a violation of those that were found, and the name of its constraint.
#[unsafe(no_mangle)]
pub extern "C" fn sqlkeep_violation(
    alloc: Global,
    handle: &mut Handle,
    at: usize,
    row: &mut u64,
    buffer: &mut [u8],
    count: &mut usize,
) -> u32
    ensures row { IfSome handle.old.kept.behind (λ old. IfSome (slice_get old.pending.items at) (λ fault.
        row.new ≡ fault.row)) }
    ensures constraint { IfSome handle.old.kept.behind (λ old. IfSome (slice_get old.pending.items at) (λ fault.
        Copies 0 (constraint_named old.session.state.schema (Some fault.constraint)) buffer.old buffer.new count.new)) }
    ensures kept { handle.new.kept.behind ≡ handle.old.kept.behind }
    ensures others { result ≢ OK → (row.new ≡ row.old) × (buffer.new ≡ buffer.old)
        × (count.new ≡ count.old) }
    ensures status { result
        ≡ status_by (λ old. found (slice_get old.pending.items at)) handle.old.kept.behind }
{
    let Some(connection) = take(handle, alloc) else {
        return CLOSED;
    };
    let status = match connection.pending.get(at) {
        Some(fault) => {
            *row = fault.row;
            let name = constraint_named(connection.session.catalogue(), Some(fault.constraint));
            *count = copied(name, 0, buffer);
            OK
        }
        None => NOTHING,
    };
    put(handle, connection);
    status
}

/// What a violation of those that were found is about.
#[unsafe(no_mangle)]
pub extern "C" fn sqlkeep_violation_about(
    alloc: Global,
    handle: &mut Handle,
    at: usize,
    violation: &mut ShownViolation,
) -> u32
    ensures violation { IfSome handle.old.kept.behind (λ old. IfSome (slice_get old.pending.items at) (λ fault.
        violation.new ≡ violation_shown old.session.state.schema old.session.state.database.rows old.pending.items fault)) }
    ensures kept { handle.new.kept.behind ≡ handle.old.kept.behind }
    ensures others { result ≢ OK → violation.new ≡ violation.old }
    ensures status { result
        ≡ status_by (λ old. found (slice_get old.pending.items at)) handle.old.kept.behind }
{
    let Some(connection) = take(handle, alloc) else {
        return CLOSED;
    };
    let status = match connection.pending.as_slice().get(at) {
        Some(fault) => {
            *violation = violation_shown(&connection, fault);
            OK
        }
        None => NOTHING,
    };
    put(handle, connection);
    status
}

/// The value that the row of a violation has in a column of its constraint.
#[unsafe(no_mangle)]
pub extern "C" fn sqlkeep_violation_value(
    alloc: Global,
    handle: &mut Handle,
    at: usize,
    place: usize,
    value: &mut Cell,
) -> u32
    ensures value { IfSome handle.old.kept.behind (λ old.
        IfSome (violation_value old.session.state.schema old.session.state.database.rows old.pending.items at place) (λ it.
        value.new ≡ cell_of it)) }
    ensures kept { handle.new.kept.behind ≡ handle.old.kept.behind }
    ensures others { result ≢ OK → value.new ≡ value.old }
    ensures status { result ≡ status_by (λ old. found
        (violation_value old.session.state.schema old.session.state.database.rows old.pending.items at place)) handle.old.kept.behind }
{
    let Some(connection) = take(handle, alloc) else {
        return CLOSED;
    };
    let status = write_value(violation_value(&connection, at, place), value);
    put(handle, connection);
    status
}

/// Copies bytes of a text that the row of a violation has in a column of its constraint, from this byte on.
#[unsafe(no_mangle)]
pub extern "C" fn sqlkeep_violation_text(
    alloc: Global,
    handle: &mut Handle,
    at: usize,
    place: usize,
    from: usize,
    buffer: &mut [u8],
    count: &mut usize,
) -> u32
    ensures bytes { IfSome handle.old.kept.behind (λ old.
        IfSome (violation_value old.session.state.schema old.session.state.database.rows old.pending.items at place) (λ it.
        Copies from (text_of it) buffer.old buffer.new count.new)) }
    ensures kept { handle.new.kept.behind ≡ handle.old.kept.behind }
    ensures others { result ≢ OK → (buffer.new ≡ buffer.old) × (count.new ≡ count.old) }
    ensures status { result ≡ status_by (λ old. found
        (violation_value old.session.state.schema old.session.state.database.rows old.pending.items at place)) handle.old.kept.behind }
{
    let Some(connection) = take(handle, alloc) else {
        return CLOSED;
    };
    let status = copy_text(violation_value(&connection, at, place), from, buffer, count);
    put(handle, connection);
    status
}
