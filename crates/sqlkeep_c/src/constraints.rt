//! The catalogue's constraints, by their places.
ghost use Rattle.std.specs.Prelude.{◌≡◌, ◌≢◌, slice_get, IfSome};
ghost use Rattle.iv_shown.specs.Catalogue.{constraint_column, constraint_name, constraint_shown, mode_at, referenced_column};
ghost use Rattle.iv_connection.specs.Conditions.{ReadsRule, constraint_condition};
ghost use Rattle.iv_shown.specs.Copying.{Copies};
ghost use Rattle.iv_shown.specs.Statuses.{found};
ghost use Rattle.sqlkeep_c.specs.Statuses.{IsStatusOfReadingAgain, status_by};

use crate::handle::{Handle, put, take};
use iv_connection::constraint_condition;
use iv_restore::DumpRefusal;
use iv_shown::{
    CLOSED, NO_MEMORY, NOT_RESTORED, NOTHING, OK, ShownConstraint, constraint_at,
    constraint_column, constraint_name, constraint_shown, copied, copied_if_there, mode_at,
    referenced_column, write_place,
};
use std::alloc::Global;

/// The constraint at this place.
#[unsafe(no_mangle)]
pub extern "C" fn sqlkeep_constraint_at(
    alloc: Global,
    handle: &mut Handle,
    at: usize,
    constraint: &mut ShownConstraint,
) -> u32
    ensures constraint { IfSome handle.old.kept.behind (λ old. IfSome (slice_get old.session.state.schema.constraints at) (λ it.
        constraint.new ≡ constraint_shown it)) }
    ensures kept { handle.new.kept.behind ≡ handle.old.kept.behind }
    ensures others { result ≢ OK → constraint.new ≡ constraint.old }
    ensures status { result
        ≡ status_by (λ old. found (slice_get old.session.state.schema.constraints at)) handle.old.kept.behind }
{
    let Some(connection) = take(handle, alloc) else {
        return CLOSED;
    };
    let status = match constraint_at(&connection, at) {
        Some(it) => {
            *constraint = constraint_shown(it);
            OK
        }
        None => NOTHING,
    };
    put(handle, connection);
    status
}

/// Copies the name of the constraint at this place.
#[unsafe(no_mangle)]
pub extern "C" fn sqlkeep_constraint_name(
    alloc: Global,
    handle: &mut Handle,
    at: usize,
    from: usize,
    buffer: &mut [u8],
    count: &mut usize,
) -> u32
    ensures bytes { IfSome handle.old.kept.behind (λ old. IfSome (constraint_name old.session.state.schema at) (λ name.
        Copies from name buffer.old buffer.new count.new)) }
    ensures kept { handle.new.kept.behind ≡ handle.old.kept.behind }
    ensures others { result ≢ OK → (buffer.new ≡ buffer.old) × (count.new ≡ count.old) }
    ensures status { result
        ≡ status_by (λ old. found (constraint_name old.session.state.schema at)) handle.old.kept.behind }
{
    let Some(connection) = take(handle, alloc) else {
        return CLOSED;
    };
    let status = copied_if_there(constraint_name(&connection, at), from, buffer, count);
    put(handle, connection);
    status
}

/// Copies bytes of the condition of the CHECK at this place, as SQL text.
#[unsafe(no_mangle)]
pub extern "C" fn sqlkeep_constraint_condition(
    alloc: Global,
    handle: &mut Handle,
    at: usize,
    from: usize,
    buffer: &mut [u8],
    count: &mut usize,
) -> u32
    ensures bytes { IfSome handle.old.kept.behind (λ old. result ≡ OK
        → IfSome (constraint_condition old.session.state.schema at) (λ text.
        Copies from text buffer.old buffer.new count.new)) }
    ensures kept { handle.new.kept.behind ≡ handle.old.kept.behind }
    ensures others { result ≢ OK → (buffer.new ≡ buffer.old) × (count.new ≡ count.old) }
    // Read again, it means just that condition.
    ensures reads { IfSome handle.old.kept.behind (λ old. result ≡ OK
        → IfSome (constraint_condition old.session.state.schema at) (λ text.
        IfSome (slice_get old.session.state.schema.constraints at) (λ k.
        ReadsRule old.session.state.schema k.table k.rule text))) }
    ensures status { IsStatusOfReadingAgain (λ old. found (constraint_condition old.session.state.schema at))
        handle.old.kept.behind result }
{
    let Some(connection) = take(handle, alloc) else {
        return CLOSED;
    };
    let written = constraint_condition(alloc, &connection, at);
    put(handle, connection);
    match written {
        Ok(Some(text)) => {
            *count = copied(text.as_str().as_bytes(), from, buffer);
            OK
        }
        Ok(None) => NOTHING,
        Err(DumpRefusal::Differs) => NOT_RESTORED,
        Err(_) => NO_MEMORY,
    }
}

/// A column of the constraint at this place, as its place in the constraint's table.
#[unsafe(no_mangle)]
pub extern "C" fn sqlkeep_constraint_column(
    alloc: Global,
    handle: &mut Handle,
    at: usize,
    place: usize,
    column: &mut u32,
) -> u32
    ensures column { IfSome handle.old.kept.behind (λ old. IfSome (constraint_column old.session.state.schema at place) (λ it.
        column.new ≡ it)) }
    ensures kept { handle.new.kept.behind ≡ handle.old.kept.behind }
    ensures others { result ≢ OK → column.new ≡ column.old }
    ensures status { result
        ≡ status_by (λ old. found (constraint_column old.session.state.schema at place)) handle.old.kept.behind }
{
    let Some(connection) = take(handle, alloc) else {
        return CLOSED;
    };
    let status = write_place(constraint_column(&connection, at, place), column);
    put(handle, connection);
    status
}

/// A column that the foreign key at this place refers to, as its place in the referenced table.
#[unsafe(no_mangle)]
pub extern "C" fn sqlkeep_referenced_column(
    alloc: Global,
    handle: &mut Handle,
    at: usize,
    place: usize,
    column: &mut u32,
) -> u32
    ensures column { IfSome handle.old.kept.behind (λ old. IfSome (referenced_column old.session.state.schema at place) (λ it.
        column.new ≡ it)) }
    ensures kept { handle.new.kept.behind ≡ handle.old.kept.behind }
    ensures others { result ≢ OK → column.new ≡ column.old }
    ensures status { result
        ≡ status_by (λ old. found (referenced_column old.session.state.schema at place)) handle.old.kept.behind }
{
    let Some(connection) = take(handle, alloc) else {
        return CLOSED;
    };
    let status = write_place(referenced_column(&connection, at, place), column);
    put(handle, connection);
    status
}

/// The mode of the constraint at this place now: 0 is IMMEDIATE, 1 DEFERRED.
#[unsafe(no_mangle)]
pub extern "C" fn sqlkeep_constraint_mode(
    alloc: Global,
    handle: &mut Handle,
    at: usize,
    mode: &mut u32,
) -> u32
    ensures mode { IfSome handle.old.kept.behind (λ old. IfSome (mode_at old.session.state.modes at) (λ it.
        mode.new ≡ it)) }
    ensures kept { handle.new.kept.behind ≡ handle.old.kept.behind }
    ensures others { result ≢ OK → mode.new ≡ mode.old }
    ensures status { result
        ≡ status_by (λ old. found (mode_at old.session.state.modes at)) handle.old.kept.behind }
{
    let Some(connection) = take(handle, alloc) else {
        return CLOSED;
    };
    let status = write_place(mode_at(&connection, at), mode);
    put(handle, connection);
    status
}
