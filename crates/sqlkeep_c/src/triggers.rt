//! The catalogue's triggers, by their places.
ghost use Rattle.std.specs.Prelude.{◌≡◌, ◌≢◌, slice_get, IfSome};
ghost use Rattle.iv_shown.specs.Catalogue.{trigger_column, trigger_name_at, trigger_shown};
ghost use Rattle.iv_shown.specs.Copying.{Copies};
ghost use Rattle.iv_shown.specs.Statuses.{found};
ghost use Rattle.sqlkeep_c.specs.Statuses.{status_by};

use crate::handle::{Handle, put, take};
use iv_shown::{
    CLOSED, NOTHING, OK, ShownTrigger, copied_if_there, trigger_at, trigger_column, trigger_name,
    trigger_shown, write_place,
};
use std::alloc::Global;

/// The trigger at this place.
#[unsafe(no_mangle)]
pub extern "C" fn sqlkeep_trigger_at(
    alloc: Global,
    handle: &mut Handle,
    at: usize,
    trigger: &mut ShownTrigger,
) -> u32
    ensures trigger { IfSome handle.old.kept.behind (λ old. IfSome (slice_get old.session.state.schema.triggers at) (λ it.
        trigger.new ≡ trigger_shown it)) }
    ensures kept { handle.new.kept.behind ≡ handle.old.kept.behind }
    ensures others { result ≢ OK → trigger.new ≡ trigger.old }
    ensures status { result
        ≡ status_by (λ old. found (slice_get old.session.state.schema.triggers at)) handle.old.kept.behind }
{
    let Some(connection) = take(handle, alloc) else {
        return CLOSED;
    };
    let status = match trigger_at(&connection, at) {
        Some(it) => {
            *trigger = trigger_shown(it);
            OK
        }
        None => NOTHING,
    };
    put(handle, connection);
    status
}

/// Copies the name of the trigger at this place.
#[unsafe(no_mangle)]
pub extern "C" fn sqlkeep_trigger_name(
    alloc: Global,
    handle: &mut Handle,
    at: usize,
    from: usize,
    buffer: &mut [u8],
    count: &mut usize,
) -> u32
    ensures bytes { IfSome handle.old.kept.behind (λ old. IfSome (trigger_name_at old.session.state.schema at) (λ name.
        Copies from name buffer.old buffer.new count.new)) }
    ensures kept { handle.new.kept.behind ≡ handle.old.kept.behind }
    ensures others { result ≢ OK → (buffer.new ≡ buffer.old) × (count.new ≡ count.old) }
    ensures status { result
        ≡ status_by (λ old. found (trigger_name_at old.session.state.schema at)) handle.old.kept.behind }
{
    let Some(connection) = take(handle, alloc) else {
        return CLOSED;
    };
    let status = copied_if_there(trigger_name(&connection, at), from, buffer, count);
    put(handle, connection);
    status
}

/// A column of UPDATE OF of the trigger at this place, as its place in the trigger's table.
#[unsafe(no_mangle)]
pub extern "C" fn sqlkeep_trigger_column(
    alloc: Global,
    handle: &mut Handle,
    at: usize,
    place: usize,
    column: &mut u32,
) -> u32
    ensures column { IfSome handle.old.kept.behind (λ old. IfSome (trigger_column old.session.state.schema at place) (λ it.
        column.new ≡ it)) }
    ensures kept { handle.new.kept.behind ≡ handle.old.kept.behind }
    ensures others { result ≢ OK → column.new ≡ column.old }
    ensures status { result
        ≡ status_by (λ old. found (trigger_column old.session.state.schema at place)) handle.old.kept.behind }
{
    let Some(connection) = take(handle, alloc) else {
        return CLOSED;
    };
    let status = write_place(trigger_column(&connection, at, place), column);
    put(handle, connection);
    status
}
