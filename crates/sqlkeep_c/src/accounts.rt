//! The account of the last statement, entry by entry.
ghost use Rattle.std.specs.Prelude.{◌≡◌, ◌≢◌, length, slice_get, IfSome};
ghost use Rattle.iv_shown.specs.Accounts.{disagreement_at, disagreement_shown, entry_shown, item_at, item_value, name_at_entry, seen_value, set_value, trigger_at_entry};
ghost use Rattle.iv_shown.specs.Copying.{Copies};
ghost use Rattle.iv_shown.specs.Cells.{text_of, cell_of};
ghost use Rattle.iv_shown.specs.Statuses.{found};
ghost use Rattle.sqlkeep_c.specs.Statuses.{status_by, status_if_open};

use crate::handle::{Handle, put, take};
use iv_shown::{
    CLOSED, Cell, NOTHING, OK, ShownDisagreement, ShownEntry, ShownItem, copied_if_there,
    copy_text, disagreement_at, disagreement_shown, entry_at, entry_name_at, entry_shown,
    entry_trigger_at, item_at, item_value, seen_value, set_value, write_value,
};
use std::alloc::Global;

/// How many entries the account of the last statement has.
#[unsafe(no_mangle)]
pub extern "C" fn sqlkeep_entries(alloc: Global, handle: &mut Handle, count: &mut usize) -> u32
    ensures count { IfSome handle.old.kept.behind (λ old. count.new ≡ length old.session.account.entries) }
    ensures kept { handle.new.kept.behind ≡ handle.old.kept.behind }
    ensures others { result ≢ OK → count.new ≡ count.old }
    ensures status { result ≡ status_if_open handle.old.kept.behind }
{
    let Some(connection) = take(handle, alloc) else {
        return CLOSED;
    };
    *count = connection.session.account().len();
    put(handle, connection);
    OK
}

/// The entry at this place of the account.
#[unsafe(no_mangle)]
pub extern "C" fn sqlkeep_entry(
    alloc: Global,
    handle: &mut Handle,
    at: usize,
    entry: &mut ShownEntry,
) -> u32
    ensures entry { IfSome handle.old.kept.behind (λ old. IfSome (slice_get old.session.account.entries at) (λ it.
        entry.new ≡ entry_shown it)) }
    ensures kept { handle.new.kept.behind ≡ handle.old.kept.behind }
    ensures others { result ≢ OK → entry.new ≡ entry.old }
    ensures status { result
        ≡ status_by (λ old. found (slice_get old.session.account.entries at)) handle.old.kept.behind }
{
    let Some(connection) = take(handle, alloc) else {
        return CLOSED;
    };
    let status = match entry_at(&connection, at) {
        Some(it) => {
            *entry = entry_shown(it);
            OK
        }
        None => NOTHING,
    };
    put(handle, connection);
    status
}

/// Copies the name of the trigger that runs or is skipped by the entry at this place.
#[unsafe(no_mangle)]
pub extern "C" fn sqlkeep_entry_trigger(
    alloc: Global,
    handle: &mut Handle,
    at: usize,
    from: usize,
    buffer: &mut [u8],
    count: &mut usize,
) -> u32
    ensures bytes { IfSome handle.old.kept.behind (λ old.
        IfSome (trigger_at_entry old.session.state.schema old.session.account.entries at) (λ name.
        Copies from name buffer.old buffer.new count.new)) }
    ensures kept { handle.new.kept.behind ≡ handle.old.kept.behind }
    ensures others { result ≢ OK → (buffer.new ≡ buffer.old) × (count.new ≡ count.old) }
    ensures status { result ≡ status_by (λ old.
        found (trigger_at_entry old.session.state.schema old.session.account.entries at)) handle.old.kept.behind }
{
    let Some(connection) = take(handle, alloc) else {
        return CLOSED;
    };
    let status = copied_if_there(entry_trigger_at(&connection, at), from, buffer, count);
    put(handle, connection);
    status
}

/// Copies a name that the entry at this place tells and the catalogue doesn't have: that of a savepoint, or of the
/// constraint that isn't added.
#[unsafe(no_mangle)]
pub extern "C" fn sqlkeep_entry_name(
    alloc: Global,
    handle: &mut Handle,
    at: usize,
    item: usize,
    from: usize,
    buffer: &mut [u8],
    count: &mut usize,
) -> u32
    ensures bytes { IfSome handle.old.kept.behind (λ old.
        IfSome (name_at_entry old.session.account.entries at item) (λ name.
        Copies from name buffer.old buffer.new count.new)) }
    ensures kept { handle.new.kept.behind ≡ handle.old.kept.behind }
    ensures others { result ≢ OK → (buffer.new ≡ buffer.old) × (count.new ≡ count.old) }
    ensures status { result ≡ status_by (λ old.
        found (name_at_entry old.session.account.entries at item)) handle.old.kept.behind }
{
    let Some(connection) = take(handle, alloc) else {
        return CLOSED;
    };
    let status = copied_if_there(entry_name_at(&connection, at, item), from, buffer, count);
    put(handle, connection);
    status
}

/// An item of the entry at this place.
#[unsafe(no_mangle)]
pub extern "C" fn sqlkeep_entry_item(
    alloc: Global,
    handle: &mut Handle,
    at: usize,
    item: usize,
    shown: &mut ShownItem,
) -> u32
    ensures item { IfSome handle.old.kept.behind (λ old. IfSome (item_at old.session.account.entries at item) (λ it.
        shown.new ≡ it)) }
    ensures kept { handle.new.kept.behind ≡ handle.old.kept.behind }
    ensures others { result ≢ OK → shown.new ≡ shown.old }
    ensures status { result
        ≡ status_by (λ old. found (item_at old.session.account.entries at item)) handle.old.kept.behind }
{
    let Some(connection) = take(handle, alloc) else {
        return CLOSED;
    };
    let status = match item_at(&connection, at, item) {
        Some(it) => {
            *shown = it;
            OK
        }
        None => NOTHING,
    };
    put(handle, connection);
    status
}

/// A value of an item of the entry at this place.
#[unsafe(no_mangle)]
pub extern "C" fn sqlkeep_entry_value(
    alloc: Global,
    handle: &mut Handle,
    at: usize,
    item: usize,
    side: u32,
    column: usize,
    value: &mut Cell,
) -> u32
    ensures value { IfSome handle.old.kept.behind (λ old. IfSome (item_value old.session.account.entries at item side column) (λ it.
        value.new ≡ cell_of it)) }
    ensures kept { handle.new.kept.behind ≡ handle.old.kept.behind }
    ensures others { result ≢ OK → value.new ≡ value.old }
    ensures status { result ≡ status_by (λ old.
        found (item_value old.session.account.entries at item side column)) handle.old.kept.behind }
{
    let Some(connection) = take(handle, alloc) else {
        return CLOSED;
    };
    let status = write_value(item_value(&connection, at, item, side, column), value);
    put(handle, connection);
    status
}

/// Copies bytes of a text that is a value of an item, from this byte on.
#[unsafe(no_mangle)]
pub extern "C" fn sqlkeep_entry_text(
    alloc: Global,
    handle: &mut Handle,
    at: usize,
    item: usize,
    side: u32,
    column: usize,
    from: usize,
    buffer: &mut [u8],
    count: &mut usize,
) -> u32
    ensures bytes { IfSome handle.old.kept.behind (λ old. IfSome (item_value old.session.account.entries at item side column) (λ it.
        Copies from (text_of it) buffer.old buffer.new count.new)) }
    ensures kept { handle.new.kept.behind ≡ handle.old.kept.behind }
    ensures others { result ≢ OK → (buffer.new ≡ buffer.old) × (count.new ≡ count.old) }
    ensures status { result ≡ status_by (λ old.
        found (item_value old.session.account.entries at item side column)) handle.old.kept.behind }
{
    let Some(connection) = take(handle, alloc) else {
        return CLOSED;
    };
    let status = copy_text(
        item_value(&connection, at, item, side, column),
        from,
        buffer,
        count,
    );
    put(handle, connection);
    status
}

/// A value of OLD or NEW of the trigger that runs or is skipped by the entry at this place.
#[unsafe(no_mangle)]
pub extern "C" fn sqlkeep_seen_value(
    alloc: Global,
    handle: &mut Handle,
    at: usize,
    side: u32,
    column: usize,
    value: &mut Cell,
) -> u32
    ensures value { IfSome handle.old.kept.behind (λ old. IfSome (seen_value old.session.account.entries at side column) (λ it.
        value.new ≡ cell_of it)) }
    ensures kept { handle.new.kept.behind ≡ handle.old.kept.behind }
    ensures others { result ≢ OK → value.new ≡ value.old }
    ensures status { result
        ≡ status_by (λ old. found (seen_value old.session.account.entries at side column)) handle.old.kept.behind }
{
    let Some(connection) = take(handle, alloc) else {
        return CLOSED;
    };
    let status = write_value(seen_value(&connection, at, side, column), value);
    put(handle, connection);
    status
}

/// Copies bytes of a text that is a value of OLD or NEW, from this byte on.
#[unsafe(no_mangle)]
pub extern "C" fn sqlkeep_seen_text(
    alloc: Global,
    handle: &mut Handle,
    at: usize,
    side: u32,
    column: usize,
    from: usize,
    buffer: &mut [u8],
    count: &mut usize,
) -> u32
    ensures bytes { IfSome handle.old.kept.behind (λ old. IfSome (seen_value old.session.account.entries at side column) (λ it.
        Copies from (text_of it) buffer.old buffer.new count.new)) }
    ensures kept { handle.new.kept.behind ≡ handle.old.kept.behind }
    ensures others { result ≢ OK → (buffer.new ≡ buffer.old) × (count.new ≡ count.old) }
    ensures status { result
        ≡ status_by (λ old. found (seen_value old.session.account.entries at side column)) handle.old.kept.behind }
{
    let Some(connection) = take(handle, alloc) else {
        return CLOSED;
    };
    let status = copy_text(
        seen_value(&connection, at, side, column),
        from,
        buffer,
        count,
    );
    put(handle, connection);
    status
}

/// How two foreign keys disagree by the entry at this place.
#[unsafe(no_mangle)]
pub extern "C" fn sqlkeep_disagreement(
    alloc: Global,
    handle: &mut Handle,
    at: usize,
    shown: &mut ShownDisagreement,
) -> u32
    ensures disagreement { IfSome handle.old.kept.behind (λ old. IfSome (disagreement_at old.session.account.entries at) (λ how.
        shown.new ≡ disagreement_shown how)) }
    ensures kept { handle.new.kept.behind ≡ handle.old.kept.behind }
    ensures others { result ≢ OK → shown.new ≡ shown.old }
    ensures status { result
        ≡ status_by (λ old. found (disagreement_at old.session.account.entries at)) handle.old.kept.behind }
{
    let Some(connection) = take(handle, alloc) else {
        return CLOSED;
    };
    let status = match disagreement_at(&connection, at) {
        Some(how) => {
            *shown = disagreement_shown(how);
            OK
        }
        None => NOTHING,
    };
    put(handle, connection);
    status
}

/// Copies bytes of a text to which one of two foreign keys that disagree sets the column, from this byte on.
#[unsafe(no_mangle)]
pub extern "C" fn sqlkeep_disagreement_text(
    alloc: Global,
    handle: &mut Handle,
    at: usize,
    side: u32,
    from: usize,
    buffer: &mut [u8],
    count: &mut usize,
) -> u32
    ensures bytes { IfSome handle.old.kept.behind (λ old. IfSome (set_value old.session.account.entries at side) (λ it.
        Copies from (text_of it) buffer.old buffer.new count.new)) }
    ensures kept { handle.new.kept.behind ≡ handle.old.kept.behind }
    ensures others { result ≢ OK → (buffer.new ≡ buffer.old) × (count.new ≡ count.old) }
    ensures status { result
        ≡ status_by (λ old. found (set_value old.session.account.entries at side)) handle.old.kept.behind }
{
    let Some(connection) = take(handle, alloc) else {
        return CLOSED;
    };
    let status = copy_text(set_value(&connection, at, side), from, buffer, count);
    put(handle, connection);
    status
}
