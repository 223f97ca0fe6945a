//! A session is connection and closed.
ghost use Rattle.std.specs.Prelude.{◌≡◌, ◌≢◌, ◌==◌, not, None, Some, false, is_some, IfSome};
ghost use Rattle.iv_account.specs.Telling.{no_account};
ghost use Rattle.iv_state.specs.Kept.{with_account};
ghost use Rattle.sqlkeep_c.specs.Calls.{Called};
ghost use Rattle.iv_connection.specs.Sessions.{IsNew};
ghost use Rattle.sqlkeep_c.specs.Statuses.{IsStatusOfOpening, status_if_open};

use crate::handle::{Handle, put, take};
use iv_connection::new_connection;
use iv_machine::Limits;
use iv_shown::{CLOSED, LIMITS, NO_MEMORY, OK, OPEN};
use std::alloc::Global;

/// Opens a session over no table, with these limits.
#[unsafe(no_mangle)]
pub extern "C" fn sqlkeep_open(alloc: Global, handle: &mut Handle, depth: u8, changes: u32) -> u32
    ensures opened { result ≡ OK → IfSome handle.new.kept.behind (λ new.
        IsNew (record { depth = depth; changes = changes }) new) }
    ensures open { is_some handle.new.kept.behind ≡ false → result ≢ OK }
    ensures others { result ≢ OK → handle.new.kept.behind ≡ handle.old.kept.behind }
    ensures status { IsStatusOfOpening handle.old.kept.behind depth changes result }
{
    if handle.is_open() {
        return OPEN;
    }
    let Some(limits) = Limits::new(depth, changes) else {
        return LIMITS;
    };
    match new_connection(alloc, limits) {
        Ok(connection) => {
            put(handle, connection);
            OK
        }
        Err(_) => NO_MEMORY,
    }
}

/// Closes the session.
#[unsafe(no_mangle)]
pub extern "C" fn sqlkeep_close(alloc: Global, handle: &mut Handle) -> u32
    ensures closed { handle.new.kept.behind ≡ None }
    ensures status { result ≡ status_if_open handle.old.kept.behind }
{
    match take(handle, alloc) {
        Some(connection) => {
            drop(connection);
            OK
        }
        None => CLOSED,
    }
}

/// From now on an account of each statement is asked for, or isn't: 0 is no, all else is yes. It takes no memory.
#[unsafe(no_mangle)]
pub extern "C" fn sqlkeep_explain(alloc: Global, handle: &mut Handle, asked: u32) -> u32
    ensures asked { Called handle.old.kept.behind handle.new.kept.behind (λ old new.
        new ≡ record old { session = with_account old.session (no_account (not (asked == 0))); is_told = false }) }
    ensures status { result ≡ status_if_open handle.old.kept.behind }
{
    let Some(mut connection) = take(handle, alloc) else {
        return CLOSED;
    };
    connection.session.explain(asked != 0);
    connection.is_told = false;
    put(handle, connection);
    OK
}
