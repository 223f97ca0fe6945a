//! The last outcome in words.
ghost use Rattle.std.specs.Prelude.{◌≡◌, ◌≢◌, IfSome};
ghost use Rattle.iv_shown.specs.Copying.{Copies};
ghost use Rattle.iv_connection.specs.Messages.{message_of};
ghost use Rattle.sqlkeep_c.specs.Statuses.{IsStatus};

use crate::handle::{Handle, put, take};
use iv_connection::message;
use iv_shown::{CLOSED, NO_MEMORY, OK, copied};
use std::alloc::Global;

/// Copies bytes of a message on the last outcome, from this one on: one line of words without its end.
#[unsafe(no_mangle)]
pub extern "C" fn sqlkeep_message(
    alloc: Global,
    handle: &mut Handle,
    from: usize,
    buffer: &mut [u8],
    count: &mut usize,
) -> u32
    ensures bytes { IfSome handle.old.kept.behind (λ old. result ≡ OK
        → Copies from (message_of old) buffer.old buffer.new count.new) }
    ensures kept { handle.new.kept.behind ≡ handle.old.kept.behind }
    ensures others { result ≢ OK → (buffer.new ≡ buffer.old) × (count.new ≡ count.old) }
    ensures status { IsStatus handle.old.kept.behind result }
{
    let Some(connection) = take(handle, alloc) else {
        return CLOSED;
    };
    let told = message(alloc, &connection);
    put(handle, connection);
    match told {
        Ok(words) => {
            *count = copied(words.as_slice(), from, buffer);
            OK
        }
        Err(_) => NO_MEMORY,
    }
}
