//! The database as scripts.
ghost use Rattle.std.specs.Prelude.{◌≡◌, ◌≢◌, length, slice_get, IfSome};
ghost use Rattle.iv_dump.specs.Dumps.{AreDump};
ghost use Rattle.iv_dump.specs.Scripts.{AreShort};
ghost use Rattle.iv_restore.specs.Restoring.{Restores};
ghost use Rattle.iv_shown.specs.Copying.{Copies};
ghost use Rattle.iv_connection.specs.Dumps.{scripts_of};
ghost use Rattle.iv_shown.specs.Statuses.{found};
ghost use Rattle.sqlkeep_c.specs.Calls.{Called};
ghost use Rattle.sqlkeep_c.specs.Statuses.{IsStatusOfDump, status_by};

use crate::handle::{Handle, put, take};
use iv_connection::{dump_script, keep_dump};
use iv_shown::{CLOSED, OK, copied_if_there};
use std::alloc::Global;

/// Writes the database as scripts that make it again, and keeps them. They were run in a database of their own, which
/// was compared with this one. Nothing else changes.
#[unsafe(no_mangle)]
pub extern "C" fn sqlkeep_dump(alloc: Global, handle: &mut Handle, scripts: &mut usize) -> u32
    ensures dump { Called handle.old.kept.behind handle.new.kept.behind (λ old new. result ≡ OK
        → (scripts.new ≡ length new.dump.items) × AreShort (scripts_of new)) }
    ensures statements { Called handle.old.kept.behind handle.new.kept.behind (λ old new. result ≡ OK
        → AreDump old.session.state (scripts_of new)) }
    ensures restores { Called handle.old.kept.behind handle.new.kept.behind (λ old new. result ≡ OK
        → Restores old.session.state (scripts_of new)) }
    ensures rest { Called handle.old.kept.behind handle.new.kept.behind (λ old new.
        new ≡ record old { dump = new.dump }) }
    ensures kept { result ≢ OK → handle.new.kept.behind ≡ handle.old.kept.behind }
    ensures others { result ≢ OK → scripts.new ≡ scripts.old }
    ensures status { IsStatusOfDump handle.old.kept.behind result }
{
    let Some(mut connection) = take(handle, alloc) else {
        return CLOSED;
    };
    let status = keep_dump(alloc, &mut connection);
    let count = connection.dump.len();
    put(handle, connection);
    if status == OK {
        *scripts = count;
    }
    status
}

/// Copies bytes of a script of the last dump, from this one on.
#[unsafe(no_mangle)]
pub extern "C" fn sqlkeep_dump_script(
    alloc: Global,
    handle: &mut Handle,
    at: usize,
    from: usize,
    buffer: &mut [u8],
    count: &mut usize,
) -> u32
    ensures bytes { IfSome handle.old.kept.behind (λ old. IfSome (slice_get (scripts_of old) at) (λ script.
        Copies from script buffer.old buffer.new count.new)) }
    ensures kept { handle.new.kept.behind ≡ handle.old.kept.behind }
    ensures others { result ≢ OK → (buffer.new ≡ buffer.old) × (count.new ≡ count.old) }
    ensures status { result
        ≡ status_by (λ old. found (slice_get (scripts_of old) at)) handle.old.kept.behind }
{
    let Some(connection) = take(handle, alloc) else {
        return CLOSED;
    };
    let status = copied_if_there(dump_script(&connection, at), from, buffer, count);
    put(handle, connection);
    status
}
