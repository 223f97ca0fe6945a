//! The database as scripts.
ghost use Rattle.std.specs.Prelude.{◌≡◌, ◌≢◌, option_copied, slice_get};
ghost use Rattle.iv_dump.specs.Dumps.{AreDump};
ghost use Rattle.iv_dump.specs.Scripts.{AreShort};
ghost use Rattle.iv_restore.specs.Restoring.{Restores};
ghost use Rattle.iv_connection.specs.Dumps.{IsDumpStatus, scripts_of};

use iv_restore::{DumpRefusal, checked_dump};
use iv_shown::{Connection, IN_TRANSACTION, NO_MEMORY, NOT_RESTORED, OK, TOO_LONG};
use std::alloc::Global;

/// Writes the database as scripts that make it again, none of them too long, and keeps them in place of the last dump.
/// They were run in a database of their own, which was compared with this one. Nothing else changes.
pub fn keep_dump(alloc: Global, connection: &mut Connection) -> u32
    ensures restores { result ≡ OK → Restores connection.old.session.state (scripts_of connection.new) }
    ensures short { result ≡ OK → AreShort (scripts_of connection.new) }
    ensures statements { result ≡ OK → AreDump connection.old.session.state (scripts_of connection.new) }
    ensures rest { connection.new ≡ record connection.old { dump = connection.new.dump } }
    ensures others { result ≢ OK → connection.new ≡ connection.old }
    ensures status { IsDumpStatus connection.old.session.state result }
{
    if connection.session.in_transaction() {
        return IN_TRANSACTION;
    }
    match checked_dump(alloc, &connection.session) {
        Ok(scripts) => {
            connection.dump = scripts;
            OK
        }
        Err(DumpRefusal::TooLong) => TOO_LONG,
        Err(DumpRefusal::Differs) => NOT_RESTORED,
        Err(_) => NO_MEMORY,
    }
}

/// The script at this place of the last dump.
pub fn dump_script(connection: &Connection, at: usize) -> Option<&[u8]>
    ensures { option_copied result ≡ slice_get (scripts_of connection.now) at }
{
    match connection.dump.get(at) {
        Some(script) => Some(script.as_str().as_bytes()),
        None => None,
    }
}
