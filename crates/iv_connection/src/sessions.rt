//! A session is connection and closed.
ghost use Rattle.std.specs.Prelude.{None, IfOk};
ghost use Rattle.iv_connection.specs.Sessions.{IsNew};

use iv_machine::Limits;
use iv_session::Answer;
use iv_shown::{Connection, Database, SourceText};
use sqlite_items::Items;
use std::alloc::{AllocError, Global};

/// A session with these limits, in a box.
pub fn new_connection(alloc: Global, limits: Limits) -> Result<Box<Connection>, AllocError>
    ensures { IfOk result (λ b. IsNew limits b.value) }
{
    let session = Database::new(alloc, limits)?;
    let connection = Connection {
        limits,
        session,
        statements: Items::new(alloc),
        fault: None,
        text: SourceText::new(String::new(alloc), 0),
        values: Items::new(alloc),
        outcome: Ok(Answer::Done),
        executed: None,
        is_told: false,
        pending: Vec::new(alloc),
        transcript: Vec::new(alloc),
        dump: Vec::new(alloc),
    };
    Ok(Box::new(alloc, connection)?)
}
