//! Transactions, by calls.
ghost use Rattle.std.specs.Prelude.{◌≡◌, ◌-◌, None};
ghost use Rattle.iv_connection.specs.Transactions.{Committed};

use iv_catalogue::{Cause, Refusal};
use iv_session::{Answer, Outcome};
use iv_shown::{Connection, Database};

/// What the last statement or call did: how many row changes it made and undid, and how many keys it looked up.
#[repr(C)]
#[derive(Drop)]
pub struct ShownWork {
    pub changes: u64,
    pub undone: u64,
    pub lookups: u64,
}

// COMMIT, with its answer as that of a statement.
fn commit(session: &mut Database) -> Outcome
    ensures { Committed session.old result session.new }
{
    match session.commit() {
        Ok(()) => Ok(Answer::Done),
        Err(fault) => Err(Refusal::of(Cause::CommitRefused(fault))),
    }
}

/// COMMIT, of which the outcome is kept.
pub fn commit_kept(connection: &mut Connection)
    ensures committed { Committed connection.old.session connection.new.outcome connection.new.session }
    ensures rest { connection.new ≡ record connection.old {
      session = connection.new.session;
      outcome = connection.new.outcome;
      executed = None;
      is_told = connection.old.session.account.asked;
    } }
{
    connection.is_told = connection.session.explains();
    connection.outcome = commit(&mut connection.session);
    connection.executed = None;
}
