//! Transactions, by calls.
ghost use Rattle.std.specs.Prelude.{◌≡◌, ◌≢◌, ◌-◌, [], None, false, is_some, IfSome};
ghost use Rattle.iv_machine.specs.declared.database.Which.TheVariants.{All};
ghost use Rattle.iv_machine.specs.Databases.{is_chosen, scan};
ghost use Rattle.iv_machine.specs.Machine.{rollback_outcome};
ghost use Rattle.sqlkeep_c.specs.Calls.{Called};
ghost use Rattle.iv_connection.specs.Transactions.{Committed, RolledBackTo};
ghost use Rattle.iv_connection.specs.Statements.{outcome_shown};
ghost use Rattle.sqlkeep_c.specs.Statuses.{IsStatusOfName, status_if_open};
ghost use Rattle.iv_account.specs.Telling.{no_account};
ghost use Rattle.iv_session.specs.FewLookups.{FewLookups};

use crate::handle::{Handle, put, take};
use iv_connection::{ShownOutcome, ShownWork, commit_kept, outcome_shown};
use iv_shown::{CLOSED, NOT_UTF8, OK};
use std::alloc::Global;
use std::str::from_utf8;

/// COMMIT: ends the transaction, and keeps the outcome. It can't be refused memory: an account that is asked for is empty
/// if memory is refused for it.
#[unsafe(no_mangle)]
pub extern "C" fn sqlkeep_commit(
    alloc: Global,
    handle: &mut Handle,
    outcome: &mut ShownOutcome,
) -> u32
    ensures committed { Called handle.old.kept.behind handle.new.kept.behind (λ old new.
        Committed old.session new.outcome new.session) }
    ensures shown { Called handle.old.kept.behind handle.new.kept.behind (λ old new.
        outcome.new ≡ outcome_shown new.outcome) }
    ensures rest { Called handle.old.kept.behind handle.new.kept.behind (λ old new.
        new ≡ record old {
          session = new.session;
          outcome = new.outcome;
          executed = None;
          is_told = old.session.account.asked;
        }) }
    ensures others { result ≢ OK → outcome.new ≡ outcome.old }
    ensures status { result ≡ status_if_open handle.old.kept.behind }
{
    let Some(mut connection) = take(handle, alloc) else {
        return CLOSED;
    };
    commit_kept(&mut connection);
    *outcome = outcome_shown(&connection.outcome);
    put(handle, connection);
    OK
}

/// ROLLBACK: ends the transaction. It can't be refused memory.
#[unsafe(no_mangle)]
pub extern "C" fn sqlkeep_rollback(alloc: Global, handle: &mut Handle) -> u32
    ensures state { Called handle.old.kept.behind handle.new.kept.behind (λ old new.
        new.session.state ≡ (rollback_outcome old.session.state).state) }
    ensures work { Called handle.old.kept.behind handle.new.kept.behind (λ old new.
        new.session.work ≡ (rollback_outcome old.session.state).work) }
    ensures bounded { Called handle.old.kept.behind handle.new.kept.behind (λ old new.
        FewLookups old.session.state new.session) }
    ensures lookups { Called handle.old.kept.behind handle.new.kept.behind (λ old new.
        new.session.lookups ≡ new.session.looked_up - old.session.looked_up) }
    ensures account { Called handle.old.kept.behind handle.new.kept.behind (λ old new.
        new.session.account ≡ no_account old.session.account.asked) }
    ensures rest { Called handle.old.kept.behind handle.new.kept.behind (λ old new.
        new ≡ record old { session = new.session; is_told = false }) }
    ensures status { result ≡ status_if_open handle.old.kept.behind }
{
    let Some(mut connection) = take(handle, alloc) else {
        return CLOSED;
    };
    connection.session.rollback();
    connection.is_told = false;
    put(handle, connection);
    OK
}

/// ROLLBACK TO SAVEPOINT, and keeps the outcome. It takes no memory.
#[unsafe(no_mangle)]
pub extern "C" fn sqlkeep_rollback_to(
    alloc: Global,
    handle: &mut Handle,
    name: &[u8],
    outcome: &mut ShownOutcome,
) -> u32
    ensures performs { Called handle.old.kept.behind handle.new.kept.behind (λ old new. result ≡ OK
        → RolledBackTo name.now old.session new.outcome new.session) }
    ensures shown { Called handle.old.kept.behind handle.new.kept.behind (λ old new. result ≡ OK
        → outcome.new ≡ outcome_shown new.outcome) }
    ensures rest { Called handle.old.kept.behind handle.new.kept.behind (λ old new. result ≡ OK
        → new ≡ record old {
          session = new.session;
          outcome = new.outcome;
          executed = None;
          is_told = old.session.account.asked;
        }) }
    ensures others { result ≢ OK → (handle.new.kept.behind ≡ handle.old.kept.behind)
        × (outcome.new ≡ outcome.old) }
    ensures status { IsStatusOfName handle.old.kept.behind name.now result }
{
    let Some(mut connection) = take(handle, alloc) else {
        return CLOSED;
    };
    let Ok(name) = from_utf8(name) else {
        put(handle, connection);
        return NOT_UTF8;
    };
    connection.is_told = connection.session.explains();
    connection.outcome = connection.session.rollback_to(name);
    connection.executed = None;
    *outcome = outcome_shown(&connection.outcome);
    put(handle, connection);
    OK
}

/// Whether a transaction is open.
#[unsafe(no_mangle)]
pub extern "C" fn sqlkeep_in_transaction(
    alloc: Global,
    handle: &mut Handle,
    is_open: &mut bool,
) -> u32
    ensures open { IfSome handle.old.kept.behind (λ old.
        is_open.new ≡ is_some old.session.state.start) }
    // Outside a transaction no constraint is violated.
    ensures unviolated { IfSome handle.old.kept.behind (λ old. is_open.new ≡ false
        → scan old.session.state.database.rows old.session.state.schema.constraints
        (is_chosen old.session.state.modes All) ≡ []) }
    ensures kept { handle.new.kept.behind ≡ handle.old.kept.behind }
    ensures others { result ≢ OK → is_open.new ≡ is_open.old }
    ensures status { result ≡ status_if_open handle.old.kept.behind }
{
    let Some(connection) = take(handle, alloc) else {
        return CLOSED;
    };
    *is_open = connection.session.in_transaction();
    put(handle, connection);
    OK
}

/// What the last statement or call did.
#[unsafe(no_mangle)]
pub extern "C" fn sqlkeep_work(alloc: Global, handle: &mut Handle, work: &mut ShownWork) -> u32
    ensures work { IfSome handle.old.kept.behind (λ old.
        record { changes = work.new.changes; undone = work.new.undone } ≡ old.session.work) }
    ensures lookups { IfSome handle.old.kept.behind (λ old.
        work.new.lookups ≡ old.session.lookups) }
    ensures kept { handle.new.kept.behind ≡ handle.old.kept.behind }
    ensures others { result ≢ OK → work.new ≡ work.old }
    ensures status { result ≡ status_if_open handle.old.kept.behind }
{
    let Some(connection) = take(handle, alloc) else {
        return CLOSED;
    };
    let done = connection.session.work();
    *work = ShownWork {
        changes: done.changes,
        undone: done.undone,
        lookups: done.lookups,
    };
    put(handle, connection);
    OK
}
