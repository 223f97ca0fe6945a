//! The way back to a savepoint, which can't fail for lack of memory on the store with a journal.
ghost use Rattle.std.specs.Prelude.{◌≡◌, true, false};
ghost use Rattle.iv_catalogue.specs.Refusals.{is_memory};
ghost use Rattle.iv_step.specs.Sure.{is_rollback_to};

use crate::shown::{compare, show_with};
use iv_machine::Limits;
use iv_parse::script;
use iv_session::{Outcome, Session};
use iv_store_index::IndexStore;
use iv_syntax::Statement;
use std::alloc::Global;
use std::panic::Expect;
use std::process::Abort;

// Goes back as a call.
fn roll_back_to(session: &mut Session<IndexStore>, name: &str) -> Outcome
    ensures { is_memory result ≡ false }
{
    session.rollback_to(name)
}

// Goes back as a statement.
fn execute_rollback_to(session: &mut Session<IndexStore>, statement: &Statement) -> Outcome
    requires { is_rollback_to statement.now ≡ true }
    ensures { is_memory result ≡ false }
{
    session.execute(statement)
}

// Runs a statement: one that goes back isn't refused for memory.
fn execute(session: &mut Session<IndexStore>, statement: &Statement) -> Outcome
    ensures { is_rollback_to statement.now ≡ true → is_memory result ≡ false }
{
    match statement {
        Statement::RollbackTo(_) => execute_rollback_to(session, statement),
        _ => session.execute(statement),
    }
}

// Runs these statements, and shows what each answers and undoes.
fn show_each(
    rt: &impl Abort,
    session: &mut Session<IndexStore>,
    statements: &[Statement],
    shown: &mut String,
) {
    for statement in statements {
        let outcome = execute(session, statement);
        show_with(rt, outcome, session.work().undone, shown);
    }
}

// Runs the statements of a text, and shows what each answers and undoes.
fn show_text(
    rt: &impl Abort,
    alloc: Global,
    session: &mut Session<IndexStore>,
    text: &str,
    shown: &mut String,
) {
    let parsed = script(alloc, text).expect(rt, "memory");
    show_each(rt, session, parsed.statements.as_slice(), shown);
    drop(parsed);
}

// Goes back as a call, and shows what it answers and undoes.
fn show_back(rt: &impl Abort, session: &mut Session<IndexStore>, name: &str, shown: &mut String) {
    let outcome = roll_back_to(session, name);
    show_with(rt, outcome, session.work().undone, shown)
}

// Back by the call and by the statement, to a savepoint and to none, in a transaction and outside of it.
fn show_ways_back(
    rt: &impl Abort,
    alloc: Global,
    session: &mut Session<IndexStore>,
    shown: &mut String,
) {
    show_text(
        rt,
        alloc,
        session,
        "CREATE TABLE t (a INT PRIMARY KEY);",
        shown,
    );
    show_back(rt, session, "S", shown);
    show_text(
        rt,
        alloc,
        session,
        "INSERT INTO t VALUES (1); SAVEPOINT s; INSERT INTO t VALUES (2), (3);",
        shown,
    );
    show_back(rt, session, "S", shown);
    show_back(rt, session, "T", shown);
    show_text(
        rt,
        alloc,
        session,
        "INSERT INTO t VALUES (2); ROLLBACK TO SAVEPOINT s; ROLLBACK TO SAVEPOINT t; COMMIT; ROLLBACK TO SAVEPOINT s; SELECT * FROM t;",
        shown,
    )
}

// Goes back in a new session, by the call and by the statement.
fn ways_back(rt: &impl Abort, alloc: Global, shown: &mut String) {
    let limits = Limits::new(16, 65_536).expect(rt, "limits");
    let mut session = Session::<IndexStore>::new(alloc, limits).expect(rt, "memory");
    show_ways_back(rt, alloc, &mut session, shown);
    drop(session);
}

#[test]
fn a_session_goes_back_to_a_savepoint(rt: HostRuntime) {
    let mut shown = String::new(rt.alloc());
    ways_back(&rt, rt.alloc(), &mut shown);
    let wanted =
        "done 0; no transaction 0; changed 1 0; done 0; changed 2 0; done 2; unknown savepoint 0; \
                  changed 1 0; done 1; unknown savepoint 0; done 0; no transaction 0; rows 1 0; ";
    compare(&rt, "ways back", shown.as_str(), wanted);
}
