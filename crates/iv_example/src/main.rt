//! A program that uses the library: bank accounts, a transfer that COMMIT refuses, one that it accepts, and what
//! happened in a refused statement.
#![tactic(auto)]

mod showing;

use crate::showing::{show_account, show_answer, show_outcome, show_pending};
use iv_parse::{SyntaxFault, script};
use iv_script::{place_at, words_at};
use iv_session::{Limits, Session};
use iv_store_index::IndexStore;
use iv_syntax::Statement;
use std::io;
use std::process::ExitCode;

// A session over the store that finds rows by their keys.
type Database = Session<IndexStore>;

const ACCOUNTS: &str =
    "CREATE TABLE account (owner VARCHAR(20) PRIMARY KEY, balance INT CONSTRAINT solvent CHECK (balance >= 0) INITIALLY DEFERRED); INSERT INTO account VALUES ('Ann', 50), ('Bob', 20); COMMIT;";

const TRANSFER: &str =
    "UPDATE account SET balance = balance - 70 WHERE owner = 'Ann'; SAVEPOINT taken; UPDATE account SET balance = balance + 70 WHERE owner = 'Bob';";

const TWICE: &str = "INSERT INTO account VALUES ('Ann', 1);";

const MISSPELT: &str = "SELECT owner FROM acount;\n  SELEKT owner FROM account;";

const BALANCES: &str = "SELECT owner, balance FROM account;";

// Executes statements, and shows what each of them answers.
fn execute_each(
    rt: &HostRuntime,
    database: &mut Database,
    statements: &[Statement],
) -> io::Result<()> {
    for statement in statements {
        let outcome = database.execute(statement);
        let shown = show_answer(rt, database.catalogue(), statement, &outcome);
        drop(outcome);
        shown?;
    }
    Ok(())
}

// Shows where a text ceases to be statements.
fn show_end(rt: &HostRuntime, text: &str, fault: Option<SyntaxFault>) -> io::Result<()> {
    match fault {
        Some(fault) => {
            let place = place_at(text, fault.at);
            let words = words_at(text, fault.at).len();
            println!(rt;
                "line {}, column {}: no statement in {words} bytes",
                place.line, place.column
            )
        }
        None => Ok(()),
    }
}

// Executes the statements of a text, and shows what each of them answers.
fn run(rt: &HostRuntime, database: &mut Database, text: &str) -> io::Result<()> {
    let parsed = script(rt.alloc(), text)?;
    let shown = execute_each(rt, database, parsed.statements.as_slice());
    let fault = parsed.fault;
    drop(parsed);
    shown?;
    show_end(rt, text, fault)
}

// Shows what COMMIT would find.
fn show_violations(rt: &HostRuntime, database: &Database) -> io::Result<()> {
    let pending = database.pending()?;
    let shown = show_pending(rt, database.catalogue(), pending.as_slice());
    drop(pending);
    shown
}

// Goes back to a savepoint by the call, and shows what that undid.
fn roll_back_to(rt: &HostRuntime, database: &mut Database, name: &str) -> io::Result<()> {
    let outcome = database.rollback_to(name);
    let shown = show_outcome(rt, database.catalogue(), &outcome);
    drop(outcome);
    shown?;
    let work = database.work();
    println!(rt; "undone {}, keys looked up {}", work.undone, work.lookups)
}

// Commits by the call, and shows the violation if it is refused.
fn commit(rt: &HostRuntime, database: &mut Database) -> io::Result<()> {
    match database.commit() {
        Ok(()) => println!(rt; "committed"),
        Err(fault) => {
            println!(rt; "not committed, because of row {}", fault.row)?;
            show_pending(rt, database.catalogue(), &[fault])
        }
    }
}

// What the accounts go through.
fn transfers(rt: &HostRuntime, database: &mut Database) -> io::Result<()> {
    run(rt, database, ACCOUNTS)?;
    run(rt, database, TRANSFER)?;
    show_violations(rt, database)?;
    roll_back_to(rt, database, "TAKEN")?;
    commit(rt, database)?;
    database.explain(true);
    run(rt, database, TWICE)?;
    show_account(rt, database.catalogue(), database.account())?;
    database.explain(false);
    run(rt, database, MISSPELT)?;
    run(rt, database, BALANCES)
}

fn main(rt: HostRuntime) -> io::Result<ExitCode> {
    let Some(limits) = Limits::new(16, 65_536) else {
        return Ok(ExitCode::from(2));
    };
    let mut database = match Database::new(rt.alloc(), limits) {
        Ok(database) => database,
        Err(_) => {
            eprintln!(rt; "out of memory")?;
            return Ok(ExitCode::from(2));
        }
    };
    let shown = transfers(&rt, &mut database);
    drop(database);
    shown?;
    Ok(ExitCode::from(0))
}
