//! Calls of a session over the statements of a script, and what they answer as text. One function makes the session and
//! drops it, and all else borrows it: what owns a session has its drop proved at each of its exits.
use crate::load::{Load, load_rows};
use crate::shown::{
    compare, show, show_account, show_catalogue, show_fault, show_modes, show_number, show_outcome,
    show_outcomes, show_row, show_work,
};
use iv_expr::TableId;
use iv_machine::Limits;
use iv_parse::script;
use iv_restore::{DumpRefusal, checked_dump};
use iv_session::{Outcome, Session};
use iv_store::Keeper;
use iv_syntax::Statement;
use std::alloc::Global;
use std::panic::Expect;
use std::process::Abort;

/// A call, or several, of which what they answer is added to a text.
#[derive(Clone, Copy)]
pub enum Call {
    /// All statements at once; nothing is added.
    Run,
    /// The same, with the outcome of each.
    RunAndShow,
    /// The same, with the outcome of the last.
    RunAndShowLast,
    /// Each statement by itself; nothing is added.
    Execute,
    /// The same, with what is pending after each.
    ExecuteWithPending,
    /// An INSERT INTO t of each number below `rows`. How many of them inserted one row, and how many keys one of them
    /// looked up if that is more than `most`.
    Load { rows: u64, most: u64 },
    /// Whether an account is asked for.
    Explain(bool),
    /// The account of the last statement or call.
    Account,
    /// What an account tells of what is pending.
    Violations,
    Commit,
    /// A COMMIT of which nothing is added.
    CommitUnseen,
    Rollback,
    RollbackTo(&'static str),
    /// How many violations are pending, whether a transaction is open, and the changes made and undone last.
    State,
    /// How many changes were made and undone last.
    Work,
    /// How many keys were looked up last, if that is more than this.
    LookUps(u64),
    /// How many tables and constraints there are.
    Catalogue,
    /// The place of the table of the row of this number, and how many values it has.
    Row(u64),
    /// The mode of each constraint.
    Modes,
    /// How many rows the table at this place has.
    Rows(u32),
    /// The scripts of a dump, or why there is none.
    Dump,
}

// Which outcomes are shown.
#[derive(Clone, Copy, PartialEq, Eq)]
enum Which {
    None,
    All,
    Last,
}

fn show_which(rt: &impl Abort, outcomes: &[Outcome], which: Which, shown: &mut String) {
    let from = match which {
        Which::None => outcomes.len(),
        Which::All => 0,
        Which::Last => outcomes.len().saturating_sub(1),
    };
    show_outcomes(rt, &outcomes[from..], shown)
}

// Runs all statements, and shows these of their outcomes.
fn run_all<K: Keeper + Drop>(
    rt: &impl Abort,
    session: &mut Session<K>,
    statements: &[Statement],
    which: Which,
    shown: &mut String,
) {
    let outcomes = session.run_all(statements).expect(rt, "memory");
    show_which(rt, outcomes.as_slice(), which, shown);
    drop(outcomes);
}

// The constraint's place and the row of each violation that is pending, and how many there are.
fn show_pending<K: Keeper + Drop>(rt: &impl Abort, session: &Session<K>, shown: &mut String) {
    let pending = session.pending().expect(rt, "memory");
    for fault in pending.as_slice() {
        show_fault(rt, "", fault, ", ", shown);
    }
    show_number(rt, "", session.pending_count(), "; ", shown)
}

// What an account tells of the violations that are pending.
fn show_violations<K: Keeper + Drop>(rt: &impl Abort, session: &Session<K>, shown: &mut String) {
    let pending = session.pending().expect(rt, "memory");
    let told = session.violations(pending.as_slice()).expect(rt, "memory");
    show_account(rt, told.entries(), shown)
}

// Runs each statement by itself, and shows what is pending after it if that is wanted.
fn execute_each<K: Keeper + Drop>(
    rt: &impl Abort,
    session: &mut Session<K>,
    statements: &[Statement],
    with_pending: bool,
    shown: &mut String,
) {
    for statement in statements {
        drop(session.execute(statement));
        if with_pending {
            show_pending(rt, session, shown);
        }
    }
}

// A number of look-ups, if it is more than the most.
fn show_look_ups(rt: &impl Abort, look_ups: u64, most: u64, shown: &mut String) {
    if look_ups > most {
        show_number(rt, "looked up ", look_ups, "; ", shown);
    }
}

fn load<K: Keeper + Drop>(
    rt: &impl Abort,
    alloc: Global,
    session: &mut Session<K>,
    rows: u64,
    most: u64,
    shown: &mut String,
) {
    let mut load = Load::default();
    load_rows(rt, alloc, session, rows, &mut load);
    show_number(rt, "inserted ", load.inserted, "; ", shown);
    show_look_ups(rt, load.most, most, shown)
}

fn commit<K: Keeper + Drop>(rt: &impl Abort, session: &mut Session<K>, shown: &mut String) {
    match session.commit() {
        Ok(()) => show(rt, "committed; ", shown),
        Err(fault) => show_fault(rt, "violated ", &fault, "; ", shown),
    }
}

fn roll_back_to<K: Keeper + Drop>(
    rt: &impl Abort,
    session: &mut Session<K>,
    name: &str,
    shown: &mut String,
) {
    let outcome = session.rollback_to(name);
    show_outcome(rt, &outcome, shown);
    drop(outcome);
    show(rt, "; ", shown)
}

fn show_state<K: Keeper + Drop>(rt: &impl Abort, session: &Session<K>, shown: &mut String) {
    let open = if session.in_transaction() {
        " open "
    } else {
        " closed "
    };
    show_number(rt, "", session.pending_count(), open, shown);
    show_work(rt, session.work(), shown)
}

fn show_rows<K: Keeper + Drop>(
    rt: &impl Abort,
    session: &Session<K>,
    place: u32,
    shown: &mut String,
) {
    match session.rows(TableId::new(place)) {
        Ok(rows) => {
            show_number(rt, "", rows.as_slice().len() as u64, " rows; ", shown);
            drop(rows);
        }
        Err(_) => show(rt, "no rows; ", shown),
    }
}

fn show_dump<K: Keeper + Drop>(
    rt: &impl Abort,
    alloc: Global,
    session: &Session<K>,
    shown: &mut String,
) {
    match checked_dump(alloc, session) {
        Ok(scripts) => {
            for text in scripts.as_slice() {
                show(rt, text.as_str(), shown);
            }
            drop(scripts);
        }
        Err(DumpRefusal::InTransaction) => show(rt, "open; ", shown),
        Err(_) => show(rt, "no dump; ", shown),
    }
}

fn make_call<K: Keeper + Drop>(
    rt: &impl Abort,
    alloc: Global,
    session: &mut Session<K>,
    statements: &[Statement],
    call: &Call,
    shown: &mut String,
) {
    match call {
        Call::Run => run_all(rt, session, statements, Which::None, shown),
        Call::RunAndShow => run_all(rt, session, statements, Which::All, shown),
        Call::RunAndShowLast => run_all(rt, session, statements, Which::Last, shown),
        Call::Execute => execute_each(rt, session, statements, false, shown),
        Call::ExecuteWithPending => execute_each(rt, session, statements, true, shown),
        Call::Load { rows, most } => load(rt, alloc, session, *rows, *most, shown),
        Call::Explain(asked) => {
            session.explain(*asked);
        }
        Call::Account => show_account(rt, session.account(), shown),
        Call::Violations => show_violations(rt, session, shown),
        Call::Commit => commit(rt, session, shown),
        Call::CommitUnseen => {
            let _ = session.commit();
        }
        Call::Rollback => {
            session.rollback();
        }
        Call::RollbackTo(name) => roll_back_to(rt, session, name, shown),
        Call::State => show_state(rt, session, shown),
        Call::Work => show_work(rt, session.work(), shown),
        Call::LookUps(most) => show_look_ups(rt, session.work().lookups, *most, shown),
        Call::Catalogue => show_catalogue(rt, session.catalogue(), shown),
        Call::Row(number) => show_row(rt, session.row(*number), shown),
        Call::Modes => show_modes(rt, session.modes(), shown),
        Call::Rows(place) => show_rows(rt, session, *place, shown),
        Call::Dump => show_dump(rt, alloc, session, shown),
    }
}

fn make_calls<K: Keeper + Drop>(
    rt: &impl Abort,
    alloc: Global,
    session: &mut Session<K>,
    statements: &[Statement],
    calls: &[Call],
    shown: &mut String,
) {
    for call in calls {
        make_call(rt, alloc, session, statements, call, shown);
    }
}

// Makes a call in a new session.
fn call_anew<K: Keeper + Drop>(
    rt: &impl Abort,
    alloc: Global,
    limits: Limits,
    statements: &[Statement],
    calls: &[Call],
    shown: &mut String,
) {
    let mut session = Session::<K>::new(alloc, limits).expect(rt, "memory");
    make_calls(rt, alloc, &mut session, statements, calls, shown);
    drop(session);
}

// Makes a call over the statements of a script.
fn call_over<K: Keeper + Drop>(
    rt: &impl Abort,
    alloc: Global,
    text: &str,
    (depth, changes): (u8, u32),
    calls: &[Call],
    shown: &mut String,
) {
    let limits = Limits::new(depth, changes).expect(rt, "limits");
    let parsed = script(alloc, text).expect(rt, "memory");
    call_anew::<K>(
        rt,
        alloc,
        limits,
        parsed.statements.as_slice(),
        calls,
        shown,
    );
    drop(parsed);
}

/// Asserts what calls over the statements of a script show, if triggers may nest so deep, and a statement may make so
/// many changes.
pub fn shows_within<K: Keeper + Drop>(
    rt: &impl Abort,
    alloc: Global,
    text: &str,
    limits: (u8, u32),
    calls: &[Call],
    wanted: &str,
) {
    let mut shown = String::new(alloc);
    call_over::<K>(rt, alloc, text, limits, calls, &mut shown);
    compare(rt, text, shown.as_str(), wanted);
}

/// The same within the limits that a session usually has.
pub fn shows<K: Keeper + Drop>(
    rt: &impl Abort,
    alloc: Global,
    text: &str,
    calls: &[Call],
    wanted: &str,
) {
    shows_within::<K>(rt, alloc, text, (16, 65_536), calls, wanted)
}
