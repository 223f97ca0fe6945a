//! Rows that are inserted one by one, each by a statement of its own.
use iv_machine::Answer;
use iv_parse::script;
use iv_session::{Outcome, Session};
use iv_store::Keeper;
use iv_syntax::Statement;
use std::alloc::Global;
use std::panic::Expect;
use std::process::Abort;

/// How many of the statements inserted a row, and the most keys that one of them looked up.
#[derive(Clone, Copy, Default)]
pub struct Load {
    pub inserted: u64,
    pub most: u64,
}

// Whether one row was inserted.
fn is_one(outcome: &Outcome) -> bool {
    matches!(outcome, Ok(Answer::Changed(1)))
}

// Runs these statements, and counts them.
fn count_each<K: Keeper + Drop>(
    session: &mut Session<K>,
    statements: &[Statement],
    load: &mut Load,
) {
    for statement in statements {
        let outcome = session.execute(statement);
        let inserted = u64::from(is_one(&outcome));
        drop(outcome);
        load.inserted = load.inserted.saturating_add(inserted);
        load.most = load.most.max(session.work().lookups);
    }
}

// The statements of a text, which are counted.
fn count_text<K: Keeper + Drop>(
    rt: &impl Abort,
    alloc: Global,
    session: &mut Session<K>,
    text: &str,
    load: &mut Load,
) {
    let parsed = script(alloc, text).expect(rt, "memory");
    count_each(session, parsed.statements.as_slice(), load);
    drop(parsed);
}

/// Inserts each number from 0 up to this into a table T.
pub fn load_rows<K: Keeper + Drop>(
    rt: &impl Abort,
    alloc: Global,
    session: &mut Session<K>,
    rows: u64,
    load: &mut Load,
) {
    for number in 0..rows {
        let text = format!(in alloc; "INSERT INTO t VALUES ({number});").expect(rt, "memory");
        count_text(rt, alloc, session, text.as_str(), load);
        drop(text);
    }
}
