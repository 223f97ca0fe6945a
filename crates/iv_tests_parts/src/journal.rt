//! A journal, with ample memory.
use crate::shown::{compare, show_count, show_some};
use iv_expr::{Change, TableId};
use iv_store_rows::Journal;
use std::panic::Expect;
use std::process::Abort;

// A thing that is done to a journal, or told of it.
#[derive(Clone, Copy)]
enum Step {
    // The change of a row is noted.
    Note(u64),
    // The last change is taken out: its row.
    Pop,
    // How many changes are noted.
    Mark,
    // All are forgotten.
    Forget,
}

fn note(rt: &impl Abort, journal: &mut Journal, row: u64) {
    let change = Change {
        table: TableId::new(0),
        row,
        old: None,
        new: None,
    };
    journal.note(change).expect(rt, "memory");
}

fn popped(journal: &mut Journal) -> Option<u64> {
    match journal.pop() {
        Some(change) => Some(change.row),
        None => None,
    }
}

fn take_each(rt: &impl Abort, journal: &mut Journal, steps: &[Step], shown: &mut String) {
    for step in steps {
        match step {
            Step::Note(row) => note(rt, journal, *row),
            Step::Pop => show_some(rt, popped(journal), shown),
            Step::Mark => show_count(rt, journal.mark(), shown),
            Step::Forget => journal.forget(),
        }
    }
}

const IN_TURN: [Step; 9] = [
    Step::Note(1),
    Step::Note(2),
    Step::Mark,
    Step::Pop,
    Step::Pop,
    Step::Pop,
    Step::Note(3),
    Step::Forget,
    Step::Mark,
];

#[test]
fn the_last_change_comes_first(rt: HostRuntime) {
    let mut journal = Journal::new(rt.alloc());
    let mut shown = String::new(rt.alloc());
    take_each(&rt, &mut journal, &IN_TURN, &mut shown);
    drop(journal);
    let wanted = "2 | 2 | 1 | none | 0 | ";
    compare(&rt, "a journal", shown.as_str(), wanted);
}
