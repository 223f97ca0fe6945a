//! Answers as text. One function writes a number, one drops an outcome, and one compares: each of these is much code to
//! prove.
use iv_account::{Disagreement, Entry, RowAction, SkippedView, TriggerView};
use iv_catalogue::{Catalogue, Cause, Fault, TriggerId};
use iv_expr::StoredRow;
use iv_machine::Answer;
use iv_session::{Outcome, Work};
use iv_syntax::{ConstraintMode, Name};
use iv_value::Truth;
use std::panic::Expect;
use std::process::Abort;

/// Adds these words.
pub fn show(rt: &impl Abort, words: &str, shown: &mut String) {
    shown.push_str(words).expect(rt, "memory");
}

/// A number between these words.
pub fn show_number(rt: &impl Abort, before: &str, number: u64, after: &str, shown: &mut String) {
    write!(shown, "{before}{number}{after}").expect(rt, "memory");
}

/// The place of a constraint and a row, between these words.
pub fn show_fault(rt: &impl Abort, before: &str, fault: &Fault, after: &str, shown: &mut String) {
    show_number(rt, before, fault.constraint.place() as u64, " row ", shown);
    show_number(rt, "", fault.row, after, shown)
}

fn show_cause(rt: &impl Abort, cause: &Cause, shown: &mut String) {
    match cause {
        Cause::CommitRefused(fault) => show_fault(rt, "commit refused ", fault, "", shown),
        Cause::DepthLimit(trigger) => {
            show_number(rt, "depth limit ", trigger.place() as u64, "", shown)
        }
        Cause::TooManyChanges => show(rt, "too many changes", shown),
        Cause::UnknownSavepoint => show(rt, "unknown savepoint", shown),
        Cause::NoTransaction => show(rt, "no transaction", shown),
        _ => show(rt, "another refusal", shown),
    }
}

/// An answer, or the cause of a refusal.
pub fn show_outcome(rt: &impl Abort, outcome: &Outcome, shown: &mut String) {
    match outcome {
        Ok(Answer::Done) => show(rt, "done", shown),
        Ok(Answer::Changed(count)) => show_number(rt, "changed ", *count, "", shown),
        Ok(Answer::Rows(rows)) => show_number(rt, "rows ", rows.as_slice().len() as u64, "", shown),
        Err(refusal) => show_cause(rt, &refusal.cause, shown),
    }
}

/// The answers, or the causes of refusals, of these outcomes, each with an end.
pub fn show_outcomes(rt: &impl Abort, outcomes: &[Outcome], shown: &mut String) {
    for outcome in outcomes {
        show_outcome(rt, outcome, shown);
        show(rt, "; ", shown);
    }
}

/// An answer that isn't wanted any more, and a number after it.
pub fn show_with(rt: &impl Abort, outcome: Outcome, number: u64, shown: &mut String) {
    show_outcome(rt, &outcome, shown);
    drop(outcome);
    show_number(rt, " ", number, "; ", shown)
}

/// How many changes were made and undone.
pub fn show_work(rt: &impl Abort, work: Work, shown: &mut String) {
    show_number(rt, "", work.changes, " ", shown);
    show_number(rt, "", work.undone, "; ", shown)
}

/// How many tables and constraints there are.
pub fn show_catalogue(rt: &impl Abort, catalogue: &Catalogue, shown: &mut String) {
    show_number(rt, "", catalogue.tables().len() as u64, " tables, ", shown);
    show_number(
        rt,
        "",
        catalogue.constraints().len() as u64,
        " constraints; ",
        shown,
    )
}

fn word_of(truth: bool) -> &'static str {
    if truth { " true" } else { " false" }
}

// The trigger's place, whether it saw OLD and NEW, and how many changes of transition tables.
fn show_seen(rt: &impl Abort, trigger: &TriggerId, seen: &TriggerView, shown: &mut String) {
    show_number(rt, "ran ", trigger.place() as u64, "", shown);
    show(rt, word_of(seen.old.is_some()), shown);
    show(rt, word_of(seen.new.is_some()), shown);
    show_number(rt, " ", seen.transition.len() as u64, "", shown)
}

fn truth_word(truth: Truth) -> &'static str {
    match truth {
        Truth::True => " true",
        Truth::False => " false",
        Truth::Unknown => " unknown",
    }
}

// The trigger's place, whether it saw OLD and NEW, and what its WHEN was.
fn show_skipped(rt: &impl Abort, trigger: &TriggerId, seen: &SkippedView, shown: &mut String) {
    show_number(rt, "skipped ", trigger.place() as u64, "", shown);
    show(rt, word_of(seen.old.is_some()), shown);
    show(rt, word_of(seen.new.is_some()), shown);
    show(rt, truth_word(seen.when), shown)
}

// The places of the earlier foreign key and of the column.
fn show_disagreement(rt: &impl Abort, how: &Disagreement, shown: &mut String) {
    show_number(rt, " with ", how.earlier.place() as u64, "", shown);
    show_number(rt, " about ", u64::from(how.column), "", shown)
}

fn show_actions(rt: &impl Abort, actions: &[RowAction], shown: &mut String) {
    show(rt, "acted", shown);
    for action in actions {
        show_number(rt, " ", action.constraint.place() as u64, " on ", shown);
        show_number(rt, "", action.row, "", shown);
    }
}

// The rows of a wave, of which nothing else is shown.
fn show_changes(rt: &impl Abort, entry: &Entry, shown: &mut String) {
    if let Entry::Changed(changes) = entry {
        for change in changes.as_slice() {
            show_number(rt, " ", change.row, "", shown);
        }
    }
}

// The rows that are told with a violation.
fn show_rows(rt: &impl Abort, entry: &Entry, shown: &mut String) {
    let rows = match entry {
        Entry::Faulted(_, rows) => rows.as_slice(),
        Entry::Disagreed(_, rows, _) => rows.as_slice(),
        Entry::NotAdded(_, rows) => rows.as_slice(),
        _ => &[],
    };
    for row in rows {
        show_number(rt, ", ", row.number, "", shown);
    }
}

// The place of the constraint and the number of the row that an entry is about.
fn show_violated(rt: &impl Abort, before: &str, fault: &Fault, shown: &mut String) {
    show_number(rt, before, fault.constraint.place() as u64, " ", shown);
    show_number(rt, "", fault.row, "", shown)
}

fn show_names(rt: &impl Abort, names: &[Name], shown: &mut String) {
    show(rt, "standing", shown);
    for name in names {
        show(rt, " ", shown);
        show(rt, name.as_str(), shown);
    }
}

// An entry in words, without an end.
fn show_entry(rt: &impl Abort, entry: &Entry, shown: &mut String) {
    match entry {
        Entry::Changed(_) => {
            show(rt, "changed", shown);
            show_changes(rt, entry, shown)
        }
        Entry::Acted(actions) => show_actions(rt, actions.as_slice(), shown),
        Entry::Ran(trigger, seen) => show_seen(rt, trigger, seen, shown),
        Entry::Skipped(trigger, seen) => show_skipped(rt, trigger, seen, shown),
        Entry::Began(place) => show_number(rt, "began ", u64::from(*place), "", shown),
        Entry::Ended => show(rt, "ended", shown),
        Entry::Faulted(fault, _) => {
            show_violated(rt, "faulted ", fault, shown);
            show_rows(rt, entry, shown)
        }
        Entry::Disagreed(fault, _, how) => {
            show_violated(rt, "disagreed ", fault, shown);
            show_disagreement(rt, how, shown);
            show_rows(rt, entry, shown)
        }
        Entry::Failed(_) => show(rt, "failed", shown),
        Entry::Standing(names) => show_names(rt, names.as_slice(), shown),
        Entry::NotAdded(constraint, _) => {
            show(rt, "not added ", shown);
            show(rt, constraint.name.as_str(), shown);
            show_rows(rt, entry, shown)
        }
    }
}

/// The entries of an account: the numbers of their rows, and the places of what they name.
pub fn show_account(rt: &impl Abort, account: &[Entry], shown: &mut String) {
    for entry in account {
        show_entry(rt, entry, shown);
        show(rt, "; ", shown);
    }
}

/// Asserts that this is shown of a text.
pub fn compare(rt: &impl Abort, text: &str, shown: &str, wanted: &str) {
    assert_eq!(rt; shown, wanted, "{text}");
}

/// The place of a row's table, and how many values it has.
pub fn show_row(rt: &impl Abort, row: Option<&StoredRow>, shown: &mut String) {
    match row {
        Some(row) => {
            let count = row.values.values().len() as u64;
            show_number(rt, "table ", row.table.place() as u64, " with ", shown);
            show_number(rt, "", count, "; ", shown)
        }
        None => show(rt, "no row; ", shown),
    }
}

/// The mode of each constraint.
pub fn show_modes(rt: &impl Abort, modes: &[ConstraintMode], shown: &mut String) {
    for mode in modes {
        match mode {
            ConstraintMode::Immediate => show(rt, "immediate ", shown),
            ConstraintMode::Deferred => show(rt, "deferred ", shown),
        }
    }
    show(rt, "; ", shown)
}
