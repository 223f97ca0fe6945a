//! Answers of statements in words.
use iv_account::Entry;
use iv_catalogue::{Catalogue, Cause, Fault, Refusal};
use iv_expr::Row;
use iv_resolve_name_faults::{NameFault, NamedItem, name_fault};
use iv_session::{Answer, Outcome};
use iv_syntax::Statement;
use iv_value::Value;
use std::io;

// A value of a row.
fn show_value(rt: &HostRuntime, value: &Value) -> io::Result<()> {
    match value {
        Value::Null => print!(rt; " NULL"),
        Value::Int(integer) => print!(rt; " {integer}"),
        Value::Text(text) => print!(rt; " {}", text.as_str()),
    }
}

// The rows of a SELECT, each on a line.
fn show_rows(rt: &HostRuntime, rows: &[Row]) -> io::Result<()> {
    for row in rows {
        print!(rt; "row")?;
        for value in row.values() {
            show_value(rt, value)?;
        }
        println!(rt; "")?;
    }
    Ok(())
}

// A violation: the name of its constraint, and the number of its row.
fn show_fault(rt: &HostRuntime, catalogue: &Catalogue, fault: &Fault) -> io::Result<()> {
    match catalogue.constraint(fault.constraint) {
        Some(constraint) => println!(rt; "row {} violates {}", fault.row, constraint.name.as_str()),
        None => println!(rt; "row {} violates a constraint", fault.row),
    }
}

/// The violations that COMMIT would find.
pub fn show_pending(rt: &HostRuntime, catalogue: &Catalogue, faults: &[Fault]) -> io::Result<()> {
    for fault in faults {
        show_fault(rt, catalogue, fault)?;
    }
    Ok(())
}

// Why a statement was refused. If an allocation failed, the statement may be given once more.
fn show_refusal(rt: &HostRuntime, catalogue: &Catalogue, refusal: &Refusal) -> io::Result<()> {
    match &refusal.cause {
        Cause::Violation(fault) => show_fault(rt, catalogue, fault),
        Cause::CommitRefused(fault) => show_fault(rt, catalogue, fault),
        Cause::OutOfMemory => println!(rt; "out of memory"),
        cause => println!(rt; "refused: {cause:?}"),
    }
}

/// What a statement answers.
pub fn show_outcome(rt: &HostRuntime, catalogue: &Catalogue, outcome: &Outcome) -> io::Result<()> {
    match outcome {
        Ok(Answer::Done) => println!(rt; "done"),
        Ok(Answer::Changed(count)) => println!(rt; "changed {count}"),
        Ok(Answer::Rows(rows)) => show_rows(rt, rows.as_slice()),
        Err(refusal) => show_refusal(rt, catalogue, refusal),
    }
}

// The name that the refusal of a statement is about, if it is that of a table that isn't there.
fn show_name(
    rt: &HostRuntime,
    catalogue: &Catalogue,
    statement: &Statement,
    outcome: &Outcome,
) -> io::Result<()> {
    let Err(refusal) = outcome else {
        return Ok(());
    };
    match name_fault(rt.alloc(), catalogue, statement, &refusal.cause) {
        Some(NameFault::Unknown(NamedItem::Table(name))) => println!(rt; "no table {name}"),
        _ => Ok(()),
    }
}

/// What a statement answers, and the name that its refusal is about.
pub fn show_answer(
    rt: &HostRuntime,
    catalogue: &Catalogue,
    statement: &Statement,
    outcome: &Outcome,
) -> io::Result<()> {
    show_outcome(rt, catalogue, outcome)?;
    show_name(rt, catalogue, statement, outcome)
}

// An entry of an account.
fn show_entry(rt: &HostRuntime, catalogue: &Catalogue, entry: &Entry) -> io::Result<()> {
    match entry {
        Entry::Changed(changes) => println!(rt; "rows that changed: {}", changes.len()),
        Entry::Acted(actions) => println!(rt;
            "rows on which a foreign key acts: {}",
            actions.len()
        ),
        Entry::Ran(trigger, _) => println!(rt; "trigger {} runs", trigger.place()),
        Entry::Skipped(trigger, _) => println!(rt; "trigger {} is skipped", trigger.place()),
        Entry::Began(place) => println!(rt; "statement {place} of it begins"),
        Entry::Ended => println!(rt; "it ends"),
        Entry::Faulted(fault, _) => show_fault(rt, catalogue, fault),
        Entry::Disagreed(fault, _, _) => show_fault(rt, catalogue, fault),
        Entry::Failed(_) => println!(rt; "a number is out of range, or a text is too long"),
        Entry::Standing(names) => println!(rt; "savepoints that stand: {}", names.len()),
        Entry::NotAdded(constraint, _) => println!(rt; "{} isn't added", constraint.name.as_str()),
    }
}

/// What happened in a statement.
pub fn show_account(rt: &HostRuntime, catalogue: &Catalogue, entries: &[Entry]) -> io::Result<()> {
    for entry in entries {
        show_entry(rt, catalogue, entry)?;
    }
    Ok(())
}
