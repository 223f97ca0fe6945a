//! Violations of deferred constraints that came and went.
ghost use Rattle.std.specs.Prelude.{◌++◌, codes, slice_get, Ok};
ghost use Rattle.std.specs.List.{flat_map};
ghost use Rattle.std.specs.Option.{option_copied};
ghost use Rattle.iv_machine.specs.declared.answer.Answer.TheVariants.{Done};
ghost use Rattle.iv_text.specs.Rules.{described_text};
ghost use Rattle.iv_print.specs.AccountLines.{fault_rows_text};
ghost use Rattle.iv_text.specs.Json.{member};
ghost use Rattle.iv_print.specs.JsonAccounts.{entry_list};
ghost use Rattle.iv_print.specs.PendingLines.{came_line, came_member, further_went, pending_lines, pending_members, row_of_members, row_of_text, went_line, went_member, went_object, went_objects};
ghost use Rattle.iv_text.specs.Writing.{Writes};

use crate::account::{write_fault_rows, write_numbered};
use crate::json_account::{write_entry_list, write_place};
use crate::json_rule::write_asked;
use iv_account::Entry;
use iv_catalogue::{Catalogue, Constraint, ConstraintId, Fault, Refusal};
use iv_expr::StoredRow;
use iv_machine::Answer;
use iv_text::json::{write_key, write_member, write_name as write_json_name};
use iv_text::{DeviceFault, Sink, write_all, write_described, write_nothing};

// ---- in words

// The first of the rows, and what is wrong with it.
fn write_rows<W: Sink>(
    sink: &mut W,
    catalogue: &Catalogue,
    constraint: ConstraintId,
    rows: &[StoredRow],
) -> Result<(), DeviceFault>
    ensures { Writes (W.state sink.old) (W.state sink.new) result
        (fault_rows_text catalogue.now (Ok Done) (slice_get catalogue.now.constraints constraint) rows.now) }
{
    let accepted: Result<Answer, Refusal> = Ok(Answer::Done);
    let written = write_fault_rows(sink, catalogue, &accepted, constraint, rows);
    drop(accepted);
    written
}

#[tactic(auto, using(iv_text::proofs::WriteLemmas::writes_then))]
fn write_violation<W: Sink>(
    sink: &mut W,
    catalogue: &Catalogue,
    constraint: ConstraintId,
    rows: &[StoredRow],
) -> Result<(), DeviceFault>
    ensures { Writes (W.state sink.old) (W.state sink.new) result
        (codes "  now pending "
        ++ (described_text catalogue.now (slice_get catalogue.now.constraints constraint)
        ++ (codes ": "
        ++ (fault_rows_text catalogue.now (Ok Done) (slice_get catalogue.now.constraints constraint) rows.now
        ++ codes "\n")))) }
{
    write_all(sink, b"  now pending ")?;
    write_described(sink, catalogue, constraint)?;
    write_all(sink, b": ")?;
    write_rows(sink, catalogue, constraint, rows)?;
    write_all(sink, b"\n")
}

fn write_came<W: Sink>(
    sink: &mut W,
    catalogue: &Catalogue,
    entry: &Entry,
) -> Result<(), DeviceFault>
    ensures { Writes (W.state sink.old) (W.state sink.new) result (came_line catalogue.now entry.now) }
{
    match entry {
        Entry::Faulted(fault, rows) => {
            write_violation(sink, catalogue, fault.constraint, rows.as_slice())
        }
        _ => write_nothing(sink),
    }
}

#[tactic(auto, using(iv_text::proofs::WriteLemmas::writes_then))]
fn write_all_came<W: Sink>(
    sink: &mut W,
    catalogue: &Catalogue,
    entries: &[Entry],
) -> Result<(), DeviceFault>
    ensures { Writes (W.state sink.old) (W.state sink.new) result
        (flat_map (came_line catalogue.now) entries.now) }
{
    let mut rest = entries;
    while let Some((entry, others)) = rest.split_first() {
        write_came(sink, catalogue, entry)?;
        rest = others;
    }
    Ok(())
}

// The row of a constraint's table with this number.
fn write_row_of<W: Sink>(
    sink: &mut W,
    catalogue: &Catalogue,
    constraint: Option<&Constraint>,
    row: u64,
) -> Result<(), DeviceFault>
    ensures { Writes (W.state sink.old) (W.state sink.new) result
        (row_of_text catalogue.now (option_copied constraint.entry) row) }
{
    match constraint {
        Some(constraint) => write_numbered(sink, catalogue, constraint.table, row),
        None => write_nothing(sink),
    }
}

fn write_row_at<W: Sink>(
    sink: &mut W,
    catalogue: &Catalogue,
    constraint: ConstraintId,
    row: u64,
) -> Result<(), DeviceFault>
    ensures { Writes (W.state sink.old) (W.state sink.new) result
        (row_of_text catalogue.now (slice_get catalogue.now.constraints constraint) row) }
{
    write_row_of(sink, catalogue, catalogue.constraint(constraint), row)
}

#[tactic(auto, using(iv_text::proofs::WriteLemmas::writes_then))]
fn write_went<W: Sink>(
    sink: &mut W,
    catalogue: &Catalogue,
    fault: &Fault,
) -> Result<(), DeviceFault>
    ensures { Writes (W.state sink.old) (W.state sink.new) result (went_line catalogue.now fault.now) }
{
    write_all(sink, b"  no longer pending ")?;
    write_described(sink, catalogue, fault.constraint)?;
    write_all(sink, b": ")?;
    write_row_at(sink, catalogue, fault.constraint, fault.row)?;
    write_all(sink, b"\n")
}

#[tactic(auto, using(iv_text::proofs::WriteLemmas::writes_then))]
fn write_all_went<W: Sink>(
    sink: &mut W,
    catalogue: &Catalogue,
    faults: &[Fault],
) -> Result<(), DeviceFault>
    ensures { Writes (W.state sink.old) (W.state sink.new) result
        (flat_map (went_line catalogue.now) faults.now) }
{
    let mut rest = faults;
    while let Some((fault, others)) = rest.split_first() {
        write_went(sink, catalogue, fault)?;
        rest = others;
    }
    Ok(())
}

/// Writes the lines of the violations that came, and then of those that went. It takes no memory.
#[tactic(auto, using(iv_text::proofs::WriteLemmas::writes_then))]
pub fn write_pending_lines<W: Sink>(
    sink: &mut W,
    catalogue: &Catalogue,
    came: &[Entry],
    went: &[Fault],
) -> Result<(), DeviceFault>
    ensures { Writes (W.state sink.old) (W.state sink.new) result
        (pending_lines catalogue.now came.now went.now) }
{
    write_all_came(sink, catalogue, came)?;
    write_all_went(sink, catalogue, went)
}

// ---- in JSON

fn write_entries<W: Sink>(
    sink: &mut W,
    catalogue: &Catalogue,
    entries: &[Entry],
) -> Result<(), DeviceFault>
    ensures { Writes (W.state sink.old) (W.state sink.new) result
        (entry_list catalogue.now (Ok Done) entries.now) }
{
    let accepted: Result<Answer, Refusal> = Ok(Answer::Done);
    let written = write_entry_list(sink, catalogue, &accepted, entries);
    drop(accepted);
    written
}

#[tactic(auto, using(iv_text::proofs::WriteLemmas::writes_then))]
fn write_came_member<W: Sink>(
    sink: &mut W,
    catalogue: &Catalogue,
    entries: &[Entry],
) -> Result<(), DeviceFault>
    ensures { Writes (W.state sink.old) (W.state sink.new) result
        (came_member catalogue.now entries.now) }
{
    match entries {
        [] => write_nothing(sink),
        [_, ..] => {
            write_member(sink, b"now_pending")?;
            write_entries(sink, catalogue, entries)
        }
    }
}

fn write_row_members<W: Sink>(
    sink: &mut W,
    catalogue: &Catalogue,
    constraint: Option<&Constraint>,
    row: u64,
) -> Result<(), DeviceFault>
    ensures { Writes (W.state sink.old) (W.state sink.new) result
        (row_of_members catalogue.now (option_copied constraint.entry) row) }
{
    match constraint {
        Some(constraint) => write_place(sink, catalogue, constraint.table, row),
        None => write_nothing(sink),
    }
}

#[tactic(auto, using(iv_text::proofs::WriteLemmas::writes_then))]
fn write_went_object<W: Sink>(
    sink: &mut W,
    catalogue: &Catalogue,
    fault: &Fault,
) -> Result<(), DeviceFault>
    ensures { Writes (W.state sink.old) (W.state sink.new) result
        (went_object catalogue.now fault.now) }
{
    write_all(sink, b"{")?;
    write_key(sink, b"constraint")?;
    write_json_name(sink, catalogue.constraints(), fault.constraint)?;
    write_asked(sink, catalogue, fault.constraint)?;
    write_row_members(
        sink,
        catalogue,
        catalogue.constraint(fault.constraint),
        fault.row,
    )?;
    write_all(sink, b"}")
}

#[tactic(auto, using(iv_text::proofs::WriteLemmas::writes_then))]
fn write_further_went<W: Sink>(
    sink: &mut W,
    catalogue: &Catalogue,
    fault: &Fault,
) -> Result<(), DeviceFault>
    ensures { Writes (W.state sink.old) (W.state sink.new) result
        (further_went catalogue.now fault.now) }
{
    write_all(sink, b",")?;
    write_went_object(sink, catalogue, fault)
}

#[tactic(auto, using(iv_text::proofs::WriteLemmas::writes_then))]
fn write_more_went<W: Sink>(
    sink: &mut W,
    catalogue: &Catalogue,
    faults: &[Fault],
) -> Result<(), DeviceFault>
    ensures { Writes (W.state sink.old) (W.state sink.new) result
        (flat_map (further_went catalogue.now) faults.now) }
{
    let mut rest = faults;
    while let Some((fault, others)) = rest.split_first() {
        write_further_went(sink, catalogue, fault)?;
        rest = others;
    }
    Ok(())
}

#[tactic(auto, using(iv_text::proofs::WriteLemmas::writes_then))]
fn write_went_objects<W: Sink>(
    sink: &mut W,
    catalogue: &Catalogue,
    faults: &[Fault],
) -> Result<(), DeviceFault>
    ensures { Writes (W.state sink.old) (W.state sink.new) result
        (went_objects catalogue.now faults.now) }
{
    match faults {
        [] => write_nothing(sink),
        [fault, more @ ..] => {
            write_went_object(sink, catalogue, fault)?;
            write_more_went(sink, catalogue, more)
        }
    }
}

#[tactic(auto, using(iv_text::proofs::WriteLemmas::writes_then))]
fn write_went_list<W: Sink>(
    sink: &mut W,
    catalogue: &Catalogue,
    faults: &[Fault],
) -> Result<(), DeviceFault>
    ensures { Writes (W.state sink.old) (W.state sink.new) result
        (member (codes "no_longer_pending") ++ (codes "[" ++ (went_objects catalogue.now faults.now ++ codes "]"))) }
{
    write_member(sink, b"no_longer_pending")?;
    write_all(sink, b"[")?;
    write_went_objects(sink, catalogue, faults)?;
    write_all(sink, b"]")
}

fn write_went_member<W: Sink>(
    sink: &mut W,
    catalogue: &Catalogue,
    faults: &[Fault],
) -> Result<(), DeviceFault>
    ensures { Writes (W.state sink.old) (W.state sink.new) result
        (went_member catalogue.now faults.now) }
{
    match faults {
        [] => write_nothing(sink),
        [_, ..] => write_went_list(sink, catalogue, faults),
    }
}

/// Writes the members of the violations that came and of those that went; none if there are none. It takes no memory.
#[tactic(auto, using(iv_text::proofs::WriteLemmas::writes_then))]
pub fn write_pending_members<W: Sink>(
    sink: &mut W,
    catalogue: &Catalogue,
    came: &[Entry],
    went: &[Fault],
) -> Result<(), DeviceFault>
    ensures { Writes (W.state sink.old) (W.state sink.new) result
        (pending_members catalogue.now came.now went.now) }
{
    write_came_member(sink, catalogue, came)?;
    write_went_member(sink, catalogue, went)
}
