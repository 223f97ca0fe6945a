//! The text of an outcome.
ghost use Rattle.std.specs.Prelude.{◌≡◌, ℕ, ◌++◌, length, slice_get, codes};
ghost use Rattle.std.specs.List.{flat_map};
ghost use Rattle.iv_value.specs.References.{value_of};
ghost use Rattle.iv_catalogue.specs.Catalogues.{trigger_numbered};
ghost use Rattle.iv_text.specs.Writing.{Writes};
ghost use Rattle.iv_text.specs.Lines.{quote_doubled, value_text, further_text, values_text, row_text, name_of, constraint_text, row_number_text, fault_text, trigger_text, body_statement, signal_text, signal_details, cause_words, details, inside_trigger, inside_text, answer_rows, answer_text, refusal_text, first_line, row_lines, line};

use crate::device::{DeviceFault, Sink};
use crate::names::{constraint_in, trigger_in};
use crate::write::{write_all, write_nothing, write_number};
use itoa::Buffer;
use iv_catalogue::{
    BodyStatement, Catalogue, Cause, Constraint, ConstraintId, Fault, Refusal, TriggerId,
};
use iv_expr::Row;
use iv_machine::Answer;
use iv_value::{Value, ValueRef};

fn write_byte<W: Sink>(sink: &mut W, byte: u8) -> Result<(), DeviceFault>
    ensures { Writes (W.state sink.old) (W.state sink.new) result (quote_doubled byte) }
{
    if byte == b'\'' {
        write_all(sink, b"''")
    } else {
        write_all(sink, &[byte])
    }
}

// The characters with each quote doubled.
#[tactic(auto, using(crate::proofs::WriteLemmas::writes_then))]
fn write_characters<W: Sink>(sink: &mut W, bytes: &[u8]) -> Result<(), DeviceFault>
    ensures { Writes (W.state sink.old) (W.state sink.new) result
        (flat_map quote_doubled bytes.now) }
{
    let mut rest = bytes;
    while let Some((byte, others)) = rest.split_first() {
        write_byte(sink, *byte)?;
        rest = others;
    }
    Ok(())
}

#[tactic(auto, using(crate::proofs::WriteLemmas::writes_then))]
fn write_text<W: Sink>(sink: &mut W, text: &str) -> Result<(), DeviceFault>
    ensures { Writes (W.state sink.old) (W.state sink.new) result
        (codes "'" ++ (flat_map quote_doubled text.now ++ codes "'")) }
{
    write_all(sink, b"'")?;
    write_characters(sink, text.as_bytes())?;
    write_all(sink, b"'")
}

/// Writes a value as it stands in an outcome: NULL, a number, or a text in its quotes.
pub fn write_borrowed<W: Sink>(sink: &mut W, value: ValueRef<'_>) -> Result<(), DeviceFault>
    ensures { Writes (W.state sink.old) (W.state sink.new) result
        (value_text (value_of value.entry)) }
{
    match value {
        ValueRef::Null => write_all(sink, b"NULL"),
        ValueRef::Int(number) => {
            let mut buffer = Buffer::new();
            write_all(sink, buffer.format(number).as_bytes())
        }
        ValueRef::Text(text) => write_text(sink, text.as_str()),
    }
}

/// A value as text.
pub fn write_value<W: Sink>(sink: &mut W, value: &Value) -> Result<(), DeviceFault>
    ensures { Writes (W.state sink.old) (W.state sink.new) result (value_text value.now) }
{
    write_borrowed(sink, value.as_ref())
}

#[tactic(auto, using(crate::proofs::WriteLemmas::writes_then))]
fn write_further<W: Sink>(sink: &mut W, value: &Value) -> Result<(), DeviceFault>
    ensures { Writes (W.state sink.old) (W.state sink.new) result (further_text value.now) }
{
    write_all(sink, b", ")?;
    write_value(sink, value)
}

// Further values, each with its comma.
#[tactic(auto, using(crate::proofs::WriteLemmas::writes_then))]
fn write_more<W: Sink>(sink: &mut W, values: &[Value]) -> Result<(), DeviceFault>
    ensures { Writes (W.state sink.old) (W.state sink.new) result
        (flat_map further_text values.now) }
{
    let mut rest = values;
    while let Some((value, others)) = rest.split_first() {
        write_further(sink, value)?;
        rest = others;
    }
    Ok(())
}

/// Writes values with a comma and a space between two.
#[tactic(auto, using(crate::proofs::WriteLemmas::writes_then))]
pub fn write_values<W: Sink>(sink: &mut W, values: &[Value]) -> Result<(), DeviceFault>
    ensures { Writes (W.state sink.old) (W.state sink.new) result (values_text values.now) }
{
    match values {
        [] => write_nothing(sink),
        [value, more @ ..] => {
            write_value(sink, value)?;
            write_more(sink, more)
        }
    }
}

#[tactic(auto, using(crate::proofs::WriteLemmas::writes_then))]
fn write_row<W: Sink>(sink: &mut W, row: &Row) -> Result<(), DeviceFault>
    ensures { Writes (W.state sink.old) (W.state sink.new) result (row_text row.now) }
{
    write_all(sink, b"| ")?;
    write_values(sink, row.values())?;
    write_all(sink, b"\n")
}

#[tactic(auto, using(crate::proofs::WriteLemmas::writes_then))]
fn write_rows<W: Sink>(sink: &mut W, rows: &[Row]) -> Result<(), DeviceFault>
    ensures { Writes (W.state sink.old) (W.state sink.new) result (flat_map row_text rows.now) }
{
    let mut rest = rows;
    while let Some((row, others)) = rest.split_first() {
        write_row(sink, row)?;
        rest = others;
    }
    Ok(())
}

/// Writes the name of the constraint with this number.
pub fn write_name<W: Sink>(
    sink: &mut W,
    constraints: &[Constraint],
    id: ConstraintId,
) -> Result<(), DeviceFault>
    ensures { Writes (W.state sink.old) (W.state sink.new) result
        (name_of (slice_get constraints.now id)) }
{
    write_all(sink, constraint_in(constraints, id).as_bytes())
}

#[tactic(auto, using(crate::proofs::WriteLemmas::writes_then))]
fn write_constraint<W: Sink>(
    sink: &mut W,
    catalogue: &Catalogue,
    id: ConstraintId,
) -> Result<(), DeviceFault>
    ensures { Writes (W.state sink.old) (W.state sink.new) result
        (constraint_text catalogue.now id) }
{
    write_all(sink, b" ")?;
    write_name(sink, catalogue.constraints(), id)
}

/// Writes ` row ` and the number of a row.
#[tactic(auto, using(crate::proofs::WriteLemmas::writes_then))]
pub fn write_row_number<W: Sink>(sink: &mut W, row: u64) -> Result<(), DeviceFault>
    ensures { Writes (W.state sink.old) (W.state sink.new) result (row_number_text row) }
{
    write_all(sink, b" row ")?;
    write_number(sink, row)
}

#[tactic(auto, using(crate::proofs::WriteLemmas::writes_then))]
fn write_fault<W: Sink>(
    sink: &mut W,
    catalogue: &Catalogue,
    fault: Fault,
) -> Result<(), DeviceFault>
    ensures { Writes (W.state sink.old) (W.state sink.new) result (fault_text catalogue.now fault) }
{
    write_constraint(sink, catalogue, fault.constraint)?;
    write_row_number(sink, fault.row)
}

/// The number and the name of a cause, as a transcript has them.
pub fn cause_words(cause: &Cause) -> &'static str
    ensures { result.now ≡ cause_words cause.now }
{
    match cause {
        Cause::Unknown => "1 Unknown",
        Cause::Duplicate => "2 Duplicate",
        Cause::SchemaFault => "3 SchemaFault",
        Cause::InTransaction => "4 InTransaction",
        Cause::NoTransaction => "5 NoTransaction",
        Cause::ActiveTransaction => "6 ActiveTransaction",
        Cause::UnknownSavepoint => "7 UnknownSavepoint",
        Cause::NotDeferrable(_) => "8 NotDeferrable",
        Cause::WrongShape => "9 WrongShape",
        Cause::NumberOutOfRange => "10 NumberOutOfRange",
        Cause::TextTooLong => "11 TextTooLong",
        Cause::Restrict(_) => "12 Restrict",
        Cause::Violation(_) => "13 Violation",
        Cause::ActionConflict(_) => "14 ActionConflict",
        Cause::Signal(_, _) => "15 Signal",
        Cause::DepthLimit(_) => "16 DepthLimit",
        Cause::TooManyChanges => "17 TooManyChanges",
        Cause::TransactionTooLarge => "18 TransactionTooLarge",
        Cause::CommitRefused(_) => "19 CommitRefused",
        Cause::AddRefused(_) => "20 AddRefused",
        Cause::Limit => "21 Limit",
        Cause::OutOfMemory => "22 OutOfMemory",
    }
}

/// Writes a space and the name of the trigger with this number.
#[tactic(auto, using(crate::proofs::WriteLemmas::writes_then))]
pub fn write_trigger<W: Sink>(
    sink: &mut W,
    catalogue: &Catalogue,
    id: TriggerId,
) -> Result<(), DeviceFault>
    ensures { Writes (W.state sink.old) (W.state sink.new) result (trigger_text catalogue.now id) }
{
    write_all(sink, b" ")?;
    write_all(sink, trigger_in(catalogue, id).as_bytes())
}

/// The text of the SIGNAL at this place of a trigger's body, from 1; none where there is no SIGNAL.
pub fn signal_text(catalogue: &Catalogue, id: TriggerId, place: u32) -> &str
    ensures { result.now ≡
        signal_text (body_statement (trigger_numbered catalogue.now id) place) }
{
    let Some(trigger) = catalogue.trigger(id) else {
        return "";
    };
    match trigger
        .body
        .as_slice()
        .get((place as usize).saturating_sub(1))
    {
        Some(BodyStatement::Signal(text)) => text.as_str(),
        _ => "",
    }
}

// The trigger of a SIGNAL and its text.
#[tactic(auto, using(crate::proofs::WriteLemmas::writes_then))]
fn write_signal<W: Sink>(
    sink: &mut W,
    catalogue: &Catalogue,
    id: TriggerId,
    place: u32,
) -> Result<(), DeviceFault>
    ensures { Writes (W.state sink.old) (W.state sink.new) result
        (signal_details catalogue.now id place) }
{
    write_trigger(sink, catalogue, id)?;
    write_all(sink, b" ")?;
    write_text(sink, signal_text(catalogue, id, place))
}

// The constraint, the row or the trigger that a cause speaks of.
fn write_details<W: Sink>(
    sink: &mut W,
    catalogue: &Catalogue,
    cause: &Cause,
) -> Result<(), DeviceFault>
    ensures { Writes (W.state sink.old) (W.state sink.new) result
        (details catalogue.now cause.now) }
{
    match cause {
        Cause::NotDeferrable(id) => write_constraint(sink, catalogue, *id),
        Cause::Restrict(fault) => write_fault(sink, catalogue, *fault),
        Cause::Violation(fault) => write_fault(sink, catalogue, *fault),
        Cause::ActionConflict(fault) => write_fault(sink, catalogue, *fault),
        Cause::CommitRefused(fault) => write_fault(sink, catalogue, *fault),
        Cause::Signal(id, place) => write_signal(sink, catalogue, *id, *place),
        Cause::DepthLimit(id) => write_trigger(sink, catalogue, *id),
        Cause::AddRefused(row) => write_row_number(sink, *row),
        _ => write_nothing(sink),
    }
}

#[tactic(auto, using(crate::proofs::WriteLemmas::writes_then))]
fn write_inside_trigger<W: Sink>(
    sink: &mut W,
    catalogue: &Catalogue,
    trigger: Option<TriggerId>,
) -> Result<(), DeviceFault>
    ensures { Writes (W.state sink.old) (W.state sink.new) result
        (inside_trigger catalogue.now trigger) }
{
    match trigger {
        Some(id) => {
            write_all(sink, b" in")?;
            write_trigger(sink, catalogue, id)
        }
        None => write_nothing(sink),
    }
}

// The innermost trigger that was running, for every cause that doesn't speak of a trigger itself.
fn write_inside<W: Sink>(
    sink: &mut W,
    catalogue: &Catalogue,
    cause: &Cause,
    trigger: Option<TriggerId>,
) -> Result<(), DeviceFault>
    ensures { Writes (W.state sink.old) (W.state sink.new) result
        (inside_text catalogue.now cause.now trigger) }
{
    match cause {
        Cause::Signal(_, _) | Cause::DepthLimit(_) => write_nothing(sink),
        _ => write_inside_trigger(sink, catalogue, trigger),
    }
}

#[tactic(auto, using(crate::proofs::WriteLemmas::writes_then))]
fn write_refusal<W: Sink>(
    sink: &mut W,
    catalogue: &Catalogue,
    refusal: &Refusal,
) -> Result<(), DeviceFault>
    ensures { Writes (W.state sink.old) (W.state sink.new) result
        (refusal_text catalogue.now refusal.now) }
{
    write_all(sink, b" refused ")?;
    write_all(sink, cause_words(&refusal.cause).as_bytes())?;
    write_details(sink, catalogue, &refusal.cause)?;
    write_inside(sink, catalogue, &refusal.cause, refusal.trigger)?;
    write_all(sink, b"\n")
}

#[tactic(auto, using(crate::proofs::WriteLemmas::writes_then))]
fn write_answer<W: Sink>(sink: &mut W, answer: &Answer) -> Result<(), DeviceFault>
    ensures { Writes (W.state sink.old) (W.state sink.new) result (answer_text answer.now) }
{
    match answer {
        Answer::Done => write_all(sink, b" ok\n"),
        Answer::Changed(count) => {
            write_all(sink, b" ok ")?;
            write_number(sink, *count)?;
            write_all(sink, b"\n")
        }
        Answer::Rows(rows) => {
            write_all(sink, b" rows ")?;
            write_number(sink, rows.len() as u64)?;
            write_all(sink, b"\n")
        }
    }
}

fn write_answer_rows<W: Sink>(sink: &mut W, answer: &Answer) -> Result<(), DeviceFault>
    ensures { Writes (W.state sink.old) (W.state sink.new) result (answer_rows answer.now) }
{
    match answer {
        Answer::Rows(rows) => write_rows(sink, rows.as_slice()),
        _ => write_nothing(sink),
    }
}

/// Writes the first line of the outcome of statement `number`, a place in the script from 1, with the names of
/// constraints and triggers as the catalogue has them. It takes no memory.
#[tactic(auto, using(crate::proofs::WriteLemmas::writes_then))]
pub fn write_first_line<W: Sink>(
    sink: &mut W,
    number: u64,
    outcome: &Result<Answer, Refusal>,
    catalogue: &Catalogue,
) -> Result<(), DeviceFault>
    ensures { Writes (W.state sink.old) (W.state sink.new) result
        (first_line number outcome.now catalogue.now) }
{
    write_number(sink, number)?;
    match outcome {
        Ok(answer) => write_answer(sink, answer),
        Err(refusal) => write_refusal(sink, catalogue, refusal),
    }
}

/// Writes the lines of the rows that a query gives, which follow its first line; nothing for any other outcome. It takes
/// no memory.
pub fn write_row_lines<W: Sink>(
    sink: &mut W,
    outcome: &Result<Answer, Refusal>,
) -> Result<(), DeviceFault>
    ensures { Writes (W.state sink.old) (W.state sink.new) result (row_lines outcome.now) }
{
    match outcome {
        Ok(answer) => write_answer_rows(sink, answer),
        Err(_) => write_nothing(sink),
    }
}

/// Writes the lines of the outcome of statement `number`: the first one, and those of the rows of a query. It takes no
/// memory.
#[tactic(auto, using(crate::proofs::WriteLemmas::writes_then))]
pub fn write_outcome<W: Sink>(
    sink: &mut W,
    number: u64,
    outcome: &Result<Answer, Refusal>,
    catalogue: &Catalogue,
) -> Result<(), DeviceFault>
    ensures { Writes (W.state sink.old) (W.state sink.new) result
        (line number outcome.now catalogue.now) }
{
    write_first_line(sink, number, outcome, catalogue)?;
    write_row_lines(sink, outcome)
}
