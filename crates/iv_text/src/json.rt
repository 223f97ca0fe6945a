//! An outcome as JSON.
ghost use Rattle.std.specs.Prelude.{◌≡◌, ◌<◌, ◌-◌, ◌++◌, ◌∷◌, [], codes, decimal, slice_get};
ghost use Rattle.std.specs.List.{flat_map};
ghost use Rattle.iv_value.specs.References.{value_of};
ghost use Rattle.iv_catalogue.specs.Catalogues.{trigger_numbered};
ghost use Rattle.iv_text.specs.Writing.{Writes};
ghost use Rattle.iv_text.specs.Causes.{constraint_of, or_inside, trigger_of};
ghost use Rattle.iv_text.specs.Lines.{body_statement, name_of, signal_text, trigger_name};
ghost use Rattle.iv_text.specs.Json.{answer_members, cause_members, constraint_member, detail_members, escaped, further_row, further_value, hex_digit, json_row, json_rows, json_text, json_value, json_values, key, kind_member, member, outcome_members, refusal_members, row_member, row_number_member, signal_member, trigger_member};

use crate::cause::{cause_name, cause_number, constraint_of, trigger_of};
use crate::device::{DeviceFault, Sink};
use crate::names::{constraint_in, trigger_in};
use crate::outcome::signal_text;
use crate::write::{write_all, write_nothing, write_number};
use itoa::Buffer;
use iv_catalogue::{Catalogue, Cause, Constraint, ConstraintId, Refusal, TriggerId};
use iv_expr::Row;
use iv_machine::Answer;
use iv_value::{Value, ValueRef};

fn hex_digit(digit: u8) -> u8
    requires { digit < 16 }
    ensures { result ≡ hex_digit digit }
{
    if digit < 10 { digit + 48 } else { digit + 87 }
}

fn write_escaped<W: Sink>(sink: &mut W, byte: u8) -> Result<(), DeviceFault>
    ensures { Writes (W.state sink.old) (W.state sink.new) result (escaped byte) }
{
    if byte == b'"' || byte == b'\\' {
        write_all(sink, &[b'\\', byte])
    } else if byte < 16 {
        write_all(sink, &[b'\\', b'u', b'0', b'0', b'0', hex_digit(byte)])
    } else if byte < 32 {
        write_all(sink, &[b'\\', b'u', b'0', b'0', b'1', hex_digit(byte - 16)])
    } else {
        write_all(sink, &[byte])
    }
}

/// Writes the bytes of a text as they stand between its quotes in JSON.
#[tactic(auto, using(crate::proofs::WriteLemmas::writes_then))]
pub fn write_json_bytes<W: Sink>(sink: &mut W, bytes: &[u8]) -> Result<(), DeviceFault>
    ensures { Writes (W.state sink.old) (W.state sink.new) result (flat_map escaped bytes.now) }
{
    let mut rest = bytes;
    while let Some((byte, others)) = rest.split_first() {
        write_escaped(sink, *byte)?;
        rest = others;
    }
    Ok(())
}

/// Writes a text as JSON, in its quotes.
#[tactic(auto, using(crate::proofs::WriteLemmas::writes_then), unfolding(crate::specs::Json::json_text))]
pub fn write_json_text<W: Sink>(sink: &mut W, text: &[u8]) -> Result<(), DeviceFault>
    ensures { Writes (W.state sink.old) (W.state sink.new) result (json_text text.now) }
{
    write_all(sink, b"\"")?;
    write_json_bytes(sink, text)?;
    write_all(sink, b"\"")
}

/// Writes the name of the first member of an object. The name needs no escape.
#[tactic(auto, using(crate::proofs::WriteLemmas::writes_then), unfolding(crate::specs::Json::key))]
pub fn write_key<W: Sink>(sink: &mut W, name: &[u8]) -> Result<(), DeviceFault>
    ensures { Writes (W.state sink.old) (W.state sink.new) result (key name.now) }
{
    write_all(sink, b"\"")?;
    write_all(sink, name)?;
    write_all(sink, b"\":")
}

/// Writes the name of a further member of an object. The name needs no escape.
#[tactic(auto, using(crate::proofs::WriteLemmas::writes_then), unfolding(crate::specs::Json::member))]
pub fn write_member<W: Sink>(sink: &mut W, name: &[u8]) -> Result<(), DeviceFault>
    ensures { Writes (W.state sink.old) (W.state sink.new) result (member name.now) }
{
    write_all(sink, b",\"")?;
    write_all(sink, name)?;
    write_all(sink, b"\":")
}

/// Writes a member that is a text. The name needs no escape.
#[tactic(auto, using(crate::proofs::WriteLemmas::writes_then))]
pub fn write_text_member<W: Sink>(sink: &mut W, name: &[u8], text: &[u8]) -> Result<(), DeviceFault>
    ensures { Writes (W.state sink.old) (W.state sink.new) result
        (member name.now ++ json_text text.now) }
{
    write_member(sink, name)?;
    write_json_text(sink, text)
}

/// Writes a member that is a number. The name needs no escape.
#[tactic(auto, using(crate::proofs::WriteLemmas::writes_then))]
pub fn write_number_member<W: Sink>(
    sink: &mut W,
    name: &[u8],
    number: u64,
) -> Result<(), DeviceFault>
    ensures { Writes (W.state sink.old) (W.state sink.new) result
        (member name.now ++ decimal number) }
{
    write_member(sink, name)?;
    write_number(sink, number)
}

/// Writes a value as JSON: null, a number or a text.
pub fn write_borrowed<W: Sink>(sink: &mut W, value: ValueRef<'_>) -> Result<(), DeviceFault>
    ensures { Writes (W.state sink.old) (W.state sink.new) result
        (json_value (value_of value.entry)) }
{
    match value {
        ValueRef::Null => write_all(sink, b"null"),
        ValueRef::Int(number) => {
            let mut buffer = Buffer::new();
            write_all(sink, buffer.format(number).as_bytes())
        }
        ValueRef::Text(text) => write_json_text(sink, text.as_str().as_bytes()),
    }
}

/// A value as JSON.
pub fn write_value<W: Sink>(sink: &mut W, value: &Value) -> Result<(), DeviceFault>
    ensures { Writes (W.state sink.old) (W.state sink.new) result (json_value value.now) }
{
    write_borrowed(sink, value.as_ref())
}

#[tactic(auto, using(crate::proofs::WriteLemmas::writes_then))]
fn write_further<W: Sink>(sink: &mut W, value: &Value) -> Result<(), DeviceFault>
    ensures { Writes (W.state sink.old) (W.state sink.new) result (further_value value.now) }
{
    write_all(sink, b",")?;
    write_value(sink, value)
}

// Further values, each after a comma.
#[tactic(auto, using(crate::proofs::WriteLemmas::writes_then))]
fn write_more<W: Sink>(sink: &mut W, values: &[Value]) -> Result<(), DeviceFault>
    ensures { Writes (W.state sink.old) (W.state sink.new) result
        (flat_map further_value values.now) }
{
    let mut rest = values;
    while let Some((value, others)) = rest.split_first() {
        write_further(sink, value)?;
        rest = others;
    }
    Ok(())
}

#[tactic(auto, using(crate::proofs::WriteLemmas::writes_then))]
fn write_values<W: Sink>(sink: &mut W, values: &[Value]) -> Result<(), DeviceFault>
    ensures { Writes (W.state sink.old) (W.state sink.new) result (json_values values.now) }
{
    match values {
        [] => write_nothing(sink),
        [value, more @ ..] => {
            write_value(sink, value)?;
            write_more(sink, more)
        }
    }
}

/// The array of a row's values.
#[tactic(auto, using(crate::proofs::WriteLemmas::writes_then))]
pub fn write_row<W: Sink>(sink: &mut W, values: &[Value]) -> Result<(), DeviceFault>
    ensures { Writes (W.state sink.old) (W.state sink.new) result (json_row values.now) }
{
    write_all(sink, b"[")?;
    write_values(sink, values)?;
    write_all(sink, b"]")
}

#[tactic(auto, using(crate::proofs::WriteLemmas::writes_then))]
fn write_further_row<W: Sink>(sink: &mut W, row: &Row) -> Result<(), DeviceFault>
    ensures { Writes (W.state sink.old) (W.state sink.new) result (further_row row.now) }
{
    write_all(sink, b",")?;
    write_row(sink, row.values())
}

// Further rows, each after a comma.
#[tactic(auto, using(crate::proofs::WriteLemmas::writes_then))]
fn write_more_rows<W: Sink>(sink: &mut W, rows: &[Row]) -> Result<(), DeviceFault>
    ensures { Writes (W.state sink.old) (W.state sink.new) result (flat_map further_row rows.now) }
{
    let mut rest = rows;
    while let Some((row, others)) = rest.split_first() {
        write_further_row(sink, row)?;
        rest = others;
    }
    Ok(())
}

#[tactic(auto, using(crate::proofs::WriteLemmas::writes_then))]
fn write_rows<W: Sink>(sink: &mut W, rows: &[Row]) -> Result<(), DeviceFault>
    ensures { Writes (W.state sink.old) (W.state sink.new) result (json_rows rows.now) }
{
    match rows {
        [] => write_nothing(sink),
        [row, more @ ..] => {
            write_row(sink, row.values())?;
            write_more_rows(sink, more)
        }
    }
}

#[tactic(auto, using(crate::proofs::WriteLemmas::writes_then))]
fn write_cause<W: Sink>(sink: &mut W, cause: &Cause) -> Result<(), DeviceFault>
    ensures { Writes (W.state sink.old) (W.state sink.new) result (cause_members cause.now) }
{
    write_member(sink, b"cause")?;
    write_number(sink, u64::from(cause_number(cause)))?;
    write_text_member(sink, b"name", cause_name(cause))
}

/// Writes the name of the constraint with this number as JSON.
pub fn write_name<W: Sink>(
    sink: &mut W,
    constraints: &[Constraint],
    id: ConstraintId,
) -> Result<(), DeviceFault>
    ensures { Writes (W.state sink.old) (W.state sink.new) result
        (json_text (name_of (slice_get constraints.now id))) }
{
    write_json_text(sink, constraint_in(constraints, id).as_bytes())
}

#[tactic(auto, using(crate::proofs::WriteLemmas::writes_then))]
fn write_constraint<W: Sink>(
    sink: &mut W,
    catalogue: &Catalogue,
    id: Option<ConstraintId>,
) -> Result<(), DeviceFault>
    ensures { Writes (W.state sink.old) (W.state sink.new) result
        (constraint_member catalogue.now id) }
{
    match id {
        Some(id) => {
            write_member(sink, b"constraint")?;
            write_name(sink, catalogue.constraints(), id)
        }
        None => write_nothing(sink),
    }
}

fn write_row_number<W: Sink>(sink: &mut W, row: u64) -> Result<(), DeviceFault>
    ensures { Writes (W.state sink.old) (W.state sink.new) result (row_number_member row) }
{
    write_number_member(sink, b"row", row)
}

fn write_row_of<W: Sink>(sink: &mut W, cause: &Cause) -> Result<(), DeviceFault>
    ensures { Writes (W.state sink.old) (W.state sink.new) result (row_member cause.now) }
{
    match cause {
        Cause::Restrict(fault) => write_row_number(sink, fault.row),
        Cause::Violation(fault) => write_row_number(sink, fault.row),
        Cause::ActionConflict(fault) => write_row_number(sink, fault.row),
        Cause::CommitRefused(fault) => write_row_number(sink, fault.row),
        Cause::AddRefused(row) => write_row_number(sink, *row),
        _ => write_nothing(sink),
    }
}

/// Writes the name of the trigger with this number as JSON.
pub fn write_trigger_name<W: Sink>(
    sink: &mut W,
    catalogue: &Catalogue,
    id: TriggerId,
) -> Result<(), DeviceFault>
    ensures { Writes (W.state sink.old) (W.state sink.new) result
        (json_text (trigger_name (trigger_numbered catalogue.now id))) }
{
    write_json_text(sink, trigger_in(catalogue, id).as_bytes())
}

#[tactic(auto, using(crate::proofs::WriteLemmas::writes_then))]
fn write_trigger<W: Sink>(
    sink: &mut W,
    catalogue: &Catalogue,
    id: Option<TriggerId>,
) -> Result<(), DeviceFault>
    ensures { Writes (W.state sink.old) (W.state sink.new) result
        (trigger_member catalogue.now id) }
{
    match id {
        Some(id) => {
            write_member(sink, b"trigger")?;
            write_trigger_name(sink, catalogue, id)
        }
        None => write_nothing(sink),
    }
}

// The text of the SIGNAL that a cause speaks of.
fn write_signal<W: Sink>(
    sink: &mut W,
    catalogue: &Catalogue,
    cause: &Cause,
) -> Result<(), DeviceFault>
    ensures { Writes (W.state sink.old) (W.state sink.new) result
        (signal_member catalogue.now cause.now) }
{
    match cause {
        Cause::Signal(id, place) => {
            write_text_member(
                sink,
                b"signal",
                signal_text(catalogue, *id, *place).as_bytes(),
            )
        }
        _ => write_nothing(sink),
    }
}

// What a refusal speaks of.
#[tactic(auto, using(crate::proofs::WriteLemmas::writes_then))]
fn write_details<W: Sink>(
    sink: &mut W,
    catalogue: &Catalogue,
    refusal: &Refusal,
) -> Result<(), DeviceFault>
    ensures { Writes (W.state sink.old) (W.state sink.new) result
        (detail_members catalogue.now refusal.now) }
{
    let cause = &refusal.cause;
    write_constraint(sink, catalogue, constraint_of(cause))?;
    write_row_of(sink, cause)?;
    write_trigger(sink, catalogue, trigger_of(cause, refusal.trigger))?;
    write_signal(sink, catalogue, cause)
}

pub(crate) fn write_kind<W: Sink>(sink: &mut W, kind: &[u8]) -> Result<(), DeviceFault>
    ensures { Writes (W.state sink.old) (W.state sink.new) result (kind_member kind.now) }
{
    write_text_member(sink, b"kind", kind)
}

#[tactic(auto, using(crate::proofs::WriteLemmas::writes_then))]
fn write_refusal<W: Sink>(
    sink: &mut W,
    catalogue: &Catalogue,
    refusal: &Refusal,
) -> Result<(), DeviceFault>
    ensures { Writes (W.state sink.old) (W.state sink.new) result
        (refusal_members catalogue.now refusal.now) }
{
    write_kind(sink, b"refused")?;
    write_cause(sink, &refusal.cause)?;
    write_details(sink, catalogue, refusal)
}

#[tactic(auto, using(crate::proofs::WriteLemmas::writes_then))]
fn write_answer<W: Sink>(sink: &mut W, answer: &Answer) -> Result<(), DeviceFault>
    ensures { Writes (W.state sink.old) (W.state sink.new) result (answer_members answer.now) }
{
    match answer {
        Answer::Done => write_kind(sink, b"done"),
        Answer::Changed(count) => {
            write_kind(sink, b"changed")?;
            write_number_member(sink, b"count", *count)
        }
        Answer::Rows(rows) => {
            write_kind(sink, b"rows")?;
            write_member(sink, b"rows")?;
            write_all(sink, b"[")?;
            write_rows(sink, rows.as_slice())?;
            write_all(sink, b"]")
        }
    }
}

/// Writes the members of a statement's JSON object that tell its outcome, with the names of constraints and triggers
/// as the catalogue has them. Each begins with a comma. It takes no memory.
pub fn write_outcome_members<W: Sink>(
    sink: &mut W,
    outcome: &Result<Answer, Refusal>,
    catalogue: &Catalogue,
) -> Result<(), DeviceFault>
    ensures { Writes (W.state sink.old) (W.state sink.new) result
        (outcome_members catalogue.now outcome.now) }
{
    match outcome {
        Ok(answer) => write_answer(sink, answer),
        Err(refusal) => write_refusal(sink, catalogue, refusal),
    }
}
