//! The last outcome in words.
ghost use Rattle.std.specs.Prelude.{◌≡◌, ◌++◌, Err, IfOk, decimal, true};
ghost use Rattle.iv_text.specs.Writing.{Writes};
ghost use Rattle.iv_script.specs.Transcript.{name_line_of};
ghost use Rattle.iv_connection.specs.OutcomeLines.{executed};
ghost use Rattle.iv_connection.specs.Messages.{answer_message, constraint_part, heading, message_of, name_part, refusal_message, refusal_parts, row_part, signal_part, trigger_part};

use crate::outcomes::row_of;
use crate::statements::executed;
use iv_catalogue::{Catalogue, Cause, ConstraintId, Refusal, TriggerId};
use iv_explain::write_explained_line;
use iv_session::Answer;
use iv_shown::{Connection, constraint_named, signal_of, trigger_named};
use iv_text::{
    DeviceFault, Sink, Std, cause_name, constraint_of, trigger_of, write_all, write_nothing,
    write_number,
};
use std::alloc::Global;

// Words and what they are about.
#[tactic(auto, using(iv_text::proofs::WriteLemmas::writes_then))]
fn write_part<W: Sink>(sink: &mut W, words: &[u8], about: &[u8]) -> Result<(), DeviceFault>
    ensures { Writes (W.state sink.old) (W.state sink.new) result (words.now ++ about.now) }
{
    write_all(sink, words)?;
    write_all(sink, about)
}

#[tactic(auto, using(iv_text::proofs::WriteLemmas::writes_then))]
fn write_count<W: Sink>(sink: &mut W, words: &[u8], count: u64) -> Result<(), DeviceFault>
    ensures { Writes (W.state sink.old) (W.state sink.new) result (words.now ++ decimal count) }
{
    write_all(sink, words)?;
    write_number(sink, count)
}

fn write_constraint<W: Sink>(
    sink: &mut W,
    catalogue: &Catalogue,
    id: Option<ConstraintId>,
) -> Result<(), DeviceFault>
    ensures { Writes (W.state sink.old) (W.state sink.new) result (constraint_part catalogue.now id) }
{
    match id {
        Some(id) => write_part(
            sink,
            b", constraint ",
            constraint_named(catalogue, Some(id)),
        ),
        None => write_nothing(sink),
    }
}

fn write_row<W: Sink>(sink: &mut W, row: u64) -> Result<(), DeviceFault>
    ensures { Writes (W.state sink.old) (W.state sink.new) result (row_part row) }
{
    if row == 0 {
        write_nothing(sink)
    } else {
        write_count(sink, b", row ", row)
    }
}

fn write_trigger<W: Sink>(
    sink: &mut W,
    catalogue: &Catalogue,
    id: Option<TriggerId>,
) -> Result<(), DeviceFault>
    ensures { Writes (W.state sink.old) (W.state sink.new) result (trigger_part catalogue.now id) }
{
    match id {
        Some(id) => write_part(sink, b", trigger ", trigger_named(catalogue, Some(id))),
        None => write_nothing(sink),
    }
}

fn write_signal<W: Sink>(
    sink: &mut W,
    catalogue: &Catalogue,
    cause: &Cause,
) -> Result<(), DeviceFault>
    ensures { Writes (W.state sink.old) (W.state sink.new) result (signal_part catalogue.now cause.now) }
{
    match cause {
        Cause::Signal(_, _) => write_part(sink, b": ", signal_of(catalogue, cause)),
        _ => write_nothing(sink),
    }
}

fn write_name<W: Sink>(sink: &mut W, line: &[u8]) -> Result<(), DeviceFault>
    ensures { Writes (W.state sink.old) (W.state sink.new) result (name_part line.now) }
{
    match line {
        [] => write_nothing(sink),
        [_, rest @ ..] => {
            let end = rest.len().saturating_sub(1);
            write_part(sink, b": ", &rest[end.min(1)..end])
        }
    }
}

fn write_heading<W: Sink>(sink: &mut W, cause: &Cause) -> Result<(), DeviceFault>
    ensures { Writes (W.state sink.old) (W.state sink.new) result (heading cause.now) }
{
    write_part(sink, b"refused: ", cause_name(cause))
}

// What a refusal speaks of.
#[tactic(auto, using(iv_text::proofs::WriteLemmas::writes_then))]
fn write_about<W: Sink>(
    sink: &mut W,
    catalogue: &Catalogue,
    refusal: &Refusal,
    line: &[u8],
) -> Result<(), DeviceFault>
    ensures { Writes (W.state sink.old) (W.state sink.new) result
        (refusal_parts catalogue.now refusal.now line.now) }
{
    let cause = &refusal.cause;
    write_constraint(sink, catalogue, constraint_of(cause))?;
    write_row(sink, row_of(cause))?;
    write_trigger(sink, catalogue, trigger_of(cause, refusal.trigger))?;
    write_signal(sink, catalogue, cause)?;
    write_name(sink, line)
}

fn write_refusal<W: Sink>(
    sink: &mut W,
    catalogue: &Catalogue,
    refusal: &Refusal,
    line: &[u8],
) -> Result<(), DeviceFault>
    ensures { Writes (W.state sink.old) (W.state sink.new) result
        (refusal_message catalogue.now refusal.now line.now) }
{
    write_heading(sink, &refusal.cause)?;
    write_about(sink, catalogue, refusal, line)
}

fn write_answer<W: Sink>(sink: &mut W, answer: &Answer) -> Result<(), DeviceFault>
    ensures { Writes (W.state sink.old) (W.state sink.new) result (answer_message answer.now) }
{
    match answer {
        Answer::Done => write_all(sink, b"done"),
        Answer::Changed(count) => write_count(sink, b"rows changed: ", *count),
        Answer::Rows(rows) => write_count(sink, b"rows: ", rows.len() as u64),
    }
}

fn answer_message(alloc: Global, answer: &Answer) -> Result<Vec<u8>, DeviceFault>
    ensures { IfOk result (λ t. t.items ≡ answer_message answer.now) }
{
    let mut writer = Std::new(Vec::new(alloc));
    write_answer(&mut writer, answer)?;
    Ok(writer.into_inner())
}

fn refusal_message(
    alloc: Global,
    catalogue: &Catalogue,
    refusal: &Refusal,
    line: &[u8],
) -> Result<Vec<u8>, DeviceFault>
    ensures { IfOk result (λ t. t.items ≡ refusal_message catalogue.now refusal.now line.now) }
{
    let mut writer = Std::new(Vec::new(alloc));
    write_refusal(&mut writer, catalogue, refusal, line)?;
    Ok(writer.into_inner())
}

// The line of the name or the reason of a refusal of the statement that was executed last.
fn write_name_line<W: Sink>(
    sink: &mut W,
    alloc: Global,
    connection: &Connection,
    refusal: &Refusal,
) -> Result<(), DeviceFault>
    ensures { Writes (W.state sink.old) (W.state sink.new) result
        (name_line_of true connection.now.session.state.schema (executed connection.now.statements connection.now.executed)
        (Err refusal.now)) }
{
    match executed(connection) {
        Some(statement) => write_explained_line(
            sink,
            alloc,
            connection.session.catalogue(),
            statement,
            &refusal.cause,
        ),
        None => write_nothing(sink),
    }
}

// The line of the name or the reason of a refusal.
fn name_line(
    alloc: Global,
    connection: &Connection,
    refusal: &Refusal,
) -> Result<Vec<u8>, DeviceFault>
    ensures { IfOk result (λ t. t.items
        ≡ name_line_of true connection.now.session.state.schema (executed connection.now.statements connection.now.executed)
        (Err refusal.now)) }
{
    let mut writer = Std::new(Vec::new(alloc));
    write_name_line(&mut writer, alloc, connection, refusal)?;
    Ok(writer.into_inner())
}

/// The last outcome in words, on one line without its end: what was done, or the cause of the refusal with the constraint,
/// the row, the trigger, the text of SIGNAL and the name that it is about. A text of SIGNAL is written as it is.
pub fn message(alloc: Global, connection: &Connection) -> Result<Vec<u8>, DeviceFault>
    ensures { IfOk result (λ t. t.items ≡ message_of connection.now) }
{
    match &connection.outcome {
        Ok(answer) => answer_message(alloc, answer),
        Err(refusal) => {
            let line = name_line(alloc, connection, refusal)?;
            refusal_message(
                alloc,
                connection.session.catalogue(),
                refusal,
                line.as_slice(),
            )
        }
    }
}
