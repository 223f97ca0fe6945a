//! The line of what failed where a number is out of range or a text is too long.
ghost use Rattle.std.specs.Prelude.{◌≡◌, ◌++◌, codes, decimal};
ghost use Rattle.std.specs.Fmt.{signed_decimal};
ghost use Rattle.iv_account.specs.declared.failure.EvaluatedFor.TheVariants as part;
ghost use Rattle.iv_account.specs.declared.failure.ValueFailure.TheVariants as failure;
ghost use Rattle.iv_text.specs.Lines.{trigger_text};
ghost use Rattle.iv_text.specs.Writing.{Writes};
ghost use Rattle.iv_print.specs.AccountLines.{evaluated_text, failure_line, failure_text, operator_text, part_in_table, part_name};

use crate::account::{
    write_column, write_indent, write_listed, write_numbered, write_side, write_table,
};
use itoa::Buffer;
use iv_account::{EvaluatedFor, FailedEvaluation, Operator, RowAtHand, ValueFailure};
use iv_catalogue::{Catalogue, TriggerId};
use iv_expr::TableId;
use iv_text::{DeviceFault, Sink, write_all, write_nothing, write_number, write_trigger};

// A trigger after these words.
#[tactic(auto, using(iv_text::proofs::WriteLemmas::writes_then))]
fn write_trigger_after<W: Sink>(
    sink: &mut W,
    words: &[u8],
    catalogue: &Catalogue,
    id: TriggerId,
) -> Result<(), DeviceFault>
    ensures { Writes (W.state sink.old) (W.state sink.new) result
        (words.now ++ trigger_text catalogue.now id) }
{
    write_all(sink, words)?;
    write_trigger(sink, catalogue, id)
}

// The column, the item of a SELECT or the condition that was evaluated.
#[tactic(auto, using(iv_text::proofs::WriteLemmas::writes_then))]
fn write_part<W: Sink>(
    sink: &mut W,
    catalogue: &Catalogue,
    part: EvaluatedFor,
) -> Result<(), DeviceFault>
    ensures { Writes (W.state sink.old) (W.state sink.new) result (part_name catalogue.now part) }
{
    match part {
        EvaluatedFor::Column(table, column) => { write_column(sink, catalogue, table, column) }
        EvaluatedFor::Item(place) => {
            write_all(sink, b"item ")?;
            write_number(sink, place)
        }
        EvaluatedFor::Where => write_all(sink, b"WHERE"),
        EvaluatedFor::When(id) => write_trigger_after(sink, b"WHEN of trigger", catalogue, id),
    }
}

// A column with its table.
#[tactic(auto, using(iv_text::proofs::WriteLemmas::writes_then))]
fn write_column_of<W: Sink>(
    sink: &mut W,
    catalogue: &Catalogue,
    table: TableId,
    column: u64,
) -> Result<(), DeviceFault>
    ensures { Writes (W.state sink.old) (W.state sink.new) result
        (part_in_table catalogue.now (part.Column table column)) }
{
    write_column(sink, catalogue, table, column)?;
    write_all(sink, b" of ")?;
    write_table(sink, catalogue, table)
}

// What was evaluated, with the table of a column.
fn write_part_in_table<W: Sink>(
    sink: &mut W,
    catalogue: &Catalogue,
    part: EvaluatedFor,
) -> Result<(), DeviceFault>
    ensures { Writes (W.state sink.old) (W.state sink.new) result
        (part_in_table catalogue.now part) }
{
    match part {
        EvaluatedFor::Column(table, column) => write_column_of(sink, catalogue, table, column),
        EvaluatedFor::Item(_) | EvaluatedFor::Where | EvaluatedFor::When(_) => {
            write_part(sink, catalogue, part)
        }
    }
}

// What was evaluated, and the row at hand.
#[tactic(auto, using(iv_text::proofs::WriteLemmas::writes_then))]
fn write_evaluated<W: Sink>(
    sink: &mut W,
    catalogue: &Catalogue,
    part: EvaluatedFor,
    row: &RowAtHand,
) -> Result<(), DeviceFault>
    ensures { Writes (W.state sink.old) (W.state sink.new) result
        (evaluated_text catalogue.now part row.now) }
{
    match row {
        RowAtHand::Row(row) => {
            write_part(sink, catalogue, part)?;
            write_all(sink, b" of ")?;
            write_numbered(sink, catalogue, row.table, row.number)?;
            write_listed(sink, row.values.values())
        }
        RowAtHand::Source(row) => {
            write_part_in_table(sink, catalogue, part)?;
            write_all(sink, b" from ")?;
            write_numbered(sink, catalogue, row.table, row.number)?;
            write_listed(sink, row.values.values())
        }
        RowAtHand::Variables { old, new } => {
            write_part_in_table(sink, catalogue, part)?;
            write_side(sink, b" OLD", old)?;
            write_side(sink, b" NEW", new)
        }
    }
}

fn operator_text(operator: Operator) -> &'static str
    ensures { result.now ≡ operator_text operator }
{
    match operator {
        Operator::Plus => " + ",
        Operator::Minus => " - ",
        Operator::Times => " * ",
    }
}

fn write_integer<W: Sink>(sink: &mut W, number: i64) -> Result<(), DeviceFault>
    ensures { Writes (W.state sink.old) (W.state sink.new) result (signed_decimal number) }
{
    let mut buffer = Buffer::new();
    write_all(sink, buffer.format(number).as_bytes())
}

fn write_operator<W: Sink>(sink: &mut W, operator: Operator) -> Result<(), DeviceFault>
    ensures { Writes (W.state sink.old) (W.state sink.new) result (operator_text operator) }
{
    write_all(sink, operator_text(operator).as_bytes())
}

// A number, and what comes after it.
#[tactic(auto, using(iv_text::proofs::WriteLemmas::writes_then))]
fn write_integer_then<W: Sink>(sink: &mut W, number: i64, after: &[u8]) -> Result<(), DeviceFault>
    ensures { Writes (W.state sink.old) (W.state sink.new) result
        (signed_decimal number ++ after.now) }
{
    write_integer(sink, number)?;
    write_all(sink, after)
}

// The operator and the right number.
#[tactic(auto, using(iv_text::proofs::WriteLemmas::writes_then))]
fn write_right<W: Sink>(sink: &mut W, operator: Operator, right: i64) -> Result<(), DeviceFault>
    ensures { Writes (W.state sink.old) (W.state sink.new) result
        (operator_text operator ++ (signed_decimal right ++ codes " is out of range")) }
{
    write_operator(sink, operator)?;
    write_integer_then(sink, right, b" is out of range")
}

#[tactic(auto, using(iv_text::proofs::WriteLemmas::writes_then))]
fn write_out_of_range<W: Sink>(
    sink: &mut W,
    left: i64,
    operator: Operator,
    right: i64,
) -> Result<(), DeviceFault>
    ensures { Writes (W.state sink.old) (W.state sink.new) result
        (failure_text (failure.OutOfRange left operator right)) }
{
    write_all(sink, b": ")?;
    write_integer(sink, left)?;
    write_right(sink, operator, right)
}

// A number between these words.
#[tactic(auto, using(iv_text::proofs::WriteLemmas::writes_then))]
fn write_between<W: Sink>(
    sink: &mut W,
    before: &[u8],
    number: u64,
    after: &[u8],
) -> Result<(), DeviceFault>
    ensures { Writes (W.state sink.old) (W.state sink.new) result
        (before.now ++ (decimal number ++ after.now)) }
{
    write_all(sink, before)?;
    write_number(sink, number)?;
    write_all(sink, after)
}

// Two numbers between these words.
#[tactic(auto, using(iv_text::proofs::WriteLemmas::writes_then))]
fn write_lengths<W: Sink>(
    sink: &mut W,
    before: &[u8],
    most: u64,
    between: &[u8],
    length: u64,
) -> Result<(), DeviceFault>
    ensures { Writes (W.state sink.old) (W.state sink.new) result
        ((before.now ++ (decimal most ++ between.now)) ++ (decimal length ++ codes " characters")) }
{
    write_between(sink, before, most, between)?;
    write_number(sink, length)?;
    write_all(sink, b" characters")
}

// What failed.
fn write_value_failure<W: Sink>(sink: &mut W, failure: ValueFailure) -> Result<(), DeviceFault>
    ensures { Writes (W.state sink.old) (W.state sink.new) result (failure_text failure) }
{
    match failure {
        ValueFailure::OutOfRange {
            left,
            operator,
            right,
        } => write_out_of_range(sink, left, operator, right),
        ValueFailure::TooLong { most, length } => write_lengths(
            sink,
            b" is VARCHAR(",
            u64::from(most),
            b"), and the text has ",
            length,
        ),
    }
}

/// The line of what failed.
#[tactic(auto, using(iv_text::proofs::WriteLemmas::writes_then))]
pub(crate) fn write_failure<W: Sink>(
    sink: &mut W,
    catalogue: &Catalogue,
    depth: usize,
    failed: &FailedEvaluation,
) -> Result<(), DeviceFault>
    ensures { Writes (W.state sink.old) (W.state sink.new) result
        (failure_line catalogue.now depth failed.now) }
{
    write_indent(sink, depth)?;
    write_evaluated(sink, catalogue, failed.part, &failed.row)?;
    write_value_failure(sink, failed.failure)?;
    write_all(sink, b"\n")
}
