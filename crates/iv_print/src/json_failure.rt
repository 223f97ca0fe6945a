//! What failed where a number is out of range or a text is too long, as JSON.
ghost use Rattle.std.specs.Prelude.{◌≡◌};
ghost use Rattle.std.specs.Fmt.{signed_decimal};
ghost use Rattle.iv_account.specs.declared.failure.EvaluatedFor.TheVariants as part;
ghost use Rattle.iv_account.specs.declared.failure.RowAtHand.TheVariants as hand;
ghost use Rattle.iv_account.specs.declared.failure.ValueFailure.TheVariants as failure;
ghost use Rattle.iv_text.specs.Writing.{Writes};
ghost use Rattle.iv_print.specs.JsonAccounts.{failure_entry, failure_members, hand_members, integer_member, operator_member, operator_sign, part_members, stored_members};

use crate::json_account::{
    write_because, write_column, write_entry_key, write_place, write_side, write_table,
};
use itoa::Buffer;
use iv_account::{EvaluatedFor, FailedEvaluation, Operator, RowAtHand, ValueFailure};
use iv_catalogue::Catalogue;
use iv_expr::{StoredRow, TableId};
use iv_text::json::{
    write_json_text, write_member, write_number_member, write_row, write_text_member,
    write_trigger_name,
};
use iv_text::{DeviceFault, Sink, write_all};

// The column whose value was evaluated.
#[tactic(auto, using(iv_text::proofs::WriteLemmas::writes_then))]
fn write_column_part<W: Sink>(
    sink: &mut W,
    catalogue: &Catalogue,
    table: TableId,
    column: u64,
) -> Result<(), DeviceFault>
    ensures { Writes (W.state sink.old) (W.state sink.new) result
        (part_members catalogue.now (part.Column table column)) }
{
    write_text_member(sink, b"part", b"column")?;
    write_member(sink, b"column_of")?;
    write_table(sink, catalogue, table)?;
    write_member(sink, b"column")?;
    write_column(sink, catalogue, table, column)
}

// What was evaluated.
#[tactic(auto, using(iv_text::proofs::WriteLemmas::writes_then))]
fn write_part<W: Sink>(
    sink: &mut W,
    catalogue: &Catalogue,
    part: EvaluatedFor,
) -> Result<(), DeviceFault>
    ensures { Writes (W.state sink.old) (W.state sink.new) result
        (part_members catalogue.now part) }
{
    match part {
        EvaluatedFor::Column(table, column) => write_column_part(sink, catalogue, table, column),
        EvaluatedFor::Item(place) => {
            write_text_member(sink, b"part", b"item")?;
            write_number_member(sink, b"item", place)
        }
        EvaluatedFor::Where => write_text_member(sink, b"part", b"where"),
        EvaluatedFor::When(id) => {
            write_text_member(sink, b"part", b"when")?;
            write_member(sink, b"trigger")?;
            write_trigger_name(sink, catalogue, id)
        }
    }
}

// A row with its table and number.
#[tactic(auto, using(iv_text::proofs::WriteLemmas::writes_then))]
fn write_stored<W: Sink>(
    sink: &mut W,
    catalogue: &Catalogue,
    row: &StoredRow,
) -> Result<(), DeviceFault>
    ensures { Writes (W.state sink.old) (W.state sink.new) result
        (stored_members catalogue.now row.now) }
{
    write_place(sink, catalogue, row.table, row.number)?;
    write_member(sink, b"values")?;
    write_row(sink, row.values.values())
}

// A row from which an INSERT takes its values.
#[tactic(auto, using(iv_text::proofs::WriteLemmas::writes_then))]
fn write_source<W: Sink>(
    sink: &mut W,
    catalogue: &Catalogue,
    row: &StoredRow,
) -> Result<(), DeviceFault>
    ensures { Writes (W.state sink.old) (W.state sink.new) result
        (hand_members catalogue.now (hand.Source row.now)) }
{
    write_member(sink, b"source")?;
    write_all(sink, b"true")?;
    write_stored(sink, catalogue, row)
}

// The row at hand.
#[tactic(auto, using(iv_text::proofs::WriteLemmas::writes_then))]
fn write_hand<W: Sink>(
    sink: &mut W,
    catalogue: &Catalogue,
    row: &RowAtHand,
) -> Result<(), DeviceFault>
    ensures { Writes (W.state sink.old) (W.state sink.new) result
        (hand_members catalogue.now row.now) }
{
    match row {
        RowAtHand::Row(row) => write_stored(sink, catalogue, row),
        RowAtHand::Source(row) => write_source(sink, catalogue, row),
        RowAtHand::Variables { old, new } => {
            write_side(sink, b"old", old)?;
            write_side(sink, b"new", new)
        }
    }
}

fn operator_sign(operator: Operator) -> &'static str
    ensures { result.now ≡ operator_sign operator }
{
    match operator {
        Operator::Plus => "+",
        Operator::Minus => "-",
        Operator::Times => "*",
    }
}

fn write_integer<W: Sink>(sink: &mut W, number: i64) -> Result<(), DeviceFault>
    ensures { Writes (W.state sink.old) (W.state sink.new) result (signed_decimal number) }
{
    let mut buffer = Buffer::new();
    write_all(sink, buffer.format(number).as_bytes())
}

#[tactic(auto, using(iv_text::proofs::WriteLemmas::writes_then))]
fn write_integer_member<W: Sink>(sink: &mut W, name: &[u8], number: i64) -> Result<(), DeviceFault>
    ensures { Writes (W.state sink.old) (W.state sink.new) result (integer_member name.now number) }
{
    write_member(sink, name)?;
    write_integer(sink, number)
}

fn write_operator<W: Sink>(sink: &mut W, operator: Operator) -> Result<(), DeviceFault>
    ensures { Writes (W.state sink.old) (W.state sink.new) result (operator_member operator) }
{
    write_text_member(sink, b"operator", operator_sign(operator).as_bytes())
}

#[tactic(auto, using(iv_text::proofs::WriteLemmas::writes_then))]
fn write_out_of_range<W: Sink>(
    sink: &mut W,
    left: i64,
    operator: Operator,
    right: i64,
) -> Result<(), DeviceFault>
    ensures { Writes (W.state sink.old) (W.state sink.new) result
        (failure_members (failure.OutOfRange left operator right)) }
{
    write_because(sink, b"out_of_range")?;
    write_integer_member(sink, b"left", left)?;
    write_operator(sink, operator)?;
    write_integer_member(sink, b"right", right)
}

// What failed.
#[tactic(auto, using(iv_text::proofs::WriteLemmas::writes_then))]
fn write_value_failure<W: Sink>(sink: &mut W, failure: ValueFailure) -> Result<(), DeviceFault>
    ensures { Writes (W.state sink.old) (W.state sink.new) result (failure_members failure) }
{
    match failure {
        ValueFailure::OutOfRange {
            left,
            operator,
            right,
        } => write_out_of_range(sink, left, operator, right),
        ValueFailure::TooLong { most, length } => {
            write_because(sink, b"too_long")?;
            write_number_member(sink, b"most", u64::from(most))?;
            write_number_member(sink, b"length", length)
        }
    }
}

/// The entry of what failed.
#[tactic(auto, using(iv_text::proofs::WriteLemmas::writes_then))]
pub(crate) fn write_failure<W: Sink>(
    sink: &mut W,
    catalogue: &Catalogue,
    failed: &FailedEvaluation,
) -> Result<(), DeviceFault>
    ensures { Writes (W.state sink.old) (W.state sink.new) result
        (failure_entry catalogue.now failed.now) }
{
    write_entry_key(sink, b"failure")?;
    write_part(sink, catalogue, failed.part)?;
    write_hand(sink, catalogue, &failed.row)?;
    write_value_failure(sink, failed.failure)?;
    write_all(sink, b"}")
}
