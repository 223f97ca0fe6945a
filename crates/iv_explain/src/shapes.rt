//! What doesn't suit in a statement.
ghost use Rattle.std.specs.Prelude.{◌++◌, codes};
ghost use Rattle.iv_text.specs.Writing.{Writes};
ghost use Rattle.iv_resolve_reasons.specs.Seen.{shape_seen};
ghost use Rattle.iv_resolve_reasons.specs.Shapes.{comparison_fault, operand_fault, set_fault, tuple_count, value_fault};
ghost use Rattle.iv_explain.specs.Reasons.{counts_text, shape_text, typed_text};
ghost use Rattle.iv_text.specs.Spelled.{spelled};

use crate::parts::{Part, tell_part};
use crate::sentences::{tell_five, tell_four, tell_seven, tell_six, tell_two};
use iv_resolve_reasons::ShapeFault;
use iv_syntax::{ColumnType, Expression};
use iv_text::{DeviceFault, Format, Sink, tell};

/// Writes a column of a table and its type.
pub fn tell_typed<W: Sink>(
    writer: &mut W,
    format: Format,
    table: &str,
    column: &str,
    kind: ColumnType,
) -> Result<(), DeviceFault>
    ensures { Writes (W.state writer.old) (W.state writer.new) result
        (spelled format (typed_text table.now column.now kind)) }
{
    tell_six(
        writer,
        format,
        Part::Words("column "),
        Part::Words(column),
        Part::Words(" of "),
        Part::Words(table),
        Part::Words(" is "),
        Part::Kind(kind),
    )
}

// So many values for so many columns of a table.
fn tell_counts<W: Sink>(
    writer: &mut W,
    format: Format,
    values: usize,
    columns: usize,
    table: &str,
) -> Result<(), DeviceFault>
    ensures { Writes (W.state writer.old) (W.state writer.new) result
        (spelled format (counts_text values columns table.now)) }
{
    tell_five(
        writer,
        format,
        Part::Values(values),
        Part::Words(" for "),
        Part::Columns(columns),
        Part::Words(" of "),
        Part::Words(table),
    )
}

// Words before so many values for so many columns.
#[tactic(auto, using(iv_text::proofs::SpelledLemmas::spelled_then))]
fn tell_counted<W: Sink>(
    writer: &mut W,
    format: Format,
    words: &[u8],
    values: usize,
    columns: usize,
    table: &str,
) -> Result<(), DeviceFault>
    ensures { Writes (W.state writer.old) (W.state writer.new) result
        (spelled format (words.now ++ counts_text values columns table.now)) }
{
    tell(writer, format, words)?;
    tell_counts(writer, format, values, columns, table)
}

#[tactic(auto, using(iv_text::proofs::SpelledLemmas::spelled_then))]
fn tell_tuple<W: Sink>(
    writer: &mut W,
    format: Format,
    table: &str,
    number: usize,
    columns: usize,
    values: usize,
) -> Result<(), DeviceFault>
    ensures { Writes (W.state writer.old) (W.state writer.new) result
        (spelled format (shape_text (tuple_count table.now number columns values))) }
{
    tell(writer, format, b"tuple ")?;
    tell_part(writer, format, Part::Number(number as u128))?;
    tell_counted(writer, format, b" has ", values, columns, table)
}

// What a value is that doesn't suit a column of this type.
#[tactic(auto, using(iv_text::proofs::SpelledLemmas::spelled_then))]
fn tell_value<W: Sink>(
    writer: &mut W,
    format: Format,
    table: &str,
    column: &str,
    kind: ColumnType,
    value: &Expression,
) -> Result<(), DeviceFault>
    ensures { Writes (W.state writer.old) (W.state writer.new) result
        (spelled format (shape_text (value_fault table.now column.now kind value.now))) }
{
    tell_part(writer, format, Part::Expression(value))?;
    tell_part(writer, format, Part::Unsuited(kind))?;
    tell_typed(writer, format, table, column, kind)
}

/// Writes a column and its type after another.
#[tactic(auto, using(iv_text::proofs::SpelledLemmas::spelled_then))]
pub fn tell_and_typed<W: Sink>(
    writer: &mut W,
    format: Format,
    table: &str,
    column: &str,
    kind: ColumnType,
) -> Result<(), DeviceFault>
    ensures { Writes (W.state writer.old) (W.state writer.new) result
        (spelled format (codes ", and " ++ typed_text table.now column.now kind)) }
{
    tell(writer, format, b", and ")?;
    tell_typed(writer, format, table, column, kind)
}

// A column that SELECT * gives, and the one that it doesn't suit.
#[tactic(auto, using(iv_text::proofs::SpelledLemmas::spelled_then))]
fn tell_star<W: Sink>(
    writer: &mut W,
    format: Format,
    table: &str,
    column: &str,
    kind: ColumnType,
    from: &str,
    given: &str,
    given_kind: ColumnType,
) -> Result<(), DeviceFault>
    ensures { Writes (W.state writer.old) (W.state writer.new) result
        (spelled format (typed_text from.now given.now given_kind
        ++ (codes ", and " ++ typed_text table.now column.now kind))) }
{
    tell_typed(writer, format, from, given, given_kind)?;
    tell_and_typed(writer, format, table, column, kind)
}

// What SET gives to a column of a row variable.
fn tell_set<W: Sink>(
    writer: &mut W,
    format: Format,
    variable: &str,
    column: &str,
    kind: ColumnType,
    value: &Expression,
) -> Result<(), DeviceFault>
    ensures { Writes (W.state writer.old) (W.state writer.new) result
        (spelled format (shape_text (set_fault variable.now column.now kind value.now))) }
{
    tell_seven(
        writer,
        format,
        Part::Expression(value),
        Part::Unsuited(kind),
        Part::Words(variable),
        Part::Words("."),
        Part::Words(column),
        Part::Words(" is "),
        Part::Kind(kind),
    )
}

fn tell_comparison<W: Sink>(
    writer: &mut W,
    format: Format,
    left: &Expression,
    right: &Expression,
) -> Result<(), DeviceFault>
    ensures { Writes (W.state writer.old) (W.state writer.new) result
        (spelled format (shape_text (comparison_fault left.now right.now))) }
{
    tell_four(
        writer,
        format,
        Part::Expression(left),
        Part::Words(" is compared with "),
        Part::Expression(right),
        Part::Words(", and only one of them is a text"),
    )
}

fn tell_operand<W: Sink>(
    writer: &mut W,
    format: Format,
    value: &Expression,
) -> Result<(), DeviceFault>
    ensures { Writes (W.state writer.old) (W.state writer.new) result
        (spelled format (shape_text (operand_fault value.now))) }
{
    tell_two(
        writer,
        format,
        Part::Expression(value),
        Part::Words(" is a text, and arithmetic takes integers"),
    )
}

/// Writes what doesn't suit.
pub fn tell_shape<W: Sink>(
    writer: &mut W,
    format: Format,
    fault: ShapeFault<'_>,
) -> Result<(), DeviceFault>
    ensures { Writes (W.state writer.old) (W.state writer.new) result
        (spelled format (shape_text (shape_seen fault.entry))) }
{
    match fault {
        ShapeFault::TupleCount {
            table,
            number,
            columns,
            values,
        } => tell_tuple(writer, format, table, number, columns, values),
        ShapeFault::QueryCount {
            table,
            columns,
            values,
        } => tell_counted(writer, format, b"the query gives ", values, columns, table),
        ShapeFault::Value {
            table,
            column,
            kind,
            value,
        } => tell_value(writer, format, table, column, kind, value),
        ShapeFault::Column {
            table,
            column,
            kind,
            from,
            given,
            given_kind,
        } => tell_star(writer, format, table, column, kind, from, given, given_kind),
        ShapeFault::Set {
            variable,
            column,
            kind,
            value,
        } => tell_set(writer, format, variable, column, kind, value),
        ShapeFault::Comparison(left, right) => tell_comparison(writer, format, left, right),
        ShapeFault::Operand(value) => tell_operand(writer, format, value),
    }
}
