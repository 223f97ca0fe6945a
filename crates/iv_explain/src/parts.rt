//! The parts of a sentence.
ghost use Rattle.iv_text.specs.Writing.{Writes};
ghost use Rattle.iv_explain.specs.Seen.{part_text};
ghost use Rattle.iv_text.specs.Spelled.{spelled};

use crate::counts::{tell_columns, tell_values};
use crate::expressions::{tell_expression, tell_kind, tell_literal, tell_names};
use crate::names::tell_item;
use crate::words::{tell_event, tell_side, tell_unsuited, tell_what};
use iv_expr::Side;
use iv_resolve_name_faults::NamedItem;
use iv_syntax::{ColumnType, Expression, Literal, Name, TransitionName, TriggerEvent};
use iv_text::{DeviceFault, Format, Sink, tell, tell_number};

/// A part of a sentence.
#[derive(Clone, Copy)]
pub enum Part<'a> {
    /// Words, or a name.
    Words(&'a str),
    Number(u128),
    /// So many columns.
    Columns(usize),
    /// So many values.
    Values(usize),
    /// A type after its article.
    Kind(ColumnType),
    /// What a value is that doesn't suit a column of this type.
    Unsuited(ColumnType),
    Expression(&'a Expression),
    /// The literal of a DEFAULT.
    Default(&'a Literal),
    Item(NamedItem<'a>),
    Names(&'a [Name]),
    Side(Side),
    What(TransitionName),
    Event(TriggerEvent),
}

/// Writes a part.
pub fn tell_part<W: Sink>(writer: &mut W, format: Format, part: Part<'_>) -> Result<(), DeviceFault>
    ensures { Writes (W.state writer.old) (W.state writer.new) result
        (spelled format (part_text part.entry)) }
{
    match part {
        Part::Words(text) => tell(writer, format, text.as_bytes()),
        Part::Number(number) => tell_number(writer, format, number),
        Part::Columns(number) => tell_columns(writer, format, number),
        Part::Values(number) => tell_values(writer, format, number),
        Part::Kind(kind) => tell_kind(writer, format, kind),
        Part::Unsuited(kind) => tell_unsuited(writer, format, kind),
        Part::Expression(expression) => tell_expression(writer, format, expression),
        Part::Default(literal) => tell_literal(writer, format, literal),
        Part::Item(item) => tell_item(writer, format, item),
        Part::Names(names) => tell_names(writer, format, names),
        Part::Side(side) => tell_side(writer, format, side),
        Part::What(what) => tell_what(writer, format, what),
        Part::Event(event) => tell_event(writer, format, event),
    }
}
