//! Words of types, events and sides.
ghost use Rattle.iv_text.specs.Writing.{Writes};
ghost use Rattle.iv_explain.specs.Expressions.{unsuited_text};
ghost use Rattle.iv_explain.specs.Reasons.{event_text, side_text, what_text};
ghost use Rattle.iv_text.specs.Spelled.{spelled};

use iv_expr::Side;
use iv_syntax::{ColumnType, TransitionName, TriggerEvent};
use iv_text::{DeviceFault, Format, Sink, tell};

/// Writes what a value is that doesn't suit a column of this type.
pub fn tell_unsuited<W: Sink>(
    writer: &mut W,
    format: Format,
    kind: ColumnType,
) -> Result<(), DeviceFault>
    ensures { Writes (W.state writer.old) (W.state writer.new) result
        (spelled format (unsuited_text kind)) }
{
    match kind {
        ColumnType::Integer => tell(writer, format, b" is a text, and "),
        ColumnType::Varchar(_) => tell(writer, format, b" is an integer, and "),
    }
}

/// Writes whether rows are old or new.
pub fn tell_side<W: Sink>(writer: &mut W, format: Format, side: Side) -> Result<(), DeviceFault>
    ensures { Writes (W.state writer.old) (W.state writer.new) result
        (spelled format (side_text side)) }
{
    match side {
        Side::Old => tell(writer, format, b"old"),
        Side::New => tell(writer, format, b"new"),
    }
}

/// Writes what an item of REFERENCING names.
pub fn tell_what<W: Sink>(
    writer: &mut W,
    format: Format,
    what: TransitionName,
) -> Result<(), DeviceFault>
    ensures { Writes (W.state writer.old) (W.state writer.new) result
        (spelled format (what_text what)) }
{
    match what {
        TransitionName::Row => tell(writer, format, b"row"),
        TransitionName::Table => tell(writer, format, b"table"),
    }
}

/// Writes an event.
pub fn tell_event<W: Sink>(
    writer: &mut W,
    format: Format,
    event: TriggerEvent,
) -> Result<(), DeviceFault>
    ensures { Writes (W.state writer.old) (W.state writer.new) result
        (spelled format (event_text event)) }
{
    match event {
        TriggerEvent::Insert => tell(writer, format, b"INSERT"),
        TriggerEvent::Update => tell(writer, format, b"UPDATE"),
        TriggerEvent::Delete => tell(writer, format, b"DELETE"),
    }
}
