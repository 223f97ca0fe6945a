//! Numbers, and numbers of things.
ghost use Rattle.iv_text.specs.Spelled.{spelled};
ghost use Rattle.iv_text.specs.Writing.{Writes};
ghost use Rattle.iv_explain.specs.Reasons.{columns_text, counted_text, values_text};

use iv_text::{DeviceFault, Format, Sink, tell_numbered};

// One thing, or so many.
fn tell_counted<W: Sink>(
    writer: &mut W,
    format: Format,
    number: usize,
    one: &[u8],
    many: &[u8],
) -> Result<(), DeviceFault>
    ensures { Writes (W.state writer.old) (W.state writer.new) result
        (spelled format (counted_text number one.now many.now)) }
{
    if number == 1 {
        tell_numbered(writer, format, number as u128, one)
    } else {
        tell_numbered(writer, format, number as u128, many)
    }
}

/// Writes how many columns.
pub fn tell_columns<W: Sink>(
    writer: &mut W,
    format: Format,
    number: usize,
) -> Result<(), DeviceFault>
    ensures { Writes (W.state writer.old) (W.state writer.new) result (spelled format (columns_text number)) }
{
    tell_counted(writer, format, number, b" column", b" columns")
}

/// Writes how many values.
pub fn tell_values<W: Sink>(
    writer: &mut W,
    format: Format,
    number: usize,
) -> Result<(), DeviceFault>
    ensures { Writes (W.state writer.old) (W.state writer.new) result (spelled format (values_text number)) }
{
    tell_counted(writer, format, number, b" value", b" values")
}
