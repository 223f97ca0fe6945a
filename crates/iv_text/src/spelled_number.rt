//! Numbers, in a format.
ghost use Rattle.std.specs.Prelude.{◌++◌, decimal};
ghost use Rattle.iv_text.specs.Spelled.{spelled};
ghost use Rattle.iv_text.specs.Writing.{Writes};

use crate::device::{DeviceFault, Sink};
use crate::format::Format;
use crate::spelled::{tell, tell_between, tell_both};
use itoa::Buffer;

/// Writes a number.
pub fn tell_number<W: Sink>(writer: &mut W, format: Format, number: u128) -> Result<(), DeviceFault>
    ensures { Writes (W.state writer.old) (W.state writer.new) result (spelled format (decimal number)) }
{
    let mut buffer = Buffer::new();
    tell(writer, format, buffer.format(number).as_bytes())
}

/// Writes a number and what comes after it.
pub fn tell_numbered<W: Sink>(
    writer: &mut W,
    format: Format,
    number: u128,
    after: &[u8],
) -> Result<(), DeviceFault>
    ensures { Writes (W.state writer.old) (W.state writer.new) result
        (spelled format (decimal number ++ after.now)) }
{
    let mut buffer = Buffer::new();
    tell_both(writer, format, buffer.format(number).as_bytes(), after)
}

/// Writes a number after these words.
pub fn tell_number_after<W: Sink>(
    writer: &mut W,
    format: Format,
    before: &[u8],
    number: u128,
) -> Result<(), DeviceFault>
    ensures { Writes (W.state writer.old) (W.state writer.new) result
        (spelled format (before.now ++ decimal number)) }
{
    let mut buffer = Buffer::new();
    tell_both(writer, format, before, buffer.format(number).as_bytes())
}

/// Writes a number between two texts.
pub fn tell_number_between<W: Sink>(
    writer: &mut W,
    format: Format,
    before: &[u8],
    number: u128,
    after: &[u8],
) -> Result<(), DeviceFault>
    ensures { Writes (W.state writer.old) (W.state writer.new) result
        (spelled format (before.now ++ (decimal number ++ after.now))) }
{
    let mut buffer = Buffer::new();
    tell_between(
        writer,
        format,
        before,
        buffer.format(number).as_bytes(),
        after,
    )
}
