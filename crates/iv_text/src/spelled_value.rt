//! Values, in a format.
ghost use Rattle.std.specs.List.{flat_map};
ghost use Rattle.iv_value.specs.References.{value_of};
ghost use Rattle.iv_text.specs.Lines.{quote_doubled, quoted_text, value_text};
ghost use Rattle.iv_text.specs.Spelled.{spelled};
ghost use Rattle.iv_text.specs.Writing.{Writes};

use crate::device::{DeviceFault, Sink};
use crate::format::Format;
use crate::spelled::tell;
use itoa::Buffer;
use iv_value::{Value, ValueRef};

fn tell_byte<W: Sink>(writer: &mut W, format: Format, byte: u8) -> Result<(), DeviceFault>
    ensures { Writes (W.state writer.old) (W.state writer.new) result (spelled format (quote_doubled byte)) }
{
    if byte == b'\'' {
        tell(writer, format, b"''")
    } else {
        tell(writer, format, &[byte])
    }
}

// The characters with each quote doubled.
#[tactic(auto, using(crate::proofs::WriteLemmas::writes_then))]
fn tell_characters<W: Sink>(writer: &mut W, format: Format, bytes: &[u8]) -> Result<(), DeviceFault>
    ensures { Writes (W.state writer.old) (W.state writer.new) result
        (spelled format (flat_map quote_doubled bytes.now)) }
{
    let mut rest = bytes;
    while let Some((byte, others)) = rest.split_first() {
        tell_byte(writer, format, *byte)?;
        rest = others;
    }
    Ok(())
}

/// Writes a text between single quotes, with two quotes for each one.
#[tactic(auto, using(crate::proofs::SpelledLemmas::spelled_then))]
pub fn tell_quoted<W: Sink>(writer: &mut W, format: Format, text: &str) -> Result<(), DeviceFault>
    ensures { Writes (W.state writer.old) (W.state writer.new) result (spelled format (quoted_text text.now)) }
{
    tell(writer, format, b"'")?;
    tell_characters(writer, format, text.as_bytes())?;
    tell(writer, format, b"'")
}

/// Writes a borrowed value, as a line of words has it.
pub(crate) fn tell_borrowed<W: Sink>(
    writer: &mut W,
    format: Format,
    value: ValueRef<'_>,
) -> Result<(), DeviceFault>
    ensures { Writes (W.state writer.old) (W.state writer.new) result
        (spelled format (value_text (value_of value.entry))) }
{
    match value {
        ValueRef::Null => tell(writer, format, b"NULL"),
        ValueRef::Int(number) => {
            let mut buffer = Buffer::new();
            tell(writer, format, buffer.format(number).as_bytes())
        }
        ValueRef::Text(text) => tell_quoted(writer, format, text.as_str()),
    }
}

/// Writes a value, as a line of words has it.
pub(crate) fn tell_value<W: Sink>(
    writer: &mut W,
    format: Format,
    value: &Value,
) -> Result<(), DeviceFault>
    ensures { Writes (W.state writer.old) (W.state writer.new) result
        (spelled format (value_text value.now)) }
{
    tell_borrowed(writer, format, value.as_ref())
}
