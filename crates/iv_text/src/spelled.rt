//! Texts as they are, or as they stand between the quotes of JSON.
ghost use Rattle.std.specs.Prelude.{[], ◌++◌};
ghost use Rattle.iv_text.specs.Writing.{Writes};
ghost use Rattle.iv_text.specs.Spelled.{spelled};

use crate::device::{DeviceFault, Sink};
use crate::format::Format;
use crate::json::write_json_bytes;
use crate::write::write_all;

/// Writes the bytes in this format.
#[tactic(auto, unfolding(crate::specs::Spelled::spelled))]
pub fn tell<W: Sink>(writer: &mut W, format: Format, bytes: &[u8]) -> Result<(), DeviceFault>
    ensures { Writes (W.state writer.old) (W.state writer.new) result (spelled format bytes.now) }
{
    match format {
        Format::Words => write_all(writer, bytes),
        Format::Json => write_json_bytes(writer, bytes),
    }
}

/// Writes no text: what a writer does where there is nothing to tell.
pub fn tell_nothing<W: Sink>(writer: &mut W, format: Format) -> Result<(), DeviceFault>
    ensures { Writes (W.state writer.old) (W.state writer.new) result (spelled format []) }
{
    tell(writer, format, b"")
}

/// Writes two texts, one after the other.
#[tactic(auto, using(crate::proofs::SpelledLemmas::spelled_then))]
pub fn tell_both<W: Sink>(
    writer: &mut W,
    format: Format,
    first: &[u8],
    second: &[u8],
) -> Result<(), DeviceFault>
    ensures { Writes (W.state writer.old) (W.state writer.new) result
        (spelled format (first.now ++ second.now)) }
{
    tell(writer, format, first)?;
    tell(writer, format, second)
}

/// Writes three texts, one after the other.
#[tactic(auto, using(crate::proofs::SpelledLemmas::spelled_then))]
pub fn tell_between<W: Sink>(
    writer: &mut W,
    format: Format,
    before: &[u8],
    text: &[u8],
    after: &[u8],
) -> Result<(), DeviceFault>
    ensures { Writes (W.state writer.old) (W.state writer.new) result
        (spelled format (before.now ++ (text.now ++ after.now))) }
{
    tell(writer, format, before)?;
    tell(writer, format, text)?;
    tell(writer, format, after)
}
