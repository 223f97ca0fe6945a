//! Bytes and numbers, written to a sink.
ghost use Rattle.std.specs.Prelude.{◌≡◌, [], ℕ, decimal};
ghost use Rattle.iv_text.specs.Writing.{Writes};

use crate::device::{DeviceFault, Sink};
use itoa::Buffer;

/// Writes all of the bytes.
// Hundreds of calls write a few bytes each. Its loop in each of them would make the program larger by a thirtieth.
#[inline(never)]
#[tactic(auto, using(crate::proofs::WriteLemmas::writes_then))]
pub fn write_all<W: Sink>(sink: &mut W, bytes: &[u8]) -> Result<(), DeviceFault>
    ensures { Writes (W.state sink.old) (W.state sink.new) result bytes.now }
{
    let mut rest = bytes;
    while !rest.is_empty() {
        let count = sink.write(rest)?;
        rest = &rest[count..];
    }
    Ok(())
}

/// Writes no bytes: what a writer does where there is nothing to write.
pub fn write_nothing<W: Sink>(sink: &mut W) -> Result<(), DeviceFault>
    ensures { Writes (W.state sink.old) (W.state sink.new) result [] }
{
    write_all(sink, b"")
}

/// Writes a number in decimal. It takes no memory.
pub fn write_number<W: Sink>(sink: &mut W, number: u64) -> Result<(), DeviceFault>
    ensures { Writes (W.state sink.old) (W.state sink.new) result (decimal number) }
{
    let mut buffer = Buffer::new();
    write_all(sink, buffer.format(number).as_bytes())
}
