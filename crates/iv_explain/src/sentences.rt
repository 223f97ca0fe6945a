//! Sentences of two parts and more.
ghost use Rattle.std.specs.Prelude.{◌++◌};
ghost use Rattle.iv_text.specs.Writing.{Writes};
ghost use Rattle.iv_explain.specs.Seen.{part_text};
ghost use Rattle.iv_text.specs.Spelled.{spelled};

use crate::parts::{Part, tell_part};
use iv_text::{DeviceFault, Format, Sink};

/// Writes two parts.
#[tactic(auto, using(iv_text::proofs::SpelledLemmas::spelled_then))]
pub fn tell_two<W: Sink>(
    writer: &mut W,
    format: Format,
    a: Part<'_>,
    b: Part<'_>,
) -> Result<(), DeviceFault>
    ensures { Writes (W.state writer.old) (W.state writer.new) result
        (spelled format (part_text a.entry ++ part_text b.entry)) }
{
    tell_part(writer, format, a)?;
    tell_part(writer, format, b)
}

/// Writes three parts.
#[tactic(auto, using(iv_text::proofs::SpelledLemmas::spelled_then))]
pub fn tell_three<W: Sink>(
    writer: &mut W,
    format: Format,
    a: Part<'_>,
    b: Part<'_>,
    c: Part<'_>,
) -> Result<(), DeviceFault>
    ensures { Writes (W.state writer.old) (W.state writer.new) result
        (spelled format (part_text a.entry ++ (part_text b.entry ++ part_text c.entry))) }
{
    tell_part(writer, format, a)?;
    tell_two(writer, format, b, c)
}

/// Writes four parts.
#[tactic(auto, using(iv_text::proofs::SpelledLemmas::spelled_then))]
pub fn tell_four<W: Sink>(
    writer: &mut W,
    format: Format,
    a: Part<'_>,
    b: Part<'_>,
    c: Part<'_>,
    d: Part<'_>,
) -> Result<(), DeviceFault>
    ensures { Writes (W.state writer.old) (W.state writer.new) result
        (spelled format (part_text a.entry ++ (part_text b.entry ++ (part_text c.entry ++ part_text d.entry)))) }
{
    tell_part(writer, format, a)?;
    tell_three(writer, format, b, c, d)
}

/// Writes five parts.
#[tactic(auto, using(iv_text::proofs::SpelledLemmas::spelled_then))]
pub fn tell_five<W: Sink>(
    writer: &mut W,
    format: Format,
    a: Part<'_>,
    b: Part<'_>,
    c: Part<'_>,
    d: Part<'_>,
    e: Part<'_>,
) -> Result<(), DeviceFault>
    ensures { Writes (W.state writer.old) (W.state writer.new) result
        (spelled format (part_text a.entry ++ (part_text b.entry ++ (part_text c.entry ++ (part_text d.entry ++ part_text e.entry))))) }
{
    tell_part(writer, format, a)?;
    tell_four(writer, format, b, c, d, e)
}

/// Writes six parts.
#[tactic(auto, using(iv_text::proofs::SpelledLemmas::spelled_then))]
pub fn tell_six<W: Sink>(
    writer: &mut W,
    format: Format,
    a: Part<'_>,
    b: Part<'_>,
    c: Part<'_>,
    d: Part<'_>,
    e: Part<'_>,
    f: Part<'_>,
) -> Result<(), DeviceFault>
    ensures { Writes (W.state writer.old) (W.state writer.new) result
        (spelled format (part_text a.entry ++ (part_text b.entry ++ (part_text c.entry ++ (part_text d.entry ++ (part_text e.entry ++ part_text f.entry)))))) }
{
    tell_part(writer, format, a)?;
    tell_five(writer, format, b, c, d, e, f)
}

/// Writes seven parts.
#[tactic(auto, using(iv_text::proofs::SpelledLemmas::spelled_then))]
pub fn tell_seven<W: Sink>(
    writer: &mut W,
    format: Format,
    a: Part<'_>,
    b: Part<'_>,
    c: Part<'_>,
    d: Part<'_>,
    e: Part<'_>,
    f: Part<'_>,
    g: Part<'_>,
) -> Result<(), DeviceFault>
    ensures { Writes (W.state writer.old) (W.state writer.new) result
        (spelled format (part_text a.entry ++ (part_text b.entry ++ (part_text c.entry ++ (part_text d.entry ++ (part_text e.entry ++ (part_text f.entry ++ part_text g.entry))))))) }
{
    tell_part(writer, format, a)?;
    tell_six(writer, format, b, c, d, e, f, g)
}
