//! The line that tells more of a refusal.
ghost use Rattle.std.specs.Prelude.{◌++◌, codes, option_map};
ghost use Rattle.iv_text.specs.Writing.{Writes};
ghost use Rattle.iv_explain.specs.Explanations.{explained_line, explanation_line, explanation_text};
ghost use Rattle.iv_explain.specs.Seen.{explanation_seen};

use crate::explaining::{Explanation, explained};
use crate::reasons::tell_explanation;
use iv_catalogue::{Catalogue, Cause};
use iv_syntax::Statement;
use iv_text::{DeviceFault, Format, Sink, write_all, write_nothing};
use std::alloc::Global;

#[tactic(auto, unfolding(iv_text::specs::Spelled::spelled))]
fn write_explanation<W: Sink>(
    writer: &mut W,
    explanation: Explanation<'_>,
) -> Result<(), DeviceFault>
    ensures { Writes (W.state writer.old) (W.state writer.new) result
        (explanation_text (explanation_seen explanation.entry)) }
{
    tell_explanation(writer, Format::Words, explanation)
}

#[tactic(auto, using(iv_text::proofs::WriteLemmas::writes_then))]
fn write_told<W: Sink>(writer: &mut W, explanation: Explanation<'_>) -> Result<(), DeviceFault>
    ensures { Writes (W.state writer.old) (W.state writer.new) result
        (codes "  " ++ (explanation_text (explanation_seen explanation.entry) ++ codes "\n")) }
{
    write_all(writer, b"  ")?;
    write_explanation(writer, explanation)?;
    write_all(writer, b"\n")
}

fn write_line<W: Sink>(
    writer: &mut W,
    explanation: Option<Explanation<'_>>,
) -> Result<(), DeviceFault>
    ensures { Writes (W.state writer.old) (W.state writer.new) result
        (explanation_line (option_map explanation_seen explanation.entry)) }
{
    match explanation {
        Some(explanation) => write_told(writer, explanation),
        None => write_nothing(writer),
    }
}

/// Writes the line of a statement that is refused for this cause; nothing if no more is told of it. Only the writer can
/// fail.
pub fn write_explained_line<W: Sink>(
    writer: &mut W,
    alloc: Global,
    catalogue: &Catalogue,
    statement: &Statement,
    cause: &Cause,
) -> Result<(), DeviceFault>
    ensures { Writes (W.state writer.old) (W.state writer.new) result
        (explained_line catalogue.now statement.now cause.now) }
{
    write_line(writer, explained(alloc, catalogue, statement, cause))
}
