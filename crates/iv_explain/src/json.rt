//! The member of a JSON object that tells more of a refusal.
ghost use Rattle.std.specs.Prelude.{◌++◌, codes, option_map};
ghost use Rattle.iv_text.specs.Json.{json_text, member};
ghost use Rattle.iv_text.specs.Writing.{Writes};
ghost use Rattle.iv_resolve_name_faults.specs.Seen.{fault_seen};
ghost use Rattle.iv_explain.specs.Explanations.{explained_member, explained_with, explanation_member, why_text};
ghost use Rattle.iv_explain.specs.JsonNames.{json_fault};
ghost use Rattle.iv_explain.specs.Seen.{explanation_seen, why_seen};

use crate::explaining::{Explanation, Why, explained};
use crate::json_name::write_json_fault;
use crate::reasons::tell_why;
use iv_catalogue::{Catalogue, Cause};
use iv_resolve_name_faults::NameFault;
use iv_syntax::Statement;
use iv_text::{DeviceFault, Format, Sink, write_all, write_member, write_nothing};
use std::alloc::Global;

// A reason between its quotes.
#[tactic(auto, using(iv_text::proofs::WriteLemmas::writes_then), unfolding(iv_text::specs::Spelled::spelled, iv_text::specs::Json::json_text))]
fn write_quoted<W: Sink>(writer: &mut W, why: Why<'_>) -> Result<(), DeviceFault>
    ensures { Writes (W.state writer.old) (W.state writer.new) result
        (json_text (why_text (why_seen why.entry))) }
{
    write_all(writer, b"\"")?;
    tell_why(writer, Format::Json, why)?;
    write_all(writer, b"\"")
}

#[tactic(auto, using(iv_text::proofs::WriteLemmas::writes_then))]
fn write_reason<W: Sink>(writer: &mut W, why: Why<'_>) -> Result<(), DeviceFault>
    ensures { Writes (W.state writer.old) (W.state writer.new) result
        (member (codes "reason") ++ json_text (why_text (why_seen why.entry))) }
{
    write_member(writer, b"reason")?;
    write_quoted(writer, why)
}

#[tactic(auto, using(iv_text::proofs::WriteLemmas::writes_then))]
fn write_about<W: Sink>(writer: &mut W, fault: NameFault<'_>) -> Result<(), DeviceFault>
    ensures { Writes (W.state writer.old) (W.state writer.new) result
        (member (codes "about") ++ json_fault (fault_seen fault.entry)) }
{
    write_member(writer, b"about")?;
    write_json_fault(writer, fault)
}

fn write_explanation<W: Sink>(
    writer: &mut W,
    explanation: Explanation<'_>,
) -> Result<(), DeviceFault>
    ensures { Writes (W.state writer.old) (W.state writer.new) result
        (explanation_member (explanation_seen explanation.entry)) }
{
    match explanation {
        Explanation::Name(fault) => write_about(writer, fault),
        Explanation::Reason(why) => write_reason(writer, why),
    }
}

fn write_if_told<W: Sink>(
    writer: &mut W,
    explanation: Option<Explanation<'_>>,
) -> Result<(), DeviceFault>
    ensures { Writes (W.state writer.old) (W.state writer.new) result
        (explained_with (option_map explanation_seen explanation.entry)) }
{
    match explanation {
        Some(explanation) => write_explanation(writer, explanation),
        None => write_nothing(writer),
    }
}

/// Writes the member of a statement that is refused for this cause; nothing if no more is told of it. Only the writer
/// can fail.
pub fn write_explained_member<W: Sink>(
    writer: &mut W,
    alloc: Global,
    catalogue: &Catalogue,
    statement: &Statement,
    cause: &Cause,
) -> Result<(), DeviceFault>
    ensures { Writes (W.state writer.old) (W.state writer.new) result
        (explained_member catalogue.now statement.now cause.now) }
{
    write_if_told(writer, explained(alloc, catalogue, statement, cause))
}
