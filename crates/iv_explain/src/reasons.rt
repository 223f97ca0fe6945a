//! Reasons, and all that is told of a refusal.
ghost use Rattle.std.specs.Prelude.{◌++◌, codes};
ghost use Rattle.iv_text.specs.Writing.{Writes};
ghost use Rattle.iv_resolve_reasons.specs.Seen.{reason_seen};
ghost use Rattle.iv_explain.specs.Explanations.{explanation_text, no_savepoint, not_deferrable, why_text};
ghost use Rattle.iv_explain.specs.Reasons.{reason_text};
ghost use Rattle.iv_explain.specs.Seen.{explanation_seen, why_seen};
ghost use Rattle.iv_text.specs.Spelled.{spelled};

use crate::explaining::{Explanation, Why};
use crate::limits::tell_limit;
use crate::names::tell_name_fault;
use crate::parts::Part;
use crate::rules::tell_rule;
use crate::sentences::tell_three;
use crate::shapes::tell_shape;
use iv_resolve_reasons::Reason;
use iv_text::{DeviceFault, Format, Sink};

fn tell_reason<W: Sink>(
    writer: &mut W,
    format: Format,
    reason: Reason<'_>,
) -> Result<(), DeviceFault>
    ensures { Writes (W.state writer.old) (W.state writer.new) result
        (spelled format (reason_text (reason_seen reason.entry))) }
{
    match reason {
        Reason::Schema(fault) => tell_rule(writer, format, fault),
        Reason::Shape(fault) => tell_shape(writer, format, fault),
        Reason::Limit(fault) => tell_limit(writer, format, fault),
    }
}

fn tell_savepoint<W: Sink>(writer: &mut W, format: Format, name: &str) -> Result<(), DeviceFault>
    ensures { Writes (W.state writer.old) (W.state writer.new) result
        (spelled format (why_text (no_savepoint name.now))) }
{
    tell_three(
        writer,
        format,
        Part::Words("savepoint "),
        Part::Words(name),
        Part::Words(" isn't there"),
    )
}

fn tell_constraint<W: Sink>(writer: &mut W, format: Format, name: &str) -> Result<(), DeviceFault>
    ensures { Writes (W.state writer.old) (W.state writer.new) result
        (spelled format (why_text (not_deferrable name.now))) }
{
    tell_three(
        writer,
        format,
        Part::Words("constraint "),
        Part::Words(name),
        Part::Words(" is NOT DEFERRABLE"),
    )
}

/// Writes why a statement is refused.
pub fn tell_why<W: Sink>(writer: &mut W, format: Format, why: Why<'_>) -> Result<(), DeviceFault>
    ensures { Writes (W.state writer.old) (W.state writer.new) result
        (spelled format (why_text (why_seen why.entry))) }
{
    match why {
        Why::Resolution(reason) => tell_reason(writer, format, reason),
        Why::NoSavepoint(name) => tell_savepoint(writer, format, name),
        Why::NotDeferrable(name) => tell_constraint(writer, format, name),
    }
}

/// Writes what is told of a refusal.
pub fn tell_explanation<W: Sink>(
    writer: &mut W,
    format: Format,
    explanation: Explanation<'_>,
) -> Result<(), DeviceFault>
    ensures { Writes (W.state writer.old) (W.state writer.new) result
        (spelled format (explanation_text (explanation_seen explanation.entry))) }
{
    match explanation {
        Explanation::Name(fault) => tell_name_fault(writer, format, fault),
        Explanation::Reason(why) => tell_why(writer, format, why),
    }
}
