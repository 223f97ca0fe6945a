//! A constraint and what it asks, as JSON.
ghost use Rattle.std.specs.Prelude.{◌++◌, codes, slice_get};
ghost use Rattle.std.specs.Option.{option_copied};
ghost use Rattle.iv_text.specs.Json.{json_text};
ghost use Rattle.iv_print.specs.JsonAccounts.{asked_member, described_members};
ghost use Rattle.iv_text.specs.Rules.{constraint_words};
ghost use Rattle.iv_text.specs.Writing.{Writes};

use iv_catalogue::{Catalogue, Constraint, ConstraintId};
use iv_text::json::{write_member, write_name};
use iv_text::{DeviceFault, Format, Sink, tell_constraint, write_all, write_nothing};

// What a constraint asks, between its quotes.
#[tactic(auto, using(iv_text::proofs::WriteLemmas::writes_then), unfolding(iv_text::specs::Spelled::spelled, iv_text::specs::Json::json_text))]
fn write_words<W: Sink>(
    sink: &mut W,
    catalogue: &Catalogue,
    constraint: &Constraint,
) -> Result<(), DeviceFault>
    ensures { Writes (W.state sink.old) (W.state sink.new) result
        (json_text (constraint_words catalogue.now constraint.now)) }
{
    write_all(sink, b"\"")?;
    tell_constraint(sink, Format::Json, catalogue, constraint)?;
    write_all(sink, b"\"")
}

/// What a constraint asks, if it is there.
#[tactic(auto, using(iv_text::proofs::WriteLemmas::writes_then))]
pub(crate) fn write_asked_of<W: Sink>(
    sink: &mut W,
    catalogue: &Catalogue,
    constraint: Option<&Constraint>,
) -> Result<(), DeviceFault>
    ensures { Writes (W.state sink.old) (W.state sink.new) result
        (asked_member catalogue.now (option_copied constraint.entry)) }
{
    match constraint {
        Some(constraint) => {
            write_member(sink, b"rule")?;
            write_words(sink, catalogue, constraint)
        }
        None => write_nothing(sink),
    }
}

/// What a constraint asks.
pub(crate) fn write_asked<W: Sink>(
    sink: &mut W,
    catalogue: &Catalogue,
    id: ConstraintId,
) -> Result<(), DeviceFault>
    ensures { Writes (W.state sink.old) (W.state sink.new) result
        (asked_member catalogue.now (slice_get catalogue.now.constraints id)) }
{
    write_asked_of(sink, catalogue, catalogue.constraint(id))
}

/// The name of a constraint, and what it asks.
#[tactic(auto, using(iv_text::proofs::WriteLemmas::writes_then))]
pub(crate) fn write_described<W: Sink>(
    sink: &mut W,
    catalogue: &Catalogue,
    id: ConstraintId,
) -> Result<(), DeviceFault>
    ensures { Writes (W.state sink.old) (W.state sink.new) result
        (described_members catalogue.now id) }
{
    write_member(sink, b"constraint")?;
    write_name(sink, catalogue.constraints(), id)?;
    write_asked(sink, catalogue, id)
}
