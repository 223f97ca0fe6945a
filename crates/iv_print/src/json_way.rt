//! The last entry of a statement that is refused for a limit, as JSON.
ghost use Rattle.std.specs.Prelude.{◌≡◌, ◌++◌, [], Some, None};
ghost use Rattle.iv_text.specs.Json.{json_text};
ghost use Rattle.iv_print.specs.JsonAccounts.{limit_entry, limit_object, limit_separator};
ghost use Rattle.iv_text.specs.Ways.{limit_text};
ghost use Rattle.iv_text.specs.Writing.{Writes};

use crate::json_account::write_entry_key;
use iv_account::Entry;
use iv_catalogue::{Catalogue, Refusal};
use iv_machine::{Answer, Limits};
use iv_text::json::write_member;
use iv_text::{DeviceFault, Format, Limit, Sink, limit_of, tell_limit, write_all, write_nothing};

// The words between their quotes.
#[tactic(auto, using(iv_text::proofs::WriteLemmas::writes_then), unfolding(iv_text::specs::Spelled::spelled, iv_text::specs::Json::json_text))]
fn write_text<W: Sink>(
    sink: &mut W,
    catalogue: &Catalogue,
    limits: Limits,
    entries: &[Entry],
    limit: Limit,
) -> Result<(), DeviceFault>
    ensures { Writes (W.state sink.old) (W.state sink.new) result
        (json_text (limit_text catalogue.now limits entries.now limit)) }
{
    write_all(sink, b"\"")?;
    tell_limit(sink, Format::Json, catalogue, limits, entries, limit)?;
    write_all(sink, b"\"")
}

#[tactic(auto, using(iv_text::proofs::WriteLemmas::writes_then))]
fn write_object<W: Sink>(
    sink: &mut W,
    catalogue: &Catalogue,
    limits: Limits,
    entries: &[Entry],
    limit: Limit,
) -> Result<(), DeviceFault>
    ensures { Writes (W.state sink.old) (W.state sink.new) result
        (limit_object catalogue.now limits entries.now limit) }
{
    write_entry_key(sink, b"limit")?;
    write_member(sink, b"text")?;
    write_text(sink, catalogue, limits, entries, limit)?;
    write_all(sink, b"}")
}

fn separator(entries: &[Entry]) -> &'static [u8]
    ensures { result.now ≡ limit_separator entries.now }
{
    match entries {
        [] => b"",
        [_, ..] => b",",
    }
}

#[tactic(auto, using(iv_text::proofs::WriteLemmas::writes_then))]
fn write_separated<W: Sink>(
    sink: &mut W,
    catalogue: &Catalogue,
    limits: Limits,
    entries: &[Entry],
    limit: Limit,
) -> Result<(), DeviceFault>
    ensures { Writes (W.state sink.old) (W.state sink.new) result
        (limit_separator entries.now ++ limit_object catalogue.now limits entries.now limit) }
{
    write_all(sink, separator(entries))?;
    write_object(sink, catalogue, limits, entries, limit)
}

fn write_entry_of<W: Sink>(
    sink: &mut W,
    catalogue: &Catalogue,
    limits: Limits,
    entries: &[Entry],
    limit: Option<Limit>,
) -> Result<(), DeviceFault>
    ensures { Writes (W.state sink.old) (W.state sink.new) result
        (elim limit [ Some l ↦ limit_separator entries.now ++ limit_object catalogue.now limits entries.now l | None ↦ [] ]) }
{
    match limit {
        Some(limit) => write_separated(sink, catalogue, limits, entries, limit),
        None => write_nothing(sink),
    }
}

/// The entry of a statement that is refused for a limit.
pub(crate) fn write_limit_entry<W: Sink>(
    sink: &mut W,
    catalogue: &Catalogue,
    limits: Limits,
    entries: &[Entry],
    outcome: &Result<Answer, Refusal>,
) -> Result<(), DeviceFault>
    ensures { Writes (W.state sink.old) (W.state sink.new) result
        (limit_entry catalogue.now limits entries.now outcome.now) }
{
    match outcome {
        Ok(_) => write_nothing(sink),
        Err(refusal) => write_entry_of(sink, catalogue, limits, entries, limit_of(&refusal.cause)),
    }
}
