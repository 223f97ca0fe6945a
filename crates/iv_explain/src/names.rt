//! What is told of a name that a refusal is about.
ghost use Rattle.std.specs.Prelude.{◌++◌, codes};
ghost use Rattle.std.specs.Option.{option_copied};
ghost use Rattle.iv_catalogue.specs.Names.{generated_name};
ghost use Rattle.iv_text.specs.Writing.{Writes};
ghost use Rattle.iv_resolve_name_faults.specs.Seen.{fault_seen, item_seen};
ghost use Rattle.iv_explain.specs.Names.{column_text, fault_text, item_text};
ghost use Rattle.iv_text.specs.Spelled.{spelled};

use iv_resolve_name_faults::{NameFault, NamedItem};
use iv_text::{DeviceFault, Format, Sink, tell, tell_both, tell_number_after};

// A column after the range or row variable that is written before it.
#[tactic(auto, using(iv_text::proofs::SpelledLemmas::spelled_then))]
fn tell_qualified<W: Sink>(
    writer: &mut W,
    format: Format,
    range: &str,
    name: &str,
) -> Result<(), DeviceFault>
    ensures { Writes (W.state writer.old) (W.state writer.new) result
        (spelled format (codes "column " ++ (range.now ++ (codes "." ++ name.now)))) }
{
    tell(writer, format, b"column ")?;
    tell(writer, format, range.as_bytes())?;
    tell_both(writer, format, b".", name.as_bytes())
}

fn tell_column<W: Sink>(
    writer: &mut W,
    format: Format,
    range: Option<&str>,
    name: &str,
) -> Result<(), DeviceFault>
    ensures { Writes (W.state writer.old) (W.state writer.new) result
        (spelled format (column_text (option_copied range.entry) name.now)) }
{
    match range {
        Some(range) => tell_qualified(writer, format, range, name),
        None => tell_both(writer, format, b"column ", name.as_bytes()),
    }
}

// The name that is generated for a constraint, after these words.
#[tactic(auto, using(iv_text::proofs::SpelledLemmas::spelled_then), unfolding(iv_catalogue::specs::Names::generated_name))]
fn tell_generated<W: Sink>(
    writer: &mut W,
    format: Format,
    before: &[u8],
    table: &str,
    place: u128,
) -> Result<(), DeviceFault>
    ensures { Writes (W.state writer.old) (W.state writer.new) result
        (spelled format (before.now ++ generated_name table.now place)) }
{
    tell(writer, format, before)?;
    tell(writer, format, table.as_bytes())?;
    tell_number_after(writer, format, b"_C", place)
}

// Words before a name.
fn tell_named<W: Sink>(
    writer: &mut W,
    format: Format,
    words: &[u8],
    name: &str,
) -> Result<(), DeviceFault>
    ensures { Writes (W.state writer.old) (W.state writer.new) result
        (spelled format (words.now ++ name.now)) }
{
    tell_both(writer, format, words, name.as_bytes())
}

/// Writes what is named.
pub fn tell_item<W: Sink>(
    writer: &mut W,
    format: Format,
    item: NamedItem<'_>,
) -> Result<(), DeviceFault>
    ensures { Writes (W.state writer.old) (W.state writer.new) result
        (spelled format (item_text (item_seen item.entry))) }
{
    match item {
        NamedItem::Table(name) => tell_named(writer, format, b"table ", name),
        NamedItem::Column(range, name) => tell_column(writer, format, range, name),
        NamedItem::RowVariable(name) => tell_named(writer, format, b"row variable ", name),
        NamedItem::Trigger(name) => tell_named(writer, format, b"trigger ", name),
        NamedItem::Constraint(name) => tell_named(writer, format, b"constraint ", name),
        NamedItem::GeneratedConstraint(table, place) => {
            tell_generated(writer, format, b"constraint ", table, place)
        }
        NamedItem::Transition(name) => tell_named(writer, format, b"REFERENCING name ", name),
    }
}

// What is named, and what is said of it.
#[tactic(auto, using(iv_text::proofs::SpelledLemmas::spelled_then))]
fn tell_item_and<W: Sink>(
    writer: &mut W,
    format: Format,
    item: NamedItem<'_>,
    words: &[u8],
) -> Result<(), DeviceFault>
    ensures { Writes (W.state writer.old) (W.state writer.new) result
        (spelled format (item_text (item_seen item.entry) ++ words.now)) }
{
    tell_item(writer, format, item)?;
    tell(writer, format, words)
}

/// Writes what is wrong with a name.
pub fn tell_name_fault<W: Sink>(
    writer: &mut W,
    format: Format,
    fault: NameFault<'_>,
) -> Result<(), DeviceFault>
    ensures { Writes (W.state writer.old) (W.state writer.new) result
        (spelled format (fault_text (fault_seen fault.entry))) }
{
    match fault {
        NameFault::Unknown(item) => tell_item_and(writer, format, item, b" isn't there"),
        NameFault::InUse(item) => tell_item_and(writer, format, item, b" is there already"),
        NameFault::Twice(item) => tell_item_and(writer, format, item, b" comes twice"),
    }
}
