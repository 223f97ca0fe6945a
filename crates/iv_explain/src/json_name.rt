//! What is told in JSON of a name that a refusal is about.
ghost use Rattle.std.specs.Prelude.{◌++◌, codes};
ghost use Rattle.std.specs.List.{flat_map};
ghost use Rattle.std.specs.Option.{option_copied};
ghost use Rattle.iv_catalogue.specs.Names.{generated_name};
ghost use Rattle.iv_text.specs.Json.{json_text};
ghost use Rattle.iv_text.specs.Writing.{Writes};
ghost use Rattle.iv_resolution.specs.Items.{generated_item};
ghost use Rattle.iv_resolve_name_faults.specs.Seen.{fault_seen, item_seen};
ghost use Rattle.iv_explain.specs.JsonNames.{fault_key, generated_parts, item_members, json_fault, named_members, range_member};

use itoa::Buffer;
use iv_resolve_name_faults::{NameFault, NamedItem};
use iv_text::{
    DeviceFault, Sink, write_all, write_json_bytes, write_json_text, write_key, write_member,
    write_nothing, write_text_member,
};

// What is named, and its name.
#[tactic(auto, using(iv_text::proofs::WriteLemmas::writes_then))]
fn write_named<W: Sink>(writer: &mut W, what: &[u8], name: &str) -> Result<(), DeviceFault>
    ensures { Writes (W.state writer.old) (W.state writer.new) result (named_members what.now name.now) }
{
    write_member(writer, b"item")?;
    write_json_text(writer, what)?;
    write_text_member(writer, b"name", name.as_bytes())
}

#[tactic(auto, using(iv_text::proofs::WriteLemmas::writes_then))]
fn write_range<W: Sink>(writer: &mut W, range: Option<&str>) -> Result<(), DeviceFault>
    ensures { Writes (W.state writer.old) (W.state writer.new) result
        (range_member (option_copied range.entry)) }
{
    match range {
        Some(range) => write_text_member(writer, b"range", range.as_bytes()),
        None => write_nothing(writer),
    }
}

#[tactic(auto, using(iv_text::proofs::WriteLemmas::writes_then))]
fn write_column<W: Sink>(writer: &mut W, range: Option<&str>, name: &str) -> Result<(), DeviceFault>
    ensures { Writes (W.state writer.old) (W.state writer.new) result
        (named_members (codes "column") name.now ++ range_member (option_copied range.entry)) }
{
    write_named(writer, b"column", name)?;
    write_range(writer, range)
}

// The parts of the name that is generated for a constraint, in its quotes.
#[tactic(auto, using(iv_text::proofs::WriteLemmas::writes_then))]
fn write_generated_parts<W: Sink>(
    writer: &mut W,
    table: &str,
    place: u128,
) -> Result<(), DeviceFault>
    ensures { Writes (W.state writer.old) (W.state writer.new) result
        (generated_parts table.now place) }
{
    let mut buffer = Buffer::new();
    write_all(writer, b"\"")?;
    write_json_bytes(writer, table.as_bytes())?;
    write_json_bytes(writer, b"_C")?;
    write_json_bytes(writer, buffer.format(place).as_bytes())?;
    write_all(writer, b"\"")
}

// The name that is generated for a constraint.
fn write_generated_name<W: Sink>(
    writer: &mut W,
    table: &str,
    place: u128,
) -> Result<(), DeviceFault>
    ensures { Writes (W.state writer.old) (W.state writer.new) result
        (json_text (generated_name table.now place)) }
{
    write_generated_parts(writer, table, place)
}

// A constraint without a name.
#[tactic(auto, using(iv_text::proofs::WriteLemmas::writes_then))]
fn write_generated<W: Sink>(writer: &mut W, table: &str, place: u128) -> Result<(), DeviceFault>
    ensures { Writes (W.state writer.old) (W.state writer.new) result
        (item_members (generated_item table.now place)) }
{
    write_member(writer, b"item")?;
    write_json_text(writer, b"constraint")?;
    write_member(writer, b"name")?;
    write_generated_name(writer, table, place)
}

fn write_item<W: Sink>(writer: &mut W, item: NamedItem<'_>) -> Result<(), DeviceFault>
    ensures { Writes (W.state writer.old) (W.state writer.new) result (item_members (item_seen item.entry)) }
{
    match item {
        NamedItem::Table(name) => write_named(writer, b"table", name),
        NamedItem::Column(range, name) => write_column(writer, range, name),
        NamedItem::RowVariable(name) => write_named(writer, b"row_variable", name),
        NamedItem::Trigger(name) => write_named(writer, b"trigger", name),
        NamedItem::Constraint(name) => write_named(writer, b"constraint", name),
        NamedItem::GeneratedConstraint(table, place) => write_generated(writer, table, place),
        NamedItem::Transition(name) => write_named(writer, b"referencing_name", name),
    }
}

#[tactic(auto, using(iv_text::proofs::WriteLemmas::writes_then))]
fn write_fault_key<W: Sink>(writer: &mut W, fault: &[u8]) -> Result<(), DeviceFault>
    ensures { Writes (W.state writer.old) (W.state writer.new) result (fault_key fault.now) }
{
    write_all(writer, b"{")?;
    write_key(writer, b"fault")?;
    write_json_text(writer, fault)
}

// What is wrong with an item.
#[tactic(auto, using(iv_text::proofs::WriteLemmas::writes_then))]
fn write_judged<W: Sink>(
    writer: &mut W,
    fault: &[u8],
    item: NamedItem<'_>,
) -> Result<(), DeviceFault>
    ensures { Writes (W.state writer.old) (W.state writer.new) result
        (fault_key fault.now ++ (item_members (item_seen item.entry) ++ codes "}")) }
{
    write_fault_key(writer, fault)?;
    write_item(writer, item)?;
    write_all(writer, b"}")
}

/// Writes the object that tells what is wrong with a name.
pub fn write_json_fault<W: Sink>(writer: &mut W, fault: NameFault<'_>) -> Result<(), DeviceFault>
    ensures { Writes (W.state writer.old) (W.state writer.new) result
        (json_fault (fault_seen fault.entry)) }
{
    match fault {
        NameFault::Unknown(item) => write_judged(writer, b"unknown", item),
        NameFault::InUse(item) => write_judged(writer, b"in_use", item),
        NameFault::Twice(item) => write_judged(writer, b"twice", item),
    }
}
