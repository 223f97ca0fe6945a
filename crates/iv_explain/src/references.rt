//! What is wrong with the reference of a foreign key.
ghost use Rattle.std.specs.Prelude.{◌++◌, codes};
ghost use Rattle.iv_text.specs.Writing.{Writes};
ghost use Rattle.iv_resolve_name_faults.specs.Seen.{item_seen};
ghost use Rattle.iv_resolve_reasons.specs.Seen.{reference_fault_seen};
ghost use Rattle.iv_resolve_reasons.specs.SchemaFaults.{deferrable_primary_key, no_primary_key, no_reliable_key, pair_count, pair_types, reference_at_fault};
ghost use Rattle.iv_explain.specs.Reasons.{own_text, reference_text, rule_text};
ghost use Rattle.iv_text.specs.Spelled.{spelled};

use crate::names::tell_item;
use crate::parts::Part;
use crate::sentences::{tell_five, tell_four, tell_six, tell_three};
use crate::shapes::tell_and_typed;
use iv_resolve_name_faults::NamedItem;
use iv_resolve_reasons::ReferenceFault;
use iv_syntax::{ColumnType, Name};
use iv_text::{DeviceFault, Format, Sink};

// So many columns refer to so many others of a table.
fn tell_pair_count<W: Sink>(
    writer: &mut W,
    format: Format,
    table: &str,
    columns: usize,
    referenced: usize,
) -> Result<(), DeviceFault>
    ensures { Writes (W.state writer.old) (W.state writer.new) result
        (spelled format (reference_text table.now (pair_count columns referenced))) }
{
    tell_six(
        writer,
        format,
        Part::Words(" has "),
        Part::Columns(columns),
        Part::Words(", and refers to "),
        Part::Columns(referenced),
        Part::Words(" of "),
        Part::Words(table),
    )
}

// A column of a foreign key and its type.
fn tell_own<W: Sink>(
    writer: &mut W,
    format: Format,
    column: &str,
    kind: ColumnType,
) -> Result<(), DeviceFault>
    ensures { Writes (W.state writer.old) (W.state writer.new) result
        (spelled format (own_text column.now kind)) }
{
    tell_four(
        writer,
        format,
        Part::Words(": column "),
        Part::Words(column),
        Part::Words(" is "),
        Part::Kind(kind),
    )
}

// A column and the one that it refers to.
#[tactic(auto, using(iv_text::proofs::SpelledLemmas::spelled_then))]
fn tell_pair<W: Sink>(
    writer: &mut W,
    format: Format,
    table: &str,
    column: &str,
    kind: ColumnType,
    other: &str,
    other_kind: ColumnType,
) -> Result<(), DeviceFault>
    ensures { Writes (W.state writer.old) (W.state writer.new) result
        (spelled format (reference_text table.now (pair_types column.now kind other.now other_kind))) }
{
    tell_own(writer, format, column, kind)?;
    tell_and_typed(writer, format, table, other, other_kind)
}

fn tell_no_key<W: Sink>(
    writer: &mut W,
    format: Format,
    table: &str,
    names: &[Name],
) -> Result<(), DeviceFault>
    ensures { Writes (W.state writer.old) (W.state writer.new) result
        (spelled format (reference_text table.now (no_reliable_key names.now))) }
{
    tell_five(
        writer,
        format,
        Part::Words(" refers to "),
        Part::Words(table),
        Part::Words(" ("),
        Part::Names(names),
        Part::Words("), which is no key that is NOT DEFERRABLE"),
    )
}

fn tell_no_primary_key<W: Sink>(
    writer: &mut W,
    format: Format,
    table: &str,
) -> Result<(), DeviceFault>
    ensures { Writes (W.state writer.old) (W.state writer.new) result
        (spelled format (reference_text table.now no_primary_key)) }
{
    tell_three(
        writer,
        format,
        Part::Words(" refers to "),
        Part::Words(table),
        Part::Words(", which has no PRIMARY KEY"),
    )
}

fn tell_deferrable<W: Sink>(writer: &mut W, format: Format, table: &str) -> Result<(), DeviceFault>
    ensures { Writes (W.state writer.old) (W.state writer.new) result
        (spelled format (reference_text table.now deferrable_primary_key)) }
{
    tell_three(
        writer,
        format,
        Part::Words(" refers to "),
        Part::Words(table),
        Part::Words(", whose PRIMARY KEY is DEFERRABLE"),
    )
}

// What is wrong with a reference to this table.
fn tell_reference<W: Sink>(
    writer: &mut W,
    format: Format,
    table: &str,
    fault: ReferenceFault<'_>,
) -> Result<(), DeviceFault>
    ensures { Writes (W.state writer.old) (W.state writer.new) result
        (spelled format (reference_text table.now (reference_fault_seen fault.entry))) }
{
    match fault {
        ReferenceFault::PairCount {
            columns,
            referenced,
        } => tell_pair_count(writer, format, table, columns, referenced),
        ReferenceFault::PairTypes {
            column,
            kind,
            referenced,
            referenced_kind,
        } => tell_pair(
            writer,
            format,
            table,
            column,
            kind,
            referenced,
            referenced_kind,
        ),
        ReferenceFault::NoReliableKey(names) => tell_no_key(writer, format, table, names),
        ReferenceFault::NoPrimaryKey => tell_no_primary_key(writer, format, table),
        ReferenceFault::DeferrablePrimaryKey => tell_deferrable(writer, format, table),
    }
}

/// A foreign key and what is wrong with its reference.
#[tactic(auto, using(iv_text::proofs::SpelledLemmas::spelled_then))]
pub fn tell_foreign_key<W: Sink>(
    writer: &mut W,
    format: Format,
    constraint: NamedItem<'_>,
    table: &str,
    fault: ReferenceFault<'_>,
) -> Result<(), DeviceFault>
    ensures { Writes (W.state writer.old) (W.state writer.new) result
        (spelled format (rule_text (reference_at_fault (item_seen constraint.entry) table.now (reference_fault_seen fault.entry)))) }
{
    tell_item(writer, format, constraint)?;
    tell_reference(writer, format, table, fault)
}
