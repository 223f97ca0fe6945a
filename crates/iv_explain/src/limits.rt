//! The limit that a statement is beyond.
ghost use Rattle.std.specs.Prelude.{◌++◌, codes};
ghost use Rattle.iv_text.specs.Writing.{Writes};
ghost use Rattle.iv_resolve_name_faults.specs.Seen.{item_seen};
ghost use Rattle.iv_resolve_reasons.specs.Seen.{limit_fault_seen};
ghost use Rattle.iv_resolve_reasons.specs.Limits.{many_characters, many_columns, many_constraints, many_key_columns, many_statements, many_tables, many_triggers, many_triggers_ever, no_characters};
ghost use Rattle.iv_explain.specs.Reasons.{limit_text};
ghost use Rattle.iv_text.specs.Spelled.{spelled};

use crate::parts::Part;
use crate::sentences::{tell_five, tell_seven, tell_six, tell_three};
use iv_resolve_name_faults::NamedItem;
use iv_resolve_reasons::LimitFault;
use iv_text::{DeviceFault, Format, Sink, tell};

fn tell_tables<W: Sink>(
    writer: &mut W,
    format: Format,
    most: usize,
    asked: usize,
) -> Result<(), DeviceFault>
    ensures { Writes (W.state writer.old) (W.state writer.new) result
        (spelled format (limit_text (many_tables most asked))) }
{
    tell_five(
        writer,
        format,
        Part::Words("there would be "),
        Part::Number(asked as u128),
        Part::Words(" tables, and "),
        Part::Number(most as u128),
        Part::Words(" is the most"),
    )
}

fn tell_table_columns<W: Sink>(
    writer: &mut W,
    format: Format,
    table: &str,
    most: usize,
    asked: usize,
) -> Result<(), DeviceFault>
    ensures { Writes (W.state writer.old) (W.state writer.new) result
        (spelled format (limit_text (many_columns table.now most asked))) }
{
    tell_seven(
        writer,
        format,
        Part::Words("table "),
        Part::Words(table),
        Part::Words(" would have "),
        Part::Number(asked as u128),
        Part::Words(" columns, and "),
        Part::Number(most as u128),
        Part::Words(" is the most"),
    )
}

fn tell_constraints<W: Sink>(
    writer: &mut W,
    format: Format,
    table: &str,
    most: usize,
    asked: u128,
) -> Result<(), DeviceFault>
    ensures { Writes (W.state writer.old) (W.state writer.new) result
        (spelled format (limit_text (many_constraints table.now most asked))) }
{
    tell_seven(
        writer,
        format,
        Part::Words("table "),
        Part::Words(table),
        Part::Words(" would have "),
        Part::Number(asked),
        Part::Words(" constraints, and "),
        Part::Number(most as u128),
        Part::Words(" is the most"),
    )
}

fn tell_key<W: Sink>(
    writer: &mut W,
    format: Format,
    constraint: NamedItem<'_>,
    most: usize,
    asked: usize,
) -> Result<(), DeviceFault>
    ensures { Writes (W.state writer.old) (W.state writer.new) result
        (spelled format (limit_text (many_key_columns (item_seen constraint.entry) most asked))) }
{
    tell_six(
        writer,
        format,
        Part::Item(constraint),
        Part::Words(" would have "),
        Part::Number(asked as u128),
        Part::Words(" columns, and "),
        Part::Number(most as u128),
        Part::Words(" is the most"),
    )
}

fn tell_no_characters<W: Sink>(
    writer: &mut W,
    format: Format,
    column: &str,
) -> Result<(), DeviceFault>
    ensures { Writes (W.state writer.old) (W.state writer.new) result
        (spelled format (limit_text (no_characters column.now))) }
{
    tell_three(
        writer,
        format,
        Part::Words("column "),
        Part::Words(column),
        Part::Words(" is a VARCHAR(0), and 1 is the least"),
    )
}

fn tell_characters<W: Sink>(
    writer: &mut W,
    format: Format,
    column: &str,
    most: u64,
    asked: u64,
) -> Result<(), DeviceFault>
    ensures { Writes (W.state writer.old) (W.state writer.new) result
        (spelled format (limit_text (many_characters column.now most asked))) }
{
    tell_seven(
        writer,
        format,
        Part::Words("column "),
        Part::Words(column),
        Part::Words(" is a VARCHAR("),
        Part::Number(asked as u128),
        Part::Words("), and "),
        Part::Number(most as u128),
        Part::Words(" is the most"),
    )
}

fn tell_triggers<W: Sink>(
    writer: &mut W,
    format: Format,
    most: usize,
    asked: usize,
) -> Result<(), DeviceFault>
    ensures { Writes (W.state writer.old) (W.state writer.new) result
        (spelled format (limit_text (many_triggers most asked))) }
{
    tell_five(
        writer,
        format,
        Part::Words("there would be "),
        Part::Number(asked as u128),
        Part::Words(" triggers, and "),
        Part::Number(most as u128),
        Part::Words(" is the most"),
    )
}

fn tell_ever<W: Sink>(
    writer: &mut W,
    format: Format,
    most: u32,
    asked: u64,
) -> Result<(), DeviceFault>
    ensures { Writes (W.state writer.old) (W.state writer.new) result
        (spelled format (limit_text (many_triggers_ever most asked))) }
{
    tell_five(
        writer,
        format,
        Part::Words("it would be trigger "),
        Part::Number(asked as u128),
        Part::Words(" that was ever created, and "),
        Part::Number(most as u128),
        Part::Words(" is the most"),
    )
}

fn tell_statements<W: Sink>(
    writer: &mut W,
    format: Format,
    trigger: &str,
    most: usize,
    asked: usize,
) -> Result<(), DeviceFault>
    ensures { Writes (W.state writer.old) (W.state writer.new) result
        (spelled format (limit_text (many_statements trigger.now most asked))) }
{
    tell_seven(
        writer,
        format,
        Part::Words("trigger "),
        Part::Words(trigger),
        Part::Words(" would have "),
        Part::Number(asked as u128),
        Part::Words(" statements, and "),
        Part::Number(most as u128),
        Part::Words(" is the most"),
    )
}

/// Writes the limit that a statement is beyond.
pub fn tell_limit<W: Sink>(
    writer: &mut W,
    format: Format,
    fault: LimitFault<'_>,
) -> Result<(), DeviceFault>
    ensures { Writes (W.state writer.old) (W.state writer.new) result
        (spelled format (limit_text (limit_fault_seen fault.entry))) }
{
    match fault {
        LimitFault::Tables { most, asked } => tell_tables(writer, format, most, asked),
        LimitFault::Columns { table, most, asked } => {
            tell_table_columns(writer, format, table, most, asked)
        }
        LimitFault::Constraints { table, most, asked } => {
            tell_constraints(writer, format, table, most, asked)
        }
        LimitFault::KeyColumns {
            constraint,
            most,
            asked,
        } => tell_key(writer, format, constraint, most, asked),
        LimitFault::NoCharacters { column } => tell_no_characters(writer, format, column),
        LimitFault::Characters {
            column,
            most,
            asked,
        } => tell_characters(writer, format, column, most, asked),
        LimitFault::Triggers { most, asked } => tell_triggers(writer, format, most, asked),
        LimitFault::TriggersEver { most, asked } => tell_ever(writer, format, most, asked),
        LimitFault::Statements {
            trigger,
            most,
            asked,
        } => tell_statements(writer, format, trigger, most, asked),
        LimitFault::NoText => tell(writer, format, b"no text is this statement"),
    }
}
