//! The rule of definitions that a statement breaks.
ghost use Rattle.std.specs.Prelude.{◌++◌, codes};
ghost use Rattle.iv_text.specs.Writing.{Writes};
ghost use Rattle.iv_resolve_name_faults.specs.Seen.{item_seen};
ghost use Rattle.iv_resolve_reasons.specs.Seen.{schema_fault_seen};
ghost use Rattle.iv_resolve_reasons.specs.SchemaFaults.{change_before, columnless_table, contradictory_time, exists_in_check, item_again, row_of_statement, second_primary_key};
ghost use Rattle.iv_resolve_reasons.specs.SchemaFaults.{set_after, set_of_old, set_of_statement, side_without_rows, table_before, unfit_default};
ghost use Rattle.iv_explain.specs.Reasons.{rule_text};
ghost use Rattle.iv_text.specs.Spelled.{spelled};

use crate::parts::Part;
use crate::references::tell_foreign_key;
use crate::sentences::{tell_five, tell_seven, tell_six, tell_three, tell_two};
use iv_expr::Side;
use iv_resolve_name_faults::NamedItem;
use iv_resolve_reasons::SchemaFault;
use iv_syntax::{ColumnType, Literal, TransitionName, TriggerEvent};
use iv_text::{DeviceFault, Format, Sink};

// A table without columns.
fn tell_columnless<W: Sink>(writer: &mut W, format: Format, table: &str) -> Result<(), DeviceFault>
    ensures { Writes (W.state writer.old) (W.state writer.new) result
        (spelled format (rule_text (columnless_table table.now))) }
{
    tell_three(
        writer,
        format,
        Part::Words("table "),
        Part::Words(table),
        Part::Words(" has no column"),
    )
}

// A DEFAULT that doesn't fit its column.
fn tell_default<W: Sink>(
    writer: &mut W,
    format: Format,
    column: &str,
    kind: ColumnType,
    default: &Literal,
) -> Result<(), DeviceFault>
    ensures { Writes (W.state writer.old) (W.state writer.new) result
        (spelled format (rule_text (unfit_default column.now kind default.now))) }
{
    tell_six(
        writer,
        format,
        Part::Words("column "),
        Part::Words(column),
        Part::Words(" is "),
        Part::Kind(kind),
        Part::Words(", and its DEFAULT is "),
        Part::Default(default),
    )
}

fn tell_second_key<W: Sink>(
    writer: &mut W,
    format: Format,
    constraint: NamedItem<'_>,
) -> Result<(), DeviceFault>
    ensures { Writes (W.state writer.old) (W.state writer.new) result
        (spelled format (rule_text (second_primary_key (item_seen constraint.entry)))) }
{
    tell_two(
        writer,
        format,
        Part::Item(constraint),
        Part::Words(" is the second PRIMARY KEY of its table"),
    )
}

fn tell_time<W: Sink>(
    writer: &mut W,
    format: Format,
    constraint: NamedItem<'_>,
) -> Result<(), DeviceFault>
    ensures { Writes (W.state writer.old) (W.state writer.new) result
        (spelled format (rule_text (contradictory_time (item_seen constraint.entry)))) }
{
    tell_two(
        writer,
        format,
        Part::Item(constraint),
        Part::Words(" is NOT DEFERRABLE and INITIALLY DEFERRED"),
    )
}

fn tell_exists<W: Sink>(
    writer: &mut W,
    format: Format,
    constraint: NamedItem<'_>,
) -> Result<(), DeviceFault>
    ensures { Writes (W.state writer.old) (W.state writer.new) result
        (spelled format (rule_text (exists_in_check (item_seen constraint.entry)))) }
{
    tell_two(
        writer,
        format,
        Part::Item(constraint),
        Part::Words(" is a CHECK with EXISTS"),
    )
}

fn tell_item_again<W: Sink>(
    writer: &mut W,
    format: Format,
    side: Side,
    what: TransitionName,
) -> Result<(), DeviceFault>
    ensures { Writes (W.state writer.old) (W.state writer.new) result
        (spelled format (rule_text (item_again side what))) }
{
    tell_five(
        writer,
        format,
        Part::Words("REFERENCING names the "),
        Part::Side(side),
        Part::Words(" "),
        Part::What(what),
        Part::Words(" twice"),
    )
}

fn tell_side<W: Sink>(
    writer: &mut W,
    format: Format,
    name: &str,
    side: Side,
    event: TriggerEvent,
) -> Result<(), DeviceFault>
    ensures { Writes (W.state writer.old) (W.state writer.new) result
        (spelled format (rule_text (side_without_rows name.now side event))) }
{
    tell_seven(
        writer,
        format,
        Part::Words("REFERENCING name "),
        Part::Words(name),
        Part::Words(" is for "),
        Part::Side(side),
        Part::Words(" rows, and "),
        Part::Event(event),
        Part::Words(" has none"),
    )
}

fn tell_row<W: Sink>(writer: &mut W, format: Format, name: &str) -> Result<(), DeviceFault>
    ensures { Writes (W.state writer.old) (W.state writer.new) result
        (spelled format (rule_text (row_of_statement name.now))) }
{
    tell_three(
        writer,
        format,
        Part::Words("REFERENCING name "),
        Part::Words(name),
        Part::Words(" is for a row, and the trigger is FOR EACH STATEMENT"),
    )
}

fn tell_table<W: Sink>(writer: &mut W, format: Format, name: &str) -> Result<(), DeviceFault>
    ensures { Writes (W.state writer.old) (W.state writer.new) result
        (spelled format (rule_text (table_before name.now))) }
{
    tell_three(
        writer,
        format,
        Part::Words("REFERENCING name "),
        Part::Words(name),
        Part::Words(" is for a table, and the trigger is BEFORE"),
    )
}

fn tell_change<W: Sink>(writer: &mut W, format: Format, number: usize) -> Result<(), DeviceFault>
    ensures { Writes (W.state writer.old) (W.state writer.new) result
        (spelled format (rule_text (change_before number))) }
{
    tell_three(
        writer,
        format,
        Part::Words("statement "),
        Part::Number(number as u128),
        Part::Words(" is INSERT, UPDATE or DELETE, and the trigger is BEFORE"),
    )
}

fn tell_set_after<W: Sink>(writer: &mut W, format: Format, number: usize) -> Result<(), DeviceFault>
    ensures { Writes (W.state writer.old) (W.state writer.new) result
        (spelled format (rule_text (set_after number))) }
{
    tell_three(
        writer,
        format,
        Part::Words("statement "),
        Part::Number(number as u128),
        Part::Words(" is SET, and the trigger is AFTER"),
    )
}

fn tell_set_of_statement<W: Sink>(
    writer: &mut W,
    format: Format,
    number: usize,
) -> Result<(), DeviceFault>
    ensures { Writes (W.state writer.old) (W.state writer.new) result
        (spelled format (rule_text (set_of_statement number))) }
{
    tell_three(
        writer,
        format,
        Part::Words("statement "),
        Part::Number(number as u128),
        Part::Words(" is SET, and the trigger is FOR EACH STATEMENT"),
    )
}

fn tell_set_of_old<W: Sink>(
    writer: &mut W,
    format: Format,
    number: usize,
    variable: &str,
    column: &str,
) -> Result<(), DeviceFault>
    ensures { Writes (W.state writer.old) (W.state writer.new) result
        (spelled format (rule_text (set_of_old number variable.now column.now))) }
{
    tell_seven(
        writer,
        format,
        Part::Words("statement "),
        Part::Number(number as u128),
        Part::Words(" sets "),
        Part::Words(variable),
        Part::Words("."),
        Part::Words(column),
        Part::Words(", which is of the old row"),
    )
}

/// Writes the rule that is broken.
pub fn tell_rule<W: Sink>(
    writer: &mut W,
    format: Format,
    fault: SchemaFault<'_>,
) -> Result<(), DeviceFault>
    ensures { Writes (W.state writer.old) (W.state writer.new) result
        (spelled format (rule_text (schema_fault_seen fault.entry))) }
{
    match fault {
        SchemaFault::ColumnlessTable(table) => tell_columnless(writer, format, table),
        SchemaFault::UnfitDefault {
            column,
            kind,
            default,
        } => tell_default(writer, format, column, kind, default),
        SchemaFault::SecondPrimaryKey(item) => tell_second_key(writer, format, item),
        SchemaFault::ContradictoryTime(item) => tell_time(writer, format, item),
        SchemaFault::ExistsInCheck(item) => tell_exists(writer, format, item),
        SchemaFault::Reference {
            constraint,
            table,
            fault,
        } => tell_foreign_key(writer, format, constraint, table, fault),
        SchemaFault::ItemAgain(side, what) => tell_item_again(writer, format, side, what),
        SchemaFault::SideWithoutRows(name, side, event) => {
            tell_side(writer, format, name, side, event)
        }
        SchemaFault::RowOfStatement(name) => tell_row(writer, format, name),
        SchemaFault::TableBefore(name) => tell_table(writer, format, name),
        SchemaFault::ChangeBefore(number) => tell_change(writer, format, number),
        SchemaFault::SetAfter(number) => tell_set_after(writer, format, number),
        SchemaFault::SetOfStatement(number) => tell_set_of_statement(writer, format, number),
        SchemaFault::SetOfOld {
            number,
            variable,
            column,
        } => tell_set_of_old(writer, format, number, variable, column),
    }
}
