//! The line of a refusal for two foreign keys that disagree.
ghost use Rattle.std.specs.Prelude.{◌≡◌, slice_get};
ghost use Rattle.std.specs.Option.{option_copied};
ghost use Rattle.iv_text.specs.Writing.{Writes};
ghost use Rattle.iv_print.specs.AccountLines.{conflict_line, conflict_text, earlier_text, later_text, refers_text, rule_refers_text, settings_text};

use crate::account::{write_column, write_indent, write_listed, write_numbered, write_referenced};
use iv_account::Disagreement;
use iv_catalogue::{Catalogue, Constraint, ConstraintId, Rule};
use iv_expr::{StoredRow, TableId};
use iv_text::{
    DeviceFault, Sink, write_all, write_described, write_name, write_nothing, write_value,
};
use iv_value::Value;

// The key to which a row of these values refers by a rule.
fn write_refers_by<W: Sink>(
    sink: &mut W,
    catalogue: &Catalogue,
    values: &[Value],
    rule: &Rule,
) -> Result<(), DeviceFault>
    ensures { Writes (W.state sink.old) (W.state sink.new) result
        (rule_refers_text catalogue.now values.now rule.now) }
{
    match rule {
        Rule::ForeignKey(key) => write_referenced(sink, catalogue, values, key),
        _ => write_nothing(sink),
    }
}

// The key to which a row of these values refers by a constraint that is there.
fn write_refers<W: Sink>(
    sink: &mut W,
    catalogue: &Catalogue,
    values: &[Value],
    constraint: Option<&Constraint>,
) -> Result<(), DeviceFault>
    ensures { Writes (W.state sink.old) (W.state sink.new) result
        (refers_text catalogue.now values.now (option_copied constraint.entry)) }
{
    match constraint {
        Some(constraint) => write_refers_by(sink, catalogue, values, &constraint.rule),
        None => write_nothing(sink),
    }
}

// What the earlier foreign key sets a column to.
#[tactic(auto, using(iv_text::proofs::WriteLemmas::writes_then))]
fn write_earlier<W: Sink>(
    sink: &mut W,
    catalogue: &Catalogue,
    table: TableId,
    how: &Disagreement,
) -> Result<(), DeviceFault>
    ensures { Writes (W.state sink.old) (W.state sink.new) result
        (earlier_text catalogue.now table how.now) }
{
    write_all(sink, b", and ")?;
    write_name(sink, catalogue.constraints(), how.earlier)?;
    write_all(sink, b" sets ")?;
    write_column(sink, catalogue, table, u64::from(how.column))?;
    write_all(sink, b" to ")?;
    write_value(sink, &how.earlier_value)
}

// What this one sets it to.
#[tactic(auto, using(iv_text::proofs::WriteLemmas::writes_then))]
fn write_later<W: Sink>(
    sink: &mut W,
    catalogue: &Catalogue,
    constraint: ConstraintId,
    how: &Disagreement,
) -> Result<(), DeviceFault>
    ensures { Writes (W.state sink.old) (W.state sink.new) result
        (later_text catalogue.now constraint how.now) }
{
    write_all(sink, b", where ")?;
    write_name(sink, catalogue.constraints(), constraint)?;
    write_all(sink, b" sets it to ")?;
    write_value(sink, &how.value)
}

// What the earlier foreign key sets a column to, and what this one does.
#[tactic(auto, using(iv_text::proofs::WriteLemmas::writes_then))]
fn write_settings<W: Sink>(
    sink: &mut W,
    catalogue: &Catalogue,
    table: TableId,
    constraint: ConstraintId,
    how: &Disagreement,
) -> Result<(), DeviceFault>
    ensures { Writes (W.state sink.old) (W.state sink.new) result
        (settings_text catalogue.now table constraint how.now) }
{
    write_earlier(sink, catalogue, table, how)?;
    write_later(sink, catalogue, constraint, how)
}

// The first of the rows, the key to which it refers, and how the foreign keys disagree.
#[tactic(auto, using(iv_text::proofs::WriteLemmas::writes_then))]
fn write_row<W: Sink>(
    sink: &mut W,
    catalogue: &Catalogue,
    constraint: ConstraintId,
    rows: &[StoredRow],
    how: &Disagreement,
) -> Result<(), DeviceFault>
    ensures { Writes (W.state sink.old) (W.state sink.new) result
        (conflict_text catalogue.now constraint rows.now how.now) }
{
    match rows {
        [] => write_nothing(sink),
        [row, ..] => {
            write_numbered(sink, catalogue, row.table, row.number)?;
            write_listed(sink, row.values.values())?;
            write_refers(
                sink,
                catalogue,
                row.values.values(),
                catalogue.constraint(constraint),
            )?;
            write_settings(sink, catalogue, row.table, constraint, how)
        }
    }
}

/// The line of two foreign keys that disagree about a row.
#[tactic(auto, using(iv_text::proofs::WriteLemmas::writes_then))]
pub(crate) fn write_conflict<W: Sink>(
    sink: &mut W,
    catalogue: &Catalogue,
    depth: usize,
    constraint: ConstraintId,
    rows: &[StoredRow],
    how: &Disagreement,
) -> Result<(), DeviceFault>
    ensures { Writes (W.state sink.old) (W.state sink.new) result
        (conflict_line catalogue.now depth constraint rows.now how.now) }
{
    write_indent(sink, depth)?;
    write_described(sink, catalogue, constraint)?;
    write_all(sink, b": ")?;
    write_row(sink, catalogue, constraint, rows, how)?;
    write_all(sink, b"\n")
}
