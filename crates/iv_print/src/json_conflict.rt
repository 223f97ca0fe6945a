//! A refusal for two foreign keys that disagree, as JSON.
ghost use Rattle.std.specs.Prelude.{◌≡◌, slice_get};
ghost use Rattle.std.specs.Option.{option_copied};
ghost use Rattle.iv_text.specs.Writing.{Writes};
ghost use Rattle.iv_print.specs.JsonAccounts.{conflict_entry, conflict_members, refers_members, rule_refers_members, settings_members};

use crate::json_account::{
    write_because, write_column, write_entry_key, write_place, write_referenced,
};
use crate::json_rule::write_described;
use iv_account::Disagreement;
use iv_catalogue::{Catalogue, Constraint, ConstraintId, Rule};
use iv_expr::{StoredRow, TableId};
use iv_text::json::{write_member, write_name, write_row, write_value};
use iv_text::{DeviceFault, Sink, write_all, write_nothing};
use iv_value::Value;

// Why, and the key to which a row of these values refers by a rule.
#[tactic(auto, using(iv_text::proofs::WriteLemmas::writes_then))]
fn write_refers_by<W: Sink>(
    sink: &mut W,
    catalogue: &Catalogue,
    values: &[Value],
    rule: &Rule,
) -> Result<(), DeviceFault>
    ensures { Writes (W.state sink.old) (W.state sink.new) result
        (rule_refers_members catalogue.now values.now rule.now) }
{
    match rule {
        Rule::ForeignKey(key) => {
            write_because(sink, b"action_conflict")?;
            write_referenced(sink, catalogue, values, key)
        }
        _ => write_nothing(sink),
    }
}

// The key to which a row of these values refers by a constraint that is there.
fn write_refers<W: Sink>(
    sink: &mut W,
    catalogue: &Catalogue,
    values: &[Value],
    constraint: Option<&Constraint>,
) -> Result<(), DeviceFault>
    ensures { Writes (W.state sink.old) (W.state sink.new) result
        (refers_members catalogue.now values.now (option_copied constraint.entry)) }
{
    match constraint {
        Some(constraint) => write_refers_by(sink, catalogue, values, &constraint.rule),
        None => write_nothing(sink),
    }
}

// The earlier foreign key, the column, and what this one and that one set it to.
#[tactic(auto, using(iv_text::proofs::WriteLemmas::writes_then))]
fn write_settings<W: Sink>(
    sink: &mut W,
    catalogue: &Catalogue,
    table: TableId,
    how: &Disagreement,
) -> Result<(), DeviceFault>
    ensures { Writes (W.state sink.old) (W.state sink.new) result
        (settings_members catalogue.now table how.now) }
{
    write_member(sink, b"other_constraint")?;
    write_name(sink, catalogue.constraints(), how.earlier)?;
    write_member(sink, b"column")?;
    write_column(sink, catalogue, table, u64::from(how.column))?;
    write_member(sink, b"value")?;
    write_value(sink, &how.value)?;
    write_member(sink, b"other_value")?;
    write_value(sink, &how.earlier_value)
}

// The first of the rows, the key to which it refers, and how the foreign keys disagree.
#[tactic(auto, using(iv_text::proofs::WriteLemmas::writes_then))]
fn write_first<W: Sink>(
    sink: &mut W,
    catalogue: &Catalogue,
    constraint: ConstraintId,
    rows: &[StoredRow],
    how: &Disagreement,
) -> Result<(), DeviceFault>
    ensures { Writes (W.state sink.old) (W.state sink.new) result
        (conflict_members catalogue.now
        (slice_get catalogue.now.constraints constraint) rows.now how.now) }
{
    match rows {
        [] => write_nothing(sink),
        [row, ..] => {
            let values = row.values.values();
            write_place(sink, catalogue, row.table, row.number)?;
            write_member(sink, b"values")?;
            write_row(sink, values)?;
            write_refers(sink, catalogue, values, catalogue.constraint(constraint))?;
            write_settings(sink, catalogue, row.table, how)
        }
    }
}

/// The entry of two foreign keys that disagree about a row.
#[tactic(auto, using(iv_text::proofs::WriteLemmas::writes_then))]
pub(crate) fn write_conflict<W: Sink>(
    sink: &mut W,
    catalogue: &Catalogue,
    constraint: ConstraintId,
    rows: &[StoredRow],
    how: &Disagreement,
) -> Result<(), DeviceFault>
    ensures { Writes (W.state sink.old) (W.state sink.new) result
        (conflict_entry catalogue.now constraint rows.now how.now) }
{
    write_entry_key(sink, b"violation")?;
    write_described(sink, catalogue, constraint)?;
    write_first(sink, catalogue, constraint, rows, how)?;
    write_all(sink, b"}")
}
