//! The line of a constraint that isn't added.
ghost use Rattle.std.specs.Prelude.{◌≡◌, Some};
ghost use Rattle.iv_print.specs.AccountLines.{fault_rows_text, not_added_line};
ghost use Rattle.iv_text.specs.Writing.{Writes};

use crate::account::{write_indent, write_listed, write_numbered, write_rule};
use iv_catalogue::{Catalogue, Constraint, Refusal};
use iv_expr::StoredRow;
use iv_machine::Answer;
use iv_text::{DeviceFault, Sink, write_all, write_named, write_nothing};

// The first of the rows, and what is wrong with it.
#[tactic(auto, using(iv_text::proofs::WriteLemmas::writes_then))]
fn write_rows<W: Sink>(
    sink: &mut W,
    catalogue: &Catalogue,
    outcome: &Result<Answer, Refusal>,
    constraint: &Constraint,
    rows: &[StoredRow],
) -> Result<(), DeviceFault>
    ensures { Writes (W.state sink.old) (W.state sink.new) result
        (fault_rows_text catalogue.now outcome.now (Some constraint.now) rows.now) }
{
    match rows {
        [] => write_nothing(sink),
        [row, others @ ..] => {
            write_numbered(sink, catalogue, row.table, row.number)?;
            write_listed(sink, row.values.values())?;
            write_rule(sink, catalogue, outcome, row, others, constraint)
        }
    }
}

/// The line of a constraint that isn't added and of its rows, in the words of a violation.
#[tactic(auto, using(iv_text::proofs::WriteLemmas::writes_then))]
pub(crate) fn write_not_added<W: Sink>(
    sink: &mut W,
    catalogue: &Catalogue,
    outcome: &Result<Answer, Refusal>,
    depth: usize,
    constraint: &Constraint,
    rows: &[StoredRow],
) -> Result<(), DeviceFault>
    ensures { Writes (W.state sink.old) (W.state sink.new) result
        (not_added_line catalogue.now outcome.now depth constraint.now rows.now) }
{
    write_indent(sink, depth)?;
    write_named(sink, catalogue, constraint)?;
    write_all(sink, b": ")?;
    write_rows(sink, catalogue, outcome, constraint, rows)?;
    write_all(sink, b"\n")
}
