//! A constraint that isn't added, as JSON.
ghost use Rattle.std.specs.Prelude.{◌≡◌, Some};
ghost use Rattle.iv_print.specs.JsonAccounts.{described_members_of, not_added_entry, violation_members};
ghost use Rattle.iv_text.specs.Writing.{Writes};

use crate::json_account::{write_entry_key, write_place, write_rule};
use crate::json_rule::write_asked_of;
use iv_catalogue::{Catalogue, Constraint, Refusal};
use iv_expr::StoredRow;
use iv_machine::Answer;
use iv_text::json::{write_json_text, write_member, write_row};
use iv_text::{DeviceFault, Sink, write_all, write_nothing};

// The first of the rows, and what is wrong with it.
#[tactic(auto, using(iv_text::proofs::WriteLemmas::writes_then))]
fn write_rows<W: Sink>(
    sink: &mut W,
    catalogue: &Catalogue,
    outcome: &Result<Answer, Refusal>,
    constraint: &Constraint,
    rows: &[StoredRow],
) -> Result<(), DeviceFault>
    ensures { Writes (W.state sink.old) (W.state sink.new) result
        (violation_members catalogue.now outcome.now (Some constraint.now) rows.now) }
{
    match rows {
        [] => write_nothing(sink),
        [row, others @ ..] => {
            write_place(sink, catalogue, row.table, row.number)?;
            write_member(sink, b"values")?;
            write_row(sink, row.values.values())?;
            write_rule(sink, catalogue, outcome, row, others, constraint)
        }
    }
}

// The name of the constraint, and what it asks.
#[tactic(auto, using(iv_text::proofs::WriteLemmas::writes_then))]
fn write_described<W: Sink>(
    sink: &mut W,
    catalogue: &Catalogue,
    constraint: &Constraint,
) -> Result<(), DeviceFault>
    ensures { Writes (W.state sink.old) (W.state sink.new) result
        (described_members_of catalogue.now constraint.now) }
{
    write_member(sink, b"constraint")?;
    write_json_text(sink, constraint.name.as_str().as_bytes())?;
    write_asked_of(sink, catalogue, Some(constraint))
}

/// The entry of a constraint that isn't added and of its rows, with the members of a violation.
#[tactic(auto, using(iv_text::proofs::WriteLemmas::writes_then))]
pub(crate) fn write_not_added<W: Sink>(
    sink: &mut W,
    catalogue: &Catalogue,
    outcome: &Result<Answer, Refusal>,
    constraint: &Constraint,
    rows: &[StoredRow],
) -> Result<(), DeviceFault>
    ensures { Writes (W.state sink.old) (W.state sink.new) result
        (not_added_entry catalogue.now outcome.now constraint.now rows.now) }
{
    write_entry_key(sink, b"not_added")?;
    write_described(sink, catalogue, constraint)?;
    write_rows(sink, catalogue, outcome, constraint, rows)?;
    write_all(sink, b"}")
}
