//! What is told of a CHECK whose condition is false.
ghost use Rattle.std.specs.Prelude.{◌++◌, codes, slice_get};
ghost use Rattle.iv_print.specs.AccountLines.{check_text};
ghost use Rattle.iv_text.specs.Conditions.{condition_text};
ghost use Rattle.iv_text.specs.Rules.{columns_of};
ghost use Rattle.iv_text.specs.Json.{json_text, member};
ghost use Rattle.iv_print.specs.JsonAccounts.{check_members};
ghost use Rattle.iv_text.specs.Writing.{Writes};
ghost use Rattle.iv_text.specs.declared.condition.Shown.TheVariants.{Names, Values};

use crate::json_account::write_because;
use iv_catalogue::{Catalogue, Column};
use iv_expr::{Cond, TableId};
use iv_text::json::write_member;
use iv_text::{DeviceFault, Format, Shown, Sink, columns_of, tell_condition, write_all};
use iv_value::Value;

// ---- in words

#[tactic(auto, unfolding(iv_text::specs::Spelled::spelled))]
fn write_condition<W: Sink>(
    sink: &mut W,
    shown: Shown,
    columns: &[Column],
    row: &[Value],
    condition: &Cond,
) -> Result<(), DeviceFault>
    ensures { Writes (W.state sink.old) (W.state sink.new) result
        (condition_text shown columns.now row.now condition.now) }
{
    tell_condition(sink, Format::Words, shown, columns, row, condition)
}

// The condition with the values of the row.
#[tactic(auto, using(iv_text::proofs::WriteLemmas::writes_then))]
fn write_with_values<W: Sink>(
    sink: &mut W,
    columns: &[Column],
    row: &[Value],
    condition: &Cond,
) -> Result<(), DeviceFault>
    ensures { Writes (W.state sink.old) (W.state sink.new) result
        (codes " false (" ++ (condition_text Values columns.now row.now condition.now ++ codes ")")) }
{
    write_all(sink, b" false (")?;
    write_condition(sink, Shown::Values, columns, row, condition)?;
    write_all(sink, b")")
}

#[tactic(auto, using(iv_text::proofs::WriteLemmas::writes_then))]
fn write_false<W: Sink>(
    sink: &mut W,
    columns: &[Column],
    row: &[Value],
    condition: &Cond,
) -> Result<(), DeviceFault>
    ensures { Writes (W.state sink.old) (W.state sink.new) result
        (check_text columns.now row.now condition.now) }
{
    write_all(sink, b" makes ")?;
    write_condition(sink, Shown::Names, columns, row, condition)?;
    write_with_values(sink, columns, row, condition)
}

/// The condition of a CHECK that a row of this table makes false.
pub(crate) fn write_check<W: Sink>(
    sink: &mut W,
    catalogue: &Catalogue,
    table: TableId,
    row: &[Value],
    condition: &Cond,
) -> Result<(), DeviceFault>
    ensures { Writes (W.state sink.old) (W.state sink.new) result
        (check_text (columns_of (slice_get catalogue.now.tables table)) row.now condition.now) }
{
    write_false(sink, columns_of(catalogue.table(table)), row, condition)
}

// ---- in JSON

// A condition between its quotes.
#[tactic(auto, using(iv_text::proofs::WriteLemmas::writes_then), unfolding(iv_text::specs::Spelled::spelled, iv_text::specs::Json::json_text))]
fn write_quoted<W: Sink>(
    sink: &mut W,
    shown: Shown,
    columns: &[Column],
    row: &[Value],
    condition: &Cond,
) -> Result<(), DeviceFault>
    ensures { Writes (W.state sink.old) (W.state sink.new) result
        (json_text (condition_text shown columns.now row.now condition.now)) }
{
    write_all(sink, b"\"")?;
    tell_condition(sink, Format::Json, shown, columns, row, condition)?;
    write_all(sink, b"\"")
}

#[tactic(auto, using(iv_text::proofs::WriteLemmas::writes_then))]
fn write_named<W: Sink>(
    sink: &mut W,
    name: &[u8],
    shown: Shown,
    columns: &[Column],
    row: &[Value],
    condition: &Cond,
) -> Result<(), DeviceFault>
    ensures { Writes (W.state sink.old) (W.state sink.new) result
        (member name.now ++ json_text (condition_text shown columns.now row.now condition.now)) }
{
    write_member(sink, name)?;
    write_quoted(sink, shown, columns, row, condition)
}

// The condition with the names of the columns, and with the values of the row.
#[tactic(auto, using(iv_text::proofs::WriteLemmas::writes_then))]
fn write_both<W: Sink>(
    sink: &mut W,
    columns: &[Column],
    row: &[Value],
    condition: &Cond,
) -> Result<(), DeviceFault>
    ensures { Writes (W.state sink.old) (W.state sink.new) result
        (member (codes "condition")
        ++ (json_text (condition_text Names columns.now row.now condition.now)
        ++ (member (codes "with_values")
        ++ json_text (condition_text Values columns.now row.now condition.now)))) }
{
    write_member(sink, b"condition")?;
    write_quoted(sink, Shown::Names, columns, row, condition)?;
    write_named(sink, b"with_values", Shown::Values, columns, row, condition)
}

#[tactic(auto, using(iv_text::proofs::WriteLemmas::writes_then))]
fn write_members<W: Sink>(
    sink: &mut W,
    columns: &[Column],
    row: &[Value],
    condition: &Cond,
) -> Result<(), DeviceFault>
    ensures { Writes (W.state sink.old) (W.state sink.new) result
        (check_members columns.now row.now condition.now) }
{
    write_because(sink, b"false_condition")?;
    write_both(sink, columns, row, condition)
}

/// The members of a CHECK that a row of this table makes false.
pub(crate) fn write_check_members<W: Sink>(
    sink: &mut W,
    catalogue: &Catalogue,
    table: TableId,
    row: &[Value],
    condition: &Cond,
) -> Result<(), DeviceFault>
    ensures { Writes (W.state sink.old) (W.state sink.new) result
        (check_members (columns_of (slice_get catalogue.now.tables table)) row.now condition.now) }
{
    write_members(sink, columns_of(catalogue.table(table)), row, condition)
}
