//! The rows that a query gave.
ghost use Rattle.std.specs.Prelude.{◌≡◌, drop, option_copied};
ghost use Rattle.iv_shown.specs.Cells.{AreCopied};
ghost use Rattle.iv_shown.specs.Rows.{rows_of, value_at};

use crate::cell::Cell;
use crate::row_buffers::{TakenRows, copy_rows};
use iv_expr::Row;
use iv_session::{Answer, Outcome};
use iv_value::Value;

/// The rows of a query's outcome.
pub fn rows_of(outcome: &Outcome) -> &[Row]
    ensures { result.now ≡ rows_of outcome.now }
{
    match outcome {
        Ok(Answer::Rows(rows)) => rows.as_slice(),
        _ => &[],
    }
}

/// The value in this row and column.
pub fn value_at(outcome: &Outcome, row: usize, column: usize) -> Option<&Value>
    ensures { option_copied result ≡ value_at outcome.now row column }
{
    match rows_of(outcome).get(row) {
        Some(row) => row.values().get(column),
        None => None,
    }
}

/// Copies rows from this one on, as many as have room.
pub fn copy_rows_of(rows: &[Row], from: usize, cells: &mut [Cell], texts: &mut [u8]) -> TakenRows
    ensures { AreCopied (drop from rows.now) cells.old cells.new texts.old texts.new result }
{
    copy_rows(&rows[from.min(rows.len())..], cells, texts)
}

/// Copies rows of a query's outcome from this one on, as many as have room.
pub fn copy_rows_from(
    outcome: &Outcome,
    from: usize,
    cells: &mut [Cell],
    texts: &mut [u8],
) -> TakenRows
    ensures { AreCopied (drop from (rows_of outcome.now)) cells.old cells.new texts.old texts.new result }
{
    copy_rows_of(rows_of(outcome), from, cells, texts)
}
