//! Rows before and after a wave, without a copy of their values.
ghost use Rattle.std.specs.Prelude.{◌≡◌, ◌==◌, find, IfOk};
ghost use Rattle.std.specs.Option.{option_copied};
ghost use Rattle.iv_expr.specs.Changes.{RisingChanges, wave_of};
ghost use Rattle.iv_machine.specs.Databases.{row_at};
ghost use Rattle.iv_laws_levels.specs.FittingWaves.{old_row};
ghost use Rattle.iv_laws_levels.specs.Holders.{row_before};

use iv_expr::{Change, StoredRow, TableId};
use iv_store::ReferencingRows;
use iv_value::Value;
use std::alloc::AllocError;
use std::marker::Model;

/// A row whose values are borrowed. Contracts see it as the row.
#[derive(Drop)]
pub struct LentRow<'a> {
    table: TableId,
    number: u64,
    values: &'a [Value],
}

impl<'a> Model for LentRow<'a> {
    ghost use Rattle.iv_expr.specs.declared.row.StoredRow.{StoredRow as Seen};

    ghost Value = { Seen };

    ghost view = { λ r. record { table = r.table; number = r.number; values = r.values.now } };
}

impl<'a> LentRow<'a> {
    /// A stored row.
    pub fn of(row: &'a StoredRow) -> LentRow<'a>
        ensures { result ≡ row.entry.now }
    {
        LentRow {
            table: row.table,
            number: row.number,
            values: row.values.values(),
        }
    }

    /// The table that it is in.
    pub fn table(&self) -> TableId
        ensures { result ≡ self.now.table }
    {
        self.table
    }

    /// Its number in the database.
    pub fn number(&self) -> u64
        ensures { result ≡ self.now.number }
    {
        self.number
    }

    /// Its values, in the order of the columns.
    pub fn values(&self) -> &'a [Value]
        ensures { result.now ≡ self.now.values }
    {
        self.values
    }
}

// The change of the row of a number, by halving.
fn change_of(changes: &[Change], number: u64) -> Option<&Change>
    requires { RisingChanges changes.now }
    ensures { option_copied result ≡ find (λ c. c.row == number) changes.now }
{
    let mut low = 0usize;
    let mut high = changes.len();
    while low < high {
        let middle = low + (high - low) / 2;
        let change = &changes[middle];
        if change.row == number {
            return Some(change);
        }
        if change.row < number {
            low = middle + 1;
        } else {
            high = middle;
        }
    }
    None
}

// The row that a change takes away.
fn old_row(change: &Change) -> Option<LentRow<'_>>
    ensures { result ≡ old_row change.now }
{
    match &change.old {
        Some(old) => Some(LentRow {
            table: change.table,
            number: change.row,
            values: old.values(),
        }),
        None => None,
    }
}

// The row of a number after the wave.
fn row_after<K: ReferencingRows>(store: &K, number: u64) -> Option<LentRow<'_>>
    ensures { result ≡ row_at (K.view store.now).base.rows number }
{
    match store.row(number) {
        Some(row) => Some(LentRow::of(row)),
        None => None,
    }
}

/// The row of a number before the wave.
pub fn row_before<'a, K: ReferencingRows>(
    store: &'a K,
    changes: &'a [Change],
    number: u64,
) -> Option<LentRow<'a>>
    requires { RisingChanges changes.now }
    ensures { result ≡
        row_before (wave_of changes.now) (K.view store.now).base.rows number }
{
    match change_of(changes, number) {
        Some(change) => old_row(change),
        None => row_after(store, number),
    }
}

// A copy of the row that a change takes away; its values are shared.
fn copy_of_old_row(change: &Change) -> Result<Option<StoredRow>, AllocError>
    ensures { IfOk result (λ r. r ≡ old_row change.now) }
{
    match &change.old {
        Some(old) => Ok(Some(StoredRow {
            table: change.table,
            number: change.row,
            values: old.clone()?,
        })),
        None => Ok(None),
    }
}

// A copy of the row of a number after the wave; its values are shared.
fn copy_of_row_after<K: ReferencingRows>(
    store: &K,
    number: u64,
) -> Result<Option<StoredRow>, AllocError>
    ensures { IfOk result (λ r. r ≡ row_at (K.view store.now).base.rows number) }
{
    match store.row(number) {
        Some(row) => Ok(Some(row.clone()?)),
        None => Ok(None),
    }
}

/// A copy of the row of a number before the wave.
pub fn copy_of_row_before<K: ReferencingRows>(
    store: &K,
    changes: &[Change],
    number: u64,
) -> Result<Option<StoredRow>, AllocError>
    requires { RisingChanges changes.now }
    ensures { IfOk result (λ r. r ≡
        row_before (wave_of changes.now) (K.view store.now).base.rows number) }
{
    match change_of(changes, number) {
        Some(change) => copy_of_old_row(change),
        None => copy_of_row_after(store, number),
    }
}
