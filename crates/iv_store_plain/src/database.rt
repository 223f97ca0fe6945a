//! A database as one list of rows.
ghost use Rattle.std.specs.Prelude.{◌≡◌, ◌+◌, ◌<◌, ◌≤◌, ◌∷◌, [], option_map, IfOk, OnOk, OnErr};
ghost use Rattle.std.specs.Option.{option_copied};
ghost use Rattle.iv_expr.specs.Changes.{wave_of};
ghost use Rattle.iv_expr.specs.Scopes.{Rises, row_above, table_rows, numbered};
ghost use Rattle.iv_machine.specs.Bounds.{last_row_number, most_changes_in_a_transaction};
ghost use Rattle.iv_machine.specs.Databases.{no_rows, row_at, database_after};
ghost use Rattle.iv_machine.specs.Invariants.{Rising};
ghost use Rattle.iv_machine.specs.SetRows.{InBounds};

use crate::place::{row_above, row_at, set_row};
use iv_expr::{Change, StoredRow, TableId};
use iv_value::Value;
use std::alloc::{AllocError, Global};
use std::marker::Model;

/// The rows of all tables in rising number, the next number and the count of changes. Contracts see it as the
/// database.
#[derive(Drop)]
pub struct PlainDatabase {
    rows: Vec<StoredRow>,
    next: u64,
    count: u64,
}

impl Model for PlainDatabase {
    ghost use Rattle.iv_machine.specs.declared.database.Database.{Database};
    ghost use Rattle.iv_machine.specs.SetRows.{InBounds};
    ghost use Rattle.iv_store_plain.specs.PlainRows.{database_of};

    ghost Value = { Database };

    ghost view = { λ d. database_of d };

    ghost invariant = { λ d. InBounds (database_of d) };
}

// The rows again, which share their values.
fn copy_rows(alloc: Global, rows: &[StoredRow]) -> Result<Vec<StoredRow>, AllocError>
    ensures { IfOk result (λ copy. copy.items ≡ rows.now) }
{
    let mut copy = Vec::with_capacity(alloc, rows.len())?;
    for row in rows {
        copy.push(row.clone()?)?;
    }
    Ok(copy)
}

impl PlainDatabase {
    /// The database without rows. It allocates nothing.
    pub fn new(alloc: Global) -> PlainDatabase
        ensures { result ≡ no_rows }
    {
        PlainDatabase {
            rows: Vec::new(alloc),
            next: 1,
            count: 0,
        }
    }

    /// A copy, whose rows share their values.
    pub fn copy(&self) -> Result<PlainDatabase, AllocError>
        ensures { IfOk result (λ copy. copy ≡ self.now) }
    {
        Ok(PlainDatabase {
            rows: copy_rows(*self.rows.allocator(), self.rows.as_slice())?,
            next: self.next,
            count: self.count,
        })
    }

    /// The rows.
    pub fn rows(&self) -> &[StoredRow]
        ensures rows { result.now ≡ self.now.rows }
        ensures rising { Rises 0 self.now.rows }
    {
        self.rows.as_slice()
    }

    /// The number that the next new row takes.
    pub fn next(&self) -> u64
        ensures next { result ≡ self.now.next }
        ensures rising { Rising 0 self.now.rows self.now.next }
        ensures within { self.now.next ≤ last_row_number + 1 }
    {
        self.next
    }

    /// How many changes are counted.
    pub fn count(&self) -> u64
        ensures count { result ≡ self.now.count }
        ensures within { self.now.count ≤ most_changes_in_a_transaction }
    {
        self.count
    }

    /// The row of a number.
    pub fn row(&self, number: u64) -> Option<&StoredRow>
        ensures { option_copied result ≡ row_at self.now.rows number }
    {
        row_at(self.rows(), number)
    }

    /// The next row of a table above a number, with its number.
    pub fn scan(&self, table: TableId, after: u64) -> Option<(u64, &[Value])>
        ensures { option_map (λ r. (r.0, r.1.now)) result ≡
            option_map numbered (row_above after (table_rows self.now.rows table)) }
    {
        row_above(self.rows(), table, after).map(|row| (row.number, row.values.values()))
    }

    /// Makes a change of one row.
    pub fn change(&mut self, change: Change) -> Result<(), AllocError>
        requires positive { 0 < change.row }
        requires small { change.row ≤ last_row_number }
        requires room { self.old.count < most_changes_in_a_transaction }
        ensures ok { OnOk result (self.new ≡ database_after self.old (wave_of (change ∷ []))) }
        ensures err { OnErr result (self.new ≡ self.old) }
        ensures bounds { InBounds self.old }
    {
        let Change {
            table,
            row: number,
            old: _,
            new,
        } = change;
        set_row(&mut self.rows, table, number, new)?;
        self.next = (number + 1).max(self.next);
        self.count += 1;
        Ok(())
    }

    /// Goes back to a marked database.
    pub fn go_back(&mut self, marked: PlainDatabase)
        ensures { self.new ≡ marked }
    {
        *self = marked;
    }

    /// Counts the changes from 0 again.
    pub fn settle(&mut self)
        ensures { self.new ≡ record self.old { count = 0 } }
    {
        self.count = 0;
    }
}
