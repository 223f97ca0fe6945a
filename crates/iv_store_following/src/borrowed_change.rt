//! A change of a row, made or taken back.
ghost use Rattle.std.specs.Prelude.{◌≡◌};
ghost use Rattle.iv_laws_kept.specs.Moves.{taken_back};

use iv_expr::{Change, Row, TableId};
use std::marker::Model;

/// A change of a row, or the change that takes it back, without a copy of the rows. Contracts see it as that change.
#[derive(Drop)]
pub struct BorrowedChange<'a> {
    table: TableId,
    row: u64,
    old: &'a Option<Row>,
    new: &'a Option<Row>,
}

impl<'a> Model for BorrowedChange<'a> {
    ghost use Rattle.iv_expr.specs.declared.row.Change.{Change as Seen};

    ghost Value = { Seen };

    ghost view = { λ s. record { table = s.table; row = s.row; old = s.old.now; new = s.new.now } };
}

impl<'a> BorrowedChange<'a> {
    /// The change as it is made.
    pub fn of(change: &'a Change) -> BorrowedChange<'a>
        ensures { result ≡ change.entry.now }
    {
        BorrowedChange {
            table: change.table,
            row: change.row,
            old: &change.old,
            new: &change.new,
        }
    }

    /// The change that takes it back.
    pub fn back(change: &'a Change) -> BorrowedChange<'a>
        ensures { result ≡ taken_back change.entry.now }
    {
        BorrowedChange {
            table: change.table,
            row: change.row,
            old: &change.new,
            new: &change.old,
        }
    }

    /// The table of the row.
    pub fn table(&self) -> TableId
        ensures { result ≡ self.now.table }
    {
        self.table
    }

    /// The number of the row.
    pub fn row(&self) -> u64
        ensures { result ≡ self.now.row }
    {
        self.row
    }

    /// The values before.
    pub fn old(&self) -> &'a Option<Row>
        ensures { result.now ≡ self.now.old }
    {
        self.old
    }

    /// The values after.
    pub fn new(&self) -> &'a Option<Row>
        ensures { result.now ≡ self.now.new }
    {
        self.new
    }
}
