//! Waves: changes that are made together.
ghost use Rattle.std.specs.Prelude.{◌≡◌, ℕ, ◌<◌, ◌++◌, [], ◌∷◌, OnErr, OnOk};
ghost use Rattle.iv_expr.specs.Changes.{RisingChanges, last_row, names_column, wave_of};

use crate::number::TableId;
use crate::row::Change;
use std::alloc::{AllocError, Global};
use std::marker::Model;

/// A column of a table, by its place from 0.
#[derive(Clone, Copy, Debug, PartialEq, Eq)]
pub struct TableColumn {
    pub table: TableId,
    pub column: u32,
}

/// Whether a column of a table is among these. It looks at each of them.
pub fn names_column(columns: &[TableColumn], table: TableId, column: u32) -> bool
    ensures { result ≡ names_column columns.now table column }
{
    columns
        .iter()
        .any(|named| named.table == table && named.column == column)
}

/// Changes by rising row number, of different rows, and the columns named by whatever caused them. Contracts see it as
/// the record of the two.
#[derive(Drop)]
pub struct Wave {
    changes: Vec<Change>,
    columns: Vec<TableColumn>,
    // The greatest row number, or 0.
    last: u64,
}

impl Model for Wave {
    ghost use Rattle.std.specs.Prelude.{◌≡◌};
    ghost use Rattle.iv_expr.specs.Changes.{Wave as Changes, RisingChanges, last_row};

    ghost Value = { Changes };

    ghost view = { λ w. record { changes = w.changes.items; columns = w.columns.items } };

    ghost invariant = { λ w. (w.last ≡ last_row w.changes.items) × RisingChanges w.changes.items };
}

// The row number of the last of these changes, or 0 if there is none.
fn last_row_of(changes: &[Change]) -> u64
    ensures { result ≡ last_row changes.now }
{
    let mut last = 0;
    for change in changes {
        last = change.row;
    }
    last
}

impl Wave {
    /// No changes.
    pub fn new(alloc: Global) -> Wave
        ensures { result ≡ wave_of [] }
    {
        Wave {
            changes: Vec::new(alloc),
            columns: Vec::new(alloc),
            last: 0,
        }
    }

    /// The wave of changes that are by rising row number, and of the columns named by whatever caused them. It
    /// allocates nothing; its time is linear.
    pub fn from_parts(changes: Vec<Change>, columns: Vec<TableColumn>) -> Wave
        requires { RisingChanges changes.items }
        ensures { result ≡ record { changes = changes.items; columns = columns.items } }
    {
        let last = last_row_of(&changes);
        Wave {
            changes,
            columns,
            last,
        }
    }

    /// The row number of the last change, or 0 if there is none.
    pub fn last_row(&self) -> u64
        ensures { result ≡ last_row self.now.changes }
    {
        self.last
    }

    /// Adds a change of a row above those that are there.
    pub fn push(&mut self, change: Change) -> Result<(), AllocError>
        requires { last_row self.old.changes < change.row }
        ensures ok { OnOk result (self.new ≡ record self.old { changes = self.old.changes ++ change ∷ [] }) }
        ensures err { OnErr result (self.new ≡ self.old) }
    {
        let row = change.row;
        self.changes.push(change)?;
        self.last = row;
        Ok(())
    }

    /// The changes, which are no longer a wave since their rows may be numbered anew, and the columns.
    pub fn into_parts(self) -> (Vec<Change>, Vec<TableColumn>)
        ensures changes { result.0.items ≡ self.changes }
        ensures columns { result.1.items ≡ self.columns }
    {
        let Wave {
            changes,
            columns,
            ..
        } = self;
        (changes, columns)
    }

    /// The columns named by whatever caused the changes: the SET list of an UPDATE, and in a later wave the referencing
    /// columns of the foreign keys whose actions set values.
    pub fn columns(&self) -> &[TableColumn]
        ensures { result.now ≡ self.now.columns }
    {
        &self.columns
    }

    /// The changes.
    pub fn changes(&self) -> &[Change]
        ensures list { result.now ≡ self.now.changes }
        ensures rising { RisingChanges self.now.changes }
    {
        &self.changes
    }
}
