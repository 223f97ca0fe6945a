//! Rows and the tables that they are in.
ghost use Rattle.std.specs.Prelude.{◌≡◌, IfOk};

use crate::number::TableId;
use iv_value::Value;
use std::alloc::AllocError;
use std::marker::Model;
use std::rc::RcSlice;

/// A shared list of values: its copy shares them. Contracts see it as the list.
pub struct Row {
    shared: RcSlice<Value>,
}

impl Drop for Row {
    fn drop(self) {
        let Row { shared } = self;
        drop(shared);
    }
}

impl Model for Row {
    ghost use Rattle.std.specs.Prelude.{List};
    ghost use Rattle.iv_value.specs.declared.value.Value.{Value as Cell};

    ghost Value = { List Cell };

    ghost view = { λ r. r.shared.items.value.items };
}

impl Row {
    /// A row of these values.
    pub fn new(values: Vec<Value>) -> Result<Row, AllocError>
        ensures { IfOk result (λ r. r ≡ values.items) }
    {
        Ok(Row {
            shared: RcSlice::from_vec(values)?,
        })
    }

    /// The values, in the order of the columns.
    pub fn values(&self) -> &[Value]
        ensures { result.now ≡ self.now }
    {
        &self.shared
    }
}

impl Clone for Row {
    ghost is_clone = { λ x y. y ≡ x };

    fn clone(&self) -> Result<Row, AllocError> {
        Ok(Row {
            shared: self.shared.clone()?,
        })
    }
}

/// A row of a table, with its number.
#[derive(Drop)]
pub struct StoredRow {
    pub table: TableId,
    /// The number of the row in the database, from 1 to 9,223,372,036,854,775,807.
    pub number: u64,
    pub values: Row,
}

/// The copy shares the values.
impl Clone for StoredRow {
    ghost is_clone = { λ x y. y ≡ x };

    fn clone(&self) -> Result<StoredRow, AllocError> {
        Ok(StoredRow {
            table: self.table,
            number: self.number,
            values: self.values.clone()?,
        })
    }
}

/// A change of one row: what it was and what it is. Without `old` it is an insertion, without `new` a deletion.
#[derive(Drop)]
pub struct Change {
    pub table: TableId,
    /// The number of the row, from 1 to 9,223,372,036,854,775,807.
    pub row: u64,
    pub old: Option<Row>,
    pub new: Option<Row>,
}

/// The copy shares the rows.
impl Clone for Change {
    ghost is_clone = { λ x y. y ≡ x };

    fn clone(&self) -> Result<Change, AllocError> {
        let old = copy_row(&self.old)?;
        let new = copy_row(&self.new)?;
        Ok(Change {
            table: self.table,
            row: self.row,
            old,
            new,
        })
    }
}

fn copy_row(row: &Option<Row>) -> Result<Option<Row>, AllocError>
    ensures { IfOk result (λ r. r ≡ row.now) }
{
    match row {
        Some(row) => Ok(Some(row.clone()?)),
        None => Ok(None),
    }
}
