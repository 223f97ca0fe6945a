//! INSERTs of rows.
ghost use Rattle.std.specs.Prelude.{◌≡◌, IfOk, map};
ghost use Rattle.iv_restate.specs.Statements.{insert_rows, tuple_of};

use crate::expression::literal_of;
use iv_expr::Row;
use iv_syntax::{Insert, InsertSource, Name, Statement, ValueOrDefault};
use iv_value::Value;
use sqlite_items::Items;
use std::alloc::{AllocError, Global};

fn tuple_of(alloc: Global, values: &[Value]) -> Result<Items<ValueOrDefault>, AllocError>
    ensures { IfOk result (λ tuple. tuple ≡ tuple_of values.now) }
{
    let mut tuple = Items::new(alloc);
    for value in values {
        tuple.push(ValueOrDefault::Value(literal_of(alloc, value)?))?;
    }
    Ok(tuple)
}

fn tuples_of(alloc: Global, rows: &[Row]) -> Result<Items<Items<ValueOrDefault>>, AllocError>
    ensures { IfOk result (λ tuples. tuples ≡ map tuple_of rows.now) }
{
    let mut tuples = Items::new(alloc);
    for row in rows {
        tuples.push(tuple_of(alloc, row.values())?)?;
    }
    Ok(tuples)
}

/// INSERT of rows into a table, a tuple for each of them in their order, each value as a literal.
pub fn insert_rows(alloc: Global, table: &Name, rows: &[Row]) -> Result<Statement, AllocError>
    ensures { IfOk result (λ s. s ≡ insert_rows table.now rows.now) }
{
    let table = table.clone()?;
    Ok(Statement::Insert(Insert::Rows {
        table,
        columns: None,
        source: InsertSource::Values(tuples_of(alloc, rows)?),
    }))
}
