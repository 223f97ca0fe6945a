//! Rows as data and as they are made of it.
use iv_expr::Row;
use iv_value::{Value, text};
use std::alloc::Global;
use std::panic::Expect;
use std::process::Abort;

/// A value of a row, as data.
#[derive(Clone, Copy)]
pub enum Cell {
    Null,
    Int(i64),
    Word(&'static str),
}

fn value_of(rt: &impl Abort, alloc: Global, cell: &Cell) -> Value {
    match cell {
        Cell::Null => Value::Null,
        Cell::Int(integer) => Value::Int(*integer),
        Cell::Word(word) => text(alloc, word).expect(rt, "memory"),
    }
}

/// A row of these values.
pub fn row_of(rt: &impl Abort, alloc: Global, cells: &[Cell]) -> Row {
    let mut values = Vec::new(alloc);
    for cell in cells {
        values.push(value_of(rt, alloc, cell)).expect(rt, "memory");
    }
    Row::new(values).expect(rt, "memory")
}
