//! Changes of rows and waves, as data and as they are made of it.
use iv_expr::{Change, Row, TableColumn, TableId, Wave};
use iv_value::Value;
use std::alloc::Global;
use std::panic::Expect;
use std::process::Abort;

/// NULL in a row.
pub const NULL: i64 = -1;

/// A change of a row: its table, its number, what it was, and what it is. No integers stand for no row.
#[derive(Clone, Copy)]
pub struct Changed(pub u32, pub u64, pub &'static [i64], pub &'static [i64]);

/// A wave: the columns that it names, each by its table and its place, and its changes by rising row number.
#[derive(Clone, Copy)]
pub struct Planned(pub &'static [(u32, u32)], pub &'static [Changed]);

/// A row of only this integer.
pub fn row_of(rt: &impl Abort, alloc: Global, integer: i64) -> Row {
    let mut values = Vec::new(alloc);
    values.push(Value::Int(integer)).expect(rt, "memory");
    Row::new(values).expect(rt, "memory")
}

// A row of these integers, or no row if there is none.
fn row(rt: &impl Abort, alloc: Global, integers: &[i64]) -> Option<Row> {
    if integers.is_empty() {
        return None;
    }
    let mut values = Vec::new(alloc);
    for integer in integers {
        let value = if *integer == NULL {
            Value::Null
        } else {
            Value::Int(*integer)
        };
        values.push(value).expect(rt, "memory");
    }
    Some(Row::new(values).expect(rt, "memory"))
}

/// Adds a change, whose row is above those that are there.
pub fn add(rt: &impl Abort, alloc: Global, wave: &mut Wave, changed: &Changed) {
    assert!(rt; wave.last_row() < changed.1);
    let change = Change {
        table: TableId::new(changed.0),
        row: changed.1,
        old: row(rt, alloc, changed.2),
        new: row(rt, alloc, changed.3),
    };
    wave.push(change).expect(rt, "memory");
}

fn columns(rt: &impl Abort, alloc: Global, places: &[(u32, u32)]) -> Vec<TableColumn> {
    let mut columns = Vec::new(alloc);
    for place in places {
        let column = TableColumn {
            table: TableId::new(place.0),
            column: place.1,
        };
        columns.push(column).expect(rt, "memory");
    }
    columns
}

/// The wave that is meant.
pub fn wave(rt: &impl Abort, alloc: Global, planned: &Planned) -> Wave {
    let mut wave = Wave::from_parts(Vec::new(alloc), columns(rt, alloc, planned.0));
    for changed in planned.1 {
        add(rt, alloc, &mut wave, changed);
    }
    wave
}
