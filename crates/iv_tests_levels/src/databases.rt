//! Waves, and a database after one of them.
ghost use Rattle.std.specs.Prelude.{◌≡◌, []};
ghost use Rattle.iv_expr.specs.Changes.{wave_of};

use crate::changes::row_of;
use crate::shown::{compare, show, show_number};
use iv_expr::{Change, Row, StoredRow, TableColumn, TableId, Wave, names_column};
use iv_machine::{Database, database_after};
use iv_value::Value;
use sqlite_items::Items;
use std::alloc::Global;
use std::panic::Expect;
use std::process::Abort;

fn change(table: u32, row: u64, old: Option<Row>, new: Option<Row>) -> Change
    ensures { result ≡ record { table = table; row = row; old = old; new = new } }
{
    Change {
        table: TableId::new(table),
        row,
        old,
        new,
    }
}

// The wave that adds row 7 to table 0, and names column 3 of that table.
fn small_wave(rt: &impl Abort, alloc: Global) -> Wave {
    let mut changes = Vec::new(alloc);
    let added = change(0, 7, None, Some(row_of(rt, alloc, 1)));
    changes.push(added).expect(rt, "memory");
    let mut columns = Vec::new(alloc);
    let column = TableColumn {
        table: TableId::new(0),
        column: 3,
    };
    columns.push(column).expect(rt, "memory");
    Wave::from_parts(changes, columns)
}

// The last row of the small wave; how many changes and columns it has; whether it names column 3 and column 2 of
// table 0, and column 3 of table 1; and how many changes and columns it gives back.
fn told(rt: &impl Abort, alloc: Global) -> (u64, [usize; 2], [bool; 3], [usize; 2]) {
    let wave = small_wave(rt, alloc);
    let last_row = wave.last_row();
    let counts = [wave.changes().len(), wave.columns().len()];
    let named = [
        names_column(wave.columns(), TableId::new(0), 3),
        names_column(wave.columns(), TableId::new(0), 2),
        names_column(wave.columns(), TableId::new(1), 3),
    ];
    let (changes, columns) = wave.into_parts();
    (last_row, counts, named, [changes.len(), columns.len()])
}

#[test]
fn a_wave_is_made_of_changes_and_gives_them_back(rt: HostRuntime) {
    let wanted = (7, [1, 1], [true, false, false], [1, 1]);
    assert_eq!(rt; told(&rt, rt.alloc()), wanted);
}

// Rows 1 to 3 of table 0, and 4 to 6 of table 1.
fn rows(rt: &impl Abort, alloc: Global) -> Items<StoredRow> {
    let mut rows = Items::new(alloc);
    for (table, number) in [(0, 1), (0, 2), (0, 3), (1, 4), (1, 5), (1, 6)] {
        let stored = StoredRow {
            table: TableId::new(table),
            number,
            values: row_of(rt, alloc, 1),
        };
        rows.push(stored).expect(rt, "memory");
    }
    rows
}

// An integer, which is the first value of a row.
fn show_first(rt: &impl Abort, values: &[Value], shown: &mut String) {
    match values.first() {
        Some(Value::Int(number)) => write!(shown, "{number}, ").expect(rt, "memory"),
        _ => show(rt, "none, ", shown),
    }
}

// Table, number and first value of each row.
fn show_rows(rt: &impl Abort, rows: &[StoredRow], shown: &mut String) {
    for row in rows {
        show_number(rt, "", u64::from(row.table.place()), " ", shown);
        show_number(rt, "", row.number, " ", shown);
        show_first(rt, row.values.values(), shown);
    }
}

// The database after a wave that replaces row 2, leaves out row 5 and adds row 9. The wave has nothing before.
fn after_three(rt: &impl Abort, alloc: Global, database: &Database, wave: &mut Wave) -> Database
    requires wave { wave.old ≡ wave_of [] }
    requires count { database.now.count ≡ 2 }
{
    let old = row_of(rt, alloc, 1);
    let replaced = change(0, 2, Some(old), Some(row_of(rt, alloc, 20)));
    wave.push(replaced).expect(rt, "memory");
    let left_out = change(1, 5, Some(row_of(rt, alloc, 1)), None);
    wave.push(left_out).expect(rt, "memory");
    let added = change(0, 9, None, Some(row_of(rt, alloc, 90)));
    wave.push(added).expect(rt, "memory");
    database_after(alloc, database, wave).expect(rt, "memory")
}

fn later(rt: &impl Abort, alloc: Global) -> Database {
    let database = Database {
        rows: rows(rt, alloc),
        next: 7,
        count: 2,
    };
    let mut wave = Wave::new(alloc);
    after_three(rt, alloc, &database, &mut wave)
}

// The rows of the later database, its next number and its count.
fn show_later(rt: &impl Abort, alloc: Global, shown: &mut String) {
    let later = later(rt, alloc);
    show_rows(rt, later.rows.as_slice(), shown);
    show_number(rt, "next ", later.next, ", ", shown);
    show_number(rt, "count ", later.count, "", shown);
}

#[test]
fn a_wave_adds_replaces_and_leaves_out(rt: HostRuntime) {
    let mut shown = String::new(rt.alloc());
    show_later(&rt, rt.alloc(), &mut shown);
    let wanted = "0 1 1, 0 2 20, 0 3 1, 1 4 1, 1 6 1, 0 9 90, next 10, count 5";
    compare(&rt, "rows after the wave", shown.as_str(), wanted);
}
