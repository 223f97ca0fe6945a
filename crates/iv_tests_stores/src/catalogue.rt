//! A table that is taken out of a catalogue again, as a session does if an allocation of its store fails; and one that
//! is copied.
ghost use Rattle.std.specs.Prelude.{◌≡◌};
ghost use Rattle.iv_catalogue.specs.Catalogues.{empty_schema};

use crate::schema::{put_table, table_of};
use iv_catalogue::{Catalogue, Column, copy_table};
use iv_value::{Kind, Value};
use std::alloc::Global;
use std::panic::Expect;
use std::process::Abort;

// Adds a table to a catalogue of nothing, and takes it out.
fn take(rt: &impl Abort, alloc: Global, catalogue: &mut Catalogue)
    requires { catalogue.old ≡ empty_schema }
{
    let table = table_of(rt, alloc, 0, &[]);
    put_table(rt, alloc, catalogue, table);
    catalogue.take_table();
}

// How many tables a catalogue has from which its table was taken, and whether it knows the name. It is dropped by name:
// its drop is long.
fn told(rt: &impl Abort, alloc: Global) -> (usize, bool) {
    let mut catalogue = Catalogue::new(alloc);
    take(rt, alloc, &mut catalogue);
    let told = (
        catalogue.tables().len(),
        catalogue.table_named("T0_0").is_some(),
    );
    drop(catalogue);
    told
}

#[test]
fn a_table_is_taken(rt: HostRuntime) {
    assert_eq!(rt; told(&rt, rt.alloc()), (0, false));
}

// Whether a column has this name and type, and no default.
fn is_column(column: &Column, name: &str, kind: Kind) -> bool {
    column.name.as_str() == name && column.kind == kind && matches!(&column.default, Value::Null)
}

// Whether the copy of the table T0_7 of an integer and a text has its name and its columns.
fn is_copied(rt: &impl Abort, alloc: Global) -> bool {
    let table = table_of(rt, alloc, 7, &[Kind::Integer, Kind::Varchar(3)]);
    let copy = copy_table(alloc, &table).expect(rt, "memory");
    drop(table);
    let columns = match copy.columns.as_slice() {
        [first, second] => {
            is_column(first, "C0_0", Kind::Integer) && is_column(second, "C0_1", Kind::Varchar(3))
        }
        _ => false,
    };
    columns && copy.name.as_str() == "T0_7"
}

#[test]
fn a_table_is_copied(rt: HostRuntime) {
    assert!(rt; is_copied(&rt, rt.alloc()));
}
