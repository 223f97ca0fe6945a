//! Tables and rows that tests are made of, and the catalogue that they are put into.
ghost use Rattle.std.specs.Prelude.{◌≡◌, []};
ghost use Rattle.iv_catalogue.specs.Catalogues.{has_constraint, has_table, with_table};

use crate::asked::assert_that;
use iv_catalogue::{
    Catalogue, Column, Constraint, Constraints, MOST_CONSTRAINTS, MOST_TABLES, Table,
    copy_constraint,
};
use iv_expr::Row;
use iv_syntax::Name;
use iv_value::{Kind, Text, Value, text};
use sqlite_items::Items;
use std::alloc::Global;
use std::panic::Expect;
use std::process::Abort;

/// A value of a row, as data.
#[derive(Clone, Copy)]
pub enum Cell {
    Null,
    Int(i64),
    Word(&'static str),
}

/// A name of a letter and two numbers.
pub fn named(rt: &impl Abort, alloc: Global, letter: &str, numbers: (usize, usize)) -> Name {
    let (first, second) = numbers;
    let text = format!(in alloc; "{letter}{first}_{second}").expect(rt, "memory");
    Name::new(Text::new(alloc, text.as_str()).expect(rt, "memory"))
}

fn columns_of(rt: &impl Abort, alloc: Global, kinds: &[Kind]) -> Items<Column> {
    let mut columns = Items::new(alloc);
    for (place, kind) in kinds.iter().enumerate() {
        let column = Column {
            name: named(rt, alloc, "C", (0, place)),
            kind: *kind,
            default: Value::Null,
        };
        columns.push(column).expect(rt, "memory");
    }
    columns
}

/// The table of a number, of columns of these kinds. Its name is of its number.
pub fn table_of(rt: &impl Abort, alloc: Global, number: u32, kinds: &[Kind]) -> Table {
    Table {
        name: named(rt, alloc, "T", (0, number as usize)),
        columns: columns_of(rt, alloc, kinds),
    }
}

fn value_of(rt: &impl Abort, alloc: Global, cell: &Cell) -> Value {
    match cell {
        Cell::Null => Value::Null,
        Cell::Int(integer) => Value::Int(*integer),
        Cell::Word(word) => text(alloc, word).expect(rt, "memory"),
    }
}

/// A row of these values.
pub fn row_of(rt: &impl Abort, alloc: Global, cells: &[Cell]) -> Row {
    let mut values = Vec::new(alloc);
    for cell in cells {
        values.push(value_of(rt, alloc, cell)).expect(rt, "memory");
    }
    Row::new(values).expect(rt, "memory")
}

#[tactic(auto, using(iv_resolution::proofs::Found::found))]
fn has_table(catalogue: &Catalogue, name: &str) -> bool
    ensures { result ≡ has_table catalogue.now name.now }
{
    catalogue.table_named(name).is_some()
}

#[tactic(auto, using(iv_resolution::proofs::Found::found))]
fn has_constraint(catalogue: &Catalogue, name: &str) -> bool
    ensures { result ≡ has_constraint catalogue.now name.now }
{
    catalogue.constraint_named(name).is_some()
}

/// Puts a table into a catalogue, without constraints.
#[tactic(auto, unfolding(iv_catalogue::specs::Names::has_repeated))]
pub fn put_table(rt: &impl Abort, alloc: Global, catalogue: &mut Catalogue, table: Table)
    ensures { catalogue.new ≡ with_table catalogue.old table [] }
{
    assert_that(
        rt,
        catalogue.tables().len() < MOST_TABLES,
        "too many tables",
    );
    assert_that(
        rt,
        !has_table(catalogue, table.name.as_str()),
        "a table of this name",
    );
    catalogue
        .add_table(table, Constraints::from_vec(Vec::new(alloc)))
        .expect(rt, "memory");
}

/// Puts a copy of a constraint into a catalogue.
pub fn put_copy(rt: &impl Abort, alloc: Global, catalogue: &mut Catalogue, constraint: &Constraint)
    ensures { catalogue.new.tables ≡ catalogue.old.tables }
{
    let table = constraint.table;
    assert_that(
        rt,
        (table.place() as usize) < catalogue.tables().len(),
        "no such table",
    );
    let constraints = catalogue.constraints_of(table).len();
    assert_that(rt, constraints < MOST_CONSTRAINTS, "too many constraints");
    let is_new = !has_constraint(catalogue, constraint.name.as_str());
    assert_that(rt, is_new, "a constraint of this name");
    let copy = copy_constraint(alloc, constraint).expect(rt, "memory");
    catalogue.add_constraint(copy).expect(rt, "memory");
}

/// Puts copies of these constraints into a catalogue.
pub fn put_copies(
    rt: &impl Abort,
    alloc: Global,
    catalogue: &mut Catalogue,
    constraints: &[Constraint],
)
    ensures { catalogue.new.tables ≡ catalogue.old.tables }
{
    for constraint in constraints {
        put_copy(rt, alloc, catalogue, constraint);
    }
}
