//! Data statements on table 0, as data and as they are made of it.
ghost use Rattle.std.specs.Prelude.{◌≡◌, map};
ghost use Rattle.iv_tests_levels.specs.Statements.{SuitsPairs, insertion, one_more, set_to, tuple_of};

use iv_catalogue::{DataStatement, InsertColumns, InsertRows, Setting};
use iv_expr::{Cond, Expr, TableId};
use iv_value::Value;
use sqlite_items::{Boxed, Items};
use std::alloc::Global;
use std::panic::Expect;
use std::process::Abort;

/// A data statement.
#[derive(Clone, Copy)]
pub enum Doing {
    /// INSERT of rows of two columns; nothing is NULL.
    Insert(&'static [(i64, Option<i64>)]),
    /// UPDATE of all rows, which adds 1 to the first column.
    Shift,
    /// UPDATE of all rows, which sets the first column.
    SetFirst(i64),
    /// UPDATE of all rows, which sets the second column.
    SetSecond(i64),
    /// DELETE of all rows.
    Delete,
}

fn tuple(rt: &impl Abort, alloc: Global, row: &(i64, Option<i64>)) -> Items<Expr>
    ensures { result ≡ tuple_of row.now }
{
    let mut tuple = Items::new(alloc);
    let first = Expr::Literal(Value::Int(row.0));
    tuple.push(first).expect(rt, "memory");
    let second = Expr::Literal(match row.1 {
        Some(integer) => Value::Int(integer),
        None => Value::Null,
    });
    tuple.push(second).expect(rt, "memory");
    tuple
}

fn tuples(rt: &impl Abort, alloc: Global, rows: &[(i64, Option<i64>)]) -> Items<Items<Expr>>
    ensures { result ≡ map tuple_of rows.now }
{
    let mut tuples = Items::new(alloc);
    for row in rows {
        tuples.push(tuple(rt, alloc, row)).expect(rt, "memory");
    }
    tuples
}

#[tactic(auto, using(crate::proofs::Suiting::insertion_suits))]
fn insertion(rt: &impl Abort, alloc: Global, rows: &[(i64, Option<i64>)]) -> Boxed<DataStatement>
    ensures { SuitsPairs result }
{
    let statement = DataStatement::Insert {
        table: TableId::new(0),
        columns: InsertColumns::All,
        rows: InsertRows::Values(tuples(rt, alloc, rows)),
    };
    Boxed::new(alloc, statement).expect(rt, "memory")
}

fn update(rt: &impl Abort, alloc: Global, column: u32, value: Expr) -> Boxed<DataStatement>
    ensures { result ≡ set_to column value }
{
    let mut settings = Items::new(alloc);
    settings
        .push(Setting { column, value })
        .expect(rt, "memory");
    let statement = DataStatement::Update {
        table: TableId::new(0),
        settings,
        filter: Cond::Always,
    };
    Boxed::new(alloc, statement).expect(rt, "memory")
}

#[tactic(auto, using(iv_expr::proofs::Trees::plus_is))]
fn one_more(rt: &impl Abort, alloc: Global) -> Expr
    ensures { result ≡ one_more }
{
    let column = Boxed::new(alloc, Expr::Column(0, 0)).expect(rt, "memory");
    let one = Boxed::new(alloc, Expr::Literal(Value::Int(1))).expect(rt, "memory");
    Expr::Plus(column, one)
}

#[tactic(auto, using(crate::proofs::Suiting::deletion_suits))]
fn deletion(rt: &impl Abort, alloc: Global) -> Boxed<DataStatement>
    ensures { SuitsPairs result }
{
    let statement = DataStatement::Delete {
        table: TableId::new(0),
        filter: Cond::Always,
    };
    Boxed::new(alloc, statement).expect(rt, "memory")
}

/// The statement that is meant.
#[tactic(auto, using(crate::proofs::Suiting::shift_suits, crate::proofs::Suiting::first_suits, crate::proofs::Suiting::second_suits))]
pub fn statement(rt: &impl Abort, alloc: Global, doing: &Doing) -> Boxed<DataStatement>
    ensures { SuitsPairs result }
{
    match doing {
        Doing::Insert(rows) => insertion(rt, alloc, rows),
        Doing::Shift => update(rt, alloc, 0, one_more(rt, alloc)),
        Doing::SetFirst(integer) => update(rt, alloc, 0, Expr::Literal(Value::Int(*integer))),
        Doing::SetSecond(integer) => update(rt, alloc, 1, Expr::Literal(Value::Int(*integer))),
        Doing::Delete => deletion(rt, alloc),
    }
}
