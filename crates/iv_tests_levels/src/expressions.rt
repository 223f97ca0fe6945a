//! Expressions and conditions outside of statements.
ghost use Rattle.std.specs.Prelude.{[]};

use crate::changes::row_of;
use iv_expr::{
    Comparison, Cond, Expr, ExprFault, Frame, Row, Rows, Scope, TableId, eval, eval_ref,
    truth_at_row,
};
use iv_value::{Truth, Value, ValueRef, text};
use sqlite_items::Boxed;
use std::alloc::Global;
use std::panic::Expect;
use std::process::Abort;

/// No tables at all.
#[derive(Drop)]
pub struct NoTables {}

impl Rows for NoTables {
    ghost rows = { λ s. [] };

    fn recall_order(&self) {}

    fn scan(&self, _table: TableId, _after: u64) -> Option<(u64, &[Value])> {
        None
    }
}

// Whether a value is the text ab, and whether it is ill-typed.
fn judged(found: Result<Value, ExprFault>) -> [bool; 2] {
    match found {
        Ok(value) => [shows_ab(&value), false],
        Err(fault) => [false, fault == ExprFault::IllTyped],
    }
}

fn shows_ab(value: &Value) -> bool {
    match value {
        Value::Text(text) => text.as_str() == "ab",
        _ => false,
    }
}

// Whether an expression outside of statements lends a text; whether its value is the text ab, and whether it is
// ill-typed.
fn told(expr: &Expr) -> [bool; 3] {
    let tables = NoTables {};
    let frame = Frame::none();
    let scope = Scope::new(&tables, &frame);
    let lent = matches!(eval_ref(expr, &scope), Ok(ValueRef::Text(_)));
    let [copied, ill_typed] = judged(eval(expr, &scope));
    [lent, copied, ill_typed]
}

// The same of an expression that is dropped. It is in a box, which drops it by a call: the drop of a tree by value is
// written out for each variant, and takes long to prove.
fn told_of(rt: &impl Abort, alloc: Global, expr: Expr) -> [bool; 3] {
    let expr = Boxed::new(alloc, expr).expect(rt, "memory");
    told(expr.get())
}

#[test]
fn a_text_is_lent_and_copied(rt: HostRuntime) {
    let value = text(rt.alloc(), "ab").expect(&rt, "memory");
    let told = told_of(&rt, rt.alloc(), Expr::Literal(value));
    assert_eq!(rt; told, [true, true, false]);
}

#[test]
fn a_column_outside_of_all_ranges_is_ill_typed(rt: HostRuntime) {
    let told = told_of(&rt, rt.alloc(), Expr::Column(0, 0));
    assert_eq!(rt; told, [false, false, true]);
}

// Whether a condition has this truth at a row.
fn has_truth(cond: &Cond, row: &Row, wanted: Truth) -> bool {
    let tables = NoTables {};
    let frame = Frame::none();
    truth_at_row(cond, row.values(), &Scope::new(&tables, &frame)) == Ok(wanted)
}

// Whether -1 is negative, and 0 isn't.
fn negatives(rt: &impl Abort, alloc: Global) -> [bool; 2] {
    let cond = Cond::Compare(
        Comparison::Less,
        Expr::Column(0, 0),
        Expr::Literal(Value::Int(0)),
    );
    let cond = Boxed::new(alloc, cond).expect(rt, "memory");
    let below = row_of(rt, alloc, -1);
    let zero = row_of(rt, alloc, 0);
    [
        has_truth(cond.get(), &below, Truth::True),
        has_truth(cond.get(), &zero, Truth::False),
    ]
}

#[test]
fn a_row_is_one_more_range(rt: HostRuntime) {
    assert_eq!(rt; negatives(&rt, rt.alloc()), [true, true]);
}
