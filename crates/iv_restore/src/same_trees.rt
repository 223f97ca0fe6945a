//! Whether trees are the same.
ghost use Rattle.std.specs.Prelude.{◌≡◌, true};

use crate::same::Same;
use iv_expr::{Cond, Expr};
use iv_value::{Value, same};

impl Same for Value {
    #[tactic(auto, using(crate::proofs::Decided::value_is))]
    fn is_same(&self, other: &Value) -> bool {
        same(self, other)
    }
}

impl Same for Expr {
    fn is_same(&self, other: &Expr) -> bool {
        is_same_expr(self, other)
    }
}

impl Same for Cond {
    fn is_same(&self, other: &Cond) -> bool {
        is_same_cond(self, other)
    }
}

// Whether two expressions are the same tree.
fn is_same_expr(left: &Expr, right: &Expr) -> bool
    ensures { result ≡ true → left.now ≡ right.now }
{
    match left {
        Expr::Literal(a) => match right {
            Expr::Literal(b) => a.is_same(b),
            _ => false,
        },
        Expr::Column(range, column) => match right {
            Expr::Column(other, place) => *range == *other && *column == *place,
            _ => false,
        },
        Expr::Variable(side, column) => match right {
            Expr::Variable(other, place) => *side == *other && *column == *place,
            _ => false,
        },
        Expr::Plus(a, b) => match right {
            Expr::Plus(c, d) => is_same_expr(a.get(), c.get()) && is_same_expr(b.get(), d.get()),
            _ => false,
        },
        Expr::Minus(a, b) => match right {
            Expr::Minus(c, d) => is_same_expr(a.get(), c.get()) && is_same_expr(b.get(), d.get()),
            _ => false,
        },
        Expr::Times(a, b) => match right {
            Expr::Times(c, d) => is_same_expr(a.get(), c.get()) && is_same_expr(b.get(), d.get()),
            _ => false,
        },
    }
}

// Whether two conditions are the same tree.
fn is_same_cond(left: &Cond, right: &Cond) -> bool
    ensures { result ≡ true → left.now ≡ right.now }
{
    match left {
        Cond::Always => matches!(right, Cond::Always),
        Cond::Compare(comparison, a, b) => match right {
            Cond::Compare(other, c, d) => {
                *comparison == *other && is_same_expr(a, c) && is_same_expr(b, d)
            }
            _ => false,
        },
        Cond::IsNull(a) => match right {
            Cond::IsNull(b) => is_same_expr(a, b),
            _ => false,
        },
        Cond::Not(a) => match right {
            Cond::Not(b) => is_same_cond(a.get(), b.get()),
            _ => false,
        },
        Cond::And(a, b) => match right {
            Cond::And(c, d) => is_same_cond(a.get(), c.get()) && is_same_cond(b.get(), d.get()),
            _ => false,
        },
        Cond::Or(a, b) => match right {
            Cond::Or(c, d) => is_same_cond(a.get(), c.get()) && is_same_cond(b.get(), d.get()),
            _ => false,
        },
        Cond::Exists(range, a) => match right {
            Cond::Exists(other, b) => *range == *other && is_same_cond(a.get(), b.get()),
            _ => false,
        },
    }
}
