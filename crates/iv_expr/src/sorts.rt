//! Which values an expression can have at the rows of a table, and whether a row can refuse a condition.
ghost use Rattle.std.specs.Prelude.{◌≡◌, ◌&&◌, ◌∷◌, [], List, true, option_map, slice_get};
ghost use Rattle.iv_value.specs.References.{value_of};
ghost use Rattle.iv_expr.specs.Asking.{IsNeverRefused, is_fixed as fixed, is_outside as outside, meant, own_column as column_of_own};
ghost use Rattle.iv_expr.specs.Asking.{sort_in as sort_there, sort_of_column as sort_by_column};
ghost use Rattle.iv_expr.specs.Scopes.{table_rows, within};
ghost use Rattle.iv_expr.specs.Searches.{AllFit};
ghost use Rattle.iv_value.specs.declared.value.Kind.{Kind as Column};
ghost use Rattle.iv_expr.specs.Suiting.{comparable as are_comparable, sort_of_kind as sort_by_kind, sort_of_value as sort_by_value};

use crate::expression::value_in;
use crate::kinds::RangeKinds;
use crate::number::TableId;
use crate::scope::{Rows, Scope};
use crate::tree::{Cond, Expr, Range};
use iv_value::{Kind, Value, ValueRef};

/// The values that an expression can have: only null, numbers and null, or texts and null.
#[derive(Clone, Copy)]
pub enum Sort {
    Nulls,
    Numbers,
    Texts,
}

fn and(left: bool, right: bool) -> bool
    ensures { result ≡ (left && right) }
{
    left && right
}

/// The column of the innermost range that an expression is.
pub fn own_column(expr: &Expr) -> Option<u32>
    ensures { result ≡ column_of_own expr.now }
{
    match expr {
        Expr::Column(range, column) if *range == 0 => Some(*column),
        _ => None,
    }
}

// Whether an expression reads nothing of the ranges that have these kinds.
#[tactic(auto, using(crate::proofs::Steps::fixed_plus, crate::proofs::Steps::fixed_minus, crate::proofs::Steps::fixed_times))]
fn is_fixed(expr: &Expr, kinds: &RangeKinds<'_>) -> bool
    ensures { result ≡ fixed kinds.now expr.now }
{
    match expr {
        Expr::Literal(_) => true,
        Expr::Column(range, _) => kinds.at(*range).is_none(),
        Expr::Variable(_, _) => true,
        Expr::Plus(left, right) => and(is_fixed(left.get(), kinds), is_fixed(right.get(), kinds)),
        Expr::Minus(left, right) => and(is_fixed(left.get(), kinds), is_fixed(right.get(), kinds)),
        Expr::Times(left, right) => and(is_fixed(left.get(), kinds), is_fixed(right.get(), kinds)),
    }
}

/// Whether an expression reads nothing of the innermost range.
pub fn is_outside(expr: &Expr) -> bool
    ensures { result ≡ outside expr.now }
{
    is_fixed(expr, &RangeKinds::new(&[], None))
}

fn sort_of_kind(kind: Kind) -> Sort
    ensures { meant result ≡ sort_by_kind kind }
{
    match kind {
        Kind::Integer => Sort::Numbers,
        Kind::Varchar(_) => Sort::Texts,
    }
}

fn sort_of_value(value: ValueRef<'_>) -> Sort
    ensures { meant result ≡ sort_by_value (value_of value.entry) }
{
    match value {
        ValueRef::Null => Sort::Nulls,
        ValueRef::Int(_) => Sort::Numbers,
        ValueRef::Text(_) => Sort::Texts,
    }
}

fn sort_at(kinds: &[Kind], column: u32) -> Option<Sort>
    ensures { option_map meant result ≡ option_map sort_by_kind (slice_get kinds.now column) }
{
    match kinds.get(column as usize) {
        Some(kind) => Some(sort_of_kind(*kind)),
        None => None,
    }
}

// The sort of a column of the innermost ranges.
fn sort_of_column(expr: &Expr, kinds: &RangeKinds<'_>) -> Option<Sort>
    ensures { option_map meant result ≡ sort_by_column kinds.now expr.now }
{
    match expr {
        Expr::Column(range, column) => match kinds.at(*range) {
            Some(kinds) => sort_at(kinds, *column),
            None => None,
        },
        _ => None,
    }
}

// The sort of an expression's values at all rows of the innermost ranges that are of these kinds.
fn sort_of<R: Rows>(expr: &Expr, kinds: &RangeKinds<'_>, inside: &Scope<'_, R>) -> Option<Sort>
    ensures { option_map meant result ≡ sort_there inside.now kinds.now expr.now }
{
    if !is_fixed(expr, kinds) {
        return sort_of_column(expr, kinds);
    }
    match value_in(expr, inside) {
        Ok(value) => Some(sort_of_value(value)),
        Err(_) => None,
    }
}

fn comparable(left: Option<Sort>, right: Option<Sort>) -> bool
    ensures { result ≡ are_comparable (option_map meant left) (option_map meant right) }
{
    match (left, right) {
        (Some(Sort::Numbers), Some(Sort::Numbers | Sort::Nulls)) => true,
        (Some(Sort::Texts), Some(Sort::Texts | Sort::Nulls)) => true,
        (Some(Sort::Nulls), Some(_)) => true,
        _ => false,
    }
}

// Whether no row of these kinds in the innermost ranges can refuse a comparison.
fn compares<R: Rows>(
    left: &Expr,
    right: &Expr,
    kinds: &RangeKinds<'_>,
    inside: &Scope<'_, R>,
) -> bool
    ensures { result ≡ are_comparable (sort_there inside.now kinds.now left.now) (sort_there inside.now kinds.now right.now) }
{
    comparable(sort_of(left, kinds, inside), sort_of(right, kinds, inside))
}

/// Whether no rows of these kinds in the innermost ranges can refuse a condition. It allocates nothing.
#[cycle(is_never_refused)]
pub fn is_never_refused<R: Rows>(cond: &Cond, kinds: &RangeKinds<'_>, inside: &Scope<'_, R>) -> bool
    ensures { result ≡ true → IsNeverRefused inside.now kinds.now cond.now }
{
    match cond {
        Cond::Always => true,
        Cond::Compare(_, left, right) => compares(left, right, kinds, inside),
        Cond::IsNull(operand) => sort_of(operand, kinds, inside).is_some(),
        Cond::Not(operand) => is_never_refused(operand.get(), kinds, inside),
        Cond::And(left, right) => and(
            is_never_refused(left.get(), kinds, inside),
            is_never_refused(right.get(), kinds, inside),
        ),
        Cond::Or(left, right) => and(
            is_never_refused(left.get(), kinds, inside),
            is_never_refused(right.get(), kinds, inside),
        ),
        Cond::Exists(range, operand) => match range {
            Range::Table(table) => { never_refused_within(*table, operand.get(), kinds, inside) }
            Range::Transition(_) => false,
        },
    }
}

// The same at each row of a table, in one more range inside.
#[cycle(is_never_refused)]
fn never_refused_within<R: Rows>(
    table: TableId,
    cond: &Cond,
    kinds: &RangeKinds<'_>,
    inside: &Scope<'_, R>,
) -> bool
    ensures { result ≡ true → (own : List Column) × AllFit own (table_rows inside.now.rows table)
        × IsNeverRefused (within inside.now []) (own ∷ kinds.now) cond.now }
{
    match (&*inside).known_kinds(table) {
        Some(known) => {
            let any: &[Value] = &[];
            let ranges = (&*inside).ranges_with(any);
            let more = RangeKinds::new(known.kinds, Some(&*kinds));
            is_never_refused(&*cond, &more, &(&*inside).over(&ranges))
        }
        None => false,
    }
}
