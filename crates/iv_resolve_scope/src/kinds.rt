//! Integers that meet texts, on the tree as written. Nothing here allocates; each function takes time in proportion to
//! the tree, and for each name to the ranges that it is inside of.
ghost use Rattle.std.specs.Prelude.{◌≡◌, ◌≤◌, length, option_map};
ghost use Rattle.iv_resolution.specs.Changes.{clashes_with, kinds_clash};
ghost use Rattle.iv_resolution.specs.Terms.{clash, has_exists, is_integer, is_integer_column, is_integer_type, is_text, is_text_column, is_text_type};
ghost use Rattle.iv_resolution.specs.Terms.{misshaped_condition, misshaped_expression, misshaped_filter, some_text};
ghost use Rattle.iv_resolve_scope.specs.Seen.{found_seen, names_seen, ranges_seen};

use crate::names::{Names, inside};
use crate::ranges::{Found, Ranges, column_meant};
use iv_catalogue::MOST_TABLES;
use iv_syntax::{ColumnType, Condition, Expression};

/// Whether a column of this type holds integers.
pub fn is_integer_type(kind: ColumnType) -> bool
    ensures { result ≡ is_integer_type kind }
{
    matches!(kind, ColumnType::Integer)
}

/// Whether a column of this type holds texts.
pub fn is_text_type(kind: ColumnType) -> bool
    ensures { result ≡ is_text_type kind }
{
    !is_integer_type(kind)
}

fn is_integer_column(found: Option<Found>) -> bool
    ensures { result ≡ is_integer_column (option_map found_seen found) }
{
    match found {
        Some(found) => is_integer_type(found.kind),
        None => false,
    }
}

fn is_text_column(found: Option<Found>) -> bool
    ensures { result ≡ is_text_column (option_map found_seen found) }
{
    match found {
        Some(found) => is_text_type(found.kind),
        None => false,
    }
}

#[tactic(auto, using(crate::proofs::Steps::is_integer_steps))]
fn is_integer<'a>(expression: &Expression, ranges: &'a Ranges<'a>) -> bool
    ensures { result ≡ is_integer (ranges_seen ranges.now) expression.now }
{
    match expression {
        Expression::Number(_) => true,
        Expression::Text(_) | Expression::Null => false,
        Expression::Column(column) => is_integer_column(column_meant(column, ranges)),
        Expression::Group(a) => is_integer(a.get(), ranges),
        Expression::Signed(_, _) => true,
        Expression::Product(_, _) => true,
        Expression::Sum(_, _, _) => true,
    }
}

#[tactic(auto, using(crate::proofs::Steps::is_text_steps))]
fn is_text<'a>(expression: &Expression, ranges: &'a Ranges<'a>) -> bool
    ensures { result ≡ is_text (ranges_seen ranges.now) expression.now }
{
    match expression {
        Expression::Text(_) => true,
        Expression::Number(_) | Expression::Null => false,
        Expression::Column(column) => is_text_column(column_meant(column, ranges)),
        Expression::Group(a) => is_text(a.get(), ranges),
        Expression::Signed(_, _) => false,
        Expression::Product(_, _) => false,
        Expression::Sum(_, _, _) => false,
    }
}

#[tactic(auto, unfolding(iv_resolution::specs::Terms::clash))]
fn clash<'a>(a: &Expression, b: &Expression, ranges: &'a Ranges<'a>) -> bool
    ensures { result ≡ clash (ranges_seen ranges.now) a.now b.now }
{
    (is_integer(a, ranges) && is_text(b, ranges)) || (is_text(a, ranges) && is_integer(b, ranges))
}

/// Whether an integer meets a text in the value of a column of this type. A column that isn't there suits every value.
#[tactic(auto, unfolding(iv_resolution::specs::Changes::clashes_with))]
pub fn clashes_with<'a>(
    kind: Option<ColumnType>,
    expression: &Expression,
    ranges: &'a Ranges<'a>,
) -> bool
    ensures { result ≡ clashes_with kind (ranges_seen ranges.now) expression.now }
{
    match kind {
        Some(kind) => {
            (is_integer_type(kind) && is_text(expression, ranges))
                || (is_text_type(kind) && is_integer(expression, ranges))
        }
        None => false,
    }
}

/// Whether an integer meets a text if a column of one type is put into a column of another.
#[tactic(auto, unfolding(iv_resolution::specs::Changes::kinds_clash))]
pub fn kinds_clash(into: Option<ColumnType>, from: ColumnType) -> bool
    ensures { result ≡ kinds_clash into from }
{
    match into {
        Some(into) => {
            (is_integer_type(into) && is_text_type(from))
                || (is_text_type(into) && is_integer_type(from))
        }
        None => false,
    }
}

#[tactic(auto, unfolding(iv_resolution::specs::Terms::some_text))]
fn some_text<'a>(a: &Expression, b: &Expression, ranges: &'a Ranges<'a>) -> bool
    ensures { result ≡ some_text (ranges_seen ranges.now) a.now b.now }
{
    is_text(a, ranges) || is_text(b, ranges)
}

/// Whether a sign or arithmetic meets a text.
#[tactic(auto, using(crate::proofs::Steps::misshaped_expression_steps))]
pub fn misshaped_expression<'a>(expression: &Expression, ranges: &'a Ranges<'a>) -> bool
    ensures { result ≡ misshaped_expression (ranges_seen ranges.now) expression.now }
{
    match expression {
        Expression::Number(_) | Expression::Text(_) | Expression::Null => false,
        Expression::Column(_) => false,
        Expression::Group(a) => misshaped_expression(a.get(), ranges),
        Expression::Signed(_, a) => {
            is_text(a.get(), ranges) | misshaped_expression(a.get(), ranges)
        }
        Expression::Product(a, b) => {
            some_text(a.get(), b.get(), ranges)
                | (misshaped_expression(a.get(), ranges) | misshaped_expression(b.get(), ranges))
        }
        Expression::Sum(_, a, b) => {
            some_text(a.get(), b.get(), ranges)
                | (misshaped_expression(a.get(), ranges) | misshaped_expression(b.get(), ranges))
        }
    }
}

/// Whether an integer meets a text.
#[tactic(auto, using(crate::proofs::Steps::misshaped_condition_steps))]
pub fn misshaped_condition<'a>(
    condition: &'a Condition,
    names: &'a Names<'a>,
    ranges: &'a Ranges<'a>,
) -> bool
    requires { length names.now.tables.now ≤ MOST_TABLES }
    ensures { result ≡ misshaped_condition (names_seen names.now)
        (ranges_seen ranges.now) condition.now }
{
    match condition {
        Condition::Compare(_, a, b) => {
            clash(a, b, ranges)
                | (misshaped_expression(a, ranges) | misshaped_expression(b, ranges))
        }
        Condition::IsNull(a) | Condition::IsNotNull(a) => misshaped_expression(a, ranges),
        Condition::Exists(_) => false,
        Condition::ExistsWhere(range, a) => {
            let inner = inside(range, &*names, &*ranges);
            misshaped_condition(a.get(), &*names, &inner)
        }
        Condition::Group(a) => misshaped_condition(a.get(), names, ranges),
        Condition::Not(a) => misshaped_condition(a.get(), names, ranges),
        Condition::And(a, b) => {
            misshaped_condition(a.get(), names, ranges)
                | misshaped_condition(b.get(), names, ranges)
        }
        Condition::Or(a, b) => {
            misshaped_condition(a.get(), names, ranges)
                | misshaped_condition(b.get(), names, ranges)
        }
    }
}

/// The same of a condition that may be left out.
pub fn misshaped_filter<'a>(
    filter: &'a Option<Condition>,
    names: &'a Names<'a>,
    ranges: &'a Ranges<'a>,
) -> bool
    requires { length names.now.tables.now ≤ MOST_TABLES }
    ensures { result ≡ misshaped_filter (names_seen names.now) (ranges_seen ranges.now) filter.now }
{
    match filter {
        Some(condition) => misshaped_condition(condition, names, ranges),
        None => false,
    }
}

/// Whether there is an EXISTS, which no CHECK may have.
#[tactic(auto, using(crate::proofs::Steps::has_exists_steps))]
pub fn has_exists(condition: &Condition) -> bool
    ensures { result ≡ has_exists condition.now }
{
    match condition {
        Condition::Compare(_, _, _) | Condition::IsNull(_) | Condition::IsNotNull(_) => false,
        Condition::Exists(_) => true,
        Condition::ExistsWhere(_, _) => true,
        Condition::Group(a) => has_exists(a.get()),
        Condition::Not(a) => has_exists(a.get()),
        Condition::And(a, b) => has_exists(a.get()) | has_exists(b.get()),
        Condition::Or(a, b) => has_exists(a.get()) | has_exists(b.get()),
    }
}
