//! Integers that meet texts in an expression or a condition. Nothing here allocates; each function takes time in
//! proportion to the tree, and for each name to the ranges that it is inside of.
ghost use Rattle.std.specs.Prelude.{◌≡◌, ◌≤◌, length, option_map};
ghost use Rattle.iv_resolution.specs.Items.{told_if};
ghost use Rattle.iv_resolution.specs.Terms.{clash, is_integer, is_text};
ghost use Rattle.iv_resolve_scope.specs.Seen.{names_seen, ranges_seen};
ghost use Rattle.iv_resolve_reasons.specs.Seen.{shape_seen};
ghost use Rattle.iv_resolve_reasons.specs.Shapes.{comparison_fault, operand_told, shape_in_comparison, shape_in_condition, shape_in_expression, shape_in_filter};

use crate::shape::{ShapeFault, first_shape};
use iv_catalogue::MOST_TABLES;
use iv_resolve_scope::{Names, Ranges, clashes_with, inside};
use iv_syntax::{ColumnType, Condition, Expression};

// A text doesn't suit a column for integers.
#[tactic(auto, using(crate::proofs::TextKinds::text_by_clash))]
fn is_text<'a>(expression: &Expression, ranges: &'a Ranges<'a>) -> bool
    ensures { result ≡ is_text (ranges_seen ranges.now) expression.now }
{
    clashes_with(Some(ColumnType::Integer), expression, ranges)
}

// An integer doesn't suit a column for texts.
#[tactic(auto, using(crate::proofs::TextKinds::integer_by_clash))]
fn is_integer<'a>(expression: &Expression, ranges: &'a Ranges<'a>) -> bool
    ensures { result ≡ is_integer (ranges_seen ranges.now) expression.now }
{
    clashes_with(Some(ColumnType::Varchar(1)), expression, ranges)
}

#[tactic(auto, unfolding(iv_resolution::specs::Terms::clash))]
fn clash<'a>(a: &Expression, b: &Expression, ranges: &'a Ranges<'a>) -> bool
    ensures { result ≡ clash (ranges_seen ranges.now) a.now b.now }
{
    (is_integer(a, ranges) && is_text(b, ranges)) || (is_text(a, ranges) && is_integer(b, ranges))
}

// The operand itself if it is a text, or else what is told of its inside.
#[tactic(auto, unfolding(crate::specs::Shapes::operand_told))]
fn operand_told<'t, 'a>(
    operand: &'t Expression,
    inside: Option<ShapeFault<'t>>,
    ranges: &'a Ranges<'a>,
) -> Option<ShapeFault<'t>>
    ensures { option_map shape_seen result ≡ operand_told (ranges_seen ranges.now)
        operand.entry.now (option_map shape_seen inside.entry) }
{
    if is_text(operand, ranges) {
        Some(ShapeFault::Operand(operand))
    } else {
        inside
    }
}

/// The first text in an expression that is an operand of a sign or of arithmetic.
#[tactic(auto, using(crate::proofs::Steps::in_expression_steps))]
pub fn shape_in_expression<'t, 'a>(
    expression: &'t Expression,
    ranges: &'a Ranges<'a>,
) -> Option<ShapeFault<'t>>
    ensures { option_map shape_seen result
        ≡ shape_in_expression (ranges_seen ranges.now) expression.entry.now }
{
    match expression {
        Expression::Number(_) | Expression::Text(_) | Expression::Null => None,
        Expression::Column(_) => None,
        Expression::Group(a) => shape_in_expression(a.get(), ranges),
        Expression::Signed(_, a) => {
            let inside = shape_in_expression(a.get(), ranges);
            operand_told(a.get(), inside, ranges)
        }
        Expression::Product(a, b) => {
            let left = shape_in_expression(a.get(), ranges);
            let right = shape_in_expression(b.get(), ranges);
            let first = operand_told(a.get(), left, ranges);
            first_shape(first, operand_told(b.get(), right, ranges))
        }
        Expression::Sum(_, a, b) => {
            let left = shape_in_expression(a.get(), ranges);
            let right = shape_in_expression(b.get(), ranges);
            let first = operand_told(a.get(), left, ranges);
            first_shape(first, operand_told(b.get(), right, ranges))
        }
    }
}

fn compared<'t, 'a>(
    left: &'t Expression,
    right: &'t Expression,
    ranges: &'a Ranges<'a>,
) -> Option<ShapeFault<'t>>
    ensures { option_map shape_seen result
        ≡ told_if (clash (ranges_seen ranges.now) left.entry.now right.entry.now)
        (comparison_fault left.entry.now right.entry.now) }
{
    if clash(left, right, ranges) {
        Some(ShapeFault::Comparison(left, right))
    } else {
        None
    }
}

// A comparison if an integer meets a text, or else the first operand in it.
#[tactic(auto, unfolding(crate::specs::Shapes::shape_in_comparison))]
fn shape_in_comparison<'t, 'a>(
    left: &'t Expression,
    right: &'t Expression,
    ranges: &'a Ranges<'a>,
) -> Option<ShapeFault<'t>>
    ensures { option_map shape_seen result ≡ shape_in_comparison (ranges_seen ranges.now)
        left.entry.now right.entry.now }
{
    let inside = shape_in_expression(left, ranges);
    let after = first_shape(inside, shape_in_expression(right, ranges));
    first_shape(compared(left, right, ranges), after)
}

/// The first comparison or operand in a condition.
#[tactic(auto, using(crate::proofs::Steps::in_condition_steps))]
pub fn shape_in_condition<'t, 'a>(
    condition: &'t Condition,
    names: &'a Names<'a>,
    ranges: &'a Ranges<'a>,
) -> Option<ShapeFault<'t>>
    requires { length names.now.tables.now ≤ MOST_TABLES }
    ensures { option_map shape_seen result ≡ shape_in_condition (names_seen names.now)
        (ranges_seen ranges.now) condition.entry.now }
{
    match condition {
        Condition::Compare(_, a, b) => shape_in_comparison(a, b, &*ranges),
        Condition::IsNull(a) | Condition::IsNotNull(a) => shape_in_expression(a, &*ranges),
        Condition::Exists(_) => None,
        Condition::ExistsWhere(range, a) => {
            let inner = inside(range, &*names, &*ranges);
            shape_in_condition(a.get(), &*names, &inner)
        }
        Condition::Group(a) => shape_in_condition(a.get(), &*names, &*ranges),
        Condition::Not(a) => shape_in_condition(a.get(), &*names, &*ranges),
        Condition::And(a, b) => {
            let first = shape_in_condition(a.get(), &*names, &*ranges);
            first_shape(first, shape_in_condition(b.get(), &*names, &*ranges))
        }
        Condition::Or(a, b) => {
            let first = shape_in_condition(a.get(), &*names, &*ranges);
            first_shape(first, shape_in_condition(b.get(), &*names, &*ranges))
        }
    }
}

/// The same of a condition that may be left out.
pub fn shape_in_filter<'t, 'a>(
    filter: &'t Option<Condition>,
    names: &'a Names<'a>,
    ranges: &'a Ranges<'a>,
) -> Option<ShapeFault<'t>>
    requires { length names.now.tables.now ≤ MOST_TABLES }
    ensures { option_map shape_seen result ≡ shape_in_filter (names_seen names.now)
        (ranges_seen ranges.now) filter.entry.now }
{
    match filter {
        Some(condition) => shape_in_condition(condition, names, ranges),
        None => None,
    }
}
