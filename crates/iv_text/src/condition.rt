//! The condition of a CHECK, with the names of its columns or with the values of a row.
ghost use Rattle.std.specs.Prelude.{◌≡◌, ◌++◌, codes, option_map};
ghost use Rattle.std.specs.Option.{option_copied};
ghost use Rattle.iv_expr.specs.declared.tree.Cond.TheVariants as cond;
ghost use Rattle.iv_text.specs.Conditions.{column_text, comparison_text, condition_text, enclosed_if, expression_text, is_below_and, is_below_not, is_both, is_either, is_negated, is_null_test, is_operation, is_product, is_signed, is_sum, is_unsigned, is_zero, is_zero_value, minus_text, not_text, null_operand, shows_names, takes_sign};
ghost use Rattle.iv_text.specs.Spelled.{spelled};
ghost use Rattle.iv_text.specs.Writing.{Writes};

use crate::device::{DeviceFault, Sink};
use crate::format::Format;
use crate::spelled::{tell, tell_nothing};
use crate::spelled_value::{tell_borrowed, tell_value};
use iv_catalogue::Column;
use iv_expr::{Comparison, Cond, Expr};
use iv_key::value_at;
use iv_value::Value;

/// What stands for a column: its name, or the value that a row has there.
#[derive(Clone, Copy)]
pub enum Shown {
    Names,
    Values,
}

// ---- which parts need parentheses

fn is_zero_value(value: &Value) -> bool
    ensures { result ≡ is_zero_value value.now }
{
    match value {
        Value::Int(number) => *number == 0,
        _ => false,
    }
}

fn is_zero(expr: &Expr) -> bool
    ensures { result ≡ is_zero expr.now }
{
    match expr {
        Expr::Literal(value) => is_zero_value(value),
        _ => false,
    }
}

fn is_unsigned(value: &Value) -> bool
    ensures { result ≡ is_unsigned value.now }
{
    match value {
        Value::Int(number) => *number >= 0,
        _ => true,
    }
}

fn shows_names(shown: Shown) -> bool
    ensures { result ≡ shows_names shown }
{
    match shown {
        Shown::Names => true,
        Shown::Values => false,
    }
}

fn takes_sign(shown: Shown, expr: &Expr) -> bool
    ensures { result ≡ takes_sign shown expr.now }
{
    match expr {
        Expr::Literal(value) => is_unsigned(value),
        Expr::Column(_, _) => shows_names(shown),
        _ => false,
    }
}

fn is_signed(shown: Shown, a: &Expr, b: &Expr) -> bool
    ensures { result ≡ is_signed shown a.now b.now }
{
    is_zero(a) && takes_sign(shown, b)
}

fn is_sum(shown: Shown, expr: &Expr) -> bool
    ensures { result ≡ is_sum shown expr.now }
{
    match expr {
        Expr::Plus(_, _) => true,
        Expr::Minus(a, b) => !is_signed(shown, a.get(), b.get()),
        _ => false,
    }
}

fn is_product(expr: &Expr) -> bool
    ensures { result ≡ is_product expr.now }
{
    matches!(expr, Expr::Times(_, _))
}

fn is_operation(shown: Shown, expr: &Expr) -> bool
    ensures { result ≡ is_operation shown expr.now }
{
    is_sum(shown, expr) || is_product(expr)
}

fn is_both(cond: &Cond) -> bool
    ensures { result ≡ is_both cond.now }
{
    matches!(cond, Cond::And(_, _))
}

fn is_either(cond: &Cond) -> bool
    ensures { result ≡ is_either cond.now }
{
    matches!(cond, Cond::Or(_, _))
}

fn is_null_test(cond: &Cond) -> bool
    ensures { result ≡ is_null_test cond.now }
{
    matches!(cond, Cond::IsNull(_))
}

fn is_negated(cond: &Cond) -> bool
    ensures { result ≡ is_negated cond.now }
{
    match cond {
        Cond::Not(a) => !is_null_test(a.get()),
        _ => false,
    }
}

fn is_below_and(cond: &Cond) -> bool
    ensures { result ≡ is_below_and cond.now }
{
    is_either(cond) || is_both(cond)
}

fn is_below_not(cond: &Cond) -> bool
    ensures { result ≡ is_below_not cond.now }
{
    is_below_and(cond) || is_negated(cond)
}

// What an IS NULL is of.
fn null_operand(cond: &Cond) -> Option<&Expr>
    ensures { option_copied result ≡ null_operand cond.now }
{
    match cond {
        Cond::IsNull(a) => Some(a),
        _ => None,
    }
}

// ---- expressions

// A column, by its name or by its value.
fn tell_column<W: Sink>(
    writer: &mut W,
    format: Format,
    shown: Shown,
    columns: &[Column],
    row: &[Value],
    place: u32,
) -> Result<(), DeviceFault>
    ensures { Writes (W.state writer.old) (W.state writer.new) result
        (spelled format (column_text shown columns.now row.now place)) }
{
    match shown {
        Shown::Names => match columns.get(place as usize) {
            Some(column) => tell(writer, format, column.name.as_str().as_bytes()),
            None => tell_nothing(writer, format),
        },
        Shown::Values => tell_borrowed(writer, format, value_at(row, place)),
    }
}

// An operand, in parentheses or without.
#[cycle(tell_expression)]
#[tactic(auto, using(crate::proofs::SpelledLemmas::spelled_then))]
fn tell_operand<W: Sink>(
    writer: &mut W,
    format: Format,
    shown: Shown,
    columns: &[Column],
    row: &[Value],
    enclosed: bool,
    expr: &Expr,
) -> Result<(), DeviceFault>
    ensures { Writes (W.state writer.old) (W.state writer.new) result
        (spelled format (enclosed_if enclosed (expression_text shown columns.now row.now expr.now))) }
{
    if enclosed {
        tell(writer, format, b"(")?;
        tell_expression(writer, format, shown, columns, row, expr)?;
        tell(writer, format, b")")
    } else {
        tell_expression(writer, format, shown, columns, row, expr)
    }
}

// What stands before the right operand of a difference: a sign, or the left operand and a minus.
#[cycle(tell_expression)]
#[tactic(auto, using(crate::proofs::SpelledLemmas::spelled_then))]
fn tell_minus<W: Sink>(
    writer: &mut W,
    format: Format,
    shown: Shown,
    columns: &[Column],
    row: &[Value],
    signed: bool,
    a: &Expr,
) -> Result<(), DeviceFault>
    ensures { Writes (W.state writer.old) (W.state writer.new) result
        (spelled format (minus_text signed (expression_text shown columns.now row.now a.now))) }
{
    if signed {
        tell(writer, format, b"-")
    } else {
        tell_expression(writer, format, shown, columns, row, a)?;
        tell(writer, format, b" - ")
    }
}

// An expression.
#[cycle(tell_expression)]
#[tactic(auto, using(crate::proofs::ConditionLemmas::plus_told, crate::proofs::ConditionLemmas::minus_told, crate::proofs::ConditionLemmas::times_told))]
fn tell_expression<W: Sink>(
    writer: &mut W,
    format: Format,
    shown: Shown,
    columns: &[Column],
    row: &[Value],
    expr: &Expr,
) -> Result<(), DeviceFault>
    ensures { Writes (W.state writer.old) (W.state writer.new) result
        (spelled format (expression_text shown columns.now row.now expr.now)) }
{
    match expr {
        Expr::Literal(value) => tell_value(writer, format, value),
        Expr::Column(_, place) => tell_column(writer, format, shown, columns, row, *place),
        Expr::Variable(_, _) => tell(writer, format, b"NULL"),
        Expr::Plus(a, b) => {
            let a = a.get();
            let b = b.get();
            let enclosed = is_sum(shown, b);
            tell_expression(writer, format, shown, columns, row, a)?;
            tell(writer, format, b" + ")?;
            tell_operand(writer, format, shown, columns, row, enclosed, b)
        }
        Expr::Minus(a, b) => {
            let a = a.get();
            let b = b.get();
            let signed = is_signed(shown, a, b);
            let enclosed = is_sum(shown, b);
            tell_minus(writer, format, shown, columns, row, signed, a)?;
            tell_operand(writer, format, shown, columns, row, enclosed, b)
        }
        Expr::Times(a, b) => {
            let a = a.get();
            let b = b.get();
            let left = is_sum(shown, a);
            let right = is_operation(shown, b);
            tell_operand(writer, format, shown, columns, row, left, a)?;
            tell(writer, format, b" * ")?;
            tell_operand(writer, format, shown, columns, row, right, b)
        }
    }
}

// ---- conditions

fn comparison_text(comparison: Comparison) -> &'static str
    ensures { result.now ≡ comparison_text comparison }
{
    match comparison {
        Comparison::Equal => " = ",
        Comparison::NotEqual => " <> ",
        Comparison::Less => " < ",
        Comparison::LessEqual => " <= ",
        Comparison::Greater => " > ",
        Comparison::GreaterEqual => " >= ",
    }
}

// A condition as an operand, in parentheses or without.
#[cycle(tell_condition)]
#[tactic(auto, using(crate::proofs::SpelledLemmas::spelled_then))]
fn tell_part<W: Sink>(
    writer: &mut W,
    format: Format,
    shown: Shown,
    columns: &[Column],
    row: &[Value],
    enclosed: bool,
    cond: &Cond,
) -> Result<(), DeviceFault>
    ensures { Writes (W.state writer.old) (W.state writer.new) result
        (spelled format (enclosed_if enclosed (condition_text shown columns.now row.now cond.now))) }
{
    if enclosed {
        tell(writer, format, b"(")?;
        tell_condition(writer, format, shown, columns, row, cond)?;
        tell(writer, format, b")")
    } else {
        tell_condition(writer, format, shown, columns, row, cond)
    }
}

// NOT over a condition, or IS NOT NULL.
#[cycle(tell_condition)]
#[tactic(auto, using(crate::proofs::SpelledLemmas::spelled_then))]
fn tell_not<W: Sink>(
    writer: &mut W,
    format: Format,
    shown: Shown,
    columns: &[Column],
    row: &[Value],
    part: &Cond,
) -> Result<(), DeviceFault>
    ensures { Writes (W.state writer.old) (W.state writer.new) result
        (spelled format (not_text (option_map (expression_text shown columns.now row.now) (null_operand part.now))
        (is_below_not part.now) (condition_text shown columns.now row.now part.now))) }
{
    match null_operand(part) {
        Some(operand) => {
            tell_expression(writer, format, shown, columns, row, operand)?;
            tell(writer, format, b" IS NOT NULL")
        }
        None => {
            tell(writer, format, b"NOT ")?;
            tell_part(
                writer,
                format,
                shown,
                columns,
                row,
                is_below_not(part),
                part,
            )
        }
    }
}

// A comparison.
#[tactic(auto, using(crate::proofs::SpelledLemmas::spelled_then))]
fn tell_comparison<W: Sink>(
    writer: &mut W,
    format: Format,
    shown: Shown,
    columns: &[Column],
    row: &[Value],
    comparison: Comparison,
    a: &Expr,
    b: &Expr,
) -> Result<(), DeviceFault>
    ensures { Writes (W.state writer.old) (W.state writer.new) result
        (spelled format (condition_text shown columns.now row.now (cond.Compare comparison a.now b.now))) }
{
    tell_expression(writer, format, shown, columns, row, a)?;
    tell(writer, format, comparison_text(comparison).as_bytes())?;
    tell_expression(writer, format, shown, columns, row, b)
}

/// Writes the condition of a CHECK on a table with these columns: with their names, or with the values of this row. It
/// takes no memory.
#[cycle(tell_condition)]
#[tactic(auto, using(crate::proofs::ConditionLemmas::not_told, crate::proofs::ConditionLemmas::and_told, crate::proofs::ConditionLemmas::or_told, crate::proofs::ConditionLemmas::exists_told))]
pub fn tell_condition<W: Sink>(
    writer: &mut W,
    format: Format,
    shown: Shown,
    columns: &[Column],
    row: &[Value],
    cond: &Cond,
) -> Result<(), DeviceFault>
    ensures { Writes (W.state writer.old) (W.state writer.new) result
        (spelled format (condition_text shown columns.now row.now cond.now)) }
{
    match cond {
        Cond::Always => tell(writer, format, b"NULL IS NULL"),
        Cond::Compare(comparison, a, b) => tell_comparison(
            writer,
            format,
            shown,
            columns,
            row,
            *comparison,
            a,
            b,
        ),
        Cond::IsNull(a) => {
            tell_expression(writer, format, shown, columns, row, a)?;
            tell(writer, format, b" IS NULL")
        }
        Cond::Not(a) => tell_not(writer, format, shown, columns, row, a.get()),
        Cond::And(a, b) => {
            let a = a.get();
            let b = b.get();
            let left = is_either(a);
            let right = is_below_and(b);
            tell_part(writer, format, shown, columns, row, left, a)?;
            tell(writer, format, b" AND ")?;
            tell_part(writer, format, shown, columns, row, right, b)
        }
        Cond::Or(a, b) => {
            let a = a.get();
            let b = b.get();
            let right = is_either(b);
            tell_condition(writer, format, shown, columns, row, a)?;
            tell(writer, format, b" OR ")?;
            tell_part(writer, format, shown, columns, row, right, b)
        }
        Cond::Exists(_, _) => tell(writer, format, b"EXISTS (..)"),
    }
}
