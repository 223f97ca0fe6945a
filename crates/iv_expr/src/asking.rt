//! What a condition asks of a row: the values that it has where the condition is true.
ghost use Rattle.std.specs.Prelude.{◌≡◌, List, Some, None, true, false, Ok, IfOk, length, OnOk};
ghost use Rattle.std.specs.Option.{option_map};
ghost use Rattle.iv_value.specs.References.{value_of};
ghost use Rattle.iv_value.specs.declared.value.Value.{Value as Cell};
ghost use Rattle.iv_value.specs.declared.value.Value.TheVariants.{Null};
ghost use Rattle.iv_expr.specs.Asking.{AsksMore, IsEqualAt, IsNeverTrue, at_other, is_outside as outside, own_column as column_of_own};
ghost use Rattle.iv_expr.specs.Evaluation.{both, comparison_of, truth, value};
ghost use Rattle.iv_expr.specs.Searches.{AreTexts, IsText, has_all};
ghost use Rattle.iv_expr.specs.declared.tree.Comparison.TheVariants as by;
ghost use Rattle.std.specs.Str.{IsUtf8};

use crate::expression::value_in;
use crate::scope::{Rows, Scope};
use crate::sorts::{is_outside, own_column};
use crate::tree::{Comparison, Cond, Expr};
use iv_value::{Value, ValueRef};
use std::alloc::{AllocError, Global};

// Does nothing: a text is in UTF-8.
fn recall_text(text: &str)
    ensures { IsUtf8 text.now }
{
    let _ = text;
}

// Does nothing: a value's text is in UTF-8.
pub fn recall_value(value: ValueRef<'_>)
    ensures { IsText (value_of value.entry) }
{
    if let ValueRef::Text(text) = value {
        recall_text(text.as_str());
    }
}

/// A list of as many nulls.
pub fn nulls(alloc: Global, count: usize) -> Result<Vec<Value>, AllocError>
    ensures { IfOk result (λ v. (row : List Cell) → has_all v.items row ≡ true) }
{
    let mut asked = Vec::with_capacity(alloc, count)?;
    while asked.len() < count {
        asked.push(Value::Null)?;
    }
    Ok(asked)
}

// Asks for this value in a column, if nothing is asked for there yet.
fn set(asked: &mut Vec<Value>, column: u32, value: Value)
    ensures asks { (row : List Cell) → AreTexts row → IsText value → IsEqualAt row column value
        → has_all asked.old.items row ≡ true → has_all asked.new.items row ≡ true }
{
    let place = column as usize;
    if place < asked.len() {
        asked[place] = value;
    }
}

// Asks for the value of an expression in a column, and tells whether a row may have it: none does if it is null.
fn ask_value<R: Rows>(
    column: u32,
    expr: &Expr,
    inside: &Scope<'_, R>,
    asked: &mut Vec<Value>,
) -> Result<bool, AllocError>
    ensures asks { IfOk result (λ may. (v : Cell) → value inside.now expr.now ≡ Ok v
        → (row : List Cell) → AreTexts row → IsEqualAt row column v
        → has_all asked.old.items row ≡ true → has_all asked.new.items row ≡ true) }
    ensures never { IfOk result (λ may. may ≡ false → value inside.now expr.now ≡ Ok Null) }
{
    match value_in(expr, inside) {
        Ok(ValueRef::Null) => Ok(false),
        Ok(value) => {
            recall_value(value);
            set(asked, column, value.to_value()?);
            Ok(true)
        }
        Err(_) => Ok(true),
    }
}

// The column that one side of an equality is, if the other reads nothing of the row.
fn column_asked(column: &Expr, other: &Expr) -> Option<u32>
    ensures column { (c : _) → result ≡ Some c → column_of_own column.now ≡ Some c }
    ensures other { (c : _) → result ≡ Some c → outside other.now ≡ true }
{
    if is_outside(other) {
        own_column(column)
    } else {
        None
    }
}

fn is_equal(comparison: Comparison) -> bool
    ensures { result ≡ true → comparison ≡ by.Equal }
{
    match comparison {
        Comparison::Equal => true,
        _ => false,
    }
}

// Asks for what an equality tells of a column.
fn ask_equal<R: Rows>(
    comparison: Comparison,
    left: &Expr,
    right: &Expr,
    inside: &Scope<'_, R>,
    asked: &mut Vec<Value>,
) -> Result<bool, AllocError>
    ensures asks { IfOk result (λ may. may ≡ true → AsksMore (λ row. both (comparison_of comparison)
        (value (at_other inside.now row) left.now) (value (at_other inside.now row) right.now))
        asked.old.items asked.new.items) }
    ensures never { IfOk result (λ may. may ≡ false → IsNeverTrue (λ row. both (comparison_of comparison)
        (value (at_other inside.now row) left.now) (value (at_other inside.now row) right.now))) }
{
    if !is_equal(comparison) {
        return Ok(true);
    }
    if let Some(column) = column_asked(left, right) {
        return ask_value(column, right, inside, asked);
    }
    if let Some(column) = column_asked(right, left) {
        return ask_value(column, left, inside, asked);
    }
    Ok(true)
}

/// Asks for the values that a row of the innermost range has where a condition is true, as far as equalities joined by
/// AND tell, and tells whether a row may have them. It allocates only copies of texts.
pub fn ask<R: Rows>(
    cond: &Cond,
    inside: &Scope<'_, R>,
    asked: &mut Vec<Value>,
) -> Result<bool, AllocError>
    ensures asks { IfOk result (λ may. may ≡ true → AsksMore (λ row. truth (at_other inside.now row) cond.now) asked.old.items asked.new.items) }
    ensures never { IfOk result (λ may. may ≡ false → IsNeverTrue (λ row. truth (at_other inside.now row) cond.now)) }
{
    match cond {
        Cond::Compare(comparison, left, right) => {
            ask_equal(*comparison, left, right, inside, asked)
        }
        Cond::And(left, right) => {
            if !ask(left.get(), inside, asked)? {
                return Ok(false);
            }
            ask(right.get(), inside, asked)
        }
        _ => Ok(true),
    }
}
