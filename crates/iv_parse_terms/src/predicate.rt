//! Predicates, parentheses, NOT, AND and OR over what was read.
ghost use Rattle.std.specs.Prelude.{◌≡◌, ◌+◌, ◌≤◌, None};
ghost use Rattle.iv_syntax.specs.Trees.{condition_depth};
ghost use Rattle.iv_parse_terms.specs.readers.Conditions.{condition_fits, on_value, enclose as enclosed_item, close_item as closed_item, null_test, comparison_from, predicate_from, value_test, negate as negated_item, after_truth, connection_from, truth_alone};
ghost use Rattle.iv_parse_terms.specs.Reading.{MakesAs, ReadsAs, Tries};
ghost use Rattle.iv_parse_terms.specs.SeenItem.{condition_in, item_in};

use crate::condition_part::ConditionPart;
use crate::cursor::Cursor;
use crate::expression::{expression, factors, make_group, terms};
use crate::expression_part::ExpressionPart;
use crate::item::{Connective, Item};
use crate::make::{connected_of, enclosed_of, negated_of};
use crate::stop::Stop;
use iv_expr::Comparison;
use iv_lex::TokenKind;
use iv_syntax::{Condition, DEEPEST_TREE};
use std::alloc::Global;

/// The condition, where it is not too deep; `below` is the depth of its deepest part.
pub fn fit(limit: u8, tree: Condition, below: u8) -> Result<Item, Stop>
    requires { condition_depth tree ≡ 1 + below }
    ensures { MakesAs item_in (condition_fits limit tree) result }
{
    if below >= limit {
        drop(tree);
        return Err(Stop::TooDeep);
    }
    Ok(Item::Truth(ConditionPart {
        tree,
        depth: below + 1,
    }))
}

fn enclose(alloc: Global, limit: u8, inside: Item) -> Result<Item, Stop>
    ensures { MakesAs item_in (enclosed_item limit (item_in inside)) result }
{
    match inside {
        Item::Value(value) => {
            let group = make_group(alloc, limit, value)?;
            Ok(Item::Value(group))
        }
        Item::Truth(condition) => {
            let (tree, depth) = condition.into_parts();
            let tree = enclosed_of(alloc, tree)?;
            fit(limit, tree, depth)
        }
    }
}

/// The item in parentheses, where one closes.
pub fn close_item(cursor: &mut Cursor<'_>, limit: u8, inside: Item) -> Result<Item, Stop>
    ensures { ReadsAs item_in (closed_item limit (item_in inside)) cursor.old result cursor.new }
{
    let inside = cursor.followed(inside, TokenKind::RightParenthesis)?;
    enclose(cursor.alloc(), limit, inside)
}

// IS [NOT] NULL, from what follows IS on.
fn test_null(cursor: &mut Cursor<'_>, limit: u8, value: ExpressionPart) -> Result<Item, Stop>
    ensures { ReadsAs item_in (null_test limit value.tree) cursor.old result cursor.new }
{
    if cursor.accept(TokenKind::Not) {
        let (tree, depth) = cursor.followed(value, TokenKind::Null)?.into_parts();
        return fit(limit, Condition::IsNotNull(tree), depth);
    }
    let (tree, depth) = cursor.followed(value, TokenKind::Null)?.into_parts();
    fit(limit, Condition::IsNull(tree), depth)
}

fn compare(
    cursor: &mut Cursor<'_>,
    limit: u8,
    by: Comparison,
    left: ExpressionPart,
) -> Result<Item, Stop>
    requires { limit ≤ DEEPEST_TREE }
    ensures { ReadsAs item_in (comparison_from limit by left.tree) cursor.old result
        cursor.new }
{
    let right = expression(cursor, limit)?;
    let (left, first) = left.into_parts();
    let (right, second) = right.into_parts();
    let below = first.max(second);
    fit(limit, Condition::Compare(by, left, right), below)
}

// The predicate that begins with this value, or the value alone.
fn test_whole(cursor: &mut Cursor<'_>, limit: u8, value: ExpressionPart) -> Result<Item, Stop>
    requires { limit ≤ DEEPEST_TREE }
    ensures { ReadsAs item_in (predicate_from limit value.tree) cursor.old result
        cursor.new }
{
    if let Some(by) = cursor.accept_comparison() {
        return compare(cursor, limit, by, value);
    }
    if cursor.accept(TokenKind::Is) {
        return test_null(cursor, limit, value);
    }
    Ok(Item::Value(value))
}

// The test that begins with this factor, or the value alone.
fn test_value(cursor: &mut Cursor<'_>, limit: u8, value: ExpressionPart) -> Result<Item, Stop>
    requires { limit ≤ DEEPEST_TREE }
    ensures { ReadsAs item_in (value_test limit value.tree) cursor.old result
        cursor.new }
{
    let term = factors(cursor, limit, limit, value)?;
    let whole = terms(cursor, limit, limit, term)?;
    test_whole(cursor, limit, whole)
}

/// A value goes on to its test; a condition stays as it is.
pub fn go_on(cursor: &mut Cursor<'_>, limit: u8, found: Item) -> Result<Item, Stop>
    requires { limit ≤ DEEPEST_TREE }
    ensures { ReadsAs item_in (on_value (value_test limit) (item_in found)) cursor.old
        result cursor.new }
{
    match found {
        Item::Value(value) => test_value(cursor, limit, value),
        Item::Truth(condition) => Ok(Item::Truth(condition)),
    }
}

/// NOT and the condition that was read after it.
pub fn negate(alloc: Global, limit: u8, found: Item) -> Result<Item, Stop>
    ensures { MakesAs item_in (negated_item limit (item_in found)) result }
{
    let (tree, depth) = truth(found)?.into_parts();
    let tree = negated_of(alloc, tree)?;
    fit(limit, tree, depth)
}

/// Goes past AND or OR, where it comes after a condition.
pub fn accept_connective(cursor: &mut Cursor<'_>, connective: Connective, found: &Item) -> bool
    ensures { Tries (after_truth connective (item_in found.now)) cursor.old result
        cursor.new }
{
    match (found, connective) {
        (Item::Truth(_), Connective::And) => cursor.accept(TokenKind::And),
        (Item::Truth(_), Connective::Or) => cursor.accept(TokenKind::Or),
        (Item::Value(_), _) => false,
    }
}

/// The condition that was read, where it is no value.
pub fn truth(found: Item) -> Result<ConditionPart, Stop>
    ensures { MakesAs condition_in (truth_alone (item_in found)) result }
{
    match found {
        Item::Truth(condition) => Ok(condition),
        Item::Value(value) => {
            drop(value);
            Err(Stop::NoMatch)
        }
    }
}

/// Two conditions with AND or OR between them.
pub fn join(
    alloc: Global,
    limit: u8,
    connective: Connective,
    left: Item,
    right: Item,
) -> Result<Item, Stop>
    ensures { MakesAs item_in (connection_from connective limit (item_in left) (item_in right)) result }
{
    let left = truth(left)?;
    let right = truth(right)?;
    let (left, first) = left.into_parts();
    let (right, second) = right.into_parts();
    let below = first.max(second);
    let tree = connected_of(alloc, connective, left, right)?;
    fit(limit, tree, below)
}
