//! Conditions, read from words.
ghost use Rattle.std.specs.Prelude.{◌≤◌, ◌-◌, ◌<◌};
ghost use Rattle.iv_parse_terms.specs.readers.Conditions.{as_item, after_select as select_at, exists_by, more_by, read_lead, lead_factor as lead_factor_of, read_test, read_negation, read_operand, read_chain, read_item, read_from as from, read_condition as read};
ghost use Rattle.iv_parse_terms.specs.readers.Expressions.{read_primary, signed_from, simple as simple_at};
ghost use Rattle.iv_parse_terms.specs.Reading.{Expects, Reads, ReadsAs};
ghost use Rattle.iv_parse_terms.specs.SeenItem.{from_in, item_in};

use crate::cursor::Cursor;
use crate::expression::{signed_factor, simple};
use crate::from::{FromPart, close_exists, range, with_where};
use crate::item::{Connective, Item};
use crate::predicate::{accept_connective, close_item, go_on, join, negate, truth};
use crate::stop::Stop;
use iv_lex::TokenKind;
use iv_syntax::{Condition, DEEPEST_TREE, RangeName, Sign};

// ( SELECT *
fn select(cursor: &mut Cursor<'_>) -> Result<(), Stop>
    ensures { Expects select_at cursor.old result cursor.new }
{
    cursor.expect(TokenKind::LeftParenthesis)?;
    cursor.expect(TokenKind::Select)?;
    cursor.expect(TokenKind::Asterisk)
}

// A factor, from what follows its sign on, as an item.
fn value_signed(cursor: &mut Cursor<'_>, limit: u8, sign: Sign) -> Result<Item, Stop>
    requires { limit ≤ DEEPEST_TREE }
    ensures { ReadsAs item_in (λ ws. as_item (signed_from limit (read_primary limit) sign ws))
        cursor.old result cursor.new }
{
    let value = signed_factor(cursor, limit, sign)?;
    Ok(Item::Value(value))
}

// A number, a text, NULL or a column, as an item.
fn value_simple(cursor: &mut Cursor<'_>) -> Result<Item, Stop>
    ensures { ReadsAs item_in (λ ws. as_item (simple_at ws)) cursor.old result
        cursor.new }
{
    let value = simple(cursor)?;
    Ok(Item::Value(value))
}

// What comes first in a test.
#[cycle(condition)]
fn lead(cursor: &mut Cursor<'_>, limit: u8) -> Result<Item, Stop>
    requires { limit ≤ DEEPEST_TREE }
    ensures { ReadsAs item_in (read_lead limit) cursor.old result cursor.new }
{
    if limit == 0 {
        return Err(Stop::TooDeep);
    }
    if cursor.accept(TokenKind::LeftParenthesis) {
        let inside = item(&mut *cursor, limit - 1)?;
        return close_item(&mut *cursor, limit, inside);
    }
    if cursor.accept(TokenKind::Exists) {
        return exists(&mut *cursor, limit);
    }
    value_simple(&mut *cursor)
}

// EXISTS, from the parenthesis on.
#[cycle(condition)]
fn exists(cursor: &mut Cursor<'_>, limit: u8) -> Result<Item, Stop>
    requires low { limit ≤ DEEPEST_TREE }
    requires some { 0 < limit }
    ensures { ReadsAs item_in (exists_by limit (read_item (limit - 1))) cursor.old
        result cursor.new }
{
    select(&mut *cursor)?;
    let found = from_range(&mut *cursor, limit - 1)?;
    close_exists(&mut *cursor, limit, found)
}

// FROM, a table, its alias and WHERE with a condition.
#[cycle(condition)]
fn from_range(cursor: &mut Cursor<'_>, limit: u8) -> Result<FromPart, Stop>
    requires { limit ≤ DEEPEST_TREE }
    ensures { ReadsAs from_in (from limit) cursor.old result cursor.new }
{
    cursor.expect(TokenKind::From)?;
    let range = range(&mut *cursor)?;
    if cursor.accept(TokenKind::Where) {
        let found = item(&mut *cursor, limit)?;
        return with_where(range, found);
    }
    Ok((range, None))
}

// The factor that comes first in a test, or a condition.
#[cycle(condition)]
fn lead_factor(cursor: &mut Cursor<'_>, limit: u8) -> Result<Item, Stop>
    requires { limit ≤ DEEPEST_TREE }
    ensures { ReadsAs item_in (lead_factor_of limit) cursor.old result cursor.new }
{
    if let Some(sign) = cursor.accept_sign() {
        return value_signed(&mut *cursor, limit, sign);
    }
    lead(&mut *cursor, limit)
}

#[cycle(condition)]
fn test(cursor: &mut Cursor<'_>, limit: u8) -> Result<Item, Stop>
    requires { limit ≤ DEEPEST_TREE }
    ensures { ReadsAs item_in (read_test limit) cursor.old result cursor.new }
{
    let found = lead_factor(&mut *cursor, limit)?;
    go_on(&mut *cursor, limit, found)
}

#[cycle(condition)]
fn negation(cursor: &mut Cursor<'_>, limit: u8) -> Result<Item, Stop>
    requires { limit ≤ DEEPEST_TREE }
    ensures { ReadsAs item_in (read_negation limit) cursor.old result cursor.new }
{
    if cursor.accept(TokenKind::Not) {
        let found = test(&mut *cursor, limit)?;
        return negate(cursor.alloc(), limit, found);
    }
    test(&mut *cursor, limit)
}

// What AND or OR stands between: negations, or conjunctions.
#[cycle(condition)]
fn operand(cursor: &mut Cursor<'_>, limit: u8, connective: Connective) -> Result<Item, Stop>
    requires { limit ≤ DEEPEST_TREE }
    ensures { ReadsAs item_in (read_operand connective limit) cursor.old result
        cursor.new }
{
    match connective {
        Connective::And => negation(&mut *cursor, limit),
        Connective::Or => chain(&mut *cursor, limit, Connective::And),
    }
}

// The operands that follow, of which there are at most so many.
#[cycle(condition)]
fn operands(
    cursor: &mut Cursor<'_>,
    limit: u8,
    most: u8,
    connective: Connective,
    left: Item,
) -> Result<Item, Stop>
    requires low { limit ≤ DEEPEST_TREE }
    requires few { most ≤ DEEPEST_TREE }
    ensures { ReadsAs item_in (more_by connective limit (read_operand connective limit) most
        (item_in left)) cursor.old result cursor.new }
{
    if !accept_connective(&mut *cursor, connective, &left) {
        return Ok(left);
    }
    if most == 0 {
        drop(left);
        return Err(Stop::TooDeep);
    }
    let right = operand(&mut *cursor, limit, connective)?;
    let both = join(cursor.alloc(), limit, connective, left, right)?;
    operands(&mut *cursor, limit, most - 1, connective, both)
}

// Operands with AND or with OR between them.
#[cycle(condition)]
fn chain(cursor: &mut Cursor<'_>, limit: u8, connective: Connective) -> Result<Item, Stop>
    requires { limit ≤ DEEPEST_TREE }
    ensures { ReadsAs item_in (read_chain connective limit) cursor.old result
        cursor.new }
{
    let left = operand(&mut *cursor, limit, connective)?;
    operands(&mut *cursor, limit, limit, connective, left)
}

// A value or a condition.
#[cycle(condition)]
fn item(cursor: &mut Cursor<'_>, limit: u8) -> Result<Item, Stop>
    requires { limit ≤ DEEPEST_TREE }
    ensures { ReadsAs item_in (read_item limit) cursor.old result cursor.new }
{
    chain(&mut *cursor, limit, Connective::Or)
}

/// The condition at the cursor, as long as it can be.
pub fn read_condition(cursor: &mut Cursor<'_>) -> Result<Condition, Stop>
    ensures { Reads (read DEEPEST_TREE) cursor.old result cursor.new }
{
    let found = item(cursor, DEEPEST_TREE)?;
    let (tree, _) = truth(found)?.into_parts();
    Ok(tree)
}

/// FROM, a table, its alias and WHERE with a condition at the cursor, as long as they can be.
pub fn read_from(cursor: &mut Cursor<'_>) -> Result<(RangeName, Option<Condition>), Stop>
    ensures { Reads (from DEEPEST_TREE) cursor.old result cursor.new }
{
    let (range, condition) = from_range(cursor, DEEPEST_TREE)?;
    match condition {
        Some(part) => Ok((range, Some(part.into_parts().0))),
        None => Ok((range, None)),
    }
}
