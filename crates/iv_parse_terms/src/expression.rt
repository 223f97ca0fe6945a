//! Expressions, read from words.
ghost use Rattle.std.specs.Prelude.{◌≡◌, ◌+◌, ◌≤◌};
ghost use Rattle.iv_syntax.specs.Trees.{group, signed, depth as depth_of};
ghost use Rattle.iv_parse_terms.specs.readers.Expressions.{column_tree, joined, null_or_column, simple as simple_at, close_group, fits, signed_from, more_factors, more_terms, read_primary, read_factor, read_term, read_expression as read};
ghost use Rattle.iv_parse_terms.specs.Reading.{MakesAs, Reads, ReadsAs};
ghost use Rattle.iv_parse_terms.specs.Seen.{tree_in};

use crate::cursor::Cursor;
use crate::expression_part::ExpressionPart;
use crate::make::{group_of, joined_of, signed_of};
use crate::stop::Stop;
use iv_lex::TokenKind;
use iv_syntax::{ColumnName, DEEPEST_TREE, Expression, Name, Sign};
use std::alloc::Global;

// The expression, where it is not too deep; `below` is the depth of its deepest part.
fn fit(limit: u8, tree: Expression, below: u8) -> Result<ExpressionPart, Stop>
    requires { depth_of tree ≡ 1 + below }
    ensures { MakesAs tree_in (fits limit tree) result }
{
    if below >= limit {
        drop(tree);
        return Err(Stop::TooDeep);
    }
    Ok(ExpressionPart {
        tree,
        depth: below + 1,
    })
}

/// The expression in parentheses, where it is not too deep.
pub fn make_group(alloc: Global, limit: u8, inside: ExpressionPart) -> Result<ExpressionPart, Stop>
    ensures { MakesAs tree_in (fits limit (group inside.tree)) result }
{
    let (tree, depth) = inside.into_parts();
    let tree = group_of(alloc, tree)?;
    fit(limit, tree, depth)
}

fn make_signed(
    alloc: Global,
    limit: u8,
    sign: Sign,
    operand: ExpressionPart,
) -> Result<ExpressionPart, Stop>
    ensures { MakesAs tree_in (fits limit (signed sign operand.tree)) result }
{
    let (tree, depth) = operand.into_parts();
    let tree = signed_of(alloc, sign, tree)?;
    fit(limit, tree, depth)
}

fn make_joined(
    alloc: Global,
    limit: u8,
    sign: Option<Sign>,
    left: ExpressionPart,
    right: ExpressionPart,
) -> Result<ExpressionPart, Stop>
    ensures { MakesAs tree_in (fits limit (joined sign left.tree right.tree)) result }
{
    let (left, first) = left.into_parts();
    let (right, second) = right.into_parts();
    let below = first.max(second);
    let tree = joined_of(alloc, sign, left, right)?;
    fit(limit, tree, below)
}

fn leaf(tree: Expression) -> ExpressionPart
    requires { depth_of tree ≡ 1 }
    ensures { result.tree ≡ tree }
{
    ExpressionPart { tree, depth: 1 }
}

fn column_of(qualifier: Option<Name>, name: Name) -> ExpressionPart
    ensures { result.tree ≡ column_tree qualifier name }
{
    leaf(Expression::Column(ColumnName { qualifier, name }))
}

// NULL or a column.
fn null_or_column(cursor: &mut Cursor<'_>) -> Result<ExpressionPart, Stop>
    ensures { ReadsAs tree_in null_or_column cursor.old result cursor.new }
{
    if cursor.accept(TokenKind::Null) {
        return Ok(leaf(Expression::Null));
    }
    let first = cursor.name()?;
    if cursor.accept(TokenKind::Period) {
        let name = cursor.name()?;
        return Ok(column_of(Some(first), name));
    }
    Ok(column_of(None, first))
}

/// A number, a text, NULL or a column.
pub fn simple(cursor: &mut Cursor<'_>) -> Result<ExpressionPart, Stop>
    ensures { ReadsAs tree_in simple_at cursor.old result cursor.new }
{
    if let Some(number) = cursor.accept_number() {
        return Ok(leaf(Expression::Number(number)));
    }
    if let Some(quoted) = cursor.accept_quoted()? {
        return Ok(leaf(Expression::Text(quoted)));
    }
    null_or_column(cursor)
}

fn close(cursor: &mut Cursor<'_>, limit: u8, inside: ExpressionPart) -> Result<ExpressionPart, Stop>
    ensures { ReadsAs tree_in (close_group limit inside.tree) cursor.old result cursor.new }
{
    let inside = cursor.followed(inside, TokenKind::RightParenthesis)?;
    make_group(cursor.alloc(), limit, inside)
}

/// A primary: a number, a text, NULL, a column or an expression in parentheses.
#[cycle(expression)]
fn primary(cursor: &mut Cursor<'_>, limit: u8) -> Result<ExpressionPart, Stop>
    requires { limit ≤ DEEPEST_TREE }
    ensures { ReadsAs tree_in (read_primary limit) cursor.old result cursor.new }
{
    if limit == 0 {
        return Err(Stop::TooDeep);
    }
    if cursor.accept_in_place(TokenKind::LeftParenthesis) {
        let inside = expression(&mut *cursor, limit - 1)?;
        return close(&mut *cursor, limit, inside);
    }
    simple(&mut *cursor)
}

/// A factor: a primary, with or without a sign.
#[cycle(expression)]
fn factor(cursor: &mut Cursor<'_>, limit: u8) -> Result<ExpressionPart, Stop>
    requires { limit ≤ DEEPEST_TREE }
    ensures { ReadsAs tree_in (read_factor limit) cursor.old result cursor.new }
{
    if let Some(sign) = cursor.accept_sign() {
        let operand = primary(&mut *cursor, limit)?;
        return make_signed(cursor.alloc(), limit, sign, operand);
    }
    primary(&mut *cursor, limit)
}

/// The product of what was read and of the factors after it, each after an asterisk.
#[cycle(expression)]
pub fn factors(
    cursor: &mut Cursor<'_>,
    limit: u8,
    most: u8,
    left: ExpressionPart,
) -> Result<ExpressionPart, Stop>
    requires low { limit ≤ DEEPEST_TREE }
    requires few { most ≤ DEEPEST_TREE }
    ensures { ReadsAs tree_in (more_factors limit (read_factor limit) most left.tree) cursor.old result cursor.new }
{
    if !cursor.accept_in_place(TokenKind::Asterisk) {
        return Ok(left);
    }
    if most == 0 {
        drop(left);
        return Err(Stop::TooDeep);
    }
    let right = factor(&mut *cursor, limit)?;
    let both = make_joined(cursor.alloc(), limit, None, left, right)?;
    factors(&mut *cursor, limit, most - 1, both)
}

/// A term: factors with asterisks between them.
#[cycle(expression)]
fn term(cursor: &mut Cursor<'_>, limit: u8) -> Result<ExpressionPart, Stop>
    requires { limit ≤ DEEPEST_TREE }
    ensures { ReadsAs tree_in (read_term limit) cursor.old result cursor.new }
{
    let left = factor(&mut *cursor, limit)?;
    factors(&mut *cursor, limit, limit, left)
}

/// The sum of what was read and of the terms after it, each with its sign.
#[cycle(expression)]
pub fn terms(
    cursor: &mut Cursor<'_>,
    limit: u8,
    most: u8,
    left: ExpressionPart,
) -> Result<ExpressionPart, Stop>
    requires low { limit ≤ DEEPEST_TREE }
    requires few { most ≤ DEEPEST_TREE }
    ensures { ReadsAs tree_in (more_terms limit (read_term limit) most left.tree) cursor.old result cursor.new }
{
    let Some(sign) = cursor.accept_sign() else {
        return Ok(left);
    };
    if most == 0 {
        drop(left);
        return Err(Stop::TooDeep);
    }
    let right = term(&mut *cursor, limit)?;
    let both = make_joined(cursor.alloc(), limit, Some(sign), left, right)?;
    terms(&mut *cursor, limit, most - 1, both)
}

/// An expression: terms with signs between them.
#[cycle(expression)]
pub fn expression(cursor: &mut Cursor<'_>, limit: u8) -> Result<ExpressionPart, Stop>
    requires { limit ≤ DEEPEST_TREE }
    ensures { ReadsAs tree_in (read limit) cursor.old result cursor.new }
{
    let left = term(&mut *cursor, limit)?;
    terms(&mut *cursor, limit, limit, left)
}

/// A factor, from what follows its sign on.
pub fn signed_factor(cursor: &mut Cursor<'_>, limit: u8, sign: Sign) -> Result<ExpressionPart, Stop>
    requires { limit ≤ DEEPEST_TREE }
    ensures { ReadsAs tree_in (signed_from limit (read_primary limit) sign) cursor.old
        result cursor.new }
{
    let operand = primary(cursor, limit)?;
    make_signed(cursor.alloc(), limit, sign, operand)
}

/// The expression at the cursor, as long as it can be.
pub fn read_expression(cursor: &mut Cursor<'_>) -> Result<Expression, Stop>
    ensures { Reads (read DEEPEST_TREE) cursor.old result cursor.new }
{
    let (tree, _) = expression(cursor, DEEPEST_TREE)?.into_parts();
    Ok(tree)
}
