//! Ranges of a FROM.
ghost use Rattle.iv_parse_terms.specs.readers.Conditions.{alias_from, range_from, with_condition, condition_fits, exists_over, close_exists as closed_exists};
ghost use Rattle.iv_parse_terms.specs.Reading.{MakesAs, Reads, ReadsAs};
ghost use Rattle.iv_parse_terms.specs.SeenItem.{from_in, item_in};

use crate::condition_part::ConditionPart;
use crate::cursor::Cursor;
use crate::item::Item;
use crate::make::exists_where_of;
use crate::predicate::{fit, truth};
use crate::stop::Stop;
use iv_lex::TokenKind;
use iv_syntax::{Condition, Name, RangeName};
use std::alloc::Global;

/// A range, and the condition of its WHERE.
pub type FromPart = (RangeName, Option<ConditionPart>);

// An alias, with AS or without, where there is one.
fn alias(cursor: &mut Cursor<'_>) -> Result<Option<Name>, Stop>
    ensures { Reads alias_from cursor.old result cursor.new }
{
    if cursor.accept(TokenKind::As) {
        let alias = cursor.name()?;
        return Ok(Some(alias));
    }
    Ok(cursor.accept_name()?)
}

/// A table and its alias.
pub fn range(cursor: &mut Cursor<'_>) -> Result<RangeName, Stop>
    ensures { Reads range_from cursor.old result cursor.new }
{
    let table = cursor.name()?;
    let alias = alias(cursor)?;
    Ok(RangeName { table, alias })
}

/// The range with what was read after WHERE.
pub fn with_where(range: RangeName, found: Item) -> Result<FromPart, Stop>
    ensures { MakesAs from_in (with_condition range (item_in found)) result }
{
    let condition = truth(found)?;
    Ok((range, Some(condition)))
}

fn make_exists(alloc: Global, limit: u8, found: FromPart) -> Result<Item, Stop>
    ensures { MakesAs item_in (condition_fits limit (exists_over (from_in found))) result }
{
    let (range, condition) = found;
    match condition {
        Some(part) => {
            let (tree, depth) = part.into_parts();
            let tree = exists_where_of(alloc, range, tree)?;
            fit(limit, tree, depth)
        }
        None => fit(limit, Condition::Exists(range), 0),
    }
}

/// The EXISTS over this range, where a parenthesis closes.
pub fn close_exists(cursor: &mut Cursor<'_>, limit: u8, found: FromPart) -> Result<Item, Stop>
    ensures { ReadsAs item_in (closed_exists limit (from_in found)) cursor.old result cursor.new }
{
    let found = cursor.followed(found, TokenKind::RightParenthesis)?;
    make_exists(cursor.alloc(), limit, found)
}
