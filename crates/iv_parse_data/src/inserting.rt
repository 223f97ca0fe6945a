//! INSERT.
ghost use Rattle.iv_parse_terms.specs.Reading.{Reads};
ghost use Rattle.iv_parse_data.specs.readers.Data.{read_shallow, read_value, read_tuple, read_column_list, read_source, read_insert};

use crate::parts::Parse;
use crate::repeated::{enclosed_series, series};
use crate::selecting::{from, select_list};
use iv_lex::TokenKind;
use iv_parse_terms::{Cursor, Stop, read_expression};
use iv_syntax::{Expression, Insert, InsertSource, Name, ValueOrDefault};
use sqlite_items::Items;

impl Parse for Expression {
    ghost found = { read_shallow };

    #[tactic(auto, unfolding(crate::specs::readers::Data::read_shallow))]
    fn parse(cursor: &mut Cursor<'_>) -> Result<Expression, Stop> {
        read_expression(cursor)
    }
}

impl Parse for ValueOrDefault {
    ghost found = { read_value };

    #[tactic(auto, unfolding(crate::specs::readers::Data::read_value))]
    fn parse(cursor: &mut Cursor<'_>) -> Result<ValueOrDefault, Stop> {
        if cursor.accept_in_place(TokenKind::Default) {
            return Ok(ValueOrDefault::Default);
        }
        let value = Expression::parse(cursor)?;
        Ok(ValueOrDefault::Value(value))
    }
}

impl Parse for Items<ValueOrDefault> {
    ghost found = { read_tuple };

    fn parse(cursor: &mut Cursor<'_>) -> Result<Items<ValueOrDefault>, Stop> {
        enclosed_series::<ValueOrDefault>(cursor)
    }
}

/// Names between parentheses, where they are given.
#[tactic(auto, unfolding(crate::specs::readers::Data::read_column_list))]
pub fn column_list(cursor: &mut Cursor<'_>) -> Result<Option<Items<Name>>, Stop>
    ensures { Reads read_column_list cursor.old result cursor.new }
{
    if cursor.accept(TokenKind::LeftParenthesis) {
        let names = series::<Name>(cursor)?;
        let names = cursor.followed(names, TokenKind::RightParenthesis)?;
        return Ok(Some(names));
    }
    Ok(None)
}

// VALUES and tuples, or a SELECT.
#[tactic(auto, unfolding(crate::specs::readers::Data::read_source))]
fn rows_source(cursor: &mut Cursor<'_>) -> Result<InsertSource, Stop>
    ensures { Reads read_source cursor.old result cursor.new }
{
    if cursor.accept(TokenKind::Values) {
        let tuples = series::<Items<ValueOrDefault>>(cursor)?;
        return Ok(InsertSource::Values(tuples));
    }
    cursor.expect(TokenKind::Select)?;
    let list = select_list(cursor)?;
    let (range, filter) = from(cursor)?;
    Ok(InsertSource::Select(list, range, filter))
}

/// INSERT, from INTO on.
#[tactic(auto, unfolding(crate::specs::readers::Data::read_insert))]
pub fn insert(cursor: &mut Cursor<'_>) -> Result<Insert, Stop>
    ensures { Reads read_insert cursor.old result cursor.new }
{
    cursor.expect(TokenKind::Into)?;
    let table = cursor.name()?;
    if cursor.accept(TokenKind::Default) {
        cursor.expect(TokenKind::Values)?;
        return Ok(Insert::DefaultValues(table));
    }
    let columns = column_list(cursor)?;
    let source = rows_source(cursor)?;
    Ok(Insert::Rows {
        table,
        columns,
        source,
    })
}
