//! SELECT, UPDATE and DELETE.
ghost use Rattle.iv_parse_terms.specs.Reading.{Reads};
ghost use Rattle.iv_parse_data.specs.readers.Data.{read_shallow_condition, read_shallow_from, read_select_list, read_assignment, read_update, read_delete, read_select};

use crate::parts::Parse;
use crate::repeated::{optional, series};
use iv_lex::TokenKind;
use iv_parse_terms::{Cursor, Stop, read_condition, read_from};
use iv_syntax::{
    Assignment, Condition, Delete, Expression, RangeName, Select, SelectList, Update,
    ValueOrDefault,
};

/// FROM, a table, its alias and WHERE with a condition.
#[tactic(auto, unfolding(crate::specs::readers::Data::read_shallow_from))]
pub fn from(cursor: &mut Cursor<'_>) -> Result<(RangeName, Option<Condition>), Stop>
    ensures { Reads read_shallow_from cursor.old result cursor.new }
{
    read_from(cursor)
}

impl Parse for Condition {
    ghost found = { read_shallow_condition };

    #[tactic(auto, unfolding(crate::specs::readers::Data::read_shallow_condition))]
    fn parse(cursor: &mut Cursor<'_>) -> Result<Condition, Stop> {
        read_condition(cursor)
    }
}

/// What a SELECT gives of each row.
#[tactic(auto, unfolding(crate::specs::readers::Data::read_select_list))]
pub fn select_list(cursor: &mut Cursor<'_>) -> Result<SelectList, Stop>
    ensures { Reads read_select_list cursor.old result cursor.new }
{
    if cursor.accept(TokenKind::Asterisk) {
        return Ok(SelectList::Star);
    }
    let values = series::<Expression>(cursor)?;
    Ok(SelectList::Values(values))
}

impl Parse for Assignment {
    ghost found = { read_assignment };

    #[tactic(auto, unfolding(crate::specs::readers::Data::read_assignment))]
    fn parse(cursor: &mut Cursor<'_>) -> Result<Assignment, Stop> {
        let column = cursor.name()?;
        cursor.expect(TokenKind::Equals)?;
        let value = ValueOrDefault::parse(cursor)?;
        Ok(Assignment { column, value })
    }
}

/// UPDATE, from the table on.
#[tactic(auto, unfolding(crate::specs::readers::Data::read_update))]
pub fn update(cursor: &mut Cursor<'_>) -> Result<Update, Stop>
    ensures { Reads read_update cursor.old result cursor.new }
{
    let table = cursor.name()?;
    cursor.expect(TokenKind::Set)?;
    let assignments = series::<Assignment>(cursor)?;
    let filter = optional::<Condition>(cursor, TokenKind::Where)?;
    Ok(Update {
        table,
        assignments,
        filter,
    })
}

/// DELETE, from FROM on.
#[tactic(auto, unfolding(crate::specs::readers::Data::read_delete))]
pub fn delete(cursor: &mut Cursor<'_>) -> Result<Delete, Stop>
    ensures { Reads read_delete cursor.old result cursor.new }
{
    cursor.expect(TokenKind::From)?;
    let table = cursor.name()?;
    let filter = optional::<Condition>(cursor, TokenKind::Where)?;
    Ok(Delete { table, filter })
}

/// SELECT, from its list on.
#[tactic(auto, unfolding(crate::specs::readers::Data::read_select))]
pub fn select(cursor: &mut Cursor<'_>) -> Result<Select, Stop>
    ensures { Reads read_select cursor.old result cursor.new }
{
    if cursor.accept(TokenKind::Count) {
        cursor.expect(TokenKind::LeftParenthesis)?;
        cursor.expect(TokenKind::Asterisk)?;
        cursor.expect(TokenKind::RightParenthesis)?;
        let (range, filter) = from(cursor)?;
        return Ok(Select::Count(range, filter));
    }
    let list = select_list(cursor)?;
    let (range, filter) = from(cursor)?;
    Ok(Select::Rows(list, range, filter))
}
