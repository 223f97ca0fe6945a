//! The types of columns, literals and defaults.
ghost use Rattle.iv_parse_terms.specs.Reading.{Reads};
ghost use Rattle.iv_parse_data.specs.readers.Tables.{read_length, read_varying, read_type, read_literal};

use crate::parts::Parse;
use iv_lex::TokenKind;
use iv_parse_terms::{Cursor, Stop};
use iv_syntax::{ColumnType, Literal};

// The length of a VARCHAR in parentheses.
#[tactic(auto, unfolding(crate::specs::readers::Tables::read_length))]
fn length(cursor: &mut Cursor<'_>) -> Result<ColumnType, Stop>
    ensures { Reads read_length cursor.old result cursor.new }
{
    cursor.expect(TokenKind::LeftParenthesis)?;
    let value = cursor.number()?;
    cursor.expect(TokenKind::RightParenthesis)?;
    Ok(ColumnType::Varchar(value))
}

// VARYING and a length.
fn varying(cursor: &mut Cursor<'_>) -> Result<ColumnType, Stop>
    ensures { Reads read_varying cursor.old result cursor.new }
{
    cursor.expect(TokenKind::Varying)?;
    length(cursor)
}

/// The type of a column.
#[tactic(auto, unfolding(crate::specs::readers::Tables::read_type))]
pub fn column_type(cursor: &mut Cursor<'_>) -> Result<ColumnType, Stop>
    ensures { Reads read_type cursor.old result cursor.new }
{
    if cursor.accept(TokenKind::Integer) {
        return Ok(ColumnType::Integer);
    }
    if cursor.accept(TokenKind::Int) {
        return Ok(ColumnType::Integer);
    }
    if cursor.accept(TokenKind::Varchar) {
        return length(cursor);
    }
    if cursor.accept(TokenKind::Character) {
        return varying(cursor);
    }
    cursor.expect(TokenKind::Char)?;
    varying(cursor)
}

impl Parse for Literal {
    ghost found = { read_literal };

    #[tactic(auto, unfolding(crate::specs::readers::Tables::read_literal))]
    fn parse(cursor: &mut Cursor<'_>) -> Result<Literal, Stop> {
        if let Some(sign) = cursor.accept_sign() {
            let value = cursor.number()?;
            return Ok(Literal::Number(Some(sign), value));
        }
        if let Some(value) = cursor.accept_number() {
            return Ok(Literal::Number(None, value));
        }
        if let Some(value) = cursor.accept_quoted()? {
            return Ok(Literal::Text(value));
        }
        cursor.expect(TokenKind::Null)?;
        Ok(Literal::Null)
    }
}
