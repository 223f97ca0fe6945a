//! CREATE TABLE and ALTER TABLE.
ghost use Rattle.iv_parse_terms.specs.Reading.{Reads};
ghost use Rattle.iv_parse_data.specs.readers.Tables.{read_column, read_element, read_create_table, read_alter};

use crate::constraint::table_constraint;
use crate::parts::Parse;
use crate::repeated::{enclosed_series, optional, sequence};
use crate::types::column_type;
use iv_lex::TokenKind;
use iv_parse_terms::{Cursor, Stop};
use iv_syntax::{ColumnConstraint, ColumnDefinition, Literal, Name, Statement, TableElement};
use sqlite_items::Items;

// A column, from its type on.
#[tactic(auto, unfolding(crate::specs::readers::Tables::read_column))]
fn column(cursor: &mut Cursor<'_>, name: Name) -> Result<ColumnDefinition, Stop>
    ensures { Reads (read_column name) cursor.old result cursor.new }
{
    let kind = column_type(cursor)?;
    let default = optional::<Literal>(cursor, TokenKind::Default)?;
    let constraints = sequence::<ColumnConstraint>(cursor)?;
    Ok(ColumnDefinition {
        name,
        kind,
        default,
        constraints,
    })
}

impl Parse for TableElement {
    ghost found = { read_element };

    #[tactic(auto, unfolding(crate::specs::readers::Tables::read_element))]
    fn parse(cursor: &mut Cursor<'_>) -> Result<TableElement, Stop> {
        if let Some(name) = cursor.accept_name()? {
            let column = column(cursor, name)?;
            return Ok(TableElement::Column(column));
        }
        let constraint = table_constraint(cursor)?;
        Ok(TableElement::Constraint(constraint))
    }
}

/// CREATE TABLE, from the name on.
#[tactic(auto, unfolding(crate::specs::readers::Tables::read_create_table))]
pub fn create_table(cursor: &mut Cursor<'_>) -> Result<Statement, Stop>
    ensures { Reads read_create_table cursor.old result cursor.new }
{
    let name = cursor.name()?;
    let elements = enclosed_series::<TableElement>(cursor)?;
    Ok(Statement::CreateTable { name, elements })
}

/// ALTER TABLE, from TABLE on.
#[tactic(auto, unfolding(crate::specs::readers::Tables::read_alter))]
pub fn alter_table(cursor: &mut Cursor<'_>) -> Result<Statement, Stop>
    ensures { Reads read_alter cursor.old result cursor.new }
{
    cursor.expect(TokenKind::Table)?;
    let table = cursor.name()?;
    cursor.expect(TokenKind::Add)?;
    let constraint = table_constraint(cursor)?;
    Ok(Statement::AlterTable { table, constraint })
}
