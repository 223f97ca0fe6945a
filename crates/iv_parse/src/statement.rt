//! Statements.
ghost use Rattle.iv_parse_terms.specs.Reading.{Reads};
ghost use Rattle.iv_parse.specs.readers.Statements.{read_definition_rule, read_rule, read_statement};

use crate::session::session_statement;
use crate::trigger::create_trigger;
use iv_lex::TokenKind;
use iv_parse_data::{alter_table, create_table, delete, insert, select, update};
use iv_parse_terms::{Cursor, Stop};
use iv_syntax::Statement;

// A statement that is none about data.
fn definition(cursor: &mut Cursor<'_>) -> Result<Statement, Stop>
    ensures { Reads read_definition_rule cursor.old result cursor.new }
{
    if cursor.accept(TokenKind::Create) {
        if cursor.accept(TokenKind::Table) {
            return create_table(cursor);
        }
        cursor.expect(TokenKind::Trigger)?;
        let trigger = create_trigger(cursor)?;
        return Ok(Statement::CreateTrigger(trigger));
    }
    if cursor.accept(TokenKind::Alter) {
        return alter_table(cursor);
    }
    if cursor.accept(TokenKind::Drop) {
        cursor.expect(TokenKind::Trigger)?;
        let name = cursor.name()?;
        return Ok(Statement::DropTrigger(name));
    }
    session_statement(cursor)
}

// A statement without its semicolon.
fn rule(cursor: &mut Cursor<'_>) -> Result<Statement, Stop>
    ensures { Reads read_rule cursor.old result cursor.new }
{
    if cursor.accept(TokenKind::Insert) {
        let insert = insert(cursor)?;
        return Ok(Statement::Insert(insert));
    }
    if cursor.accept(TokenKind::Update) {
        let update = update(cursor)?;
        return Ok(Statement::Update(update));
    }
    if cursor.accept(TokenKind::Delete) {
        let delete = delete(cursor)?;
        return Ok(Statement::Delete(delete));
    }
    if cursor.accept(TokenKind::Select) {
        let select = select(cursor)?;
        return Ok(Statement::Select(select));
    }
    definition(cursor)
}

/// The statement at the cursor, with its semicolon.
#[tactic(auto, unfolding(crate::specs::readers::Statements::read_statement))]
pub fn statement(cursor: &mut Cursor<'_>) -> Result<Statement, Stop>
    ensures { Reads read_statement cursor.old result cursor.new }
{
    let statement = rule(cursor)?;
    cursor.followed(statement, TokenKind::Semicolon)
}
