//! Statements about transactions, savepoints and constraint modes.
ghost use Rattle.iv_parse_terms.specs.Reading.{Reads};
ghost use Rattle.iv_parse.specs.readers.Statements.{read_rollback, read_list, read_set, read_session_rule};

use iv_lex::TokenKind;
use iv_parse_data::{Parse, series};
use iv_parse_terms::{Cursor, Stop};
use iv_syntax::{ConstraintList, ConstraintMode, Name, Statement};

// ROLLBACK, from what follows the word on.
#[tactic(auto, unfolding(crate::specs::readers::Statements::read_rollback))]
fn rollback(cursor: &mut Cursor<'_>) -> Result<Statement, Stop>
    ensures { Reads read_rollback cursor.old result cursor.new }
{
    cursor.accept(TokenKind::Work);
    if cursor.accept(TokenKind::To) {
        cursor.expect(TokenKind::Savepoint)?;
        let name = cursor.name()?;
        return Ok(Statement::RollbackTo(name));
    }
    Ok(Statement::Rollback)
}

// ALL, or names of constraints.
fn constraint_list(cursor: &mut Cursor<'_>) -> Result<ConstraintList, Stop>
    ensures { Reads read_list cursor.old result cursor.new }
{
    if cursor.accept(TokenKind::All) {
        return Ok(ConstraintList::All);
    }
    let names = series::<Name>(cursor)?;
    Ok(ConstraintList::Named(names))
}

// SET CONSTRAINTS, from CONSTRAINTS on.
#[tactic(auto, unfolding(crate::specs::readers::Statements::read_set))]
fn set_constraints(cursor: &mut Cursor<'_>) -> Result<Statement, Stop>
    ensures { Reads read_set cursor.old result cursor.new }
{
    cursor.expect(TokenKind::Constraints)?;
    let list = constraint_list(cursor)?;
    let mode = ConstraintMode::parse(cursor)?;
    Ok(Statement::SetConstraints(list, mode))
}

/// A statement about transactions, savepoints or constraint modes.
pub fn session_statement(cursor: &mut Cursor<'_>) -> Result<Statement, Stop>
    ensures { Reads read_session_rule cursor.old result cursor.new }
{
    if cursor.accept(TokenKind::Commit) {
        cursor.accept(TokenKind::Work);
        return Ok(Statement::Commit);
    }
    if cursor.accept(TokenKind::Rollback) {
        return rollback(cursor);
    }
    if cursor.accept(TokenKind::Start) {
        cursor.expect(TokenKind::Transaction)?;
        return Ok(Statement::StartTransaction);
    }
    if cursor.accept(TokenKind::Savepoint) {
        let name = cursor.name()?;
        return Ok(Statement::Savepoint(name));
    }
    if cursor.accept(TokenKind::Release) {
        cursor.expect(TokenKind::Savepoint)?;
        let name = cursor.name()?;
        return Ok(Statement::Release(name));
    }
    cursor.expect(TokenKind::Set)?;
    set_constraints(cursor)
}
