//! Statements.
ghost use Rattle.iv_write.specs.Statements.{constraint_list_words, statement_words};
ghost use Rattle.iv_write.specs.Writing.{Writes};

use crate::characteristics::push_mode;
use crate::data::{push_delete, push_insert, push_select, push_update};
use crate::parts::{Written, push_series};
use crate::table::{push_alter_table, push_create_table};
use crate::trigger::push_trigger;
use crate::writer::Writer;
use iv_lex::TokenKind;
use iv_syntax::{ConstraintList, Statement};
use std::alloc::{AllocError, Global};

fn push_constraint_list(
    alloc: Global,
    writer: &mut Writer,
    list: &ConstraintList,
) -> Result<(), AllocError>
    ensures { Writes writer.old writer.new result (constraint_list_words list.now) }
{
    match list {
        ConstraintList::All => writer.word(TokenKind::All),
        ConstraintList::Named(names) => push_series(alloc, writer, names.as_slice()),
    }
}

// Without its semicolon.
fn push_statement(
    alloc: Global,
    writer: &mut Writer,
    statement: &Statement,
) -> Result<(), AllocError>
    ensures { Writes writer.old writer.new result (statement_words statement.now) }
{
    match statement {
        Statement::CreateTable { name, elements } => {
            push_create_table(alloc, writer, name, elements)
        }
        Statement::AlterTable { table, constraint } => {
            push_alter_table(alloc, writer, table, constraint)
        }
        Statement::CreateTrigger(trigger) => push_trigger(alloc, writer, trigger),
        Statement::DropTrigger(trigger) => {
            writer.words(&[TokenKind::Drop, TokenKind::Trigger])?;
            writer.name(trigger)
        }
        Statement::Insert(insert) => push_insert(alloc, writer, insert),
        Statement::Update(update) => push_update(alloc, writer, update),
        Statement::Delete(delete) => push_delete(alloc, writer, delete),
        Statement::Select(select) => push_select(alloc, writer, select),
        Statement::StartTransaction => writer.words(&[TokenKind::Start, TokenKind::Transaction]),
        Statement::Commit => writer.word(TokenKind::Commit),
        Statement::Rollback => writer.word(TokenKind::Rollback),
        Statement::Savepoint(savepoint) => {
            writer.word(TokenKind::Savepoint)?;
            writer.name(savepoint)
        }
        Statement::Release(savepoint) => {
            writer.words(&[TokenKind::Release, TokenKind::Savepoint])?;
            writer.name(savepoint)
        }
        Statement::RollbackTo(savepoint) => {
            writer.words(&[TokenKind::Rollback, TokenKind::To, TokenKind::Savepoint])?;
            writer.name(savepoint)
        }
        Statement::SetConstraints(list, mode) => {
            writer.words(&[TokenKind::Set, TokenKind::Constraints])?;
            push_constraint_list(alloc, writer, list)?;
            push_mode(writer, *mode)
        }
    }
}

// With its semicolon.
impl Written for Statement {
    ghost use Rattle.iv_write.specs.Statements.{whole_words};

    ghost words = { whole_words };

    fn write(&self, alloc: Global, writer: &mut Writer) -> Result<(), AllocError> {
        push_statement(alloc, writer, self)?;
        writer.word(TokenKind::Semicolon)
    }
}
