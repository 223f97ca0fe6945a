//! INSERT, UPDATE, DELETE and SELECT.
ghost use Rattle.iv_write.specs.Data.{assignment_words, column_list_words, delete_words, insert_words, list_words, query_words, select_words, source_words, tuple_words, update_words, value_words};
ghost use Rattle.iv_write.specs.Writing.{Writes};

use crate::condition::{push_from, push_where};
use crate::expression::push_expression;
use crate::parts::{Written, push_enclosed, push_series};
use crate::writer::Writer;
use iv_lex::TokenKind;
use iv_syntax::{
    Assignment, Condition, Delete, Expression, Insert, InsertSource, Name, RangeName, Select,
    SelectList, Update, ValueOrDefault,
};
use sqlite_items::Items;
use std::alloc::{AllocError, Global};

impl Written for Expression {
    ghost use Rattle.iv_parse_terms.specs.Expressions.{spelling};

    ghost words = { spelling };

    fn write(&self, alloc: Global, writer: &mut Writer) -> Result<(), AllocError> {
        push_expression(alloc, writer, self)
    }
}

impl Written for ValueOrDefault {
    ghost use Rattle.iv_write.specs.Data.{value_words};

    ghost words = { value_words };

    fn write(&self, alloc: Global, writer: &mut Writer) -> Result<(), AllocError> {
        match self {
            ValueOrDefault::Value(expression) => push_expression(alloc, writer, expression),
            ValueOrDefault::Default => writer.word(TokenKind::Default),
        }
    }
}

impl Written for Items<ValueOrDefault> {
    ghost use Rattle.iv_write.specs.Data.{tuple_words};

    ghost words = { tuple_words };

    fn write(&self, alloc: Global, writer: &mut Writer) -> Result<(), AllocError> {
        push_enclosed(alloc, writer, self.as_slice())
    }
}

impl Written for Assignment {
    ghost use Rattle.iv_write.specs.Data.{assignment_words};

    ghost words = { assignment_words };

    fn write(&self, alloc: Global, writer: &mut Writer) -> Result<(), AllocError> {
        writer.name(&self.column)?;
        writer.word(TokenKind::Equals)?;
        self.value.write(alloc, writer)
    }
}

/// Writes a list of columns in parentheses, if there is one.
pub fn push_column_list(
    alloc: Global,
    writer: &mut Writer,
    columns: &Option<Items<Name>>,
) -> Result<(), AllocError>
    ensures { Writes writer.old writer.new result (column_list_words columns.now) }
{
    match columns {
        Some(names) => push_enclosed(alloc, writer, names.as_slice()),
        None => writer.words(&[]),
    }
}

fn push_list(alloc: Global, writer: &mut Writer, list: &SelectList) -> Result<(), AllocError>
    ensures { Writes writer.old writer.new result (list_words list.now) }
{
    match list {
        SelectList::Star => writer.word(TokenKind::Asterisk),
        SelectList::Values(expressions) => push_series(alloc, writer, expressions.as_slice()),
    }
}

fn push_query(
    alloc: Global,
    writer: &mut Writer,
    list: &SelectList,
    range: &RangeName,
    filter: &Option<Condition>,
) -> Result<(), AllocError>
    ensures { Writes writer.old writer.new result (query_words list.now range.now filter.now) }
{
    writer.word(TokenKind::Select)?;
    push_list(alloc, writer, list)?;
    push_from(alloc, writer, range, filter)
}

fn push_source(alloc: Global, writer: &mut Writer, source: &InsertSource) -> Result<(), AllocError>
    ensures { Writes writer.old writer.new result (source_words source.now) }
{
    match source {
        InsertSource::Values(rows) => {
            writer.word(TokenKind::Values)?;
            push_series(alloc, writer, rows.as_slice())
        }
        InsertSource::Select(list, range, filter) => push_query(alloc, writer, list, range, filter),
    }
}

/// Writes an INSERT.
pub fn push_insert(alloc: Global, writer: &mut Writer, insert: &Insert) -> Result<(), AllocError>
    ensures { Writes writer.old writer.new result (insert_words insert.now) }
{
    writer.words(&[TokenKind::Insert, TokenKind::Into])?;
    match insert {
        Insert::DefaultValues(table) => {
            writer.name(table)?;
            writer.words(&[TokenKind::Default, TokenKind::Values])
        }
        Insert::Rows {
            table,
            columns,
            source,
        } => {
            writer.name(table)?;
            push_column_list(alloc, writer, columns)?;
            push_source(alloc, writer, source)
        }
    }
}

/// Writes an UPDATE.
pub fn push_update(alloc: Global, writer: &mut Writer, update: &Update) -> Result<(), AllocError>
    ensures { Writes writer.old writer.new result (update_words update.now) }
{
    writer.word(TokenKind::Update)?;
    writer.name(&update.table)?;
    writer.word(TokenKind::Set)?;
    push_series(alloc, writer, update.assignments.as_slice())?;
    push_where(alloc, writer, &update.filter)
}

/// Writes a DELETE.
pub fn push_delete(alloc: Global, writer: &mut Writer, delete: &Delete) -> Result<(), AllocError>
    ensures { Writes writer.old writer.new result (delete_words delete.now) }
{
    writer.words(&[TokenKind::Delete, TokenKind::From])?;
    writer.name(&delete.table)?;
    push_where(alloc, writer, &delete.filter)
}

/// Writes a SELECT.
pub fn push_select(alloc: Global, writer: &mut Writer, select: &Select) -> Result<(), AllocError>
    ensures { Writes writer.old writer.new result (select_words select.now) }
{
    match select {
        Select::Count(range, filter) => {
            writer.words(&[
                TokenKind::Select,
                TokenKind::Count,
                TokenKind::LeftParenthesis,
                TokenKind::Asterisk,
                TokenKind::RightParenthesis,
            ])?;
            push_from(alloc, writer, range, filter)
        }
        Select::Rows(list, range, filter) => push_query(alloc, writer, list, range, filter),
    }
}
