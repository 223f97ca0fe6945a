//! CREATE TABLE and ALTER TABLE.
ghost use Rattle.std.specs.Prelude.{[], ◌∷◌, ◌++◌};
ghost use Rattle.iv_lex.specs.declared.kind.TokenKind.TheVariants as kind;
ghost use Rattle.iv_lex.specs.Words.{number, plain};
ghost use Rattle.iv_parse_terms.specs.Expressions.{sign_kind};
ghost use Rattle.iv_parse_data.specs.Tables.{null_words};
ghost use Rattle.iv_write.specs.Data.{names_words};
ghost use Rattle.iv_write.specs.Parts.{enclosed_words};
ghost use Rattle.iv_write.specs.Terms.{condition_words};
ghost use Rattle.iv_write.specs.Tables.{alter_table_words, column_rule_words, constraint_name_words, create_table_words, default_words, literal_words, references_words, table_constraint_words, table_rule_words, type_words};
ghost use Rattle.iv_write.specs.Writing.{Writes};

use crate::characteristics::push_time;
use crate::condition::push_condition;
use crate::expression::push_sign;
use crate::parts::{Written, push_enclosed, push_sequence};
use crate::referencing::push_references;
use crate::writer::Writer;
use iv_lex::TokenKind;
use iv_syntax::{
    ColumnConstraint, ColumnDefinition, ColumnRule, ColumnType, Condition, Literal, Name,
    NullTreatment, References, Sign, TableConstraint, TableElement, TableRule,
};
use sqlite_items::Items;
use std::alloc::{AllocError, Global};

fn push_type(writer: &mut Writer, kind: ColumnType) -> Result<(), AllocError>
    ensures { Writes writer.old writer.new result (type_words kind) }
{
    match kind {
        ColumnType::Integer => writer.word(TokenKind::Integer),
        ColumnType::Varchar(length) => {
            writer.words(&[TokenKind::Varchar, TokenKind::LeftParenthesis])?;
            writer.number(length)?;
            writer.word(TokenKind::RightParenthesis)
        }
    }
}

fn push_signed(writer: &mut Writer, sign: Sign, digits: u64) -> Result<(), AllocError>
    ensures { Writes writer.old writer.new result (plain (sign_kind sign) ∷ number digits ∷ []) }
{
    push_sign(writer, sign)?;
    writer.number(digits)
}

fn push_literal(alloc: Global, writer: &mut Writer, literal: &Literal) -> Result<(), AllocError>
    ensures { Writes writer.old writer.new result (literal_words literal.now) }
{
    match literal {
        Literal::Number(None, number) => writer.number(*number),
        Literal::Number(Some(sign), number) => push_signed(writer, *sign, *number),
        Literal::Text(characters) => writer.quoted(alloc, characters.as_str()),
        Literal::Null => writer.word(TokenKind::Null),
    }
}

fn push_default(
    alloc: Global,
    writer: &mut Writer,
    default: &Option<Literal>,
) -> Result<(), AllocError>
    ensures { Writes writer.old writer.new result (default_words default.now) }
{
    match default {
        Some(literal) => {
            writer.word(TokenKind::Default)?;
            push_literal(alloc, writer, literal)
        }
        None => writer.words(&[]),
    }
}

fn push_constraint_name(writer: &mut Writer, called: &Option<Name>) -> Result<(), AllocError>
    ensures { Writes writer.old writer.new result (constraint_name_words called.now) }
{
    match called {
        Some(called) => {
            writer.word(TokenKind::Constraint)?;
            writer.name(called)
        }
        None => writer.words(&[]),
    }
}

fn push_nulls(writer: &mut Writer, nulls: NullTreatment) -> Result<(), AllocError>
    ensures { Writes writer.old writer.new result (null_words nulls) }
{
    match nulls {
        NullTreatment::Distinct => writer.words(&[]),
        NullTreatment::NotDistinct => {
            writer.words(&[TokenKind::Nulls, TokenKind::Not, TokenKind::Distinct])
        }
    }
}

fn push_check(alloc: Global, writer: &mut Writer, condition: &Condition) -> Result<(), AllocError>
    ensures { Writes writer.old writer.new result (plain kind.Check ∷ enclosed_words (condition_words condition.now)) }
{
    writer.words(&[TokenKind::Check, TokenKind::LeftParenthesis])?;
    push_condition(alloc, writer, condition)?;
    writer.word(TokenKind::RightParenthesis)
}

fn push_column_rule(alloc: Global, writer: &mut Writer, rule: &ColumnRule) -> Result<(), AllocError>
    ensures { Writes writer.old writer.new result (column_rule_words rule.now) }
{
    match rule {
        ColumnRule::NotNull => writer.words(&[TokenKind::Not, TokenKind::Null]),
        ColumnRule::Unique(nulls) => {
            writer.word(TokenKind::Unique)?;
            push_nulls(writer, *nulls)
        }
        ColumnRule::PrimaryKey => writer.words(&[TokenKind::Primary, TokenKind::Key]),
        ColumnRule::Check(condition) => push_check(alloc, writer, condition),
        ColumnRule::References(references) => push_references(alloc, writer, references),
    }
}

impl Written for ColumnConstraint {
    ghost use Rattle.iv_write.specs.Tables.{column_constraint_words};

    ghost words = { column_constraint_words };

    fn write(&self, alloc: Global, writer: &mut Writer) -> Result<(), AllocError> {
        push_constraint_name(writer, &self.name)?;
        push_column_rule(alloc, writer, &self.rule)?;
        push_time(writer, self.time)
    }
}

impl Written for ColumnDefinition {
    ghost use Rattle.iv_write.specs.Tables.{column_words};

    ghost words = { column_words };

    fn write(&self, alloc: Global, writer: &mut Writer) -> Result<(), AllocError> {
        writer.name(&self.name)?;
        push_type(writer, self.kind)?;
        push_default(alloc, writer, &self.default)?;
        push_sequence(alloc, writer, self.constraints.as_slice())
    }
}

fn push_foreign_key(
    alloc: Global,
    writer: &mut Writer,
    columns: &Items<Name>,
    references: &References,
) -> Result<(), AllocError>
    ensures { Writes writer.old writer.new result
        (plain kind.Foreign ∷ plain kind.Key ∷ (enclosed_words (names_words columns.now) ++ references_words references.now)) }
{
    writer.words(&[TokenKind::Foreign, TokenKind::Key])?;
    push_enclosed(alloc, writer, columns.as_slice())?;
    push_references(alloc, writer, references)
}

fn push_table_rule(alloc: Global, writer: &mut Writer, rule: &TableRule) -> Result<(), AllocError>
    ensures { Writes writer.old writer.new result (table_rule_words rule.now) }
{
    match rule {
        TableRule::Unique(nulls, columns) => {
            writer.word(TokenKind::Unique)?;
            push_nulls(writer, *nulls)?;
            push_enclosed(alloc, writer, columns.as_slice())
        }
        TableRule::PrimaryKey(columns) => {
            writer.words(&[TokenKind::Primary, TokenKind::Key])?;
            push_enclosed(alloc, writer, columns.as_slice())
        }
        TableRule::Check(condition) => push_check(alloc, writer, condition),
        TableRule::ForeignKey(columns, references) => {
            push_foreign_key(alloc, writer, columns, references)
        }
    }
}

/// Writes a table constraint.
pub fn push_table_constraint(
    alloc: Global,
    writer: &mut Writer,
    constraint: &TableConstraint,
) -> Result<(), AllocError>
    ensures { Writes writer.old writer.new result (table_constraint_words constraint.now) }
{
    push_constraint_name(writer, &constraint.name)?;
    push_table_rule(alloc, writer, &constraint.rule)?;
    push_time(writer, constraint.time)
}

impl Written for TableElement {
    ghost use Rattle.iv_write.specs.Tables.{element_words};

    ghost words = { element_words };

    fn write(&self, alloc: Global, writer: &mut Writer) -> Result<(), AllocError> {
        match self {
            TableElement::Column(column) => column.write(alloc, writer),
            TableElement::Constraint(constraint) => {
                push_table_constraint(alloc, writer, constraint)
            }
        }
    }
}

/// Writes a CREATE TABLE.
pub fn push_create_table(
    alloc: Global,
    writer: &mut Writer,
    called: &Name,
    elements: &Items<TableElement>,
) -> Result<(), AllocError>
    ensures { Writes writer.old writer.new result (create_table_words called.now elements.now) }
{
    writer.words(&[TokenKind::Create, TokenKind::Table])?;
    writer.name(called)?;
    push_enclosed(alloc, writer, elements.as_slice())
}

/// Writes an ALTER TABLE.
pub fn push_alter_table(
    alloc: Global,
    writer: &mut Writer,
    called: &Name,
    constraint: &TableConstraint,
) -> Result<(), AllocError>
    ensures { Writes writer.old writer.new result (alter_table_words called.now constraint.now) }
{
    writer.words(&[TokenKind::Alter, TokenKind::Table])?;
    writer.name(called)?;
    writer.word(TokenKind::Add)?;
    push_table_constraint(alloc, writer, constraint)
}
