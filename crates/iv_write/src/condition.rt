//! Search conditions, FROM and WHERE.
ghost use Rattle.std.specs.Prelude.{[], ◌∷◌};
ghost use Rattle.iv_lex.specs.declared.kind.TokenKind.TheVariants as kind;
ghost use Rattle.iv_lex.specs.Words.{plain};
ghost use Rattle.iv_parse_terms.specs.Conditions.{comparison_kind};
ghost use Rattle.iv_write.specs.Terms.{alias_words, condition_words, from_words, range_words, where_words};
ghost use Rattle.iv_write.specs.Writing.{Writes};

use crate::expression::push_expression;
use crate::writer::Writer;
use iv_expr::Comparison;
use iv_lex::TokenKind;
use iv_syntax::{Condition, Name, RangeName};
use std::alloc::{AllocError, Global};

fn push_comparison(writer: &mut Writer, comparison: Comparison) -> Result<(), AllocError>
    ensures { Writes writer.old writer.new result (plain (comparison_kind comparison) ∷ []) }
{
    match comparison {
        Comparison::Equal => writer.word(TokenKind::Equals),
        Comparison::NotEqual => writer.word(TokenKind::NotEquals),
        Comparison::Less => writer.word(TokenKind::Less),
        Comparison::LessEqual => writer.word(TokenKind::LessEquals),
        Comparison::Greater => writer.word(TokenKind::Greater),
        Comparison::GreaterEqual => writer.word(TokenKind::GreaterEquals),
    }
}

fn push_alias(writer: &mut Writer, alias: &Option<Name>) -> Result<(), AllocError>
    ensures { Writes writer.old writer.new result (alias_words alias.now) }
{
    match alias {
        Some(alias) => {
            writer.word(TokenKind::As)?;
            writer.name(alias)
        }
        None => writer.words(&[]),
    }
}

fn push_range(writer: &mut Writer, range: &RangeName) -> Result<(), AllocError>
    ensures { Writes writer.old writer.new result (range_words range.now) }
{
    writer.word(TokenKind::From)?;
    writer.name(&range.table)?;
    push_alias(writer, &range.alias)
}

// EXISTS and what stands before its FROM.
fn push_exists(writer: &mut Writer) -> Result<(), AllocError>
    ensures { Writes writer.old writer.new result
        (plain kind.Exists ∷ plain kind.LeftParenthesis ∷ plain kind.Select ∷ plain kind.Asterisk ∷ []) }
{
    writer.words(&[
        TokenKind::Exists,
        TokenKind::LeftParenthesis,
        TokenKind::Select,
        TokenKind::Asterisk,
    ])
}

/// Writes a condition, an alias after AS.
#[tactic(auto, using(crate::proofs::Steps::compare_written, crate::proofs::Steps::null_written, crate::proofs::Steps::not_null_written, crate::proofs::Steps::exists_written, crate::proofs::Steps::exists_where_written, crate::proofs::Steps::enclosed_written, crate::proofs::Steps::negated_written, crate::proofs::Steps::both_written, crate::proofs::Steps::either_written))]
pub fn push_condition(
    alloc: Global,
    writer: &mut Writer,
    condition: &Condition,
) -> Result<(), AllocError>
    ensures { Writes writer.old writer.new result (condition_words condition.now) }
{
    match condition {
        Condition::Compare(comparison, a, b) => {
            push_expression(alloc, writer, a)?;
            push_comparison(writer, *comparison)?;
            push_expression(alloc, writer, b)
        }
        Condition::IsNull(a) => {
            push_expression(alloc, writer, a)?;
            writer.words(&[TokenKind::Is, TokenKind::Null])
        }
        Condition::IsNotNull(a) => {
            push_expression(alloc, writer, a)?;
            writer.words(&[TokenKind::Is, TokenKind::Not, TokenKind::Null])
        }
        Condition::Exists(range) => {
            push_exists(writer)?;
            push_range(writer, range)?;
            writer.word(TokenKind::RightParenthesis)
        }
        Condition::ExistsWhere(range, a) => {
            push_exists(writer)?;
            push_range(writer, range)?;
            writer.word(TokenKind::Where)?;
            push_condition(alloc, writer, a.get())?;
            writer.word(TokenKind::RightParenthesis)
        }
        Condition::Group(a) => {
            writer.word(TokenKind::LeftParenthesis)?;
            push_condition(alloc, writer, a.get())?;
            writer.word(TokenKind::RightParenthesis)
        }
        Condition::Not(a) => {
            writer.word(TokenKind::Not)?;
            push_condition(alloc, writer, a.get())
        }
        Condition::And(a, b) => {
            push_condition(alloc, writer, a.get())?;
            writer.word(TokenKind::And)?;
            push_condition(alloc, writer, b.get())
        }
        Condition::Or(a, b) => {
            push_condition(alloc, writer, a.get())?;
            writer.word(TokenKind::Or)?;
            push_condition(alloc, writer, b.get())
        }
    }
}

/// Writes WHERE with a condition, if there is one.
pub fn push_where(
    alloc: Global,
    writer: &mut Writer,
    filter: &Option<Condition>,
) -> Result<(), AllocError>
    ensures { Writes writer.old writer.new result (where_words filter.now) }
{
    match filter {
        Some(condition) => {
            writer.word(TokenKind::Where)?;
            push_condition(alloc, writer, condition)
        }
        None => writer.words(&[]),
    }
}

/// Writes FROM with a table and its alias, and WHERE with a condition if there is one.
pub fn push_from(
    alloc: Global,
    writer: &mut Writer,
    range: &RangeName,
    filter: &Option<Condition>,
) -> Result<(), AllocError>
    ensures { Writes writer.old writer.new result (from_words range.now filter.now) }
{
    push_range(writer, range)?;
    push_where(alloc, writer, filter)
}
