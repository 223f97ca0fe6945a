//! Value expressions.
ghost use Rattle.std.specs.Prelude.{[], ◌∷◌, ◌++◌};
ghost use Rattle.iv_lex.specs.Words.{name, plain};
ghost use Rattle.iv_parse_terms.specs.Expressions.{qualifier_spelling, sign_kind, spelling};
ghost use Rattle.iv_write.specs.Writing.{Writes};

use crate::writer::Writer;
use iv_lex::TokenKind;
use iv_syntax::{ColumnName, Expression, Name, Sign};
use std::alloc::{AllocError, Global};

fn push_qualifier(writer: &mut Writer, qualifier: &Option<Name>) -> Result<(), AllocError>
    ensures { Writes writer.old writer.new result (qualifier_spelling qualifier.now) }
{
    match qualifier {
        Some(qualifier) => {
            writer.name(qualifier)?;
            writer.word(TokenKind::Period)
        }
        None => writer.words(&[]),
    }
}

fn push_column(writer: &mut Writer, column: &ColumnName) -> Result<(), AllocError>
    ensures { Writes writer.old writer.new result (qualifier_spelling column.now.qualifier ++ name column.now.name ∷ []) }
{
    push_qualifier(writer, &column.qualifier)?;
    writer.name(&column.name)
}

/// Writes a sign.
pub fn push_sign(writer: &mut Writer, sign: Sign) -> Result<(), AllocError>
    ensures { Writes writer.old writer.new result (plain (sign_kind sign) ∷ []) }
{
    match sign {
        Sign::Plus => writer.word(TokenKind::Plus),
        Sign::Minus => writer.word(TokenKind::Minus),
    }
}

/// Writes an expression.
#[tactic(auto, using(crate::proofs::Steps::group_written, crate::proofs::Steps::signed_written, crate::proofs::Steps::product_written, crate::proofs::Steps::sum_written))]
pub fn push_expression(
    alloc: Global,
    writer: &mut Writer,
    expression: &Expression,
) -> Result<(), AllocError>
    ensures { Writes writer.old writer.new result (spelling expression.now) }
{
    match expression {
        Expression::Number(number) => writer.number(*number),
        Expression::Text(characters) => writer.quoted(alloc, characters.as_str()),
        Expression::Null => writer.word(TokenKind::Null),
        Expression::Column(column) => push_column(writer, column),
        Expression::Group(a) => {
            writer.word(TokenKind::LeftParenthesis)?;
            push_expression(alloc, writer, a.get())?;
            writer.word(TokenKind::RightParenthesis)
        }
        Expression::Signed(sign, a) => {
            push_sign(writer, *sign)?;
            push_expression(alloc, writer, a.get())
        }
        Expression::Product(a, b) => {
            push_expression(alloc, writer, a.get())?;
            writer.word(TokenKind::Asterisk)?;
            push_expression(alloc, writer, b.get())
        }
        Expression::Sum(sign, a, b) => {
            push_expression(alloc, writer, a.get())?;
            push_sign(writer, *sign)?;
            push_expression(alloc, writer, b.get())
        }
    }
}
