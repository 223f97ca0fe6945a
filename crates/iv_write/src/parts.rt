//! Parts that come several times.
ghost use Rattle.iv_write.specs.Parts.{enclosed_words, more_words, sequence_words, series_words};
ghost use Rattle.iv_write.specs.Writing.{Writes};

use crate::writer::Writer;
use iv_lex::TokenKind;
use iv_syntax::Name;
use std::alloc::{AllocError, Global};

/// What is written as words.
pub trait Written {
    ghost use Rattle.std.specs.Prelude.{List};
    ghost use Rattle.iv_lex.specs.Words.{Word};

    ghost words: { Self → List Word };

    /// Writes its words.
    fn write(&self, alloc: Global, writer: &mut Writer) -> Result<(), AllocError>
        ensures { Writes writer.old writer.new result (words self.now) };
}

impl Written for Name {
    ghost use Rattle.std.specs.Prelude.{[], ◌∷◌};
    ghost use Rattle.iv_lex.specs.Words.{name};

    ghost words = { λ n. name n ∷ [] };

    fn write(&self, _alloc: Global, writer: &mut Writer) -> Result<(), AllocError> {
        writer.name(self)
    }
}

// Each part after a comma.
fn push_more<T: Written>(alloc: Global, writer: &mut Writer, parts: &[T]) -> Result<(), AllocError>
    ensures { Writes writer.old writer.new result (more_words T.words parts.now) }
{
    let mut rest = parts;
    while let Some((part, others)) = rest.split_first() {
        writer.word(TokenKind::Comma)?;
        part.write(alloc, writer)?;
        rest = others;
    }
    Ok(())
}

/// Writes parts with a comma between any two.
pub fn push_series<T: Written>(
    alloc: Global,
    writer: &mut Writer,
    parts: &[T],
) -> Result<(), AllocError>
    ensures { Writes writer.old writer.new result (series_words T.words parts.now) }
{
    let Some((part, others)) = parts.split_first() else {
        return writer.words(&[]);
    };
    part.write(alloc, writer)?;
    push_more(alloc, writer, others)
}

/// Writes a series between parentheses.
pub fn push_enclosed<T: Written>(
    alloc: Global,
    writer: &mut Writer,
    parts: &[T],
) -> Result<(), AllocError>
    ensures { Writes writer.old writer.new result (enclosed_words (series_words T.words parts.now)) }
{
    writer.word(TokenKind::LeftParenthesis)?;
    push_series(alloc, writer, parts)?;
    writer.word(TokenKind::RightParenthesis)
}

/// Writes parts one after the other.
pub fn push_sequence<T: Written>(
    alloc: Global,
    writer: &mut Writer,
    parts: &[T],
) -> Result<(), AllocError>
    ensures { Writes writer.old writer.new result (sequence_words T.words parts.now) }
{
    let mut rest = parts;
    while let Some((part, others)) = rest.split_first() {
        part.write(alloc, writer)?;
        rest = others;
    }
    Ok(())
}
