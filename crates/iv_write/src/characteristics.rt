//! When a constraint is checked.
ghost use Rattle.iv_write.specs.Tables.{deferrable_words, initially_words, time_words};
ghost use Rattle.iv_write.specs.Writing.{Writes};
ghost use Rattle.std.specs.Prelude.{[], ◌∷◌};
ghost use Rattle.iv_lex.specs.Words.{plain};
ghost use Rattle.iv_parse_data.specs.Tables.{mode_kind};

use crate::writer::Writer;
use iv_lex::TokenKind;
use iv_syntax::{ConstraintMode, ConstraintTime};
use std::alloc::AllocError;

/// Writes a mode.
pub fn push_mode(writer: &mut Writer, mode: ConstraintMode) -> Result<(), AllocError>
    ensures { Writes writer.old writer.new result (plain (mode_kind mode) ∷ []) }
{
    match mode {
        ConstraintMode::Immediate => writer.word(TokenKind::Immediate),
        ConstraintMode::Deferred => writer.word(TokenKind::Deferred),
    }
}

fn push_deferrable(writer: &mut Writer, deferrable: Option<bool>) -> Result<(), AllocError>
    ensures { Writes writer.old writer.new result (deferrable_words deferrable) }
{
    match deferrable {
        Some(true) => writer.word(TokenKind::Deferrable),
        Some(false) => writer.words(&[TokenKind::Not, TokenKind::Deferrable]),
        None => writer.words(&[]),
    }
}

fn push_initially(writer: &mut Writer, initially: Option<ConstraintMode>) -> Result<(), AllocError>
    ensures { Writes writer.old writer.new result (initially_words initially) }
{
    match initially {
        Some(mode) => {
            writer.word(TokenKind::Initially)?;
            push_mode(writer, mode)
        }
        None => writer.words(&[]),
    }
}

/// Writes the characteristics of a constraint, as far as they are written.
pub fn push_time(writer: &mut Writer, time: ConstraintTime) -> Result<(), AllocError>
    ensures { Writes writer.old writer.new result (time_words time) }
{
    push_deferrable(writer, time.deferrable)?;
    push_initially(writer, time.initially)
}
