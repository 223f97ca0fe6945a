//! Statements and scripts as texts.
ghost use Rattle.std.specs.Prelude.{◌≡◌, [], ◌∷◌, IfOk, string_bytes};
ghost use Rattle.iv_write.specs.Layouts.{text_of};
ghost use Rattle.iv_write.specs.Scripts.{AllCanBeWritten, CanBeWritten, SaysScript};
ghost use Rattle.iv_write.specs.Statements.{script_words, whole_words};

use crate::parts::{Written, push_sequence};
use crate::writer::Writer;
use iv_syntax::Statement;
use std::alloc::{AllocError, Global};

/// The text of a statement, with its semicolon and a line end. If the statement can be written, the text is a script
/// of it and nothing else.
pub fn write_statement(alloc: Global, statement: &Statement) -> Result<String, AllocError>
    ensures written { IfOk result (λ text. string_bytes text ≡ text_of (whole_words statement.now)) }
    ensures says { IfOk result (λ text. CanBeWritten statement.now → SaysScript (string_bytes text) (statement.now ∷ [])) }
{
    let mut writer = Writer::new(alloc);
    statement.write(alloc, &mut writer)?;
    Ok(writer.into_text())
}

/// The text of statements, each with its semicolon and a line end. If the statements can be written, the text is a
/// script of them and has no other reading.
pub fn write_script(alloc: Global, statements: &[Statement]) -> Result<String, AllocError>
    ensures written { IfOk result (λ text. string_bytes text ≡ text_of (script_words statements.now)) }
    ensures says { IfOk result (λ text. AllCanBeWritten statements.now → SaysScript (string_bytes text) statements.now) }
{
    let mut writer = Writer::new(alloc);
    push_sequence(alloc, &mut writer, statements)?;
    Ok(writer.into_text())
}
