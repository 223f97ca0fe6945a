//! The lines that tell where the fault of a script is.
ghost use Rattle.std.specs.Prelude.{◌≡◌, ◌++◌};
ghost use Rattle.std.specs.List.{flat_map};
ghost use Rattle.iv_text.specs.Writing.{Writes};
ghost use Rattle.iv_script.specs.FaultLines.{fault_text, further_kind, place_lines, place_text, told_text, wanted_text, wrong_word};

use crate::caret::write_around;
use crate::hint::{fault_hint, token_text};
use crate::place::{MOST_WORDS, Place, place_at, words_of};
use iv_lex::{Token, TokenKind, kind_text};
use iv_parse::SyntaxFault;
use iv_text::{DeviceFault, Sink, write_all, write_nothing, write_number};

/// The wrong word of a text, or its first characters; or what tells that the text ends.
pub fn wrong_word<'a>(text: &'a str, token: Option<Token>) -> &'a [u8]
    ensures { result.now ≡ wrong_word text.entry.now token }
{
    if token.is_none() {
        return b"the end of the text";
    }
    words_of(token_text(text, token), MOST_WORDS)
}

#[tactic(auto, using(iv_text::proofs::WriteLemmas::writes_then))]
fn write_further<W: Sink>(writer: &mut W, kind: TokenKind) -> Result<(), DeviceFault>
    ensures { Writes (W.state writer.old) (W.state writer.new) result (further_kind kind) }
{
    write_all(writer, b" or ")?;
    write_all(writer, kind_text(kind).as_bytes())
}

// Further kinds.
fn write_more<W: Sink>(writer: &mut W, kinds: &[TokenKind]) -> Result<(), DeviceFault>
    ensures { Writes (W.state writer.old) (W.state writer.new) result (flat_map further_kind kinds.now) }
{
    let mut rest = kinds;
    while let Some((kind, others)) = rest.split_first() {
        write_further(writer, *kind)?;
        rest = others;
    }
    Ok(())
}

// What might have stood in the place of the word.
#[tactic(auto, using(iv_text::proofs::WriteLemmas::writes_then))]
fn write_wanted<W: Sink>(writer: &mut W, kinds: &[TokenKind]) -> Result<(), DeviceFault>
    ensures { Writes (W.state writer.old) (W.state writer.new) result (wanted_text kinds.now) }
{
    match kinds {
        [] => write_nothing(writer),
        [kind, more @ ..] => {
            write_all(writer, b"; wanted ")?;
            write_all(writer, kind_text(*kind).as_bytes())?;
            write_more(writer, more)
        }
    }
}

// What is known of the word, or else the word and what might have stood there.
#[tactic(auto, using(iv_text::proofs::WriteLemmas::writes_then))]
fn write_told<W: Sink>(writer: &mut W, text: &str, fault: &SyntaxFault) -> Result<(), DeviceFault>
    ensures { Writes (W.state writer.old) (W.state writer.new) result (told_text text.now fault.now) }
{
    let hint = fault_hint(text, fault);
    if !hint.is_empty() {
        return write_all(writer, hint.as_bytes());
    }
    write_all(writer, wrong_word(text, fault.token))?;
    write_wanted(writer, fault.wanted.as_slice())
}

#[tactic(auto, using(iv_text::proofs::WriteLemmas::writes_then))]
fn write_place<W: Sink>(writer: &mut W, place: Place) -> Result<(), DeviceFault>
    ensures { Writes (W.state writer.old) (W.state writer.new) result (place_text place) }
{
    write_all(writer, b"  line ")?;
    write_number(writer, place.line)?;
    write_all(writer, b", column ")?;
    write_number(writer, place.column)?;
    write_all(writer, b": ")
}

#[tactic(auto, using(iv_text::proofs::WriteLemmas::writes_then))]
fn write_lines<W: Sink>(writer: &mut W, text: &str, fault: &SyntaxFault) -> Result<(), DeviceFault>
    ensures { Writes (W.state writer.old) (W.state writer.new) result (fault_text text.now fault.now) }
{
    write_place(writer, place_at(text, fault.word))?;
    write_told(writer, text, fault)?;
    write_all(writer, b"\n")?;
    write_around(writer, text, fault.word)
}

/// Writes the lines that tell the first word of a text that can't stand where it does, where they are asked for.
pub fn write_fault_place<W: Sink>(
    writer: &mut W,
    explain: bool,
    text: &str,
    fault: Option<SyntaxFault>,
) -> Result<(), DeviceFault>
    ensures { Writes (W.state writer.old) (W.state writer.new) result
        (place_lines explain text.now fault) }
{
    match fault {
        Some(fault) if explain => write_lines(writer, text, &fault),
        _ => write_nothing(writer),
    }
}
