//! The line around a word, with a caret under the word.
ghost use Rattle.std.specs.Prelude.{◌≡◌, ◌-◌, ◌++◌, ◌≤◌, false, chars, length, option_copied, take};
ghost use Rattle.std.specs.List.{flat_map};
ghost use Rattle.unicode_width.specs.Width.{str_width};
ghost use Rattle.iv_lex.specs.Words.{characters, is_boundary};
ghost use Rattle.iv_text.specs.Writing.{Writes};
ghost use Rattle.iv_script.specs.FaultLines.{around_text, back, behind, caret_around, caret_below, caret_text, front, front_bytes, last_line, left_after, shown, spaces};

use crate::place::{is_continuation, place_at, words_of};
use iv_text::{DeviceFault, Sink, write_all, write_nothing};
use unicode_width::UnicodeWidthStr;

/// The most characters that are shown of a line before a word, and from it on.
pub const MOST_AROUND: u32 = 40;

/// More spaces than there are columns before a word: no character takes more than three.
pub const SPACES: &str =
    "                                                                                                                        ";

// What comes after the last end of a line.
fn last_line(text: &[u8]) -> &[u8]
    ensures { result.now ≡ last_line text.now text.now }
{
    let mut line = text;
    let mut rest = text;
    while let Some((byte, others)) = rest.split_first() {
        if *byte == b'\n' {
            line = others;
        }
        rest = others;
    }
    line
}

// How many characters are left to pass after a byte; none where it is behind them.
fn left_after(left: u64, byte: u8) -> Option<u64>
    ensures { result ≡ left_after left byte }
{
    if is_continuation(byte) {
        Some(left)
    } else {
        left.checked_sub(1)
    }
}

// The bytes behind so many characters.
fn behind(text: &[u8], count: u64) -> &[u8]
    ensures { result.now ≡ behind count text.now }
{
    let mut left = count;
    let mut rest = text;
    while let Some((byte, others)) = rest.split_first() {
        let Some(less) = left_after(left, *byte) else {
            break;
        };
        left = less;
        rest = others;
    }
    rest
}

// What is shown of the line before a byte.
fn front_bytes(text: &str, at: usize) -> &[u8]
    ensures { result.now ≡ front_bytes text.now at }
{
    let column = place_at(text, at).column;
    let bytes = text.as_bytes();
    let line = last_line(&bytes[..at.min(bytes.len())]);
    behind(
        line,
        column
            .saturating_sub(1)
            .saturating_sub(u64::from(MOST_AROUND)),
    )
}

fn is_boundary(text: &str, at: usize) -> bool
    ensures { result ≡ is_boundary text.now at }
{
    text.is_char_boundary(at)
}

// The characters from one place up to another.
fn characters(text: &str, start: usize, end: usize) -> Option<&str>
    ensures { option_copied result ≡ characters text.now start end }
{
    if start <= end && is_boundary(text, start) && is_boundary(text, end) {
        Some(&text[start..end])
    } else {
        None
    }
}

fn front(text: &str, at: usize) -> &str
    ensures { result.now ≡ front text.now at }
{
    let end = at.min(text.len());
    let start = end.saturating_sub(front_bytes(text, at).len());
    characters(text, start, end).unwrap_or("")
}

// What is shown of the line from a byte on.
fn back(text: &str, at: usize) -> &[u8]
    ensures { result.now ≡ back text.now at }
{
    let bytes = text.as_bytes();
    words_of(&bytes[at.min(bytes.len())..], MOST_AROUND)
}

fn write_shown_byte<W: Sink>(writer: &mut W, byte: u8) -> Result<(), DeviceFault>
    ensures { Writes (W.state writer.old) (W.state writer.new) result (shown byte) }
{
    if byte < 32 || byte == 127 {
        write_all(writer, b" ")
    } else {
        write_all(writer, &[byte])
    }
}

fn write_shown<W: Sink>(writer: &mut W, bytes: &[u8]) -> Result<(), DeviceFault>
    ensures { Writes (W.state writer.old) (W.state writer.new) result (flat_map shown bytes.now) }
{
    let mut rest = bytes;
    while let Some((byte, others)) = rest.split_first() {
        write_shown_byte(writer, *byte)?;
        rest = others;
    }
    Ok(())
}

fn spaces(count: usize) -> &'static [u8]
    ensures { result.now ≡ spaces count }
{
    let blanks = SPACES.as_bytes();
    &blanks[..count.min(blanks.len())]
}

#[tactic(auto, using(iv_text::proofs::WriteLemmas::writes_then))]
fn write_caret<W: Sink>(writer: &mut W, before: &str, after: &[u8]) -> Result<(), DeviceFault>
    ensures { Writes (W.state writer.old) (W.state writer.new) result
        (caret_text before.now after.now) }
{
    write_all(writer, b"    ")?;
    write_shown(writer, before.as_bytes())?;
    write_shown(writer, after)?;
    write_all(writer, b"\n    ")?;
    write_all(writer, spaces(before.width()))?;
    write_all(writer, b"^\n")
}

fn write_below<W: Sink>(writer: &mut W, after: &[u8]) -> Result<(), DeviceFault>
    ensures { Writes (W.state writer.old) (W.state writer.new) result (caret_below after.now) }
{
    if after.is_empty() {
        return write_nothing(writer);
    }
    write_caret(writer, "", after)
}

fn write_caret_around<W: Sink>(
    writer: &mut W,
    before: &str,
    after: &[u8],
) -> Result<(), DeviceFault>
    ensures { Writes (W.state writer.old) (W.state writer.new) result
        (caret_around before.now after.now) }
{
    if before.is_empty() {
        return write_below(writer, after);
    }
    write_caret(writer, before, after)
}

/// Writes the line around a byte of a text, and below it a line with a caret under the byte.
pub fn write_around<W: Sink>(writer: &mut W, text: &str, at: usize) -> Result<(), DeviceFault>
    ensures { Writes (W.state writer.old) (W.state writer.new) result (around_text text.now at) }
{
    write_caret_around(writer, front(text, at), back(text, at))
}
