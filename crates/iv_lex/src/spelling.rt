//! The characters of names and texts.
ghost use Rattle.std.specs.Prelude.{◌≡◌, ◌+◌, ◌-◌, IfOk, option_copied, string_bytes};
ghost use Rattle.iv_lex.specs.Words.{is_boundary, characters, folded_text, single_quotes, unquoted_text};

use crate::token::Token;
use iv_value::Text;
use std::alloc::{AllocError, Global};

// Whether a character of the text begins at a place, or the text ends there.
fn is_boundary(text: &str, at: usize) -> bool
    ensures { result ≡ is_boundary text.now at }
{
    text.is_char_boundary(at)
}

// The characters from one place up to another.
fn characters(text: &str, start: usize, end: usize) -> Option<&str>
    ensures { option_copied result ≡ characters text.now start end }
{
    if start <= end && is_boundary(text, start) && is_boundary(text, end) {
        Some(&text[start..end])
    } else {
        None
    }
}

/// The characters of a name, folded to upper case. `None` where the token's place isn't a part of the
/// text, or cuts a character.
pub fn folded_text(alloc: Global, text: &str, token: Token) -> Result<Option<Text>, AllocError>
    ensures { IfOk result (λ found. found ≡ folded_text text.now token) }
{
    let Some(name) = characters(text, token.start, token.end) else {
        return Ok(None);
    };
    let upper = name.to_ascii_uppercase(alloc)?;
    Ok(Some(Text::new(alloc, &upper)?))
}

// The characters after the first byte of a token and before its last.
fn inner(text: &str, token: Token) -> Option<&str>
    ensures { option_copied result ≡ characters text.now (token.start + 1) (token.end - 1) }
{
    if token.start >= token.end {
        return None;
    }
    characters(text, token.start + 1, token.end - 1)
}

fn with_single_quotes(alloc: Global, quoted: &str) -> Result<String, AllocError>
    ensures { IfOk result (λ single. string_bytes single ≡ single_quotes quoted.now) }
{
    quoted.replace(alloc, "''", "'")
}

/// The characters between the quotes of a text, with one quote for each two. `None` where the
/// token's place isn't a part of the text, or cuts a character.
pub fn unquoted_text(alloc: Global, text: &str, token: Token) -> Result<Option<Text>, AllocError>
    ensures { IfOk result (λ found. found ≡ unquoted_text text.now token) }
{
    let Some(quoted) = inner(text, token) else {
        return Ok(None);
    };
    let single = with_single_quotes(alloc, quoted)?;
    Ok(Some(Text::new(alloc, &single)?))
}
