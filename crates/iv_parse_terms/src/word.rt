//! What a token is among words.
ghost use Rattle.std.specs.Prelude.{◌≡◌, ℕ, List, true, IfOk};
ghost use Rattle.iv_lex.specs.Words.{word_of};
ghost use Rattle.iv_parse_terms.specs.After.{is_plain, is_word};
ghost use Rattle.iv_parse_terms.specs.Reading.{name_in, quoted_in, number_in};

use iv_lex::{Token, TokenKind, folded_text, unquoted_text};
use iv_syntax::Name;
use iv_value::Text;
use std::alloc::{AllocError, Global};

/// Whether the token is this symbol or reserved word.
pub fn token_is(token: &Token, kind: TokenKind) -> bool
    requires { is_plain kind ≡ true }
    ensures { (text : List ℕ) → result ≡ is_word kind (word_of text token.now) }
{
    token.kind == kind
}

/// The name that the token is.
pub fn name_of(alloc: Global, text: &str, token: &Token) -> Result<Option<Name>, AllocError>
    ensures { IfOk result (λ n. n ≡ name_in (word_of text.now token.now)) }
{
    match token.kind {
        TokenKind::Name => match folded_text(alloc, text, *token)? {
            Some(name) => Ok(Some(Name::new(name))),
            None => Ok(None),
        },
        _ => Ok(None),
    }
}

/// The text that the token is.
pub fn quoted_of(alloc: Global, text: &str, token: &Token) -> Result<Option<Text>, AllocError>
    ensures { IfOk result (λ t. t ≡ quoted_in (word_of text.now token.now)) }
{
    match token.kind {
        TokenKind::Quoted => unquoted_text(alloc, text, *token),
        _ => Ok(None),
    }
}

/// The number that the token is.
pub fn number_of(token: &Token) -> Option<u64>
    ensures { (text : List ℕ) → result ≡ number_in (word_of text token.now) }
{
    match token.kind {
        TokenKind::Number(number) => Some(number),
        _ => None,
    }
}
