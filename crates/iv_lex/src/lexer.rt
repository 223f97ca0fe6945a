//! The tokens of a text.
ghost use Rattle.std.specs.Prelude.{◌≡◌, IfOk};
ghost use Rattle.iv_lex.specs.Tokens.{tokens_of};

use crate::scan::{gap_length, token_at};
use crate::token::Token;
use sqlite_items::Items;
use std::alloc::{AllocError, Global};

/// The tokens of a text, and where the first one is that is no token.
#[derive(Drop)]
pub struct Lexed {
    pub tokens: Items<Token>,
    pub fault: Option<usize>,
}

/// The tokens of a text, each the longest at its place.
pub fn tokens(alloc: Global, text: &str) -> Result<Lexed, AllocError>
    ensures { IfOk result (λ l. l ≡ tokens_of text.now) }
{
    scan(alloc, text.as_bytes())
}

fn scan(alloc: Global, text: &[u8]) -> Result<Lexed, AllocError>
    ensures { IfOk result (λ l. l ≡ tokens_of text.now) }
{
    let mut tokens = Items::new(alloc);
    let mut at = 0;
    let mut most = text.len();
    while most > 0 {
        let rest = &text[at..];
        let gap = gap_length(rest);
        if rest.len() <= gap {
            return Ok(Lexed {
                tokens,
                fault: None,
            });
        }
        let start = at + gap;
        let Some((kind, length)) = token_at(&rest[gap..]) else {
            return Ok(Lexed {
                tokens,
                fault: Some(start),
            });
        };
        let end = start + length;
        tokens.push(Token { kind, start, end })?;
        at = end;
        most -= 1;
    }
    Ok(Lexed {
        tokens,
        fault: None,
    })
}
