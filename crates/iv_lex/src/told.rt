//! How kinds of words are told to whoever reads them.
ghost use Rattle.std.specs.Prelude.{◌≡◌, map};
ghost use Rattle.iv_lex.specs.Told.{kind_text, or_else, text_among};

use crate::kind::TokenKind;
use crate::reserved::RESERVED;

/// The symbols and what is no reserved word, each with its kind. A number stands for all of them.
pub const SYMBOLS: [(&str, TokenKind); 17] = [
    ("a name", TokenKind::Name),
    ("a number", TokenKind::Number(0)),
    ("a text", TokenKind::Quoted),
    ("(", TokenKind::LeftParenthesis),
    (")", TokenKind::RightParenthesis),
    (",", TokenKind::Comma),
    (";", TokenKind::Semicolon),
    (".", TokenKind::Period),
    ("=", TokenKind::Equals),
    ("<>", TokenKind::NotEquals),
    ("<", TokenKind::Less),
    ("<=", TokenKind::LessEquals),
    (">", TokenKind::Greater),
    (">=", TokenKind::GreaterEquals),
    ("+", TokenKind::Plus),
    ("-", TokenKind::Minus),
    ("*", TokenKind::Asterisk),
];

fn text_among(texts: &[(&'static str, TokenKind)], kind: TokenKind) -> &'static str
    ensures { result.now ≡ text_among (map (λ row. (row.0.now, row.1)) texts.now) kind }
{
    for (text, found) in texts {
        if *found == kind {
            return text;
        }
    }
    ""
}

fn or_else(text: &'static str, other: &'static str) -> &'static str
    ensures { result.now ≡ or_else text.now other.now }
{
    if text.is_empty() { other } else { text }
}

/// The word of a kind: a symbol, a reserved word, or what is a name, a number or a text. A number is told where it is 0.
pub fn kind_text(kind: TokenKind) -> &'static str
    ensures { result.now ≡ kind_text kind }
{
    or_else(text_among(&SYMBOLS, kind), text_among(&RESERVED, kind))
}
