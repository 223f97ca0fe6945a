//! Tokens.
use crate::kind::TokenKind;

/// A token and its place: it is the text from byte `start` on, up to byte `end`.
#[derive(Clone, Copy, Debug, PartialEq, Eq)]
pub struct Token {
    pub kind: TokenKind,
    pub start: usize,
    pub end: usize,
}
