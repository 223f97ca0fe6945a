//! White space, words, numbers, texts and symbols at the front of bytes.
ghost use Rattle.std.specs.Prelude.{◌≡◌, ◌+◌, ◌≤◌, ◌<◌, length, position, not, false, slice_index, IfSome, MatchOption, option_map};
ghost use Rattle.iv_lex.specs.Tokens.{is_space, is_digit, is_letter, is_word_byte, front_length, gap_step, gap, number_kind, short_word, closing, text_end, double_symbol, single_symbol, symbol_at, token_at, word_at, number_at, quoted_by};

use crate::kind::TokenKind;
use crate::reserved::word_kind;
use iv_syntax::{GREATEST_INTEGER, LONGEST_NAME};

fn is_space(byte: u8) -> bool
    ensures { result ≡ is_space byte }
{
    byte == b' ' || byte == b'\t' || byte == b'\n' || byte == b'\r'
}

fn is_digit(byte: u8) -> bool
    ensures { result ≡ is_digit byte }
{
    byte.is_ascii_digit()
}

fn is_letter(byte: u8) -> bool
    ensures { result ≡ is_letter byte }
{
    byte.is_ascii_alphabetic() || byte == b'_'
}

fn is_word_byte(byte: u8) -> bool
    ensures { result ≡ is_word_byte byte }
{
    is_letter(byte) || is_digit(byte)
}

fn first_not_digit(bytes: &[u8]) -> Option<usize>
    ensures { result ≡ position (λ b. not (is_digit b)) bytes.now }
{
    bytes.iter().position(|byte| !is_digit(*byte))
}

fn digits_length(bytes: &[u8]) -> usize
    ensures within { result ≤ length bytes.now }
    ensures len { result ≡ front_length is_digit bytes.now }
{
    first_not_digit(bytes).unwrap_or(bytes.len())
}

fn first_not_word(bytes: &[u8]) -> Option<usize>
    ensures { result ≡ position (λ b. not (is_word_byte b)) bytes.now }
{
    bytes.iter().position(|byte| !is_word_byte(*byte))
}

fn word_length(bytes: &[u8]) -> usize
    ensures within { result ≤ length bytes.now }
    ensures len { result ≡ front_length is_word_byte bytes.now }
{
    first_not_word(bytes).unwrap_or(bytes.len())
}

// The byte at this place, or 0 past the end.
fn byte_at(bytes: &[u8], at: usize) -> u8
    ensures byte { result ≡ slice_index bytes.now at }
    ensures past { length bytes.now ≤ at → result ≡ 0 }
{
    bytes.get(at).copied().unwrap_or(0)
}

// Whether a comment goes on after a byte of white space or of a comment.
fn gap_step(comment: bool, byte: u8, next: u8) -> Option<bool>
    ensures { result ≡ gap_step comment byte next }
{
    if comment {
        Some(byte != b'\n')
    } else if is_space(byte) {
        Some(false)
    } else if byte == b'-' && next == b'-' {
        Some(true)
    } else {
        None
    }
}

/// How many bytes of white space and comments are at the front.
pub fn gap_length(bytes: &[u8]) -> usize
    ensures within { result ≤ length bytes.now }
    ensures gap { result ≡ gap false bytes.now }
{
    let mut comment = false;
    let mut rest = bytes;
    let mut count = 0;
    while let Some((byte, others)) = rest.split_first() {
        let Some(after) = gap_step(comment, *byte, byte_at(others, 0)) else {
            return count;
        };
        comment = after;
        rest = others;
        count += 1;
    }
    count
}

fn number(digits: &[u8]) -> Option<TokenKind>
    ensures { result ≡ number_kind digits.now }
{
    let mut value = 0u64;
    for digit in digits {
        let next = u128::from(value) * 10 + u128::from(digit.saturating_sub(b'0'));
        if next > u128::from(GREATEST_INTEGER) {
            return None;
        }
        value = next as u64;
    }
    Some(TokenKind::Number(value))
}

fn short_word(word: &[u8]) -> Option<TokenKind>
    ensures { result ≡ short_word word.now }
{
    if word.len() <= LONGEST_NAME {
        Some(word_kind(word))
    } else {
        None
    }
}

// How many bytes at the front are a character of a text, at least, and the bytes after them.
fn text_step(bytes: &[u8]) -> Option<(usize, &[u8])>
    ensures step { MatchOption result (closing bytes.now
        ≡ text_end bytes.now) (λ p. closing bytes.now
        ≡ option_map (λ n. p.0 + n) (closing p.1.now)) }
    ensures size { IfSome result (λ p. p.0 + length p.1.now ≡ length bytes.now) }
    ensures more { IfSome result (λ p. 0 < p.0) }
{
    match bytes {
        [b'\'', b'\'', rest @ ..] => Some((2, rest)),
        [b'\'', ..] => None,
        [_, rest @ ..] => Some((1, rest)),
        [] => None,
    }
}

// How many bytes there are up to the quote that ends a text, and with it.
fn closing(bytes: &[u8]) -> Option<usize>
    ensures count { result ≡ closing bytes.now }
    ensures within { IfSome result (λ n. n ≤ length bytes.now) }
{
    let mut rest = bytes;
    let mut count = 0;
    while let Some((more, others)) = text_step(rest) {
        count += more;
        rest = others;
    }
    if rest.is_empty() {
        None
    } else {
        Some(count + 1)
    }
}

fn double_symbol(first: u8, second: u8) -> Option<TokenKind>
    ensures symbol { result ≡ double_symbol first second }
    ensures second { IfSome result (λ k. 0 < second) }
{
    match (first, second) {
        (b'<', b'>') => Some(TokenKind::NotEquals),
        (b'<', b'=') => Some(TokenKind::LessEquals),
        (b'>', b'=') => Some(TokenKind::GreaterEquals),
        _ => None,
    }
}

fn single_symbol(byte: u8) -> Option<TokenKind>
    ensures { result ≡ single_symbol byte }
{
    match byte {
        b'(' => Some(TokenKind::LeftParenthesis),
        b')' => Some(TokenKind::RightParenthesis),
        b',' => Some(TokenKind::Comma),
        b';' => Some(TokenKind::Semicolon),
        b'.' => Some(TokenKind::Period),
        b'=' => Some(TokenKind::Equals),
        b'<' => Some(TokenKind::Less),
        b'>' => Some(TokenKind::Greater),
        b'+' => Some(TokenKind::Plus),
        b'-' => Some(TokenKind::Minus),
        b'*' => Some(TokenKind::Asterisk),
        _ => None,
    }
}

fn symbol_at(bytes: &[u8]) -> Option<(TokenKind, usize)>
    requires { 0 < length bytes.now }
    ensures token { result ≡ symbol_at bytes.now }
    ensures within { IfSome result (λ p. p.1 ≤ length bytes.now) }
{
    let first = byte_at(bytes, 0);
    if let Some(kind) = double_symbol(first, byte_at(bytes, 1)) {
        return Some((kind, 2));
    }
    let kind = single_symbol(first)?;
    Some((kind, 1))
}

fn word_at(bytes: &[u8]) -> Option<(TokenKind, usize)>
    ensures token { result ≡ word_at bytes.now (front_length is_word_byte bytes.now) }
    ensures within { IfSome result (λ p. p.1 ≤ length bytes.now) }
{
    let count = word_length(bytes);
    let kind = short_word(&bytes[..count])?;
    Some((kind, count))
}

fn number_at(bytes: &[u8]) -> Option<(TokenKind, usize)>
    ensures token { result ≡ number_at bytes.now (front_length is_digit bytes.now) }
    ensures within { IfSome result (λ p. p.1 ≤ length bytes.now) }
{
    let count = digits_length(bytes);
    let kind = number(&bytes[..count])?;
    Some((kind, count))
}

fn text_at(rest: &[u8]) -> Option<(TokenKind, usize)>
    requires { length rest.now < usize.MAX }
    ensures token { result ≡ quoted_by (closing rest.now) }
    ensures within { IfSome result (λ p. p.1 ≤ 1 + length rest.now) }
{
    let count = closing(rest)?;
    Some((TokenKind::Quoted, count + 1))
}

/// The token at the front of bytes that begin with neither white space nor a comment, and its length.
pub fn token_at(bytes: &[u8]) -> Option<(TokenKind, usize)>
    requires { 0 < length bytes.now }
    ensures token { result ≡ token_at bytes.now }
    ensures within { IfSome result (λ p. p.1 ≤ length bytes.now) }
{
    let first = bytes[0];
    if is_letter(first) {
        word_at(bytes)
    } else if is_digit(first) {
        number_at(bytes)
    } else if first == b'\'' {
        text_at(&bytes[1..])
    } else {
        symbol_at(bytes)
    }
}
