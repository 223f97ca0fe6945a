//! Tokens of one text that are read in another. The program reads tokens only in their own text.
use iv_lex::{Token, TokenKind, folded_text, tokens};
use iv_parse_data::insert;
use iv_parse_terms::{Cursor, Stop};
use iv_syntax::Insert;
use std::alloc::Global;
use std::panic::Expect;
use std::process::Abort;

fn show(rt: &impl Abort, words: &str, shown: &mut String) {
    shown.push_str(words).expect(rt, "memory");
}

// The table of an INSERT, and whether it has columns and rows or defaults.
fn show_insert(rt: &impl Abort, insert: &Insert, shown: &mut String) {
    match insert {
        Insert::DefaultValues(table) => {
            show(rt, table.as_str(), shown);
            show(rt, " defaults, ", shown);
        }
        Insert::Rows { table, .. } => {
            show(rt, table.as_str(), shown);
            show(rt, " rows, ", shown);
        }
    }
}

// What `insert` finds in a text by these tokens, and how many of them are left.
fn show_insert_in(
    rt: &impl Abort,
    alloc: Global,
    text: &str,
    tokens: &[Token],
    shown: &mut String,
) {
    let mut cursor = Cursor::new(alloc, text, tokens, 0);
    match insert(&mut cursor) {
        Ok(found) => {
            show_insert(rt, &found, shown);
            drop(found);
            let left = tokens.len().saturating_sub(cursor.place());
            write!(shown, "{left}").expect(rt, "memory");
        }
        Err(Stop::NoMemory) => show(rt, "no memory", shown),
        Err(_) => show(rt, "none", shown),
    }
}

// The same by the tokens of another text, in which the name of the table is at byte 5.
fn shown_elsewhere(rt: &impl Abort, alloc: Global, text: &str) -> String {
    let mut shown = String::new(alloc);
    let lexed = tokens(alloc, "INTO t DEFAULT VALUES").expect(rt, "memory");
    show_insert_in(rt, alloc, text, lexed.tokens.as_slice(), &mut shown);
    shown
}

fn finds(rt: &impl Abort, alloc: Global, text: &str, wanted: &str) {
    let shown = shown_elsewhere(rt, alloc, text);
    assert_eq!(rt; shown.as_str(), wanted, "{text}");
}

#[test]
fn names_of_another_text_are_none(rt: HostRuntime) {
    for (text, wanted) in [
        ("INTO u DEFAULT VALUES", "U defaults, 0"),
        ("INTO u", "U defaults, 0"),
        ("INTO ", "none"),
        ("", "none"),
        ("INT\u{e9}\u{e9}", "none"),
        ("INTO \u{e9}", "none"),
    ] {
        finds(&rt, rt.alloc(), text, wanted);
    }
}

// A name from one byte to another of a text of nine bytes, with two in the third character, is none.
fn is_outside(rt: &impl Abort, alloc: Global, start: usize, end: usize) {
    let token = Token {
        kind: TokenKind::Quoted,
        start,
        end,
    };
    let folded = folded_text(alloc, "ab\u{e9}cdefg", token).expect(rt, "memory");
    assert!(rt; folded.is_none(), "from {start} to {end}");
}

#[test]
fn places_outside_the_text(rt: HostRuntime) {
    for (start, end) in [
        (0, 10),
        (9, 10),
        (3, 2),
        (10, 10),
        (0, 3),
        (3, 9),
        (usize::MAX, 0),
        (usize::MAX, usize::MAX),
    ] {
        is_outside(&rt, rt.alloc(), start, end);
    }
}
