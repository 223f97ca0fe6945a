//! Where the fault of a text is, and what is told of it.
use iv_lex::{TokenKind, kind_text};
use iv_parse::{SyntaxFault, script};
use iv_script::fault_hint;
use std::alloc::Global;
use std::panic::Expect;
use std::process::Abort;

fn fault_of(rt: &impl Abort, alloc: Global, text: &str) -> SyntaxFault {
    let parsed = script(alloc, text).expect(rt, "memory");
    let fault = parsed.fault;
    drop(parsed);
    fault.expect(rt, "a fault")
}

#[test]
fn places(rt: HostRuntime) {
    let fault = fault_of(&rt, rt.alloc(), "COMMIT; SELECT a FORM t;");
    assert_eq!(rt; (fault.at, fault.word, fault.is_cut), (8, 17, false));
    assert_eq!(rt; fault.token.map(|token| token.end), Some(21));
    assert_eq!(rt; fault.before.map(|token| token.start), Some(15));
    assert!(rt; fault.wanted.as_slice().contains(&TokenKind::From));
}

#[test]
fn a_text_that_ends(rt: HostRuntime) {
    let fault = fault_of(&rt, rt.alloc(), "SELECT a FROM t");
    assert_eq!(rt; (fault.at, fault.word, fault.is_cut), (0, 15, true));
    assert!(rt; fault.token.is_none());
}

fn is_told(rt: &impl Abort, alloc: Global, text: &str, wanted: &str) {
    let fault = fault_of(rt, alloc, text);
    assert_eq!(rt; fault_hint(text, &fault), wanted, "{text}");
}

#[test]
fn hints(rt: HostRuntime) {
    for (text, wanted) in [
        ("SELECT a FORM t;", ""),
        ("SELECT a FROM t JOIN u;", "JOIN isn't in this language"),
        (
            "CREATE TABLE t (a BOOL);",
            "BOOL isn't in this language; there are INTEGER and VARCHAR",
        ),
        ("SELECT a != 1 FROM t;", "!= is written <>"),
        ("SELECT 'a FROM t;", "a text without its closing quote"),
    ] {
        is_told(&rt, rt.alloc(), text, wanted);
    }
}

#[test]
fn kinds(rt: HostRuntime) {
    for (kind, wanted) in [
        (TokenKind::From, "FROM"),
        (TokenKind::Comma, ","),
        (TokenKind::Name, "a name"),
        (TokenKind::Number(0), "a number"),
        (TokenKind::Number(1), ""),
    ] {
        assert_eq!(rt; kind_text(kind), wanted);
    }
}
