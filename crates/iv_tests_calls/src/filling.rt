//! What a template becomes.
use iv_template::{FillFault, blanked, filled, template_place};
use iv_value::{Value, text};
use std::alloc::Global;
use std::panic::Expect;
use std::process::Abort;

// The filled text, or the word of the fault.
fn shown(rt: &impl Abort, alloc: Global, template: &str, values: &[Value]) -> String {
    match filled(alloc, template, values) {
        Ok(text) => text,
        Err(fault) => {
            let told = match fault {
                FillFault::NoMemory => format!(in alloc; "memory"),
                FillFault::NoToken(at) => format!(in alloc; "no token at {at}"),
                FillFault::WrongCount(holes, values) => {
                    format!(in alloc; "{values} for {holes}")
                }
            };
            told.expect(rt, "memory")
        }
    }
}

// The template with the values from one place up to another.
fn becomes(
    rt: &impl Abort,
    alloc: Global,
    values: &[Value],
    (template, from, to, wanted): (&str, usize, usize, &str),
) {
    let some = values.get(from..to).expect(rt, "places");
    let found = shown(rt, alloc, template, some);
    assert!(rt; found.as_str() == wanted, "{template}");
}

fn all_become(
    rt: &impl Abort,
    alloc: Global,
    values: &[Value],
    cases: &[(&str, usize, usize, &str)],
) {
    for case in cases {
        becomes(rt, alloc, values, *case);
    }
}

const NUMBERS: [(&str, usize, usize, &str); 12] = [
    ("", 0, 0, ""),
    ("a?", 0, 1, "a 5 "),
    ("-?,?", 0, 2, "- 5 , ( -5 ) "),
    ("??", 1, 3, " ( -5 )  NULL "),
    ("?;", 3, 4, " 9223372036854775807 ;"),
    ("?", 4, 5, " ( - 9223372036854775807 - 1 ) "),
    ("'?' -- ?\n?", 0, 1, "'?' -- ?\n 5 "),
    ("? 'it''s ?'", 2, 3, " NULL  'it''s ?'"),
    ("?, ?, ?", 0, 1, "1 for 3"),
    ("'?'", 0, 1, "1 for 0"),
    ("? # ?", 0, 2, "no token at 2"),
    ("? ? '?", 0, 1, "no token at 4"),
];

#[test]
fn numbers_and_nulls(rt: HostRuntime) {
    let values = [
        Value::Int(5),
        Value::Int(-5),
        Value::Null,
        Value::Int(i64::MAX),
        Value::Int(i64::MIN),
    ];
    all_become(&rt, rt.alloc(), &values, &NUMBERS);
}

const TEXTS: [(&str, usize, usize, &str); 2] = [
    ("VALUES (?)", 0, 1, "VALUES ( '''; DROP TABLE t; --' )"),
    ("?,?", 1, 3, " '' , '?\u{e9}''''' "),
];

#[test]
fn texts(rt: HostRuntime) {
    let alloc = rt.alloc();
    let values = [
        text(alloc, "'; DROP TABLE t; --").expect(&rt, "memory"),
        text(alloc, "").expect(&rt, "memory"),
        text(alloc, "?\u{e9}''").expect(&rt, "memory"),
    ];
    all_become(&rt, alloc, &values, &TEXTS);
}

// The place in a template of a place in the text that it becomes.
fn stands_at(
    rt: &impl Abort,
    alloc: Global,
    values: &[Value],
    (template, from, to, place, wanted): (&str, usize, usize, usize, usize),
) {
    let some = values.get(from..to).expect(rt, "places");
    let found = template_place(alloc, template, some, place).expect(rt, "memory");
    assert_eq!(rt; found, wanted, "{template} {place}");
}

const PLACES: [(&str, usize, usize, usize, usize); 12] = [
    ("x y", 0, 0, 3, 3),
    ("a?", 0, 1, 0, 0),
    ("a?", 0, 1, 1, 1),
    ("a?", 0, 1, 3, 1),
    ("a?", 0, 1, 4, 2),
    ("-?,?", 0, 2, 4, 2),
    ("-?,?", 0, 2, 5, 3),
    ("-?,?", 0, 2, 12, 3),
    ("-?,?", 0, 2, 13, 4),
    ("'?' ? b", 2, 3, 1, 1),
    ("'?' ? b", 2, 3, 9, 4),
    ("'?' ? b", 2, 3, 11, 6),
];

#[test]
fn places(rt: HostRuntime) {
    let values = [Value::Int(5), Value::Int(-5), Value::Null];
    for case in &PLACES {
        stands_at(&rt, rt.alloc(), &values, *case);
    }
}

fn is_blanked(rt: &impl Abort, alloc: Global, (template, holes, wanted): (&str, usize, &str)) {
    let found = blanked(alloc, template, holes).expect(rt, "memory");
    assert!(rt; found.as_str() == wanted, "{template}");
}

const BLANKED: [(&str, usize, &str); 5] = [
    ("a ?", 0, "a ?"),
    ("a ?", 1, "a  "),
    ("? '?' -- ?\n?;", 2, "  '?' -- ?\n ;"),
    ("?, ?, ?", 2, " ,  , ?"),
    ("none", 3, "none"),
];

#[test]
fn holes_are_blanked(rt: HostRuntime) {
    for case in &BLANKED {
        is_blanked(&rt, rt.alloc(), *case);
    }
}
