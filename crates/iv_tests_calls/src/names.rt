//! The name that a refusal is about, over a catalogue that has nothing.
use iv_catalogue::{Catalogue, Cause};
use iv_parse::script;
use iv_resolve_name_faults::{NameFault, NamedItem, duplicate_name, name_fault, unknown_name};
use iv_syntax::Statement;
use std::alloc::Global;
use std::panic::Expect;

// Whether the table T is unknown, for the call that tells an unknown name and for the one that tells any; whether
// the column B comes twice, for both; and whether a wrong shape is about no name.
fn told<'a>(alloc: Global, catalogue: &'a Catalogue, statement: &'a Statement) -> [bool; 5] {
    let unknown = name_fault(alloc, catalogue, statement, &Cause::Unknown);
    let duplicate = name_fault(alloc, catalogue, statement, &Cause::Duplicate);
    let twice = duplicate_name(alloc, catalogue, statement);
    [
        unknown_name(alloc, catalogue, statement) == Some(NamedItem::Table("T")),
        unknown == Some(NameFault::Unknown(NamedItem::Table("T"))),
        twice == Some(NameFault::Twice(NamedItem::Column(None, "B"))),
        duplicate == Some(NameFault::Twice(NamedItem::Column(None, "B"))),
        name_fault(alloc, catalogue, statement, &Cause::WrongShape).is_none(),
    ]
}

#[test]
fn names_of_an_insert(rt: HostRuntime) {
    let text = "INSERT INTO t (a, b, b, a) VALUES (1, 2, 3, 4);";
    let parsed = script(rt.alloc(), text).expect(&rt, "memory");
    let catalogue = Catalogue::new(rt.alloc());
    let told = match parsed.statements.as_slice() {
        [statement] => told(rt.alloc(), &catalogue, statement),
        _ => [false; 5],
    };
    drop(catalogue);
    drop(parsed);
    assert_eq!(rt; told, [true; 5]);
}
