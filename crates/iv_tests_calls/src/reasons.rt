//! The reason of a refusal for each cause, over a catalogue that has nothing.
use iv_catalogue::{Catalogue, Cause};
use iv_parse::script;
use iv_resolve_name_faults::NamedItem;
use iv_resolve_reasons::{
    LimitFault, Reason, SchemaFault, ShapeFault, limit_fault, refusal_reason, schema_fault,
    shape_fault,
};
use iv_syntax::Statement;
use std::alloc::Global;
use std::panic::Expect;
use std::process::Abort;

// The second tuple has two values for the one column of the list.
fn is_second_tuple(fault: Option<ShapeFault<'_>>) -> bool {
    match fault {
        Some(
            ShapeFault::TupleCount {
                table,
                number,
                columns,
                values,
            },
        ) => table == "T" && number == 2 && columns == 1 && values == 2,
        _ => false,
    }
}

// The third constraint is the second primary key.
fn is_third_constraint(fault: Option<SchemaFault<'_>>) -> bool {
    match fault {
        Some(SchemaFault::SecondPrimaryKey(item)) => {
            item == NamedItem::GeneratedConstraint("W", 3)
        }
        _ => false,
    }
}

// The column B has one character more than a VARCHAR may have.
fn is_character_4097(fault: Option<LimitFault<'_>>) -> bool {
    match fault {
        Some(
            LimitFault::Characters {
                column,
                most,
                asked,
            },
        ) => column == "B" && most == 4096 && asked == 4097,
        _ => false,
    }
}

fn shape_of(reason: Option<Reason<'_>>) -> bool {
    match reason {
        Some(Reason::Shape(fault)) => is_second_tuple(Some(fault)),
        _ => false,
    }
}

fn rule_of(reason: Option<Reason<'_>>) -> bool {
    match reason {
        Some(Reason::Schema(fault)) => is_third_constraint(Some(fault)),
        _ => false,
    }
}

fn limit_of(reason: Option<Reason<'_>>) -> bool {
    match reason {
        Some(Reason::Limit(fault)) => is_character_4097(Some(fault)),
        _ => false,
    }
}

// Whether each call tells what the test of its cause looks for.
fn told(alloc: Global, catalogue: &Catalogue, statement: &Statement) -> [bool; 6] {
    let rule = refusal_reason(alloc, catalogue, statement, &Cause::SchemaFault);
    let shape = refusal_reason(alloc, catalogue, statement, &Cause::WrongShape);
    let limit = refusal_reason(alloc, catalogue, statement, &Cause::Limit);
    [
        is_third_constraint(schema_fault(alloc, catalogue, statement)),
        rule_of(rule),
        is_second_tuple(shape_fault(alloc, catalogue, statement)),
        shape_of(shape),
        is_character_4097(limit_fault(catalogue, statement)),
        limit_of(limit),
    ]
}

// What is told of a text of one statement.
fn told_of(rt: &impl Abort, alloc: Global, text: &str) -> [bool; 6] {
    let parsed = script(alloc, text).expect(rt, "memory");
    let catalogue = Catalogue::new(alloc);
    let told = match parsed.statements.as_slice() {
        [statement] => told(alloc, &catalogue, statement),
        _ => [false; 6],
    };
    drop(catalogue);
    drop(parsed);
    told
}

#[test]
fn shape_of_an_insert(rt: HostRuntime) {
    let told = told_of(
        &rt,
        rt.alloc(),
        "INSERT INTO t (a) VALUES (1), (2, 3), ('x');",
    );
    assert_eq!(rt; told, [false, false, true, true, false, false]);
}

#[test]
fn rule_of_a_table(rt: HostRuntime) {
    let text = "CREATE TABLE w (a INT PRIMARY KEY NOT NULL, PRIMARY KEY (a));";
    let told = told_of(&rt, rt.alloc(), text);
    assert_eq!(rt; told, [true, true, false, false, false, false]);
}

#[test]
fn limit_of_a_table(rt: HostRuntime) {
    let text = "CREATE TABLE w (a VARCHAR(4096), b VARCHAR(4097));";
    let told = told_of(&rt, rt.alloc(), text);
    assert_eq!(rt; told, [false, false, false, false, true, true]);
}
