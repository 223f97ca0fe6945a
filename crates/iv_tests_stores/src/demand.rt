//! What constraints demand, as data: the tests write it down, and constraints are made of it here.
use crate::schema::named;
use iv_catalogue::{Constraint, ForeignKey, Rule};
use iv_expr::{Comparison, Cond, Expr, TableId};
use iv_syntax::{ConstraintMode, MatchType, NullTreatment, ReferentialAction};
use iv_value::Value;
use sqlite_items::Items;
use std::alloc::Global;
use std::panic::Expect;
use std::process::Abort;

/// One column, or two in this order.
#[derive(Clone, Copy)]
pub enum Columns {
    One(u32),
    Two(u32, u32),
}

/// A foreign key without an action; deferrable if it has a mode, with this mode at first.
#[derive(Clone, Copy)]
pub struct Reference {
    pub columns: Columns,
    pub matching: MatchType,
    pub referenced: u32,
    pub key: Columns,
    pub mode: Option<ConstraintMode>,
}

/// What a constraint demands: UNIQUE, the same with NULLS NOT DISTINCT, PRIMARY KEY, NOT NULL, CHECK (column > integer)
/// or FOREIGN KEY.
#[derive(Clone, Copy)]
pub enum Demand {
    Unique(Columns),
    UniqueNulls(Columns),
    PrimaryKey(Columns),
    NotNull(u32),
    Above(u32, i64),
    References(Reference),
}

fn items_of(rt: &impl Abort, alloc: Global, columns: &Columns) -> Items<u32> {
    let items = match columns {
        Columns::One(column) => Items::from_slice(alloc, &[*column]),
        Columns::Two(first, second) => Items::from_slice(alloc, &[*first, *second]),
    };
    items.expect(rt, "memory")
}

fn above(column: u32, integer: i64) -> Rule {
    Rule::Check(Cond::Compare(
        Comparison::Greater,
        Expr::Column(0, column),
        Expr::Literal(Value::Int(integer)),
    ))
}

fn foreign_key(rt: &impl Abort, alloc: Global, reference: &Reference) -> Rule {
    Rule::ForeignKey(ForeignKey {
        columns: items_of(rt, alloc, &reference.columns),
        referenced: TableId::new(reference.referenced),
        key: items_of(rt, alloc, &reference.key),
        matching: reference.matching,
        on_delete: ReferentialAction::NoAction,
        on_update: ReferentialAction::NoAction,
    })
}

fn rule_of(rt: &impl Abort, alloc: Global, demand: &Demand) -> Rule {
    match demand {
        Demand::Unique(columns) => {
            Rule::Unique(NullTreatment::Distinct, items_of(rt, alloc, columns))
        }
        Demand::UniqueNulls(columns) => {
            Rule::Unique(NullTreatment::NotDistinct, items_of(rt, alloc, columns))
        }
        Demand::PrimaryKey(columns) => Rule::PrimaryKey(items_of(rt, alloc, columns)),
        Demand::NotNull(column) => Rule::NotNull(*column),
        Demand::Above(column, integer) => above(*column, *integer),
        Demand::References(reference) => foreign_key(rt, alloc, reference),
    }
}

// The mode at first, if the constraint is deferrable.
fn mode_of(demand: &Demand) -> Option<ConstraintMode> {
    match demand {
        Demand::References(reference) => reference.mode,
        _ => None,
    }
}

/// The constraint of a table that demands this. Its name is of two numbers.
pub fn constraint_of(
    rt: &impl Abort,
    alloc: Global,
    numbers: (usize, usize),
    table: u32,
    demand: &Demand,
) -> Constraint {
    let mode = mode_of(demand);
    Constraint {
        name: named(rt, alloc, "K", numbers),
        table: TableId::new(table),
        rule: rule_of(rt, alloc, demand),
        deferrable: mode.is_some(),
        initially: mode.unwrap_or(ConstraintMode::Immediate),
    }
}

/// Constraints of a table that demand this. There are so many constraints before them: their names are of the count.
pub fn constraints_of(
    rt: &impl Abort,
    alloc: Global,
    before: usize,
    table: u32,
    demands: &[Demand],
) -> Items<Constraint> {
    let mut constraints = Items::new(alloc);
    for (place, demand) in demands.iter().enumerate() {
        let constraint = constraint_of(rt, alloc, (before, place), table, demand);
        constraints.push(constraint).expect(rt, "memory");
    }
    constraints
}
