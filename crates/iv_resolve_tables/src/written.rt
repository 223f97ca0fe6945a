//! Constraints as written, inside a column or on their own.
ghost use Rattle.std.specs.Prelude.{◌≡◌, [], ◌∷◌};
ghost use Rattle.iv_resolution.specs.Constraints.{column_constraint, rule_of_column, rule_of_table, table_constraint};
ghost use Rattle.iv_resolve_tables.specs.Seen.{constraint_seen, rule_seen};

use iv_syntax::{
    ColumnConstraint, ColumnRule, Condition, ConstraintTime, Name, NullTreatment, References,
    TableConstraint, TableRule,
};
use std::slice;

/// What a constraint says.
#[derive(Clone, Copy)]
pub enum WrittenRule<'a> {
    NotNull(&'a Name),
    Unique(NullTreatment, &'a [Name]),
    PrimaryKey(&'a [Name]),
    Check(&'a Condition),
    ForeignKey(&'a [Name], &'a References),
}

/// A constraint.
#[derive(Clone, Copy)]
pub struct WrittenConstraint<'a> {
    pub name: &'a Option<Name>,
    pub rule: WrittenRule<'a>,
    pub time: ConstraintTime,
}

fn one<'a>(name: &'a Name) -> &'a [Name]
    ensures { result.now ≡ name.now ∷ [] }
{
    slice::from_ref(name)
}

fn rule_of_column<'a>(column: &'a Name, rule: &'a ColumnRule) -> WrittenRule<'a>
    ensures { rule_seen result ≡ rule_of_column column.entry.now rule.entry.now }
{
    match rule {
        ColumnRule::NotNull => WrittenRule::NotNull(column),
        ColumnRule::Unique(nulls) => WrittenRule::Unique(*nulls, one(column)),
        ColumnRule::PrimaryKey => WrittenRule::PrimaryKey(one(column)),
        ColumnRule::Check(condition) => WrittenRule::Check(condition),
        ColumnRule::References(references) => WrittenRule::ForeignKey(one(column), references),
    }
}

fn rule_of_table<'a>(rule: &'a TableRule) -> WrittenRule<'a>
    ensures { rule_seen result ≡ rule_of_table rule.entry.now }
{
    match rule {
        TableRule::Unique(nulls, names) => WrittenRule::Unique(*nulls, names.as_slice()),
        TableRule::PrimaryKey(names) => WrittenRule::PrimaryKey(names.as_slice()),
        TableRule::Check(condition) => WrittenRule::Check(condition),
        TableRule::ForeignKey(names, references) => {
            WrittenRule::ForeignKey(names.as_slice(), references)
        }
    }
}

/// A constraint inside a column.
pub fn column_constraint<'a>(
    column: &'a Name,
    constraint: &'a ColumnConstraint,
) -> WrittenConstraint<'a>
    ensures { constraint_seen result ≡ column_constraint column.entry.now constraint.entry.now }
{
    WrittenConstraint {
        name: &constraint.name,
        rule: rule_of_column(column, &constraint.rule),
        time: constraint.time,
    }
}

/// A table constraint as it is written.
pub fn table_constraint<'a>(constraint: &'a TableConstraint) -> WrittenConstraint<'a>
    ensures { constraint_seen result ≡ table_constraint constraint.entry.now }
{
    WrittenConstraint {
        name: &constraint.name,
        rule: rule_of_table(&constraint.rule),
        time: constraint.time,
    }
}
