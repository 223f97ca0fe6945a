//! Whether tables and constraints are the same.
ghost use Rattle.std.specs.Prelude.{◌≡◌, true};

use crate::same::{Same, are_same};
use iv_catalogue::{Column, Constraint, ForeignKey, Rule, Table};
use iv_syntax::Name;

impl Same for Name {
    #[tactic(auto, using(crate::proofs::Decided::name_is))]
    fn is_same(&self, other: &Name) -> bool {
        self.as_str() == other.as_str()
    }
}

impl Same for Column {
    fn is_same(&self, other: &Column) -> bool {
        self.name.is_same(&other.name)
            && self.kind == other.kind
            && self.default.is_same(&other.default)
    }
}

impl Same for Table {
    fn is_same(&self, other: &Table) -> bool {
        self.name.is_same(&other.name)
            && are_same(self.columns.as_slice(), other.columns.as_slice())
    }
}

impl Same for ForeignKey {
    fn is_same(&self, other: &ForeignKey) -> bool {
        are_same(self.columns.as_slice(), other.columns.as_slice())
            && self.referenced == other.referenced
            && are_same(self.key.as_slice(), other.key.as_slice())
            && self.matching == other.matching
            && self.on_delete == other.on_delete
            && self.on_update == other.on_update
    }
}

impl Same for Rule {
    fn is_same(&self, other: &Rule) -> bool {
        match self {
            Rule::NotNull(column) => match other {
                Rule::NotNull(place) => *column == *place,
                _ => false,
            },
            Rule::Check(condition) => match other {
                Rule::Check(other) => condition.is_same(other),
                _ => false,
            },
            Rule::Unique(nulls, columns) => match other {
                Rule::Unique(treatment, places) => {
                    *nulls == *treatment && are_same(columns.as_slice(), places.as_slice())
                }
                _ => false,
            },
            Rule::PrimaryKey(columns) => match other {
                Rule::PrimaryKey(places) => are_same(columns.as_slice(), places.as_slice()),
                _ => false,
            },
            Rule::ForeignKey(key) => match other {
                Rule::ForeignKey(other) => key.is_same(other),
                _ => false,
            },
        }
    }
}

impl Same for Constraint {
    fn is_same(&self, other: &Constraint) -> bool {
        self.name.is_same(&other.name)
            && self.table == other.table
            && self.rule.is_same(&other.rule)
            && self.deferrable == other.deferrable
            && self.initially == other.initially
    }
}
