//! The parts of CREATE TABLE and ALTER TABLE.
use crate::name::Name;
use crate::statement::ConstraintMode;
use crate::tree::{Condition, Sign};
use iv_value::Text;
use sqlite_items::Items;

/// A literal of a DEFAULT.
#[derive(Drop)]
pub enum Literal {
    Number(Option<Sign>, u64),
    Text(Text),
    Null,
}

/// The type of a column: the number is that of VARCHAR as it is written.
#[derive(Clone, Copy, Debug, PartialEq, Eq)]
pub enum ColumnType {
    Integer,
    Varchar(u64),
}

/// The constraint characteristics, as far as they are written.
#[derive(Clone, Copy, Debug, PartialEq, Eq)]
pub struct ConstraintTime {
    pub deferrable: Option<bool>,
    pub initially: Option<ConstraintMode>,
}

#[derive(Clone, Copy, Debug, PartialEq, Eq)]
pub enum MatchType {
    Simple,
    Full,
}

#[derive(Clone, Copy, Debug, PartialEq, Eq)]
pub enum ReferentialAction {
    NoAction,
    Restrict,
    Cascade,
    SetNull,
    SetDefault,
}

/// REFERENCES with all that follows it.
#[derive(Drop)]
pub struct References {
    pub table: Name,
    pub columns: Option<Items<Name>>,
    pub matching: Option<MatchType>,
    pub on_delete: Option<ReferentialAction>,
    pub on_update: Option<ReferentialAction>,
}

/// Whether nulls are the same to a UNIQUE: NotDistinct if NULLS NOT DISTINCT is written ("unique null treatment").
#[derive(Clone, Copy, Debug, PartialEq, Eq)]
pub enum NullTreatment {
    Distinct,
    NotDistinct,
}

#[derive(Drop)]
pub enum ColumnRule {
    NotNull,
    Unique(NullTreatment),
    PrimaryKey,
    Check(Condition),
    References(References),
}

#[derive(Drop)]
pub struct ColumnConstraint {
    pub name: Option<Name>,
    pub rule: ColumnRule,
    pub time: ConstraintTime,
}

#[derive(Drop)]
pub enum TableRule {
    Unique(NullTreatment, Items<Name>),
    PrimaryKey(Items<Name>),
    Check(Condition),
    ForeignKey(Items<Name>, References),
}

#[derive(Drop)]
pub struct TableConstraint {
    pub name: Option<Name>,
    pub rule: TableRule,
    pub time: ConstraintTime,
}

#[derive(Drop)]
pub struct ColumnDefinition {
    pub name: Name,
    pub kind: ColumnType,
    pub default: Option<Literal>,
    pub constraints: Items<ColumnConstraint>,
}

#[derive(Drop)]
pub enum TableElement {
    Column(ColumnDefinition),
    Constraint(TableConstraint),
}
