//! Statements.
use crate::name::{Name, Named};
use crate::table::{TableConstraint, TableElement};
use crate::tree::{Condition, Expression, RangeName};
use crate::trigger::TriggerDefinition;
use sqlite_items::Items;

/// When a constraint is checked: at the end of each data statement, or when it is set to IMMEDIATE and
/// at COMMIT.
#[derive(Clone, Copy, Debug, PartialEq, Eq)]
pub enum ConstraintMode {
    Immediate,
    Deferred,
}

/// What SET CONSTRAINTS names.
#[derive(Drop)]
pub enum ConstraintList {
    All,
    Named(Items<Name>),
}

#[derive(Drop)]
pub enum ValueOrDefault {
    Value(Expression),
    Default,
}

#[derive(Drop)]
pub enum SelectList {
    Star,
    Values(Items<Expression>),
}

#[derive(Drop)]
pub enum InsertSource {
    Values(Items<Items<ValueOrDefault>>),
    Select(SelectList, RangeName, Option<Condition>),
}

/// INSERT; DEFAULT VALUES has no list and no source.
#[derive(Drop)]
pub enum Insert {
    DefaultValues(Name),
    Rows {
        table: Name,
        columns: Option<Items<Name>>,
        source: InsertSource,
    },
}

/// `column = value` of an UPDATE.
#[derive(Drop)]
pub struct Assignment {
    pub column: Name,
    pub value: ValueOrDefault,
}

impl Named for Assignment {
    ghost named = { λ a. a.column };

    fn name(&self) -> &str {
        self.column.as_str()
    }
}

#[derive(Drop)]
pub struct Update {
    pub table: Name,
    pub assignments: Items<Assignment>,
    pub filter: Option<Condition>,
}

#[derive(Drop)]
pub struct Delete {
    pub table: Name,
    pub filter: Option<Condition>,
}

#[derive(Drop)]
pub enum Select {
    Count(RangeName, Option<Condition>),
    Rows(SelectList, RangeName, Option<Condition>),
}

/// A statement of the language.
#[derive(Drop)]
pub enum Statement {
    CreateTable {
        name: Name,
        elements: Items<TableElement>,
    },
    AlterTable {
        table: Name,
        constraint: TableConstraint,
    },
    CreateTrigger(TriggerDefinition),
    DropTrigger(Name),
    Insert(Insert),
    Update(Update),
    Delete(Delete),
    Select(Select),
    StartTransaction,
    Commit,
    Rollback,
    Savepoint(Name),
    Release(Name),
    RollbackTo(Name),
    SetConstraints(ConstraintList, ConstraintMode),
}
