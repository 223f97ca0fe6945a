//! Statements and triggers with every name resolved. Columns are places in their table, from 0.
use crate::catalogue::Table;
use crate::constraint::{Constraint, Constraints};
use crate::number::{ConstraintId, TriggerId};
use iv_expr::{Cond, Expr, Range, TableId};
use iv_syntax::{ActionTime, ConstraintMode, Granularity, Name, TriggerEvent};
use iv_value::Text;
use sqlite_items::Items;

/// `column = value` of an UPDATE or a SET. DEFAULT is the column's default.
#[derive(Drop)]
pub struct Setting {
    pub column: u32,
    pub value: Expr,
}

/// What a SELECT gives of each row.
#[derive(Drop)]
pub enum Outputs {
    /// The whole row.
    Star,
    Values(Items<Expr>),
}

/// The rows of an INSERT. DEFAULT is the column's default; DEFAULT VALUES is one tuple of no value for no
/// column.
#[derive(Drop)]
pub enum InsertRows {
    /// The tuples of VALUES: each has a value for each of the columns, in their order.
    Values(Items<Items<Expr>>),
    /// The rows that a query gives of a range where its condition is true.
    Query {
        outputs: Outputs,
        range: Range,
        filter: Cond,
    },
}

/// For which columns an INSERT has values.
#[derive(Drop)]
pub enum InsertColumns {
    /// For all, in their order.
    All,
    /// For these, in this order; each other column takes its default.
    Listed(Items<u32>),
}

/// INSERT, UPDATE and DELETE ("Insert statement", "Update statement: searched", "Delete statement: searched").
#[derive(Drop)]
pub enum DataStatement {
    Insert {
        table: TableId,
        columns: InsertColumns,
        rows: InsertRows,
    },
    Update {
        table: TableId,
        settings: Items<Setting>,
        filter: Cond,
    },
    Delete {
        table: TableId,
        filter: Cond,
    },
}

/// A statement of a trigger's body.
#[derive(Drop)]
pub enum BodyStatement {
    Data(DataStatement),
    /// SIGNAL with its text.
    Signal(Text),
    /// SET of a column of the row variable NEW.
    Set(Setting),
}

/// A trigger ("Trigger definition").
#[derive(Drop)]
pub struct Trigger {
    pub id: TriggerId,
    pub name: Name,
    pub table: TableId,
    pub time: ActionTime,
    pub event: TriggerEvent,
    /// The columns of UPDATE OF, as places in the table from 0; empty if there is no list.
    pub columns: Items<u32>,
    pub granularity: Granularity,
    /// The condition of WHEN; `Always` if there is none.
    pub when: Cond,
    pub body: Items<BodyStatement>,
}

/// Which constraints SET CONSTRAINTS sets.
#[derive(Drop)]
pub enum ConstraintSet {
    /// All that are deferrable.
    All,
    /// These, in the order of the list.
    Named(Items<ConstraintId>),
}

/// A statement that changes the catalogue ("Table definition", "Add table constraint definition", "Trigger definition", "Drop trigger statement").
#[derive(Drop)]
pub enum SchemaPlan {
    CreateTable(Table, Constraints),
    AddConstraint(Constraint),
    CreateTrigger(Trigger),
    DropTrigger(TriggerId),
}

/// SELECT over the rows of a table ("Query specification").
#[derive(Drop)]
pub enum QueryPlan {
    Rows {
        table: TableId,
        outputs: Outputs,
        filter: Cond,
    },
    /// `COUNT(*)`.
    Count {
        table: TableId,
        filter: Cond,
    },
}

/// A statement of transaction management.
#[derive(Drop)]
pub enum TransactionPlan {
    Start,
    Commit,
    Rollback,
    Savepoint(Name),
    Release(Name),
    RollbackTo(Name),
    SetConstraints(ConstraintSet, ConstraintMode),
}

/// A statement with its names resolved.
#[derive(Drop)]
pub enum Plan {
    Schema(SchemaPlan),
    Change(DataStatement),
    Query(QueryPlan),
    Transaction(TransactionPlan),
}
