//! What failed where a number is out of range or a text is too long.
use iv_catalogue::TriggerId;
use iv_expr::{Row, StoredRow, TableId};

/// An arithmetic operator. A sign is no operator of its own: `-x` is 0 minus x.
#[derive(Clone, Copy, Debug, PartialEq, Eq)]
pub enum Operator {
    Plus,
    Minus,
    Times,
}

/// Why a value can't be made or stored.
#[derive(Clone, Copy, Debug, PartialEq, Eq)]
pub enum ValueFailure {
    /// The result of an operation on two numbers is no INTEGER.
    OutOfRange {
        left: i64,
        operator: Operator,
        right: i64,
    },
    /// A text has more characters than its column holds.
    TooLong {
        /// How many characters a text of the column may have.
        most: u16,
        /// How many the text has.
        length: u64,
    },
}

/// The row at which something was evaluated.
#[derive(Drop)]
pub enum RowAtHand {
    /// A row that is looked at or changed.
    Row(StoredRow),
    /// A row from which an INSERT takes its values.
    Source(StoredRow),
    /// No row of a table: OLD and NEW, as far as they are there.
    Variables { old: Option<Row>, new: Option<Row> },
}

/// What something was evaluated for.
#[derive(Clone, Copy, Debug, PartialEq, Eq)]
pub enum EvaluatedFor {
    /// The value of a column, by its table and its place there, from 0.
    Column(TableId, u64),
    /// The item at a place of the list of a SELECT, from 1.
    Item(u64),
    /// The WHERE of a statement.
    Where,
    /// The WHEN of a trigger.
    When(TriggerId),
}

/// What failed, what it was evaluated for, and the row at hand.
#[derive(Drop)]
pub struct FailedEvaluation {
    pub row: RowAtHand,
    pub part: EvaluatedFor,
    pub failure: ValueFailure,
}
