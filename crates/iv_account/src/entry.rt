//! The entries of an account.
use crate::failure::FailedEvaluation;
use iv_catalogue::{Constraint, ConstraintId, Fault, TriggerId};
use iv_expr::{Change, Row, StoredRow, TableId};
use iv_syntax::{Name, ReferentialAction};
use iv_value::{Truth, Value};
use sqlite_items::Items;

/// A referential action on a row whose referenced key was deleted or updated.
#[derive(Clone, Copy, Debug, PartialEq, Eq)]
pub struct RowAction {
    pub constraint: ConstraintId,
    pub action: ReferentialAction,
    pub table: TableId,
    /// The number of the row on which it acts.
    pub row: u64,
}

/// What a trigger saw: OLD and NEW for a row trigger, as far as they are there, and otherwise the changes of its
/// transition tables.
#[derive(Drop)]
pub struct TriggerView {
    pub old: Option<Row>,
    pub new: Option<Row>,
    pub transition: Items<Change>,
}

/// What a trigger saw whose body doesn't run: OLD and NEW for a row trigger, as far as they are there, and the truth of
/// its WHEN, which is false or unknown.
#[derive(Drop)]
pub struct SkippedView {
    pub old: Option<Row>,
    pub new: Option<Row>,
    pub when: Truth,
}

/// How two foreign keys disagree about a row: the first column that they set to different values. The later of them is
/// the one for which the statement is refused.
#[derive(Drop)]
pub struct Disagreement {
    /// The foreign key that was created first.
    pub earlier: ConstraintId,
    pub column: u32,
    /// What the earlier foreign key sets the column to.
    pub earlier_value: Value,
    /// What the later foreign key sets it to.
    pub value: Value,
}

/// One entry of an account, in the order in which things happened.
#[derive(Drop)]
pub enum Entry {
    /// A wave: changes that were made together, by rising row number.
    Changed(Items<Change>),
    /// The referential actions caused by the previous wave. Their effects are the next wave.
    Acted(Items<RowAction>),
    /// A trigger whose WHEN was true of what it saw, so that its body runs.
    Ran(TriggerId, TriggerView),
    /// A trigger whose WHEN was false or unknown of what it saw, so that its body doesn't run.
    Skipped(TriggerId, SkippedView),
    /// The data statement at this place of the body, from 1, begins. The entries up to its `Ended` are its own.
    Began(u32),
    /// The data statement that began last and hasn't ended ends. A refused one has no end.
    Ended,
    /// The constraint and the row that the statement is refused for: the row, and, if the constraint is a key, the
    /// first other row with the same key.
    Faulted(Fault, Items<StoredRow>),
    /// The later of two foreign keys that disagree about a row, the row as it was before the wave, and how they disagree.
    Disagreed(Fault, Items<StoredRow>, Disagreement),
    /// What failed, where the statement is refused because a number is out of range or a text is too long.
    Failed(FailedEvaluation),
    /// The savepoints that stand, the earliest first, where the statement names one that isn't there.
    Standing(Items<Name>),
    /// The constraint that isn't added and the row that it is refused for: the row, and, if the constraint is a key, the
    /// first other row with the same key. The catalogue doesn't have the constraint.
    NotAdded(Constraint, Items<StoredRow>),
}
