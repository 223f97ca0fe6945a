//! The parts of CREATE TRIGGER.
use crate::name::{Name, Named};
use crate::statement::{Delete, Insert, Update};
use crate::tree::{Condition, Expression};
use iv_expr::Side;
use iv_value::Text;
use sqlite_items::Items;

#[derive(Clone, Copy, Debug, PartialEq, Eq)]
pub enum ActionTime {
    Before,
    After,
}

#[derive(Clone, Copy, Debug, PartialEq, Eq)]
pub enum TriggerEvent {
    Insert,
    Update,
    Delete,
}

#[derive(Clone, Copy, Debug, PartialEq, Eq)]
pub enum Granularity {
    Row,
    Statement,
}

/// Whether an item of REFERENCING names a row variable or a transition table.
#[derive(Clone, Copy, Debug, PartialEq, Eq)]
pub enum TransitionName {
    Row,
    Table,
}

/// An item of REFERENCING.
#[derive(Drop)]
pub struct Referencing {
    pub side: Side,
    pub what: TransitionName,
    pub name: Name,
}

impl Named for Referencing {
    ghost named = { λ i. i.name };

    fn name(&self) -> &str {
        self.name.as_str()
    }
}

/// A statement of a trigger's body.
#[derive(Drop)]
pub enum TriggerAction {
    Insert(Insert),
    Update(Update),
    Delete(Delete),
    Signal(Text),
    /// SET of a row variable's column: the variable, the column, the value.
    Set(Name, Name, Expression),
}

#[derive(Drop)]
pub struct TriggerDefinition {
    pub name: Name,
    pub time: ActionTime,
    pub event: TriggerEvent,
    /// The columns of UPDATE OF; empty if there is no list.
    pub columns: Items<Name>,
    pub table: Name,
    pub referencing: Items<Referencing>,
    /// STATEMENT if it is not written.
    pub granularity: Granularity,
    pub when: Option<Condition>,
    pub body: Items<TriggerAction>,
}
