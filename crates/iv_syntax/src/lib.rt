//! The syntax tree: statements as they are written, with every name folded to upper case.
#![tactic(auto)]

mod limits;
mod name;
mod statement;
mod table;
mod tree;
mod trigger;

pub use limits::{DEEPEST_TREE, GREATEST_INTEGER, LONGEST_NAME};
pub use name::{Name, Named};
pub use statement::{
    Assignment, ConstraintList, ConstraintMode, Delete, Insert, InsertSource, Select, SelectList,
    Statement, Update, ValueOrDefault,
};
pub use table::{
    ColumnConstraint, ColumnDefinition, ColumnRule, ColumnType, ConstraintTime, Literal, MatchType,
    NullTreatment, References, ReferentialAction, TableConstraint, TableElement, TableRule,
};
pub use tree::{ColumnName, Condition, Expression, RangeName, Sign};
pub use trigger::{
    ActionTime, Granularity, Referencing, TransitionName, TriggerAction, TriggerDefinition,
    TriggerEvent,
};
