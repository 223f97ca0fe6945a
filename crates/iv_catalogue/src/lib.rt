//! The catalogue: tables, constraints and triggers in creation order; why a statement is refused; and plans, which are
//! statements with every name resolved.
#![tactic(auto)]

mod catalogue;
mod cause;
mod constraint;
mod copies;
mod limits;
mod name_index;
mod named_list;
mod number;
mod plan;

pub use catalogue::{Catalogue, Column, Table};
pub use cause::{Cause, Fault, Refusal};
pub use constraint::{Constraint, Constraints, ForeignKey, Rule};
pub use copies::{copy_constraint, copy_constraints, copy_foreign_key, copy_table};
pub use limits::{
    MOST_BODY_STATEMENTS, MOST_CHARACTERS, MOST_COLUMNS, MOST_CONSTRAINTS, MOST_KEY_COLUMNS,
    MOST_TABLES, MOST_TRIGGERS, MOST_TRIGGERS_EVER,
};
pub use number::{ConstraintId, OfConstraint, OfTrigger, TriggerId};
pub use plan::{
    BodyStatement, ConstraintSet, DataStatement, InsertColumns, InsertRows, Outputs, Plan,
    QueryPlan, SchemaPlan, Setting, TransactionPlan, Trigger,
};
