//! Why resolution refuses a statement, as values: the rule of definitions that it breaks, for SchemaFault; what doesn't
//! suit, for WrongShape; the limit that it is beyond, for Limit.
#![tactic(auto)]

mod allowed;
mod changes;
mod checks;
mod definitions;
mod laws;
mod limits;
mod reason;
mod references;
mod rule;
mod schema_faults;
mod scope;
mod shape;
mod shapes;
mod target;
mod terms;
mod triggers;
mod tuples;
mod worked;

pub use laws::{
    limit_faults_are_told, rules_are_so, schema_faults_are_told, shapes_are_so, shapes_are_told,
};
pub use limits::{LimitFault, limit_fault};
pub use reason::{Reason, refusal_reason};
pub use rule::{ReferenceFault, SchemaFault};
pub use schema_faults::schema_fault;
pub use shape::ShapeFault;
pub use shapes::shape_fault;
pub use worked::{worked_limits, worked_rules, worked_shapes};
