//! INSERT, UPDATE, DELETE, SELECT and CREATE TRIGGER: values that don't suit their columns, what a trigger may have, and
//! the plans of these statements.
#![tactic(auto)]

mod allowed;
mod binding;
mod bound_triggers;
mod misshaped;
mod misshaped_triggers;
mod names;
mod targets;

pub use allowed::faulty_trigger;
pub use binding::{bound_delete, bound_insert, bound_select, bound_update, table_id};
pub use bound_triggers::bound_trigger;
pub use misshaped::{misshaped_delete, misshaped_insert, misshaped_select, misshaped_update};
pub use misshaped_triggers::misshaped_trigger;
pub use names::{names_among, subject, trigger_names, variable_named, variables};
pub use targets::Targets;
