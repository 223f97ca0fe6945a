//! CREATE TABLE and ALTER TABLE: constraints as written, the table that they are on, its keys, what these statements are
//! refused for except for the names in them, and their plans.
#![tactic(auto)]

mod altered;
mod characteristics;
mod columns_bound;
mod constraint_names;
mod defaults;
mod faulty;
mod finding;
mod key_sets;
mod keys;
mod limits;
mod misshaped;
mod own;
mod own_keys;
mod plan;
mod primary;
mod references;
mod unread;
mod written;

pub use characteristics::{initial_mode, is_contradictory, is_deferrable};
pub use constraint_names::{are_same, constraint_name, generated, is_named};
pub use faulty::{faulty_addition, faulty_table};
pub use finding::{has_reliable_key, primary_key};
pub use key_sets::{KeySets, has_set, reliable_sets};
pub use keys::{KeyColumns, TableKey};
pub use limits::{addition_beyond_limits, table_beyond_limits};
pub use misshaped::{misshaped_addition, misshaped_table};
pub use own::{Own, count_stored, own_columns, own_name, own_names, own_range, referenced};
pub use plan::{bound_alteration, bound_table};
pub use unread::{Unread, count_constraints, count_element};
pub use written::{WrittenConstraint, WrittenRule, column_constraint, table_constraint};
