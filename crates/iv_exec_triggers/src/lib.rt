//! BEFORE triggers, what a data statement changes on the whole, and which AFTER triggers fire on it.
#![tactic(auto)]

mod before;
mod by_table;
mod columns;
mod columns_of_level;
mod fire;
mod firing_at_all;
mod laws;
mod matching;
mod net;
mod when;

pub use before::{before_rows, before_statement};
pub use by_table::{Transitions, transitions_of};
pub use columns::{is_on_columns, is_on_set_columns, set_columns};
pub use columns_of_level::level_columns;
pub use fire::{Fires, firings};
pub use firing_at_all::may_fire;
pub use laws::{firings_are_by_name, firings_are_the_machines};
pub use matching::{event_of, event_of_change, is_on, table_of};
pub use net::transitions;
pub use when::{is_true, truth_of_when};
