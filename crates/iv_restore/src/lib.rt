//! A dump that was run in a database of its own, and is the same there.
#![tactic(auto)]

mod comparing;
mod conditions;
mod dumping;
mod running;
mod same;
mod same_tables;
mod same_trees;
mod same_triggers;

pub use conditions::is_read_as;
pub use dumping::checked_dump;
pub use iv_dump::DumpRefusal;
