//! Kept violations: which groups of each constraint violate it, followed change by change.
#![tactic(auto)]

mod faults;
mod filling;
mod laws;
mod naming;
mod table_constraints;
mod watching;

pub use faults::Faults;
pub use laws::{room_suffices, shown_rows_are_present};
