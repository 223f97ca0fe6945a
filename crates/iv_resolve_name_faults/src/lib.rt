//! The names at fault: the first that names nothing, and the first that is in use or comes twice.
#![tactic(auto)]

mod again;
mod catalogued;
mod changes;
mod columns_again;
mod constraints_again;
mod duplicates;
mod faults;
mod item;
mod laws;
mod lists;
mod tables;
mod terms;
mod triggers;
mod unknown;

pub use faults::{duplicate_name, name_fault};
pub use item::{NameFault, NamedItem};
pub use laws::refusals_are_told;
pub use unknown::unknown_name;
