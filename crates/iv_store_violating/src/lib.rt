//! Which groups of keys violate their constraint, and the first, the count and the list of the violations.
#![tactic(auto)]

mod chosen;
mod count;
mod first;
mod group_flags;
mod laws;
mod list;
mod rows;
mod violating_groups;

pub use laws::shown_groups_are_apart;
pub use violating_groups::ViolatingGroups;
