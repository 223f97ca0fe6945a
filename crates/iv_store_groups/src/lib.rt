//! The rows of each key of each constraint, found by the key.
#![tactic(auto)]

mod counted_groups;
mod group;
mod group_key;
mod group_rows;
mod groups;
mod hand;
mod hash_index;
mod indexes;
mod key_index;
mod laws;

pub use counted_groups::CountedGroups;
pub use groups::Groups;
pub use hand::Place;
pub use indexes::FoundGroup;
pub use laws::{groups_are_a_map, groups_are_given_back, groups_are_undone};
