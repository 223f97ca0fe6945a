//! A database that goes back to marks by a journal, with its rows in slots.
#![tactic(auto)]

mod journal;
mod look;
mod marked_point;
mod numbers;
mod place;
mod set;
mod slot;
mod slots;
mod stored;
mod versions;

pub use journal::Journal;
pub use marked_point::MarkedPoint;
pub use versions::Versions;
