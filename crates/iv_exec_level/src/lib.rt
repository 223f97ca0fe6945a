//! A data statement with all that follows from it: a level.
#![tactic(auto)]

mod lent;
mod level;
mod start;

pub use level::change;
