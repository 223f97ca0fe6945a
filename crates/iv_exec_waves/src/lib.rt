//! The waves of a data statement: they are applied to a store one after another until nothing follows.
#![tactic(auto)]

mod applying;
mod entering;
mod following;
mod numbering;
mod settling;

pub use settling::settle;
