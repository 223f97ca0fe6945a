//! A store of rows with groups of keys, kept violations and a journal.
#![tactic(auto)]

mod adding;
mod changing;
mod kinds;
mod referencing;
mod searching;
mod store;

pub use store::IndexStore;
