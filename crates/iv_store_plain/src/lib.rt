//! A store of rows that keeps lists, copies and scans.
#![tactic(auto)]

mod database;
mod place;
mod plain;
mod referencing;
mod touched;

pub use plain::PlainStore;
