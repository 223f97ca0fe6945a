//! What INSERT, UPDATE, DELETE and SELECT find in a store, and what they make of it.
#![tactic(auto)]

mod finding;
mod inserting;
mod laws;
mod making;
mod proposing;
mod selecting;
mod updating;

pub use laws::queries_select;
pub use proposing::proposed;
pub use selecting::select;
