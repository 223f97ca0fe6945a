//! The state of a session: one database in memory, its catalogue, and the transaction that is open.
#![tactic(auto)]

mod adding;
mod changes;
mod deferring;
mod performing;
mod queries;
mod savepoint_list;
mod savepoints;
mod schema;
mod session_state;
mod telling;
mod transactions;

pub use changes::DataStatements;
pub use session_state::{SessionState, Work};
