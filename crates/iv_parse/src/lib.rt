//! Triggers, transactions and scripts.
#![tactic(auto)]

mod action;
pub mod laws;
mod parser;
mod session;
mod statement;
mod trigger;

pub use parser::{Parsed, SyntaxFault, script};
