//! Worked statements and scripts: what each statement deserves to be refused for, and what the machine answers to lists
//! of statements, as contracts of functions that do nothing.
#![tactic(auto)]

mod laws;

pub use laws::{worked_scripts, worked_statements};
