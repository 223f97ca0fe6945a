//! What a catalogue has, as statements again: conditions of CHECKs, tables, constraints, rows and triggers as trees.
#![tactic(auto)]

mod check;
mod columns;
mod condition;
mod constraints;
mod data;
mod expression;
pub mod laws;
mod naming;
mod parentheses;
mod rows;
mod scope;
mod tables;
mod triggers;
mod uses;

pub use check::check_condition;
pub use rows::insert_rows;
pub use tables::{add_constraint, create_table};
pub use triggers::{create_trigger, stem_of};
