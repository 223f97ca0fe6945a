//! Trees written as SQL text.
#![tactic(auto, using(crate::proofs::WriteLemmas::writes_then))]

mod characteristics;
mod condition;
mod data;
mod expression;
mod keyword;
pub mod laws;
mod layout;
mod parts;
mod quoting;
mod referencing;
mod script;
mod statement;
mod table;
mod texts;
mod trigger;
mod writer;

pub use script::{write_script, write_statement};
pub use texts::{write_condition, write_expression};
