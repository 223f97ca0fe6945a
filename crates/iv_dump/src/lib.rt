//! A database as scripts that make it again.
#![tactic(auto)]

mod batches;
mod constraints;
mod dumping;
pub mod laws;
mod parts;
mod queries;
mod refusal;
mod scripts;

pub use constraints::{has_null_after_key, others, own_keys};
pub use dumping::dump;
pub use refusal::DumpRefusal;
