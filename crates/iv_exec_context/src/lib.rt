//! What a data statement runs under, conditions that take effect, values that are stored in columns, and what failed
//! where a statement is refused for a number or a text.
#![tactic(auto)]

mod context;
mod failures;
mod triggered;
mod values;

pub use context::Context;
pub use failures::{tell_proposal, tell_query, tell_set, tell_when};
pub use values::{holds, stored_copy, stored_value};
