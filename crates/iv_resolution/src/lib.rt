//! Resolution: what every name of a statement means, and the one cause that a statement is refused for.
#![tactic(auto)]

mod origin;
mod worked;

pub use origin::Origin;
pub use worked::worked_statements;
