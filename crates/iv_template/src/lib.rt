//! Templates: texts with question marks in place of literals, filled with values.
#![tactic(auto)]

mod counting;
mod fault;
mod filling;
mod holes;
pub mod laws;
mod places;
mod writing;

pub use fault::FillFault;
pub use filling::filled;
pub use places::{blanked, template_place};
