//! Plans of statements that deserve no cause fit the tables that they are of.
#![tactic(auto)]

mod laws;
mod naming;

pub use laws::{plans_fit, proposals_are_well_typed, schemas_suit};
pub use naming::names_are_found;
