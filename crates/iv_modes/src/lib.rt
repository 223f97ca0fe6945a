//! The modes of constraints, as SET CONSTRAINTS sets them.
#![tactic(auto)]

mod modes;

pub use modes::{Modes, NotDeferrable};
