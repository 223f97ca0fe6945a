//! What statements answer by their resolution, one after another: `step` and `run` of the definitions, the trait of
//! what executes statements by them, and laws of the states that runs reach.
#![tactic(auto)]

mod executor;
mod laws;

pub use executor::{Executor, Outcome, is_memory_refused};
pub use laws::{
    differences_lead, plans_keep_the_occasion, reached_states_are_sound, refusals_change_nothing,
    worked_scripts,
};
