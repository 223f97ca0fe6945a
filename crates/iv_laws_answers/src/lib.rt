//! Laws of answers and of what is read: no statement is answered by OutOfMemory, only resolution refuses for a wrong shape, and a text has no other statements.
#![tactic(auto)]

mod accounts;
mod laws;
mod writable;

pub use accounts::{
    accounts_lead_on, accounts_tell_violations, all_that_begins_ends, failures_are_found,
    refused_additions_are_told, standing_savepoints_are_told,
};
pub use laws::{
    answers_want_no_memory, checks_are_well_typed, data_statements_want_no_memory,
    evaluation_wants_no_memory, queries_are_well_typed, reached_states_fit,
    wrong_shapes_are_of_resolution,
};
pub use writable::statements_are_writable;
