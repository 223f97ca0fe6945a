//! Accounts and what is pending, as text and as JSON.
#![tactic(auto)]

mod account;
mod addition;
mod check;
mod conflict;
mod failure;
mod json_account;
mod json_action;
mod json_addition;
mod json_conflict;
mod json_failure;
mod json_rule;
mod json_standing;
mod json_way;
mod pending;
mod standing;

pub use account::write_account;
pub use json_account::write_json_account;
pub use pending::{write_pending_lines, write_pending_members};
