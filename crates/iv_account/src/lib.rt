//! Accounts: what a statement tells of its run, and the list that records it.
#![tactic(auto)]

mod account;
mod entry;
mod equal;
mod failure;
mod fault;

pub use account::{Account, tells_failure};
pub use entry::{Disagreement, Entry, RowAction, SkippedView, TriggerView};
pub use failure::{EvaluatedFor, FailedEvaluation, Operator, RowAtHand, ValueFailure};
