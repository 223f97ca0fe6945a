//! What failed where a number is out of range or a text is too long: a second walk finds it for an account.
mod condition;
mod expression;
mod hands;
mod insertions;
mod proposal;
mod query;
mod telling;
mod trigger;
mod values;
mod wheres;

pub use telling::{tell_proposal, tell_query, tell_set, tell_when};
