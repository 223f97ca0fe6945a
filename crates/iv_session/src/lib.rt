//! A session: statements are resolved, and do what they mean to the session's state.
#![tactic(auto)]

mod executing;
mod executor;
mod levels;
mod session;

pub use iv_machine::{Answer, Limits};
pub use iv_state::Work;
pub use iv_step::Outcome;
pub use session::Session;
