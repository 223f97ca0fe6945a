//! Referential actions: the wave that follows from a wave.
#![tactic(auto)]

mod acting;
mod affected;
mod by_table;
mod change;
mod conflict;
mod disagreement;
mod effect;
mod finding;
mod next;
mod restrict;
mod row;
mod setting;

pub use acting::{row_actions, row_then};
pub use disagreement::disagreement_at;
pub use next::next_wave;
