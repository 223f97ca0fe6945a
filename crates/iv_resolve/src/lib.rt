//! What a statement means in a catalogue, or the one cause that it is refused for.
#![tactic(auto)]

mod faulty;
mod limits;
mod misshaped;
mod names;
mod planning;
mod resolving;
mod statements;
mod tables;
mod terms;
mod triggers;

pub use resolving::resolve;
pub use statements::is_writable;
