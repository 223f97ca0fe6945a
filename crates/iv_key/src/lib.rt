//! Keys: the values of some columns of a row, borrowed.
#![tactic(auto)]

mod hash;
mod key;
mod single_value;

pub use key::{Key, value_at};
pub use single_value::single;
