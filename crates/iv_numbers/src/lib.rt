//! Row numbers in rising order, with room for more.
#![tactic(auto)]

mod capacity;
mod gap_layout;
mod held_rows;
mod row_numbers;
mod searching;

pub use capacity::give_room_back;
pub use held_rows::HeldRows;
pub use row_numbers::RowNumbers;
