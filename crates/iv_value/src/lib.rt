//! Values of SQL: nulls, integers and texts; truth values; the kinds of columns.
#![tactic(auto)]

mod arithmetic;
mod fitting;
mod logic;
mod order;
mod shared_text;
mod value;
mod worked;

pub use arithmetic::{minus, plus, times};
pub use fitting::fit;
pub use order::{compare, same};
pub use shared_text::Text;
pub use value::{Fit, Kind, Truth, Value, ValueRef, text};
pub use worked::worked_values;
