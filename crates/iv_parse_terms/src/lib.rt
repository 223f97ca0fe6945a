//! Value expressions and search conditions at the front of tokens.
#![tactic(auto)]

mod condition;
mod condition_part;
mod cursor;
mod expression;
mod expression_part;
mod from;
mod item;
mod laws;
mod make;
mod predicate;
mod stop;
mod wanted;
mod word;

pub use condition::{read_condition, read_from};
pub use cursor::Cursor;
pub use expression::read_expression;
pub use laws::{condition_laws, expression_laws, from_laws};
pub use stop::Stop;
pub use wanted::{MOST_WANTED, Wanted};
