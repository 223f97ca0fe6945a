//! What is told of a refused statement besides its cause: the name at fault, or the reason. And the columns of a query.
#![tactic(auto)]

mod columns;
mod counts;
mod explaining;
mod expressions;
mod json;
mod json_name;
mod limits;
mod line;
mod names;
mod parts;
mod reasons;
mod references;
mod rules;
mod sentences;
mod shapes;
mod words;
mod worked;

pub use columns::{write_columns_line, write_columns_member};
pub use explaining::{Explanation, Why, explained};
pub use json::write_explained_member;
pub use line::write_explained_line;
pub use worked::{
    worked_causes, worked_columns, worked_limits, worked_names, worked_rules, worked_shapes,
};
