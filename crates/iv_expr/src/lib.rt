//! Expressions and conditions with every name resolved, and the rows that they are evaluated over.
#![tactic(auto)]

mod asking;
mod condition;
mod expression;
mod fitting;
mod kinds;
mod number;
mod operators;
mod row;
mod scope;
mod search;
mod sorts;
mod tree;
mod two_trees;
mod wave;
mod worked;

pub use condition::{check_truth, truth, truth_at_row};
pub use expression::{eval, eval_ref};
pub use fitting::fits;
pub use number::{Id, OfTable, TableId};
pub use row::{Change, Row, StoredRow};
pub use scope::{Frame, Ranges, Rows, Scope, TableKinds};
pub use search::Search;
pub use tree::{Comparison, Cond, Expr, ExprFault, Range, Side};
pub use two_trees::boxes;
pub use wave::{TableColumn, Wave, names_column};
pub use worked::worked_values;
