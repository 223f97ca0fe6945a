//! The SQL machine: databases, violations, states, and what a statement answers and leaves.
#![tactic(auto)]

mod answer;
mod database;
mod effect;
mod laws;
mod limits;
mod scan;
mod wave;

pub use answer::Answer;
pub use database::{Database, Which};
pub use effect::Effect;
pub use laws::one_change_sets_a_row;
pub use limits::{
    FEWEST_CHANGES_IN_A_STATEMENT, GREATEST_DEPTH, LAST_ROW_NUMBER, LEAST_DEPTH, Limits,
    MOST_CHANGES_IN_A_STATEMENT, MOST_CHANGES_IN_A_TRANSACTION,
};
pub use scan::{count_faults, first_fault_of, first_violating, list_faults, satisfies};
pub use wave::database_after;
