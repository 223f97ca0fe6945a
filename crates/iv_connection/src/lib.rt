//! What a connection of the library for C does and answers: statements and scripts that are read and run, the last outcome in words, the
//! rows of a query, transactions and dumps.
#![tactic(auto)]

mod bound_values;
mod conditions;
mod dumps;
mod faults;
mod kinds;
mod messages;
mod outcomes;
mod queries;
mod results;
mod scripts;
mod sessions;
mod statements;
mod summary;
mod template_faults;
mod templates;
mod transactions;

pub use bound_values::{bind, bind_text};
pub use conditions::constraint_condition;
pub use dumps::{dump_script, keep_dump};
pub use faults::{ShownFault, fault_shown};
pub use kinds::{DATA, QUERY, SCHEMA, TRANSACTION, kind_of};
pub use messages::message;
pub use outcomes::{CHANGED, DONE, REFUSED, ROWS, ShownOutcome, outcome_shown};
pub use queries::{query_column, query_columns};
pub use results::{QueryResult, ShownResult, result_column, result_shown, take_result};
pub use scripts::{run_kept, run_status};
pub use sessions::new_connection;
pub use statements::{
    ParsedText, ReadScript, execute_kept, executed, keep_lines, keep_parsed, parse_text, read_shown,
};
pub use summary::{RunSummary, summary_shown};
pub use templates::parse_template;
pub use transactions::{ShownWork, commit_kept};
