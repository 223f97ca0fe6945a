//! What a connection of the library for C holds, and how its catalogue, rows, violations, account and texts are shown in numbers and
//! bytes.
#![tactic(auto)]

mod accounts;
mod cell;
mod connection;
mod constraints;
mod copying;
mod places;
mod row_buffers;
mod rows;
mod status;
mod stored_rows;
mod tables;
mod texts;
mod triggers;
mod violations;

pub use accounts::{
    ShownDisagreement, ShownEntry, ShownItem, copy_text, disagreement_at, disagreement_shown,
    entry_at, entry_name_at, entry_shown, entry_trigger_at, item_at, item_value, seen_value,
    set_value, write_value,
};
pub use cell::{Cell, cell_of, text_of};
pub use connection::{Connection, Database};
pub use constraints::{
    ShownConstraint, constraint_at, constraint_column, constraint_name, constraint_shown, mode_at,
    referenced_column, write_place,
};
pub use copying::{copied, copied_if_there};
pub use places::{SourceText, StatementPlace, statement_place};
pub use row_buffers::TakenRows;
pub use rows::{copy_rows_from, copy_rows_of, rows_of, value_at};
pub use status::{
    CLOSED, IN_TRANSACTION, LIMITS, NO_MEMORY, NO_TEMPLATE, NOT_RESTORED, NOT_UTF8, NOTHING, OK,
    OPEN, TOO_LONG, WRONG_COUNT,
};
pub use stored_rows::{ShownStoredRow, stored_row, stored_row_shown, stored_value};
pub use tables::{
    ShownCatalogue, ShownColumn, column_at, column_name, columns_at, kind_shown, table_name,
};
pub use texts::{
    constraint_named, last_constraint, last_signal, last_trigger, signal_of, trigger_named,
};
pub use triggers::{ShownTrigger, trigger_at, trigger_column, trigger_name, trigger_shown};
pub use violations::{ShownViolation, keep_pending, violation_shown, violation_value};
