//! What an accepted statement answers.
use iv_expr::Row;
use sqlite_items::Items;

/// The answer to an accepted statement.
#[derive(Drop)]
pub enum Answer {
    Done,
    /// The number of rows that a data statement inserted, updated or deleted, without those that follow from it.
    Changed(u64),
    /// The rows of a SELECT, by row number.
    Rows(Items<Row>),
}
