//! Databases, and which constraints a scan takes.
use iv_expr::StoredRow;
use sqlite_items::Items;

/// The rows of all tables in rising number, each with its table; the number that the next new row takes,
/// from 1; and how many row changes the open transaction has.
#[derive(Drop)]
pub struct Database {
    pub rows: Items<StoredRow>,
    pub next: u64,
    pub count: u64,
}

/// Which constraints: those whose mode is immediate, those whose mode is deferred, or all.
#[derive(Clone, Copy, Debug, PartialEq, Eq)]
pub enum Which {
    Immediate,
    Deferred,
    All,
}
