//! A slot for a row.
use iv_expr::StoredRow;

/// A row, and whether it is there: a removed row stays in its slot.
#[derive(Drop)]
pub struct Slot {
    pub row: StoredRow,
    pub is_live: bool,
}
