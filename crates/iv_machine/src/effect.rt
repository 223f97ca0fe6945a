//! What a referential action does to a row.
use iv_value::Value;
use sqlite_items::Items;

/// What a referential action does to a referencing row ("Referential constraint definition").
#[derive(Drop)]
pub enum Effect {
    DeleteRow,
    /// Columns, by their places, with the values that they take.
    SetColumns(Items<(u32, Value)>),
}
