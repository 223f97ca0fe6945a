//! Names of columns, ranges and tables where they are written: what value expressions and search conditions are refused for, and
//! what they mean.
#![tactic(auto)]

mod binding;
mod column_index;
mod columns;
mod kinds;
mod lists;
mod name_set;
mod names;
mod outside;
mod ranges;
mod referencing;
mod referencing_index;

pub use binding::{bound_condition, bound_expression, bound_filter, integer_of};
pub use column_index::{ColumnIndex, FirstColumn};
pub use columns::Columns;
pub use kinds::{
    clashes_with, has_exists, is_integer_type, is_text_type, kinds_clash, misshaped_condition,
    misshaped_expression, misshaped_filter,
};
pub use lists::places_of;
pub use name_set::NameSet;
pub use names::{
    Created, FromSource, Names, inside, is_source, source_columns, source_named, source_range,
    stored_columns, table_place,
};
pub use outside::table_names;
pub use ranges::{Found, Ranges, column_meant};
pub use referencing::ReferencingItems;
pub use referencing_index::ReferencingIndex;
