//! Statements about tables and rows, and the parts of statements.
#![tactic(auto)]

mod characteristics;
mod constraint;
mod inserting;
mod parts;
mod referencing;
mod repeated;
mod selecting;
mod table;
mod types;

pub use inserting::insert;
pub use parts::{Parse, ParseSome};
pub use repeated::{enclosed, sequence, series};
pub use selecting::{delete, select, update};
pub use table::{alter_table, create_table};
