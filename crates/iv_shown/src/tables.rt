//! The catalogue's tables and their columns, by their places.
ghost use Rattle.std.specs.Prelude.{◌≡◌, option_copied};
ghost use Rattle.iv_shown.specs.Catalogue.{column_at, column_name, columns_at, kind_shown, table_name};

use crate::connection::Connection;
use iv_catalogue::Column;
use iv_value::Kind;

/// How many tables, constraints and triggers there are.
#[repr(C)]
#[derive(Drop)]
pub struct ShownCatalogue {
    pub tables: u64,
    pub constraints: u64,
    pub triggers: u64,
}

/// The type of a column: 1 is INTEGER, 2 is VARCHAR with the most characters that a value may have.
#[repr(C)]
#[derive(Drop)]
pub struct ShownColumn {
    pub kind: u64,
    pub longest: u64,
}

pub fn columns_at(connection: &Connection, table: usize) -> Option<&[Column]>
    ensures { option_copied result ≡ columns_at connection.now.session.state.schema table }
{
    match connection.session.catalogue().tables().get(table) {
        Some(table) => Some(table.columns.as_slice()),
        None => None,
    }
}

pub fn table_name(connection: &Connection, table: usize) -> Option<&[u8]>
    ensures { option_copied result ≡ table_name connection.now.session.state.schema table }
{
    match connection.session.catalogue().tables().get(table) {
        Some(table) => Some(table.name.as_str().as_bytes()),
        None => None,
    }
}

pub fn column_at(connection: &Connection, table: usize, column: usize) -> Option<&Column>
    ensures { option_copied result ≡ column_at connection.now.session.state.schema table column }
{
    match columns_at(connection, table) {
        Some(columns) => columns.get(column),
        None => None,
    }
}

pub fn column_name(connection: &Connection, table: usize, column: usize) -> Option<&[u8]>
    ensures { option_copied result ≡ column_name connection.now.session.state.schema table column }
{
    match column_at(connection, table, column) {
        Some(column) => Some(column.name.as_str().as_bytes()),
        None => None,
    }
}

pub fn kind_shown(kind: Kind) -> ShownColumn
    ensures { result ≡ kind_shown kind }
{
    match kind {
        Kind::Integer => ShownColumn {
            kind: 1,
            longest: 0,
        },
        Kind::Varchar(longest) => ShownColumn {
            kind: 2,
            longest: longest as u64,
        },
    }
}
