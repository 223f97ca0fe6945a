//! The catalogue's tables and their columns, by their places.
ghost use Rattle.std.specs.Prelude.{◌≡◌, ◌≢◌, length, IfSome};
ghost use Rattle.iv_shown.specs.Catalogue.{catalogue_shown, column_at, column_name, columns_at, kind_shown, table_name};
ghost use Rattle.iv_shown.specs.Copying.{Copies};
ghost use Rattle.iv_shown.specs.Cells.{text_of, cell_of};
ghost use Rattle.iv_shown.specs.Statuses.{found};
ghost use Rattle.sqlkeep_c.specs.Statuses.{status_by, status_if_open};

use crate::handle::{Handle, put, take};
use iv_shown::{
    CLOSED, Cell, NOTHING, OK, ShownCatalogue, ShownColumn, cell_of, column_at, column_name,
    columns_at, copied, copied_if_there, kind_shown, table_name, text_of,
};
use std::alloc::Global;

/// How many tables, constraints and triggers there are.
#[unsafe(no_mangle)]
pub extern "C" fn sqlkeep_catalogue(
    alloc: Global,
    handle: &mut Handle,
    counts: &mut ShownCatalogue,
) -> u32
    ensures counts { IfSome handle.old.kept.behind (λ old. counts.new ≡ catalogue_shown old.session.state.schema) }
    ensures kept { handle.new.kept.behind ≡ handle.old.kept.behind }
    ensures others { result ≢ OK → counts.new ≡ counts.old }
    ensures status { result ≡ status_if_open handle.old.kept.behind }
{
    let Some(connection) = take(handle, alloc) else {
        return CLOSED;
    };
    let catalogue = connection.session.catalogue();
    *counts = ShownCatalogue {
        tables: catalogue.tables().len() as u64,
        constraints: catalogue.constraints().len() as u64,
        triggers: catalogue.triggers().len() as u64,
    };
    put(handle, connection);
    OK
}

/// How many columns the table at this place has.
#[unsafe(no_mangle)]
pub extern "C" fn sqlkeep_table(
    alloc: Global,
    handle: &mut Handle,
    table: usize,
    columns: &mut usize,
) -> u32
    ensures columns { IfSome handle.old.kept.behind (λ old. IfSome (columns_at old.session.state.schema table) (λ all.
        columns.new ≡ length all)) }
    ensures kept { handle.new.kept.behind ≡ handle.old.kept.behind }
    ensures others { result ≢ OK → columns.new ≡ columns.old }
    ensures status { result
        ≡ status_by (λ old. found (columns_at old.session.state.schema table)) handle.old.kept.behind }
{
    let Some(connection) = take(handle, alloc) else {
        return CLOSED;
    };
    let status = match columns_at(&connection, table) {
        Some(all) => {
            *columns = all.len();
            OK
        }
        None => NOTHING,
    };
    put(handle, connection);
    status
}

/// Copies the name of the table at this place.
#[unsafe(no_mangle)]
pub extern "C" fn sqlkeep_table_name(
    alloc: Global,
    handle: &mut Handle,
    table: usize,
    from: usize,
    buffer: &mut [u8],
    count: &mut usize,
) -> u32
    ensures bytes { IfSome handle.old.kept.behind (λ old. IfSome (table_name old.session.state.schema table) (λ name.
        Copies from name buffer.old buffer.new count.new)) }
    ensures kept { handle.new.kept.behind ≡ handle.old.kept.behind }
    ensures others { result ≢ OK → (buffer.new ≡ buffer.old) × (count.new ≡ count.old) }
    ensures status { result
        ≡ status_by (λ old. found (table_name old.session.state.schema table)) handle.old.kept.behind }
{
    let Some(connection) = take(handle, alloc) else {
        return CLOSED;
    };
    let status = copied_if_there(table_name(&connection, table), from, buffer, count);
    put(handle, connection);
    status
}

/// The type of a column of the table at this place.
#[unsafe(no_mangle)]
pub extern "C" fn sqlkeep_column(
    alloc: Global,
    handle: &mut Handle,
    table: usize,
    column: usize,
    kind: &mut ShownColumn,
) -> u32
    ensures kind { IfSome handle.old.kept.behind (λ old. IfSome (column_at old.session.state.schema table column) (λ it.
        kind.new ≡ kind_shown it.kind)) }
    ensures kept { handle.new.kept.behind ≡ handle.old.kept.behind }
    ensures others { result ≢ OK → kind.new ≡ kind.old }
    ensures status { result
        ≡ status_by (λ old. found (column_at old.session.state.schema table column)) handle.old.kept.behind }
{
    let Some(connection) = take(handle, alloc) else {
        return CLOSED;
    };
    let status = match column_at(&connection, table, column) {
        Some(it) => {
            *kind = kind_shown(it.kind);
            OK
        }
        None => NOTHING,
    };
    put(handle, connection);
    status
}

/// Copies the name of a column of the table at this place.
#[unsafe(no_mangle)]
pub extern "C" fn sqlkeep_column_name(
    alloc: Global,
    handle: &mut Handle,
    table: usize,
    column: usize,
    from: usize,
    buffer: &mut [u8],
    count: &mut usize,
) -> u32
    ensures bytes { IfSome handle.old.kept.behind (λ old. IfSome (column_name old.session.state.schema table column) (λ name.
        Copies from name buffer.old buffer.new count.new)) }
    ensures kept { handle.new.kept.behind ≡ handle.old.kept.behind }
    ensures others { result ≢ OK → (buffer.new ≡ buffer.old) × (count.new ≡ count.old) }
    ensures status { result
        ≡ status_by (λ old. found (column_name old.session.state.schema table column)) handle.old.kept.behind }
{
    let Some(connection) = take(handle, alloc) else {
        return CLOSED;
    };
    let status = copied_if_there(column_name(&connection, table, column), from, buffer, count);
    put(handle, connection);
    status
}

/// The value of DEFAULT of a column of the table at this place; NULL where there is none.
#[unsafe(no_mangle)]
pub extern "C" fn sqlkeep_default(
    alloc: Global,
    handle: &mut Handle,
    table: usize,
    column: usize,
    value: &mut Cell,
) -> u32
    ensures value { IfSome handle.old.kept.behind (λ old. IfSome (column_at old.session.state.schema table column) (λ it.
        value.new ≡ cell_of it.default)) }
    ensures kept { handle.new.kept.behind ≡ handle.old.kept.behind }
    ensures others { result ≢ OK → value.new ≡ value.old }
    ensures status { result
        ≡ status_by (λ old. found (column_at old.session.state.schema table column)) handle.old.kept.behind }
{
    let Some(connection) = take(handle, alloc) else {
        return CLOSED;
    };
    let status = match column_at(&connection, table, column) {
        Some(it) => {
            *value = cell_of(&it.default);
            OK
        }
        None => NOTHING,
    };
    put(handle, connection);
    status
}

/// Copies bytes of the text that is the value of DEFAULT of a column, from this byte on.
#[unsafe(no_mangle)]
pub extern "C" fn sqlkeep_default_text(
    alloc: Global,
    handle: &mut Handle,
    table: usize,
    column: usize,
    from: usize,
    buffer: &mut [u8],
    count: &mut usize,
) -> u32
    ensures bytes { IfSome handle.old.kept.behind (λ old. IfSome (column_at old.session.state.schema table column) (λ it.
        Copies from (text_of it.default) buffer.old buffer.new count.new)) }
    ensures kept { handle.new.kept.behind ≡ handle.old.kept.behind }
    ensures others { result ≢ OK → (buffer.new ≡ buffer.old) × (count.new ≡ count.old) }
    ensures status { result
        ≡ status_by (λ old. found (column_at old.session.state.schema table column)) handle.old.kept.behind }
{
    let Some(connection) = take(handle, alloc) else {
        return CLOSED;
    };
    let status = match column_at(&connection, table, column) {
        Some(it) => {
            *count = copied(text_of(&it.default), from, buffer);
            OK
        }
        None => NOTHING,
    };
    put(handle, connection);
    status
}
