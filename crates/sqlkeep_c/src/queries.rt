//! The columns of the query that was executed last.
ghost use Rattle.std.specs.Prelude.{◌≡◌, ◌≢◌, IfSome};
ghost use Rattle.iv_shown.specs.Copying.{Copies};
ghost use Rattle.iv_connection.specs.OutcomeLines.{executed};
ghost use Rattle.iv_connection.specs.Queries.{query_column, query_columns};
ghost use Rattle.iv_shown.specs.Statuses.{found};
ghost use Rattle.sqlkeep_c.specs.Statuses.{status_by};

use crate::handle::{Handle, put, take};
use iv_connection::{executed, query_column, query_columns};
use iv_shown::{CLOSED, NOTHING, OK, copied_if_there};
use std::alloc::Global;

/// How many columns the query has that was executed last.
#[unsafe(no_mangle)]
pub extern "C" fn sqlkeep_query(alloc: Global, handle: &mut Handle, columns: &mut usize) -> u32
    ensures columns { IfSome handle.old.kept.behind (λ old.
        IfSome (query_columns old.session.state.schema (executed old.statements old.executed)) (λ count. columns.new ≡ count)) }
    ensures kept { handle.new.kept.behind ≡ handle.old.kept.behind }
    ensures others { result ≢ OK → columns.new ≡ columns.old }
    ensures status { result ≡ status_by (λ old.
        found (query_columns old.session.state.schema (executed old.statements old.executed))) handle.old.kept.behind }
{
    let Some(connection) = take(handle, alloc) else {
        return CLOSED;
    };
    let status = match query_columns(&connection) {
        Some(count) => {
            *columns = count;
            OK
        }
        None => NOTHING,
    };
    put(handle, connection);
    status
}

/// Copies the name of a column of the query that was executed last.
#[unsafe(no_mangle)]
pub extern "C" fn sqlkeep_query_column(
    alloc: Global,
    handle: &mut Handle,
    column: usize,
    from: usize,
    buffer: &mut [u8],
    count: &mut usize,
) -> u32
    ensures bytes { IfSome handle.old.kept.behind (λ old.
        IfSome (query_column old.session.state.schema (executed old.statements old.executed) column) (λ name.
        Copies from name buffer.old buffer.new count.new)) }
    ensures kept { handle.new.kept.behind ≡ handle.old.kept.behind }
    ensures others { result ≢ OK → (buffer.new ≡ buffer.old) × (count.new ≡ count.old) }
    ensures status { result ≡ status_by (λ old.
        found (query_column old.session.state.schema (executed old.statements old.executed) column)) handle.old.kept.behind }
{
    let Some(connection) = take(handle, alloc) else {
        return CLOSED;
    };
    let status = copied_if_there(query_column(&connection, column), from, buffer, count);
    put(handle, connection);
    status
}
