//! The rows of a query apart from the session that gave them.
ghost use Rattle.std.specs.Prelude.{◌≡◌, ◌≢◌, [], Some, None, Ok, IfErr, IfOk, OnErr, OnOk, length, map, option_copied, option_map, is_some, slice_get, unwrap_or};
ghost use Rattle.iv_machine.specs.declared.answer.Answer.TheVariants as answer;
ghost use Rattle.iv_connection.specs.OutcomeLines.{executed};
ghost use Rattle.iv_connection.specs.Results.{last_names, names_from, names_of, result_shown, rows_given};
ghost use Rattle.iv_shown.specs.Rows.{rows_of};

use crate::queries::{query_column, query_columns};
use iv_expr::Row;
use iv_session::{Answer, Outcome};
use iv_shown::{Connection, NO_MEMORY, NOTHING};
use sqlite_items::Items;
use std::alloc::{AllocError, Global};
use std::mem::replace;

/// The rows of a query, and the names of its columns.
#[derive(Drop)]
pub struct QueryResult {
    pub rows: Items<Row>,
    pub names: Vec<Vec<u8>>,
}

/// How many rows and columns a result has.
#[repr(C)]
#[derive(Drop)]
pub struct ShownResult {
    pub rows: u64,
    pub columns: u64,
}

/// How many rows and columns a result has.
pub fn result_shown(taken: &QueryResult) -> ShownResult
    ensures { result ≡ result_shown taken.now }
{
    ShownResult {
        rows: taken.rows.len() as u64,
        columns: taken.names.len() as u64,
    }
}

/// The name of a column of a result.
pub fn result_column(taken: &QueryResult, column: usize) -> Option<&[u8]>
    ensures { option_copied result ≡ slice_get (names_of taken.now) column }
{
    match taken.names.get(column) {
        Some(name) => Some(name.as_slice()),
        None => None,
    }
}

fn copied_name(alloc: Global, name: Option<&[u8]>) -> Result<Vec<u8>, AllocError>
    ensures { IfOk result (λ copy. copy.items ≡ unwrap_or (option_copied name.entry) []) }
{
    let mut copy = Vec::new(alloc);
    if let Some(name) = name {
        copy.extend_from_slice(name)?;
    }
    Ok(copy)
}

// The names of so many columns of the query that was executed last.
fn column_names(
    alloc: Global,
    connection: &Connection,
    count: usize,
) -> Result<Vec<Vec<u8>>, AllocError>
    ensures { IfOk result (λ names. map (λ name. name.items) names.items
        ≡ names_from connection.now.session.state.schema (executed connection.now.statements connection.now.executed) 0 count) }
{
    let mut names = Vec::new(alloc);
    for place in 0..count {
        let name = copied_name(alloc, query_column(connection, place))?;
        names.push(name)?;
    }
    Ok(names)
}

// A result with the names of the columns of the query that was executed last, and without rows.
fn without_rows(alloc: Global, connection: &Connection) -> Result<Box<QueryResult>, AllocError>
    ensures names { IfOk result (λ b. names_of b.value ≡ last_names connection.now) }
    ensures rows { IfOk result (λ b. b.value.rows ≡ []) }
{
    let count = query_columns(connection).unwrap_or(0);
    let names = column_names(alloc, connection, count)?;
    let result = QueryResult {
        rows: Items::new(alloc),
        names,
    };
    Ok(Box::new(alloc, result)?)
}

fn is_query(outcome: &Outcome) -> bool
    ensures { result ≡ is_some (rows_given outcome.now) }
{
    matches!(outcome, Ok(Answer::Rows(_)))
}

// Takes the rows out of an outcome, and leaves one without rows.
fn take_rows(alloc: Global, outcome: &mut Outcome) -> Items<Row>
    ensures rows { result ≡ rows_of outcome.old }
    ensures left { outcome.new ≡ Ok (answer.Rows []) }
{
    match replace(outcome, Ok(Answer::Rows(Items::new(alloc)))) {
        Ok(Answer::Rows(rows)) => rows,
        _ => Items::new(alloc),
    }
}

/// Takes the rows of the last outcome out of the connection, with the names of the columns where the text of the query is still
/// the one that was read last. The outcome is then one of a query that gave no row.
pub fn take_result(alloc: Global, connection: &mut Connection) -> Result<Box<QueryResult>, u32>
    ensures rows { IfOk result (λ b. Some b.value.rows ≡ rows_given connection.old.outcome) }
    ensures names { IfOk result (λ b. names_of b.value ≡ last_names connection.old) }
    ensures rest { OnOk result (connection.new ≡ record connection.old { outcome = Ok (answer.Rows []) }) }
    ensures others { OnErr result (connection.new ≡ connection.old) }
    ensures kinds { IfErr result (λ e. (e ≢ NO_MEMORY → (e ≡ NOTHING) × (rows_given connection.old.outcome ≡ None))) }
{
    if !is_query(&connection.outcome) {
        return Err(NOTHING);
    }
    match without_rows(alloc, &*connection) {
        Ok(mut taken) => {
            taken.rows = take_rows(alloc, &mut connection.outcome);
            Ok(taken)
        }
        Err(_) => Err(NO_MEMORY),
    }
}
