//! The columns of the query that was executed last.
ghost use Rattle.std.specs.Prelude.{◌≡◌, option_and_then, option_copied, option_map, slice_get};
ghost use Rattle.iv_connection.specs.OutcomeLines.{executed};
ghost use Rattle.iv_connection.specs.Queries.{column_count_of, column_name_of, columns_named, count_name, expression_name, query_column, query_columns, query_of};

use crate::statements::executed;
use iv_catalogue::{Catalogue, Column};
use iv_shown::Connection;
use iv_syntax::{Expression, Name, Select, SelectList, Statement};

fn expression_name(expression: &Expression) -> &[u8]
    ensures { result.now ≡ expression_name expression.now }
{
    match expression {
        Expression::Column(column) => column.name.as_str().as_bytes(),
        _ => &[],
    }
}

fn columns_named<'a>(catalogue: &'a Catalogue, name: &Name) -> Option<&'a [Column]>
    ensures { option_copied result ≡ columns_named catalogue.now name.now }
{
    let place = catalogue.table_named(name.as_str())?;
    match catalogue.table(place) {
        Some(table) => Some(table.columns.as_slice()),
        None => None,
    }
}

fn count_name(place: usize) -> Option<&'static [u8]>
    ensures { option_copied result ≡ count_name place }
{
    if place == 0 { Some(b"COUNT") } else { None }
}

fn column_count_of(catalogue: &Catalogue, query: &Select) -> Option<usize>
    ensures { result ≡ column_count_of catalogue.now query.now }
{
    match query {
        Select::Count(_, _) => Some(1),
        Select::Rows(SelectList::Star, range, _) => {
            match columns_named(catalogue, &range.table) {
                Some(columns) => Some(columns.len()),
                None => None,
            }
        }
        Select::Rows(SelectList::Values(expressions), _, _) => Some(expressions.len()),
    }
}

// The name of a column of a table that is asked for all of them.
fn name_in_table<'a>(catalogue: &'a Catalogue, name: &Name, place: usize) -> Option<&'a [u8]>
    ensures { option_copied result ≡ option_map (λ c. c.name)
        (option_and_then (λ columns. slice_get columns place) (columns_named catalogue.now name.now)) }
{
    let columns = columns_named(catalogue, name)?;
    match columns.get(place) {
        Some(column) => Some(column.name.as_str().as_bytes()),
        None => None,
    }
}

fn column_name_of<'a>(catalogue: &'a Catalogue, query: &'a Select, place: usize) -> Option<&'a [u8]>
    ensures { option_copied result ≡ column_name_of catalogue.now query.now place }
{
    match query {
        Select::Count(_, _) => count_name(place),
        Select::Rows(SelectList::Star, range, _) => name_in_table(catalogue, &range.table, place),
        Select::Rows(SelectList::Values(expressions), _, _) => {
            match expressions.as_slice().get(place) {
                Some(expression) => Some(expression_name(expression)),
                None => None,
            }
        }
    }
}

// The query that was executed last; none where the last statement is none.
fn query_of(connection: &Connection) -> Option<&Select>
    ensures { option_copied result
        ≡ option_and_then query_of (executed connection.now.statements connection.now.executed) }
{
    match executed(connection) {
        Some(Statement::Select(query)) => Some(query),
        _ => None,
    }
}

pub fn query_columns(connection: &Connection) -> Option<usize>
    ensures { result ≡ query_columns connection.now.session.state.schema
        (executed connection.now.statements connection.now.executed) }
{
    column_count_of(connection.session.catalogue(), query_of(connection)?)
}

pub fn query_column(connection: &Connection, place: usize) -> Option<&[u8]>
    ensures { option_copied result ≡ query_column connection.now.session.state.schema
        (executed connection.now.statements connection.now.executed) place }
{
    column_name_of(connection.session.catalogue(), query_of(connection)?, place)
}
