//! The columns of a SET list, and the triggers on some of them ("Trigger definition").
ghost use Rattle.std.specs.Prelude.{◌≡◌, ◌==◌, ◌&&◌, map, IfOk};
ghost use Rattle.std.specs.List.{list_any};
ghost use Rattle.iv_expr.specs.Changes.{names_column};
ghost use Rattle.iv_machine.specs.BeforeTriggers.{is_on_columns};
ghost use Rattle.iv_machine.specs.Proposals.{set_columns};
ghost use Rattle.iv_exec_triggers.specs.Listed.{column_of, columns_of};

use iv_catalogue::{DataStatement, Setting, Trigger};
use iv_expr::{TableColumn, TableId, names_column};
use std::alloc::{AllocError, Global};

// Whether some of the listed columns of a table is among these columns.
fn names_listed(columns: &[TableColumn], table: TableId, listed: &[u32]) -> bool
    ensures { result ≡ list_any (names_column columns.now table) listed.now }
{
    listed
        .iter()
        .any(|column| names_column(columns, table, *column))
}

/// Whether a trigger has no UPDATE OF list, or one with a column of these. It looks at each of these for each column of
/// the list.
pub fn is_on_columns(columns: &[TableColumn], trigger: &Trigger) -> bool
    ensures { result ≡ is_on_columns columns.now trigger.now }
{
    trigger.columns.is_empty() || names_listed(columns, trigger.table, trigger.columns.as_slice())
}

// ---- of a SET list

fn is_column_set(table: TableId, setting: &Setting, of: TableId, column: u32) -> bool
    ensures { result ≡ ((table == of) && (setting.now.column == column)) }
{
    table == of && setting.column == column
}

// Whether the SET list of an UPDATE of a table has this column of a table.
fn sets_column(table: TableId, settings: &[Setting], of: TableId, column: u32) -> bool
    ensures { result ≡ names_column (columns_of table settings.now) of column }
{
    match settings {
        [] => false,
        [setting, rest @ ..] => {
            is_column_set(table, setting, of, column) || sets_column(table, rest, of, column)
        }
    }
}

// Whether some of the listed columns of a table is in the SET list.
fn sets_listed(table: TableId, settings: &[Setting], of: TableId, listed: &[u32]) -> bool
    ensures { result ≡ list_any (names_column (columns_of table settings.now) of) listed.now }
{
    listed
        .iter()
        .any(|column| sets_column(table, settings, of, *column))
}

fn is_on_settings(table: TableId, settings: &[Setting], trigger: &Trigger) -> bool
    ensures { result ≡ is_on_columns (columns_of table settings.now) trigger.now }
{
    trigger.columns.is_empty()
        || sets_listed(table, settings, trigger.table, trigger.columns.as_slice())
}

/// Whether a trigger has no UPDATE OF list, or one with a column of the statement's SET list. It allocates nothing.
pub fn is_on_set_columns(statement: &DataStatement, trigger: &Trigger) -> bool
    ensures { result ≡ is_on_columns (set_columns statement.now) trigger.now }
{
    match statement {
        DataStatement::Insert { .. } => is_on_columns(&[], trigger),
        DataStatement::Update {
            table,
            settings,
            ..
        } => is_on_settings(*table, settings.as_slice(), trigger),
        DataStatement::Delete { .. } => is_on_columns(&[], trigger),
    }
}

// The columns of the SET list of an UPDATE of a table.
fn columns_of(
    alloc: Global,
    table: TableId,
    settings: &[Setting],
) -> Result<Vec<TableColumn>, AllocError>
    ensures { IfOk result (λ columns. columns.items ≡ columns_of table settings.now) }
{
    let mut columns = Vec::new(alloc);
    for setting in settings {
        columns.push(TableColumn {
            table,
            column: setting.column,
        })?;
    }
    Ok(columns)
}

/// The columns of a statement's SET list, in order; none for INSERT and DELETE.
pub fn set_columns(alloc: Global, statement: &DataStatement) -> Result<Vec<TableColumn>, AllocError>
    ensures { IfOk result (λ columns. columns.items ≡ set_columns statement.now) }
{
    match statement {
        DataStatement::Insert { .. } => Ok(Vec::new(alloc)),
        DataStatement::Update {
            table,
            settings,
            ..
        } => columns_of(alloc, *table, settings.as_slice()),
        DataStatement::Delete { .. } => Ok(Vec::new(alloc)),
    }
}
