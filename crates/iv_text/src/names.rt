//! Names of what a catalogue has; nothing for what isn't there.
ghost use Rattle.std.specs.Prelude.{◌≡◌, slice_get};
ghost use Rattle.iv_catalogue.specs.Catalogues.{trigger_numbered};
ghost use Rattle.iv_text.specs.Lines.{column_name, column_name_in, name_of, table_name, trigger_name};

use iv_catalogue::{Catalogue, Column, Constraint, ConstraintId, TriggerId};
use iv_expr::TableId;

/// The name of a table.
pub fn table_in(catalogue: &Catalogue, table: TableId) -> &str
    ensures { result.now ≡ table_name (slice_get catalogue.now.tables table) }
{
    match catalogue.table(table) {
        Some(table) => table.name.as_str(),
        None => "",
    }
}

fn column_among(columns: &[Column], column: u64) -> &str
    ensures { result.now ≡ column_name (slice_get columns.now column) }
{
    match columns.get(column as usize) {
        Some(column) => column.name.as_str(),
        None => "",
    }
}

/// The name of the column at this place of a table.
pub fn column_in(catalogue: &Catalogue, table: TableId, column: u64) -> &str
    ensures { result.now ≡ column_name_in (slice_get catalogue.now.tables table) column }
{
    match catalogue.table(table) {
        Some(table) => column_among(table.columns.as_slice(), column),
        None => "",
    }
}

/// The name of a constraint.
pub(crate) fn constraint_in(constraints: &[Constraint], id: ConstraintId) -> &str
    ensures { result.now ≡ name_of (slice_get constraints.now id) }
{
    match constraints.get(id.place() as usize) {
        Some(constraint) => constraint.name.as_str(),
        None => "",
    }
}

/// The name of a trigger.
pub(crate) fn trigger_in(catalogue: &Catalogue, id: TriggerId) -> &str
    ensures { result.now ≡ trigger_name (trigger_numbered catalogue.now id) }
{
    match catalogue.trigger(id) {
        Some(trigger) => trigger.name.as_str(),
        None => "",
    }
}
