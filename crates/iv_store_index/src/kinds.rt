//! The kinds of the rows of each table, as far as they are known.
ghost use Rattle.std.specs.Prelude.{◌≡◌, ℕ, List, length, true, IfSome};
ghost use Rattle.iv_value.specs.declared.value.Value.{Value as Cell};
ghost use Rattle.iv_expr.specs.Scopes.{table_rows};
ghost use Rattle.iv_expr.specs.Searches.{AllFit, Fits};
ghost use Rattle.iv_store_index.specs.Known.{AreKnown, IsKnownToFit, IsKnownWhere};
ghost use Rattle.iv_store_rows.specs.Histories.{History};

use iv_catalogue::{Column, Table};
use iv_expr::{Change, TableId, TableKinds, fits};
use iv_value::Kind;
use sqlite_items::at;
use std::alloc::{AllocError, Global};

/// The kinds of a table's columns. `all_fit` is true as long as each row that the table had was of them.
#[derive(Drop)]
pub struct ColumnKinds {
    pub kinds: Vec<Kind>,
    pub all_fit: bool,
}

fn kinds_of(alloc: Global, columns: &[Column]) -> Result<Vec<Kind>, AllocError> {
    let mut kinds = Vec::with_capacity(alloc, columns.len())?;
    for column in columns {
        kinds.push(column.kind)?;
    }
    Ok(kinds)
}

/// The kinds of the columns of a table of no row.
pub fn column_kinds(alloc: Global, table: &Table) -> Result<ColumnKinds, AllocError> {
    Ok(ColumnKinds {
        kinds: kinds_of(alloc, table.columns.as_slice())?,
        all_fit: true,
    })
}

// Whether the rows of a table are known to be of its kinds still, with this change.
fn still_fit(kinds: &[Kind], change: &Change) -> bool
    ensures { result ≡ true → IfSome change.now.new (λ row. Fits kinds.now row) }
{
    match &change.new {
        Some(row) => fits(kinds, row.values()),
        None => true,
    }
}

/// Notes a change that is to be made. If its row isn't of the kinds of its table, the rows of that table are no longer
/// said to be of them.
pub fn note(known: &mut Vec<ColumnKinds>, change: &Change)
    ensures length { length known.new.items ≡ length known.old.items }
    ensures stays { (t : ℕ) (row : List Cell) → IsKnownToFit known.old.items t row → IsKnownToFit known.new.items t row }
    ensures new { IsKnownWhere known.new.items change.now.table change.now.new }
{
    let place = change.table.place() as usize;
    if place < known.len() && !still_fit(known[place].kinds.as_slice(), change) {
        known[place].all_fit = false;
    }
}

/// The kinds of a table's columns, if each of its rows is known to be of them.
pub fn known_kinds(alloc: Global, known: &[ColumnKinds], table: TableId) -> Option<TableKinds<'_>>
    ensures { IfSome result (λ found. (h : History) → AreKnown known.now h → AllFit found.kinds.now (table_rows h.rows table)) }
{
    match at(known, table.place() as usize) {
        Some(columns) if columns.all_fit => Some(TableKinds {
            kinds: columns.kinds.as_slice(),
            alloc,
        }),
        _ => None,
    }
}
