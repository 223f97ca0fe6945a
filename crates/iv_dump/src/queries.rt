//! The rows of tables.
ghost use Rattle.std.specs.Prelude.{◌≡◌, IfOk, map, unwrap_or};
ghost use Rattle.iv_catalogue.specs.Catalogues.{table_named};
ghost use Rattle.iv_dump.specs.Dumps.{rows_named, rows_of};
ghost use Rattle.iv_dump.specs.Types.{Table as Seen};

use crate::refusal::DumpRefusal;
use iv_catalogue::{Catalogue, Table};
use iv_expr::{Row, TableId};
use iv_step::Executor;
use iv_syntax::Name;
use sqlite_items::Items;
use std::alloc::Global;

// The place of the table of this name, which is there.
fn place_of(catalogue: &Catalogue, name: &Name) -> TableId
    ensures { result ≡ unwrap_or (table_named catalogue.now name.now) 0 }
{
    match catalogue.table_named(name.as_str()) {
        Some(table) => table,
        None => TableId::new(0),
    }
}

// The rows of the table of this name.
fn rows_named<X: Executor>(database: &X, name: &Name) -> Result<Items<Row>, DumpRefusal>
    ensures { IfOk result (λ rows. rows ≡ rows_named (X.state database.now) name.now) }
{
    match database.rows(place_of(database.catalogue(), name)) {
        Ok(rows) => Ok(rows),
        Err(_) => Err(DumpRefusal::NoMemory),
    }
}

// The rows of each of these tables.
fn rows_of_each<X: Executor>(
    alloc: Global,
    database: &X,
    tables: &[Table],
) -> Result<Vec<Items<Row>>, DumpRefusal>
    ensures { IfOk result (λ lists. lists.items
        ≡ map (λ (t : Seen). rows_named (X.state database.now) t.name) tables.now) }
{
    let mut lists = Vec::new(alloc);
    for table in tables {
        lists.push(rows_named(database, &table.name)?)?;
    }
    Ok(lists)
}

/// The rows of each table.
pub fn rows_of<X: Executor>(alloc: Global, database: &X) -> Result<Vec<Items<Row>>, DumpRefusal>
    ensures { IfOk result (λ lists. lists.items ≡ rows_of (X.state database.now)) }
{
    rows_of_each(alloc, database, database.catalogue().tables())
}
