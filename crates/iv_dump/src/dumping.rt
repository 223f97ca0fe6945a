//! A database as scripts.
ghost use Rattle.std.specs.Prelude.{◌≡◌, [], List, Err, IfOk, OnOk, is_some, length, map, string_bytes, true, false};
ghost use Rattle.iv_dump.specs.Dumps.{AreDump, IsDump};
ghost use Rattle.iv_dump.specs.Making.{Adds};
ghost use Rattle.iv_dump.specs.Scripts.{AreShort};
ghost use Rattle.iv_dump.specs.Types.{Statement};
ghost use Rattle.iv_dump.specs.declared.refusal.DumpRefusal.TheVariants.{InTransaction};

use crate::parts::{push_additions, push_tables, push_triggers};
use crate::queries::rows_of;
use crate::refusal::DumpRefusal;
use crate::scripts::Scripts;
use iv_catalogue::Catalogue;
use iv_expr::Row;
use iv_step::Executor;
use sqlite_items::Items;
use std::alloc::Global;

// Adds everything that there is; the lists are the rows of the tables.
fn push_database(
    alloc: Global,
    scripts: &mut Scripts,
    catalogue: &Catalogue,
    lists: &[Items<Row>],
) -> Result<(), DumpRefusal>
    ensures { OnOk result (length lists.now ≡ length catalogue.now.tables → scripts.old ≡ ([], [])
        → (statements : List Statement) × IsDump catalogue.now lists.now statements × Adds ([], []) scripts.new statements) }
{
    let tables = catalogue.tables();
    let left = push_tables(alloc, scripts, tables, catalogue.constraints(), lists)?;
    push_additions(alloc, scripts, tables, left)?;
    push_triggers(alloc, scripts, tables, catalogue.triggers())
}

/// The database as scripts of at most 1,048,576 bytes, to be run one after another in a new session: each table with
/// its constraints and then its rows, in creation order; constraints that refer to later tables after these; triggers
/// last, so that they don't fire. It takes time and memory in proportion to the database.
pub fn dump<X: Executor>(alloc: Global, database: &X) -> Result<Vec<String>, DumpRefusal>
    ensures short { IfOk result (λ scripts. AreShort (map string_bytes scripts.items)) }
    ensures statements { IfOk result (λ scripts. AreDump (X.state database.now) (map string_bytes scripts.items)) }
    ensures outside { IfOk result (λ _. is_some (X.state database.now).start ≡ false) }
    ensures in_transaction { is_some (X.state database.now).start ≡ true → result ≡ Err InTransaction }
{
    if database.in_transaction() {
        return Err(DumpRefusal::InTransaction);
    }
    let lists = rows_of(alloc, database)?;
    let mut scripts = Scripts::new(alloc);
    let pushed = push_database(alloc, &mut scripts, database.catalogue(), lists.as_slice());
    drop(lists);
    match pushed {
        Ok(()) => scripts.into_vec(),
        Err(refusal) => {
            drop(scripts);
            Err(refusal)
        }
    }
}
