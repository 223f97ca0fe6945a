//! The rows that hold a key by a foreign key.
ghost use Rattle.std.specs.Prelude.{◌≡◌, ◌==◌, ◌&&◌, filter, IfOk};
ghost use Rattle.iv_expr.specs.Scopes.{Rises, table_rows};
ghost use Rattle.iv_key.specs.Keys.{holds_key};
ghost use Rattle.iv_machine.specs.ReferentialActions.{reference};
ghost use Rattle.iv_store.specs.Stores.{RisingNumbers, numbers_by, numbers_of, reference_at};

use iv_catalogue::{Constraint, ForeignKey, Rule};
use iv_expr::{StoredRow, TableId};
use iv_key::Key;
use std::alloc::{AllocError, Global};

// Whether a row is one of a table and holds a key by a foreign key.
fn holds(foreign_key: &ForeignKey, table: TableId, key: &Key<'_>, row: &StoredRow) -> bool
    ensures { result ≡
        ((row.now.table == table) && holds_key foreign_key.now.columns key.now row.now.values) }
{
    let own = Key::new(foreign_key.columns.as_slice(), row.values.values());
    row.table == table && own.none_null() && own.same(key)
}

// The numbers of the rows of a table that hold a key by a foreign key.
fn numbers(
    alloc: Global,
    rows: &[StoredRow],
    foreign_key: &ForeignKey,
    table: TableId,
    key: &Key<'_>,
) -> Result<Vec<u64>, AllocError>
    ensures { IfOk result (λ v. v.items ≡ numbers_of (filter
        (λ r. (r.table == table) && holds_key foreign_key.now.columns key.now r.values) rows.now)) }
{
    let mut found = Vec::new(alloc);
    for row in rows {
        if holds(foreign_key, table, key, row) {
            found.push(row.number)?;
        }
    }
    Ok(found)
}

// The numbers of the rows that hold a key by a constraint, if it is a foreign key.
fn children_by(
    alloc: Global,
    rows: &[StoredRow],
    id: u32,
    constraint: &Constraint,
    key: &Key<'_>,
) -> Result<Vec<u64>, AllocError>
    requires { Rises 0 rows.now }
    ensures numbers { IfOk result (λ v. v.items ≡
        numbers_by rows.now key.now (reference (id, constraint.now))) }
    ensures rising { IfOk result (λ v. RisingNumbers 0 v.items) }
{
    match &constraint.rule {
        Rule::ForeignKey(foreign_key) => {
            numbers(alloc, rows, foreign_key, constraint.table, key)
        }
        _ => Ok(Vec::new(alloc)),
    }
}

/// The numbers of the rows that hold a key by the constraint of this number, if it is a foreign key.
pub fn children(
    alloc: Global,
    rows: &[StoredRow],
    constraints: &[Constraint],
    id: u32,
    key: &Key<'_>,
) -> Result<Vec<u64>, AllocError>
    requires { Rises 0 rows.now }
    ensures numbers { IfOk result (λ v. v.items ≡
        numbers_by rows.now key.now (reference_at constraints.now id)) }
    ensures rising { IfOk result (λ v. RisingNumbers 0 v.items) }
{
    match constraints.get(id as usize) {
        Some(constraint) => children_by(alloc, rows, id, constraint, key),
        None => Ok(Vec::new(alloc)),
    }
}
