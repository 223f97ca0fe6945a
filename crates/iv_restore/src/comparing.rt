//! Whether two databases are the same.
ghost use Rattle.std.specs.Prelude.{◌≡◌, ◌<◌, ℕ, IfOk, filter, map, true};
ghost use Rattle.iv_expr.specs.Scopes.{contents, table_rows};
ghost use Rattle.iv_dump.specs.Dumps.{AreMade, is_other, is_own_key};
ghost use Rattle.iv_restore.specs.Restoring.{HaveSameRows, IsSame, unnumbered};

use crate::same::{Same, are_same};
use crate::same_triggers::is_same_trigger;
use iv_catalogue::{Constraint, Trigger};
use iv_dump::{DumpRefusal, has_null_after_key, others, own_keys};
use iv_expr::{Row, TableId};
use iv_step::Executor;
use sqlite_items::Items;
use std::alloc::Global;

impl Same for Row {
    fn is_same(&self, other: &Row) -> bool {
        are_same(self.values(), other.values())
    }
}

// ---- constraints

fn are_same_then_dropped(left: Vec<Constraint>, right: Vec<Constraint>) -> bool
    ensures { result ≡ true → left.items ≡ right.items }
{
    let same = are_same(left.as_slice(), right.as_slice());
    drop(left);
    drop(right);
    same
}

// Whether the constraints that aren't foreign keys to their own table are the same.
fn are_others_same(
    alloc: Global,
    constraints: &[Constraint],
    made: &[Constraint],
) -> Result<bool, DumpRefusal>
    ensures { IfOk result (λ same. same ≡ true → filter is_other made.now ≡ filter is_other constraints.now) }
{
    let left = others(alloc, made)?;
    let right = match others(alloc, constraints) {
        Ok(right) => right,
        Err(refusal) => {
            drop(left);
            return Err(refusal);
        }
    };
    Ok(are_same_then_dropped(left, right))
}

// Whether the foreign keys to their own table are the same.
fn are_own_keys_same(
    alloc: Global,
    constraints: &[Constraint],
    made: &[Constraint],
) -> Result<bool, DumpRefusal>
    ensures { IfOk result (λ same. same ≡ true → filter is_own_key made.now ≡ filter is_own_key constraints.now) }
{
    let left = own_keys(alloc, made)?;
    let right = match own_keys(alloc, constraints) {
        Ok(right) => right,
        Err(refusal) => {
            drop(left);
            return Err(refusal);
        }
    };
    Ok(are_same_then_dropped(left, right))
}

// Whether the constraints are these, in their order, or in one that a dump may have.
fn are_made(
    alloc: Global,
    constraints: &[Constraint],
    made: &[Constraint],
) -> Result<bool, DumpRefusal>
    ensures { IfOk result (λ same. same ≡ true → AreMade constraints.now made.now) }
{
    if are_same(made, constraints) {
        return Ok(true);
    }
    if !has_null_after_key(constraints) || !are_others_same(alloc, constraints, made)? {
        return Ok(false);
    }
    are_own_keys_same(alloc, constraints, made)
}

// ---- triggers

fn are_triggers_same(left: &[Trigger], right: &[Trigger]) -> bool
    ensures { result ≡ true → map unnumbered left.now ≡ map unnumbered right.now }
{
    let mut triggers = left;
    let mut others = right;
    while let Some((trigger, more)) = triggers.split_first() {
        let Some((other, rest)) = others.split_first() else {
            return false;
        };
        if !is_same_trigger(trigger, other) {
            return false;
        }
        triggers = more;
        others = rest;
    }
    others.is_empty()
}

// ---- rows

fn rows_of<X: Executor>(database: &X, table: TableId) -> Result<Items<Row>, DumpRefusal>
    ensures { IfOk result (λ rows. rows ≡ contents (table_rows (X.state database.now).database.rows table)) }
{
    match database.rows(table) {
        Ok(rows) => Ok(rows),
        Err(_) => Err(DumpRefusal::NoMemory),
    }
}

fn are_rows_same<X: Executor>(left: &X, right: &X, table: TableId) -> Result<bool, DumpRefusal>
    ensures { IfOk result (λ same. same ≡ true
        → HaveSameRows (X.state left.now) (X.state right.now) table) }
{
    let rows = rows_of(left, table)?;
    let others = match rows_of(right, table) {
        Ok(others) => others,
        Err(refusal) => {
            drop(rows);
            return Err(refusal);
        }
    };
    let same = are_same(rows.as_slice(), others.as_slice());
    drop(rows);
    drop(others);
    Ok(same)
}

// Whether the rows of each of so many tables are the same.
fn are_tables_same<X: Executor>(left: &X, right: &X, count: u32) -> Result<bool, DumpRefusal>
    ensures { IfOk result (λ same. same ≡ true → (table : ℕ) → table < count
        → HaveSameRows (X.state left.now) (X.state right.now) table) }
{
    for place in 0..count {
        if !are_rows_same(left, right, TableId::new(place))? {
            return Ok(false);
        }
    }
    Ok(true)
}

/// Whether two databases have the same tables, constraints, triggers and rows.
pub fn is_same_database<X: Executor>(
    alloc: Global,
    left: &X,
    right: &X,
) -> Result<bool, DumpRefusal>
    ensures { IfOk result (λ same. same ≡ true → IsSame (X.state left.now) (X.state right.now)) }
{
    let (one, other) = (left.catalogue(), right.catalogue());
    if !are_same(one.tables(), other.tables()) {
        return Ok(false);
    }
    if !are_triggers_same(one.triggers(), other.triggers()) {
        return Ok(false);
    }
    if !are_made(alloc, one.constraints(), other.constraints())? {
        return Ok(false);
    }
    are_tables_same(left, right, one.tables().len() as u32)
}
