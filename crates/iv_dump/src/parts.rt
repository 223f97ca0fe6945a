//! Parts of a dump: tables with their rows, and constraints that are added.
ghost use Rattle.std.specs.Prelude.{◌≡◌, ◌≤◌, [], ◌∷◌, ◌++◌, List, Some, true, IfOk, IfSome, OnOk, length, slice_get};
ghost use Rattle.iv_restate.specs.Statements.{create_table, insert_rows};
ghost use Rattle.iv_dump.specs.Dumps.{AreOf, has_null_after_key};
ghost use Rattle.iv_dump.specs.Making.{Adds, Creates, Inserts, Makes, Triggers};
ghost use Rattle.iv_dump.specs.Types.{Constraint};
ghost use Rattle.iv_dump.specs.Types.statement;

use crate::batches::next_batch;
use crate::constraints::{
    count_before_own_key, count_earlier, count_own, has_null_after_key, others, own_keys,
};
use crate::refusal::DumpRefusal;
use crate::scripts::Scripts;
use iv_catalogue::{Constraint, MOST_COLUMNS, Table, Trigger};
use iv_expr::Row;
use iv_restate::{add_constraint, create_table, create_trigger, insert_rows, stem_of};
use iv_syntax::{Name, Statement};
use iv_write::write_statement;
use sqlite_items::Items;
use std::alloc::Global;

// Adds a statement.
#[tactic(auto, using(crate::proofs::Adding::statement_pushed))]
fn push_statement(
    alloc: Global,
    scripts: &mut Scripts,
    statement: Statement,
) -> Result<(), DumpRefusal>
    ensures { OnOk result (Adds scripts.old scripts.new (statement ∷ [])) }
{
    let text = write_statement(alloc, &statement);
    drop(statement);
    scripts.push(text?.as_str())
}

// Adds an ALTER TABLE. A NOT NULL, which only CREATE TABLE has, isn't among the constraints that are added.
fn push_addition(
    alloc: Global,
    scripts: &mut Scripts,
    tables: &[Table],
    constraint: &Constraint,
) -> Result<(), DumpRefusal>
    ensures { OnOk result ((more : List Constraint) → Makes tables.now scripts.old scripts.new [] [] (constraint.now ∷ more) more) }
{
    match add_constraint(alloc, tables, constraint)? {
        Some(statement) => push_statement(alloc, scripts, statement),
        None => Err(DumpRefusal::TooLong),
    }
}

/// Adds an ALTER TABLE for each of these constraints.
pub fn push_additions(
    alloc: Global,
    scripts: &mut Scripts,
    tables: &[Table],
    constraints: &[Constraint],
) -> Result<(), DumpRefusal>
    ensures { OnOk result (Makes tables.now scripts.old scripts.new [] [] constraints.now []) }
{
    for constraint in constraints {
        push_addition(alloc, scripts, tables, constraint)?;
    }
    Ok(())
}

// Adds an INSERT with a COMMIT after it.
fn push_batch(
    alloc: Global,
    scripts: &mut Scripts,
    name: &Name,
    rows: &[Row],
) -> Result<(), DumpRefusal>
    ensures { OnOk result (Adds scripts.old scripts.new (insert_rows name.now rows.now ∷ statement.Commit ∷ [])) }
{
    let statement = insert_rows(alloc, name, rows)?;
    push_statement(alloc, scripts, statement)?;
    push_statement(alloc, scripts, Statement::Commit)
}

// Adds the rows of a table.
fn push_rows(
    alloc: Global,
    scripts: &mut Scripts,
    name: &Name,
    rows: &[Row],
) -> Result<(), DumpRefusal>
    ensures { OnOk result (Inserts name.now scripts.old scripts.new rows.now []) }
{
    let mut left = rows;
    'batch: while !left.is_empty() {
        let (batch, rest) = left.split_at(next_batch(left));
        push_batch(alloc, scripts, name, batch)?;
        left = rest;
    }
    Ok(())
}

// CREATE TABLE; no table has more columns than it may.
fn created(
    alloc: Global,
    tables: &[Table],
    table: &Table,
    constraints: &[Constraint],
) -> Result<Statement, DumpRefusal>
    ensures { IfOk result (λ s. s ≡ create_table tables.now table.now constraints.now) }
{
    if table.columns.len() > MOST_COLUMNS {
        return Err(DumpRefusal::TooLong);
    }
    let statement = create_table(alloc, tables, table, constraints)?;
    Ok(statement)
}

// Adds a table with these constraints, and its rows.
fn push_created(
    alloc: Global,
    scripts: &mut Scripts,
    tables: &[Table],
    table: &Table,
    constraints: &[Constraint],
    rows: &[Row],
) -> Result<(), DumpRefusal>
    ensures { OnOk result (Creates tables.now table.now scripts.old scripts.new constraints.now rows.now) }
{
    let statement = created(alloc, tables, table, constraints)?;
    push_statement(alloc, scripts, statement)?;
    push_rows(alloc, scripts, &table.name, rows)
}

// Adds a table with these constraints, and its rows. Foreign keys to these come after them.
fn push_late(
    alloc: Global,
    scripts: &mut Scripts,
    tables: &[Table],
    table: &Table,
    constraints: &[Constraint],
    rows: &[Row],
) -> Result<(), DumpRefusal>
    ensures { OnOk result ((left : List Constraint) → AreOf tables.now table.now constraints.now → has_null_after_key constraints.now ≡ true
        → Makes tables.now scripts.old scripts.new (table.now ∷ []) (rows.now ∷ []) (constraints.now ++ left) left) }
{
    let first = others(alloc, constraints)?;
    let created = push_created(alloc, scripts, tables, table, first.as_slice(), rows);
    drop(first);
    created?;
    let keys = own_keys(alloc, constraints)?;
    let added = push_additions(alloc, scripts, tables, keys.as_slice());
    drop(keys);
    added
}

// How many of these constraints of a table its CREATE TABLE has: all of them, or if its rows need more than one INSERT
// those before a foreign key to these.
fn count_created(constraints: &[Constraint], is_large: bool) -> usize
    ensures { result ≤ length constraints.now }
{
    if is_large {
        count_before_own_key(constraints)
    } else {
        constraints.len()
    }
}

// Adds the table at this place with its rows, and those of its constraints that are the first of these; answers the
// others.
fn push_own<'a>(
    alloc: Global,
    scripts: &mut Scripts,
    tables: &[Table],
    place: usize,
    constraints: &'a [Constraint],
    rows: &[Row],
) -> Result<&'a [Constraint], DumpRefusal>
    ensures { IfOk result (λ left. IfSome (slice_get tables.now place) (λ t.
        Makes tables.now scripts.old scripts.new (t ∷ []) (rows.now ∷ []) constraints.now left.now)) }
{
    let Some(table) = tables.get(place) else {
        return Ok(constraints);
    };
    let (own, others) = constraints.split_at(count_own(constraints, place));
    let is_large = next_batch(rows) < rows.len();
    if is_large && has_null_after_key(own) {
        push_late(alloc, scripts, tables, table, own, rows)?;
        return Ok(others);
    }
    let count = count_created(own, is_large);
    let (first, rest) = constraints.split_at(count);
    push_created(alloc, scripts, tables, table, first, rows)?;
    Ok(rest)
}

// Adds a table after the constraints of earlier tables that come before its own; answers those that are left.
fn push_table<'a>(
    alloc: Global,
    scripts: &mut Scripts,
    tables: &[Table],
    place: usize,
    constraints: &'a [Constraint],
    rows: &[Row],
) -> Result<&'a [Constraint], DumpRefusal>
    ensures { IfOk result (λ left. IfSome (slice_get tables.now place) (λ t.
        Makes tables.now scripts.old scripts.new (t ∷ []) (rows.now ∷ []) constraints.now left.now)) }
{
    let (earlier, left) = constraints.split_at(count_earlier(constraints, place));
    push_additions(alloc, scripts, tables, earlier)?;
    push_own(alloc, scripts, tables, place, left, rows)
}

/// Adds the tables, each with its rows; answers the constraints that are left.
pub fn push_tables<'a>(
    alloc: Global,
    scripts: &mut Scripts,
    tables: &[Table],
    constraints: &'a [Constraint],
    lists: &[Items<Row>],
) -> Result<&'a [Constraint], DumpRefusal>
    ensures { IfOk result (λ left. length lists.now ≡ length tables.now
        → Makes tables.now scripts.old scripts.new tables.now lists.now constraints.now left.now) }
{
    let mut left = constraints;
    let mut place = 0usize;
    for rows in lists {
        let more = push_table(alloc, scripts, tables, place, left, rows.as_slice())?;
        left = more;
        place += 1;
    }
    Ok(left)
}

/// Adds the triggers.
pub fn push_triggers(
    alloc: Global,
    scripts: &mut Scripts,
    tables: &[Table],
    triggers: &[Trigger],
) -> Result<(), DumpRefusal>
    ensures { OnOk result (Triggers tables.now scripts.old scripts.new triggers.now []) }
{
    let stem = stem_of(alloc, tables)?;
    for trigger in triggers {
        let statement = create_trigger(alloc, tables, stem.as_str(), trigger)?;
        push_statement(alloc, scripts, statement)?;
    }
    Ok(())
}
