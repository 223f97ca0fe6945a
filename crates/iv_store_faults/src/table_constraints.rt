//! The constraints that the rows of each table meet.
ghost use Rattle.std.specs.Prelude.{◌≡◌, ℕ, ◌+◌, ◌<◌, ◌≤◌, ◌^◌, ◌==◌, ◌||◌, ◌++◌, ◌∷◌, [], List, length, set, IfOk, OnOk};
ghost use Rattle.iv_catalogue.specs.declared.constraint.Constraint.{Constraint};
ghost use Rattle.iv_store_faults.specs.Watch.{AreTabled, numbers_at, with_constraint, with_key, with_reference};

use iv_catalogue::{Constraint, Rule};
use iv_expr::TableId;
use sqlite_items::Items;
use std::alloc::{AllocError, Global};

/// The numbers of the constraints that a table's rows meet: `keys` are those on the table that are no foreign keys,
/// `foreign_keys` the foreign keys that are on it or refer to it.
#[derive(Drop)]
pub struct TableConstraints {
    pub keys: Items<u32>,
    pub foreign_keys: Items<u32>,
}

// The lists again.
fn copy_tables(
    alloc: Global,
    tables: &[TableConstraints],
) -> Result<Vec<TableConstraints>, AllocError>
    ensures { IfOk result (λ copy. copy.items ≡ tables.now) }
{
    let mut copy = Vec::with_capacity(alloc, tables.len())?;
    for numbers in tables {
        copy.push(TableConstraints {
            keys: Items::from_slice(alloc, numbers.keys.as_slice())?,
            foreign_keys: Items::from_slice(alloc, numbers.foreign_keys.as_slice())?,
        })?;
    }
    Ok(copy)
}

// Adds tables of no constraint, until there is this one.
fn widen(alloc: Global, tables: &mut Vec<TableConstraints>, table: usize) -> Result<(), AllocError>
    ensures wide { OnOk result (table < length tables.new.items) }
    ensures same { OnOk result ((t : ℕ) → numbers_at tables.new.items t ≡ numbers_at tables.old.items t) }
{
    while tables.len() <= table {
        tables.push(TableConstraints {
            keys: Items::new(alloc),
            foreign_keys: Items::new(alloc),
        })?;
    }
    Ok(())
}

// Adds a number to the keys of a table.
fn push_key(tables: &mut Vec<TableConstraints>, table: usize, id: u32) -> Result<(), AllocError>
    requires { table < length tables.old.items }
    ensures { OnOk result (tables.new.items ≡ set tables.old.items table (record {
      keys = (numbers_at tables.old.items table).keys ++ id ∷ [];
      foreign_keys = (numbers_at tables.old.items table).foreign_keys;
    })) }
{
    let numbers = &mut tables[table];
    numbers.keys.push(id)
}

// Adds a number to the foreign keys of a table.
fn push_foreign_key(
    tables: &mut Vec<TableConstraints>,
    table: usize,
    id: u32,
) -> Result<(), AllocError>
    requires { table < length tables.old.items }
    ensures { OnOk result (tables.new.items ≡ set tables.old.items table (record {
      keys = (numbers_at tables.old.items table).keys;
      foreign_keys = (numbers_at tables.old.items table).foreign_keys ++ id ∷ [];
    })) }
{
    let numbers = &mut tables[table];
    numbers.foreign_keys.push(id)
}

// Adds the number of a constraint that is no foreign key to those of its table.
fn note_key(
    alloc: Global,
    tables: &mut Vec<TableConstraints>,
    table: TableId,
    id: u32,
) -> Result<(), AllocError>
    ensures { OnOk result ((t : ℕ) → numbers_at tables.new.items t
        ≡ with_key (t == table) id (numbers_at tables.old.items t)) }
{
    let table = table.place() as usize;
    widen(alloc, tables, table)?;
    push_key(tables, table, id)
}

// Adds the number of a foreign key to those of a table.
fn note_foreign_key(
    alloc: Global,
    tables: &mut Vec<TableConstraints>,
    table: TableId,
    id: u32,
) -> Result<(), AllocError>
    ensures { OnOk result ((t : ℕ) → numbers_at tables.new.items t
        ≡ with_reference (t == table) id (numbers_at tables.old.items t)) }
{
    let table = table.place() as usize;
    widen(alloc, tables, table)?;
    push_foreign_key(tables, table, id)
}

// Adds the number of a foreign key to those of its table and of the table that it refers to.
fn note_reference(
    alloc: Global,
    tables: &mut Vec<TableConstraints>,
    own: TableId,
    referenced: TableId,
    id: u32,
) -> Result<(), AllocError>
    ensures { OnOk result ((t : ℕ) → numbers_at tables.new.items t
        ≡ with_reference ((t == own) || (t == referenced)) id (numbers_at tables.old.items t)) }
{
    note_foreign_key(alloc, tables, own, id)?;
    if own.place() == referenced.place() {
        return Ok(());
    }
    note_foreign_key(alloc, tables, referenced, id)
}

// Adds the number of a constraint to those of the tables whose rows meet it.
fn note(
    alloc: Global,
    tables: &mut Vec<TableConstraints>,
    id: u32,
    constraint: &Constraint,
) -> Result<(), AllocError>
    ensures { OnOk result ((t : ℕ) → numbers_at tables.new.items t
        ≡ with_constraint constraint.now.rule constraint.now.table id t (numbers_at tables.old.items t)) }
{
    match &constraint.rule {
        Rule::ForeignKey(key) => note_reference(
            alloc,
            tables,
            constraint.table,
            key.referenced,
            id,
        ),
        _ => note_key(alloc, tables, constraint.table, id),
    }
}

/// The numbers for each table, with those of more constraints behind the first `first` ones. Every table that one of
/// them is on or refers to has its place in the list.
pub fn with_constraints(
    alloc: Global,
    tables: &[TableConstraints],
    first: usize,
    more: &[Constraint],
) -> Result<Vec<TableConstraints>, AllocError>
    requires few { first + length more.now ≤ 2 ^ 31 }
    ensures { IfOk result (λ lists. (olds : List Constraint) → length olds ≡ first
        → AreTabled olds tables.now → AreTabled (olds ++ more.now) lists.items) }
{
    let mut lists = copy_tables(alloc, tables)?;
    for (place, constraint) in more.iter().enumerate() {
        note(alloc, &mut lists, (first + place) as u32, constraint)?;
    }
    Ok(lists)
}
