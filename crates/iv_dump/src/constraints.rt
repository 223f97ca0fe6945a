//! Which constraints of a table its CREATE TABLE has.
ghost use Rattle.std.specs.Prelude.{◌≡◌, ◌≤◌, IfOk, filter, length};
ghost use Rattle.std.specs.List.{list_any};
ghost use Rattle.iv_dump.specs.Dumps.{has_null_after_key, is_null_in, is_other, is_own_key};
ghost use Rattle.iv_dump.specs.Making.{own_count};

use crate::refusal::DumpRefusal;
use iv_catalogue::{Constraint, Rule, copy_constraint};
use iv_expr::TableId;
use std::alloc::Global;

/// How many of these constraints come before those of the table at this place and of later ones.
pub fn count_earlier(constraints: &[Constraint], place: usize) -> usize
    ensures { result ≤ length constraints.now }
{
    let mut count = 0usize;
    for constraint in constraints {
        if constraint.table.place() as usize >= place {
            return count;
        }
        count += 1;
    }
    count
}

/// How many of these constraints are of the table at this place before one of another table comes.
pub fn count_own(constraints: &[Constraint], place: usize) -> usize
    ensures count { result ≡ own_count place constraints.now }
    ensures few { result ≤ length constraints.now }
{
    let mut count = 0usize;
    for constraint in constraints {
        if constraint.table.place() as usize != place {
            return count;
        }
        count += 1;
    }
    count
}

// A foreign key that refers to its own table.
fn is_own_key(constraint: &Constraint) -> bool
    ensures { result ≡ is_own_key constraint.now }
{
    match &constraint.rule {
        Rule::ForeignKey(key) => key.referenced.place() == constraint.table.place(),
        _ => false,
    }
}

// A NOT NULL of this table.
fn is_null_in(table: TableId, constraint: &Constraint) -> bool
    ensures { result ≡ is_null_in table constraint.now }
{
    match &constraint.rule {
        Rule::NotNull(_) => constraint.table.place() == table.place(),
        _ => false,
    }
}

fn has_null_in(table: TableId, constraints: &[Constraint]) -> bool
    ensures { result ≡ list_any (is_null_in table) constraints.now }
{
    constraints
        .iter()
        .any(|constraint| is_null_in(table, constraint))
}

/// Whether a NOT NULL comes after a foreign key of its table that refers to this table.
pub fn has_null_after_key(constraints: &[Constraint]) -> bool
    ensures { result ≡ has_null_after_key constraints.now }
{
    let mut left = constraints;
    'key: while let [first, rest @ ..] = left {
        if is_own_key(first) && has_null_in(first.table, rest) {
            return true;
        }
        left = rest;
    }
    false
}

/// How many of these constraints come before the first foreign key that refers to its own table.
pub fn count_before_own_key(constraints: &[Constraint]) -> usize
    ensures { result ≤ length constraints.now }
{
    let mut count = 0usize;
    for constraint in constraints {
        if is_own_key(constraint) {
            return count;
        }
        count += 1;
    }
    count
}

/// Copies of the constraints that are foreign keys to their own table.
pub fn own_keys(alloc: Global, constraints: &[Constraint]) -> Result<Vec<Constraint>, DumpRefusal>
    ensures { IfOk result (λ found. found.items ≡ filter is_own_key constraints.now) }
{
    let mut found = Vec::new(alloc);
    for constraint in constraints {
        if is_own_key(constraint) {
            found.push(copy_constraint(alloc, constraint)?)?;
        }
    }
    Ok(found)
}

/// Copies of the other constraints.
pub fn others(alloc: Global, constraints: &[Constraint]) -> Result<Vec<Constraint>, DumpRefusal>
    ensures { IfOk result (λ rest. rest.items ≡ filter is_other constraints.now) }
{
    let mut rest = Vec::new(alloc);
    for constraint in constraints {
        if !is_own_key(constraint) {
            rest.push(copy_constraint(alloc, constraint)?)?;
        }
    }
    Ok(rest)
}
