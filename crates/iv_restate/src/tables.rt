//! CREATE TABLE and ALTER TABLE.
ghost use Rattle.std.specs.Prelude.{◌≡◌, ◌≤◌, ◌++◌, ◌^◌, ◌<◌, IfOk, IfSome, OnOk, length, map, option_map};
ghost use Rattle.iv_restate.specs.Constraints.{column_constraint_of, table_name_at};
ghost use Rattle.iv_restate.specs.Statements.{add_constraint, column_element, constraint_elements, count_before, count_up_to, create_table, elements_of, is_null_of, null_place};

use crate::columns::definition_of;
use crate::constraints::{column_constraint_of, table_constraint_of, table_name_at};
use iv_catalogue::{Column, Constraint, Rule, Table};
use iv_syntax::{ColumnConstraint, Statement, TableElement};
use sqlite_items::Items;
use std::alloc::{AllocError, Global};

// Whether it is a NOT NULL of the column at this place.
fn is_null_of(constraint: &Constraint, place: u32) -> bool
    ensures { result ≡ is_null_of place constraint.now }
{
    match &constraint.rule {
        Rule::NotNull(column) => *column == place,
        _ => false,
    }
}

// How many constraints there are before the first NOT NULL of the column.
fn null_place(constraints: &[Constraint], place: u32) -> Option<usize>
    ensures place { result ≡ null_place place constraints.now }
    ensures few { IfSome result (λ count. count < length constraints.now) }
{
    match constraints {
        [] => None,
        [first, rest @ ..] => {
            if is_null_of(first, place) {
                return Some(0);
            }
            match null_place(rest, place) {
                Some(count) => Some(count + 1),
                None => None,
            }
        }
    }
}

// The same; 0 if it has none.
fn count_before(constraints: &[Constraint], place: u32) -> usize
    ensures count { result ≡ count_before place constraints.now }
    ensures few { result ≤ length constraints.now }
{
    match null_place(constraints, place) {
        Some(count) => count,
        None => 0,
    }
}

// How many there are up to the last one; 0 if it has none.
fn count_up_to(constraints: &[Constraint], place: u32) -> usize
    ensures count { result ≡ count_up_to place constraints.now }
    ensures few { result ≤ length constraints.now }
{
    match constraints {
        [] => 0,
        [first, rest @ ..] => {
            let count = count_up_to(rest, place);
            if count == 0 {
                if is_null_of(first, place) { 1 } else { 0 }
            } else {
                count + 1
            }
        }
    }
}

// Adds constraints as elements of their own.
fn push_constraints(
    alloc: Global,
    tables: &[Table],
    constraints: &[Constraint],
    elements: &mut Items<TableElement>,
) -> Result<(), AllocError>
    ensures { OnOk result (elements.new ≡ elements.old ++ constraint_elements tables.now constraints.now) }
{
    for constraint in constraints {
        if let Some(written) = table_constraint_of(alloc, tables, constraint)? {
            elements.push(TableElement::Constraint(written))?;
        }
    }
    Ok(())
}

// The constraints of a column.
fn column_constraints(
    alloc: Global,
    tables: &[Table],
    constraints: &[Constraint],
) -> Result<Items<ColumnConstraint>, AllocError>
    ensures { IfOk result (λ ks. ks ≡ map (column_constraint_of tables.now) constraints.now) }
{
    let mut written = Items::new(alloc);
    for constraint in constraints {
        written.push(column_constraint_of(alloc, tables, constraint)?)?;
    }
    Ok(written)
}

fn column_element(
    alloc: Global,
    tables: &[Table],
    column: &Column,
    constraints: &[Constraint],
) -> Result<TableElement, AllocError>
    ensures { IfOk result (λ e. e ≡ column_element tables.now column.now constraints.now) }
{
    let own = column_constraints(alloc, tables, constraints)?;
    Ok(TableElement::Column(definition_of(column, own)?))
}

fn elements_of(
    alloc: Global,
    tables: &[Table],
    columns: &[Column],
    constraints: &[Constraint],
) -> Result<Items<TableElement>, AllocError>
    requires { length columns.now < 2 ^ 32 }
    ensures { IfOk result (λ es. es ≡ elements_of tables.now 0 columns.now constraints.now) }
{
    let mut elements = Items::new(alloc);
    let mut left = constraints;
    let mut place = 0u32;
    for column in columns {
        let (before, from) = left.split_at(count_before(left, place));
        let (own, after) = from.split_at(count_up_to(from, place));
        push_constraints(alloc, tables, before, &mut elements)?;
        elements.push(column_element(alloc, tables, column, own)?)?;
        left = after;
        place += 1;
    }
    push_constraints(alloc, tables, left, &mut elements)?;
    Ok(elements)
}

/// CREATE TABLE of a table with these constraints, in their order: a NOT NULL inside its column, any other as an
/// element of its own. They may be those of its CREATE TABLE, and others of the table that come after them.
pub fn create_table(
    alloc: Global,
    tables: &[Table],
    table: &Table,
    constraints: &[Constraint],
) -> Result<Statement, AllocError>
    requires { length table.now.columns < 2 ^ 32 }
    ensures { IfOk result (λ s. s ≡ create_table tables.now table.now constraints.now) }
{
    let name = table.name.clone()?;
    let elements = elements_of(alloc, tables, table.columns.as_slice(), constraints)?;
    Ok(Statement::CreateTable { name, elements })
}

/// ALTER TABLE that adds a constraint; none of a NOT NULL, which only CREATE TABLE has.
pub fn add_constraint(
    alloc: Global,
    tables: &[Table],
    constraint: &Constraint,
) -> Result<Option<Statement>, AllocError>
    ensures { IfOk result (λ s. s ≡ add_constraint tables.now constraint.now) }
{
    let table = table_name_at(alloc, tables, constraint.table)?;
    match table_constraint_of(alloc, tables, constraint)? {
        Some(constraint) => Ok(Some(Statement::AlterTable { table, constraint })),
        None => Ok(None),
    }
}
