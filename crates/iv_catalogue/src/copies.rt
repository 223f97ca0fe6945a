//! Copies of tables and constraints. Names and texts are shared; trees are copied node by node.
ghost use Rattle.std.specs.Prelude.{◌≡◌, Ok, IfOk};

use crate::{Column, Constraint, ForeignKey, Rule, Table};
use iv_expr::{Cond, Expr};
use sqlite_items::{Boxed, Items};
use std::alloc::{AllocError, Global};

// Both; an allocation failed if it did for one.
fn both<T: Drop>(
    left: Result<T, AllocError>,
    right: Result<T, AllocError>,
) -> Result<(T, T), AllocError>
    ensures { IfOk result (λ pair. (left ≡ Ok pair.0) × (right ≡ Ok pair.1)) }
{
    Ok((left?, right?))
}

// An expression again.
#[cycle(copy_expr)]
fn copy_expr(alloc: Global, expr: &Expr) -> Result<Expr, AllocError>
    ensures { IfOk result (λ copy. copy ≡ expr.now) }
{
    match expr {
        Expr::Literal(literal) => Ok(Expr::Literal(literal.clone()?)),
        Expr::Column(range, column) => Ok(Expr::Column(*range, *column)),
        Expr::Variable(side, column) => Ok(Expr::Variable(*side, *column)),
        Expr::Plus(left, right) => {
            let (left, right) = both(
                boxed_expr(alloc, left.get()),
                boxed_expr(alloc, right.get()),
            )?;
            Ok(Expr::Plus(left, right))
        }
        Expr::Minus(left, right) => {
            let (left, right) = both(
                boxed_expr(alloc, left.get()),
                boxed_expr(alloc, right.get()),
            )?;
            Ok(Expr::Minus(left, right))
        }
        Expr::Times(left, right) => {
            let (left, right) = both(
                boxed_expr(alloc, left.get()),
                boxed_expr(alloc, right.get()),
            )?;
            Ok(Expr::Times(left, right))
        }
    }
}

#[cycle(copy_expr)]
fn boxed_expr(alloc: Global, expr: &Expr) -> Result<Boxed<Expr>, AllocError>
    ensures { IfOk result (λ copy. copy ≡ expr.now) }
{
    Boxed::new(alloc, copy_expr(alloc, expr)?)
}

// A condition again.
#[cycle(copy_cond)]
fn copy_cond(alloc: Global, cond: &Cond) -> Result<Cond, AllocError>
    ensures { IfOk result (λ copy. copy ≡ cond.now) }
{
    match cond {
        Cond::Always => Ok(Cond::Always),
        Cond::Compare(comparison, left, right) => {
            let (left, right) = both(copy_expr(alloc, left), copy_expr(alloc, right))?;
            Ok(Cond::Compare(*comparison, left, right))
        }
        Cond::IsNull(expr) => Ok(Cond::IsNull(copy_expr(alloc, expr)?)),
        Cond::Not(part) => Ok(Cond::Not(boxed_cond(alloc, part.get())?)),
        Cond::And(left, right) => {
            let (left, right) = both(
                boxed_cond(alloc, left.get()),
                boxed_cond(alloc, right.get()),
            )?;
            Ok(Cond::And(left, right))
        }
        Cond::Or(left, right) => {
            let (left, right) = both(
                boxed_cond(alloc, left.get()),
                boxed_cond(alloc, right.get()),
            )?;
            Ok(Cond::Or(left, right))
        }
        Cond::Exists(range, part) => Ok(Cond::Exists(*range, boxed_cond(alloc, part.get())?)),
    }
}

#[cycle(copy_cond)]
fn boxed_cond(alloc: Global, cond: &Cond) -> Result<Boxed<Cond>, AllocError>
    ensures { IfOk result (λ copy. copy ≡ cond.now) }
{
    Boxed::new(alloc, copy_cond(alloc, cond)?)
}

/// A copy of a foreign key.
pub fn copy_foreign_key(alloc: Global, key: &ForeignKey) -> Result<ForeignKey, AllocError>
    ensures { IfOk result (λ copy. copy ≡ key.now) }
{
    Ok(ForeignKey {
        columns: Items::from_slice(alloc, key.columns.as_slice())?,
        referenced: key.referenced,
        key: Items::from_slice(alloc, key.key.as_slice())?,
        matching: key.matching,
        on_delete: key.on_delete,
        on_update: key.on_update,
    })
}

// A rule again.
fn copy_rule(alloc: Global, rule: &Rule) -> Result<Rule, AllocError>
    ensures { IfOk result (λ copy. copy ≡ rule.now) }
{
    match rule {
        Rule::NotNull(column) => Ok(Rule::NotNull(*column)),
        Rule::Check(condition) => Ok(Rule::Check(copy_cond(alloc, condition)?)),
        Rule::Unique(nulls, columns) => Ok(Rule::Unique(
            *nulls,
            Items::from_slice(alloc, columns.as_slice())?,
        )),
        Rule::PrimaryKey(columns) => Ok(Rule::PrimaryKey(Items::from_slice(
            alloc,
            columns.as_slice(),
        )?)),
        Rule::ForeignKey(key) => Ok(Rule::ForeignKey(copy_foreign_key(alloc, key)?)),
    }
}

/// A copy of a constraint.
pub fn copy_constraint(alloc: Global, constraint: &Constraint) -> Result<Constraint, AllocError>
    ensures { IfOk result (λ copy. copy ≡ constraint.now) }
{
    // The rule is last: nothing that may fail comes after it, where it would be dropped variant by variant.
    let name = constraint.name.clone()?;
    Ok(Constraint {
        name,
        table: constraint.table,
        rule: copy_rule(alloc, &constraint.rule)?,
        deferrable: constraint.deferrable,
        initially: constraint.initially,
    })
}

/// Copies of constraints, in their order.
pub fn copy_constraints(
    alloc: Global,
    constraints: &[Constraint],
) -> Result<Vec<Constraint>, AllocError>
    ensures { IfOk result (λ copy. copy.items ≡ constraints.now) }
{
    let mut copy = Vec::with_capacity(alloc, constraints.len())?;
    for constraint in constraints {
        copy.push(copy_constraint(alloc, constraint)?)?;
    }
    Ok(copy)
}

// A column again.
fn copy_column(column: &Column) -> Result<Column, AllocError>
    ensures { IfOk result (λ copy. copy ≡ column.now) }
{
    Ok(Column {
        name: column.name.clone()?,
        kind: column.kind,
        default: column.default.clone()?,
    })
}

// Columns again, in their order.
fn copy_columns(alloc: Global, columns: &[Column]) -> Result<Items<Column>, AllocError>
    ensures { IfOk result (λ copy. copy ≡ columns.now) }
{
    let mut copy = Vec::with_capacity(alloc, columns.len())?;
    for column in columns {
        copy.push(copy_column(column)?)?;
    }
    Ok(Items::from_vec(copy))
}

/// A copy of a table.
pub fn copy_table(alloc: Global, table: &Table) -> Result<Table, AllocError>
    ensures { IfOk result (λ copy. copy ≡ table.now) }
{
    Ok(Table {
        name: table.name.clone()?,
        columns: copy_columns(alloc, table.columns.as_slice())?,
    })
}
