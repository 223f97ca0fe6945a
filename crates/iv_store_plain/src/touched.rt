//! The constraints that may be violated: those on a table that was changed since no constraint was violated, and the
//! foreign keys that refer to one. No other constraint is tested.
ghost use Rattle.std.specs.Prelude.{◌≡◌, ◌≤◌, ◌*◌, ◌∷◌, ◌==◌, [], length, OnOk, OnErr};
ghost use Rattle.std.specs.List.{list_any};
ghost use Rattle.iv_catalogue.specs.declared.limits.TheConstants.{MOST_CONSTRAINTS, MOST_TABLES};
ghost use Rattle.iv_machine.specs.Databases.{scan, is_chosen, chosen_violations, first};
ghost use Rattle.iv_store_plain.specs.Suspects.{Clean, refers_to, is_about, is_suspect, with_table, with_new};

use iv_catalogue::{Constraint, Fault, MOST_CONSTRAINTS, MOST_TABLES, Rule};
use iv_expr::{StoredRow, TableId};
use iv_machine::{Which, first_fault_of};
use iv_syntax::ConstraintMode;
use std::alloc::AllocError;

fn refers_to(rule: &Rule, table: TableId) -> bool
    ensures { result ≡ refers_to table rule.now }
{
    match rule {
        Rule::ForeignKey(key) => key.referenced == table,
        _ => false,
    }
}

// Whether a constraint is on a table or refers to it.
fn is_about(constraint: &Constraint, table: TableId) -> bool
    ensures { result ≡ is_about constraint.now table }
{
    constraint.table == table || refers_to(&constraint.rule, table)
}

// Whether a constraint is about one of these tables.
fn is_suspect(touched: &[TableId], constraint: &Constraint) -> bool
    ensures { result ≡ is_suspect touched.now constraint.now }
{
    touched.iter().any(|table| is_about(constraint, *table))
}

fn is_touched(touched: &[TableId], table: TableId) -> bool
    ensures { result ≡ list_any (λ t. t == table) touched.now }
{
    touched.contains(&table)
}

/// Adds a table to those that were changed, unless it is there.
pub fn touch(touched: &mut Vec<TableId>, table: TableId) -> Result<(), AllocError>
    ensures ok { OnOk result (touched.new.items ≡ with_table table touched.old.items) }
    ensures err { OnErr result (touched.new.items ≡ touched.old.items) }
{
    if !is_touched(touched.as_slice(), table) {
        touched.push(table)?;
    }
    Ok(())
}

fn has_rows(rows: &[StoredRow], table: TableId) -> bool
    ensures { result ≡ list_any (λ r. r.table == table) rows.now }
{
    rows.iter().any(|row| row.table == table)
}

/// Adds the table of new constraints to those that were changed, if it has rows.
pub fn touch_new(
    touched: &mut Vec<TableId>,
    rows: &[StoredRow],
    constraints: &[Constraint],
) -> Result<(), AllocError>
    ensures ok { OnOk result (touched.new.items ≡
        with_new rows.now constraints.now touched.old.items) }
    ensures err { OnErr result (touched.new.items ≡ touched.old.items) }
{
    match constraints {
        [] => Ok(()),
        [first, ..] => {
            if has_rows(rows, first.table) {
                touch(touched, first.table)
            } else {
                Ok(())
            }
        }
    }
}

// The first violation of a constraint, if it is chosen and may be violated.
fn suspect_fault(
    touched: &[TableId],
    rows: &[StoredRow],
    modes: &[ConstraintMode],
    which: Which,
    id: u32,
    constraint: &Constraint,
) -> Option<Fault>
    requires { Clean touched.now rows.now (constraint.now ∷ []) }
    ensures { result ≡
        first (chosen_violations rows.now (is_chosen modes.now which) id constraint.now) }
{
    if is_suspect(touched, constraint) {
        first_fault_of(rows, modes, which, id, constraint)
    } else {
        None
    }
}

/// The first violation that the scan finds, in creation order of the constraints, then by row, if only constraints on
/// tables that were changed may be violated.
pub fn first_fault(
    touched: &[TableId],
    rows: &[StoredRow],
    constraints: &[Constraint],
    modes: &[ConstraintMode],
    which: Which,
) -> Option<Fault>
    requires few { length constraints.now ≤ MOST_TABLES * MOST_CONSTRAINTS }
    requires clean { Clean touched.now rows.now constraints.now }
    ensures { result ≡ first (scan rows.now constraints.now (is_chosen modes.now which)) }
{
    let mut id = 0u32;
    for constraint in constraints {
        if let Some(fault) = suspect_fault(touched, rows, modes, which, id, constraint) {
            return Some(fault);
        }
        id += 1;
    }
    None
}

/// Drops all tables from those that were changed, if no constraint is violated.
pub fn settle_touched(touched: &mut Vec<TableId>, rows: &[StoredRow], constraints: &[Constraint])
    requires few { length constraints.now ≤ MOST_TABLES * MOST_CONSTRAINTS }
    requires clean { Clean touched.old.items rows.now constraints.now }
    ensures { Clean touched.new.items rows.now constraints.now }
{
    if first_fault(touched.as_slice(), rows, constraints, &[], Which::All).is_none() {
        touched.clear();
    }
}
