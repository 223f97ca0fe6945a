//! The violations of deferred constraints: what COMMIT would find.
ghost use Rattle.std.specs.Prelude.{◌≡◌, length, IfOk, OnErr, option_copied};
ghost use Rattle.iv_machine.specs.declared.database.Which.TheVariants.{Deferred};
ghost use Rattle.iv_machine.specs.Databases.{is_chosen, row_at, scan};
ghost use Rattle.iv_shown.specs.Pending.{first_met, is_met, meets, met_by, violation_shown, violation_value};

use crate::connection::{Connection, Database};
use crate::constraints::{column_count, constraint_column};
use crate::stored_rows::stored_value;
use iv_catalogue::{Constraint, Fault};
use iv_expr::StoredRow;
use iv_machine::satisfies;
use iv_value::Value;
use std::alloc::AllocError;
use std::slice;

/// What a violation is about, in numbers, as `include/sqlkeep.h` names them.
#[repr(C)]
#[derive(Drop)]
pub struct ShownViolation {
    pub constraint: u32,
    pub table: u32,
    /// How many columns the constraint is of.
    pub columns: u64,
    pub row: u64,
    /// The other row with the same key; 0 where the violation is about none.
    pub other: u64,
}

pub fn keep_pending(connection: &mut Connection) -> Result<usize, AllocError>
    ensures faults { IfOk result (λ _. connection.new.pending.items ≡
        scan connection.old.session.state.database.rows connection.old.session.state.schema.constraints
        (is_chosen connection.old.session.state.modes Deferred)) }
    ensures count { IfOk result (λ n. n ≡ length connection.new.pending.items) }
    ensures rest { connection.new ≡ record connection.old { pending = connection.new.pending } }
    ensures others { OnErr result (connection.new ≡ connection.old) }
{
    connection.pending = connection.session.pending()?;
    Ok(connection.pending.len())
}

// Whether two rows have one key: the one satisfies the constraint by itself, and not beside the other.
fn meets(constraint: &Constraint, row: &StoredRow, other: &StoredRow) -> bool
    ensures { result ≡ meets constraint.now row.now other.now }
{
    satisfies(&[], constraint, row) && !satisfies(slice::from_ref(other), constraint, row)
}

// Whether a violation is one of the same constraint, and of a row with the key of this one.
fn is_met(
    session: &Database,
    constraint: &Constraint,
    row: &StoredRow,
    own: &Fault,
    fault: &Fault,
) -> bool
    ensures { result ≡ is_met session.now.state.database.rows constraint.now own.now.constraint row.now fault.now }
{
    if fault.constraint != own.constraint {
        return false;
    }
    match session.row(fault.row) {
        Some(other) => meets(constraint, row, other),
        None => false,
    }
}

// The row of the first such violation; 0 where there is none.
fn first_met(
    session: &Database,
    pending: &[Fault],
    own: &Fault,
    constraint: &Constraint,
    row: &StoredRow,
) -> u64
    ensures { result ≡ first_met session.now.state.database.rows pending.now own.now constraint.now row.now }
{
    for fault in pending {
        if is_met(session, constraint, row, own, fault) {
            return fault.row;
        }
    }
    0
}

fn met_by(session: &Database, pending: &[Fault], own: &Fault, constraint: &Constraint) -> u64
    ensures { result ≡ met_by session.now.state.database.rows pending.now own.now constraint.now
        (row_at session.now.state.database.rows own.now.row) }
{
    match session.row(own.row) {
        Some(row) => first_met(session, pending, own, constraint, row),
        None => 0,
    }
}

/// What a violation is about. For a key it looks at the violations that were found, up to the first of another row with this key.
pub fn violation_shown(connection: &Connection, fault: &Fault) -> ShownViolation
    ensures { result ≡ violation_shown connection.now.session.state.schema connection.now.session.state.database.rows
        connection.now.pending.items fault.now }
{
    match connection.session.catalogue().constraint(fault.constraint) {
        Some(constraint) => ShownViolation {
            constraint: fault.constraint.place(),
            table: constraint.table.place(),
            columns: column_count(&constraint.rule),
            row: fault.row,
            other: met_by(
                &connection.session,
                connection.pending.as_slice(),
                fault,
                constraint,
            ),
        },
        None => ShownViolation {
            constraint: fault.constraint.place(),
            table: 0,
            columns: 0,
            row: fault.row,
            other: 0,
        },
    }
}

/// The value that the row of a violation has in a column of its constraint, by the column's place there.
pub fn violation_value(connection: &Connection, at: usize, place: usize) -> Option<&Value>
    ensures { option_copied result ≡ violation_value connection.now.session.state.schema
        connection.now.session.state.database.rows connection.now.pending.items at place }
{
    let fault = connection.pending.get(at)?;
    let column = constraint_column(connection, fault.constraint.place() as usize, place)?;
    stored_value(connection, fault.row, column as usize)
}
