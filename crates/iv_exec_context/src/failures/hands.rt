//! A failure with the row at hand. Only what fails is copied.
ghost use Rattle.std.specs.Prelude.{◌≡◌, IfOk};
ghost use Rattle.std.specs.Option.{option_copied};
ghost use Rattle.iv_account.specs.declared.failure.RowAtHand.TheVariants as hand;
ghost use Rattle.iv_account.specs.Failures.{at_row, variables};

use crate::failures::values::PartFailure;
use iv_account::{FailedEvaluation, RowAtHand};
use iv_expr::{Row, Rows, Scope, Side, StoredRow, TableId};
use iv_value::Value;
use std::alloc::{AllocError, Global};

fn row_of(alloc: Global, values: &[Value]) -> Result<Row, AllocError>
    ensures { IfOk result (λ r. r ≡ values.now) }
{
    let copies = values.to_vec(alloc)?;
    Row::new(copies)
}

fn stored(
    alloc: Global,
    table: TableId,
    number: u64,
    values: &[Value],
) -> Result<StoredRow, AllocError>
    ensures { IfOk result (λ r. r
        ≡ record { table = table; number = number; values = values.now }) }
{
    Ok(StoredRow {
        table,
        number,
        values: row_of(alloc, values)?,
    })
}

/// A failure at a row that is looked at or changed.
pub fn at_row(
    alloc: Global,
    table: TableId,
    number: u64,
    values: &[Value],
    failure: Option<PartFailure>,
) -> Result<Option<FailedEvaluation>, AllocError>
    ensures { IfOk result (λ f. f ≡ at_row
        (hand.Row (record { table = table; number = number; values = values.now })) failure) }
{
    match failure {
        Some(failed) => Ok(Some(FailedEvaluation {
            row: RowAtHand::Row(stored(alloc, table, number, values)?),
            part: failed.0,
            failure: failed.1,
        })),
        None => Ok(None),
    }
}

/// A failure at a row from which an INSERT takes its values.
pub fn at_source(
    alloc: Global,
    table: TableId,
    number: u64,
    values: &[Value],
    failure: Option<PartFailure>,
) -> Result<Option<FailedEvaluation>, AllocError>
    ensures { IfOk result (λ f. f ≡ at_row
        (hand.Source (record { table = table; number = number; values = values.now })) failure) }
{
    match failure {
        Some(failed) => Ok(Some(FailedEvaluation {
            row: RowAtHand::Source(stored(alloc, table, number, values)?),
            part: failed.0,
            failure: failed.1,
        })),
        None => Ok(None),
    }
}

fn copied(alloc: Global, side: Option<&[Value]>) -> Result<Option<Row>, AllocError>
    ensures { IfOk result (λ r. r ≡ option_copied side.entry) }
{
    match side {
        Some(values) => Ok(Some(row_of(alloc, values)?)),
        None => Ok(None),
    }
}

// The row variables of a scope.
fn variables<R: Rows>(alloc: Global, scope: &Scope<'_, R>) -> Result<RowAtHand, AllocError>
    ensures { IfOk result (λ h. h ≡ variables scope.now.frame) }
{
    let old = copied(alloc, scope.variable(Side::Old))?;
    let new = copied(alloc, scope.variable(Side::New))?;
    Ok(RowAtHand::Variables { old, new })
}

/// A failure where the row variables of a scope are at hand.
pub fn at_variables<R: Rows>(
    alloc: Global,
    scope: &Scope<'_, R>,
    failure: Option<PartFailure>,
) -> Result<Option<FailedEvaluation>, AllocError>
    ensures { IfOk result (λ f. f ≡ at_row (variables scope.now.frame) failure) }
{
    match failure {
        Some(failed) => Ok(Some(FailedEvaluation {
            row: variables(alloc, scope)?,
            part: failed.0,
            failure: failed.1,
        })),
        None => Ok(None),
    }
}
