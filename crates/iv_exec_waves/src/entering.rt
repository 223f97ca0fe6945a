//! A wave as it is applied: with numbers for its new rows, and after its BEFORE row triggers.
ghost use Rattle.std.specs.Prelude.{◌≡◌, length};
ghost use Rattle.iv_machine.specs.Waves.{wave_as_applied};
ghost use Rattle.iv_account.specs.Accounts.{entered_told};
ghost use Rattle.iv_laws_rows.specs.Changing.{AnswersAt};
ghost use Rattle.iv_exec_triggers.specs.Recording.{Records};
ghost use Rattle.iv_exec_waves.specs.Progress.{Progress};
ghost use Rattle.iv_exec_waves.specs.Steps.{wave_with};

use crate::numbering::number;
use iv_account::Account;
use iv_catalogue::{Cause, Refusal};
use iv_exec_context::Context;
use iv_exec_triggers::before_rows;
use iv_expr::{Change, TableColumn, Wave};
use iv_machine::MOST_CHANGES_IN_A_TRANSACTION;
use iv_store::ChangeableRows;

// The budget, the changes of the transaction and the row numbers are tested in this order; then the BEFORE
// row triggers run, and are told.
fn prepare<K: ChangeableRows>(
    store: &K,
    context: &Context<'_>,
    budget: u64,
    columns: &[TableColumn],
    changes: &mut [Change],
    account: &mut Account,
) -> Result<(), Refusal>
    ensures length { length changes.exit.now ≡ length changes.entry.now }
    ensures answer { AnswersAt (λ _. wave_with columns.now changes.exit.now)
        (K.view store.now).base.count result
        (wave_as_applied context.now (K.view store.now).base budget
        (wave_with columns.now changes.entry.now)) }
    ensures told { Records result account.old account.new
        (entered_told context.now (K.view store.now).base budget
        (wave_with columns.now changes.entry.now)) }
{
    let size = changes.len() as u64;
    if budget < size {
        return Err(Refusal::of(Cause::TooManyChanges));
    }
    if MOST_CHANGES_IN_A_TRANSACTION - store.change_count() < size {
        return Err(Refusal::of(Cause::TransactionTooLarge));
    }
    if !number(store.next_row(), changes) {
        return Err(Refusal::of(Cause::Limit));
    }
    let alloc = store.allocator();
    before_rows(alloc, context, store, columns, changes, account)
}

// The wave of these changes and columns as it is applied.
pub fn enter<K: ChangeableRows>(
    store: &K,
    context: &Context<'_>,
    budget: u64,
    changes: Vec<Change>,
    columns: Vec<TableColumn>,
    account: &mut Account,
) -> Result<Wave, Refusal>
    requires { Progress context.now (K.view store.now) changes.items }
    ensures answer { AnswersAt (λ wave. wave) (K.view store.now).base.count result
        (wave_as_applied context.now (K.view store.now).base budget
        (wave_with columns.items changes.items)) }
    ensures told { Records result account.old account.new
        (entered_told context.now (K.view store.now).base budget
        (wave_with columns.items changes.items)) }
{
    let mut changes = changes;
    prepare(
        store,
        context,
        budget,
        &columns,
        changes.as_mut_slice(),
        account,
    )?;
    Ok(Wave::from_parts(changes, columns))
}
