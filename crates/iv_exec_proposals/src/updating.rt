//! What an UPDATE or a DELETE proposes ("Update statement: searched", "Delete statement: searched").
ghost use Rattle.std.specs.Prelude.{◌≡◌, ◌++◌, ◌∷◌, [], Ok, Some, map, IfOk};
ghost use Rattle.iv_expr.specs.Evaluation.{and_then};
ghost use Rattle.iv_expr.specs.Scopes.{table_rows};
ghost use Rattle.iv_machine.specs.Context.{each, in_turn};
ghost use Rattle.iv_machine.specs.Databases.{row_at};
ghost use Rattle.iv_machine.specs.Proposals.{deletion, matching_rows, update_of};
ghost use Rattle.iv_exec_context.specs.Answering.{AnswersCause};
ghost use Rattle.iv_exec_proposals.specs.Steps.{added, added_of_numbers, added_of_row};
ghost use Rattle.iv_exec_proposals.specs.Placements.{setting_placed};

use crate::finding::{numbers_where, push};
use crate::making::{row_of, set};
use iv_catalogue::{Cause, Setting};
use iv_exec_context::{Context, stored_value};
use iv_expr::{Change, Cond, Row, Rows, Scope, StoredRow, TableId};
use iv_store::{ChangeableRows, ReferencingRows};
use iv_value::Value;
use std::alloc::{AllocError, Global};

// ---- UPDATE

fn copied(alloc: Global, row: &[Value]) -> Result<Vec<Value>, AllocError>
    ensures { IfOk result (λ values. values.items ≡ row.now) }
{
    let mut values = Vec::with_capacity(alloc, row.len())?;
    for value in row {
        values.push(value.clone()?)?;
    }
    Ok(values)
}

// Sets a column of the row, to the value at the row as it was.
fn place_setting<R: Rows>(
    context: &Context<'_>,
    table: TableId,
    scope: &Scope<'_, R>,
    setting: &Setting,
    row: &mut Vec<Value>,
) -> Result<(), Cause>
    ensures { AnswersCause (λ _. row.new.items) result
        (setting_placed context.now table scope.now setting.now row.old.items) }
{
    let column = setting.column as usize;
    let value = stored_value(context, table, column, &setting.value, scope)?;
    set(row, column, value);
    Ok(())
}

fn place_settings<R: Rows>(
    context: &Context<'_>,
    table: TableId,
    scope: &Scope<'_, R>,
    settings: &[Setting],
    row: &mut Vec<Value>,
) -> Result<(), Cause>
    ensures { AnswersCause (λ _. row.new.items) result
        (in_turn (setting_placed context.now table scope.now) settings.now row.old.items) }
{
    for setting in settings {
        place_setting(context, table, scope, setting, row)?;
    }
    Ok(())
}

// The row with its columns set.
fn updated<R: Rows>(
    alloc: Global,
    context: &Context<'_>,
    table: TableId,
    scope: &Scope<'_, R>,
    settings: &[Setting],
    row: &[Value],
) -> Result<Row, Cause>
    ensures { AnswersCause (λ r. r) result
        (in_turn (setting_placed context.now table scope.now) settings.now row.now) }
{
    let mut values = copied(alloc, row)?;
    place_settings(context, table, scope, settings, &mut values)?;
    row_of(values)
}

// The change of a row to a new one, or to none.
fn changed(row: &StoredRow, new: Option<Row>) -> Result<Change, Cause>
    ensures { AnswersCause (λ c. c) result (Ok (record {
      table = row.now.table;
      row = row.now.number;
      old = Some row.now.values;
      new = new;
    })) }
{
    let old = row.values.clone()?;
    Ok(Change {
        table: row.table,
        row: row.number,
        old: Some(old),
        new,
    })
}

// The update of a row; the values are evaluated at the row as it is before the statement.
fn update_of<R: Rows>(
    alloc: Global,
    context: &Context<'_>,
    scope: &Scope<'_, R>,
    settings: &[Setting],
    row: &StoredRow,
) -> Result<Change, Cause>
    ensures { AnswersCause (λ c. c) result (update_of context.now scope.now settings.now row.now) }
{
    let values = row.values.values();
    let ranges = scope.ranges_with(values);
    let new = updated(
        alloc,
        context,
        row.table,
        &scope.over(&ranges),
        settings,
        values,
    )?;
    changed(row, Some(new))
}

fn push_update<R: Rows>(
    context: &Context<'_>,
    scope: &Scope<'_, R>,
    settings: &[Setting],
    row: &StoredRow,
    changes: &mut Vec<Change>,
) -> Result<(), Cause>
    ensures { AnswersCause (λ _. changes.new.items) result
        (added (update_of context.now scope.now settings.now) row.now changes.old.items) }
{
    let change = update_of(*changes.allocator(), context, scope, settings, row)?;
    push(changes, change)
}

// Adds the update of the row of a number, if it is there.
fn update_number<K: ChangeableRows>(
    store: &K,
    context: &Context<'_>,
    scope: &Scope<'_, K>,
    settings: &[Setting],
    number: u64,
    changes: &mut Vec<Change>,
) -> Result<(), Cause>
    ensures { AnswersCause (λ _. changes.new.items) result
        (added_of_row (update_of context.now scope.now settings.now)
        (row_at (K.view store.now).base.rows number) changes.old.items) }
{
    match store.row(number) {
        Some(row) => push_update(context, scope, settings, row, changes),
        None => Ok(()),
    }
}

fn update_numbers<K: ChangeableRows>(
    store: &K,
    context: &Context<'_>,
    scope: &Scope<'_, K>,
    settings: &[Setting],
    numbers: &[u64],
) -> Result<Vec<Change>, Cause>
    ensures { AnswersCause (λ v. v.items) result
        (added_of_numbers (update_of context.now scope.now settings.now)
        (K.view store.now).base.rows numbers.now) }
{
    let mut changes = Vec::new(store.allocator());
    for number in numbers {
        update_number(store, context, scope, settings, *number, &mut changes)?;
    }
    Ok(changes)
}

/// The updates that an UPDATE proposes, by row number.
pub fn updates<K: ChangeableRows>(
    store: &K,
    context: &Context<'_>,
    scope: &Scope<'_, K>,
    table: TableId,
    settings: &[Setting],
    filter: &Cond,
) -> Result<Vec<Change>, Cause>
    requires { scope.now.rows ≡ (K.view store.now).base.rows }
    ensures { AnswersCause (λ v. v.items) result
        (and_then (matching_rows scope.now filter.now (table_rows scope.now.rows table))
        (each (update_of context.now scope.now settings.now))) }
{
    scope.recall_order();
    let numbers = numbers_where(store.allocator(), scope, table, filter)?;
    update_numbers(store, context, scope, settings, numbers.as_slice())
}

// ---- DELETE

// Adds the deletion of the row of a number, if it is there.
fn delete_number<K: ReferencingRows>(
    store: &K,
    number: u64,
    changes: &mut Vec<Change>,
) -> Result<(), Cause>
    ensures { AnswersCause (λ _. changes.new.items) result
        (added_of_row (λ r. Ok (deletion r))
        (row_at (K.view store.now).base.rows number) changes.old.items) }
{
    match store.row(number) {
        Some(row) => {
            let change = changed(row, None)?;
            push(changes, change)
        }
        None => Ok(()),
    }
}

fn delete_numbers<K: ReferencingRows>(store: &K, numbers: &[u64]) -> Result<Vec<Change>, Cause>
    ensures { AnswersCause (λ v. v.items) result
        (added_of_numbers (λ r. Ok (deletion r)) (K.view store.now).base.rows numbers.now) }
{
    let mut changes = Vec::new(store.allocator());
    for number in numbers {
        delete_number(store, *number, &mut changes)?;
    }
    Ok(changes)
}

/// The deletions that a DELETE proposes, by row number.
pub fn deletions<K: ChangeableRows>(
    store: &K,
    scope: &Scope<'_, K>,
    table: TableId,
    filter: &Cond,
) -> Result<Vec<Change>, Cause>
    requires { scope.now.rows ≡ (K.view store.now).base.rows }
    ensures { AnswersCause (λ v. v.items) result
        (and_then (matching_rows scope.now filter.now (table_rows scope.now.rows table))
        (λ found. Ok (map deletion found))) }
{
    scope.recall_order();
    let numbers = numbers_where(store.allocator(), scope, table, filter)?;
    delete_numbers(store, numbers.as_slice())
}
