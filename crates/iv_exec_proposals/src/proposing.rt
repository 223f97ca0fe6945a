//! What a data statement proposes.
ghost use Rattle.std.specs.Prelude.{◌≡◌};
ghost use Rattle.iv_machine.specs.Proposals.{proposed_changes};
ghost use Rattle.iv_exec_context.specs.Answering.{AnswersCause};

use crate::inserting::insertions;
use crate::updating::{deletions, updates};
use iv_catalogue::{Cause, DataStatement};
use iv_exec_context::Context;
use iv_expr::{Change, Frame, Scope};
use iv_store::ChangeableRows;

/// The changes that a data statement proposes, in the order of its rows; new rows have no number yet. The condition is
/// evaluated at all rows before any value is made. No row is copied to look at it.
pub fn proposed<'x, K: ChangeableRows>(
    store: &'x K,
    context: &Context<'_>,
    frame: &'x Frame<'x>,
    statement: &DataStatement,
) -> Result<Vec<Change>, Cause>
    ensures { AnswersCause (λ v. v.items) result
        (proposed_changes context.now (K.view store.now).base frame.now statement.now) }
{
    let scope = Scope::new(store, frame);
    match statement {
        DataStatement::Insert {
            table,
            columns,
            rows,
        } => insertions(store, context, &scope, *table, columns, rows),
        DataStatement::Update {
            table,
            settings,
            filter,
        } => updates(store, context, &scope, *table, settings.as_slice(), filter),
        DataStatement::Delete { table, filter } => deletions(store, &scope, *table, filter),
    }
}
