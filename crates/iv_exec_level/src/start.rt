//! What comes before and after the waves of a level.
ghost use Rattle.std.specs.Prelude.{◌≡◌, true, List, IfOk, Ok, OnOk};
ghost use Rattle.iv_value.specs.declared.value.Truth.{Truth as TruthValue};
ghost use Rattle.iv_value.specs.Truths.{is_true};
ghost use Rattle.iv_expr.specs.Evaluation.{and_then, truth};
ghost use Rattle.iv_expr.specs.Scopes.{scope_of};
ghost use Rattle.iv_laws_levels.specs.FittingWaves.{Chain};
ghost use Rattle.iv_machine.specs.declared.database.Database.{Database};
ghost use Rattle.iv_machine.specs.Levels.{immediate_check, level_columns};
ghost use Rattle.iv_machine.specs.Proposals.{holds, set_columns};
ghost use Rattle.iv_machine.specs.Waves.{net_wave};
ghost use Rattle.iv_laws_rows.specs.RowFits.{StatementFits, changes_fit};
ghost use Rattle.iv_laws_rows.specs.Changing.{AnswersAt, StoreFits};
ghost use Rattle.iv_exec_triggers.specs.Recording.{Records};
ghost use Rattle.iv_exec_waves.specs.Applying.{Proposes};
ghost use Rattle.iv_exec_waves.specs.Running.{LeavesStore};
ghost use Rattle.iv_account.specs.declared.entry.Entry.{Entry};
ghost use Rattle.iv_account.specs.Accounts.{check_told, told_or, waves_told};
ghost use Rattle.iv_catalogue.specs.Refusals.{cause_of};
ghost use Rattle.iv_catalogue.specs.declared.cause.Cause.{Cause as CauseValue};
ghost use Rattle.iv_exec_level.specs.Firing.{MayBeParts};
ghost use Rattle.iv_exec_waves.specs.Steps.{wave_with};
ghost use Rattle.iv_exec_level.specs.Settled.{Settles, Tells};
ghost use Rattle.iv_exec_level.specs.Steps.{allowed_told, allowed_wave};

use iv_account::Account;
use iv_catalogue::{Cause, DataStatement, Refusal, Trigger};
use iv_exec_context::{Context, tell_proposal};
use iv_exec_proposals::proposed;
use iv_exec_triggers::{
    Transitions, before_statement, level_columns, may_fire, set_columns, transitions,
    transitions_of, truth_of_when,
};
use iv_exec_waves::settle;
use iv_expr::{Change, Frame, Scope, TableColumn, Wave};
use iv_machine::Which;
use iv_store::ChangeableRows;
use iv_value::Truth;
use std::alloc::{AllocError, Global};

/// What a statement proposes, unless a BEFORE statement trigger refuses it. What fails in the proposal is told.
pub fn allowed<'x, K: ChangeableRows>(
    store: &'x K,
    context: &Context<'_>,
    statement: &DataStatement,
    frame: &'x Frame<'x>,
    account: &mut Account,
) -> Result<Vec<Change>, Refusal>
    requires store { StoreFits context.now.schema (K.view store.now) }
    requires statement { StatementFits context.now.schema.tables frame.now statement.now }
    ensures answer { AnswersAt (λ changes. wave_with (set_columns statement.now) changes.items)
        (K.view store.now).base.count result
        (allowed_wave context.now statement.now frame.now (K.view store.now).base) }
    ensures fit { IfOk result (λ changes. changes_fit context.now.schema.tables changes.items
        ≡ true) }
    ensures proposed { IfOk result
        (λ changes. Proposes context.now (K.view store.now).base changes.items) }
    ensures told { Records result account.old account.new
        (allowed_told context.now statement.now frame.now (K.view store.now).base) }
{
    match proposed(store, context, frame, statement) {
        Ok(changes) => match before_statement(context, store, statement, account) {
            Ok(()) => Ok(changes),
            Err(refusal) => {
                drop(changes);
                Err(refusal)
            }
        },
        Err(cause) => {
            tell_proposal(
                context.catalogue(),
                store,
                frame,
                statement,
                &cause,
                account,
            )?;
            Err(Refusal::of(cause))
        }
    }
}

/// Refuses with the first violation of an immediate constraint, and records it.
pub fn check<K: ChangeableRows>(
    store: &K,
    context: &Context<'_>,
    account: &mut Account,
) -> Result<(), Refusal>
    requires { (K.view store.now).constraints ≡ context.now.schema.constraints }
    ensures answer { AnswersAt (λ _. tt) (K.view store.now).base.count result
        (immediate_check context.now (K.view store.now).base) }
    ensures told { Records result account.old account.new
        (check_told context.now (K.view store.now).base) }
{
    match store.first_fault(context.modes(), Which::Immediate) {
        Some(fault) => {
            account.violated(store, context.catalogue(), &fault)?;
            Err(Refusal::of(Cause::Violation(fault)))
        }
        None => Ok(()),
    }
}

/// What the waves of a level tell its AFTER triggers: the net changes by table and event, and the columns that the
/// statement and its waves name.
#[derive(Drop)]
pub struct LevelChanges {
    pub transitions: Transitions,
    pub columns: Vec<TableColumn>,
}

// What these waves tell; none if no trigger may fire on them.
fn level_changes(
    alloc: Global,
    context: &Context<'_>,
    statement: &DataStatement,
    waves: &[Wave],
) -> Result<Option<LevelChanges>, AllocError>
    ensures { IfOk result (λ told. (db last : Database) → Chain db waves.now last
        → Tells context.now statement.now (level_columns statement.now waves.now)
        (net_wave db.rows last.rows waves.now) told) }
{
    if !may_fire(context, statement, waves) {
        return Ok(None);
    }
    let columns = level_columns(alloc, statement, waves)?;
    let net = transitions(alloc, waves)?;
    let transitions = transitions_of(alloc, &net);
    drop(net);
    Ok(Some(LevelChanges {
        transitions: transitions?,
        columns,
    }))
}

/// Applies the changes that a statement proposes and what follows from them, and answers what the AFTER triggers need.
/// If no trigger may fire, nothing is made for them.
pub fn settle_waves<K: ChangeableRows>(
    store: &mut K,
    context: &Context<'_>,
    statement: &DataStatement,
    budget: &mut u64,
    changes: Vec<Change>,
    account: &mut Account,
) -> Result<Option<LevelChanges>, Refusal>
    requires store { StoreFits context.now.schema (K.view store.old) }
    requires fit { changes_fit context.now.schema.tables changes.items ≡ true }
    requires proposed { Proposes context.now (K.view store.old).base changes.items }
    ensures answer { Settles context.now statement.now (K.view store.old).base budget.old
        changes.items (K.view store.new).base budget.new result }
    ensures parts { IfOk result (λ told. MayBeParts context.now.schema.tables told) }
    ensures store { LeavesStore context.now.schema result
        (K.view store.old) (K.lookups store.old) (K.view store.new) (K.lookups store.new) }
    ensures told { Records result account.old account.new
        (waves_told context.now (K.view store.old).base budget.old
        (wave_with (set_columns statement.now) changes.items)) }
{
    let columns = set_columns(store.allocator(), statement)?;
    let waves = settle(store, context, budget, changes, columns, account)?;
    Ok(level_changes(store.allocator(), context, statement, waves.as_slice())?)
}

/// The truth of a trigger's WHEN, which sees the store as it is.
pub fn when_of<'x, K: ChangeableRows>(
    store: &'x K,
    trigger: &Trigger,
    frame: &'x Frame<'x>,
) -> Result<Truth, Cause>
    ensures effect { holds (scope_of frame.now (K.view store.now).base.rows) trigger.now.when
        ≡ and_then result (λ t. Ok (is_true t)) }
    ensures told { (failed : CauseValue → List Entry) (tell : TruthValue → List Entry) → told_or
        (truth (scope_of frame.now (K.view store.now).base.rows) trigger.now.when)
        (λ fault. failed (cause_of fault)) tell ≡ told_or result failed tell }
{
    let scope = Scope::new(store, frame);
    truth_of_when(trigger, &scope)
}
