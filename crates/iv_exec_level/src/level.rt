//! A level: one data statement, the waves that follow from it, and the triggers that it fires.
ghost use Rattle.std.specs.Prelude.{◌≡◌, ◌-◌, ◌≤◌, ◌<◌, ◌∷◌, [], List, length, map, true, false, OnOk};
ghost use Rattle.std.specs.List.{list_all};
ghost use Rattle.iv_catalogue.specs.Catalogues.{BodiesWithinLimit};
ghost use Rattle.iv_catalogue.specs.declared.limits.TheConstants.{MOST_BODY_STATEMENTS};
ghost use Rattle.iv_expr.specs.Scopes.{no_frame};
ghost use Rattle.iv_laws_fitting.specs.PlanShapes.{data_suits, plain_shape, trigger_suits};
ghost use Rattle.iv_expr.specs.Changes.{Wave as Changes};
ghost use Rattle.iv_expr.specs.declared.wave.TableColumn.{TableColumn as Column};
ghost use Rattle.iv_machine.specs.BeforeTriggers.{for_each_row, placed_statements};
ghost use Rattle.iv_machine.specs.Levels.{body_run, firing_run, firings_run, level, nested_level, row_firing, statement_firing, statement_run};
ghost use Rattle.iv_laws_rows.specs.RowFits.{BodyFits, StatementFits, changes_fit};
ghost use Rattle.iv_exec_triggers.specs.ByTable.{after_firings, all_firings};
ghost use Rattle.iv_laws_rows.specs.Changing.{AnswersAt, StoreFits, UnlessMemory, database_and_size, with_database};
ghost use Rattle.iv_exec_triggers.specs.Recording.{Records};
ghost use Rattle.iv_exec_waves.specs.Applying.{Proposes};
ghost use Rattle.iv_exec_waves.specs.Running.{LeavesStore};
ghost use Rattle.iv_store.specs.Lookups.{LooksUp};
ghost use Rattle.iv_account.specs.Accounts.{account as account_of, body_told, finished_told, firing_told, firings_told, level_told};
ghost use Rattle.iv_account.specs.Accounts.{nested_told, statement_told, waves_and_after_told};
ghost use Rattle.iv_exec_level.specs.Firing.{ActionFits, AreParts, AreTransitions, CanFire, MayBeParts};
ghost use Rattle.iv_exec_level.specs.Settled.{Tells};
ghost use Rattle.iv_exec_waves.specs.Steps.{wave_with};
ghost use Rattle.iv_machine.specs.Proposals.{set_columns};
ghost use Rattle.iv_exec_level.specs.Steps.{Finishes, Progresses, body_run_where_true, finished, firing_of, innermost, progress, waves_and_after};

use crate::lent::{recall_transitions, row_frame, statement_at, statement_frame, trigger_at};
use crate::start::{LevelChanges, allowed, check, settle_waves, when_of};
use iv_account::Account;
use iv_catalogue::{BodyStatement, Catalogue, Cause, DataStatement, Refusal, Trigger, TriggerId};
use iv_exec_context::{Context, tell_when};
use iv_exec_triggers::{Fires, Transitions, firings, is_true};
use iv_expr::{Change, Frame, TableColumn};
use iv_machine::Limits;
use iv_modes::Modes;
use iv_store::ChangeableRows;

// A statement at a place of a trigger's body. SET is only for BEFORE triggers. A data statement is told to begin, and
// to end unless it is refused.
#[cycle(level)]
fn run_statement<K: ChangeableRows>(
    store: &mut K,
    context: &Context<'_>,
    trigger: &Trigger,
    frame: &Frame<'_>,
    place: u32,
    statement: &BodyStatement,
    deeper: u8,
    budget: &mut u64,
    account: &mut Account,
) -> Result<(), Refusal>
    requires store { StoreFits context.now.schema (K.view store.old) }
    requires statement { ActionFits context.now.schema.tables frame.now statement.now }
    ensures answer { Progresses result (K.view store.new).base budget.new
        (statement_run (nested_level deeper context.now)
        (firing_of trigger.now frame.now) place statement.now
        (progress (K.view store.old).base budget.old)) }
    ensures store { LeavesStore context.now.schema result
        (K.view store.old) (K.lookups store.old) (K.view store.new) (K.lookups store.new) }
    ensures told { Records result account.old account.new
        (statement_told (nested_level deeper context.now) (nested_told deeper context.now)
        (firing_of trigger.now frame.now) place statement.now
        (progress (K.view store.old).base budget.old)) }
{
    match statement {
        BodyStatement::Data(statement) => {
            account.began(place)?;
            nested(
                store, &*context, trigger.id, statement, &*frame, deeper, budget, account,
            )?;
            account.ended()?;
            Ok(())
        }
        BodyStatement::Signal(_) => Err(Refusal::of(Cause::Signal(trigger.id, place))),
        BodyStatement::Set(_) => Ok(()),
    }
}

// A data statement of a trigger's body.
#[cycle(level)]
fn nested<K: ChangeableRows>(
    store: &mut K,
    context: &Context<'_>,
    trigger: TriggerId,
    statement: &DataStatement,
    frame: &Frame<'_>,
    deeper: u8,
    budget: &mut u64,
    account: &mut Account,
) -> Result<u64, Refusal>
    requires store { StoreFits context.now.schema (K.view store.old) }
    requires statement { StatementFits context.now.schema.tables frame.now statement.now }
    ensures answer { Finishes result (K.view store.new).base budget.new
        (nested_level deeper context.now trigger statement.now frame.now
        (K.view store.old).base budget.old) }
    ensures store { LeavesStore context.now.schema result
        (K.view store.old) (K.lookups store.old) (K.view store.new) (K.lookups store.new) }
    ensures told { Records result account.old account.new
        (nested_told deeper context.now trigger statement.now frame.now
        (K.view store.old).base budget.old) }
{
    if deeper == 0 {
        return Err(Refusal::of(Cause::DepthLimit(trigger)));
    }
    run_level(
        store,
        &*context,
        statement,
        &*frame,
        deeper - 1,
        budget,
        account,
    )
}

// The statements of a trigger's body, in their order.
#[cycle(level)]
fn run_body<K: ChangeableRows>(
    store: &mut K,
    context: &Context<'_>,
    trigger: &Trigger,
    frame: &Frame<'_>,
    deeper: u8,
    budget: &mut u64,
    account: &mut Account,
) -> Result<(), Refusal>
    requires store { StoreFits context.now.schema (K.view store.old) }
    requires fires { CanFire context.now.schema.tables trigger.now }
    requires body { BodyFits context.now.schema.tables frame.now trigger.now.body }
    ensures answer { Progresses result (K.view store.new).base budget.new
        (body_run (nested_level deeper context.now)
        (firing_of trigger.now frame.now) (placed_statements trigger.now)
        (progress (K.view store.old).base budget.old)) }
    ensures store { LeavesStore context.now.schema result
        (K.view store.old) (K.lookups store.old) (K.view store.new) (K.lookups store.new) }
    ensures told { Records result account.old account.new
        (body_told (nested_level deeper context.now) (nested_told deeper context.now)
        (firing_of trigger.now frame.now) (placed_statements trigger.now)
        (progress (K.view store.old).base budget.old)) }
{
    let body = trigger.body.as_slice();
    let mut at = 0usize;
    let mut place = 1u32;
    while at < body.len() {
        let statement = statement_at(&*context, &*frame, body, at);
        run_statement(
            store, &*context, trigger, &*frame, place, statement, deeper, budget, account,
        )?;
        at += 1;
        place += 1;
    }
    Ok(())
}

// The body of a trigger, if its WHEN is true. That the trigger runs, or is skipped, is told before its body runs, and so
// is what fails in its WHEN.
#[cycle(level)]
fn run_where_true<K: ChangeableRows>(
    store: &mut K,
    context: &Context<'_>,
    trigger: &Trigger,
    frame: &Frame<'_>,
    deeper: u8,
    budget: &mut u64,
    account: &mut Account,
) -> Result<(), Refusal>
    requires store { StoreFits context.now.schema (K.view store.old) }
    requires fires { CanFire context.now.schema.tables trigger.now }
    requires body { BodyFits context.now.schema.tables frame.now trigger.now.body }
    ensures answer { Progresses result (K.view store.new).base budget.new
        (body_run_where_true (nested_level deeper context.now)
        (firing_of trigger.now frame.now)
        (progress (K.view store.old).base budget.old)) }
    ensures store { LeavesStore context.now.schema result
        (K.view store.old) (K.lookups store.old) (K.view store.new) (K.lookups store.new) }
    ensures told { Records result account.old account.new
        (firing_told (nested_level deeper context.now) (nested_told deeper context.now)
        (firing_of trigger.now frame.now)
        (progress (K.view store.old).base budget.old)) }
{
    let when = match when_of(&*store, trigger, &*frame) {
        Ok(when) => when,
        Err(cause) => {
            tell_when(&*store, trigger, &*frame, &cause, account)?;
            return Err(Refusal::of(cause));
        }
    };
    account.ran_or_skipped(trigger, &*frame, when)?;
    if is_true(when) {
        run_body(store, &*context, trigger, &*frame, deeper, budget, account)
    } else {
        Ok(())
    }
}

// The innermost trigger of a refusal that comes while this one runs.
fn innermost(trigger: TriggerId, inner: Option<TriggerId>) -> Option<TriggerId>
    ensures { result ≡ innermost trigger inner }
{
    match inner {
        Some(inner) => Some(inner),
        None => Some(trigger),
    }
}

// A trigger at one firing. A refusal names it, unless the refusal comes from another trigger that it fires.
#[cycle(level)]
fn fire<K: ChangeableRows>(
    store: &mut K,
    context: &Context<'_>,
    trigger: &Trigger,
    frame: &Frame<'_>,
    deeper: u8,
    budget: &mut u64,
    account: &mut Account,
) -> Result<(), Refusal>
    requires store { StoreFits context.now.schema (K.view store.old) }
    requires fires { CanFire context.now.schema.tables trigger.now }
    requires body { BodyFits context.now.schema.tables frame.now trigger.now.body }
    ensures answer { Progresses result (K.view store.new).base budget.new
        (firing_run (nested_level deeper context.now)
        (firing_of trigger.now frame.now)
        (progress (K.view store.old).base budget.old)) }
    ensures store { LeavesStore context.now.schema result
        (K.view store.old) (K.lookups store.old) (K.view store.new) (K.lookups store.new) }
    ensures told { Records result account.old account.new
        (firing_told (nested_level deeper context.now) (nested_told deeper context.now)
        (firing_of trigger.now frame.now)
        (progress (K.view store.old).base budget.old)) }
{
    match run_where_true(store, &*context, trigger, &*frame, deeper, budget, account) {
        Ok(()) => Ok(()),
        Err(refusal) => Err(Refusal {
            cause: refusal.cause,
            trigger: innermost(trigger.id, refusal.trigger),
        }),
    }
}

// A row trigger at each of its transitions, which it is lent.
#[cycle(level)]
fn fire_rows<K: ChangeableRows>(
    store: &mut K,
    context: &Context<'_>,
    trigger: &Trigger,
    transitions: &[Change],
    deeper: u8,
    budget: &mut u64,
    account: &mut Account,
) -> Result<(), Refusal>
    requires store { StoreFits context.now.schema (K.view store.old) }
    requires fires { CanFire context.now.schema.tables trigger.now }
    requires transitions { AreTransitions context.now.schema.tables trigger.now transitions.now }
    ensures answer { Progresses result (K.view store.new).base budget.new
        (firings_run (nested_level deeper context.now)
        (map (row_firing trigger.now transitions.now) transitions.now)
        (progress (K.view store.old).base budget.old)) }
    ensures store { LeavesStore context.now.schema result
        (K.view store.old) (K.lookups store.old) (K.view store.new) (K.lookups store.new) }
    ensures told { Records result account.old account.new
        (firings_told (nested_level deeper context.now) (nested_told deeper context.now)
        (map (row_firing trigger.now transitions.now) transitions.now)
        (progress (K.view store.old).base budget.old)) }
{
    let mut at = 0usize;
    while at < transitions.len() {
        let frame = row_frame(&*context, trigger, transitions, at);
        fire(store, &*context, trigger, &frame, deeper, budget, account)?;
        at += 1;
    }
    Ok(())
}

// A statement trigger, which is lent its transitions.
#[cycle(level)]
fn fire_once<K: ChangeableRows>(
    store: &mut K,
    context: &Context<'_>,
    trigger: &Trigger,
    transitions: &[Change],
    deeper: u8,
    budget: &mut u64,
    account: &mut Account,
) -> Result<(), Refusal>
    requires store { StoreFits context.now.schema (K.view store.old) }
    requires fires { CanFire context.now.schema.tables trigger.now }
    requires once { for_each_row trigger.now ≡ false }
    requires transitions { AreTransitions context.now.schema.tables trigger.now transitions.now }
    ensures answer { Progresses result (K.view store.new).base budget.new
        (firing_run (nested_level deeper context.now) (statement_firing trigger.now transitions.now)
        (progress (K.view store.old).base budget.old)) }
    ensures store { LeavesStore context.now.schema result
        (K.view store.old) (K.lookups store.old) (K.view store.new) (K.lookups store.new) }
    ensures told { Records result account.old account.new
        (firing_told (nested_level deeper context.now) (nested_told deeper context.now)
        (statement_firing trigger.now transitions.now)
        (progress (K.view store.old).base budget.old)) }
{
    let frame = statement_frame(&*context, trigger, transitions);
    fire(store, &*context, trigger, &frame, deeper, budget, account)
}

// A trigger, as often as it fires.
#[cycle(level)]
fn fire_trigger<K: ChangeableRows>(
    store: &mut K,
    context: &Context<'_>,
    statement: &DataStatement,
    trigger: &Trigger,
    columns: &[TableColumn],
    transitions: &Transitions,
    deeper: u8,
    budget: &mut u64,
    account: &mut Account,
) -> Result<(), Refusal>
    requires store { StoreFits context.now.schema (K.view store.old) }
    requires fires { CanFire context.now.schema.tables trigger.now }
    requires parts { AreParts context.now.schema.tables transitions.now }
    ensures answer { Progresses result (K.view store.new).base budget.new
        (firings_run (nested_level deeper context.now)
        (after_firings statement.now columns.now transitions.now trigger.now)
        (progress (K.view store.old).base budget.old)) }
    ensures store { LeavesStore context.now.schema result
        (K.view store.old) (K.lookups store.old) (K.view store.new) (K.lookups store.new) }
    ensures told { Records result account.old account.new
        (firings_told (nested_level deeper context.now) (nested_told deeper context.now)
        (after_firings statement.now columns.now transitions.now trigger.now)
        (progress (K.view store.old).base budget.old)) }
{
    match firings(statement, trigger, columns, &*transitions) {
        Fires::Never => Ok(()),
        Fires::Once(changes) => {
            recall_transitions(&*context, trigger, &*transitions, changes);
            fire_once(store, &*context, trigger, changes, deeper, budget, account)
        }
        Fires::EachRow(changes) => {
            recall_transitions(&*context, trigger, &*transitions, changes);
            fire_rows(store, &*context, trigger, changes, deeper, budget, account)
        }
    }
}

// These triggers, in creation order.
#[cycle(level)]
fn fire_all<K: ChangeableRows>(
    store: &mut K,
    context: &Context<'_>,
    statement: &DataStatement,
    triggers: &[Trigger],
    columns: &[TableColumn],
    transitions: &Transitions,
    deeper: u8,
    budget: &mut u64,
    account: &mut Account,
) -> Result<(), Refusal>
    requires store { StoreFits context.now.schema (K.view store.old) }
    requires short { BodiesWithinLimit triggers.now }
    requires suit { list_all (trigger_suits context.now.schema.tables) triggers.now ≡ true }
    requires parts { AreParts context.now.schema.tables transitions.now }
    ensures answer { Progresses result (K.view store.new).base budget.new
        (firings_run (nested_level deeper context.now)
        (all_firings statement.now columns.now transitions.now triggers.now)
        (progress (K.view store.old).base budget.old)) }
    ensures store { LeavesStore context.now.schema result
        (K.view store.old) (K.lookups store.old) (K.view store.new) (K.lookups store.new) }
    ensures told { Records result account.old account.new
        (firings_told (nested_level deeper context.now) (nested_told deeper context.now)
        (all_firings statement.now columns.now transitions.now triggers.now)
        (progress (K.view store.old).base budget.old)) }
{
    let mut at = 0usize;
    while at < triggers.len() {
        let trigger = trigger_at(&*context, triggers, at);
        fire_trigger(
            store,
            &*context,
            statement,
            trigger,
            columns,
            &*transitions,
            deeper,
            budget,
            account,
        )?;
        at += 1;
    }
    Ok(())
}

// The check of the immediate constraints, and the AFTER triggers.
#[cycle(level)]
fn finish<K: ChangeableRows>(
    store: &mut K,
    context: &Context<'_>,
    statement: &DataStatement,
    told: &Option<LevelChanges>,
    deeper: u8,
    budget: &mut u64,
    account: &mut Account,
) -> Result<(), Refusal>
    requires store { StoreFits context.now.schema (K.view store.old) }
    requires parts { MayBeParts context.now.schema.tables told.now }
    ensures answer { (columns : List Column) (net : Changes)
        → Tells context.now statement.now columns net told.now
        → Progresses result (K.view store.new).base budget.new
        (finished (nested_level deeper context.now) context.now statement.now columns net
        (progress (K.view store.old).base budget.old)) }
    ensures store { LeavesStore context.now.schema result
        (K.view store.old) (K.lookups store.old) (K.view store.new) (K.lookups store.new) }
    ensures told { (columns : List Column) (net : Changes)
        → Tells context.now statement.now columns net told.now
        → Records result account.old account.new
        (finished_told (nested_level deeper context.now) (nested_told deeper context.now)
        context.now statement.now columns net
        (progress (K.view store.old).base budget.old)) }
{
    check(&*store, &*context, account)?;
    match told {
        None => Ok(()),
        Some(changes) => fire_all(
            store,
            &*context,
            statement,
            context.catalogue().triggers(),
            &changes.columns,
            &changes.transitions,
            deeper,
            budget,
            account,
        ),
    }
}

// The waves of a statement from what it proposes on, and what comes after them.
#[cycle(level)]
fn run_waves<K: ChangeableRows>(
    store: &mut K,
    context: &Context<'_>,
    statement: &DataStatement,
    changes: Vec<Change>,
    deeper: u8,
    budget: &mut u64,
    account: &mut Account,
) -> Result<u64, Refusal>
    requires store { StoreFits context.now.schema (K.view store.old) }
    requires fit { changes_fit context.now.schema.tables changes.items ≡ true }
    requires proposed { Proposes context.now (K.view store.old).base changes.items }
    ensures answer { Finishes result (K.view store.new).base budget.new
        (waves_and_after (nested_level deeper context.now) context.now statement.now
        (K.view store.old).base budget.old (wave_with (set_columns statement.now) changes.items)) }
    ensures store { LeavesStore context.now.schema result
        (K.view store.old) (K.lookups store.old) (K.view store.new) (K.lookups store.new) }
    ensures told { Records result account.old account.new
        (waves_and_after_told (nested_level deeper context.now) (nested_told deeper context.now)
        context.now statement.now (K.view store.old).base budget.old
        (wave_with (set_columns statement.now) changes.items)) }
{
    let size = changes.len() as u64;
    let told = settle_waves(store, &*context, statement, budget, changes, account)?;
    finish(store, &*context, statement, &told, deeper, budget, account)?;
    Ok(size)
}

// A data statement, of a script or of a trigger's body. It takes one from the budget for itself.
#[cycle(level)]
fn run_level<K: ChangeableRows>(
    store: &mut K,
    context: &Context<'_>,
    statement: &DataStatement,
    frame: &Frame<'_>,
    deeper: u8,
    budget: &mut u64,
    account: &mut Account,
) -> Result<u64, Refusal>
    requires store { StoreFits context.now.schema (K.view store.old) }
    requires statement { StatementFits context.now.schema.tables frame.now statement.now }
    ensures answer { Finishes result (K.view store.new).base budget.new
        (level deeper context.now statement.now frame.now (K.view store.old).base budget.old) }
    ensures store { LeavesStore context.now.schema result
        (K.view store.old) (K.lookups store.old) (K.view store.new) (K.lookups store.new) }
    ensures told { Records result account.old account.new
        (level_told (nested_level deeper context.now) (nested_told deeper context.now)
        context.now statement.now frame.now (K.view store.old).base budget.old) }
{
    if *budget == 0 {
        return Err(Refusal::of(Cause::TooManyChanges));
    }
    *budget -= 1;
    let changes = allowed(&*store, &*context, statement, &*frame, account)?;
    run_waves(
        store, &*context, statement, changes, deeper, budget, account,
    )
}

/// Runs INSERT, UPDATE or DELETE of a script, with all that follows from it, and answers how many rows it changed
/// itself ("Insert statement", "Update statement: searched", "Delete statement: searched"). A refused statement leaves
/// the store with what it changed so far, so that the count of changes is exact; the caller undoes it to a mark from
/// before. The account records what happens in order, even of a refused statement.
pub fn change<K: ChangeableRows>(
    store: &mut K,
    statement: &DataStatement,
    catalogue: &Catalogue,
    modes: &Modes,
    limits: Limits,
    account: &mut Account,
) -> Result<u64, Refusal>
    requires store { StoreFits catalogue.now (K.view store.old) }
    requires statement { data_suits catalogue.now.tables
        (plain_shape catalogue.now.tables) statement.now ≡ true }
    ensures answer { AnswersAt (λ size. ((K.view store.new).base, size))
        (K.view store.new).base.count result
        (database_and_size (level (limits.depth - 1)
        (record { schema = catalogue.now; modes = modes.now.modes }) statement.now no_frame
        (K.view store.old).base limits.changes)) }
    ensures kept { K.view store.new ≡ with_database (K.view store.old) (K.view store.new).base }
    ensures looked_up { UnlessMemory result (LooksUp
        (K.view store.old) (K.lookups store.old) (K.view store.new) (K.lookups store.new)) }
    ensures store { OnOk result (StoreFits catalogue.now (K.view store.new)) }
    ensures told { Records result account.old account.new
        (account_of (limits.depth - 1)
        (record { schema = catalogue.now; modes = modes.now.modes }) statement.now no_frame
        (K.view store.old).base limits.changes) }
{
    let context = Context::new(catalogue, modes);
    let frame = Frame::none();
    let mut budget = u64::from(limits.changes());
    run_level(
        store,
        &context,
        statement,
        &frame,
        limits.depth() - 1,
        &mut budget,
        account,
    )
}
