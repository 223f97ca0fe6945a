//! BEFORE triggers: those of a statement, and those of the rows of a wave ("Execution of BEFORE triggers").
ghost use Rattle.std.specs.Prelude.{◌≡◌, ◌≤◌, ◌<◌, ◌+◌, ◌^◌, ◌&&◌, false, if◌then◌else◌, List, [], ◌∷◌, length, slice_set, filter, IfOk, Ok, OnOk};
ghost use Rattle.iv_value.specs.declared.value.Truth.{Truth as TruthValue};
ghost use Rattle.iv_value.specs.Truths.{is_true};
ghost use Rattle.std.specs.List.{enumerate_from};
ghost use Rattle.iv_account.specs.Accounts.{before_each_told, before_row_run_told, before_row_told, before_rows_told, before_statement_told};
ghost use Rattle.iv_account.specs.Accounts.{before_triggers_told, failure_told, ran_or_skipped, set_told, sets_told, told_in_turn, told_or};
ghost use Rattle.iv_account.specs.Accounts.{trigger_told, when_told};
ghost use Rattle.iv_account.specs.Failures.{when_failure};
ghost use Rattle.iv_account.specs.declared.entry.Entry.{Entry};
ghost use Rattle.iv_account.specs.Telling.{and_told};
ghost use Rattle.iv_exec_triggers.specs.Recording.{Records};
ghost use Rattle.iv_catalogue.specs.Catalogues.{BodiesWithinLimit};
ghost use Rattle.iv_catalogue.specs.Refusals.{cause_of};
ghost use Rattle.iv_catalogue.specs.declared.cause.Cause.{Cause as CauseValue};
ghost use Rattle.iv_catalogue.specs.declared.limits.TheConstants.{MOST_BODY_STATEMENTS};
ghost use Rattle.iv_catalogue.specs.declared.plan.BodyStatement.TheVariants as variant;
ghost use Rattle.iv_expr.specs.Evaluation.{and_then, truth, value};
ghost use Rattle.iv_expr.specs.Scopes.{no_frame, scope_of};
ghost use Rattle.iv_machine.specs.BeforeTriggers.{before_row_run, before_statement, before_statement_run, change_after_set, change_after_statement};
ghost use Rattle.iv_machine.specs.BeforeTriggers.{change_after_trigger, change_frame, changes_after_triggers, is_before_row_on, is_before_this, is_signal};
ghost use Rattle.iv_machine.specs.BeforeTriggers.{placed_statements, unless_signal, with_new_value};
ghost use Rattle.iv_machine.specs.Context.{each, in_turn, while_running};
ghost use Rattle.iv_machine.specs.Proposals.{holds, stored_value};
ghost use Rattle.iv_exec_context.specs.Answering.{AnswersCause, AnswersRefusal, UnlessMemoryCause};

use crate::columns::{is_on_columns, is_on_set_columns};
use crate::matching::{
    event_of, event_of_change, is_before_row, is_before_statement, is_on, table_of,
};
use crate::when::{is_true, truth_of_when};
use iv_account::Account;
use iv_catalogue::{BodyStatement, Cause, DataStatement, Refusal, Setting, Trigger};
use iv_exec_context::{Context, stored_value, tell_set, tell_when};
use iv_expr::{Change, Frame, Row, Rows, Scope, TableColumn};
use iv_value::{Truth, Value};
use std::alloc::{AllocError, Global};

fn copied(alloc: Global, row: &[Value]) -> Result<Vec<Value>, AllocError>
    ensures { IfOk result (λ values. values.items ≡ row.now) }
{
    let mut values = Vec::new(alloc);
    for value in row {
        let copy = value.clone()?;
        values.push(copy)?;
    }
    Ok(values)
}

// The row with a column set.
fn with_value(alloc: Global, row: &[Value], column: u32, value: Value) -> Result<Row, AllocError>
    ensures { IfOk result (λ r. r ≡ slice_set row.now column value) }
{
    let mut values = copied(alloc, row)?;
    let place = column as usize;
    if place < values.len() {
        values[place] = value;
    }
    Row::new(values)
}

// Sets a column of the new row.
fn set_new_value(
    alloc: Global,
    change: &mut Change,
    column: u32,
    value: Value,
) -> Result<(), AllocError>
    ensures { OnOk result (change.exit.now ≡ with_new_value change.entry.now column value) }
{
    if let Some(row) = &change.new {
        let set = with_value(alloc, row.values(), column, value)?;
        change.new = Some(set);
    }
    Ok(())
}

// The value of a SET at a change.
fn value_of_set<'x, R: Rows>(
    context: &Context<'_>,
    rows: &'x R,
    setting: &Setting,
    change: &'x Change,
) -> Result<Value, Cause>
    ensures { AnswersCause (λ v. v) result
        (stored_value context.now change.now.table setting.now.column
        (value (scope_of (change_frame change.now) (R.rows rows.now)) setting.now.value)) }
{
    let frame = Frame::at(&[], change);
    let scope = Scope::new(rows, &frame);
    stored_value(
        context,
        change.table,
        setting.column as usize,
        &setting.value,
        &scope,
    )
}

// The value of a SET at a change, or what failed in it, which is told.
fn value_or_told<R: Rows>(
    context: &Context<'_>,
    rows: &R,
    setting: &Setting,
    change: &Change,
    account: &mut Account,
) -> Result<Value, Cause>
    ensures answer { AnswersCause (λ v. v) result
        (stored_value context.now change.now.table setting.now.column
        (value (scope_of (change_frame change.now) (R.rows rows.now)) setting.now.value)) }
    ensures told { UnlessMemoryCause result (account.new ≡ and_told account.old
        (set_told context.now (R.rows rows.now) (variant.Set setting.now) change.now)) }
{
    match value_of_set(context, rows, setting, change) {
        Ok(value) => Ok(value),
        Err(cause) => {
            tell_set(context.catalogue(), rows, setting, change, &cause, account)?;
            Err(cause)
        }
    }
}

// A SET at a change.
fn set<R: Rows>(
    alloc: Global,
    context: &Context<'_>,
    rows: &R,
    setting: &Setting,
    change: &mut Change,
    account: &mut Account,
) -> Result<(), Cause>
    ensures answer { AnswersCause (λ _. change.exit.now) result
        (change_after_set context.now (R.rows rows.now) setting.now change.entry.now) }
    ensures told { UnlessMemoryCause result (account.new ≡ and_told account.old
        (set_told context.now (R.rows rows.now) (variant.Set setting.now) change.entry.now)) }
{
    let value = value_or_told(context, rows, setting, change, account)?;
    set_new_value(alloc, change, setting.column, value)?;
    Ok(())
}

// A statement of a trigger's body at a change. A BEFORE trigger has no data statement.
fn run_statement<R: Rows>(
    alloc: Global,
    context: &Context<'_>,
    rows: &R,
    trigger: &Trigger,
    place: u32,
    statement: &BodyStatement,
    change: &mut Change,
    account: &mut Account,
) -> Result<(), Cause>
    ensures answer { AnswersCause (λ _. change.exit.now) result
        (change_after_statement context.now
        (R.rows rows.now) trigger.now place statement.now change.entry.now) }
    ensures told { UnlessMemoryCause result (account.new ≡ and_told account.old
        (set_told context.now (R.rows rows.now) statement.now change.entry.now)) }
{
    match statement {
        BodyStatement::Set(setting) => set(alloc, context, rows, setting, change, account),
        BodyStatement::Signal(_) => Err(Cause::Signal(trigger.id, place)),
        BodyStatement::Data(_) => Ok(()),
    }
}

// The statements of a trigger's body at a change, in their order.
fn run_body<R: Rows>(
    alloc: Global,
    context: &Context<'_>,
    rows: &R,
    trigger: &Trigger,
    change: &mut Change,
    account: &mut Account,
) -> Result<(), Cause>
    requires { length trigger.now.body ≤ MOST_BODY_STATEMENTS }
    ensures answer { AnswersCause (λ _. change.exit.now) result
        (in_turn (λ s. change_after_statement context.now (R.rows rows.now) trigger.now s.0 s.1)
        (placed_statements trigger.now) change.entry.now) }
    ensures told { UnlessMemoryCause result (account.new ≡ and_told account.old
        (sets_told context.now (R.rows rows.now) trigger.now change.entry.now)) }
{
    let body = trigger.body.as_slice();
    let mut place = 1u32;
    for statement in body {
        run_statement(
            alloc, context, rows, trigger, place, statement, change, account,
        )?;
        place += 1;
    }
    Ok(())
}

// The truth of a trigger's WHEN at a change.
fn when_at_row<'x, R: Rows>(
    rows: &'x R,
    trigger: &Trigger,
    change: &'x Change,
) -> Result<Truth, Cause>
    ensures effect { holds (scope_of (change_frame change.now) (R.rows rows.now)) trigger.now.when
        ≡ and_then result (λ t. Ok (is_true t)) }
    ensures told { (failed : CauseValue → List Entry) (tell : TruthValue → List Entry) → told_or
        (truth (scope_of (change_frame change.now) (R.rows rows.now)) trigger.now.when)
        (λ fault. failed (cause_of fault)) tell ≡ told_or result failed tell }
{
    let frame = Frame::at(&[], change);
    let scope = Scope::new(rows, &frame);
    truth_of_when(trigger, &scope)
}

// Tells that a BEFORE row trigger runs at a change, or is skipped, by the truth of its WHEN.
fn tell_at_row(
    trigger: &Trigger,
    change: &Change,
    when: Truth,
    account: &mut Account,
) -> Result<(), AllocError>
    ensures told { OnOk result (account.new ≡ and_told account.old
        (ran_or_skipped trigger.now (change_frame change.now) when ∷ [])) }
{
    let frame = Frame::at(&[], change);
    account.ran_or_skipped(trigger, &frame, when)
}

// Tells what failed in the WHEN of a BEFORE row trigger at a change.
fn tell_when_at_row<R: Rows>(
    rows: &R,
    trigger: &Trigger,
    change: &Change,
    cause: &Cause,
    account: &mut Account,
) -> Result<(), AllocError>
    ensures told { OnOk result (account.new ≡ and_told account.old (failure_told cause.now
        (when_failure (R.rows rows.now) trigger.now (change_frame change.now)))) }
{
    let frame = Frame::at(&[], change);
    tell_when(rows, trigger, &frame, cause, account)
}

// A BEFORE row trigger at a change, whose WHEN has this truth. That it runs, or is skipped, is told before its body
// runs.
fn run_by_truth<R: Rows>(
    alloc: Global,
    context: &Context<'_>,
    rows: &R,
    trigger: &Trigger,
    when: Truth,
    change: &mut Change,
    account: &mut Account,
) -> Result<(), Cause>
    requires { length trigger.now.body ≤ MOST_BODY_STATEMENTS }
    ensures answer { AnswersCause (λ _. change.exit.now) result (if is_true when
        then in_turn (λ s. change_after_statement context.now (R.rows rows.now) trigger.now s.0 s.1)
        (placed_statements trigger.now) change.entry.now else Ok change.entry.now) }
    ensures told { UnlessMemoryCause result (account.new ≡ and_told account.old
        (before_row_run_told context.now (R.rows rows.now) trigger.now change.entry.now when)) }
{
    tell_at_row(trigger, change, when, account)?;
    if is_true(when) {
        run_body(alloc, context, rows, trigger, change, account)
    } else {
        Ok(())
    }
}

// A BEFORE row trigger at a change, if its WHEN is true; what fails in its WHEN is told.
fn run_at_row<R: Rows>(
    alloc: Global,
    context: &Context<'_>,
    rows: &R,
    trigger: &Trigger,
    change: &mut Change,
    account: &mut Account,
) -> Result<(), Cause>
    requires { length trigger.now.body ≤ MOST_BODY_STATEMENTS }
    ensures answer { AnswersCause (λ _. change.exit.now) result
        (before_row_run context.now (R.rows rows.now) trigger.now change.entry.now) }
    ensures told { UnlessMemoryCause result (account.new ≡ and_told account.old
        (when_told (R.rows rows.now) trigger.now (change_frame change.entry.now)
        (before_row_run_told context.now (R.rows rows.now) trigger.now change.entry.now))) }
{
    match when_at_row(rows, trigger, change) {
        Ok(when) => run_by_truth(alloc, context, rows, trigger, when, change, account),
        Err(cause) => {
            tell_when_at_row(rows, trigger, change, &cause, account)?;
            Err(cause)
        }
    }
}

// A BEFORE row trigger at a change of any table and event.
#[tactic(auto, using(iv_exec_context::proofs::Answers::while_running_answers))]
fn run_at_change<R: Rows>(
    alloc: Global,
    context: &Context<'_>,
    rows: &R,
    trigger: &Trigger,
    change: &mut Change,
    account: &mut Account,
) -> Result<(), Refusal>
    requires { length trigger.now.body ≤ MOST_BODY_STATEMENTS }
    ensures answer { AnswersRefusal (λ _. change.exit.now) result
        (change_after_trigger context.now (R.rows rows.now) trigger.now change.entry.now) }
    ensures told { Records result account.old account.new
        (before_row_told context.now (R.rows rows.now) trigger.now change.entry.now) }
{
    if is_on(change.table, event_of_change(change), trigger) {
        match run_at_row(alloc, context, rows, trigger, change, account) {
            Ok(()) => Ok(()),
            Err(cause) => Err(Refusal {
                cause,
                trigger: Some(trigger.id),
            }),
        }
    } else {
        Ok(())
    }
}

// A BEFORE row trigger at each change, in their order.
fn run_at_each<R: Rows>(
    alloc: Global,
    context: &Context<'_>,
    rows: &R,
    trigger: &Trigger,
    changes: &mut [Change],
    account: &mut Account,
) -> Result<(), Refusal>
    requires { length trigger.now.body ≤ MOST_BODY_STATEMENTS }
    ensures length { length changes.exit.now ≡ length changes.entry.now }
    ensures answer { AnswersRefusal (λ _. changes.exit.now) result
        (each (change_after_trigger context.now (R.rows rows.now) trigger.now) changes.entry.now) }
    ensures told { Records result account.old account.new
        (before_each_told context.now (R.rows rows.now) trigger.now changes.entry.now) }
{
    let mut at = 0usize;
    while at < changes.len() {
        run_at_change(alloc, context, rows, trigger, &mut changes[at], account)?;
        at += 1;
    }
    Ok(())
}

fn is_before_row_on(columns: &[TableColumn], trigger: &Trigger) -> bool
    ensures { result ≡ is_before_row_on columns.now trigger.now }
{
    is_before_row(trigger) && is_on_columns(columns, trigger)
}

// Runs the BEFORE row triggers whose UPDATE OF list, if any, names one of these columns: in creation order, each at
// every change.
#[tactic(auto, using(iv_exec_context::proofs::Answers::refusal_then))]
fn run_all<R: Rows>(
    alloc: Global,
    context: &Context<'_>,
    rows: &R,
    triggers: &[Trigger],
    columns: &[TableColumn],
    changes: &mut [Change],
    account: &mut Account,
) -> Result<(), Refusal>
    requires { BodiesWithinLimit triggers.now }
    ensures length { length changes.exit.now ≡ length changes.entry.now }
    ensures answer { AnswersRefusal (λ _. changes.exit.now) result
        (changes_after_triggers context.now (R.rows rows.now)
        (filter (is_before_row_on columns.now) triggers.now) changes.entry.now) }
    ensures told { Records result account.old account.new
        (before_triggers_told context.now (R.rows rows.now)
        (filter (is_before_row_on columns.now) triggers.now) changes.entry.now) }
{
    match triggers {
        [] => Ok(()),
        [trigger, rest @ ..] => {
            if is_before_row_on(columns, trigger) {
                run_at_each(alloc, context, rows, trigger, changes, account)?;
                run_all(alloc, context, rows, rest, columns, changes, account)
            } else {
                run_all(alloc, context, rows, rest, columns, changes, account)
            }
        }
    }
}

/// Runs the BEFORE row triggers of a wave with these columns, in creation order, and gives its changes. The triggers
/// see the tables with these rows, as they are before the wave. The account records each trigger that runs, before its
/// body does, and each that is skipped. Without a trigger on their tables, the call takes one look at each change.
#[tactic(auto, using(crate::proofs::Untriggered::rows_untouched, crate::proofs::Untriggered::rows_untold))]
pub fn before_rows<R: Rows>(
    alloc: Global,
    context: &Context<'_>,
    rows: &R,
    columns: &[TableColumn],
    changes: &mut [Change],
    account: &mut Account,
) -> Result<(), Refusal>
    ensures length { length changes.exit.now ≡ length changes.entry.now }
    ensures answer { AnswersRefusal (λ _. changes.exit.now) result
        (changes_after_triggers context.now (R.rows rows.now)
        (filter (is_before_row_on columns.now) context.now.schema.triggers) changes.entry.now) }
    ensures told { Records result account.old account.new
        (before_rows_told context.now (R.rows rows.now) columns.now changes.entry.now) }
{
    if !context.has_trigger_on(changes) {
        return Ok(());
    }
    run_all(
        alloc,
        context,
        rows,
        context.catalogue().triggers(),
        columns,
        changes,
        account,
    )
}

// The truth of a trigger's WHEN if there is no row variable.
fn when_for_statement<R: Rows>(rows: &R, trigger: &Trigger) -> Result<Truth, Cause>
    ensures effect { holds (scope_of no_frame (R.rows rows.now)) trigger.now.when
        ≡ and_then result (λ t. Ok (is_true t)) }
    ensures told { (failed : CauseValue → List Entry) (tell : TruthValue → List Entry) → told_or
        (truth (scope_of no_frame (R.rows rows.now)) trigger.now.when)
        (λ fault. failed (cause_of fault)) tell ≡ told_or result failed tell }
{
    let frame = Frame::none();
    let scope = Scope::new(rows, &frame);
    truth_of_when(trigger, &scope)
}

fn is_signal(statement: &BodyStatement) -> bool
    ensures { result ≡ is_signal statement.now }
{
    matches!(statement, BodyStatement::Signal(_))
}

// Refused with the first SIGNAL of the body, if there is one.
fn unless_signal(trigger: &Trigger) -> Result<(), Cause>
    requires { length trigger.now.body ≤ MOST_BODY_STATEMENTS }
    ensures { result ≡ unless_signal trigger.now }
{
    let body = trigger.body.as_slice();
    let mut place = 1u32;
    for statement in body {
        if is_signal(statement) {
            return Err(Cause::Signal(trigger.id, place));
        }
        place += 1;
    }
    Ok(())
}

// A BEFORE statement trigger whose WHEN has this truth. That it runs, or is skipped, is told before its body runs.
fn run_once(trigger: &Trigger, when: Truth, account: &mut Account) -> Result<(), Cause>
    requires { length trigger.now.body ≤ MOST_BODY_STATEMENTS }
    ensures answer { AnswersCause (λ _. tt) result
        (if is_true when then unless_signal trigger.now else Ok tt) }
    ensures told { UnlessMemoryCause result (account.new ≡ and_told account.old
        (ran_or_skipped trigger.now no_frame when ∷ [])) }
    ensures unasked { account.old.asked ≡ false
        → result ≡ (if is_true when then unless_signal trigger.now else Ok tt) }
{
    let frame = Frame::none();
    account.ran_or_skipped(trigger, &frame, when)?;
    if is_true(when) {
        unless_signal(trigger)
    } else {
        Ok(())
    }
}

// A BEFORE statement trigger, if its WHEN is true; what fails in its WHEN is told.
fn run_for_statement<R: Rows>(
    rows: &R,
    trigger: &Trigger,
    account: &mut Account,
) -> Result<(), Cause>
    requires { length trigger.now.body ≤ MOST_BODY_STATEMENTS }
    ensures answer { AnswersCause (λ _. tt) result
        (before_statement_run (R.rows rows.now) trigger.now) }
    ensures told { UnlessMemoryCause result (account.new ≡ and_told account.old
        (trigger_told (R.rows rows.now) trigger.now no_frame)) }
    ensures unasked { account.old.asked ≡ false
        → result ≡ before_statement_run (R.rows rows.now) trigger.now }
{
    match when_for_statement(rows, trigger) {
        Ok(when) => run_once(trigger, when, account),
        Err(cause) => {
            let frame = Frame::none();
            tell_when(rows, trigger, &frame, &cause, account)?;
            Err(cause)
        }
    }
}

fn run_named<R: Rows>(rows: &R, trigger: &Trigger, account: &mut Account) -> Result<(), Refusal>
    requires { length trigger.now.body ≤ MOST_BODY_STATEMENTS }
    ensures answer { AnswersRefusal (λ _. tt) result
        (while_running trigger.now.id (before_statement_run (R.rows rows.now) trigger.now)) }
    ensures told { Records result account.old account.new
        (trigger_told (R.rows rows.now) trigger.now no_frame) }
    ensures unasked { account.old.asked ≡ false → result ≡ while_running trigger.now.id
        (before_statement_run (R.rows rows.now) trigger.now) }
{
    match run_for_statement(rows, trigger, account) {
        Ok(()) => Ok(()),
        Err(cause) => Err(Refusal {
            cause,
            trigger: Some(trigger.id),
        }),
    }
}

fn is_before_this(statement: &DataStatement, trigger: &Trigger) -> bool
    ensures { result ≡ is_before_this statement.now trigger.now }
{
    is_before_statement(trigger)
        && is_on(table_of(statement), event_of(statement), trigger)
        && is_on_set_columns(statement, trigger)
}

// Runs the BEFORE statement triggers of the statement's table and event whose UPDATE OF list, if any, names a column of
// its SET list.
#[tactic(auto, using(iv_exec_context::proofs::Answers::refusal_then))]
fn run_statement_triggers<R: Rows>(
    rows: &R,
    triggers: &[Trigger],
    statement: &DataStatement,
    account: &mut Account,
) -> Result<(), Refusal>
    requires { BodiesWithinLimit triggers.now }
    ensures answer { AnswersRefusal (λ _. tt) result (in_turn
        (λ t _. while_running t.id (before_statement_run (R.rows rows.now) t))
        (filter (is_before_this statement.now) triggers.now) tt) }
    ensures told { Records result account.old account.new (told_in_turn
        (λ t _. while_running t.id (before_statement_run (R.rows rows.now) t))
        (λ t _. trigger_told (R.rows rows.now) t no_frame)
        (filter (is_before_this statement.now) triggers.now) tt) }
    ensures unasked { account.old.asked ≡ false → result ≡ in_turn
        (λ t _. while_running t.id (before_statement_run (R.rows rows.now) t))
        (filter (is_before_this statement.now) triggers.now) tt }
{
    match triggers {
        [] => Ok(()),
        [trigger, rest @ ..] => {
            if is_before_this(statement, trigger) {
                run_named(rows, trigger, account)?;
                run_statement_triggers(rows, rest, statement, account)
            } else {
                run_statement_triggers(rows, rest, statement, account)
            }
        }
    }
}

/// Runs the BEFORE statement triggers of a statement, in creation order. The account records each trigger that runs,
/// before its body does, and each that is skipped. Without an account the call allocates nothing; on a table without
/// triggers it takes constant time.
#[tactic(auto, using(crate::proofs::Untriggered::none_before_statement, crate::proofs::Untriggered::none_told_before_statement))]
pub fn before_statement<R: Rows>(
    context: &Context<'_>,
    rows: &R,
    statement: &DataStatement,
    account: &mut Account,
) -> Result<(), Refusal>
    ensures answer { AnswersRefusal (λ _. tt) result
        (before_statement context.now (R.rows rows.now) statement.now) }
    ensures told { Records result account.old account.new
        (before_statement_told context.now (R.rows rows.now) statement.now) }
    ensures unasked { account.old.asked ≡ false
        → result ≡ before_statement context.now (R.rows rows.now) statement.now }
{
    if !context.has_trigger(table_of(statement)) {
        return Ok(());
    }
    run_statement_triggers(rows, context.catalogue().triggers(), statement, account)
}
