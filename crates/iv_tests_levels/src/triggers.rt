//! A trigger on table 0, and what is asked of it.
ghost use Rattle.std.specs.Prelude.{◌≡◌, length};
ghost use Rattle.iv_catalogue.specs.Catalogues.{empty_schema};

use crate::changes::{Planned, wave};
use crate::expressions::NoTables;
use crate::schema::{name, table};
use crate::shown::{show, show_changes, show_number, show_refusal};
use crate::statements::{Doing, statement};
use iv_account::Account;
use iv_catalogue::{BodyStatement, Catalogue, Constraints, Refusal, Setting, Trigger, TriggerId};
use iv_exec_context::Context;
use iv_exec_triggers::{Fires, before_rows, before_statement, firings, transitions_of};
use iv_expr::{Cond, Expr, Side, TableId};
use iv_modes::Modes;
use iv_syntax::{ActionTime, Granularity, TriggerEvent};
use iv_value::{Text, Value};
use sqlite_items::Items;
use std::alloc::Global;
use std::panic::Expect;
use std::process::Abort;

/// What a trigger does.
#[derive(Clone, Copy)]
pub enum Action {
    Signal,
    /// It sets the first column to 9 if it is NULL.
    Fill,
}

/// When a trigger is run, on which of the columns if it lists columns, and what it does.
#[derive(Clone, Copy)]
pub struct Run {
    pub time: ActionTime,
    pub event: TriggerEvent,
    pub granularity: Granularity,
    pub listed: &'static [u32],
    pub action: Action,
}

/// What is asked of a trigger.
#[derive(Clone, Copy)]
pub enum Question {
    /// Whether it refuses a statement that it is before.
    Statement(Doing),
    /// What it makes of a wave that it is before.
    Rows(Planned),
    /// How it fires after a statement, and on how many changes. The wave has the columns of the level and the net
    /// changes.
    Fires(Doing, Planned),
}

// ---- the trigger

fn when(action: Action) -> Cond {
    match action {
        Action::Signal => Cond::Always,
        Action::Fill => Cond::IsNull(Expr::Variable(Side::New, 0)),
    }
}

fn body(rt: &impl Abort, alloc: Global, action: Action) -> Items<BodyStatement>
    ensures { length result ≡ 1 }
{
    let statement = match action {
        Action::Signal => BodyStatement::Signal(Text::new(alloc, "no").expect(rt, "memory")),
        Action::Fill => BodyStatement::Set(Setting {
            column: 0,
            value: Expr::Literal(Value::Int(9)),
        }),
    };
    let mut body = Vec::new(alloc);
    body.push(statement).expect(rt, "memory");
    Items::from_vec(body)
}

fn trigger(rt: &impl Abort, alloc: Global, run: &Run) -> Trigger
    ensures { length result.body ≡ 1 }
{
    Trigger {
        id: TriggerId::new(0),
        name: name(rt, alloc, "R"),
        table: TableId::new(0),
        time: run.time,
        event: run.event,
        columns: Items::from_slice(alloc, run.listed).expect(rt, "memory"),
        granularity: run.granularity,
        when: when(run.action),
        body: body(rt, alloc, run.action),
    }
}

#[tactic(auto, unfolding(iv_catalogue::specs::Names::has_repeated))]
fn create(rt: &impl Abort, alloc: Global, catalogue: &mut Catalogue, run: &Run)
    requires { catalogue.old ≡ empty_schema }
{
    let none = Constraints::from_vec(Vec::new(alloc));
    let added = catalogue.add_table(table(rt, alloc), none);
    added.expect(rt, "memory");
    let created = catalogue.add_trigger(trigger(rt, alloc, run));
    created.expect(rt, "memory");
}

// ---- before a statement and its waves

// Whether nothing is refused: why it is refused is shown.
fn is_allowed(rt: &impl Abort, answer: Result<(), Refusal>, shown: &mut String) -> bool {
    match answer {
        Ok(()) => true,
        Err(refusal) => {
            show_refusal(rt, &refusal, shown);
            false
        }
    }
}

fn tell_statement(
    rt: &impl Abort,
    alloc: Global,
    context: &Context<'_>,
    doing: &Doing,
    account: &mut Account,
    shown: &mut String,
) -> bool {
    let statement = statement(rt, alloc, doing);
    let answer = before_statement(context, &NoTables {}, statement.get(), account);
    drop(statement);
    is_allowed(rt, answer, shown)
}

// The changes are shown as they are left.
fn tell_rows(
    rt: &impl Abort,
    alloc: Global,
    context: &Context<'_>,
    planned: &Planned,
    account: &mut Account,
    shown: &mut String,
) -> bool {
    let (mut changes, columns) = wave(rt, alloc, planned).into_parts();
    let answer = before_rows(
        alloc,
        context,
        &NoTables {},
        columns.as_slice(),
        changes.as_mut_slice(),
        account,
    );
    drop(columns);
    show_changes(rt, changes.as_slice(), shown);
    drop(changes);
    is_allowed(rt, answer, shown)
}

// ---- after a statement

fn show_fires(rt: &impl Abort, fires: &Fires<'_>, shown: &mut String) {
    match fires {
        Fires::Never => show(rt, "never, ", shown),
        Fires::Once(changes) => show_number(rt, "once on ", changes.len() as u64, ", ", shown),
        Fires::EachRow(changes) => {
            show_number(rt, "for each of ", changes.len() as u64, ", ", shown)
        }
    }
}

// How each trigger fires.
fn tell_firings(
    rt: &impl Abort,
    alloc: Global,
    triggers: &[Trigger],
    doing: &Doing,
    planned: &Planned,
    shown: &mut String,
) {
    let statement = statement(rt, alloc, doing);
    let net = wave(rt, alloc, planned);
    let transitions = transitions_of(alloc, &net).expect(rt, "memory");
    for trigger in triggers {
        let fires = firings(statement.get(), trigger, net.columns(), &transitions);
        show_fires(rt, &fires, shown);
    }
    drop(transitions);
    drop(net);
    drop(statement);
}

// ---- in a catalogue

/// Tells what is asked of a trigger, and whether nothing is refused.
pub fn tell_of_trigger(
    rt: &impl Abort,
    alloc: Global,
    run: &Run,
    question: &Question,
    shown: &mut String,
) -> bool {
    let mut catalogue = Catalogue::new(alloc);
    create(rt, alloc, &mut catalogue, run);
    let modes = Modes::initial(alloc, catalogue.constraints()).expect(rt, "memory");
    let context = Context::new(&catalogue, &modes);
    let mut account = Account::new(alloc, false);
    let done = match question {
        Question::Statement(doing) => {
            tell_statement(rt, alloc, &context, doing, &mut account, shown)
        }
        Question::Rows(planned) => tell_rows(rt, alloc, &context, planned, &mut account, shown),
        Question::Fires(doing, planned) => {
            tell_firings(rt, alloc, catalogue.triggers(), doing, planned, shown);
            true
        }
    };
    drop(account);
    drop(context);
    drop(modes);
    drop(catalogue);
    done
}
