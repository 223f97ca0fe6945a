//! Steps in a store of one table, and what each tells.
ghost use Rattle.std.specs.Prelude.{◌≡◌, true};
ghost use Rattle.iv_laws_rows.specs.Changing.{StoreFits};
ghost use Rattle.iv_tests_levels.specs.Pairs.{HasPairs};

use crate::changes::{Planned, wave};
use crate::schema::create;
use crate::shown::{
    show, show_changes, show_columns, show_entries, show_number, show_refusal, show_values,
};
use crate::statements::{Doing, statement};
use iv_account::Account;
use iv_catalogue::{Catalogue, Outputs, QueryPlan};
use iv_exec_actions::next_wave;
use iv_exec_level::change;
use iv_exec_proposals::select;
use iv_expr::{Comparison, Cond, Expr, TableId};
use iv_machine::Limits;
use iv_modes::Modes;
use iv_store::Keeper;
use iv_value::Value;
use sqlite_items::Boxed;
use std::alloc::Global;
use std::panic::Expect;
use std::process::Abort;

/// A query.
#[derive(Clone, Copy)]
pub enum Query {
    /// SELECT * FROM t WHERE k > 2.
    Above2,
    /// SELECT COUNT(*) FROM t.
    Count,
}

/// What is done.
#[derive(Clone, Copy)]
pub enum Step {
    /// A statement, with all that follows from it: how many rows it changed itself.
    Run(Doing),
    /// The same, with its account before.
    Explain(Doing),
    /// The rows of a query.
    Select(Query),
    /// The wave that follows from this one, of which the rows are there.
    Follow(Planned),
}

// ---- statements

// Whether a statement is done. Its account is shown, and then how many rows it changed, or why it is refused.
fn run<K: Keeper>(
    rt: &impl Abort,
    alloc: Global,
    store: &mut K,
    catalogue: &Catalogue,
    modes: &Modes,
    doing: &Doing,
    explains: bool,
    shown: &mut String,
) -> bool
    requires store { StoreFits catalogue.now (K.view store.old) }
    requires pairs { HasPairs catalogue.now.tables }
    ensures { result ≡ true → StoreFits catalogue.now (K.view store.new) }
{
    let statement = statement(rt, alloc, doing);
    let limits = Limits::new(16, 100).expect(rt, "limits");
    let mut account = Account::new(alloc, explains);
    let ran = change(
        store,
        statement.get(),
        catalogue,
        modes,
        limits,
        &mut account,
    );
    drop(statement);
    show_entries(rt, account.entries(), shown);
    drop(account);
    match ran {
        Ok(count) => {
            show_number(rt, "", count, ", ", shown);
            true
        }
        Err(refusal) => {
            show_refusal(rt, &refusal, shown);
            false
        }
    }
}

// ---- queries

fn plan(rt: &impl Abort, alloc: Global, query: Query) -> Boxed<QueryPlan> {
    let table = TableId::new(0);
    let plan = match query {
        Query::Above2 => QueryPlan::Rows {
            table,
            outputs: Outputs::Star,
            filter: Cond::Compare(
                Comparison::Greater,
                Expr::Column(0, 0),
                Expr::Literal(Value::Int(2)),
            ),
        },
        Query::Count => QueryPlan::Count {
            table,
            filter: Cond::Always,
        },
    };
    Boxed::new(alloc, plan).expect(rt, "memory")
}

// No query here is refused, except for lack of memory.
fn show_query<K: Keeper>(
    rt: &impl Abort,
    alloc: Global,
    store: &K,
    query: Query,
    shown: &mut String,
) {
    let plan = plan(rt, alloc, query);
    let rows = select(store, plan.get()).expect(rt, "the rows of a query");
    drop(plan);
    for row in rows.as_slice() {
        show_values(rt, row.values(), shown);
    }
    show(rt, ", ", shown);
}

// ---- waves

// Whether a wave may follow. It is shown, or why it is refused.
fn follow<K: Keeper>(
    rt: &impl Abort,
    alloc: Global,
    store: &mut K,
    catalogue: &Catalogue,
    planned: &Planned,
    shown: &mut String,
) -> bool
    ensures { K.view store.new ≡ K.view store.old }
{
    let wave = wave(rt, alloc, planned);
    let next = next_wave(store, catalogue, &wave);
    drop(wave);
    match next {
        Ok(next) => {
            show_changes(rt, next.changes(), shown);
            show(rt, "on ", shown);
            show_columns(rt, next.columns(), shown);
            drop(next);
            true
        }
        Err(refusal) => {
            show_refusal(rt, &refusal, shown);
            false
        }
    }
}

// ---- steps

// Whether a step is done.
fn take<K: Keeper>(
    rt: &impl Abort,
    alloc: Global,
    store: &mut K,
    catalogue: &Catalogue,
    modes: &Modes,
    step: &Step,
    shown: &mut String,
) -> bool
    requires store { StoreFits catalogue.now (K.view store.old) }
    requires pairs { HasPairs catalogue.now.tables }
    ensures { result ≡ true → StoreFits catalogue.now (K.view store.new) }
{
    match step {
        Step::Run(doing) => run(rt, alloc, store, catalogue, modes, doing, false, shown),
        Step::Explain(doing) => run(rt, alloc, store, catalogue, modes, doing, true, shown),
        Step::Select(query) => {
            show_query(rt, alloc, &*store, *query, shown);
            true
        }
        Step::Follow(planned) => follow(rt, alloc, store, catalogue, planned, shown),
    }
}

fn take_each<K: Keeper>(
    rt: &impl Abort,
    alloc: Global,
    store: &mut K,
    catalogue: &Catalogue,
    modes: &Modes,
    steps: &[Step],
    shown: &mut String,
) -> bool
    requires store { StoreFits catalogue.now (K.view store.old) }
    requires pairs { HasPairs catalogue.now.tables }
{
    for step in steps {
        if !take(rt, alloc, store, catalogue, modes, step, shown) {
            return false;
        }
    }
    true
}

/// Tells what steps tell in a new store, up to the first that is refused, and whether all are done.
pub fn tell_steps<K: Keeper + Drop>(
    rt: &impl Abort,
    alloc: Global,
    steps: &[Step],
    shown: &mut String,
) -> bool {
    let mut store = K::new(alloc);
    let mut catalogue = Catalogue::new(alloc);
    create(rt, alloc, &mut store, &mut catalogue);
    let modes = Modes::initial(alloc, catalogue.constraints()).expect(rt, "memory");
    let done = take_each(rt, alloc, &mut store, &catalogue, &modes, steps, shown);
    drop(modes);
    drop(catalogue);
    drop(store);
    done
}
