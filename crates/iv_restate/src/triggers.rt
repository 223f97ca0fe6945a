//! CREATE TRIGGER.
ghost use Rattle.std.specs.Prelude.{◌≡◌, IfOk, length};
ghost use Rattle.iv_restate.specs.Triggers.{CreatesTrigger};

use crate::constraints::{columns_at, names_at, table_name_at};
use crate::data::{action_of, filter_of};
use crate::naming::Naming;
use crate::scope::{Scope, name_of};
use crate::uses::{Item, is_named};
use iv_catalogue::{BodyStatement, Table, Trigger};
use iv_expr::Side;
use iv_syntax::{Name, Referencing, Statement, TransitionName, TriggerAction, TriggerDefinition};
use sqlite_items::Items;
use std::alloc::{AllocError, Global};

// Whether some table's name begins so.
fn begins_table(tables: &[Table], stem: &str) -> bool {
    tables.iter().any(|table| table.name.as_str().as_bytes().starts_with(stem.as_bytes()))
}

/// How the names of row variables, transition tables and ranges begin: no table's name begins so. It is the first of
/// R_, RR_, RRR_ and so on.
pub fn stem_of(alloc: Global, tables: &[Table]) -> Result<String, AllocError> {
    let mut letters = String::new(alloc);
    for _ in 0..tables.len() {
        letters.push_str("R")?;
        let stem = format!(in alloc; "{letters}_")?;
        if !begins_table(tables, stem.as_str()) {
            return Ok(stem);
        }
    }
    letters.push_str("R_")?;
    Ok(letters)
}

// The name of a row variable or a transition table.
fn item_name(alloc: Global, stem: &str, item: Item) -> Result<Name, AllocError> {
    let word = match (item.side, item.what) {
        (Side::Old, TransitionName::Row) => "OLD",
        (Side::New, TransitionName::Row) => "NEW",
        (Side::Old, TransitionName::Table) => "OLD_ROWS",
        (Side::New, TransitionName::Table) => "NEW_ROWS",
    };
    let name = format!(in alloc; "{stem}{word}")?;
    name_of(alloc, name.as_str())
}

const ITEMS: [Item; 4] = [
    Item {
        side: Side::Old,
        what: TransitionName::Row,
    },
    Item {
        side: Side::New,
        what: TransitionName::Row,
    },
    Item {
        side: Side::Old,
        what: TransitionName::Table,
    },
    Item {
        side: Side::New,
        what: TransitionName::Table,
    },
];

// Those that the trigger names.
fn items_of(
    alloc: Global,
    stem: &str,
    trigger: &Trigger,
) -> Result<Items<Referencing>, AllocError> {
    let mut items = Items::new(alloc);
    for item in ITEMS {
        if is_named(item, trigger) {
            items.push(Referencing {
                side: item.side,
                what: item.what,
                name: item_name(alloc, stem, item)?,
            })?;
        }
    }
    Ok(items)
}

fn body_of<'a>(
    alloc: Global,
    naming: &'a Naming<'a>,
    variable: &Name,
    body: &[BodyStatement],
) -> Result<Items<TriggerAction>, AllocError>
    ensures { IfOk result (λ actions. length actions ≡ length body.now) }
{
    let mut actions = Items::new(alloc);
    for statement in body {
        actions.push(action_of(alloc, naming, variable, statement)?)?;
    }
    Ok(actions)
}

/// CREATE TRIGGER of a trigger. Its row variables and transition tables, and the ranges of its queries, have names that
/// begin with the stem.
pub fn create_trigger(
    alloc: Global,
    tables: &[Table],
    stem: &str,
    trigger: &Trigger,
) -> Result<Statement, AllocError>
    ensures { IfOk result (CreatesTrigger tables.now trigger.now) }
{
    let subject = columns_at(tables, trigger.table);
    let referencing = items_of(alloc, stem, trigger)?;
    let new = Item {
        side: Side::New,
        what: TransitionName::Row,
    };
    let variable = item_name(alloc, stem, new)?;
    let naming = Naming {
        tables,
        items: referencing.as_slice(),
        subject,
        stem,
    };
    let name = trigger.name.clone()?;
    let table = table_name_at(alloc, tables, trigger.table)?;
    let columns = names_at(alloc, subject, trigger.columns.as_slice())?;
    let when = filter_of(alloc, &naming, &Scope::Nothing, &trigger.when)?;
    let body = body_of(alloc, &naming, &variable, trigger.body.as_slice())?;
    Ok(Statement::CreateTrigger(TriggerDefinition {
        name,
        time: trigger.time,
        event: trigger.event,
        columns,
        table,
        referencing,
        granularity: trigger.granularity,
        when,
        body,
    }))
}
