//! The text of a condition, read again.
ghost use Rattle.std.specs.Prelude.{◌≡◌, ◌∷◌, [], Ok, IfOk, IfSome, string_bytes, true};
ghost use Rattle.iv_catalogue.specs.declared.plan.Outputs.TheVariants.{Star};
ghost use Rattle.iv_catalogue.specs.declared.plan.Plan.TheVariants as planned;
ghost use Rattle.iv_catalogue.specs.declared.plan.QueryPlan.TheVariants as query;
ghost use Rattle.iv_resolution.specs.Resolution.{resolution};
ghost use Rattle.iv_syntax.specs.declared.statement.Statement.{Statement as Seen};
ghost use Rattle.iv_restate.specs.Constraints.{table_name_at};
ghost use Rattle.iv_restore.specs.Conditions.{IsReadAs, select_text};

use crate::same::Same;
use iv_catalogue::{Catalogue, Cause, Outputs, Plan, QueryPlan};
use iv_dump::DumpRefusal;
use iv_expr::{Cond, TableId};
use iv_parse::script;
use iv_resolve::resolve;
use iv_syntax::Statement;
use std::alloc::{AllocError, Global};

fn table_name(catalogue: &Catalogue, id: TableId) -> &str
    ensures { result.now ≡ table_name_at catalogue.now.tables id }
{
    match catalogue.table(id) {
        Some(table) => table.name.as_str(),
        None => "",
    }
}

fn select_text(alloc: Global, table: &str, text: &str) -> Result<String, AllocError>
    ensures { IfOk result (λ s. string_bytes s ≡ select_text table.now text.now) }
{
    let mut select = String::from_str(alloc, "SELECT * FROM ")?;
    select.push_str(table)?;
    select.push_str(" WHERE ")?;
    select.push_str(text)?;
    select.push_str(";")?;
    Ok(select)
}

// Whether a plan gives the rows of this table where this condition is true.
fn selects(plan: &Plan, id: TableId, condition: &Cond) -> bool
    ensures { result ≡ true → plan.now ≡ planned.Query (query.Rows id Star condition.now) }
{
    match plan {
        Plan::Query(
            QueryPlan::Rows {
                table,
                outputs: Outputs::Star,
                filter,
            },
        ) => *table == id && filter.is_same(condition),
        _ => false,
    }
}

// Whether a statement means this.
fn means(
    alloc: Global,
    catalogue: &Catalogue,
    statement: &Statement,
    id: TableId,
    condition: &Cond,
) -> Result<bool, DumpRefusal>
    ensures { IfOk result (λ same. same ≡ true
        → resolution catalogue.now statement.now ≡ Ok (planned.Query (query.Rows id Star condition.now))) }
{
    match resolve(alloc, catalogue, statement) {
        Ok(plan) => {
            let same = selects(&plan, id, condition);
            drop(plan);
            Ok(same)
        }
        Err(refusal) if matches!(refusal.cause, Cause::OutOfMemory) => Err(DumpRefusal::NoMemory),
        Err(_) => Ok(false),
    }
}

fn are_only(
    alloc: Global,
    catalogue: &Catalogue,
    statements: &[Statement],
    id: TableId,
    condition: &Cond,
) -> Result<bool, DumpRefusal>
    ensures { IfOk result (λ same. same ≡ true → (statement : Seen)
        × (statements.now ≡ statement ∷ []) × (resolution catalogue.now statement
        ≡ Ok (planned.Query (query.Rows id Star condition.now)))) }
{
    match statements {
        [statement] => means(alloc, catalogue, statement, id, condition),
        _ => Ok(false),
    }
}

/// Whether a text, as the WHERE of a SELECT of this table, is read and means this condition.
pub fn is_read_as(
    alloc: Global,
    catalogue: &Catalogue,
    id: TableId,
    text: &str,
    condition: &Cond,
) -> Result<bool, DumpRefusal>
    ensures { IfOk result (λ same. same ≡ true → IsReadAs catalogue.now id text.now condition.now) }
{
    let select = select_text(alloc, table_name(catalogue, id), text)?;
    let read = script(alloc, select.as_str());
    let parsed = match read {
        Ok(parsed) => parsed,
        Err(refused) => {
            drop(select);
            return Err(DumpRefusal::from(refused));
        }
    };
    let same = parsed.fault.is_none();
    let means = are_only(
        alloc,
        catalogue,
        parsed.statements.as_slice(),
        id,
        condition,
    );
    drop(parsed);
    drop(select);
    Ok(same && means?)
}
