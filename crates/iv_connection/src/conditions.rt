//! The conditions of CHECKs as SQL text.
ghost use Rattle.std.specs.Prelude.{◌≡◌, IfOk, IfSome, option_map, slice_get, string_bytes};
ghost use Rattle.iv_resolution.specs.Scopes.{named_columns};
ghost use Rattle.iv_restate.specs.Constraints.{columns_at};
ghost use Rattle.iv_restore.specs.Conditions.{IsReadAs};
ghost use Rattle.iv_connection.specs.Conditions.{ReadsRule, SaysCheck, SaysRule, check_text, constraint_condition, rule_condition};

use iv_catalogue::{Catalogue, Column, Rule};
use iv_dump::laws::checks_can_be_written;
use iv_expr::{Cond, TableId};
use iv_restate::check_condition;
use iv_restore::{DumpRefusal, is_read_as};
use iv_shown::{Connection, constraint_at};
use iv_write::write_condition;
use std::alloc::{AllocError, Global};

// The columns of a table; none if there is no such table.
fn columns_of(catalogue: &Catalogue, id: TableId) -> &[Column]
    ensures { named_columns result.now ≡ columns_at catalogue.now.tables id }
{
    match catalogue.tables().get(id.place() as usize) {
        Some(table) => table.columns.as_slice(),
        None => &[],
    }
}

// The condition of a CHECK on a table with these columns.
fn check_text(alloc: Global, columns: &[Column], condition: &Cond) -> Result<String, AllocError>
    ensures text { IfOk result (λ t. string_bytes t ≡ check_text (named_columns columns.now) condition.now) }
    ensures says { IfOk result (λ t. SaysCheck (named_columns columns.now) condition.now (string_bytes t)) }
{
    checks_can_be_written();
    let tree = check_condition(alloc, columns, condition)?;
    let text = write_condition(alloc, &tree);
    drop(tree);
    Ok(text?)
}

// The text, if it is read as the condition of a CHECK on this table.
fn read_again(
    alloc: Global,
    catalogue: &Catalogue,
    table: TableId,
    condition: &Cond,
    text: String,
) -> Result<String, DumpRefusal>
    ensures same { IfOk result (λ t. string_bytes t ≡ string_bytes text) }
    ensures reads { IfOk result (λ t. IsReadAs catalogue.now table (string_bytes t) condition.now) }
{
    match is_read_as(alloc, catalogue, table, text.as_str(), condition) {
        Ok(true) => Ok(text),
        Ok(false) => {
            drop(text);
            Err(DumpRefusal::Differs)
        }
        Err(refusal) => {
            drop(text);
            Err(refusal)
        }
    }
}

fn rule_condition(
    alloc: Global,
    catalogue: &Catalogue,
    table: TableId,
    rule: &Rule,
) -> Result<Option<String>, DumpRefusal>
    ensures text { IfOk result (λ t. option_map string_bytes t ≡ rule_condition (columns_at catalogue.now.tables table) rule.now) }
    ensures says { IfOk result (λ t. IfSome t (λ text.
        SaysRule (columns_at catalogue.now.tables table) rule.now (string_bytes text))) }
    ensures reads { IfOk result (λ t. IfSome t (λ text.
        ReadsRule catalogue.now table rule.now (string_bytes text))) }
{
    match rule {
        Rule::Check(condition) => {
            let text = check_text(alloc, columns_of(catalogue, table), condition)?;
            let text = read_again(alloc, catalogue, table, condition, text)?;
            Ok(Some(text))
        }
        _ => Ok(None),
    }
}

/// The condition of the CHECK at this place; none if there is no constraint, or one of another kind. Read as a CHECK of
/// its table, the text means just that constraint. It was read again, as the WHERE of a SELECT of the table; if it
/// isn't read as this condition, the answer is `Differs`.
pub fn constraint_condition(
    alloc: Global,
    connection: &Connection,
    at: usize,
) -> Result<Option<String>, DumpRefusal>
    ensures text { IfOk result (λ t. option_map string_bytes t
        ≡ constraint_condition connection.now.session.state.schema at) }
    ensures says { IfOk result (λ t. IfSome t (λ text. IfSome (slice_get connection.now.session.state.schema.constraints at) (λ k.
        SaysRule (columns_at connection.now.session.state.schema.tables k.table) k.rule (string_bytes text)))) }
    ensures reads { IfOk result (λ t. IfSome t (λ text. IfSome (slice_get connection.now.session.state.schema.constraints at) (λ k.
        ReadsRule connection.now.session.state.schema k.table k.rule (string_bytes text)))) }
{
    let Some(constraint) = constraint_at(connection, at) else {
        return Ok(None);
    };
    rule_condition(
        alloc,
        connection.session.catalogue(),
        constraint.table,
        &constraint.rule,
    )
}
