//! The columns of the foreign keys that set values of rows.
ghost use Rattle.std.specs.Prelude.{◌≡◌, ◌<◌, ◌==◌, ◌||◌, ◌++◌, ℕ, false, get_or, length, map, IfOk, OnOk};
ghost use Rattle.std.specs.List.{list_any};
ghost use Rattle.iv_machine.specs.ReferentialActions.{referencing_columns, sets_values};
ghost use Rattle.iv_exec_actions.specs.Following.{columns_where};

use crate::affected::AffectedForeignKey;
use crate::conflict::have_deletion;
use iv_expr::{TableColumn, TableId};
use iv_machine::Effect;
use std::alloc::{AllocError, Global};

// ---- which foreign keys set values, a flag for each by its number among the constraints

// Adds flags that aren't set until there is one at this place.
fn widen(flags: &mut Vec<bool>, place: usize) -> Result<(), AllocError>
    ensures wide { OnOk result (place < length flags.new.items) }
    ensures same { OnOk result ((id : ℕ)
        → get_or flags.new.items id false ≡ get_or flags.old.items id false) }
{
    while flags.len() <= place {
        flags.push(false)?;
    }
    Ok(())
}

fn flag(flags: &mut Vec<bool>, id: u32) -> Result<(), AllocError>
    ensures { OnOk result ((other : ℕ) → get_or flags.new.items other false ≡
        ((id == other) || get_or flags.old.items other false)) }
{
    let place = id as usize;
    widen(flags, place)?;
    flags[place] = true;
    Ok(())
}

// Flags the foreign keys of these effects.
fn flag_all(flags: &mut Vec<bool>, effects: &[(u32, Effect)]) -> Result<(), AllocError>
    ensures { OnOk result ((id : ℕ) → get_or flags.new.items id false ≡
        (list_any (λ e. e.0 == id) effects.now || get_or flags.old.items id false)) }
{
    match effects {
        [] => Ok(()),
        [effect, rest @ ..] => {
            flag_all(flags, rest)?;
            flag(flags, effect.0)
        }
    }
}

/// Flags the foreign keys that set values of a row which has these effects. They set none if one deletes the row.
pub fn flag_setting(flags: &mut Vec<bool>, effects: &[(u32, Effect)]) -> Result<(), AllocError>
    ensures { OnOk result ((id : ℕ) → get_or flags.new.items id false ≡
        (sets_values id effects.now || get_or flags.old.items id false)) }
{
    if have_deletion(effects) {
        return Ok(());
    }
    flag_all(flags, effects)
}

// ---- their columns

fn is_flagged(flags: &[bool], id: u32) -> bool
    ensures { result ≡ get_or flags.now id false }
{
    match flags.get(id as usize) {
        Some(flag) => *flag,
        None => false,
    }
}

// Adds these columns of a table.
fn push_columns(
    named: &mut Vec<TableColumn>,
    table: TableId,
    columns: &[u32],
) -> Result<(), AllocError>
    ensures { OnOk result (named.new.items ≡
        named.old.items ++ map (λ column. record { table = table; column = column }) columns.now) }
{
    match columns {
        [] => Ok(()),
        [column, rest @ ..] => {
            named.push(TableColumn {
                table,
                column: *column,
            })?;
            push_columns(named, table, rest)
        }
    }
}

// Adds the referencing columns of a foreign key.
fn push_referencing(
    named: &mut Vec<TableColumn>,
    affected: &AffectedForeignKey<'_>,
) -> Result<(), AllocError>
    ensures { OnOk result (named.new.items ≡
        named.old.items ++ referencing_columns affected.now.reference) }
{
    push_columns(named, affected.table(), affected.key().columns.as_slice())
}

// Adds the referencing columns of each flagged foreign key.
fn push_flagged(
    named: &mut Vec<TableColumn>,
    affected_keys: &[AffectedForeignKey<'_>],
    flags: &[bool],
) -> Result<(), AllocError>
    ensures { OnOk result (named.new.items ≡
        named.old.items ++ columns_where (λ id. get_or flags.now id false) affected_keys.now) }
{
    match affected_keys {
        [] => Ok(()),
        [affected, rest @ ..] => {
            if is_flagged(flags, affected.id()) {
                push_referencing(named, affected)?;
                push_flagged(named, rest, flags)
            } else {
                push_flagged(named, rest, flags)
            }
        }
    }
}

/// The referencing columns of the flagged foreign keys.
pub fn columns_where(
    alloc: Global,
    affected_keys: &[AffectedForeignKey<'_>],
    flags: &[bool],
) -> Result<Vec<TableColumn>, AllocError>
    ensures { IfOk result (λ named. named.items ≡
        columns_where (λ id. get_or flags.now id false) affected_keys.now) }
{
    let mut named = Vec::new(alloc);
    push_flagged(&mut named, affected_keys, flags)?;
    Ok(named)
}
