//! The change that effects make of a row.
ghost use Rattle.std.specs.Prelude.{◌≡◌, ◌++◌, flat_map, slice_set, IfOk, OnOk};
ghost use Rattle.iv_machine.specs.Proposals.{with_columns};
ghost use Rattle.iv_machine.specs.ReferentialActions.{columns_set, change_by};

use crate::conflict::{columns_set, have_deletion};
use iv_expr::{Change, Row, StoredRow};
use iv_machine::Effect;
use iv_value::Value;
use std::alloc::{AllocError, Global};

// The values again, which share their texts.
fn copy(alloc: Global, values: &[Value]) -> Result<Vec<Value>, AllocError>
    ensures { IfOk result (λ v. v.items ≡ values.now) }
{
    let mut copy = Vec::with_capacity(alloc, values.len())?;
    for value in values {
        copy.push(value.clone()?)?;
    }
    Ok(copy)
}

// Sets a column, if there is one.
fn set(values: &mut Vec<Value>, column: u32, value: &Value) -> Result<(), AllocError>
    ensures { OnOk result (values.new.items ≡ slice_set values.old.items column value.now) }
{
    let value = value.clone()?;
    let place = column as usize;
    if place < values.len() {
        values[place] = value;
    }
    Ok(())
}

fn set_all(values: &mut Vec<Value>, pairs: &[(u32, Value)]) -> Result<(), AllocError>
    ensures { OnOk result (values.new.items ≡ with_columns values.old.items pairs.now) }
{
    for pair in pairs {
        set(values, pair.0, &pair.1)?;
    }
    Ok(())
}

fn set_by_all(values: &mut Vec<Value>, effects: &[(u32, Effect)]) -> Result<(), AllocError>
    ensures { OnOk result (values.new.items ≡
        with_columns values.old.items (flat_map (λ e. columns_set e.1) effects.now)) }
{
    for effect in effects {
        set_all(values, columns_set(&effect.1))?;
    }
    Ok(())
}

// The values with the columns set that these effects set.
fn with_effects(
    alloc: Global,
    values: &[Value],
    effects: &[(u32, Effect)],
) -> Result<Row, AllocError>
    ensures { IfOk result (λ row. row ≡
        with_columns values.now (flat_map (λ e. columns_set e.1) effects.now)) }
{
    let mut values = copy(alloc, values)?;
    set_by_all(&mut values, effects)?;
    Row::new(values)
}

/// The change of a row by these effects, or none if they have none.
pub fn change_by(
    alloc: Global,
    row: &StoredRow,
    effects: &[(u32, Effect)],
) -> Result<Option<Change>, AllocError>
    ensures { IfOk result (λ change. change ≡ change_by row.now effects.now) }
{
    if effects.is_empty() {
        return Ok(None);
    }
    let old = row.values.clone()?;
    let new = if have_deletion(effects) {
        None
    } else {
        Some(with_effects(alloc, row.values.values(), effects)?)
    };
    Ok(Some(Change {
        table: row.table,
        row: row.number,
        old: Some(old),
        new,
    }))
}
