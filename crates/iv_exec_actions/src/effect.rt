//! What foreign keys do to a row.
ghost use Rattle.std.specs.Prelude.{◌≡◌, ◌==◌, ◌&&◌, ◌++◌, List, [], ◌∷◌, map, zip, filter, flat_map, if◌then◌else◌, IfOk, OnOk};
ghost use Rattle.iv_value.specs.declared.value.Value.TheVariants.{Null};
ghost use Rattle.iv_value.specs.Values.{all_same};
ghost use Rattle.iv_machine.specs.declared.effect.Effect.TheVariants.{SetColumns};
ghost use Rattle.iv_key.specs.Keys.{value_at, key_of};
ghost use Rattle.iv_machine.specs.Proposals.{defaults_of};
ghost use Rattle.iv_machine.specs.ReferentialActions.{cascade, keeps_reference};
ghost use Rattle.iv_laws_levels.specs.Holders.{loss_of_new};
ghost use Rattle.iv_exec_actions.specs.ByTable.{at_places};
ghost use Rattle.iv_exec_actions.specs.Following.{effects_for, effects_by, effects_among, one_or_none};

use crate::affected::{AffectedForeignKey, action_for};
use crate::by_table::ByTable;
use crate::restrict::change_losing;
use crate::row::LentRow;
use iv_catalogue::{Catalogue, Column, ForeignKey};
use iv_expr::{Change, TableId};
use iv_key::{Key, value_at};
use iv_machine::Effect;
use iv_syntax::ReferentialAction;
use iv_value::Value;
use sqlite_items::Items;
use std::alloc::{AllocError, Global};

// Adds the columns with the values of a row's key, in their order.
fn push_key(
    pairs: &mut Vec<(u32, Value)>,
    columns: &[u32],
    key: &[u32],
    row: &[Value],
) -> Result<(), AllocError>
    ensures { OnOk result (pairs.new.items ≡
        pairs.old.items ++ zip columns.now (key_of key.now row.now)) }
{
    match columns {
        [] => Ok(()),
        [column, columns @ ..] => match key {
            [] => Ok(()),
            [place, key @ ..] => {
                pairs.push((*column, value_at(row, *place).to_value()?))?;
                push_key(pairs, columns, key, row)
            }
        },
    }
}

// Adds the columns with null.
fn push_nulls(pairs: &mut Vec<(u32, Value)>, columns: &[u32]) -> Result<(), AllocError>
    ensures { OnOk result (pairs.new.items ≡
        pairs.old.items ++ map (λ column. (column, Null)) columns.now) }
{
    match columns {
        [] => Ok(()),
        [column, columns @ ..] => {
            pairs.push((*column, Value::Null))?;
            push_nulls(pairs, columns)
        }
    }
}

// The columns of a table.
fn columns_of(catalogue: &Catalogue, table: TableId) -> &[Column]
    ensures { map (λ c. c.default) result.now ≡ defaults_of catalogue.now table }
{
    match catalogue.table(table) {
        Some(table) => table.columns.as_slice(),
        None => &[],
    }
}

// The default of the column at a place.
fn default_at(columns: &[Column], place: u32) -> Result<Value, AllocError>
    ensures { IfOk result (λ v. v ≡ value_at (map (λ c. c.default) columns.now) place) }
{
    match columns.get(place as usize) {
        Some(column) => column.default.clone(),
        None => Ok(Value::Null),
    }
}

// Adds the columns with their defaults.
fn push_defaults(
    pairs: &mut Vec<(u32, Value)>,
    all: &[Column],
    columns: &[u32],
) -> Result<(), AllocError>
    ensures { OnOk result (pairs.new.items ≡ pairs.old.items
        ++ map (λ column. (column, value_at (map (λ c. c.default) all.now) column)) columns.now) }
{
    match columns {
        [] => Ok(()),
        [column, columns @ ..] => {
            pairs.push((*column, default_at(all, *column)?))?;
            push_defaults(pairs, all, columns)
        }
    }
}

fn set_key(alloc: Global, columns: &[u32], key: &[u32], row: &[Value]) -> Result<Effect, AllocError>
    ensures { IfOk result (λ e. e ≡ SetColumns (zip columns.now (key_of key.now row.now))) }
{
    let mut pairs = Vec::new(alloc);
    push_key(&mut pairs, columns, key, row)?;
    Ok(Effect::SetColumns(Items::from_vec(pairs)))
}

fn set_nulls(alloc: Global, columns: &[u32]) -> Result<Effect, AllocError>
    ensures { IfOk result (λ e. e ≡ SetColumns (map (λ column. (column, Null)) columns.now)) }
{
    let mut pairs = Vec::new(alloc);
    push_nulls(&mut pairs, columns)?;
    Ok(Effect::SetColumns(Items::from_vec(pairs)))
}

fn set_defaults(
    alloc: Global,
    catalogue: &Catalogue,
    table: TableId,
    columns: &[u32],
) -> Result<Effect, AllocError>
    ensures { IfOk result (λ e. e ≡ SetColumns
        (map (λ column. (column, value_at (defaults_of catalogue.now table) column)) columns.now)) }
{
    let mut pairs = Vec::new(alloc);
    push_defaults(&mut pairs, columns_of(catalogue, table), columns)?;
    Ok(Effect::SetColumns(Items::from_vec(pairs)))
}

// CASCADE deletes the row, or copies the whole new key.
fn cascade(alloc: Global, key: &ForeignKey, change: &Change) -> Result<Effect, AllocError>
    ensures { IfOk result (λ e. e ≡ cascade key.now (loss_of_new key.now change.now.new)) }
{
    match &change.new {
        None => Ok(Effect::DeleteRow),
        Some(new) => set_key(
            alloc,
            key.columns.as_slice(),
            key.key.as_slice(),
            new.values(),
        ),
    }
}

// What a foreign key does to a row which refers to a key that this change took away.
fn effect_for(
    alloc: Global,
    catalogue: &Catalogue,
    affected: &AffectedForeignKey<'_>,
    change: &Change,
) -> Result<Option<Effect>, AllocError>
    ensures { IfOk result (λ e. one_or_none e ≡
        effects_for catalogue.now affected.now change.now) }
{
    let key = affected.key();
    match action_for(key, change) {
        ReferentialAction::NoAction => Ok(None),
        ReferentialAction::Restrict => Ok(None),
        ReferentialAction::Cascade => Ok(Some(cascade(alloc, key, change)?)),
        ReferentialAction::SetNull => Ok(Some(set_nulls(alloc, key.columns.as_slice())?)),
        ReferentialAction::SetDefault => Ok(Some(set_defaults(
            alloc,
            catalogue,
            affected.table(),
            key.columns.as_slice(),
        )?)),
    }
}

/// Whether a row refers by a foreign key of its table to the same key before and after.
pub fn keeps_reference(
    before: &LentRow<'_>,
    after: &LentRow<'_>,
    affected: &AffectedForeignKey<'_>,
) -> bool
    ensures { result ≡ keeps_reference before.now after.now affected.now.reference }
{
    if affected.table() != before.table() {
        return false;
    }
    let columns = affected.key().columns.as_slice();
    Key::new(columns, before.values()).same(&Key::new(columns, after.values()))
}

// Adds what a foreign key does to a row.
fn push_effect(
    effects: &mut Vec<(u32, Effect)>,
    alloc: Global,
    catalogue: &Catalogue,
    affected: &AffectedForeignKey<'_>,
    before: &LentRow<'_>,
) -> Result<(), AllocError>
    ensures { OnOk result (effects.new.items ≡
        effects.old.items ++ effects_by catalogue.now before.now affected.now) }
{
    let Some(change) = change_losing(affected, before) else {
        return Ok(());
    };
    if let Some(effect) = effect_for(alloc, catalogue, affected, change)? {
        effects.push((affected.id(), effect))?;
    }
    Ok(())
}

// Adds what a foreign key does to a row that still refers to the same key.
fn push_where_kept(
    effects: &mut Vec<(u32, Effect)>,
    alloc: Global,
    catalogue: &Catalogue,
    affected: &AffectedForeignKey<'_>,
    before: &LentRow<'_>,
    after: &LentRow<'_>,
) -> Result<(), AllocError>
    ensures { OnOk result (effects.new.items ≡
        (if keeps_reference before.now after.now affected.now.reference
        then effects.old.items ++ effects_by catalogue.now before.now affected.now
        else effects.old.items)) }
{
    if keeps_reference(before, after, affected) {
        push_effect(effects, alloc, catalogue, affected, before)?;
    }
    Ok(())
}

// What the foreign keys at these places do to a row.
fn effects_at_places(
    alloc: Global,
    catalogue: &Catalogue,
    affected_keys: &ByTable<'_>,
    places: &[usize],
    before: &LentRow<'_>,
    after: &LentRow<'_>,
) -> Result<Vec<(u32, Effect)>, AllocError>
    ensures { IfOk result (λ v. v.items ≡
        effects_among catalogue.now (at_places affected_keys.now places.now) before.now after.now) }
{
    let mut effects = Vec::new(alloc);
    for place in places {
        if let Some(affected) = affected_keys.at(*place) {
            push_where_kept(&mut effects, alloc, catalogue, affected, before, after)?;
        }
    }
    Ok(effects)
}

/// What these foreign keys do to a row.
pub fn effects_among(
    alloc: Global,
    catalogue: &Catalogue,
    affected_keys: &ByTable<'_>,
    before: &LentRow<'_>,
    after: &LentRow<'_>,
) -> Result<Vec<(u32, Effect)>, AllocError>
    ensures { IfOk result (λ v. v.items ≡
        effects_among catalogue.now affected_keys.now before.now after.now) }
{
    let places = affected_keys.places_on(before.table());
    effects_at_places(alloc, catalogue, affected_keys, places, before, after)
}
