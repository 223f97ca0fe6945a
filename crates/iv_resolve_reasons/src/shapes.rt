//! What doesn't suit first in a statement.
ghost use Rattle.std.specs.Prelude.{◌≡◌, [], option_map};
ghost use Rattle.iv_resolution.specs.Tables.{table_names};
ghost use Rattle.iv_resolve_reasons.specs.Seen.{shape_seen};
ghost use Rattle.iv_resolve_reasons.specs.Shapes.{shape_fault, shape_in_delete, shape_in_insert, shape_in_select, shape_in_update};

use crate::changes::{shape_in_delete, shape_in_insert, shape_in_select, shape_in_update};
use crate::checks::{shape_in_alteration, shape_in_table};
use crate::scope::outside_scope;
use crate::shape::ShapeFault;
use crate::triggers::shape_in_trigger;
use iv_catalogue::Catalogue;
use iv_resolve_scope::Ranges;
use iv_syntax::{Delete, Insert, Select, Statement, Update};
use std::alloc::Global;

fn of_insert<'a>(insert: &'a Insert, catalogue: &'a Catalogue) -> Option<ShapeFault<'a>>
    ensures { option_map shape_seen result
        ≡ shape_in_insert (table_names catalogue.entry.now) [] insert.entry.now }
{
    let scope = outside_scope(catalogue);
    shape_in_insert(insert, &scope, &Ranges::Nothing)
}

fn of_update<'a>(update: &'a Update, catalogue: &'a Catalogue) -> Option<ShapeFault<'a>>
    ensures { option_map shape_seen result
        ≡ shape_in_update (table_names catalogue.entry.now) [] update.entry.now }
{
    let scope = outside_scope(catalogue);
    shape_in_update(update, &scope, &Ranges::Nothing)
}

fn of_delete<'a>(delete: &'a Delete, catalogue: &'a Catalogue) -> Option<ShapeFault<'a>>
    ensures { option_map shape_seen result
        ≡ shape_in_delete (table_names catalogue.entry.now) [] delete.entry.now }
{
    let scope = outside_scope(catalogue);
    shape_in_delete(delete, &scope, &Ranges::Nothing)
}

fn of_select<'a>(select: &'a Select, catalogue: &'a Catalogue) -> Option<ShapeFault<'a>>
    ensures { option_map shape_seen result
        ≡ shape_in_select (table_names catalogue.entry.now) [] select.entry.now }
{
    let scope = outside_scope(catalogue);
    shape_in_select(select, &scope, &Ranges::Nothing)
}

/// The first in the text of a statement that doesn't suit: a tuple or a query with too few or too many values, or an
/// integer that meets a text. There is one if and only if the statement deserves WrongShape. Only for a CREATE TABLE an
/// index of its columns is allocated; if it can't be, columns are searched one after another.
pub fn shape_fault<'a>(
    alloc: Global,
    catalogue: &'a Catalogue,
    statement: &'a Statement,
) -> Option<ShapeFault<'a>>
    ensures { option_map shape_seen result
        ≡ shape_fault catalogue.entry.now statement.entry.now }
{
    match statement {
        Statement::CreateTable { name, elements } => {
            shape_in_table(alloc, catalogue, name.as_str(), elements.as_slice())
        }
        Statement::AlterTable { table, constraint } => {
            shape_in_alteration(catalogue, table.as_str(), constraint)
        }
        Statement::CreateTrigger(trigger) => shape_in_trigger(trigger, catalogue),
        Statement::Insert(insert) => of_insert(insert, catalogue),
        Statement::Update(update) => of_update(update, catalogue),
        Statement::Delete(delete) => of_delete(delete, catalogue),
        Statement::Select(select) => of_select(select, catalogue),
        _ => None,
    }
}
