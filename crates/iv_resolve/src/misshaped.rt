//! Values of a statement that don't suit their columns.
ghost use Rattle.std.specs.Prelude.{◌≡◌, []};
ghost use Rattle.iv_resolution.specs.Changes.{misshaped_delete, misshaped_insert, misshaped_select, misshaped_update};
ghost use Rattle.iv_resolution.specs.Resolution.{is_misshaped};
ghost use Rattle.iv_resolution.specs.Tables.{table_names};

use iv_catalogue::Catalogue;
use iv_resolve_scope::{Ranges, table_names};
use iv_resolve_statements::{
    misshaped_delete, misshaped_insert, misshaped_select, misshaped_trigger, misshaped_update,
};
use iv_resolve_tables::{misshaped_addition, misshaped_table};
use iv_syntax::{Delete, Insert, Select, Statement, Update};
use std::alloc::Global;

fn of_insert(insert: &Insert, catalogue: &Catalogue) -> bool
    ensures { result ≡ misshaped_insert (table_names catalogue.now) [] insert.now }
{
    let names = table_names(catalogue);
    misshaped_insert(insert, &names, &Ranges::Nothing)
}

fn of_update(update: &Update, catalogue: &Catalogue) -> bool
    ensures { result ≡ misshaped_update (table_names catalogue.now) [] update.now }
{
    let names = table_names(catalogue);
    misshaped_update(update, &names, &Ranges::Nothing)
}

fn of_delete(delete: &Delete, catalogue: &Catalogue) -> bool
    ensures { result ≡ misshaped_delete (table_names catalogue.now) [] delete.now }
{
    let names = table_names(catalogue);
    misshaped_delete(delete, &names, &Ranges::Nothing)
}

fn of_select(select: &Select, catalogue: &Catalogue) -> bool
    ensures { result ≡ misshaped_select (table_names catalogue.now) [] select.now }
{
    let names = table_names(catalogue);
    misshaped_select(select, &names, &Ranges::Nothing)
}

/// Whether the number of values isn't that of the columns, or an integer meets a text.
pub fn is_misshaped(alloc: Global, statement: &Statement, catalogue: &Catalogue) -> bool
    ensures { result ≡ is_misshaped catalogue.now statement.now }
{
    match statement {
        Statement::CreateTable { name, elements } => {
            misshaped_table(alloc, catalogue, name.as_str(), elements.as_slice())
        }
        Statement::AlterTable { table, constraint } => {
            misshaped_addition(catalogue, table.as_str(), constraint)
        }
        Statement::CreateTrigger(trigger) => misshaped_trigger(trigger, catalogue),
        Statement::Insert(insert) => of_insert(insert, catalogue),
        Statement::Update(update) => of_update(update, catalogue),
        Statement::Delete(delete) => of_delete(delete, catalogue),
        Statement::Select(select) => of_select(select, catalogue),
        _ => false,
    }
}
