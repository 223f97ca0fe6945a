//! Names besides those of ranges.
ghost use Rattle.std.specs.Prelude.{◌≡◌, IfOk, Bool, true, false, option_map, string_bytes};
ghost use Rattle.std.specs.Option.{option_copied};
ghost use Rattle.iv_restate.specs.Seen.{naming_seen, ranges_seen};
ghost use Rattle.iv_restate.specs.Trees.{alias_of, is_item, item_name, source_columns, source_name, variable_named};
ghost use Rattle.iv_resolution.specs.Scopes.{named_columns};

use crate::scope::{Scope, depth, name_of, qualified};
use iv_catalogue::{Column, Table};
use iv_expr::{Range, Side};
use iv_syntax::{ColumnName, Name, Referencing, TransitionName};
use std::alloc::{AllocError, Global};

/// The tables of the catalogue; the items of REFERENCING of a trigger with the columns of its table; and how the alias of
/// a range begins. A CHECK has none of them.
#[derive(Clone, Copy)]
pub struct Naming<'a> {
    pub tables: &'a [Table],
    pub items: &'a [Referencing],
    pub subject: &'a [Column],
    pub stem: &'a str,
}

// Whether the item names the row of this side, or the table of it.
fn is_item(item: &Referencing, side: Side, row: bool) -> bool
    ensures { result ≡ is_item side row item.now }
{
    let is_row = match item.what {
        TransitionName::Row => true,
        TransitionName::Table => false,
    };
    match (item.side, side) {
        (Side::Old, Side::Old) => is_row == row,
        (Side::New, Side::New) => is_row == row,
        _ => false,
    }
}

// The name of the first item that names it.
fn item_name(items: &[Referencing], side: Side, row: bool) -> Option<&Name>
    ensures { option_copied result ≡ item_name side row items.now }
{
    for item in items {
        if is_item(item, side, row) {
            return Some(&item.name);
        }
    }
    None
}

/// A column of a row variable.
pub fn variable_named(
    alloc: Global,
    naming: &Naming<'_>,
    side: Side,
    place: u32,
) -> Result<Option<ColumnName>, AllocError>
    ensures { IfOk result (λ c. c ≡ variable_named (naming_seen naming.now) side place) }
{
    match item_name(naming.items, side, true) {
        Some(name) => qualified(alloc, name.as_str(), naming.subject, place),
        None => Ok(None),
    }
}

/// What a FROM names.
pub fn source_name<'a>(naming: &Naming<'a>, range: Range) -> Option<&'a Name>
    ensures { option_copied result ≡ source_name (naming_seen naming.now) range }
{
    match range {
        Range::Table(id) => match naming.tables.get(id.place() as usize) {
            Some(table) => Some(&table.name),
            None => None,
        },
        Range::Transition(side) => item_name(naming.items, side, false),
    }
}

/// Its columns.
pub fn source_columns<'a>(naming: &Naming<'a>, range: Range) -> &'a [Column]
    ensures { named_columns result.now ≡ source_columns (naming_seen naming.now) range }
{
    match range {
        Range::Table(id) => match naming.tables.get(id.place() as usize) {
            Some(table) => table.columns.as_slice(),
            None => &[],
        },
        Range::Transition(_) => naming.subject,
    }
}

/// The name of a range inside of these.
pub fn alias_of<'a>(
    alloc: Global,
    naming: &Naming<'_>,
    scope: &'a Scope<'a>,
) -> Result<Name, AllocError>
    ensures { IfOk result (λ name. name ≡ alias_of (naming_seen naming.now) (ranges_seen scope.now)) }
{
    let stem = naming.stem;
    let depth = depth(scope);
    let alias = format!(in alloc; "{stem}{depth}")?;
    name_of(alloc, alias.as_str())
}
