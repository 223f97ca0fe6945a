//! Ranges and their columns, from the innermost outward.
ghost use Rattle.std.specs.Prelude.{◌≡◌, None, Some, IfOk};
ghost use Rattle.iv_restate.specs.Seen.{ranges_seen};
ghost use Rattle.iv_restate.specs.Trees.{column_in, column_named, column_outside, depth_of};
ghost use Rattle.iv_resolution.specs.Scopes.{named_columns};

use iv_catalogue::Column;
use iv_syntax::{ColumnName, Name};
use iv_value::Text;
use std::alloc::{AllocError, Global};

/// Nothing, or a range with the name that it is called by and those outside of it.
#[derive(Clone, Copy)]
pub enum Scope<'a> {
    Nothing,
    Within(&'a str, &'a [Column], &'a Scope<'a>),
}

/// A name that is this text.
pub fn name_of(alloc: Global, text: &str) -> Result<Name, AllocError>
    ensures { IfOk result (λ name. name ≡ text.now) }
{
    Ok(Name::new(Text::new(alloc, text)?))
}

// A column by its place, called by its name alone.
fn unqualified(columns: &[Column], place: u32) -> Result<Option<ColumnName>, AllocError>
    ensures { IfOk result (λ c. c ≡ column_in None (named_columns columns.now) place) }
{
    match columns.get(place as usize) {
        Some(column) => Ok(Some(ColumnName {
            qualifier: None,
            name: column.name.clone()?,
        })),
        None => Ok(None),
    }
}

/// A column by its place, called by the name of its range and its own.
pub fn qualified(
    alloc: Global,
    range: &str,
    columns: &[Column],
    place: u32,
) -> Result<Option<ColumnName>, AllocError>
    ensures { IfOk result (λ c. c ≡ column_in (Some range.now) (named_columns columns.now) place) }
{
    match columns.get(place as usize) {
        Some(column) => {
            let name = column.name.clone()?;
            Ok(Some(ColumnName {
                qualifier: Some(name_of(alloc, range)?),
                name,
            }))
        }
        None => Ok(None),
    }
}

// A column of the range that so many others are inside of.
fn column_outside<'a>(
    alloc: Global,
    scope: &'a Scope<'a>,
    outward: u32,
    place: u32,
) -> Result<Option<ColumnName>, AllocError>
    ensures { IfOk result (λ c. c ≡ column_outside (ranges_seen scope.now) outward place) }
{
    match scope {
        Scope::Nothing => Ok(None),
        Scope::Within(name, columns, outer) => {
            if outward == 0 {
                qualified(alloc, name, columns, place)
            } else {
                column_outside(alloc, &**outer, outward - 1, place)
            }
        }
    }
}

/// A column by its range, counted outward, and its place there: that of the innermost range by its name alone, any
/// other with the name of its range before it.
pub fn column_named<'a>(
    alloc: Global,
    scope: &'a Scope<'a>,
    outward: u32,
    place: u32,
) -> Result<Option<ColumnName>, AllocError>
    ensures { IfOk result (λ c. c ≡ column_named (ranges_seen scope.now) outward place) }
{
    match scope {
        Scope::Nothing => Ok(None),
        Scope::Within(_, columns, outer) => {
            if outward == 0 {
                unqualified(columns, place)
            } else {
                column_outside(alloc, outer, outward - 1, place)
            }
        }
    }
}

/// How many ranges there are.
pub fn depth<'a>(scope: &'a Scope<'a>) -> u32
    ensures { result ≡ depth_of (ranges_seen scope.now) }
{
    match scope {
        Scope::Nothing => 0,
        Scope::Within(_, _, outer) => depth(&**outer).saturating_add(1),
    }
}
