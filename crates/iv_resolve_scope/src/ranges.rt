//! Ranges and row variables, from the innermost outward.
ghost use Rattle.std.specs.Prelude.{◌≡◌, ◌+◌, [], ◌∷◌, Some, option_map, is_some};
ghost use Rattle.iv_resolution.specs.Scopes.{column_meant, count_outward, found_in, number, qualified, unqualified};
ghost use Rattle.iv_resolution.specs.Triggers.{row_variables};
ghost use Rattle.std.specs.Str.{bytes_eq};
ghost use Rattle.iv_resolve_scope.specs.Seen.{columns_seen, found_seen, items_seen, ranges_seen};

use crate::columns::Columns;
use crate::referencing::ReferencingItems;
use iv_resolution::Origin;
use iv_syntax::{ColumnName, ColumnType, TransitionName};

/// Ranges and row variables: nothing, the row variables of a trigger with the columns of its table, or a range with the name that it
/// is called by and those outside of it.
#[derive(Clone, Copy)]
pub enum Ranges<'a> {
    Nothing,
    Variables(ReferencingItems<'a>, Columns<'a>),
    Within(&'a str, Columns<'a>, Origin, &'a Ranges<'a>),
}

/// A column of a range or of a row variable. `outward` counts the ranges between the place of the name and that
/// range.
#[derive(Clone, Copy)]
pub struct Found {
    pub origin: Origin,
    pub outward: u32,
    pub place: u32,
    pub kind: ColumnType,
}

fn count_outward(origin: Origin, outward: u32) -> u32
    ensures { result ≡ count_outward origin outward }
{
    match origin {
        Origin::Rows => outward,
        Origin::Variable(_) => 0,
    }
}

fn found_in(columns: &Columns<'_>, origin: Origin, outward: u32, name: &str) -> Option<Found>
    ensures { option_map found_seen result
        ≡ found_in (record {
          name = [];
          columns = columns_seen columns.now;
          origin = origin;
        }) outward name.now }
{
    match columns.type_named(name) {
        Some(kind) => Some(Found {
            origin,
            outward: count_outward(origin, outward),
            place: columns.place_of(name),
            kind,
        }),
        None => None,
    }
}

// The column of the first row variable of that name.
#[tactic(auto, using(crate::proofs::Variables::variable_of_first))]
fn variable_column(
    items: &ReferencingItems<'_>,
    columns: &Columns<'_>,
    range: &str,
    name: &str,
    outward: u32,
) -> Option<Found>
    ensures { option_map found_seen result
        ≡ qualified range.now name.now outward
        (row_variables (columns_seen columns.now) (items_seen items.now)) }
{
    match items.side(TransitionName::Row, range) {
        Some(side) => found_in(columns, Origin::Variable(side), outward, name),
        None => None,
    }
}

// The innermost range that has such a column.
#[tactic(auto, using(crate::proofs::Variables::no_unqualified))]
fn unqualified<'a>(ranges: &'a Ranges<'a>, name: &str, outward: u32) -> Option<Found>
    ensures { option_map found_seen result ≡ unqualified name.now outward (ranges_seen ranges.now) }
{
    match ranges {
        Ranges::Nothing => None,
        Ranges::Variables(_, _) => None,
        Ranges::Within(_, columns, Origin::Rows, outer) => {
            match found_in(columns, Origin::Rows, outward, name) {
                Some(found) => Some(found),
                None => unqualified(&**outer, name, outward.saturating_add(1)),
            }
        }
        Ranges::Within(_, _, Origin::Variable(_), outer) => {
            unqualified(&**outer, name, outward.saturating_add(1))
        }
    }
}

// The column of the innermost range or row variable of that name.
fn qualified<'a>(ranges: &'a Ranges<'a>, range: &str, name: &str, outward: u32) -> Option<Found>
    ensures { option_map found_seen result
        ≡ qualified range.now name.now outward (ranges_seen ranges.now) }
{
    match ranges {
        Ranges::Nothing => None,
        Ranges::Variables(items, columns) => {
            variable_column(items, columns, range, name, outward)
        }
        Ranges::Within(called, columns, origin, outer) => {
            if range == *called {
                found_in(columns, *origin, outward, name)
            } else {
                qualified(&**outer, range, name, outward.saturating_add(1))
            }
        }
    }
}

/// The column that a name means. It takes time in proportion to the ranges and their columns.
#[tactic(auto, unfolding(iv_resolution::specs::Scopes::column_meant))]
pub fn column_meant<'a>(column: &ColumnName, ranges: &'a Ranges<'a>) -> Option<Found>
    ensures { option_map found_seen result ≡ column_meant (ranges_seen ranges.now) column.now }
{
    match &column.qualifier {
        Some(range) => qualified(ranges, range.as_str(), column.name.as_str(), 0),
        None => unqualified(ranges, column.name.as_str(), 0),
    }
}
