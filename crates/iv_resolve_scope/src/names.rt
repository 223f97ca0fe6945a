//! What the names of tables mean.
ghost use Rattle.std.specs.Prelude.{◌≡◌, ◌<◌, ◌≤◌, ◌∷◌, find, is_some, option_map, IfSome, length};
ghost use Rattle.std.specs.Str.{bytes_eq};
ghost use Rattle.iv_resolution.specs.Changes.{stored_columns};
ghost use Rattle.iv_resolution.specs.Scopes.{created_source, is_source, range_of, source_columns, source_named, source_range};
ghost use Rattle.iv_resolution.specs.Scopes.{stored_source, table_place, transition_source};
ghost use Rattle.iv_resolve_scope.specs.Seen.{columns_seen, names_seen, ranges_seen, source_seen};

use crate::columns::Columns;
use crate::ranges::Ranges;
use crate::referencing::ReferencingItems;
use iv_catalogue::{Column, MOST_TABLES, Table};
use iv_expr::{Range, Side, TableId};
use iv_resolution::Origin;
use iv_syntax::{RangeName, TransitionName};

/// The table that a CREATE TABLE makes.
#[derive(Clone, Copy)]
pub struct Created<'a> {
    pub name: &'a str,
    pub columns: Columns<'a>,
}

/// The tables that a FROM may name: the one that a CREATE TABLE makes, those of the catalogue, and in a
/// trigger the transition tables, which have the columns of the trigger's table.
#[derive(Clone, Copy)]
pub struct Names<'a> {
    pub created: Option<Created<'a>>,
    pub tables: &'a [Table],
    pub referencing: ReferencingItems<'a>,
    pub subject: Columns<'a>,
}

/// What a FROM names, with its columns.
#[derive(Clone, Copy)]
pub struct FromSource<'a> {
    pub range: Range,
    pub columns: Columns<'a>,
}

/// The place of the table of that name.
pub fn table_place(tables: &[Table], name: &str) -> Option<usize>
    ensures place { result ≡ table_place tables.now name.now }
    ensures within { IfSome result (λ place. place < length tables.now) }
{
    tables.iter().position(|table| name == table.name.as_str())
}

/// The columns of the table of that name; none if there is no such table.
pub fn stored_columns<'a>(tables: &'a [Table], name: &str) -> &'a [Column]
    ensures { result.now ≡ stored_columns tables.now name.now }
{
    match table_place(tables, name) {
        Some(place) => match tables.get(place) {
            Some(table) => table.columns.as_slice(),
            None => &[],
        },
        None => &[],
    }
}

fn stored_source<'a>(tables: &'a [Table], name: &str) -> Option<FromSource<'a>>
    requires { length tables.now ≤ MOST_TABLES }
    ensures { option_map source_seen result ≡ stored_source tables.entry.now name.now }
{
    match table_place(tables, name) {
        Some(place) => match tables.get(place) {
            Some(table) => Some(FromSource {
                range: Range::Table(TableId::new(place as u32)),
                columns: Columns::Stored(table.columns.as_slice()),
            }),
            None => None,
        },
        None => None,
    }
}

fn created_source<'a>(names: &Names<'a>, name: &str) -> Option<FromSource<'a>>
    requires { length names.now.tables.now ≤ MOST_TABLES }
    ensures { option_map source_seen result ≡ created_source (names_seen names.now) name.now }
{
    match names.created {
        Some(created) => {
            if name == created.name {
                Some(FromSource {
                    range: Range::Table(TableId::new(names.tables.len() as u32)),
                    columns: created.columns,
                })
            } else {
                None
            }
        }
        None => None,
    }
}

#[tactic(auto, using(crate::proofs::FirstItems::table_of_first))]
fn transition_source<'a>(names: &Names<'a>, name: &str) -> Option<FromSource<'a>>
    ensures { option_map source_seen result ≡ transition_source (names_seen names.now) name.now }
{
    match names.referencing.side(TransitionName::Table, name) {
        Some(side) => Some(FromSource {
            range: Range::Transition(side),
            columns: names.subject,
        }),
        None => None,
    }
}

/// What a FROM names: a transition table before a table. It takes time in proportion to the tables.
#[tactic(auto, unfolding(iv_resolution::specs::Scopes::source_named))]
pub fn source_named<'a>(names: &Names<'a>, name: &str) -> Option<FromSource<'a>>
    requires { length names.now.tables.now ≤ MOST_TABLES }
    ensures { option_map source_seen result ≡ source_named (names_seen names.now) name.now }
{
    match transition_source(names, name) {
        Some(source) => Some(source),
        None => match created_source(names, name) {
            Some(source) => Some(source),
            None => stored_source(names.tables, name),
        },
    }
}

/// Whether a FROM may name it.
#[tactic(auto, unfolding(iv_resolution::specs::Scopes::is_source))]
pub fn is_source(names: &Names<'_>, name: &str) -> bool
    requires { length names.now.tables.now ≤ MOST_TABLES }
    ensures { result ≡ is_source (names_seen names.now) name.now }
{
    source_named(names, name).is_some()
}

/// The columns of what a FROM names; none if it names nothing.
#[tactic(auto, unfolding(iv_resolution::specs::Scopes::source_columns))]
pub fn source_columns<'a>(names: &Names<'a>, name: &str) -> Columns<'a>
    requires { length names.now.tables.now ≤ MOST_TABLES }
    ensures { columns_seen result ≡ source_columns (names_seen names.now) name.now }
{
    match source_named(names, name) {
        Some(source) => source.columns,
        None => Columns::Stored(&[]),
    }
}

/// The range that a FROM names; the first table if it names nothing.
#[tactic(auto, unfolding(iv_resolution::specs::Scopes::source_range))]
pub fn source_range(names: &Names<'_>, name: &str) -> Range
    requires { length names.now.tables.now ≤ MOST_TABLES }
    ensures { result ≡ source_range (names_seen names.now) name.now }
{
    match source_named(names, name) {
        Some(source) => source.range,
        None => Range::Table(TableId::new(0)),
    }
}

/// The ranges with that of a FROM inside.
#[tactic(auto, unfolding(iv_resolution::specs::Scopes::range_of))]
pub fn inside<'a>(range: &'a RangeName, names: &'a Names<'a>, outer: &'a Ranges<'a>) -> Ranges<'a>
    requires { length names.now.tables.now ≤ MOST_TABLES }
    ensures { ranges_seen result
        ≡ range_of (names_seen names.entry.now) range.entry.now ∷ ranges_seen outer.entry.now }
{
    let columns = source_columns(names, range.table.as_str());
    match &range.alias {
        Some(alias) => Ranges::Within(alias.as_str(), columns, Origin::Rows, outer),
        None => Ranges::Within(range.table.as_str(), columns, Origin::Rows, outer),
    }
}
