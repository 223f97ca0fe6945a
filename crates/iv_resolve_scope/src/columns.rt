//! Columns by their names.
ghost use Rattle.std.specs.Prelude.{◌≡◌, option_map, position, slice_get, length, min};
ghost use Rattle.std.specs.Str.{bytes_eq};
ghost use Rattle.iv_resolution.specs.Constraints.{defined_columns};
ghost use Rattle.iv_resolution.specs.Scopes.{column_place, has_column, named_columns, number, place_of, type_named, type_of};
ghost use Rattle.iv_resolve_scope.specs.Seen.{columns_seen};

use crate::column_index::ColumnIndex;
use iv_catalogue::Column;
use iv_syntax::{ColumnType, TableElement};
use iv_value::Kind;

/// The columns of a table of the catalogue, or those that a CREATE TABLE defines, with an index of them or without.
#[derive(Clone, Copy)]
pub enum Columns<'a> {
    Stored(&'a [Column]),
    Defined(&'a [TableElement]),
    Indexed(&'a ColumnIndex),
}

// The type of a column of this kind, as it is written.
fn type_of(kind: Kind) -> ColumnType
    ensures { result ≡ type_of kind }
{
    match kind {
        Kind::Integer => ColumnType::Integer,
        Kind::Varchar(length) => ColumnType::Varchar(length as u64),
    }
}

fn number(place: usize) -> u32
    ensures { result ≡ number place }
{
    place.min(4_294_967_295) as u32
}

fn stored_place(columns: &[Column], name: &str) -> Option<u32>
    ensures { result ≡ column_place (named_columns columns.now) name.now }
{
    let mut place = 0usize;
    for column in columns {
        if name == column.name.as_str() {
            return Some(number(place));
        }
        place += 1;
    }
    None
}

fn stored_type(columns: &[Column], name: &str) -> Option<ColumnType>
    ensures { result ≡ type_named (named_columns columns.now) name.now }
{
    for column in columns {
        if name == column.name.as_str() {
            return Some(type_of(column.kind));
        }
    }
    None
}

fn defined_place(elements: &[TableElement], name: &str) -> Option<u32>
    ensures { result ≡ column_place (defined_columns elements.now) name.now }
{
    let mut place = 0usize;
    for element in elements {
        if let TableElement::Column(column) = element {
            if name == column.name.as_str() {
                return Some(number(place));
            }
            place += 1;
        }
    }
    None
}

fn defined_type(elements: &[TableElement], name: &str) -> Option<ColumnType>
    ensures { result ≡ type_named (defined_columns elements.now) name.now }
{
    for element in elements {
        if let TableElement::Column(column) = element {
            if name == column.name.as_str() {
                return Some(column.kind);
            }
        }
    }
    None
}

#[tactic(auto, using(crate::proofs::Firsts::place_of_first))]
fn indexed_place(index: &ColumnIndex, name: &str) -> Option<u32>
    ensures { result ≡ column_place index.now name.now }
{
    match index.first(name) {
        Some(column) => Some(number(column.place)),
        None => None,
    }
}

#[tactic(auto, using(crate::proofs::Firsts::type_of_first))]
fn indexed_type(index: &ColumnIndex, name: &str) -> Option<ColumnType>
    ensures { result ≡ type_named index.now name.now }
{
    match index.first(name) {
        Some(column) => Some(column.kind),
        None => None,
    }
}

fn count_defined(elements: &[TableElement]) -> usize
    ensures { result ≡ length (defined_columns elements.now) }
{
    let mut count = 0usize;
    for element in elements {
        if let TableElement::Column(_) = element {
            count += 1;
        }
    }
    count
}

fn stored_type_at(columns: &[Column], place: usize) -> Option<ColumnType>
    ensures { result ≡ option_map (λ c. c.kind) (slice_get (named_columns columns.now) place) }
{
    match columns.get(place) {
        Some(column) => Some(type_of(column.kind)),
        None => None,
    }
}

fn defined_type_at(elements: &[TableElement], place: usize) -> Option<ColumnType>
    ensures { result ≡ option_map (λ c. c.kind) (slice_get (defined_columns elements.now) place) }
{
    let mut before = 0usize;
    for element in elements {
        if let TableElement::Column(column) = element {
            if before == place {
                return Some(column.kind);
            }
            before += 1;
        }
    }
    None
}

impl<'a> Columns<'a> {
    /// The place of the first column of that name.
    pub fn place(&self, name: &str) -> Option<u32>
        ensures { result ≡ column_place (columns_seen self.now) name.now }
    {
        match self {
            Columns::Stored(columns) => stored_place(columns, name),
            Columns::Defined(elements) => defined_place(elements, name),
            Columns::Indexed(index) => indexed_place(index, name),
        }
    }

    /// The type of the first column of that name.
    pub fn type_named(&self, name: &str) -> Option<ColumnType>
        ensures { result ≡ type_named (columns_seen self.now) name.now }
    {
        match self {
            Columns::Stored(columns) => stored_type(columns, name),
            Columns::Defined(elements) => defined_type(elements, name),
            Columns::Indexed(index) => indexed_type(index, name),
        }
    }

    /// The place of the first column of that name; 0 if there is none.
    pub fn place_of(&self, name: &str) -> u32
        ensures { result ≡ place_of (columns_seen self.now) name.now }
    {
        self.place(name).unwrap_or(0)
    }

    /// Whether there is a column of that name.
    pub fn has(&self, name: &str) -> bool
        ensures { result ≡ has_column (columns_seen self.now) name.now }
    {
        self.place(name).is_some()
    }

    /// How many columns there are.
    pub fn len(&self) -> usize
        ensures { result ≡ length (columns_seen self.now) }
    {
        match self {
            Columns::Stored(columns) => columns.len(),
            Columns::Defined(elements) => count_defined(elements),
            Columns::Indexed(index) => index.len(),
        }
    }

    /// The type of the column at this place.
    pub fn type_at(&self, place: usize) -> Option<ColumnType>
        ensures { result ≡ option_map (λ c. c.kind) (slice_get (columns_seen self.now) place) }
    {
        match self {
            Columns::Stored(columns) => stored_type_at(columns, place),
            Columns::Defined(elements) => defined_type_at(elements, place),
            Columns::Indexed(index) => index.type_at(place),
        }
    }
}
