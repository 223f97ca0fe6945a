//! The table that constraints are on.
ghost use Rattle.std.specs.Prelude.{◌≡◌, ◌≤◌, [], length, option_map};
ghost use Rattle.iv_resolution.specs.Constraints.{constraints_of, referenced, stored_reference};
ghost use Rattle.iv_resolution.specs.Tables.{check_ranges};
ghost use Rattle.iv_resolve_scope.specs.Seen.{columns_seen, created_seen, names_seen, ranges_seen};
ghost use Rattle.iv_resolve_tables.specs.Seen.{created_of_own, names_of_own, own_seen, reference_seen};

use iv_catalogue::{Catalogue, MOST_TABLES, Table};
use iv_expr::TableId;
use iv_resolution::Origin;
use iv_resolve_scope::{
    ColumnIndex, Columns, Created, Names, Ranges, ReferencingItems, table_place,
};
use iv_syntax::TableElement;

/// The table that a CREATE TABLE makes, by its name and elements, with an index of its columns or without; or the table of the
/// catalogue at a place.
#[derive(Clone, Copy)]
pub enum Own<'a> {
    Created(&'a str, &'a [TableElement]),
    Indexed(&'a str, &'a [TableElement], &'a ColumnIndex),
    Stored(u32, &'a Table),
}

/// Its name.
pub fn own_name<'a>(own: &Own<'a>, catalogue: &Catalogue) -> &'a str
    ensures { result.now ≡ (own_seen catalogue.now own.now).name }
{
    match own {
        Own::Created(name, _) => name,
        Own::Indexed(name, _, _) => name,
        Own::Stored(_, table) => table.name.as_str(),
    }
}

/// Its columns.
pub fn own_columns<'a>(own: &Own<'a>, catalogue: &Catalogue) -> Columns<'a>
    ensures { columns_seen result ≡ (own_seen catalogue.now own.now).columns }
{
    match own {
        Own::Created(_, elements) => Columns::Defined(elements),
        Own::Indexed(_, _, index) => Columns::Indexed(index),
        Own::Stored(_, table) => Columns::Stored(table.columns.as_slice()),
    }
}

// The table that is made, as a FROM sees it.
fn own_created<'a>(own: &Own<'a>) -> Option<Created<'a>>
    ensures { option_map created_seen result ≡ created_of_own own.now }
{
    match own {
        Own::Created(name, elements) => Some(Created {
            name,
            columns: Columns::Defined(elements),
        }),
        Own::Indexed(name, _, index) => Some(Created {
            name,
            columns: Columns::Indexed(index),
        }),
        Own::Stored(_, _) => None,
    }
}

/// The tables that its CHECKs may name.
pub fn own_names<'a>(own: &Own<'a>, catalogue: &'a Catalogue) -> Names<'a>
    ensures names { names_seen result ≡ names_of_own catalogue.entry.now own.now }
    ensures tables { length result.tables.now ≤ MOST_TABLES }
{
    Names {
        created: own_created(own),
        tables: catalogue.tables(),
        referencing: ReferencingItems::Listed(&[]),
        subject: Columns::Stored(&[]),
    }
}

/// The one range of its CHECKs.
pub fn own_range<'a>(own: &Own<'a>, catalogue: &'a Catalogue, outside: &'a Ranges<'a>) -> Ranges<'a>
    requires { ranges_seen outside.now ≡ [] }
    ensures { ranges_seen result ≡ check_ranges (own_seen catalogue.entry.now own.now) }
{
    let columns = own_columns(own, catalogue);
    Ranges::Within(own_name(own, catalogue), columns, Origin::Rows, outside)
}

fn stored_table<'a>(catalogue: &'a Catalogue, name: &str) -> Option<Own<'a>>
    ensures { option_map (reference_seen catalogue.entry.now) result
        ≡ stored_reference catalogue.entry.now name.now }
{
    let tables = catalogue.tables();
    match table_place(tables, name) {
        Some(place) => match tables.get(place) {
            Some(table) => Some(Own::Stored(place as u32, table)),
            None => None,
        },
        None => None,
    }
}

/// The table that a foreign key refers to: its own, or one of the catalogue.
pub fn referenced<'a>(own: &Own<'a>, catalogue: &'a Catalogue, name: &str) -> Option<Own<'a>>
    ensures { option_map (reference_seen catalogue.entry.now) result
        ≡ referenced catalogue.entry.now (own_seen catalogue.entry.now own.now) name.now }
{
    if name == own_name(own, catalogue) {
        Some(*own)
    } else {
        stored_table(catalogue, name)
    }
}

/// How many constraints the table at this place has.
#[tactic(auto, using(crate::proofs::Counts::count_places))]
pub fn count_stored(catalogue: &Catalogue, place: u32) -> usize
    ensures { result ≡ length (constraints_of catalogue.now place) }
{
    catalogue.constraints_of(TableId::new(place)).len()
}
