//! The table that an ALTER TABLE names.
ghost use Rattle.std.specs.Prelude.{◌≡◌, IfSome, Some, option_map, slice_get};
ghost use Rattle.iv_resolution.specs.Scopes.{table_place};

use iv_catalogue::{Catalogue, Table};
use iv_resolve_scope::table_place;

/// A table of the catalogue with its place.
#[derive(Clone, Copy)]
pub struct Placed<'a> {
    pub place: u32,
    pub table: &'a Table,
}

/// The table of that name, with its place.
pub fn table_at<'a>(catalogue: &'a Catalogue, name: &str) -> Option<Placed<'a>>
    ensures place { option_map (λ a. a.place) result
        ≡ table_place catalogue.entry.now.tables name.now }
    ensures table { IfSome result (λ a. slice_get catalogue.entry.now.tables a.place
        ≡ Some a.table.now) }
{
    let tables = catalogue.tables();
    let place = table_place(tables, name)?;
    let table = &tables[place];
    Some(Placed {
        place: place as u32,
        table,
    })
}
