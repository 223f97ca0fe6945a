//! A list of names of columns. The time is the names times the columns, or nearly the names with an index of the
//! columns.
ghost use Rattle.std.specs.Prelude.{◌≡◌, IfOk};
ghost use Rattle.iv_resolution.specs.Constraints.{places_of};
ghost use Rattle.iv_resolve_scope.specs.Seen.{columns_seen};

use crate::columns::Columns;
use iv_syntax::Name;
use sqlite_items::Items;
use std::alloc::{AllocError, Global};

/// The places of the columns of these names; 0 for a name that names none.
pub fn places_of(
    alloc: Global,
    columns: &Columns<'_>,
    names: &[Name],
) -> Result<Items<u32>, AllocError>
    ensures { IfOk result (λ ps. ps ≡ places_of (columns_seen columns.now) names.now) }
{
    let mut places = Items::new(alloc);
    for name in names {
        places.push(columns.place_of(name.as_str()))?;
    }
    Ok(places)
}
