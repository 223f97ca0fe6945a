//! What a statement outside of every trigger may name.
ghost use Rattle.std.specs.Prelude.{◌≡◌, ◌≤◌, length};
ghost use Rattle.iv_resolution.specs.Tables.{table_names};
ghost use Rattle.iv_resolve_scope.specs.Seen.{names_seen};

use crate::columns::Columns;
use crate::names::Names;
use crate::referencing::ReferencingItems;
use iv_catalogue::{Catalogue, MOST_TABLES};

/// Only the tables of the catalogue.
pub fn table_names<'a>(catalogue: &'a Catalogue) -> Names<'a>
    ensures names { names_seen result ≡ table_names catalogue.entry.now }
    ensures tables { length result.tables.now ≤ MOST_TABLES }
{
    Names {
        created: None,
        tables: catalogue.tables(),
        referencing: ReferencingItems::Listed(&[]),
        subject: Columns::Stored(&[]),
    }
}
