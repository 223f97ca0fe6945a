//! The keys of the table that constraints are of, while one constraint after the other is asked.
ghost use Rattle.std.specs.Prelude.{◌≡◌, option_map};
ghost use Rattle.std.specs.List.{list_any};
ghost use Rattle.iv_resolution.specs.Constraints.{is_reliable, primary_key_of};
ghost use Rattle.iv_resolve_tables.specs.Keys.{key_seen};
ghost use Rattle.iv_resolve_tables.specs.Seen.{own_seen};
ghost use Rattle.iv_resolve_tables.specs.OwnKeys.{Knows};

use crate::{KeySets, Own, TableKey, has_reliable_key, has_set, primary_key};
use iv_catalogue::Catalogue;
use iv_syntax::Name;
use std::alloc::Global;

/// They are searched one after another; or the primary key is known, and the sets of columns of those that are NOT DEFERRABLE.
#[derive(Clone, Copy)]
pub enum OwnKeys<'a, 'b> {
    Searched,
    Found(Global, Option<TableKey<'a>>, &'b KeySets),
}

/// The primary key of the table.
pub fn known_primary<'a>(
    own: &Own<'a>,
    catalogue: &'a Catalogue,
    keys: &OwnKeys<'a, '_>,
) -> Option<TableKey<'a>>
    requires { Knows keys.now (own_seen catalogue.now own.now).keys }
    ensures { option_map key_seen result
        ≡ primary_key_of (own_seen catalogue.entry.now own.now).keys }
{
    match keys {
        OwnKeys::Searched => primary_key(own, catalogue),
        OwnKeys::Found(_, primary, _) => *primary,
    }
}

/// Whether the table has a key of this set of columns that is NOT DEFERRABLE. If the set can't be allocated, the keys
/// are searched one after another.
pub fn has_known_key<'a>(
    own: &Own<'a>,
    catalogue: &'a Catalogue,
    keys: &OwnKeys<'a, '_>,
    names: &[Name],
) -> bool
    requires { Knows keys.now (own_seen catalogue.now own.now).keys }
    ensures { result ≡ list_any (is_reliable names.now) (own_seen catalogue.now own.now).keys }
{
    match keys {
        OwnKeys::Searched => has_reliable_key(own, catalogue, names),
        OwnKeys::Found(alloc, _, sets) => match has_set(*alloc, sets, names) {
            Ok(found) => found,
            Err(_) => has_reliable_key(own, catalogue, names),
        },
    }
}
