//! What the catalogue has of a name.
ghost use Rattle.std.specs.Prelude.{◌≡◌};
ghost use Rattle.iv_catalogue.specs.Catalogues.{has_constraint, has_table, has_trigger};
ghost use Rattle.iv_resolution.specs.Changes.{is_table};
ghost use Rattle.iv_resolve_scope.specs.Seen.{names_seen};

use iv_catalogue::Catalogue;
use iv_resolve_scope::{Names, table_place};

/// Whether a statement may change a table of that name.
pub fn is_table(names: &Names<'_>, name: &str) -> bool
    ensures { result ≡ is_table (names_seen names.now) name.now }
{
    table_place(names.tables, name).is_some()
}

/// Whether a table has the name.
#[tactic(auto, using(iv_resolution::proofs::Found::found))]
pub fn has_table(catalogue: &Catalogue, name: &str) -> bool
    ensures { result ≡ has_table catalogue.now name.now }
{
    catalogue.table_named(name).is_some()
}

/// Whether a constraint has the name.
#[tactic(auto, using(iv_resolution::proofs::Found::found))]
pub fn has_constraint(catalogue: &Catalogue, name: &str) -> bool
    ensures { result ≡ has_constraint catalogue.now name.now }
{
    catalogue.constraint_named(name).is_some()
}

/// Whether a trigger has the name.
#[tactic(auto, using(crate::proofs::TriggerFound::trigger_found))]
pub fn has_trigger(catalogue: &Catalogue, name: &str) -> bool
    ensures { result ≡ has_trigger catalogue.now name.now }
{
    catalogue.trigger_named(name).is_some()
}
