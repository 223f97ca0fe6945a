//! What WHEN and the body of a trigger may name.
ghost use Rattle.std.specs.Prelude.{◌≡◌, ◌≤◌, length};
ghost use Rattle.iv_resolution.specs.Triggers.{row_variables, subject_of, trigger_names, trigger_variables, variable_named};
ghost use Rattle.iv_resolve_scope.specs.Seen.{columns_seen, items_seen, names_seen, ranges_seen};

use iv_catalogue::{Catalogue, MOST_TABLES};
use iv_resolution::Origin;
use iv_resolve_scope::{Columns, Names, Ranges, ReferencingItems, stored_columns};
use iv_syntax::{TransitionName, TriggerDefinition};

/// The columns of the table that a trigger is on; none if there is no such table.
#[tactic(auto, unfolding(iv_resolution::specs::Triggers::subject_of))]
pub fn subject<'a>(trigger: &'a TriggerDefinition, catalogue: &'a Catalogue) -> Columns<'a>
    ensures { columns_seen result ≡ subject_of catalogue.entry.now trigger.entry.now }
{
    Columns::Stored(stored_columns(catalogue.tables(), trigger.table.as_str()))
}

/// The tables that a trigger may name, with its items of REFERENCING in an index or without one.
#[tactic(auto, unfolding(iv_resolution::specs::Triggers::trigger_names, iv_resolution::specs::Triggers::trigger_variables, iv_resolution::specs::Triggers::subject_of))]
pub fn names_among<'a>(
    trigger: &'a TriggerDefinition,
    catalogue: &'a Catalogue,
    items: ReferencingItems<'a>,
) -> Names<'a>
    requires { items_seen items ≡ trigger.now.referencing }
    ensures names { names_seen result ≡ trigger_names catalogue.entry.now trigger.entry.now }
    ensures variables { row_variables (columns_seen result.subject) (items_seen result.referencing)
        ≡ trigger_variables catalogue.entry.now trigger.entry.now }
    ensures tables { length result.tables.now ≤ MOST_TABLES }
{
    let tables = catalogue.tables();
    Names {
        created: None,
        tables,
        referencing: items,
        subject: Columns::Stored(stored_columns(tables, trigger.table.as_str())),
    }
}

/// The tables that a trigger may name. Each name is looked for among all items of REFERENCING, at most four if none
/// comes twice.
pub fn trigger_names<'a>(trigger: &'a TriggerDefinition, catalogue: &'a Catalogue) -> Names<'a>
    ensures names { names_seen result ≡ trigger_names catalogue.entry.now trigger.entry.now }
    ensures variables { row_variables (columns_seen result.subject) (items_seen result.referencing)
        ≡ trigger_variables catalogue.entry.now trigger.entry.now }
    ensures tables { length result.tables.now ≤ MOST_TABLES }
{
    let items = ReferencingItems::Listed(trigger.referencing.as_slice());
    names_among(trigger, catalogue, items)
}

/// The row variables of a trigger as ranges.
pub fn variables<'a>(names: &Names<'a>) -> Ranges<'a>
    ensures { ranges_seen result
        ≡ row_variables (columns_seen names.now.subject) (items_seen names.now.referencing) }
{
    Ranges::Variables(names.referencing, names.subject)
}

/// The row variable of that name.
#[tactic(auto, using(crate::proofs::Named::named_first))]
pub fn variable_named(names: &Names<'_>, name: &str) -> Option<Origin>
    ensures { result ≡ variable_named
        (row_variables (columns_seen names.now.subject) (items_seen names.now.referencing))
        name.now }
{
    match names.referencing.side(TransitionName::Row, name) {
        Some(side) => Some(Origin::Variable(side)),
        None => None,
    }
}
