//! What a data statement may name, at the top of a script or in the body of a trigger.
ghost use Rattle.std.specs.Prelude.{◌≡◌, ◌≤◌, [], length};
ghost use Rattle.iv_resolution.specs.Scopes.{named_columns, source_columns};
ghost use Rattle.iv_resolution.specs.Tables.{table_names};
ghost use Rattle.iv_resolution.specs.Triggers.{row_variables, trigger_names, trigger_variables};
ghost use Rattle.iv_resolve_scope.specs.Seen.{columns_seen, items_seen, names_seen, ranges_seen};
ghost use Rattle.iv_resolve_reasons.specs.Seen.{scope_seen};

use iv_catalogue::{Catalogue, Column, MOST_TABLES, Table};
use iv_resolve_scope::{Columns, Names, Ranges, ReferencingItems, stored_columns};
use iv_syntax::{TransitionName, TriggerDefinition};

/// The tables of the catalogue, and the transition tables of a trigger, which have the columns of its table.
#[derive(Clone, Copy)]
pub struct Scope<'a> {
    pub tables: &'a [Table],
    pub referencing: ReferencingItems<'a>,
    pub subject: &'a [Column],
}

/// Outside of every trigger.
pub fn outside_scope<'a>(catalogue: &'a Catalogue) -> Scope<'a>
    ensures names { scope_seen result ≡ table_names catalogue.entry.now }
    ensures tables { length result.tables.now ≤ MOST_TABLES }
{
    Scope {
        tables: catalogue.tables(),
        referencing: ReferencingItems::Listed(&[]),
        subject: &[],
    }
}

/// In a trigger.
#[tactic(auto, unfolding(iv_resolution::specs::Triggers::trigger_names, iv_resolution::specs::Triggers::trigger_variables, iv_resolution::specs::Triggers::subject_of))]
pub fn trigger_scope<'a>(trigger: &'a TriggerDefinition, catalogue: &'a Catalogue) -> Scope<'a>
    ensures names { scope_seen result ≡ trigger_names catalogue.entry.now trigger.entry.now }
    ensures variables { row_variables (named_columns result.subject.now)
        (items_seen result.referencing)
        ≡ trigger_variables catalogue.entry.now trigger.entry.now }
    ensures tables { length result.tables.now ≤ MOST_TABLES }
{
    let tables = catalogue.tables();
    Scope {
        tables,
        referencing: ReferencingItems::Listed(trigger.referencing.as_slice()),
        subject: stored_columns(tables, trigger.table.as_str()),
    }
}

/// What names are looked up in.
pub fn scope_names<'a>(scope: &Scope<'a>) -> Names<'a>
    ensures names { names_seen result ≡ scope_seen scope.now }
    ensures variables { row_variables (columns_seen result.subject) (items_seen result.referencing)
        ≡ row_variables (named_columns scope.now.subject.now) (items_seen scope.now.referencing) }
    ensures tables { result.tables.now ≡ scope.now.tables.now }
{
    Names {
        created: None,
        tables: scope.tables,
        referencing: scope.referencing,
        subject: Columns::Stored(scope.subject),
    }
}

/// The row variables.
pub fn scope_variables<'a>(scope: &Scope<'a>) -> Ranges<'a>
    ensures { ranges_seen result
        ≡ row_variables (named_columns scope.now.subject.now) (items_seen scope.now.referencing) }
{
    Ranges::Variables(scope.referencing, Columns::Stored(scope.subject))
}

/// The columns of what a FROM names; none if it names nothing.
#[tactic(auto, using(crate::proofs::Sources::of_transition, crate::proofs::Sources::of_table))]
pub fn columns_from<'a>(scope: &Scope<'a>, name: &str) -> &'a [Column]
    ensures { named_columns result.now ≡ source_columns (scope_seen scope.now) name.now }
{
    match scope.referencing.side(TransitionName::Table, name) {
        Some(_) => scope.subject,
        None => stored_columns(scope.tables, name),
    }
}
