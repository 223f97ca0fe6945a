//! The columns that an INSERT has values for, by name and type.
ghost use Rattle.std.specs.Prelude.{◌≡◌, None, Some, length, option_map, slice_get};
ghost use Rattle.iv_resolution.specs.Scopes.{named_columns};
ghost use Rattle.iv_resolve_reasons.specs.Seen.{target_seen, targets_named};
ghost use Rattle.iv_resolve_reasons.specs.Shapes.{targets_of};

use iv_catalogue::Column;
use iv_resolve_scope::Columns;
use iv_resolve_statements::Targets;
use iv_syntax::{ColumnType, Name};
use sqlite_items::Items;

/// A column that there is a value for, with its type if there is such a column.
#[derive(Clone, Copy)]
pub struct Target<'a> {
    pub name: &'a str,
    pub kind: Option<ColumnType>,
}

#[tactic(auto, using(crate::proofs::Pairs::target_in, crate::proofs::Pairs::target_none))]
fn target_in<'a>(columns: &'a [Column], place: usize) -> Option<Target<'a>>
    ensures { option_map target_seen result
        ≡ slice_get (targets_of (named_columns columns.entry.now) None) place }
{
    match columns.get(place) {
        Some(column) => Some(Target {
            name: column.name.as_str(),
            kind: Columns::Stored(columns).type_at(place),
        }),
        None => None,
    }
}

#[tactic(auto, using(crate::proofs::Pairs::target_listed))]
fn target_listed<'a>(columns: &[Column], names: &'a [Name], place: usize) -> Option<Target<'a>>
    ensures { option_map target_seen result
        ≡ slice_get (targets_of (named_columns columns.now) (Some names.entry.now)) place }
{
    match names.get(place) {
        Some(name) => Some(Target {
            name: name.as_str(),
            kind: Columns::Stored(columns).type_named(name.as_str()),
        }),
        None => None,
    }
}

/// The column at this place.
#[tactic(auto, unfolding(crate::specs::Seen::targets_named))]
pub fn target_at<'a>(targets: &Targets<'a>, place: usize) -> Option<Target<'a>>
    ensures { option_map target_seen result ≡ slice_get (targets_named targets.now) place }
{
    match targets {
        Targets::All(columns) => target_in(columns, place),
        Targets::Listed(columns, names) => target_listed(columns, names, place),
    }
}

/// How many columns there are values for.
#[tactic(auto, using(crate::proofs::Pairs::all_counted, crate::proofs::Pairs::listed_counted), unfolding(crate::specs::Seen::targets_named))]
pub fn count_targets(targets: &Targets<'_>) -> usize
    ensures { result ≡ length (targets_named targets.now) }
{
    match targets {
        Targets::All(columns) => columns.len(),
        Targets::Listed(_, names) => names.len(),
    }
}

/// All columns, or those of a list.
#[tactic(auto, unfolding(crate::specs::Seen::targets_named))]
pub fn targets_of<'a>(columns: &'a [Column], names: &'a Option<Items<Name>>) -> Targets<'a>
    ensures { targets_named result ≡ targets_of (named_columns columns.entry.now) names.entry.now }
{
    match names {
        Some(names) => Targets::Listed(columns, names.as_slice()),
        None => Targets::All(columns),
    }
}
