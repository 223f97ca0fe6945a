//! The columns that an INSERT has values for.
ghost use Rattle.std.specs.Prelude.{◌≡◌, None, Some, length, slice_get};
ghost use Rattle.iv_resolution.specs.Changes.{columns_clash, target_types, tuple_clashes, value_clashes, values_clash};
ghost use Rattle.iv_resolution.specs.Scopes.{named_columns};
ghost use Rattle.iv_resolve_scope.specs.Seen.{columns_seen, ranges_seen};
ghost use Rattle.iv_resolve_statements.specs.Targets.{targets_seen};

use iv_catalogue::Column;
use iv_resolve_scope::{Columns, Ranges, clashes_with, kinds_clash};
use iv_syntax::{ColumnType, Expression, Name, ValueOrDefault};

/// All columns of a table, or those of a list.
#[derive(Clone, Copy)]
pub enum Targets<'a> {
    All(&'a [Column]),
    Listed(&'a [Column], &'a [Name]),
}

#[tactic(auto, using(crate::proofs::Pairs::all_at))]
fn type_in(columns: &[Column], place: usize) -> Option<Option<ColumnType>>
    ensures { result ≡ slice_get (target_types (named_columns columns.now) None) place }
{
    match Columns::Stored(columns).type_at(place) {
        Some(kind) => Some(Some(kind)),
        None => None,
    }
}

#[tactic(auto, using(crate::proofs::Pairs::listed_at))]
fn type_listed(columns: &[Column], names: &[Name], place: usize) -> Option<Option<ColumnType>>
    ensures { result ≡ slice_get (target_types (named_columns columns.now) (Some names.now)) place }
{
    match names.get(place) {
        Some(name) => Some(Columns::Stored(columns).type_named(name.as_str())),
        None => None,
    }
}

impl<'a> Targets<'a> {
    /// How many columns there are values for.
    #[tactic(auto, unfolding(crate::specs::Targets::targets_seen))]
    pub fn len(&self) -> usize
        ensures { result ≡ length (targets_seen self.now) }
    {
        match self {
            Targets::All(columns) => columns.len(),
            Targets::Listed(_, names) => names.len(),
        }
    }

    /// The type of the column at this place: none if there is no such place, and none in it if the name at that place
    /// names no column.
    #[tactic(auto, unfolding(crate::specs::Targets::targets_seen))]
    pub fn type_at(&self, place: usize) -> Option<Option<ColumnType>>
        ensures { result ≡ slice_get (targets_seen self.now) place }
    {
        match self {
            Targets::All(columns) => type_in(columns, place),
            Targets::Listed(columns, names) => type_listed(columns, names, place),
        }
    }
}

/// Whether an integer meets a text in a value for a column of this type.
#[tactic(auto, unfolding(iv_resolution::specs::Changes::value_clashes))]
pub fn value_clashes<'a>(
    kind: Option<ColumnType>,
    value: &'a ValueOrDefault,
    ranges: &'a Ranges<'a>,
) -> bool
    ensures { result ≡ value_clashes kind (ranges_seen ranges.now) value.now }
{
    match value {
        ValueOrDefault::Value(expression) => clashes_with(kind, expression, ranges),
        ValueOrDefault::Default => false,
    }
}

/// Whether a value of a tuple clashes with its column.
#[tactic(auto, using(crate::proofs::Pairs::tuple_step, crate::proofs::Pairs::tuple_past, crate::proofs::Pairs::tuple_end))]
pub fn tuple_clashes<'a>(
    targets: &'a Targets<'a>,
    tuple: &'a [ValueOrDefault],
    ranges: &'a Ranges<'a>,
) -> bool
    ensures { result ≡ tuple_clashes (targets_seen targets.now) (ranges_seen ranges.now) tuple.now }
{
    for at in 0..tuple.len() {
        let Some(kind) = targets.type_at(at) else {
            return false;
        };
        if value_clashes(kind, &tuple[at], ranges) {
            return true;
        }
    }
    false
}

/// Whether an expression of a select list clashes with its column.
#[tactic(auto, using(crate::proofs::Pairs::values_step, crate::proofs::Pairs::values_past, crate::proofs::Pairs::values_end))]
pub fn values_clash<'a>(
    targets: &'a Targets<'a>,
    values: &'a [Expression],
    ranges: &'a Ranges<'a>,
) -> bool
    ensures { result ≡ values_clash (targets_seen targets.now) (ranges_seen ranges.now) values.now }
{
    for at in 0..values.len() {
        let Some(kind) = targets.type_at(at) else {
            return false;
        };
        if clashes_with(kind, &values[at], ranges) {
            return true;
        }
    }
    false
}

/// Whether a column of a range clashes with the column that it is put into.
#[tactic(auto, using(crate::proofs::Pairs::columns_step, crate::proofs::Pairs::columns_past, crate::proofs::Pairs::columns_gone, crate::proofs::Pairs::columns_end))]
pub fn columns_clash<'a>(targets: &'a Targets<'a>, columns: &'a Columns<'a>) -> bool
    ensures { result ≡ columns_clash (targets_seen targets.now) (columns_seen columns.now) }
{
    for at in 0..targets.len() {
        let Some(into) = targets.type_at(at) else {
            return false;
        };
        let Some(from) = columns.type_at(at) else {
            return false;
        };
        if kinds_clash(into, from) {
            return true;
        }
    }
    false
}
