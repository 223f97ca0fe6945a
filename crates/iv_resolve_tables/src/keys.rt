//! The keys of a table, which a foreign key may refer to. Nothing here allocates.
ghost use Rattle.std.specs.Prelude.{◌≡◌, length, map, option_map, slice_get};
ghost use Rattle.std.specs.List.{list_all};
ghost use Rattle.iv_catalogue.specs.Names.{is_among};
ghost use Rattle.iv_resolution.specs.Constraints.{is_reliable, key_of_rule, key_of_written, name_at, same_set};
ghost use Rattle.iv_resolution.specs.Scopes.{named_columns};
ghost use Rattle.iv_resolve_scope.specs.Seen.{columns_seen};
ghost use Rattle.iv_resolve_tables.specs.Keys.{is_sought, key_names, key_seen};
ghost use Rattle.iv_resolve_tables.specs.Seen.{constraint_seen};

use crate::characteristics::is_deferrable;
use crate::written::{WrittenConstraint, WrittenRule};
use iv_catalogue::{Column, Constraint, Rule};
use iv_resolve_scope::Columns;
use iv_syntax::Name;

/// The columns of a key: by their names among these columns, or by their places in a table of the catalogue.
#[derive(Clone, Copy)]
pub enum KeyColumns<'a> {
    Named(Columns<'a>, &'a [Name]),
    Placed(&'a [Column], &'a [u32]),
}

/// A UNIQUE or PRIMARY KEY.
#[derive(Clone, Copy)]
pub struct TableKey<'a> {
    pub columns: KeyColumns<'a>,
    pub is_primary: bool,
    pub deferrable: bool,
}

/// The key that is looked for: the primary key, or one that is NOT DEFERRABLE and of this set of columns.
#[derive(Clone, Copy)]
pub enum Sought<'a> {
    Primary,
    Reliable(&'a [Name]),
}

fn is_among(names: &[Name], name: &str) -> bool
    ensures { result ≡ is_among names.now name.now }
{
    names.iter().any(|other| name == other.as_str())
}

// The name of the column at this place; empty if there is none.
fn name_at<'a>(columns: &'a [Column], place: u32) -> &'a str
    ensures { result.now ≡ name_at (named_columns columns.entry.now) place }
{
    match columns.get(place as usize) {
        Some(column) => column.name.as_str(),
        None => "",
    }
}

fn is_among_placed(columns: &[Column], places: &[u32], name: &str) -> bool
    ensures { result ≡ is_among (map (name_at (named_columns columns.now)) places.now) name.now }
{
    for place in places {
        if name == name_at(columns, *place) {
            return true;
        }
    }
    false
}

fn all_named_among(names: &[Name], others: &[Name]) -> bool
    ensures { result ≡ list_all (is_among names.now) others.now }
{
    others.iter().all(|name| is_among(names, name.as_str()))
}

fn all_placed_among(names: &[Name], columns: &[Column], places: &[u32]) -> bool
    ensures { result ≡ list_all (is_among names.now)
        (map (name_at (named_columns columns.now)) places.now) }
{
    for place in places {
        if !is_among(names, name_at(columns, *place)) {
            return false;
        }
    }
    true
}

impl<'a> KeyColumns<'a> {
    /// How many columns there are.
    pub fn len(&self) -> usize
        ensures { result ≡ length (key_names self.now) }
    {
        match self {
            KeyColumns::Named(_, names) => names.len(),
            KeyColumns::Placed(_, places) => places.len(),
        }
    }

    /// The name of the column of this number, from 0.
    pub fn name(&self, number: usize) -> Option<&'a str>
        ensures { option_map (λ n. n.now) result ≡ slice_get (key_names self.now) number }
    {
        match self {
            KeyColumns::Named(_, names) => match names.get(number) {
                Some(name) => Some(name.as_str()),
                None => None,
            },
            KeyColumns::Placed(columns, places) => match places.get(number) {
                Some(place) => Some(name_at(columns, *place)),
                None => None,
            },
        }
    }

    // Whether it has a column of that name.
    fn has(&self, name: &str) -> bool
        ensures { result ≡ is_among (key_names self.now) name.now }
    {
        match self {
            KeyColumns::Named(_, names) => is_among(names, name),
            KeyColumns::Placed(columns, places) => is_among_placed(columns, places, name),
        }
    }

    // Whether all of its columns have one of the names.
    fn is_within(&self, names: &[Name]) -> bool
        ensures { result ≡ list_all (is_among names.now) (key_names self.now) }
    {
        match self {
            KeyColumns::Named(_, own) => all_named_among(names, own),
            KeyColumns::Placed(columns, places) => all_placed_among(names, columns, places),
        }
    }

    fn has_all(&self, names: &[Name]) -> bool
        ensures { result ≡ list_all (is_among (key_names self.now)) names.now }
    {
        names.iter().all(|name| self.has(name.as_str()))
    }

    fn is_same_set(&self, names: &[Name]) -> bool
        ensures { result ≡ same_set names.now (key_names self.now) }
    {
        self.has_all(names) && self.is_within(names)
    }
}

/// Whether it is one of those that are looked for.
pub fn is_sought(sought: &Sought<'_>, key: &TableKey<'_>) -> bool
    ensures { result ≡ is_sought sought.now (key_seen key.now) }
{
    match sought {
        Sought::Primary => key.is_primary,
        Sought::Reliable(names) => !key.deferrable && key.columns.is_same_set(names),
    }
}

/// The key that a constraint of a CREATE TABLE with these columns is.
pub fn written_key<'a>(
    columns: Columns<'a>,
    constraint: &WrittenConstraint<'a>,
) -> Option<TableKey<'a>>
    ensures { option_map key_seen result
        ≡ key_of_written (columns_seen columns.entry) constraint.now.time
        (constraint_seen constraint.now).rule }
{
    let deferrable = is_deferrable(constraint.time);
    match constraint.rule {
        WrittenRule::Unique(_, names) => Some(TableKey {
            columns: KeyColumns::Named(columns, names),
            is_primary: false,
            deferrable,
        }),
        WrittenRule::PrimaryKey(names) => Some(TableKey {
            columns: KeyColumns::Named(columns, names),
            is_primary: true,
            deferrable,
        }),
        WrittenRule::NotNull(_) => None,
        WrittenRule::Check(_) => None,
        WrittenRule::ForeignKey(_, _) => None,
    }
}

/// The key that a constraint of a table with these columns is.
pub fn stored_key<'a>(columns: &'a [Column], constraint: &'a Constraint) -> Option<TableKey<'a>>
    ensures { option_map key_seen result
        ≡ key_of_rule (named_columns columns.entry.now) constraint.entry.now.deferrable
        constraint.entry.now.rule }
{
    let deferrable = constraint.deferrable;
    match &constraint.rule {
        Rule::Unique(_, places) => Some(TableKey {
            columns: KeyColumns::Placed(columns, places.as_slice()),
            is_primary: false,
            deferrable,
        }),
        Rule::PrimaryKey(places) => Some(TableKey {
            columns: KeyColumns::Placed(columns, places.as_slice()),
            is_primary: true,
            deferrable,
        }),
        Rule::NotNull(_) => None,
        Rule::Check(_) => None,
        Rule::ForeignKey(_) => None,
    }
}
