//! The key that is looked for among those of a table. Nothing here allocates.
ghost use Rattle.std.specs.Prelude.{◌≡◌, [], ◌∷◌, filter_map, find, map, option_map};
ghost use Rattle.std.specs.List.{list_any};
ghost use Rattle.iv_resolution.specs.Constraints.{column_constraint, element_constraints, is_reliable, primary_key_of, table_constraint};
ghost use Rattle.iv_resolution.specs.Constraints.{written_constraints, written_keys};
ghost use Rattle.iv_resolution.specs.Scopes.{named_columns};
ghost use Rattle.iv_resolve_scope.specs.Seen.{columns_seen};
ghost use Rattle.iv_resolve_tables.specs.Keys.{if_sought, is_sought, key_at, key_seen};
ghost use Rattle.iv_resolve_tables.specs.Seen.{constraint_seen, own_seen};

use crate::keys::{Sought, TableKey, is_sought, stored_key, written_key};
use crate::own::Own;
use crate::written::{WrittenConstraint, column_constraint, table_constraint};
use iv_catalogue::{Catalogue, Column, ConstraintId};
use iv_expr::TableId;
use iv_resolve_scope::Columns;
use iv_syntax::{ColumnConstraint, Name, TableElement};

fn if_sought<'a>(key: Option<TableKey<'a>>, sought: &Sought<'_>) -> Option<TableKey<'a>>
    ensures { option_map key_seen result ≡ if_sought sought.now (option_map key_seen key.entry) }
{
    match key {
        Some(key) => {
            if is_sought(sought, &key) {
                Some(key)
            } else {
                None
            }
        }
        None => None,
    }
}

fn key_of_one<'a>(
    columns: &Columns<'a>,
    constraint: &WrittenConstraint<'a>,
    sought: &Sought<'_>,
) -> Option<TableKey<'a>>
    ensures { option_map key_seen result
        ≡ find (is_sought sought.now)
        (written_keys (columns_seen columns.now) (constraint_seen constraint.now ∷ [])) }
{
    if_sought(written_key(*columns, constraint), sought)
}

fn key_of_column<'a>(
    columns: &Columns<'a>,
    column: &'a Name,
    constraints: &'a [ColumnConstraint],
    sought: &Sought<'_>,
) -> Option<TableKey<'a>>
    ensures { option_map key_seen result
        ≡ find (is_sought sought.now)
        (written_keys (columns_seen columns.now)
        (map (column_constraint column.entry.now) constraints.entry.now)) }
{
    for constraint in constraints {
        let written = column_constraint(column, constraint);
        if let Some(key) = key_of_one(columns, &written, sought) {
            return Some(key);
        }
    }
    None
}

fn key_of_element<'a>(
    columns: &Columns<'a>,
    element: &'a TableElement,
    sought: &Sought<'_>,
) -> Option<TableKey<'a>>
    ensures { option_map key_seen result
        ≡ find (is_sought sought.now)
        (written_keys (columns_seen columns.now) (element_constraints element.entry.now)) }
{
    match element {
        TableElement::Column(column) => {
            key_of_column(columns, &column.name, column.constraints.as_slice(), sought)
        }
        TableElement::Constraint(constraint) => {
            key_of_one(columns, &table_constraint(constraint), sought)
        }
    }
}

fn key_of_elements<'a>(
    columns: &Columns<'a>,
    elements: &'a [TableElement],
    sought: &Sought<'_>,
) -> Option<TableKey<'a>>
    ensures { option_map key_seen result
        ≡ find (is_sought sought.now)
        (written_keys (columns_seen columns.now) (written_constraints elements.entry.now)) }
{
    for element in elements {
        if let Some(key) = key_of_element(columns, element, sought) {
            return Some(key);
        }
    }
    None
}

// The key that the constraint at a place is, if it is looked for.
fn key_of_place<'a>(
    columns: &'a [Column],
    catalogue: &'a Catalogue,
    place: ConstraintId,
    sought: &Sought<'_>,
) -> Option<TableKey<'a>>
    ensures { option_map key_seen result
        ≡ find (is_sought sought.now)
        (filter_map (key_at (named_columns columns.entry.now) catalogue.entry.now.constraints)
        (place ∷ [])) }
{
    match catalogue.constraint(place) {
        Some(constraint) => if_sought(stored_key(columns, constraint), sought),
        None => None,
    }
}

fn key_of_places<'a>(
    columns: &'a [Column],
    catalogue: &'a Catalogue,
    places: &'a [ConstraintId],
    sought: &Sought<'_>,
) -> Option<TableKey<'a>>
    ensures { option_map key_seen result
        ≡ find (is_sought sought.now)
        (filter_map (key_at (named_columns columns.entry.now) catalogue.entry.now.constraints)
        places.entry.now) }
{
    for place in places {
        if let Some(key) = key_of_place(columns, catalogue, *place, sought) {
            return Some(key);
        }
    }
    None
}

// The first key of a table that is looked for. It takes time in proportion to the constraints of the table.
fn sought_key<'a>(
    own: &Own<'a>,
    catalogue: &'a Catalogue,
    sought: &Sought<'_>,
) -> Option<TableKey<'a>>
    ensures { option_map key_seen result
        ≡ find (is_sought sought.now) (own_seen catalogue.entry.now own.now).keys }
{
    match own {
        Own::Created(_, elements) => {
            key_of_elements(&Columns::Defined(elements), elements, sought)
        }
        Own::Indexed(_, elements, index) => {
            key_of_elements(&Columns::Indexed(index), elements, sought)
        }
        Own::Stored(place, table) => {
            let places = catalogue.constraints_of(TableId::new(*place));
            key_of_places(table.columns.as_slice(), catalogue, places, sought)
        }
    }
}

/// The primary key of a table.
pub fn primary_key<'a>(own: &Own<'a>, catalogue: &'a Catalogue) -> Option<TableKey<'a>>
    ensures { option_map key_seen result
        ≡ primary_key_of (own_seen catalogue.entry.now own.now).keys }
{
    sought_key(own, catalogue, &Sought::Primary)
}

/// Whether a table has a key of this set of columns that is NOT DEFERRABLE.
pub fn has_reliable_key<'a>(own: &Own<'a>, catalogue: &'a Catalogue, names: &[Name]) -> bool
    ensures { result ≡ list_any (is_reliable names.now) (own_seen catalogue.now own.now).keys }
{
    sought_key(own, catalogue, &Sought::Reliable(names)).is_some()
}
