//! What is wrong with the reference of a foreign key.
ghost use Rattle.std.specs.Prelude.{◌≡◌, ◌==◌, None, Some, length, not, option_map, zip};
ghost use Rattle.std.specs.List.{list_any};
ghost use Rattle.iv_resolution.specs.Constraints.{is_reliable, primary_key_of, same_type};
ghost use Rattle.iv_resolution.specs.Items.{told_if};
ghost use Rattle.iv_resolve_scope.specs.Seen.{columns_seen};
ghost use Rattle.iv_resolve_tables.specs.Keys.{key_names, key_seen};
ghost use Rattle.iv_resolve_tables.specs.Seen.{own_seen, reference_seen};
ghost use Rattle.iv_resolve_reasons.specs.SchemaFaults.{deferrable_primary_key, fault_of_pairs, fault_of_reference, fault_of_types, no_reliable_key, pair_count, types_told};
ghost use Rattle.iv_resolution.specs.Scopes.{type_named};
ghost use Rattle.iv_resolve_reasons.specs.Seen.{Searches, reference_fault_seen};

use crate::rule::{ReferenceFault, first_reference};
use iv_catalogue::Catalogue;
use iv_resolve_scope::Columns;
use iv_resolve_tables::{
    KeyColumns, KeySets, Own, TableKey, has_reliable_key, has_set, own_columns,
};
use iv_syntax::{ColumnType, Name};
use sqlite_items::Items;
use std::alloc::Global;

/// How the keys of a table are looked for: one after another, or among the sets of columns of those that are NOT
/// DEFERRABLE.
#[derive(Clone, Copy)]
pub enum KeySearch<'b> {
    Searched,
    Found(Global, &'b KeySets),
}

fn same_type(a: ColumnType, b: ColumnType) -> bool
    ensures { result ≡ same_type a b }
{
    match a {
        ColumnType::Integer => matches!(b, ColumnType::Integer),
        ColumnType::Varchar(most) => match b {
            ColumnType::Integer => false,
            ColumnType::Varchar(other) => most == other,
        },
    }
}

// Two columns that differ in type; a name that names nothing suits each.
#[tactic(auto, unfolding(crate::specs::SchemaFaults::types_told))]
fn types_told<'t>(
    column: &'t str,
    kind: Option<ColumnType>,
    referenced: &'t str,
    other: Option<ColumnType>,
) -> Option<ReferenceFault<'t>>
    ensures { option_map reference_fault_seen result
        ≡ types_told column.entry.now kind referenced.entry.now other }
{
    match kind {
        Some(kind) => match other {
            Some(referenced_kind) => {
                if same_type(kind, referenced_kind) {
                    None
                } else {
                    Some(ReferenceFault::PairTypes {
                        column,
                        kind,
                        referenced,
                        referenced_kind,
                    })
                }
            }
            None => None,
        },
        None => None,
    }
}

// The columns at one place.
fn fault_of_pair<'t>(
    columns: &Columns<'_>,
    column: &'t str,
    others: &Columns<'_>,
    referenced: &'t str,
) -> Option<ReferenceFault<'t>>
    ensures { option_map reference_fault_seen result ≡ types_told column.entry.now
        (type_named (columns_seen columns.now) column.entry.now) referenced.entry.now
        (type_named (columns_seen others.now) referenced.entry.now) }
{
    let kind = columns.type_named(column);
    let other = others.type_named(referenced);
    types_told(column, kind, referenced, other)
}

#[tactic(auto, using(crate::proofs::ReferencePairs::types_past, crate::proofs::ReferencePairs::types_end))]
fn fault_of_types<'t>(
    columns: &Columns<'_>,
    referencing: &'t [Name],
    others: &Columns<'_>,
    referenced: &KeyColumns<'t>,
) -> Option<ReferenceFault<'t>>
    ensures { option_map reference_fault_seen result ≡ fault_of_types (columns_seen columns.now)
        (columns_seen others.now) (zip referencing.entry.now (key_names referenced.now)) }
{
    for at in 0..referencing.len() {
        let Some(name) = referenced.name(at) else {
            return None;
        };
        let column = referencing[at].as_str();
        let fault = fault_of_pair(columns, column, others, name);
        if fault.is_some() {
            return fault;
        }
    }
    None
}

fn count_told<'t>(columns: usize, referenced: usize) -> Option<ReferenceFault<'t>>
    ensures { option_map reference_fault_seen result
        ≡ told_if (not (columns == referenced)) (pair_count columns referenced) }
{
    if columns == referenced {
        return None;
    }
    Some(ReferenceFault::PairCount {
        columns,
        referenced,
    })
}

#[tactic(auto, unfolding(crate::specs::SchemaFaults::fault_of_pairs))]
fn fault_of_pairs<'t>(
    columns: &Columns<'_>,
    referencing: &'t [Name],
    others: &Columns<'_>,
    referenced: &KeyColumns<'t>,
) -> Option<ReferenceFault<'t>>
    ensures { option_map reference_fault_seen result ≡ fault_of_pairs (columns_seen columns.now)
        referencing.entry.now (columns_seen others.now) (key_names referenced.now) }
{
    let counted = count_told(referencing.len(), referenced.len());
    first_reference(
        counted,
        fault_of_types(columns, referencing, others, referenced),
    )
}

fn has_key<'a>(
    table: &Own<'a>,
    catalogue: &'a Catalogue,
    search: &KeySearch<'_>,
    names: &[Name],
) -> bool
    requires { Searches search.now (own_seen catalogue.now table.now).keys }
    ensures { result ≡ list_any (is_reliable names.now) (own_seen catalogue.now table.now).keys }
{
    match search {
        KeySearch::Searched => has_reliable_key(table, catalogue, names),
        KeySearch::Found(alloc, sets) => match has_set(*alloc, sets, names) {
            Ok(found) => found,
            Err(_) => has_reliable_key(table, catalogue, names),
        },
    }
}

fn key_told<'t, 'a>(
    table: &Own<'a>,
    catalogue: &'a Catalogue,
    search: &KeySearch<'_>,
    names: &'t [Name],
) -> Option<ReferenceFault<'t>>
    requires { Searches search.now (own_seen catalogue.now table.now).keys }
    ensures { option_map reference_fault_seen result ≡ told_if
        (not (list_any (is_reliable names.entry.now) (own_seen catalogue.now table.now).keys))
        (no_reliable_key names.entry.now) }
{
    if has_key(table, catalogue, search, names) {
        return None;
    }
    Some(ReferenceFault::NoReliableKey(names))
}

// Columns by their names, without the table that they are of.
fn named_only<'t>(names: &'t [Name]) -> KeyColumns<'t>
    ensures { key_names result ≡ names.entry.now }
{
    KeyColumns::Named(Columns::Stored(&[]), names)
}

// Of a foreign key that lists the columns that it refers to.
fn fault_of_list<'t, 'a>(
    columns: &Columns<'_>,
    referencing: &'t [Name],
    table: &Own<'a>,
    catalogue: &'a Catalogue,
    search: &KeySearch<'_>,
    names: &'t [Name],
) -> Option<ReferenceFault<'t>>
    requires { Searches search.now (own_seen catalogue.now table.now).keys }
    ensures { option_map reference_fault_seen result
        ≡ fault_of_reference (columns_seen columns.now) referencing.entry.now
        (reference_seen catalogue.now table.now) (Some names.entry.now) }
{
    let others = own_columns(table, catalogue);
    let listed = named_only(names);
    let pairs = fault_of_pairs(columns, referencing, &others, &listed);
    first_reference(pairs, key_told(table, catalogue, search, names))
}

fn deferrable_told<'t>(deferrable: bool) -> Option<ReferenceFault<'t>>
    ensures { option_map reference_fault_seen result ≡ told_if deferrable deferrable_primary_key }
{
    if deferrable {
        Some(ReferenceFault::DeferrablePrimaryKey)
    } else {
        None
    }
}

// Of one that doesn't, and refers to this primary key.
fn fault_of_primary<'t>(
    columns: &Columns<'_>,
    referencing: &'t [Name],
    table: &Own<'_>,
    catalogue: &Catalogue,
    primary: &Option<TableKey<'t>>,
) -> Option<ReferenceFault<'t>>
    requires { option_map key_seen primary.now
        ≡ primary_key_of (own_seen catalogue.now table.now).keys }
    ensures { option_map reference_fault_seen result
        ≡ fault_of_reference (columns_seen columns.now) referencing.entry.now
        (reference_seen catalogue.now table.now) None }
{
    match primary {
        Some(key) => {
            let others = own_columns(table, catalogue);
            let pairs = fault_of_pairs(columns, referencing, &others, &key.columns);
            first_reference(deferrable_told(key.deferrable), pairs)
        }
        None => Some(ReferenceFault::NoPrimaryKey),
    }
}

/// What is wrong with a reference to a table with this primary key: the pairs of columns differ in number or type, or the
/// referenced columns are no key that is NOT DEFERRABLE.
pub fn fault_of_reference<'t, 'a>(
    columns: &Columns<'_>,
    referencing: &'t [Name],
    table: &Own<'a>,
    catalogue: &'a Catalogue,
    primary: &Option<TableKey<'t>>,
    search: &KeySearch<'_>,
    names: &'t Option<Items<Name>>,
) -> Option<ReferenceFault<'t>>
    requires primary { option_map key_seen primary.now
        ≡ primary_key_of (own_seen catalogue.now table.now).keys }
    requires search { Searches search.now (own_seen catalogue.now table.now).keys }
    ensures { option_map reference_fault_seen result
        ≡ fault_of_reference (columns_seen columns.now) referencing.entry.now
        (reference_seen catalogue.now table.now) names.entry.now }
{
    match names {
        Some(names) => {
            let list = names.as_slice();
            fault_of_list(columns, referencing, table, catalogue, search, list)
        }
        None => fault_of_primary(columns, referencing, table, catalogue, primary),
    }
}
