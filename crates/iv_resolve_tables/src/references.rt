//! What a foreign key refers to.
ghost use Rattle.std.specs.Prelude.{◌≡◌, None, Some, zip};
ghost use Rattle.iv_resolution.specs.Constraints.{faulty_reference, pairs_differ, same_type, types_differ};
ghost use Rattle.iv_resolve_scope.specs.Seen.{columns_seen};
ghost use Rattle.iv_resolve_tables.specs.Keys.{key_names};
ghost use Rattle.iv_resolve_tables.specs.OwnKeys.{Knows};
ghost use Rattle.iv_resolve_tables.specs.Pairs.{some_pair_differs};
ghost use Rattle.iv_resolve_tables.specs.Seen.{own_seen, reference_seen};

use crate::own_keys::{OwnKeys, has_known_key, known_primary};
use crate::{KeyColumns, Own, own_columns};
use iv_catalogue::Catalogue;
use iv_resolve_scope::Columns;
use iv_syntax::{ColumnType, Name};
use sqlite_items::Items;

fn same_type(a: ColumnType, b: ColumnType) -> bool
    ensures { result ≡ same_type a b }
{
    match a {
        ColumnType::Integer => matches!(b, ColumnType::Integer),
        ColumnType::Varchar(most) => match b {
            ColumnType::Integer => false,
            ColumnType::Varchar(other) => most == other,
        },
    }
}

fn types_differ(a: Option<ColumnType>, b: Option<ColumnType>) -> bool
    ensures { result ≡ types_differ a b }
{
    match a {
        Some(a) => match b {
            Some(b) => !same_type(a, b),
            None => false,
        },
        None => false,
    }
}

// Whether columns at one place differ in type.
#[tactic(auto, using(crate::proofs::ReferencePairs::pair_step, crate::proofs::ReferencePairs::pair_past, crate::proofs::ReferencePairs::pair_end))]
fn some_pair_differs(
    columns: &Columns<'_>,
    referencing: &[Name],
    others: &Columns<'_>,
    referenced: &KeyColumns<'_>,
) -> bool
    ensures { result ≡ some_pair_differs (columns_seen columns.now) (columns_seen others.now)
        (zip referencing.now (key_names referenced.now)) }
{
    for at in 0..referencing.len() {
        match referenced.name(at) {
            Some(name) => {
                let kind = columns.type_named(referencing[at].as_str());
                if types_differ(kind, others.type_named(name)) {
                    return true;
                }
            }
            None => return false,
        }
    }
    false
}

#[tactic(auto, unfolding(crate::specs::Pairs::some_pair_differs))]
fn pairs_differ(
    columns: &Columns<'_>,
    referencing: &[Name],
    others: &Columns<'_>,
    referenced: &KeyColumns<'_>,
) -> bool
    ensures { result ≡ pairs_differ (columns_seen columns.now) referencing.now
        (columns_seen others.now) (key_names referenced.now) }
{
    referencing.len() != referenced.len()
        || some_pair_differs(columns, referencing, others, referenced)
}

// Of a foreign key that lists the columns that it refers to.
fn faulty_list<'a>(
    columns: &Columns<'_>,
    referencing: &[Name],
    table: &Own<'a>,
    catalogue: &'a Catalogue,
    keys: &OwnKeys<'a, '_>,
    names: &'a [Name],
) -> bool
    requires { Knows keys.now (own_seen catalogue.now table.now).keys }
    ensures { result ≡ faulty_reference (columns_seen columns.now) referencing.now
        (reference_seen catalogue.now table.now) (Some names.now) }
{
    let others = own_columns(table, catalogue);
    let referenced = KeyColumns::Named(others, names);
    pairs_differ(columns, referencing, &others, &referenced)
        || !has_known_key(table, catalogue, keys, names)
}

// Of one that doesn't, and refers to the primary key.
fn faulty_primary<'a>(
    columns: &Columns<'_>,
    referencing: &[Name],
    table: &Own<'a>,
    catalogue: &'a Catalogue,
    keys: &OwnKeys<'a, '_>,
) -> bool
    requires { Knows keys.now (own_seen catalogue.now table.now).keys }
    ensures { result ≡ faulty_reference (columns_seen columns.now) referencing.now
        (reference_seen catalogue.now table.now) None }
{
    match known_primary(table, catalogue, keys) {
        Some(key) => {
            let others = own_columns(table, catalogue);
            key.deferrable || pairs_differ(columns, referencing, &others, &key.columns)
        }
        None => true,
    }
}

/// Whether the pairs of columns differ in number or type, or the referenced columns are no key that is NOT DEFERRABLE.
/// Without an index of keys it takes time in proportion to the constraints of the referenced table.
pub fn faulty_reference<'a>(
    columns: &Columns<'_>,
    referencing: &[Name],
    table: &Own<'a>,
    catalogue: &'a Catalogue,
    keys: &OwnKeys<'a, '_>,
    names: &'a Option<Items<Name>>,
) -> bool
    requires { Knows keys.now (own_seen catalogue.now table.now).keys }
    ensures { result ≡ faulty_reference (columns_seen columns.now) referencing.now
        (reference_seen catalogue.now table.now) names.now }
{
    match names {
        Some(names) => {
            let list = names.as_slice();
            faulty_list(columns, referencing, table, catalogue, keys, list)
        }
        None => faulty_primary(columns, referencing, table, catalogue, keys),
    }
}
