//! Definitions of CREATE TABLE and ALTER TABLE that no schema can have. With indexes of columns and keys the time is
//! nearly linear in the statement. If an index can't be allocated, columns and keys are searched one after another, in
//! quadratic time. No call can fail for lack of memory.
ghost use Rattle.std.specs.Prelude.{◌≡◌};
ghost use Rattle.std.specs.List.{list_any};
ghost use Rattle.iv_resolution.specs.Constraints.{faulty_reference, foreign_key, is_reliable, table_constraint, written_constraints, written_keys};
ghost use Rattle.iv_resolution.specs.Resolution.{of_altered};
ghost use Rattle.iv_resolution.specs.Tables.{created_table, faulty_addition, faulty_constraint, faulty_rule, faulty_table};
ghost use Rattle.iv_resolve_tables.specs.OwnKeys.{Knows};
ghost use Rattle.iv_resolve_tables.specs.KeySets.{Finds};
ghost use Rattle.iv_resolve_tables.specs.Seen.{constraint_seen, own_seen, reference_seen, rule_seen};

use crate::altered::table_at;
use crate::defaults::has_unfit_default;
use crate::own_keys::OwnKeys;
use crate::primary::{has_two_primary_keys, is_primary_rule};
use crate::references::faulty_reference;
use crate::{
    KeySets, Own, Unread, WrittenConstraint, WrittenRule, is_contradictory, own_columns, own_name,
    primary_key, referenced, reliable_sets, table_constraint,
};
use iv_catalogue::Catalogue;
use iv_resolve_scope::{ColumnIndex, Columns, has_exists};
use iv_syntax::{Name, References, TableConstraint, TableElement};
use sqlite_items::Items;
use std::alloc::Global;

// Of a foreign key that refers to its own table.
fn faulty_own<'a>(
    own: &Own<'a>,
    catalogue: &'a Catalogue,
    keys: &OwnKeys<'a, '_>,
    columns: &[Name],
    names: &'a Option<Items<Name>>,
) -> bool
    requires { Knows keys.now (own_seen catalogue.now own.now).keys }
    ensures { result ≡ faulty_reference (own_seen catalogue.now own.now).columns columns.now
        (reference_seen catalogue.now own.now) names.now }
{
    let others = own_columns(own, catalogue);
    faulty_reference(&others, columns, own, catalogue, keys, names)
}

// Of one that refers to a table of the catalogue.
fn faulty_stored<'a>(
    own: &Own<'a>,
    catalogue: &'a Catalogue,
    columns: &[Name],
    references: &'a References,
) -> bool
    ensures { result ≡ faulty_rule catalogue.now (own_seen catalogue.now own.now)
        (foreign_key columns.now references.now) }
{
    match referenced(own, catalogue, references.table.as_str()) {
        Some(table) => {
            let names = &references.columns;
            faulty_reference(
                &own_columns(own, catalogue),
                columns,
                &table,
                catalogue,
                &OwnKeys::Searched,
                names,
            )
        }
        None => false,
    }
}

fn faulty_foreign_key<'a>(
    own: &Own<'a>,
    catalogue: &'a Catalogue,
    keys: &OwnKeys<'a, '_>,
    columns: &[Name],
    references: &'a References,
) -> bool
    requires { Knows keys.now (own_seen catalogue.now own.now).keys }
    ensures { result ≡ faulty_rule catalogue.now (own_seen catalogue.now own.now)
        (foreign_key columns.now references.now) }
{
    if references.table.as_str() == own_name(own, catalogue) {
        faulty_own(own, catalogue, keys, columns, &references.columns)
    } else {
        faulty_stored(own, catalogue, columns, references)
    }
}

fn faulty_rule<'a>(
    own: &Own<'a>,
    catalogue: &'a Catalogue,
    keys: &OwnKeys<'a, '_>,
    rule: &WrittenRule<'a>,
) -> bool
    requires { Knows keys.now (own_seen catalogue.now own.now).keys }
    ensures { result ≡ faulty_rule catalogue.now (own_seen catalogue.now own.now)
        (rule_seen rule.now) }
{
    match rule {
        WrittenRule::NotNull(_) => false,
        WrittenRule::Unique(_, _) => false,
        WrittenRule::PrimaryKey(_) => false,
        WrittenRule::Check(condition) => has_exists(condition),
        WrittenRule::ForeignKey(columns, references) => {
            faulty_foreign_key(own, catalogue, keys, columns, references)
        }
    }
}

// Whether a constraint of this table is both NOT DEFERRABLE and INITIALLY DEFERRED, a CHECK with an EXISTS, or a foreign key at fault.
fn faulty_constraint<'a>(
    own: &Own<'a>,
    catalogue: &'a Catalogue,
    keys: &OwnKeys<'a, '_>,
    constraint: &WrittenConstraint<'a>,
) -> bool
    requires { Knows keys.now (own_seen catalogue.now own.now).keys }
    ensures { result ≡ faulty_constraint catalogue.now (own_seen catalogue.now own.now)
        (constraint_seen constraint.now) }
{
    is_contradictory(constraint.time) || faulty_rule(own, catalogue, keys, &constraint.rule)
}

fn some_is_faulty<'a>(
    own: &Own<'a>,
    catalogue: &'a Catalogue,
    keys: &OwnKeys<'a, '_>,
    elements: &'a [TableElement],
) -> bool
    requires { Knows keys.now (own_seen catalogue.now own.now).keys }
    ensures { result ≡ list_any (faulty_constraint catalogue.now (own_seen catalogue.now own.now))
        (written_constraints elements.now) }
{
    let mut left = Unread::Outside(elements);
    while let Some((constraint, rest)) = left.first() {
        if faulty_constraint(own, catalogue, keys, &constraint) {
            return true;
        }
        left = rest;
    }
    false
}

// The same, with the sets of columns of the table's keys.
fn some_is_faulty_among<'a>(
    alloc: Global,
    own: &Own<'a>,
    catalogue: &'a Catalogue,
    sets: &KeySets,
    elements: &'a [TableElement],
) -> bool
    requires { Finds sets.now
        (λ names. list_any (is_reliable names) (own_seen catalogue.now own.now).keys) }
    ensures { result ≡ list_any (faulty_constraint catalogue.now (own_seen catalogue.now own.now))
        (written_constraints elements.now) }
{
    let keys = OwnKeys::Found(alloc, primary_key(own, catalogue), sets);
    some_is_faulty(own, catalogue, &keys, elements)
}

// The same of a table whose keys are those of the elements. The sets are found by an index; if it can't be allocated,
// one after another.
fn some_is_faulty_of<'a>(
    alloc: Global,
    own: &Own<'a>,
    catalogue: &'a Catalogue,
    elements: &'a [TableElement],
) -> bool
    requires { (own_seen catalogue.now own.now).keys
        ≡ written_keys (own_seen catalogue.now own.now).columns (written_constraints elements.now) }
    ensures { result ≡ list_any (faulty_constraint catalogue.now (own_seen catalogue.now own.now))
        (written_constraints elements.now) }
{
    match reliable_sets(alloc, elements) {
        Ok(sets) => some_is_faulty_among(alloc, own, catalogue, &sets, elements),
        Err(_) => some_is_faulty(own, catalogue, &OwnKeys::Searched, elements),
    }
}

// Columns are found by an index; if it can't be allocated, one after another.
fn some_constraint_is_faulty(
    alloc: Global,
    catalogue: &Catalogue,
    name: &str,
    elements: &[TableElement],
) -> bool
    ensures { result ≡ list_any
        (faulty_constraint catalogue.now (created_table catalogue.now name.now elements.now))
        (written_constraints elements.now) }
{
    match ColumnIndex::new(alloc, elements) {
        Ok(index) => {
            let own = Own::Indexed(name, elements, &index);
            some_is_faulty_of(alloc, &own, catalogue, elements)
        }
        Err(_) => {
            let own = Own::Created(name, elements);
            some_is_faulty_of(alloc, &own, catalogue, elements)
        }
    }
}

/// Whether a CREATE TABLE has no column, a DEFAULT that doesn't fit its column, two primary keys, or a constraint at fault.
pub fn faulty_table(
    alloc: Global,
    catalogue: &Catalogue,
    name: &str,
    elements: &[TableElement],
) -> bool
    ensures { result ≡ faulty_table catalogue.now name.now elements.now }
{
    Columns::Defined(elements).len() == 0
        || (has_unfit_default(elements)
            || (has_two_primary_keys(elements)
                || some_constraint_is_faulty(alloc, catalogue, name, elements)))
}

fn faulty_added<'a>(
    own: &Own<'a>,
    catalogue: &'a Catalogue,
    constraint: &WrittenConstraint<'a>,
) -> bool
    ensures { result ≡ faulty_addition catalogue.now (own_seen catalogue.now own.now)
        (constraint_seen constraint.now) }
{
    (is_primary_rule(&constraint.rule) && primary_key(own, catalogue).is_some())
        || faulty_constraint(own, catalogue, &OwnKeys::Searched, constraint)
}

/// Whether the constraint of an ALTER TABLE is at fault, or a second primary key; false if its table isn't there.
pub fn faulty_addition(catalogue: &Catalogue, name: &str, constraint: &TableConstraint) -> bool
    ensures { result ≡ of_altered catalogue.now name.now
        (λ own. faulty_addition catalogue.now own (table_constraint constraint.now)) }
{
    match table_at(catalogue, name) {
        Some(table) => {
            let own = Own::Stored(table.place, table.table);
            let written = table_constraint(constraint);
            faulty_added(&own, catalogue, &written)
        }
        None => false,
    }
}
