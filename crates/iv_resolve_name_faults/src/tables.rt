//! The first name of a CREATE TABLE or an ALTER TABLE that names nothing. Each function takes time in proportion to the
//! names times the columns of the table, or nearly to the names with an index of the columns.
ghost use Rattle.std.specs.Prelude.{◌≡◌, None, [], not, option_map};
ghost use Rattle.iv_resolution.specs.Constraints.{foreign_key, table_constraint, written_constraints};
ghost use Rattle.iv_resolution.specs.Scopes.{has_column};
ghost use Rattle.iv_resolution.specs.Tables.{altered_at, check_ranges, table_names};
ghost use Rattle.iv_resolve_scope.specs.Seen.{columns_seen, ranges_seen};
ghost use Rattle.iv_resolve_tables.specs.Seen.{names_of_own, own_seen, reference_seen, rule_seen};
ghost use Rattle.iv_resolution.specs.Items.{column_item, first_of, told_if};
ghost use Rattle.iv_resolution.specs.NameFaults.{told_of_altered, unknown_in_alteration, unknown_in_condition, unknown_in_reference};
ghost use Rattle.iv_resolution.specs.NameFaults.{unknown_in_rule, unknown_in_table};
ghost use Rattle.iv_resolve_name_faults.specs.Seen.{item_seen};

use crate::changes::unknown_in_target;
use crate::item::{NamedItem, first_item};
use crate::terms::{unknown_in_columns, unknown_in_condition};
use iv_catalogue::{Catalogue, Table};
use iv_resolve_scope::{ColumnIndex, Columns, Ranges, table_names, table_place};
use iv_resolve_tables::{
    Own, Unread, WrittenRule, own_columns, own_names, own_range, referenced, table_constraint,
};
use iv_syntax::{Condition, Name, References, TableConstraint, TableElement};
use std::alloc::Global;

fn unknown_in_check<'t, 'a>(
    own: &'a Own<'a>,
    catalogue: &'a Catalogue,
    outside: &'a Ranges<'a>,
    condition: &'t Condition,
) -> Option<NamedItem<'t>>
    requires { ranges_seen outside.now ≡ [] }
    ensures { option_map item_seen result
        ≡ unknown_in_condition (names_of_own catalogue.now own.now)
        (check_ranges (own_seen catalogue.now own.now)) condition.entry.now }
{
    let names = own_names(own, catalogue);
    let ranges = own_range(own, catalogue, outside);
    unknown_in_condition(condition, &names, &ranges)
}

fn unknown_in_reference<'t>(
    table: &Option<Own<'_>>,
    catalogue: &Catalogue,
    references: &'t References,
) -> Option<NamedItem<'t>>
    ensures { option_map item_seen result ≡ unknown_in_reference references.entry.now.table
        (option_map (reference_seen catalogue.now) table.now) references.entry.now.columns }
{
    match table {
        Some(table) => match &references.columns {
            Some(names) => unknown_in_columns(&own_columns(table, catalogue), names.as_slice()),
            None => None,
        },
        None => Some(NamedItem::Table(references.table.as_str())),
    }
}

fn unknown_in_foreign_key<'t, 'a>(
    own: &Own<'a>,
    catalogue: &'a Catalogue,
    columns: &'t [Name],
    references: &'t References,
) -> Option<NamedItem<'t>>
    ensures { option_map item_seen result
        ≡ unknown_in_rule catalogue.now (names_of_own catalogue.now own.now)
        (own_seen catalogue.now own.now) (foreign_key columns.entry.now references.entry.now) }
{
    let first = unknown_in_columns(&own_columns(own, catalogue), columns);
    let table = referenced(own, catalogue, references.table.as_str());
    first_item(first, unknown_in_reference(&table, catalogue, references))
}

fn unknown_in_not_null<'t>(columns: &Columns<'_>, column: &'t Name) -> Option<NamedItem<'t>>
    ensures { option_map item_seen result ≡ told_if
        (not (has_column (columns_seen columns.now) column.entry.now))
        (column_item None column.entry.now) }
{
    if columns.has(column.as_str()) {
        None
    } else {
        Some(NamedItem::Column(None, column.as_str()))
    }
}

// The first name in a constraint of this table that names nothing.
fn unknown_in_rule<'t, 'a>(
    own: &'a Own<'a>,
    catalogue: &'a Catalogue,
    outside: &'a Ranges<'a>,
    rule: &WrittenRule<'t>,
) -> Option<NamedItem<'t>>
    requires { ranges_seen outside.now ≡ [] }
    ensures { option_map item_seen result
        ≡ unknown_in_rule catalogue.now (names_of_own catalogue.now own.now)
        (own_seen catalogue.now own.now) (rule_seen rule.now) }
{
    match rule {
        WrittenRule::NotNull(column) => unknown_in_not_null(&own_columns(own, catalogue), column),
        WrittenRule::Unique(_, columns) => {
            unknown_in_columns(&own_columns(own, catalogue), columns)
        }
        WrittenRule::PrimaryKey(columns) => {
            unknown_in_columns(&own_columns(own, catalogue), columns)
        }
        WrittenRule::Check(condition) => unknown_in_check(own, catalogue, outside, condition),
        WrittenRule::ForeignKey(columns, references) => {
            unknown_in_foreign_key(own, catalogue, columns, references)
        }
    }
}

fn unknown_in_elements<'t, 'a>(
    own: &'a Own<'a>,
    catalogue: &'a Catalogue,
    outside: &'a Ranges<'a>,
    elements: &'t [TableElement],
) -> Option<NamedItem<'t>>
    requires { ranges_seen outside.now ≡ [] }
    ensures { option_map item_seen result ≡ first_of
        (λ k. unknown_in_rule catalogue.now (names_of_own catalogue.now own.now)
        (own_seen catalogue.now own.now) k.rule) (written_constraints elements.entry.now) }
{
    let mut left = Unread::Outside(elements);
    while let Some((constraint, rest)) = left.first() {
        if let Some(item) = unknown_in_rule(own, catalogue, outside, &constraint.rule) {
            return Some(item);
        }
        left = rest;
    }
    None
}

/// The first name of a CREATE TABLE that names nothing. Columns are found by an index; if it can't be allocated, one
/// after another.
pub fn unknown_in_table<'t>(
    alloc: Global,
    catalogue: &Catalogue,
    name: &'t str,
    elements: &'t [TableElement],
) -> Option<NamedItem<'t>>
    ensures { option_map item_seen result
        ≡ unknown_in_table catalogue.now name.entry.now elements.entry.now }
{
    let outside = Ranges::Nothing;
    match ColumnIndex::new(alloc, elements) {
        Ok(index) => {
            let own = Own::Indexed(name, elements, &index);
            unknown_in_elements(&own, catalogue, &outside, elements)
        }
        Err(_) => {
            let own = Own::Created(name, elements);
            unknown_in_elements(&own, catalogue, &outside, elements)
        }
    }
}

fn unknown_in_addition_at<'t>(
    catalogue: &Catalogue,
    place: u32,
    table: &Table,
    constraint: &'t TableConstraint,
) -> Option<NamedItem<'t>>
    ensures { option_map item_seen result ≡ unknown_in_rule catalogue.now
        (table_names catalogue.now) (altered_at catalogue.now place table.now)
        (table_constraint constraint.entry.now).rule }
{
    let outside = Ranges::Nothing;
    let own = Own::Stored(place, table);
    let written = table_constraint(constraint);
    unknown_in_rule(&own, catalogue, &outside, &written.rule)
}

fn unknown_of_altered<'t>(
    catalogue: &Catalogue,
    name: &str,
    constraint: &'t TableConstraint,
) -> Option<NamedItem<'t>>
    ensures { option_map item_seen result ≡ told_of_altered catalogue.now name.now
        (λ own. unknown_in_rule catalogue.now (table_names catalogue.now) own
        (table_constraint constraint.entry.now).rule) }
{
    let tables = catalogue.tables();
    match table_place(tables, name) {
        Some(place) => match tables.get(place) {
            Some(table) => unknown_in_addition_at(catalogue, place as u32, table, constraint),
            None => None,
        },
        None => None,
    }
}

/// The table of an ALTER TABLE if it isn't there, or the first name of its constraint that names nothing.
pub fn unknown_in_alteration<'t>(
    catalogue: &Catalogue,
    name: &'t str,
    constraint: &'t TableConstraint,
) -> Option<NamedItem<'t>>
    ensures { option_map item_seen result
        ≡ unknown_in_alteration catalogue.now name.entry.now constraint.entry.now }
{
    let table = unknown_in_target(&table_names(catalogue), name);
    first_item(table, unknown_of_altered(catalogue, name, constraint))
}
