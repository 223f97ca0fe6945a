//! The first name of an INSERT, UPDATE, DELETE or SELECT that names nothing. Nothing here allocates; each function
//! takes time in proportion to the statement.
ghost use Rattle.std.specs.Prelude.{◌≡◌, ◌≤◌, None, length, not, option_map};
ghost use Rattle.iv_syntax.specs.declared.statement.SelectList.TheVariants.{Star};
ghost use Rattle.iv_resolution.specs.Scopes.{has_column};
ghost use Rattle.iv_resolve_scope.specs.Seen.{columns_seen, names_seen, ranges_seen};
ghost use Rattle.iv_resolution.specs.Items.{column_item, first_of, told_if};
ghost use Rattle.iv_resolution.specs.NameFaults.{unknown_in_assignment, unknown_in_delete, unknown_in_expression, unknown_in_insert, unknown_in_listed};
ghost use Rattle.iv_resolution.specs.NameFaults.{unknown_in_query, unknown_in_select, unknown_in_select_list, unknown_in_source, unknown_in_target};
ghost use Rattle.iv_resolution.specs.NameFaults.{unknown_in_update, unknown_in_value};
ghost use Rattle.iv_resolve_name_faults.specs.Seen.{item_seen};

use crate::catalogued::is_table;
use crate::item::{NamedItem, first_item};
use crate::terms::{unknown_in_columns, unknown_in_expression, unknown_in_filter, unknown_in_from};
use iv_catalogue::MOST_TABLES;
use iv_resolution::Origin;
use iv_resolve_scope::{Columns, Names, Ranges, inside, stored_columns};
use iv_syntax::{
    Assignment, Condition, Delete, Expression, Insert, InsertSource, Name, RangeName, Select,
    SelectList, Update, ValueOrDefault,
};
use sqlite_items::Items;

/// The table that a statement changes, if the catalogue doesn't have it.
pub fn unknown_in_target<'t>(names: &Names<'_>, table: &'t str) -> Option<NamedItem<'t>>
    ensures { option_map item_seen result
        ≡ unknown_in_target (names_seen names.now) table.entry.now }
{
    if is_table(names, table) {
        None
    } else {
        Some(NamedItem::Table(table))
    }
}

fn unknown_in_listed<'t>(
    columns: &Columns<'_>,
    names: &'t Option<Items<Name>>,
) -> Option<NamedItem<'t>>
    ensures { option_map item_seen result
        ≡ unknown_in_listed (columns_seen columns.now) names.entry.now }
{
    match names {
        Some(names) => unknown_in_columns(columns, names.as_slice()),
        None => None,
    }
}

fn unknown_in_value<'t, 'a>(
    value: &'t ValueOrDefault,
    ranges: &'a Ranges<'a>,
) -> Option<NamedItem<'t>>
    ensures { option_map item_seen result
        ≡ unknown_in_value (ranges_seen ranges.now) value.entry.now }
{
    match value {
        ValueOrDefault::Value(expression) => unknown_in_expression(expression, ranges),
        ValueOrDefault::Default => None,
    }
}

fn unknown_in_tuple<'t, 'a>(
    tuple: &'t [ValueOrDefault],
    ranges: &'a Ranges<'a>,
) -> Option<NamedItem<'t>>
    ensures { option_map item_seen result
        ≡ first_of (unknown_in_value (ranges_seen ranges.now)) tuple.entry.now }
{
    for value in tuple {
        if let Some(item) = unknown_in_value(value, ranges) {
            return Some(item);
        }
    }
    None
}

fn unknown_in_tuples<'t, 'a>(
    tuples: &'t [Items<ValueOrDefault>],
    ranges: &'a Ranges<'a>,
) -> Option<NamedItem<'t>>
    ensures { option_map item_seen result ≡ first_of
        (λ tuple. first_of (unknown_in_value (ranges_seen ranges.now)) tuple) tuples.entry.now }
{
    for tuple in tuples {
        if let Some(item) = unknown_in_tuple(tuple.as_slice(), ranges) {
            return Some(item);
        }
    }
    None
}

fn unknown_in_values<'t, 'a>(
    values: &'t [Expression],
    ranges: &'a Ranges<'a>,
) -> Option<NamedItem<'t>>
    ensures { option_map item_seen result
        ≡ first_of (unknown_in_expression (ranges_seen ranges.now)) values.entry.now }
{
    for value in values {
        if let Some(item) = unknown_in_expression(value, ranges) {
            return Some(item);
        }
    }
    None
}

fn unknown_in_select_list<'t, 'a>(
    list: &'t SelectList,
    ranges: &'a Ranges<'a>,
) -> Option<NamedItem<'t>>
    ensures { option_map item_seen result
        ≡ unknown_in_select_list (ranges_seen ranges.now) list.entry.now }
{
    match list {
        SelectList::Star => None,
        SelectList::Values(values) => unknown_in_values(values.as_slice(), ranges),
    }
}

fn unknown_in_query<'t, 'a>(
    list: &'t SelectList,
    range: &'t RangeName,
    filter: &'t Option<Condition>,
    names: &'a Names<'a>,
    ranges: &'a Ranges<'a>,
) -> Option<NamedItem<'t>>
    requires { length names.now.tables.now ≤ MOST_TABLES }
    ensures { option_map item_seen result ≡ unknown_in_query (names_seen names.now)
        (ranges_seen ranges.now) list.entry.now range.entry.now filter.entry.now }
{
    let inner = inside(range, &*names, &*ranges);
    let listed = unknown_in_select_list(list, &inner);
    let after = first_item(listed, unknown_in_filter(filter, &*names, &inner));
    first_item(unknown_in_from(range, &*names), after)
}

fn unknown_in_count<'t, 'a>(
    range: &'t RangeName,
    filter: &'t Option<Condition>,
    names: &'a Names<'a>,
    ranges: &'a Ranges<'a>,
) -> Option<NamedItem<'t>>
    requires { length names.now.tables.now ≤ MOST_TABLES }
    ensures { option_map item_seen result ≡ unknown_in_query (names_seen names.now)
        (ranges_seen ranges.now) Star range.entry.now filter.entry.now }
{
    let inner = inside(range, &*names, &*ranges);
    let filtered = unknown_in_filter(filter, &*names, &inner);
    first_item(unknown_in_from(range, &*names), filtered)
}

fn unknown_in_source<'t, 'a>(
    source: &'t InsertSource,
    names: &'a Names<'a>,
    ranges: &'a Ranges<'a>,
) -> Option<NamedItem<'t>>
    requires { length names.now.tables.now ≤ MOST_TABLES }
    ensures { option_map item_seen result ≡ unknown_in_source (names_seen names.now)
        (ranges_seen ranges.now) source.entry.now }
{
    match source {
        InsertSource::Values(tuples) => unknown_in_tuples(tuples.as_slice(), ranges),
        InsertSource::Select(list, range, filter) => {
            unknown_in_query(list, range, filter, names, ranges)
        }
    }
}

/// The first name of an INSERT that names nothing.
pub fn unknown_in_insert<'t, 'a>(
    insert: &'t Insert,
    names: &'a Names<'a>,
    ranges: &'a Ranges<'a>,
) -> Option<NamedItem<'t>>
    requires { length names.now.tables.now ≤ MOST_TABLES }
    ensures { option_map item_seen result ≡ unknown_in_insert (names_seen names.now)
        (ranges_seen ranges.now) insert.entry.now }
{
    match insert {
        Insert::DefaultValues(table) => unknown_in_target(names, table.as_str()),
        Insert::Rows {
            table,
            columns,
            source,
        } => {
            let stored = Columns::Stored(stored_columns(names.tables, table.as_str()));
            let listed = unknown_in_listed(&stored, columns);
            let after = first_item(listed, unknown_in_source(source, names, ranges));
            first_item(unknown_in_target(names, table.as_str()), after)
        }
    }
}

fn unknown_in_set_clause<'t>(columns: &Columns<'_>, column: &'t str) -> Option<NamedItem<'t>>
    ensures { option_map item_seen result ≡ told_if
        (not (has_column (columns_seen columns.now) column.entry.now))
        (column_item None column.entry.now) }
{
    if columns.has(column) {
        None
    } else {
        Some(NamedItem::Column(None, column))
    }
}

fn unknown_in_assignment<'t, 'a>(
    assignment: &'t Assignment,
    columns: &'a Columns<'a>,
    ranges: &'a Ranges<'a>,
) -> Option<NamedItem<'t>>
    ensures { option_map item_seen result ≡ unknown_in_assignment (columns_seen columns.now)
        (ranges_seen ranges.now) assignment.entry.now }
{
    let column = unknown_in_set_clause(columns, assignment.column.as_str());
    first_item(column, unknown_in_value(&assignment.value, ranges))
}

fn unknown_in_assignments<'t, 'a>(
    assignments: &'t [Assignment],
    columns: &'a Columns<'a>,
    ranges: &'a Ranges<'a>,
) -> Option<NamedItem<'t>>
    ensures { option_map item_seen result ≡ first_of
        (unknown_in_assignment (columns_seen columns.now) (ranges_seen ranges.now))
        assignments.entry.now }
{
    for assignment in assignments {
        if let Some(item) = unknown_in_assignment(assignment, columns, ranges) {
            return Some(item);
        }
    }
    None
}

/// The first name of an UPDATE that names nothing.
pub fn unknown_in_update<'t, 'a>(
    update: &'t Update,
    names: &'a Names<'a>,
    ranges: &'a Ranges<'a>,
) -> Option<NamedItem<'t>>
    requires { length names.now.tables.now ≤ MOST_TABLES }
    ensures { option_map item_seen result ≡ unknown_in_update (names_seen names.now)
        (ranges_seen ranges.now) update.entry.now }
{
    let columns = Columns::Stored(stored_columns(names.tables, update.table.as_str()));
    let inner = Ranges::Within(update.table.as_str(), columns, Origin::Rows, &*ranges);
    let set = unknown_in_assignments(update.assignments.as_slice(), &columns, &inner);
    let after = first_item(set, unknown_in_filter(&update.filter, &*names, &inner));
    first_item(unknown_in_target(&*names, update.table.as_str()), after)
}

/// The first name of a DELETE that names nothing.
pub fn unknown_in_delete<'t, 'a>(
    delete: &'t Delete,
    names: &'a Names<'a>,
    ranges: &'a Ranges<'a>,
) -> Option<NamedItem<'t>>
    requires { length names.now.tables.now ≤ MOST_TABLES }
    ensures { option_map item_seen result ≡ unknown_in_delete (names_seen names.now)
        (ranges_seen ranges.now) delete.entry.now }
{
    let columns = Columns::Stored(stored_columns(names.tables, delete.table.as_str()));
    let inner = Ranges::Within(delete.table.as_str(), columns, Origin::Rows, &*ranges);
    let target = unknown_in_target(&*names, delete.table.as_str());
    first_item(target, unknown_in_filter(&delete.filter, &*names, &inner))
}

/// The first name of a SELECT that names nothing.
pub fn unknown_in_select<'t, 'a>(
    select: &'t Select,
    names: &'a Names<'a>,
    ranges: &'a Ranges<'a>,
) -> Option<NamedItem<'t>>
    requires { length names.now.tables.now ≤ MOST_TABLES }
    ensures { option_map item_seen result ≡ unknown_in_select (names_seen names.now)
        (ranges_seen ranges.now) select.entry.now }
{
    match select {
        Select::Count(range, filter) => unknown_in_count(range, filter, names, ranges),
        Select::Rows(list, range, filter) => {
            unknown_in_query(list, range, filter, names, ranges)
        }
    }
}
