//! Values of INSERT, UPDATE, DELETE and SELECT that don't suit their columns. Nothing here allocates; each function
//! takes time in proportion to the statement.
ghost use Rattle.std.specs.Prelude.{◌≡◌, ◌≤◌, length};
ghost use Rattle.std.specs.List.{list_any};
ghost use Rattle.iv_resolution.specs.Changes.{list_clashes, misshaped_assignment, misshaped_delete, misshaped_insert, misshaped_list, misshaped_query};
ghost use Rattle.iv_resolution.specs.Changes.{misshaped_select, misshaped_source, misshaped_tuple, misshaped_update, misshaped_value, target_types};
ghost use Rattle.iv_resolution.specs.Scopes.{named_columns};
ghost use Rattle.iv_resolution.specs.Terms.{misshaped_expression};
ghost use Rattle.iv_resolve_scope.specs.Seen.{columns_seen, names_seen, ranges_seen};
ghost use Rattle.iv_resolve_statements.specs.Targets.{targets_seen};

use crate::targets::{Targets, columns_clash, tuple_clashes, value_clashes, values_clash};
use iv_catalogue::{Column, MOST_TABLES};
use iv_resolution::Origin;
use iv_resolve_scope::{
    Columns, Names, Ranges, inside, misshaped_expression, misshaped_filter, source_columns,
    stored_columns,
};
use iv_syntax::{
    Assignment, Condition, Delete, Expression, Insert, InsertSource, Name, RangeName, Select,
    SelectList, Update, ValueOrDefault,
};
use sqlite_items::Items;

#[tactic(auto, unfolding(iv_resolution::specs::Changes::misshaped_value))]
fn misshaped_value<'a>(value: &'a ValueOrDefault, ranges: &'a Ranges<'a>) -> bool
    ensures { result ≡ misshaped_value (ranges_seen ranges.now) value.now }
{
    match value {
        ValueOrDefault::Value(expression) => misshaped_expression(expression, ranges),
        ValueOrDefault::Default => false,
    }
}

fn misshaped_given<'a>(tuple: &'a [ValueOrDefault], ranges: &'a Ranges<'a>) -> bool
    ensures { result ≡ list_any (misshaped_value (ranges_seen ranges.now)) tuple.now }
{
    tuple.iter().any(|value| misshaped_value(value, ranges))
}

#[tactic(auto, unfolding(iv_resolution::specs::Changes::misshaped_tuple))]
fn misshaped_tuple<'a>(
    tuple: &'a [ValueOrDefault],
    targets: &'a Targets<'a>,
    ranges: &'a Ranges<'a>,
) -> bool
    ensures { result ≡ misshaped_tuple (targets_seen targets.now)
        (ranges_seen ranges.now) tuple.now }
{
    tuple.len() != targets.len()
        || (tuple_clashes(targets, tuple, ranges) || misshaped_given(tuple, ranges))
}

fn misshaped_tuples<'a>(
    tuples: &'a [Items<ValueOrDefault>],
    targets: &'a Targets<'a>,
    ranges: &'a Ranges<'a>,
) -> bool
    ensures { result ≡ list_any
        (misshaped_tuple (targets_seen targets.now) (ranges_seen ranges.now)) tuples.now }
{
    tuples
        .iter()
        .any(|tuple| misshaped_tuple(tuple.as_slice(), targets, ranges))
}

fn misshaped_values<'a>(values: &'a [Expression], ranges: &'a Ranges<'a>) -> bool
    ensures { result ≡ list_any (misshaped_expression (ranges_seen ranges.now)) values.now }
{
    values
        .iter()
        .any(|value| misshaped_expression(value, ranges))
}

fn misshaped_list<'a>(list: &'a SelectList, ranges: &'a Ranges<'a>) -> bool
    ensures { result ≡ misshaped_list (ranges_seen ranges.now) list.now }
{
    match list {
        SelectList::Star => false,
        SelectList::Values(values) => misshaped_values(values.as_slice(), ranges),
    }
}

// Whether what a query gives doesn't suit the columns that it is for.
#[tactic(auto, unfolding(iv_resolution::specs::Changes::list_clashes))]
fn list_clashes<'a>(
    list: &'a SelectList,
    targets: &'a Targets<'a>,
    columns: &'a Columns<'a>,
    ranges: &'a Ranges<'a>,
) -> bool
    ensures { result ≡ list_clashes (targets_seen targets.now) (columns_seen columns.now)
        (ranges_seen ranges.now) list.now }
{
    match list {
        SelectList::Star => { columns.len() != targets.len() || columns_clash(targets, columns) }
        SelectList::Values(values) => {
            values.len() != targets.len() || values_clash(targets, values.as_slice(), ranges)
        }
    }
}

fn misshaped_query<'a>(
    list: &'a SelectList,
    range: &'a RangeName,
    filter: &'a Option<Condition>,
    names: &'a Names<'a>,
    ranges: &'a Ranges<'a>,
) -> bool
    requires { length names.now.tables.now ≤ MOST_TABLES }
    ensures { result ≡ misshaped_query (names_seen names.now)
        (ranges_seen ranges.now) list.now range.now filter.now }
{
    let inner = inside(range, names, ranges);
    misshaped_list(list, &inner) || misshaped_filter(filter, names, &inner)
}

#[tactic(auto, unfolding(iv_resolution::specs::Changes::misshaped_source))]
fn misshaped_source<'a>(
    source: &'a InsertSource,
    targets: &'a Targets<'a>,
    names: &'a Names<'a>,
    ranges: &'a Ranges<'a>,
) -> bool
    requires { length names.now.tables.now ≤ MOST_TABLES }
    ensures { result ≡ misshaped_source (names_seen names.now) (ranges_seen ranges.now)
        (targets_seen targets.now) source.now }
{
    match source {
        InsertSource::Values(tuples) => { misshaped_tuples(tuples.as_slice(), targets, ranges) }
        InsertSource::Select(list, range, filter) => {
            let columns = source_columns(names, range.table.as_str());
            let inner = inside(range, names, ranges);
            list_clashes(list, targets, &columns, &inner)
                || misshaped_query(list, range, filter, names, ranges)
        }
    }
}

// The columns that an INSERT has values for.
#[tactic(auto, unfolding(crate::specs::Targets::targets_seen))]
fn targets_of<'a>(columns: &'a [Column], names: &'a Option<Items<Name>>) -> Targets<'a>
    ensures { targets_seen result ≡ target_types (named_columns columns.now) names.now }
{
    match names {
        Some(names) => Targets::Listed(columns, names.as_slice()),
        None => Targets::All(columns),
    }
}

/// Whether a value of an INSERT doesn't suit its column.
pub fn misshaped_insert<'a>(
    insert: &'a Insert,
    names: &'a Names<'a>,
    ranges: &'a Ranges<'a>,
) -> bool
    requires { length names.now.tables.now ≤ MOST_TABLES }
    ensures { result ≡ misshaped_insert (names_seen names.now) (ranges_seen ranges.now) insert.now }
{
    match insert {
        Insert::DefaultValues(_) => false,
        Insert::Rows {
            table,
            columns,
            source,
        } => {
            let stored = stored_columns(names.tables, table.as_str());
            let targets = targets_of(stored, columns);
            misshaped_source(source, &targets, names, ranges)
        }
    }
}

#[tactic(auto, unfolding(iv_resolution::specs::Changes::misshaped_assignment))]
fn misshaped_assignment<'a>(
    assignment: &'a Assignment,
    columns: &'a Columns<'a>,
    ranges: &'a Ranges<'a>,
) -> bool
    ensures { result ≡ misshaped_assignment (columns_seen columns.now)
        (ranges_seen ranges.now) assignment.now }
{
    let kind = columns.type_named(assignment.column.as_str());
    value_clashes(kind, &assignment.value, ranges) || misshaped_value(&assignment.value, ranges)
}

fn misshaped_assignments<'a>(
    assignments: &'a [Assignment],
    columns: &'a Columns<'a>,
    ranges: &'a Ranges<'a>,
) -> bool
    ensures { result ≡ list_any
        (misshaped_assignment (columns_seen columns.now) (ranges_seen ranges.now)) assignments.now }
{
    assignments.iter().any(|assignment| misshaped_assignment(assignment, columns, ranges))
}

/// Whether a value of an UPDATE doesn't suit its column.
pub fn misshaped_update<'a>(
    update: &'a Update,
    names: &'a Names<'a>,
    ranges: &'a Ranges<'a>,
) -> bool
    requires { length names.now.tables.now ≤ MOST_TABLES }
    ensures { result ≡ misshaped_update (names_seen names.now) (ranges_seen ranges.now) update.now }
{
    let columns = Columns::Stored(stored_columns(names.tables, update.table.as_str()));
    let inner = Ranges::Within(update.table.as_str(), columns, Origin::Rows, ranges);
    misshaped_assignments(update.assignments.as_slice(), &columns, &inner)
        | misshaped_filter(&update.filter, names, &inner)
}

/// Whether an integer meets a text in a DELETE.
pub fn misshaped_delete<'a>(
    delete: &'a Delete,
    names: &'a Names<'a>,
    ranges: &'a Ranges<'a>,
) -> bool
    requires { length names.now.tables.now ≤ MOST_TABLES }
    ensures { result ≡ misshaped_delete (names_seen names.now) (ranges_seen ranges.now) delete.now }
{
    let columns = Columns::Stored(stored_columns(names.tables, delete.table.as_str()));
    let inner = Ranges::Within(delete.table.as_str(), columns, Origin::Rows, ranges);
    misshaped_filter(&delete.filter, names, &inner)
}

/// Whether an integer meets a text in a SELECT.
pub fn misshaped_select<'a>(
    select: &'a Select,
    names: &'a Names<'a>,
    ranges: &'a Ranges<'a>,
) -> bool
    requires { length names.now.tables.now ≤ MOST_TABLES }
    ensures { result ≡ misshaped_select (names_seen names.now) (ranges_seen ranges.now) select.now }
{
    match select {
        Select::Count(range, filter) => {
            misshaped_query(&SelectList::Star, range, filter, names, ranges)
        }
        Select::Rows(list, range, filter) => { misshaped_query(list, range, filter, names, ranges) }
    }
}
