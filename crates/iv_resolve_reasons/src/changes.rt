//! INSERT, UPDATE, DELETE and SELECT, at the top of a script and in the body of a trigger: the first that doesn't suit.
//! Nothing here allocates; each function takes time in proportion to the statement, and for each name to the ranges
//! that it is inside of.
ghost use Rattle.std.specs.Prelude.{◌≡◌, ◌≤◌, length, option_map};
ghost use Rattle.iv_resolution.specs.Items.{first_of};
ghost use Rattle.iv_resolution.specs.Scopes.{named_columns};
ghost use Rattle.iv_resolve_scope.specs.Seen.{columns_seen, ranges_seen};
ghost use Rattle.iv_resolve_reasons.specs.Seen.{scope_seen, shape_seen, targets_named};
ghost use Rattle.iv_resolve_reasons.specs.Shapes.{shape_in_assignment, shape_in_delete, shape_in_expression, shape_in_insert, shape_in_list};
ghost use Rattle.iv_resolve_reasons.specs.Shapes.{shape_in_query, shape_in_select, shape_in_update, shape_of_list, shape_of_source};
ghost use Rattle.iv_syntax.specs.declared.statement.SelectList.TheVariants.{Star};

use crate::scope::{Scope, columns_from, scope_names};
use crate::shape::{ShapeFault, first_shape};
use crate::target::{Target, targets_of};
use crate::terms::{shape_in_expression, shape_in_filter};
use crate::tuples::{
    shape_of_columns, shape_of_count, shape_of_expressions, shape_of_tuples, shape_of_value,
};
use iv_catalogue::{Column, MOST_TABLES};
use iv_resolution::Origin;
use iv_resolve_scope::{Columns, Ranges, inside, stored_columns};
use iv_resolve_statements::Targets;
use iv_syntax::{
    Assignment, Condition, Delete, Expression, Insert, InsertSource, RangeName, Select, SelectList,
    Update,
};

// ---- INSERT

// The select list of an INSERT, whose range has these columns.
#[tactic(auto, unfolding(crate::specs::Shapes::shape_of_list))]
fn shape_of_list<'t, 'a>(
    table: &'t str,
    targets: &Targets<'t>,
    from: &'t str,
    columns: &'t [Column],
    list: &'t SelectList,
    ranges: &'a Ranges<'a>,
) -> Option<ShapeFault<'t>>
    ensures { option_map shape_seen result ≡ shape_of_list table.entry.now
        (targets_named targets.now) from.entry.now (named_columns columns.entry.now)
        (ranges_seen ranges.now) list.entry.now }
{
    match list {
        SelectList::Star => {
            let counted = shape_of_count(table, targets, columns.len());
            first_shape(counted, shape_of_columns(table, targets, from, columns))
        }
        SelectList::Values(values) => {
            let listed = values.as_slice();
            let counted = shape_of_count(table, targets, listed.len());
            let given = shape_of_expressions(table, targets, listed, ranges);
            first_shape(counted, given)
        }
    }
}

#[tactic(auto, unfolding(crate::specs::Shapes::shape_of_source))]
fn shape_of_source<'t, 'a>(
    table: &'t str,
    targets: &Targets<'t>,
    source: &'t InsertSource,
    scope: &Scope<'t>,
    ranges: &'a Ranges<'a>,
) -> Option<ShapeFault<'t>>
    requires { length scope.now.tables.now ≤ MOST_TABLES }
    ensures { option_map shape_seen result ≡ shape_of_source table.entry.now
        (targets_named targets.now) (scope_seen scope.now) (ranges_seen ranges.now)
        source.entry.now }
{
    match source {
        InsertSource::Values(tuples) => shape_of_tuples(table, targets, tuples.as_slice(), ranges),
        InsertSource::Select(list, range, filter) => {
            let names = scope_names(scope);
            let inner = inside(range, &names, &*ranges);
            let from = range.table.as_str();
            let columns = columns_from(scope, from);
            let listed = shape_of_list(table, targets, from, columns, list, &inner);
            first_shape(listed, shape_in_filter(filter, &names, &inner))
        }
    }
}

/// The first in an INSERT that doesn't suit.
pub fn shape_in_insert<'t, 'a>(
    insert: &'t Insert,
    scope: &Scope<'t>,
    ranges: &'a Ranges<'a>,
) -> Option<ShapeFault<'t>>
    requires { length scope.now.tables.now ≤ MOST_TABLES }
    ensures { option_map shape_seen result ≡ shape_in_insert (scope_seen scope.now)
        (ranges_seen ranges.now) insert.entry.now }
{
    match insert {
        Insert::DefaultValues(_) => None,
        Insert::Rows {
            table,
            columns,
            source,
        } => {
            let name = table.as_str();
            let stored = stored_columns(scope.tables, name);
            let targets = targets_of(stored, columns);
            shape_of_source(name, &targets, source, scope, ranges)
        }
    }
}

// ---- UPDATE and DELETE

#[tactic(auto, unfolding(crate::specs::Shapes::shape_in_assignment))]
fn shape_in_assignment<'t, 'a>(
    table: &'t str,
    columns: &Columns<'_>,
    assignment: &'t Assignment,
    ranges: &'a Ranges<'a>,
) -> Option<ShapeFault<'t>>
    ensures { option_map shape_seen result ≡ shape_in_assignment table.entry.now
        (columns_seen columns.now) (ranges_seen ranges.now) assignment.entry.now }
{
    let target = Target {
        name: assignment.column.as_str(),
        kind: columns.type_named(assignment.column.as_str()),
    };
    shape_of_value(table, &target, &assignment.value, ranges)
}

fn shape_in_assignments<'t, 'a>(
    table: &'t str,
    columns: &Columns<'_>,
    assignments: &'t [Assignment],
    ranges: &'a Ranges<'a>,
) -> Option<ShapeFault<'t>>
    ensures { option_map shape_seen result ≡ first_of (shape_in_assignment table.entry.now
        (columns_seen columns.now) (ranges_seen ranges.now)) assignments.entry.now }
{
    for assignment in assignments {
        if let Some(fault) = shape_in_assignment(table, columns, assignment, ranges) {
            return Some(fault);
        }
    }
    None
}

fn shape_in_set<'t, 'a>(
    update: &'t Update,
    columns: &Columns<'_>,
    ranges: &'a Ranges<'a>,
) -> Option<ShapeFault<'t>>
    ensures { option_map shape_seen result
        ≡ first_of (shape_in_assignment update.entry.now.table (columns_seen columns.now)
        (ranges_seen ranges.now)) update.entry.now.assignments }
{
    let table = update.table.as_str();
    shape_in_assignments(table, columns, update.assignments.as_slice(), ranges)
}

/// The first in an UPDATE that doesn't suit.
pub fn shape_in_update<'t, 'a>(
    update: &'t Update,
    scope: &Scope<'t>,
    ranges: &'a Ranges<'a>,
) -> Option<ShapeFault<'t>>
    requires { length scope.now.tables.now ≤ MOST_TABLES }
    ensures { option_map shape_seen result ≡ shape_in_update (scope_seen scope.now)
        (ranges_seen ranges.now) update.entry.now }
{
    let names = scope_names(scope);
    let table = update.table.as_str();
    let columns = Columns::Stored(stored_columns(scope.tables, table));
    let inner = Ranges::Within(table, columns, Origin::Rows, &*ranges);
    let set = shape_in_set(update, &columns, &inner);
    first_shape(set, shape_in_filter(&update.filter, &names, &inner))
}

/// The first in a DELETE that doesn't suit.
pub fn shape_in_delete<'t, 'a>(
    delete: &'t Delete,
    scope: &Scope<'t>,
    ranges: &'a Ranges<'a>,
) -> Option<ShapeFault<'t>>
    requires { length scope.now.tables.now ≤ MOST_TABLES }
    ensures { option_map shape_seen result ≡ shape_in_delete (scope_seen scope.now)
        (ranges_seen ranges.now) delete.entry.now }
{
    let names = scope_names(scope);
    let table = delete.table.as_str();
    let columns = Columns::Stored(stored_columns(scope.tables, table));
    let inner = Ranges::Within(table, columns, Origin::Rows, &*ranges);
    shape_in_filter(&delete.filter, &names, &inner)
}

// ---- SELECT

fn shape_in_expressions<'t, 'a>(
    values: &'t [Expression],
    ranges: &'a Ranges<'a>,
) -> Option<ShapeFault<'t>>
    ensures { option_map shape_seen result
        ≡ first_of (shape_in_expression (ranges_seen ranges.now)) values.entry.now }
{
    for value in values {
        if let Some(fault) = shape_in_expression(value, ranges) {
            return Some(fault);
        }
    }
    None
}

fn shape_in_list<'t, 'a>(list: &'t SelectList, ranges: &'a Ranges<'a>) -> Option<ShapeFault<'t>>
    ensures { option_map shape_seen result
        ≡ shape_in_list (ranges_seen ranges.now) list.entry.now }
{
    match list {
        SelectList::Star => None,
        SelectList::Values(values) => shape_in_expressions(values.as_slice(), ranges),
    }
}

fn shape_in_query<'t, 'a>(
    list: &'t SelectList,
    range: &'t RangeName,
    filter: &'t Option<Condition>,
    scope: &Scope<'t>,
    ranges: &'a Ranges<'a>,
) -> Option<ShapeFault<'t>>
    requires { length scope.now.tables.now ≤ MOST_TABLES }
    ensures { option_map shape_seen result ≡ shape_in_query (scope_seen scope.now)
        (ranges_seen ranges.now) list.entry.now range.entry.now filter.entry.now }
{
    let names = scope_names(scope);
    let inner = inside(range, &names, &*ranges);
    let listed = shape_in_list(list, &inner);
    first_shape(listed, shape_in_filter(filter, &names, &inner))
}

fn shape_in_count<'t, 'a>(
    range: &'t RangeName,
    filter: &'t Option<Condition>,
    scope: &Scope<'t>,
    ranges: &'a Ranges<'a>,
) -> Option<ShapeFault<'t>>
    requires { length scope.now.tables.now ≤ MOST_TABLES }
    ensures { option_map shape_seen result ≡ shape_in_query (scope_seen scope.now)
        (ranges_seen ranges.now) Star range.entry.now filter.entry.now }
{
    let names = scope_names(scope);
    let inner = inside(range, &names, &*ranges);
    shape_in_filter(filter, &names, &inner)
}

/// The first in a SELECT that doesn't suit.
pub fn shape_in_select<'t, 'a>(
    select: &'t Select,
    scope: &Scope<'t>,
    ranges: &'a Ranges<'a>,
) -> Option<ShapeFault<'t>>
    requires { length scope.now.tables.now ≤ MOST_TABLES }
    ensures { option_map shape_seen result ≡ shape_in_select (scope_seen scope.now)
        (ranges_seen ranges.now) select.entry.now }
{
    match select {
        Select::Count(range, filter) => shape_in_count(range, filter, scope, ranges),
        Select::Rows(list, range, filter) => shape_in_query(list, range, filter, scope, ranges),
    }
}
