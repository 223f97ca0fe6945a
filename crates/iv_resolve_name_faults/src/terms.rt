//! The first name in an expression, a condition or a list of columns that names nothing. Nothing here allocates; each
//! name takes time in proportion to the ranges that it is inside of.
ghost use Rattle.std.specs.Prelude.{◌≡◌, ◌≤◌, length, option_map};
ghost use Rattle.iv_resolution.specs.Terms.{unknown_column};
ghost use Rattle.iv_resolve_scope.specs.Seen.{columns_seen, names_seen, ranges_seen};
ghost use Rattle.iv_resolution.specs.Items.{column_item, told_if};
ghost use Rattle.iv_resolution.specs.NameFaults.{unknown_in_columns, unknown_in_condition, unknown_in_expression, unknown_in_filter, unknown_in_from};
ghost use Rattle.iv_resolve_name_faults.specs.Seen.{item_seen};

use crate::item::{NamedItem, first_item};
use iv_catalogue::MOST_TABLES;
use iv_resolve_scope::{Columns, Names, Ranges, column_meant, inside, is_source};
use iv_syntax::{ColumnName, Condition, Expression, Name, RangeName};

fn item_of_column<'t>(column: &'t ColumnName) -> NamedItem<'t>
    ensures { item_seen result ≡ column_item column.entry.now.qualifier column.entry.now.name }
{
    match &column.qualifier {
        Some(range) => NamedItem::Column(Some(range.as_str()), column.name.as_str()),
        None => NamedItem::Column(None, column.name.as_str()),
    }
}

fn unknown_column<'t, 'a>(column: &'t ColumnName, ranges: &'a Ranges<'a>) -> Option<NamedItem<'t>>
    ensures { option_map item_seen result
        ≡ told_if (unknown_column (ranges_seen ranges.now) column.entry.now)
        (column_item column.entry.now.qualifier column.entry.now.name) }
{
    match column_meant(column, ranges) {
        Some(_) => None,
        None => Some(item_of_column(column)),
    }
}

/// The first column in an expression that names nothing.
#[tactic(auto, using(crate::proofs::Steps::in_expression_steps))]
pub fn unknown_in_expression<'t, 'a>(
    expression: &'t Expression,
    ranges: &'a Ranges<'a>,
) -> Option<NamedItem<'t>>
    ensures { option_map item_seen result
        ≡ unknown_in_expression (ranges_seen ranges.now) expression.entry.now }
{
    match expression {
        Expression::Number(_) | Expression::Text(_) | Expression::Null => None,
        Expression::Column(column) => unknown_column(column, ranges),
        Expression::Group(a) => unknown_in_expression(a.get(), ranges),
        Expression::Signed(_, a) => unknown_in_expression(a.get(), ranges),
        Expression::Product(a, b) => {
            let first = unknown_in_expression(a.get(), ranges);
            first_item(first, unknown_in_expression(b.get(), ranges))
        }
        Expression::Sum(_, a, b) => {
            let first = unknown_in_expression(a.get(), ranges);
            first_item(first, unknown_in_expression(b.get(), ranges))
        }
    }
}

/// What a FROM names, if it names nothing.
pub fn unknown_in_from<'t>(range: &'t RangeName, names: &Names<'_>) -> Option<NamedItem<'t>>
    requires { length names.now.tables.now ≤ MOST_TABLES }
    ensures { option_map item_seen result
        ≡ unknown_in_from (names_seen names.now) range.entry.now }
{
    if is_source(names, range.table.as_str()) {
        None
    } else {
        Some(NamedItem::Table(range.table.as_str()))
    }
}

/// The first name of a column or of a FROM that names nothing.
#[tactic(auto, using(crate::proofs::Steps::in_condition_steps))]
pub fn unknown_in_condition<'t, 'a>(
    condition: &'t Condition,
    names: &'a Names<'a>,
    ranges: &'a Ranges<'a>,
) -> Option<NamedItem<'t>>
    requires { length names.now.tables.now ≤ MOST_TABLES }
    ensures { option_map item_seen result ≡ unknown_in_condition (names_seen names.now)
        (ranges_seen ranges.now) condition.entry.now }
{
    match condition {
        Condition::Compare(_, a, b) => {
            let first = unknown_in_expression(a, &*ranges);
            first_item(first, unknown_in_expression(b, &*ranges))
        }
        Condition::IsNull(a) | Condition::IsNotNull(a) => unknown_in_expression(a, &*ranges),
        Condition::Exists(range) => unknown_in_from(range, &*names),
        Condition::ExistsWhere(range, a) => {
            let inner = inside(range, &*names, &*ranges);
            let first = unknown_in_from(range, &*names);
            first_item(first, unknown_in_condition(a.get(), &*names, &inner))
        }
        Condition::Group(a) => unknown_in_condition(a.get(), &*names, &*ranges),
        Condition::Not(a) => unknown_in_condition(a.get(), &*names, &*ranges),
        Condition::And(a, b) => {
            let first = unknown_in_condition(a.get(), &*names, &*ranges);
            first_item(first, unknown_in_condition(b.get(), &*names, &*ranges))
        }
        Condition::Or(a, b) => {
            let first = unknown_in_condition(a.get(), &*names, &*ranges);
            first_item(first, unknown_in_condition(b.get(), &*names, &*ranges))
        }
    }
}

/// The same of a condition that may be left out.
pub fn unknown_in_filter<'t, 'a>(
    filter: &'t Option<Condition>,
    names: &'a Names<'a>,
    ranges: &'a Ranges<'a>,
) -> Option<NamedItem<'t>>
    requires { length names.now.tables.now ≤ MOST_TABLES }
    ensures { option_map item_seen result ≡ unknown_in_filter (names_seen names.now)
        (ranges_seen ranges.now) filter.entry.now }
{
    match filter {
        Some(condition) => unknown_in_condition(condition, names, ranges),
        None => None,
    }
}

/// The first of the names that names no column.
pub fn unknown_in_columns<'t>(columns: &Columns<'_>, names: &'t [Name]) -> Option<NamedItem<'t>>
    ensures { option_map item_seen result
        ≡ unknown_in_columns (columns_seen columns.now) names.entry.now }
{
    for name in names {
        if !columns.has(name.as_str()) {
            return Some(NamedItem::Column(None, name.as_str()));
        }
    }
    None
}
