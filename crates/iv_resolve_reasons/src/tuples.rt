//! Values that don't suit their columns. Nothing here allocates; each function takes time in proportion to the values,
//! and for each name to the columns that it is looked for among.
ghost use Rattle.std.specs.Prelude.{◌≡◌, ◌==◌, length, not, option_map};
ghost use Rattle.iv_resolution.specs.Items.{told_if};
ghost use Rattle.iv_resolution.specs.Scopes.{named_column, named_columns, type_of};
ghost use Rattle.iv_resolve_scope.specs.Seen.{ranges_seen};
ghost use Rattle.iv_resolve_reasons.specs.Seen.{shape_seen, target_seen, targets_named};
ghost use Rattle.iv_resolve_reasons.specs.Shapes.{column_told, shape_of_column, shape_of_columns, shape_of_count, shape_of_expression, shape_of_expressions};
ghost use Rattle.iv_resolve_reasons.specs.Shapes.{shape_of_tuple, shape_of_tuples, shape_of_value, shape_of_values, tuple_count, value_told};

use crate::shape::{ShapeFault, first_shape};
use crate::target::{Target, count_targets, target_at};
use crate::terms::shape_in_expression;
use iv_catalogue::Column;
use iv_resolve_scope::{Ranges, clashes_with, kinds_clash};
use iv_resolve_statements::Targets;
use iv_syntax::{ColumnType, Expression, ValueOrDefault};
use iv_value::Kind;
use sqlite_items::Items;

// ---- one value for one column

fn value_told<'t, 'a>(
    table: &'t str,
    target: &Target<'t>,
    value: &'t Expression,
    ranges: &'a Ranges<'a>,
) -> Option<ShapeFault<'t>>
    ensures { option_map shape_seen result ≡ value_told table.entry.now target.now.name.now
        target.now.kind (ranges_seen ranges.now) value.entry.now }
{
    let column = target.name;
    match target.kind {
        Some(kind) => {
            if clashes_with(Some(kind), value, ranges) {
                Some(ShapeFault::Value {
                    table,
                    column,
                    kind,
                    value,
                })
            } else {
                None
            }
        }
        None => None,
    }
}

// An expression for a column: the whole if it doesn't suit, or else what is told of its inside.
#[tactic(auto, unfolding(crate::specs::Shapes::shape_of_expression))]
fn shape_of_expression<'t, 'a>(
    table: &'t str,
    target: &Target<'t>,
    value: &'t Expression,
    ranges: &'a Ranges<'a>,
) -> Option<ShapeFault<'t>>
    ensures { option_map shape_seen result ≡ shape_of_expression table.entry.now
        (target_seen target.now) (ranges_seen ranges.now) value.entry.now }
{
    let told = value_told(table, target, value, ranges);
    first_shape(told, shape_in_expression(value, ranges))
}

/// A value for a column: the whole if it doesn't suit, or else what is told of its inside.
#[tactic(auto, unfolding(crate::specs::Shapes::shape_of_value))]
pub fn shape_of_value<'t, 'a>(
    table: &'t str,
    target: &Target<'t>,
    value: &'t ValueOrDefault,
    ranges: &'a Ranges<'a>,
) -> Option<ShapeFault<'t>>
    ensures { option_map shape_seen result ≡ shape_of_value table.entry.now
        (target_seen target.now) (ranges_seen ranges.now) value.entry.now }
{
    match value {
        ValueOrDefault::Value(expression) => shape_of_expression(table, target, expression, ranges),
        ValueOrDefault::Default => None,
    }
}

// ---- VALUES

#[tactic(auto, using(crate::proofs::Pairs::values_past, crate::proofs::Pairs::values_end))]
fn shape_of_values<'t, 'a>(
    table: &'t str,
    targets: &Targets<'t>,
    tuple: &'t [ValueOrDefault],
    ranges: &'a Ranges<'a>,
) -> Option<ShapeFault<'t>>
    ensures { option_map shape_seen result ≡ shape_of_values table.entry.now
        (targets_named targets.now) (ranges_seen ranges.now) tuple.entry.now }
{
    for at in 0..tuple.len() {
        let Some(target) = target_at(targets, at) else {
            return None;
        };
        let fault = shape_of_value(table, &target, &tuple[at], ranges);
        if fault.is_some() {
            return fault;
        }
    }
    None
}

fn tuple_counted<'t>(
    table: &'t str,
    targets: &Targets<'t>,
    number: usize,
    values: usize,
) -> Option<ShapeFault<'t>>
    ensures { option_map shape_seen result ≡ told_if
        (not (values == length (targets_named targets.now)))
        (tuple_count table.entry.now number (length (targets_named targets.now)) values) }
{
    let columns = count_targets(targets);
    if values == columns {
        return None;
    }
    Some(ShapeFault::TupleCount {
        table,
        number,
        columns,
        values,
    })
}

#[tactic(auto, unfolding(crate::specs::Shapes::shape_of_tuple))]
fn shape_of_tuple<'t, 'a>(
    table: &'t str,
    targets: &Targets<'t>,
    number: usize,
    tuple: &'t [ValueOrDefault],
    ranges: &'a Ranges<'a>,
) -> Option<ShapeFault<'t>>
    ensures { option_map shape_seen result ≡ shape_of_tuple table.entry.now
        (targets_named targets.now) (ranges_seen ranges.now) number tuple.entry.now }
{
    let counted = tuple_counted(table, targets, number, tuple.len());
    first_shape(counted, shape_of_values(table, targets, tuple, ranges))
}

/// The first tuple of VALUES with too few or too many values or a value that doesn't suit.
#[tactic(auto, using(crate::proofs::Pairs::tuples_end))]
pub fn shape_of_tuples<'t, 'a>(
    table: &'t str,
    targets: &Targets<'t>,
    tuples: &'t [Items<ValueOrDefault>],
    ranges: &'a Ranges<'a>,
) -> Option<ShapeFault<'t>>
    ensures { option_map shape_seen result ≡ shape_of_tuples table.entry.now
        (targets_named targets.now) (ranges_seen ranges.now) 1 tuples.entry.now }
{
    for at in 0..tuples.len() {
        let tuple = tuples[at].as_slice();
        let fault = shape_of_tuple(table, targets, at + 1, tuple, ranges);
        if fault.is_some() {
            return fault;
        }
    }
    None
}

// ---- the query of an INSERT

/// A query that gives too few or too many values.
pub fn shape_of_count<'t>(
    table: &'t str,
    targets: &Targets<'t>,
    values: usize,
) -> Option<ShapeFault<'t>>
    ensures { option_map shape_seen result
        ≡ shape_of_count table.entry.now (targets_named targets.now) values }
{
    let columns = count_targets(targets);
    if values == columns {
        return None;
    }
    Some(ShapeFault::QueryCount {
        table,
        columns,
        values,
    })
}

/// The first expression of a select list that doesn't suit.
#[tactic(auto, using(crate::proofs::Pairs::expressions_past, crate::proofs::Pairs::expressions_end))]
pub fn shape_of_expressions<'t, 'a>(
    table: &'t str,
    targets: &Targets<'t>,
    values: &'t [Expression],
    ranges: &'a Ranges<'a>,
) -> Option<ShapeFault<'t>>
    ensures { option_map shape_seen result ≡ shape_of_expressions table.entry.now
        (targets_named targets.now) (ranges_seen ranges.now) values.entry.now }
{
    for at in 0..values.len() {
        let Some(target) = target_at(targets, at) else {
            return None;
        };
        let fault = shape_of_expression(table, &target, &values[at], ranges);
        if fault.is_some() {
            return fault;
        }
    }
    None
}

// The type of a column of this kind, as it is written.
fn type_of(kind: Kind) -> ColumnType
    ensures { result ≡ type_of kind }
{
    match kind {
        Kind::Integer => ColumnType::Integer,
        Kind::Varchar(length) => ColumnType::Varchar(length as u64),
    }
}

fn column_told<'t>(
    table: &'t str,
    target: &Target<'t>,
    from: &'t str,
    given: &'t Column,
) -> Option<ShapeFault<'t>>
    ensures { option_map shape_seen result ≡ column_told table.entry.now target.now.name.now
        target.now.kind from.entry.now (named_column given.entry.now) }
{
    let given_kind = type_of(given.kind);
    match target.kind {
        Some(kind) => {
            if kinds_clash(Some(kind), given_kind) {
                Some(ShapeFault::Column {
                    table,
                    column: target.name,
                    kind,
                    from,
                    given: given.name.as_str(),
                    given_kind,
                })
            } else {
                None
            }
        }
        None => None,
    }
}

// A column that is given for a column.
#[tactic(auto, unfolding(crate::specs::Shapes::shape_of_column))]
fn shape_of_column<'t>(
    table: &'t str,
    target: &Target<'t>,
    from: &'t str,
    given: &'t Column,
) -> Option<ShapeFault<'t>>
    ensures { option_map shape_seen result ≡ shape_of_column table.entry.now
        (target_seen target.now) from.entry.now (named_column given.entry.now) }
{
    column_told(table, target, from, given)
}

/// The first column that SELECT * gives and that doesn't suit.
#[tactic(auto, using(crate::proofs::Pairs::columns_past, crate::proofs::Pairs::columns_end))]
pub fn shape_of_columns<'t>(
    table: &'t str,
    targets: &Targets<'t>,
    from: &'t str,
    columns: &'t [Column],
) -> Option<ShapeFault<'t>>
    ensures { option_map shape_seen result ≡ shape_of_columns table.entry.now
        (targets_named targets.now) from.entry.now (named_columns columns.entry.now) }
{
    for at in 0..columns.len() {
        let Some(target) = target_at(targets, at) else {
            return None;
        };
        let fault = shape_of_column(table, &target, from, &columns[at]);
        if fault.is_some() {
            return fault;
        }
    }
    None
}
