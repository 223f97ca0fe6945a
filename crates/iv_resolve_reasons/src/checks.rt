//! CREATE TABLE and ALTER TABLE: the first in their CHECKs that doesn't suit.
ghost use Rattle.std.specs.Prelude.{◌≡◌, [], option_map};
ghost use Rattle.iv_resolution.specs.Constraints.{table_constraint, written_constraints};
ghost use Rattle.iv_resolution.specs.Items.{first_of};
ghost use Rattle.iv_resolution.specs.NameFaults.{told_of_altered};
ghost use Rattle.iv_resolution.specs.Tables.{altered_at, check_ranges, table_names};
ghost use Rattle.iv_resolve_scope.specs.Seen.{ranges_seen};
ghost use Rattle.iv_resolve_tables.specs.Seen.{names_of_own, own_seen, rule_seen};
ghost use Rattle.iv_resolve_reasons.specs.Seen.{shape_seen};
ghost use Rattle.iv_resolve_reasons.specs.Shapes.{shape_in_alteration, shape_in_condition, shape_in_rule, shape_in_table};

use crate::shape::ShapeFault;
use crate::terms::shape_in_condition;
use iv_catalogue::{Catalogue, Table};
use iv_resolve_scope::{ColumnIndex, Ranges, table_place};
use iv_resolve_tables::{Own, Unread, WrittenRule, own_names, own_range, table_constraint};
use iv_syntax::{Condition, TableConstraint, TableElement};
use std::alloc::Global;

fn shape_in_check<'t, 'a>(
    own: &'a Own<'a>,
    catalogue: &'a Catalogue,
    outside: &'a Ranges<'a>,
    condition: &'t Condition,
) -> Option<ShapeFault<'t>>
    requires { ranges_seen outside.now ≡ [] }
    ensures { option_map shape_seen result
        ≡ shape_in_condition (names_of_own catalogue.now own.now)
        (check_ranges (own_seen catalogue.now own.now)) condition.entry.now }
{
    let names = own_names(own, catalogue);
    let ranges = own_range(own, catalogue, outside);
    shape_in_condition(condition, &names, &ranges)
}

// The first in a constraint of this table that doesn't suit.
fn shape_in_rule<'t, 'a>(
    own: &'a Own<'a>,
    catalogue: &'a Catalogue,
    outside: &'a Ranges<'a>,
    rule: &WrittenRule<'t>,
) -> Option<ShapeFault<'t>>
    requires { ranges_seen outside.now ≡ [] }
    ensures { option_map shape_seen result ≡ shape_in_rule (names_of_own catalogue.now own.now)
        (own_seen catalogue.now own.now) (rule_seen rule.now) }
{
    match rule {
        WrittenRule::NotNull(_) => None,
        WrittenRule::Unique(_, _) => None,
        WrittenRule::PrimaryKey(_) => None,
        WrittenRule::Check(condition) => shape_in_check(own, catalogue, outside, condition),
        WrittenRule::ForeignKey(_, _) => None,
    }
}

fn shape_in_elements<'t, 'a>(
    own: &'a Own<'a>,
    catalogue: &'a Catalogue,
    outside: &'a Ranges<'a>,
    elements: &'t [TableElement],
) -> Option<ShapeFault<'t>>
    requires { ranges_seen outside.now ≡ [] }
    ensures { option_map shape_seen result ≡ first_of
        (λ k. shape_in_rule (names_of_own catalogue.now own.now)
        (own_seen catalogue.now own.now) k.rule) (written_constraints elements.entry.now) }
{
    let mut left = Unread::Outside(elements);
    while let Some((constraint, rest)) = left.first() {
        if let Some(fault) = shape_in_rule(own, catalogue, outside, &constraint.rule) {
            return Some(fault);
        }
        left = rest;
    }
    None
}

/// The first in a CHECK of a CREATE TABLE that doesn't suit. Columns are found by an index; if it can't be allocated, one
/// after another.
pub fn shape_in_table<'t>(
    alloc: Global,
    catalogue: &Catalogue,
    name: &'t str,
    elements: &'t [TableElement],
) -> Option<ShapeFault<'t>>
    ensures { option_map shape_seen result
        ≡ shape_in_table catalogue.now name.entry.now elements.entry.now }
{
    let outside = Ranges::Nothing;
    match ColumnIndex::new(alloc, elements) {
        Ok(index) => {
            let own = Own::Indexed(name, elements, &index);
            shape_in_elements(&own, catalogue, &outside, elements)
        }
        Err(_) => {
            let own = Own::Created(name, elements);
            shape_in_elements(&own, catalogue, &outside, elements)
        }
    }
}

fn shape_in_addition_at<'t>(
    catalogue: &Catalogue,
    place: u32,
    table: &Table,
    constraint: &'t TableConstraint,
) -> Option<ShapeFault<'t>>
    ensures { option_map shape_seen result ≡ shape_in_rule (table_names catalogue.now)
        (altered_at catalogue.now place table.now) (table_constraint constraint.entry.now).rule }
{
    let outside = Ranges::Nothing;
    let own = Own::Stored(place, table);
    let written = table_constraint(constraint);
    shape_in_rule(&own, catalogue, &outside, &written.rule)
}

/// The first in the CHECK of an ALTER TABLE that doesn't suit; none if its table isn't there.
pub fn shape_in_alteration<'t>(
    catalogue: &Catalogue,
    name: &str,
    constraint: &'t TableConstraint,
) -> Option<ShapeFault<'t>>
    ensures { option_map shape_seen result
        ≡ shape_in_alteration catalogue.now name.now constraint.entry.now }
{
    let tables = catalogue.tables();
    match table_place(tables, name) {
        Some(place) => match tables.get(place) {
            Some(table) => shape_in_addition_at(catalogue, place as u32, table, constraint),
            None => None,
        },
        None => None,
    }
}
