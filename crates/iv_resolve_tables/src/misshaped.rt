//! CHECKs of CREATE TABLE and ALTER TABLE in which an integer meets a text. Nothing here allocates.
ghost use Rattle.std.specs.Prelude.{◌≡◌, []};
ghost use Rattle.std.specs.List.{list_any};
ghost use Rattle.iv_resolution.specs.Constraints.{table_constraint, written_constraints};
ghost use Rattle.iv_resolution.specs.Resolution.{of_altered};
ghost use Rattle.iv_resolution.specs.Tables.{check_ranges, misshaped_rule, misshaped_table, table_names};
ghost use Rattle.iv_resolution.specs.Terms.{misshaped_condition};
ghost use Rattle.iv_resolve_scope.specs.Seen.{ranges_seen};
ghost use Rattle.iv_resolve_tables.specs.Seen.{names_of_own, own_seen, rule_seen};

use crate::altered::table_at;
use crate::{Own, Unread, WrittenRule, own_names, own_range, table_constraint};
use iv_catalogue::Catalogue;
use iv_resolve_scope::{ColumnIndex, Ranges, misshaped_condition};
use iv_syntax::{Condition, TableConstraint, TableElement};
use std::alloc::Global;

fn misshaped_check<'a>(
    own: &'a Own<'a>,
    catalogue: &'a Catalogue,
    outside: &'a Ranges<'a>,
    condition: &'a Condition,
) -> bool
    requires { ranges_seen outside.now ≡ [] }
    ensures { result ≡ misshaped_condition (names_of_own catalogue.now own.now)
        (check_ranges (own_seen catalogue.now own.now)) condition.now }
{
    let names = own_names(own, catalogue);
    let ranges = own_range(own, catalogue, outside);
    misshaped_condition(condition, &names, &ranges)
}

// Whether an integer meets a text in a constraint of this table.
fn misshaped_rule<'a>(
    own: &'a Own<'a>,
    catalogue: &'a Catalogue,
    outside: &'a Ranges<'a>,
    rule: &WrittenRule<'a>,
) -> bool
    requires { ranges_seen outside.now ≡ [] }
    ensures { result ≡ misshaped_rule (names_of_own catalogue.now own.now)
        (own_seen catalogue.now own.now) (rule_seen rule.now) }
{
    match rule {
        WrittenRule::NotNull(_) => false,
        WrittenRule::Unique(_, _) => false,
        WrittenRule::PrimaryKey(_) => false,
        WrittenRule::Check(condition) => misshaped_check(own, catalogue, outside, condition),
        WrittenRule::ForeignKey(_, _) => false,
    }
}

fn some_is_misshaped<'a>(
    own: &'a Own<'a>,
    catalogue: &'a Catalogue,
    outside: &'a Ranges<'a>,
    elements: &'a [TableElement],
) -> bool
    requires { ranges_seen outside.now ≡ [] }
    ensures { result ≡ list_any (λ k. misshaped_rule (names_of_own catalogue.now own.now)
        (own_seen catalogue.now own.now) k.rule) (written_constraints elements.now) }
{
    let mut left = Unread::Outside(elements);
    while let Some((constraint, rest)) = left.first() {
        if misshaped_rule(own, catalogue, outside, &constraint.rule) {
            return true;
        }
        left = rest;
    }
    false
}

/// Whether an integer meets a text in a constraint of a CREATE TABLE. Columns are found by an index; if it can't be
/// allocated, one after another.
pub fn misshaped_table(
    alloc: Global,
    catalogue: &Catalogue,
    name: &str,
    elements: &[TableElement],
) -> bool
    ensures { result ≡ misshaped_table catalogue.now name.now elements.now }
{
    let outside = Ranges::Nothing;
    match ColumnIndex::new(alloc, elements) {
        Ok(index) => {
            let own = Own::Indexed(name, elements, &index);
            some_is_misshaped(&own, catalogue, &outside, elements)
        }
        Err(_) => {
            let own = Own::Created(name, elements);
            some_is_misshaped(&own, catalogue, &outside, elements)
        }
    }
}

/// Whether an integer meets a text in the constraint of an ALTER TABLE; false if its table isn't there.
pub fn misshaped_addition(catalogue: &Catalogue, name: &str, constraint: &TableConstraint) -> bool
    ensures { result ≡ of_altered catalogue.now name.now
        (λ own. misshaped_rule (table_names catalogue.now) own
        (table_constraint constraint.now).rule) }
{
    let outside = Ranges::Nothing;
    let written = table_constraint(constraint);
    match table_at(catalogue, name) {
        Some(table) => {
            let own = Own::Stored(table.place, table.table);
            misshaped_rule(&own, catalogue, &outside, &written.rule)
        }
        None => false,
    }
}
