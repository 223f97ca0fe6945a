//! The primary keys of a CREATE TABLE.
ghost use Rattle.std.specs.Prelude.{◌≡◌, filter, length, map, min};
ghost use Rattle.iv_resolution.specs.Constraints.{column_constraint, element_constraints, rule_of_column, rule_of_table, written_constraints};
ghost use Rattle.iv_resolution.specs.Tables.{is_primary_rule, two_primary_keys};
ghost use Rattle.iv_resolve_tables.specs.Seen.{rule_seen};

use crate::WrittenRule;
use iv_syntax::{ColumnConstraint, ColumnRule, Name, TableElement, TableRule};

/// Whether it is a primary key.
pub fn is_primary_rule(rule: &WrittenRule<'_>) -> bool
    ensures { result ≡ is_primary_rule (rule_seen rule.now) }
{
    matches!(rule, WrittenRule::PrimaryKey(_))
}

fn is_primary_in_column(column: &Name, rule: &ColumnRule) -> bool
    ensures { result ≡ is_primary_rule (rule_of_column column.now rule.now) }
{
    matches!(rule, ColumnRule::PrimaryKey)
}

fn is_primary_for_itself(rule: &TableRule) -> bool
    ensures { result ≡ is_primary_rule (rule_of_table rule.now) }
{
    matches!(rule, TableRule::PrimaryKey(_))
}

// How many of a column's constraints are primary keys, 2 for more.
fn primary_of_column(column: &Name, constraints: &[ColumnConstraint]) -> usize
    ensures { result ≡ min 2
        (length (filter (λ k. is_primary_rule k.rule)
        (map (column_constraint column.now) constraints.now))) }
{
    let mut count = 0usize;
    for constraint in constraints {
        if is_primary_in_column(column, &constraint.rule) {
            count = (count + 1).min(2);
        }
    }
    count
}

fn primary_of_element(element: &TableElement) -> usize
    ensures { result ≡ min 2
        (length (filter (λ k. is_primary_rule k.rule) (element_constraints element.now))) }
{
    match element {
        TableElement::Column(column) => {
            primary_of_column(&column.name, column.constraints.as_slice())
        }
        TableElement::Constraint(constraint) => { is_primary_for_itself(&constraint.rule) as usize }
    }
}

/// Whether a CREATE TABLE has two primary keys.
pub fn has_two_primary_keys(elements: &[TableElement]) -> bool
    ensures { result ≡ two_primary_keys (written_constraints elements.now) }
{
    let mut count = 0usize;
    for element in elements {
        count = (count + primary_of_element(element)).min(2);
    }
    count > 1
}
