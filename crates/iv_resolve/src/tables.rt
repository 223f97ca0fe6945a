//! CREATE TABLE and ALTER TABLE.
ghost use Rattle.std.specs.Prelude.{◌≡◌, ◌&&◌, map};
ghost use Rattle.std.specs.List.{list_all};
ghost use Rattle.iv_resolution.specs.Constraints.{column_constraint, element_constraints, rule_of_column, rule_of_table, table_constraint};
ghost use Rattle.iv_resolution.specs.Constraints.{written_columns, written_constraints};
ghost use Rattle.iv_resolution.specs.Writable.{is_written_constraint, is_definition, is_literal, is_name, is_name_list_or_none, is_rule, is_table_definition};

use crate::names::{is_name, is_name_list, is_name_list_or_none, is_name_or_none};
use crate::terms::is_condition;
use iv_syntax::{
    ColumnConstraint, ColumnDefinition, ColumnRule, GREATEST_INTEGER, Literal, Name, References,
    TableConstraint, TableElement, TableRule,
};

fn is_literal(literal: &Literal) -> bool
    ensures { result ≡ is_literal literal.now }
{
    match literal {
        Literal::Number(_, number) => *number <= GREATEST_INTEGER,
        Literal::Text(_) | Literal::Null => true,
    }
}

fn is_definition(column: &ColumnDefinition) -> bool
    ensures { result ≡ is_definition column.now }
{
    is_name(column.name.as_str())
        && match &column.default {
            Some(literal) => is_literal(literal),
            None => true,
        }
}

fn is_reference(references: &References) -> bool
    ensures { result
        ≡ (is_name references.now.table && is_name_list_or_none references.now.columns) }
{
    is_name(references.table.as_str()) && is_name_list_or_none(&references.columns)
}

fn is_table_rule(rule: &TableRule) -> bool
    ensures { result ≡ is_rule (rule_of_table rule.now) }
{
    match rule {
        TableRule::Unique(_, names) => is_name_list(names.as_slice()),
        TableRule::PrimaryKey(names) => is_name_list(names.as_slice()),
        TableRule::Check(condition) => is_condition(condition),
        TableRule::ForeignKey(names, references) => {
            is_name_list(names.as_slice()) && is_reference(references)
        }
    }
}

/// Whether a constraint that is written for itself can be written.
pub fn is_addition(constraint: &TableConstraint) -> bool
    ensures { result ≡ is_written_constraint (table_constraint constraint.now) }
{
    is_name_or_none(&constraint.name) && is_table_rule(&constraint.rule)
}

fn is_column_rule(column: &Name, rule: &ColumnRule) -> bool
    ensures { result ≡ is_rule (rule_of_column column.now rule.now) }
{
    match rule {
        ColumnRule::NotNull => is_name(column.as_str()),
        ColumnRule::Unique(_) => is_name(column.as_str()),
        ColumnRule::PrimaryKey => is_name(column.as_str()),
        ColumnRule::Check(condition) => is_condition(condition),
        ColumnRule::References(references) => {
            is_name(column.as_str()) && is_reference(references)
        }
    }
}

fn is_column_constraint(column: &Name, constraint: &ColumnConstraint) -> bool
    ensures { result ≡ is_written_constraint (column_constraint column.now constraint.now) }
{
    is_name_or_none(&constraint.name) && is_column_rule(column, &constraint.rule)
}

fn are_column_constraints(column: &Name, constraints: &[ColumnConstraint]) -> bool
    ensures { result ≡ list_all is_written_constraint
        (map (column_constraint column.now) constraints.now) }
{
    for constraint in constraints {
        if !is_column_constraint(column, constraint) {
            return false;
        }
    }
    true
}

fn are_definitions(elements: &[TableElement]) -> bool
    ensures { result ≡ list_all is_definition (written_columns elements.now) }
{
    for element in elements {
        if let TableElement::Column(column) = element {
            if !is_definition(column) {
                return false;
            }
        }
    }
    true
}

fn are_element_constraints(element: &TableElement) -> bool
    ensures { result ≡ list_all is_written_constraint (element_constraints element.now) }
{
    match element {
        TableElement::Column(column) => {
            are_column_constraints(&column.name, column.constraints.as_slice())
        }
        TableElement::Constraint(constraint) => is_addition(constraint),
    }
}

#[tactic(auto, using(crate::proofs::Elements::all_of_first))]
fn are_constraints(elements: &[TableElement]) -> bool
    ensures { result ≡ list_all is_written_constraint (written_constraints elements.now) }
{
    for element in elements {
        if !are_element_constraints(element) {
            return false;
        }
    }
    true
}

/// Whether a CREATE TABLE can be written.
pub fn is_table_definition(name: &str, elements: &[TableElement]) -> bool
    ensures { result ≡ is_table_definition name.now elements.now }
{
    is_name(name) && (are_definitions(elements) && are_constraints(elements))
}
