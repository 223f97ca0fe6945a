//! Numbers in CREATE TABLE and ALTER TABLE that are beyond the limits. Nothing here allocates; each function takes time
//! in proportion to the statement.
ghost use Rattle.std.specs.Prelude.{◌≡◌, ◌||◌, length, map, nat_lt};
ghost use Rattle.std.specs.List.{list_any};
ghost use Rattle.iv_catalogue.specs.declared.limits.TheConstants.{MOST_CONSTRAINTS};
ghost use Rattle.iv_resolution.specs.Constraints.{column_constraint, element_constraints, table_constraint, written_columns, written_constraints};
ghost use Rattle.iv_resolution.specs.Resolution.{of_altered};
ghost use Rattle.iv_resolution.specs.Tables.{addition_beyond_limits, altered_at, long_key, table_beyond_limits, type_beyond_limits};
ghost use Rattle.iv_resolve_tables.specs.Seen.{constraint_seen, own_seen, rule_seen};

use crate::{
    Own, WrittenConstraint, WrittenRule, column_constraint, count_element, count_stored,
    table_constraint,
};
use iv_catalogue::{
    Catalogue, MOST_CHARACTERS, MOST_COLUMNS, MOST_CONSTRAINTS, MOST_KEY_COLUMNS, MOST_TABLES,
};
use iv_resolve_scope::{Columns, table_place};
use iv_syntax::{ColumnConstraint, ColumnType, Name, TableConstraint, TableElement};

// Whether a key has more columns than it may.
fn long_key(rule: &WrittenRule<'_>) -> bool
    ensures { result ≡ long_key (rule_seen rule.now) }
{
    match rule {
        WrittenRule::NotNull(_) => false,
        WrittenRule::Unique(_, columns) => columns.len() > MOST_KEY_COLUMNS,
        WrittenRule::PrimaryKey(columns) => columns.len() > MOST_KEY_COLUMNS,
        WrittenRule::Check(_) => false,
        WrittenRule::ForeignKey(_, _) => false,
    }
}

fn type_beyond_limits(kind: ColumnType) -> bool
    ensures { result ≡ type_beyond_limits kind }
{
    match kind {
        ColumnType::Integer => false,
        ColumnType::Varchar(characters) => characters == 0 || characters > MOST_CHARACTERS,
    }
}

fn column_has_long_key(column: &Name, constraints: &[ColumnConstraint]) -> bool
    ensures { result ≡ list_any (λ k. long_key k.rule)
        (map (column_constraint column.now) constraints.now) }
{
    for constraint in constraints {
        if long_key(&column_constraint(column, constraint).rule) {
            return true;
        }
    }
    false
}

fn element_has_long_key(element: &TableElement) -> bool
    ensures { result ≡ list_any (λ k. long_key k.rule) (element_constraints element.now) }
{
    match element {
        TableElement::Column(column) => {
            column_has_long_key(&column.name, column.constraints.as_slice())
        }
        TableElement::Constraint(constraint) => long_key(&table_constraint(constraint).rule),
    }
}

#[tactic(auto, using(crate::proofs::Elements::any_next))]
fn has_long_key(elements: &[TableElement]) -> bool
    ensures { result ≡ list_any (λ k. long_key k.rule) (written_constraints elements.now) }
{
    for element in elements {
        if element_has_long_key(element) {
            return true;
        }
    }
    false
}

fn has_type_beyond_limits(elements: &[TableElement]) -> bool
    ensures { result ≡ list_any (λ c. type_beyond_limits c.kind) (written_columns elements.now) }
{
    for element in elements {
        if let TableElement::Column(column) = element {
            if type_beyond_limits(column.kind) {
                return true;
            }
        }
    }
    false
}

#[tactic(auto, using(crate::proofs::Elements::count_next))]
fn many_constraints(elements: &[TableElement]) -> bool
    ensures { result ≡ nat_lt MOST_CONSTRAINTS (length (written_constraints elements.now)) }
{
    let mut left = MOST_CONSTRAINTS;
    for element in elements {
        let count = count_element(element);
        if count > left {
            return true;
        }
        left -= count;
    }
    false
}

/// Whether a CREATE TABLE makes one table too many, or its table has too many columns or constraints, a type that is
/// too long, or a key of too many columns.
pub fn table_beyond_limits(elements: &[TableElement], catalogue: &Catalogue) -> bool
    ensures { result ≡ table_beyond_limits catalogue.now elements.now }
{
    catalogue.tables().len() >= MOST_TABLES
        || (Columns::Defined(elements).len() > MOST_COLUMNS
            || (many_constraints(elements)
                || (has_type_beyond_limits(elements) || has_long_key(elements))))
}

/// Whether an ALTER TABLE adds one constraint too many, or a key of too many columns; false if there is no such table.
pub fn addition_beyond_limits(
    table: &str,
    constraint: &TableConstraint,
    catalogue: &Catalogue,
) -> bool
    ensures { result ≡ of_altered catalogue.now table.now
        (λ own. addition_beyond_limits catalogue.now own (table_constraint constraint.now)) }
{
    match table_place(catalogue.tables(), table) {
        Some(place) => {
            count_stored(catalogue, place as u32) >= MOST_CONSTRAINTS
                || long_key(&table_constraint(constraint).rule)
        }
        None => false,
    }
}
