//! CREATE TABLE and ALTER TABLE: the first rule that they break. With indexes of columns and keys the time is nearly
//! linear in the statement. If an index can't be allocated, columns and keys are searched one after another. No call can
//! fail for lack of memory.
ghost use Rattle.std.specs.Prelude.{◌≡◌, ◌==◌, ◌&&◌, length, chars, None, Some, is_some, option_map, slice_get};
ghost use Rattle.std.specs.List.{enumerate_from};
ghost use Rattle.iv_resolution.specs.Constraints.{constraints_of, default_fits, is_contradictory, literal_fits, table_constraint, text_fits};
ghost use Rattle.iv_resolution.specs.Constraints.{stored_reference, written_columns, written_constraints};
ghost use Rattle.iv_resolution.specs.Items.{first_of, told_if};
ghost use Rattle.iv_resolution.specs.NameFaults.{item_of_constraint, told_of_altered};
ghost use Rattle.iv_resolution.specs.Tables.{altered_at, created_table, is_primary_rule};
ghost use Rattle.iv_resolution.specs.Terms.{has_exists};
ghost use Rattle.iv_resolve_name_faults.specs.Seen.{item_seen};
ghost use Rattle.iv_resolve_scope.specs.Seen.{columns_seen};
ghost use Rattle.iv_resolve_tables.specs.Seen.{constraint_seen, own_seen, reference_seen, rule_seen};
ghost use Rattle.iv_resolve_reasons.specs.SchemaFaults.{added_place, columnless_table, contradictory_time, exists_in_check, fault_in_alteration, fault_in_table};
ghost use Rattle.iv_resolve_reasons.specs.SchemaFaults.{fault_of_addition, fault_of_constraint, fault_of_default, fault_of_foreign_key, fault_of_reference};
ghost use Rattle.iv_resolve_reasons.specs.SchemaFaults.{fault_of_rule, reference_at_fault, primary_keys, second_primary_key};
ghost use Rattle.iv_resolve_reasons.specs.Seen.{Describes, reference_fault_seen, schema_fault_seen};

use crate::references::{KeySearch, fault_of_reference};
use crate::rule::{ReferenceFault, SchemaFault, constraint_item, first_rule};
use iv_catalogue::{Catalogue, Table};
use iv_resolve_name_faults::NamedItem;
use iv_resolve_scope::{ColumnIndex, Columns, has_exists, table_place};
use iv_resolve_tables::{
    Own, TableKey, Unread, WrittenConstraint, WrittenRule, count_constraints, count_stored,
    is_contradictory, own_columns, own_name, primary_key, reliable_sets, table_constraint,
};
use iv_syntax::{
    ColumnDefinition, ColumnType, Condition, Literal, Name, References, TableConstraint,
    TableElement,
};
use std::alloc::Global;

/// The table that constraints are on: its name, its columns with an index of them or without, its primary key, and how
/// its other keys are looked for.
#[derive(Clone, Copy)]
pub struct Definition<'t, 'a> {
    pub name: &'t str,
    pub own: Own<'a>,
    pub primary: Option<TableKey<'t>>,
    pub search: KeySearch<'a>,
}

// ---- DEFAULT

fn count_of(text: &str) -> usize
    ensures { result ≡ length (chars text.now) }
{
    text.chars().count()
}

fn text_fits(kind: ColumnType, text: &str) -> bool
    ensures { result ≡ text_fits kind text.now }
{
    match kind {
        ColumnType::Varchar(most) => count_of(text) as u64 <= most,
        ColumnType::Integer => false,
    }
}

fn literal_fits(kind: ColumnType, literal: &Literal) -> bool
    ensures { result ≡ literal_fits kind literal.now }
{
    match literal {
        Literal::Number(_, _) => matches!(kind, ColumnType::Integer),
        Literal::Text(text) => text_fits(kind, text.as_str()),
        Literal::Null => true,
    }
}

fn fault_of_default<'t>(column: &'t ColumnDefinition) -> Option<SchemaFault<'t>>
    ensures { option_map schema_fault_seen result ≡ fault_of_default column.entry.now }
{
    match &column.default {
        Some(literal) => {
            if literal_fits(column.kind, literal) {
                None
            } else {
                Some(SchemaFault::UnfitDefault {
                    column: column.name.as_str(),
                    kind: column.kind,
                    default: literal,
                })
            }
        }
        None => None,
    }
}

fn fault_of_defaults<'t>(elements: &'t [TableElement]) -> Option<SchemaFault<'t>>
    ensures { option_map schema_fault_seen result
        ≡ first_of fault_of_default (written_columns elements.entry.now) }
{
    for element in elements {
        if let TableElement::Column(column) = element {
            if let Some(fault) = fault_of_default(column) {
                return Some(fault);
            }
        }
    }
    None
}

// ---- foreign keys

// The table of the catalogue of that name.
fn stored_table<'t>(catalogue: &'t Catalogue, name: &str) -> Option<Own<'t>>
    ensures { option_map (reference_seen catalogue.entry.now) result
        ≡ stored_reference catalogue.entry.now name.now }
{
    let tables = catalogue.tables();
    match table_place(tables, name) {
        Some(place) => match tables.get(place) {
            Some(table) => Some(Own::Stored(place as u32, table)),
            None => None,
        },
        None => None,
    }
}

// Of a foreign key that refers to a table of the catalogue.
fn fault_of_stored<'t>(
    columns: &Columns<'_>,
    catalogue: &'t Catalogue,
    referencing: &'t [Name],
    references: &'t References,
) -> Option<ReferenceFault<'t>>
    ensures { option_map reference_fault_seen result
        ≡ elim (stored_reference catalogue.entry.now references.entry.now.table) [
          | Some t ↦ fault_of_reference (columns_seen columns.now) referencing.entry.now t references.entry.now.columns
          | None ↦ None
        ] }
{
    match stored_table(catalogue, references.table.as_str()) {
        Some(table) => {
            let primary = primary_key(&table, catalogue);
            fault_of_reference(
                columns,
                referencing,
                &table,
                catalogue,
                &primary,
                &KeySearch::Searched,
                &references.columns,
            )
        }
        None => None,
    }
}

#[tactic(auto, unfolding(crate::specs::SchemaFaults::fault_of_foreign_key))]
fn fault_of_foreign_key<'t, 'a>(
    definition: &Definition<'t, 'a>,
    catalogue: &'t Catalogue,
    columns: &'t [Name],
    references: &'t References,
) -> Option<ReferenceFault<'t>>
    requires { Describes catalogue.now definition.now }
    ensures { option_map reference_fault_seen result
        ≡ fault_of_foreign_key catalogue.entry.now (own_seen catalogue.entry.now definition.now.own)
        columns.entry.now references.entry.now }
{
    let own = own_columns(&definition.own, catalogue);
    if references.table.as_str() == definition.name {
        fault_of_reference(
            &own,
            columns,
            &definition.own,
            catalogue,
            &definition.primary,
            &definition.search,
            &references.columns,
        )
    } else {
        fault_of_stored(&own, catalogue, columns, references)
    }
}

// ---- constraints

fn reference_told<'t>(
    constraint: NamedItem<'t>,
    table: &'t str,
    fault: Option<ReferenceFault<'t>>,
) -> Option<SchemaFault<'t>>
    ensures { option_map schema_fault_seen result
        ≡ option_map (λ f. reference_at_fault (item_seen constraint.entry) table.entry.now f)
        (option_map reference_fault_seen fault.entry) }
{
    match fault {
        Some(fault) => Some(SchemaFault::Reference {
            constraint,
            table,
            fault,
        }),
        None => None,
    }
}

fn exists_told<'t>(constraint: NamedItem<'t>, condition: &Condition) -> Option<SchemaFault<'t>>
    ensures { option_map schema_fault_seen result
        ≡ told_if (has_exists condition.now) (exists_in_check (item_seen constraint.entry)) }
{
    if has_exists(condition) {
        Some(SchemaFault::ExistsInCheck(constraint))
    } else {
        None
    }
}

fn fault_of_rule<'t, 'a>(
    definition: &Definition<'t, 'a>,
    catalogue: &'t Catalogue,
    constraint: NamedItem<'t>,
    rule: &WrittenRule<'t>,
) -> Option<SchemaFault<'t>>
    requires { Describes catalogue.now definition.now }
    ensures { option_map schema_fault_seen result
        ≡ fault_of_rule catalogue.entry.now (own_seen catalogue.entry.now definition.now.own)
        (item_seen constraint.entry) (rule_seen rule.now) }
{
    match rule {
        WrittenRule::NotNull(_) => None,
        WrittenRule::Unique(_, _) => None,
        WrittenRule::PrimaryKey(_) => None,
        WrittenRule::Check(condition) => exists_told(constraint, condition),
        WrittenRule::ForeignKey(columns, references) => {
            let fault = fault_of_foreign_key(definition, catalogue, columns, references);
            reference_told(constraint, references.table.as_str(), fault)
        }
    }
}

fn time_told<'t>(
    table: &'t str,
    place: u128,
    constraint: &WrittenConstraint<'t>,
) -> Option<SchemaFault<'t>>
    ensures { option_map schema_fault_seen result
        ≡ told_if (is_contradictory constraint.now.time)
        (contradictory_time (item_of_constraint table.entry.now place (constraint_seen constraint.now))) }
{
    if is_contradictory(constraint.time) {
        Some(SchemaFault::ContradictoryTime(constraint_item(table, place, constraint.name)))
    } else {
        None
    }
}

// The constraint at this place.
#[tactic(auto, unfolding(crate::specs::SchemaFaults::fault_of_constraint))]
fn fault_of_constraint<'t, 'a>(
    definition: &Definition<'t, 'a>,
    catalogue: &'t Catalogue,
    place: u128,
    constraint: &WrittenConstraint<'t>,
) -> Option<SchemaFault<'t>>
    requires { Describes catalogue.now definition.now }
    ensures { option_map schema_fault_seen result
        ≡ fault_of_constraint catalogue.entry.now
        (own_seen catalogue.entry.now definition.now.own) place (constraint_seen constraint.now) }
{
    let time = time_told(definition.name, place, constraint);
    let item = constraint_item(definition.name, place, constraint.name);
    let rule = fault_of_rule(definition, catalogue, item, &constraint.rule);
    first_rule(time, rule)
}

fn fault_of_constraints<'t, 'a>(
    definition: &Definition<'t, 'a>,
    catalogue: &'t Catalogue,
    elements: &'t [TableElement],
) -> Option<SchemaFault<'t>>
    requires { Describes catalogue.now definition.now }
    ensures { option_map schema_fault_seen result ≡ first_of
        (λ p. fault_of_constraint catalogue.entry.now
        (own_seen catalogue.entry.now definition.now.own) p.0 p.1)
        (enumerate_from 1 (written_constraints elements.entry.now)) }
{
    let count = count_constraints(elements);
    let mut left = Unread::Outside(elements);
    let mut place = 1u128;
    while let Some((constraint, rest)) = left.first() {
        let fault = fault_of_constraint(definition, catalogue, place, &constraint);
        if fault.is_some() {
            return fault;
        }
        left = rest;
        place += 1;
    }
    None
}

// ---- PRIMARY KEY

fn is_primary_rule(rule: &WrittenRule<'_>) -> bool
    ensures { result ≡ is_primary_rule (rule_seen rule.now) }
{
    matches!(rule, WrittenRule::PrimaryKey(_))
}

// The second primary key among the constraints of a CREATE TABLE.
fn second_primary_key<'t>(table: &'t str, elements: &'t [TableElement]) -> Option<SchemaFault<'t>>
    ensures { option_map schema_fault_seen result ≡ option_map
        (λ p. second_primary_key (item_of_constraint table.entry.now p.0 p.1))
        (slice_get (primary_keys 1 (written_constraints elements.entry.now)) 1) }
{
    let count = count_constraints(elements);
    let mut left = Unread::Outside(elements);
    let mut place = 1u128;
    let mut before = false;
    while let Some((constraint, rest)) = left.first() {
        let primary = is_primary_rule(&constraint.rule);
        if before && primary {
            let item = constraint_item(table, place, constraint.name);
            return Some(SchemaFault::SecondPrimaryKey(item));
        }
        before = before | primary;
        left = rest;
        place += 1;
    }
    None
}

// ---- CREATE TABLE

// Columns are found by an index if there is one in `own`; keys by an index, or one after another if it can't be
// allocated.
fn fault_among<'t, 'a>(
    alloc: Global,
    catalogue: &'t Catalogue,
    name: &'t str,
    elements: &'t [TableElement],
    own: Own<'a>,
) -> Option<SchemaFault<'t>>
    requires { own_seen catalogue.now own ≡ created_table catalogue.now name.now elements.now }
    ensures { option_map schema_fault_seen result ≡ first_of
        (λ p. fault_of_constraint catalogue.entry.now
        (created_table catalogue.entry.now name.entry.now elements.entry.now) p.0 p.1)
        (enumerate_from 1 (written_constraints elements.entry.now)) }
{
    let primary = primary_key(&Own::Created(name, elements), catalogue);
    match reliable_sets(alloc, elements) {
        Ok(sets) => {
            let definition = Definition {
                name,
                own,
                primary,
                search: KeySearch::Found(alloc, &sets),
            };
            fault_of_constraints(&definition, catalogue, elements)
        }
        Err(_) => {
            let definition = Definition {
                name,
                own,
                primary,
                search: KeySearch::Searched,
            };
            fault_of_constraints(&definition, catalogue, elements)
        }
    }
}

fn fault_of_all<'t>(
    alloc: Global,
    catalogue: &'t Catalogue,
    name: &'t str,
    elements: &'t [TableElement],
) -> Option<SchemaFault<'t>>
    ensures { option_map schema_fault_seen result ≡ first_of
        (λ p. fault_of_constraint catalogue.entry.now
        (created_table catalogue.entry.now name.entry.now elements.entry.now) p.0 p.1)
        (enumerate_from 1 (written_constraints elements.entry.now)) }
{
    match ColumnIndex::new(alloc, elements) {
        Ok(index) => {
            let own = Own::Indexed(name, elements, &index);
            fault_among(alloc, catalogue, name, elements, own)
        }
        Err(_) => {
            let own = Own::Created(name, elements);
            fault_among(alloc, catalogue, name, elements, own)
        }
    }
}

fn columnless<'t>(name: &'t str, elements: &[TableElement]) -> Option<SchemaFault<'t>>
    ensures { option_map schema_fault_seen result
        ≡ told_if (length (written_columns elements.now) == 0) (columnless_table name.entry.now) }
{
    if Columns::Defined(elements).len() == 0 {
        Some(SchemaFault::ColumnlessTable(name))
    } else {
        None
    }
}

/// The first rule that a CREATE TABLE breaks: it has no column, a DEFAULT that doesn't fit its column, two primary keys,
/// or a constraint at fault.
pub fn fault_in_table<'t>(
    alloc: Global,
    catalogue: &'t Catalogue,
    name: &'t str,
    elements: &'t [TableElement],
) -> Option<SchemaFault<'t>>
    ensures { option_map schema_fault_seen result
        ≡ fault_in_table catalogue.entry.now name.entry.now elements.entry.now }
{
    let constraints = fault_of_all(alloc, catalogue, name, elements);
    let after_defaults = first_rule(second_primary_key(name, elements), constraints);
    let after_columns = first_rule(fault_of_defaults(elements), after_defaults);
    first_rule(columnless(name, elements), after_columns)
}

// ---- ALTER TABLE

fn primary_again<'t>(
    definition: &Definition<'t, '_>,
    place: u128,
    constraint: &WrittenConstraint<'t>,
) -> Option<SchemaFault<'t>>
    ensures { option_map schema_fault_seen result ≡ told_if
        (is_primary_rule (rule_seen constraint.now.rule) && is_some definition.now.primary)
        (second_primary_key (item_of_constraint definition.now.name.now place (constraint_seen constraint.now))) }
{
    if is_primary_rule(&constraint.rule) && definition.primary.is_some() {
        let item = constraint_item(definition.name, place, constraint.name);
        return Some(SchemaFault::SecondPrimaryKey(item));
    }
    None
}

fn fault_of_added<'t>(
    catalogue: &'t Catalogue,
    place: u32,
    table: &'t Table,
    constraint: &'t TableConstraint,
) -> Option<SchemaFault<'t>>
    ensures { option_map schema_fault_seen result ≡ fault_of_addition catalogue.entry.now
        (altered_at catalogue.entry.now place table.entry.now) (table_constraint constraint.entry.now) }
{
    let own = Own::Stored(place, table);
    let definition = Definition {
        name: table.name.as_str(),
        own,
        primary: primary_key(&own, catalogue),
        search: KeySearch::Searched,
    };
    let at = count_stored(catalogue, place) as u128 + 1;
    let written = table_constraint(constraint);
    let again = primary_again(&definition, at, &written);
    let fault = fault_of_constraint(&definition, catalogue, at, &written);
    first_rule(again, fault)
}

/// The first rule that an ALTER TABLE breaks: its constraint is a second primary key, or at fault; none if its table
/// isn't there.
pub fn fault_in_alteration<'t>(
    catalogue: &'t Catalogue,
    name: &str,
    constraint: &'t TableConstraint,
) -> Option<SchemaFault<'t>>
    ensures { option_map schema_fault_seen result
        ≡ fault_in_alteration catalogue.entry.now name.now constraint.entry.now }
{
    let tables = catalogue.tables();
    match table_place(tables, name) {
        Some(place) => match tables.get(place) {
            Some(table) => fault_of_added(catalogue, place as u32, table, constraint),
            None => None,
        },
        None => None,
    }
}
