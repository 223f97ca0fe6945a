//! Plans of CREATE TABLE and ALTER TABLE. Each function allocates only the plan.
ghost use Rattle.std.specs.Prelude.{◌≡◌, [], IfOk, None, Some, map, option_map, unwrap_or};
ghost use Rattle.std.specs.List.{enumerate_from};
ghost use Rattle.iv_catalogue.specs.declared.constraint.Rule.TheVariants as rule;
ghost use Rattle.iv_syntax.specs.declared.table.MatchType.TheVariants.{Simple};
ghost use Rattle.iv_syntax.specs.declared.table.ReferentialAction.TheVariants.{NoAction};
ghost use Rattle.iv_resolution.specs.Tables.{altered_at, check_ranges, created_table};
ghost use Rattle.iv_resolution.specs.Terms.{bound_condition};
ghost use Rattle.iv_resolution.specs.Bound.{bound_addition, bound_alteration, bound_constraint, bound_place, bound_rule, bound_table, key_places};
ghost use Rattle.iv_resolution.specs.Constraints.{foreign_key, places_of, table_constraint, written_constraints};
ghost use Rattle.iv_resolve_tables.specs.Keys as seen;
ghost use Rattle.iv_resolve_tables.specs.Seen.{constraint_seen, names_of_own, own_seen, reference_seen, rule_seen};

use crate::columns_bound::bound_columns;
use crate::{
    KeyColumns, Own, Unread, WrittenConstraint, WrittenRule, constraint_name, count_stored,
    initial_mode, is_deferrable, own_columns, own_names, own_range, primary_key, referenced,
    table_constraint,
};
use iv_catalogue::{
    Catalogue, Constraint, Constraints, ForeignKey, Plan, Rule, SchemaPlan, Table, TransactionPlan,
};
use iv_expr::{Cond, TableId};
use iv_resolve_scope::{Ranges, bound_condition, places_of};
use iv_syntax::{
    Condition, MatchType, Name, References, ReferentialAction, TableConstraint, TableElement,
};
use sqlite_items::Items;
use std::alloc::{AllocError, Global};

fn copied(alloc: Global, places: &[u32]) -> Result<Items<u32>, AllocError>
    ensures { IfOk result (λ ps. ps ≡ places.now) }
{
    let mut copy = Items::new(alloc);
    for place in places {
        copy.push(*place)?;
    }
    Ok(copy)
}

fn places_of_key(alloc: Global, columns: &KeyColumns<'_>) -> Result<Items<u32>, AllocError>
    ensures { IfOk result (λ ps. ps ≡ seen.key_places columns.now) }
{
    match columns {
        KeyColumns::Named(columns, names) => places_of(alloc, columns, names),
        KeyColumns::Placed(_, places) => copied(alloc, places),
    }
}

// The columns of the primary key; none if there is no such key.
fn primary_places(
    alloc: Global,
    own: &Own<'_>,
    catalogue: &Catalogue,
) -> Result<Items<u32>, AllocError>
    ensures { IfOk result (λ ps. ps ≡ key_places (reference_seen catalogue.now own.now) None) }
{
    match primary_key(own, catalogue) {
        Some(key) => places_of_key(alloc, &key.columns),
        None => Ok(Items::new(alloc)),
    }
}

// The columns that a foreign key refers to, in the table that it refers to.
fn key_places(
    alloc: Global,
    own: &Own<'_>,
    catalogue: &Catalogue,
    names: &Option<Items<Name>>,
) -> Result<Items<u32>, AllocError>
    ensures { IfOk result (λ ps. ps ≡ key_places (reference_seen catalogue.now own.now) names.now) }
{
    match names {
        Some(names) => places_of(alloc, &own_columns(own, catalogue), names.as_slice()),
        None => primary_places(alloc, own, catalogue),
    }
}

// The number of the table.
fn own_id(own: &Own<'_>, catalogue: &Catalogue) -> TableId
    ensures { result ≡ (own_seen catalogue.now own.now).table }
{
    match own {
        Own::Created(_, _) => TableId::new(catalogue.tables().len() as u32),
        Own::Indexed(_, _, _) => TableId::new(catalogue.tables().len() as u32),
        Own::Stored(place, _) => TableId::new(*place),
    }
}

fn matching(written: Option<MatchType>) -> MatchType
    ensures { result ≡ unwrap_or written Simple }
{
    match written {
        Some(matching) => matching,
        None => MatchType::Simple,
    }
}

fn action(written: Option<ReferentialAction>) -> ReferentialAction
    ensures { result ≡ unwrap_or written NoAction }
{
    match written {
        Some(action) => action,
        None => ReferentialAction::NoAction,
    }
}

fn referenced_id(table: &Option<Own<'_>>, catalogue: &Catalogue) -> TableId
    ensures { result ≡ elim (option_map (reference_seen catalogue.now) table.now) [
      | Some r ↦ r.table
      | None ↦ 0
    ] }
{
    match table {
        Some(own) => own_id(own, catalogue),
        None => TableId::new(0),
    }
}

fn referenced_places(
    alloc: Global,
    table: &Option<Own<'_>>,
    catalogue: &Catalogue,
    names: &Option<Items<Name>>,
) -> Result<Items<u32>, AllocError>
    ensures { IfOk result (λ ps. ps
        ≡ elim (option_map (reference_seen catalogue.now) table.now)
        [ Some r ↦ key_places r names.now | None ↦ [] ]) }
{
    match table {
        Some(own) => key_places(alloc, own, catalogue, names),
        None => Ok(Items::new(alloc)),
    }
}

fn bound_reference(
    alloc: Global,
    own: &Own<'_>,
    catalogue: &Catalogue,
    names: &[Name],
    references: &References,
) -> Result<ForeignKey, AllocError>
    ensures { IfOk result (λ f. rule.ForeignKey f
        ≡ bound_rule catalogue.now (names_of_own catalogue.now own.now)
        (own_seen catalogue.now own.now) (foreign_key names.now references.now)) }
{
    let table = referenced(own, catalogue, references.table.as_str());
    let columns = places_of(alloc, &own_columns(own, catalogue), names)?;
    let key = referenced_places(alloc, &table, catalogue, &references.columns)?;
    Ok(ForeignKey {
        columns,
        referenced: referenced_id(&table, catalogue),
        key,
        matching: matching(references.matching),
        on_delete: action(references.on_delete),
        on_update: action(references.on_update),
    })
}

fn bound_check<'a>(
    alloc: Global,
    own: &'a Own<'a>,
    catalogue: &'a Catalogue,
    condition: &'a Condition,
) -> Result<Cond, AllocError>
    ensures { IfOk result (λ c. c
        ≡ bound_condition (names_of_own catalogue.now own.now)
        (check_ranges (own_seen catalogue.now own.now)) condition.now) }
{
    let outside = Ranges::Nothing;
    let names = own_names(own, catalogue);
    let ranges = own_range(own, catalogue, &outside);
    bound_condition(alloc, condition, &names, &ranges)
}

fn own_places(
    alloc: Global,
    own: &Own<'_>,
    catalogue: &Catalogue,
    names: &[Name],
) -> Result<Items<u32>, AllocError>
    ensures { IfOk result (λ ps. ps
        ≡ places_of (own_seen catalogue.now own.now).columns names.now) }
{
    places_of(alloc, &own_columns(own, catalogue), names)
}

fn bound_rule<'a>(
    alloc: Global,
    own: &'a Own<'a>,
    catalogue: &'a Catalogue,
    rule: &'a WrittenRule<'a>,
) -> Result<Rule, AllocError>
    ensures { IfOk result (λ r. r
        ≡ bound_rule catalogue.now (names_of_own catalogue.now own.now)
        (own_seen catalogue.now own.now) (rule_seen rule.now)) }
{
    match rule {
        WrittenRule::NotNull(column) => {
            Ok(Rule::NotNull(own_columns(own, catalogue).place_of(column.as_str())))
        }
        WrittenRule::Unique(nulls, names) => Ok(Rule::Unique(
            *nulls,
            own_places(alloc, own, catalogue, names)?,
        )),
        WrittenRule::PrimaryKey(names) => {
            Ok(Rule::PrimaryKey(own_places(alloc, own, catalogue, names)?))
        }
        WrittenRule::Check(condition) => {
            Ok(Rule::Check(bound_check(alloc, own, catalogue, condition)?))
        }
        WrittenRule::ForeignKey(names, references) => {
            let reference = bound_reference(alloc, own, catalogue, names, references)?;
            Ok(Rule::ForeignKey(reference))
        }
    }
}

// A constraint of this name.
fn bound_constraint<'a>(
    alloc: Global,
    own: &'a Own<'a>,
    catalogue: &'a Catalogue,
    name: Name,
    constraint: &'a WrittenConstraint<'a>,
) -> Result<Constraint, AllocError>
    ensures { IfOk result (λ k. k
        ≡ bound_constraint catalogue.now (names_of_own catalogue.now own.now)
        (own_seen catalogue.now own.now) name (constraint_seen constraint.now)) }
{
    let rule = bound_rule(alloc, own, catalogue, &constraint.rule)?;
    Ok(Constraint {
        name,
        table: own_id(own, catalogue),
        rule,
        deferrable: is_deferrable(constraint.time),
        initially: initial_mode(constraint.time),
    })
}

// The constraints of a CREATE TABLE.
fn bound_constraints<'a>(
    alloc: Global,
    catalogue: &'a Catalogue,
    table: &'a str,
    elements: &'a [TableElement],
) -> Result<Vec<Constraint>, AllocError>
    ensures { IfOk result (λ ks. ks.items
        ≡ map (bound_place catalogue.now (created_table catalogue.now table.now elements.now))
        (enumerate_from 1 (written_constraints elements.now))) }
{
    let own = Own::Created(table, elements);
    let mut constraints = Vec::new(alloc);
    let mut left = Unread::Outside(elements);
    while let Some((constraint, others)) = left.first() {
        let place = constraints.len() as u128 + 1;
        let name = constraint_name(alloc, table, place, constraint.name)?;
        let bound = bound_constraint(alloc, &own, catalogue, name, &constraint)?;
        constraints.push(bound)?;
        left = others;
    }
    Ok(constraints)
}

/// The plan of a CREATE TABLE.
pub fn bound_table(
    alloc: Global,
    catalogue: &Catalogue,
    name: &Name,
    elements: &[TableElement],
) -> Result<Plan, AllocError>
    ensures { IfOk result (λ p. p ≡ bound_table catalogue.now name.now elements.now) }
{
    let columns = bound_columns(alloc, elements)?;
    let constraints = bound_constraints(alloc, catalogue, name.as_str(), elements)?;
    let table = Table {
        name: name.clone()?,
        columns,
    };
    let constraints = Constraints::from_vec(constraints);
    Ok(Plan::Schema(SchemaPlan::CreateTable(table, constraints)))
}

// The plan of an ALTER TABLE of this table: the constraint's name is generated for the place after those that the table has.
fn bound_addition<'a>(
    alloc: Global,
    catalogue: &'a Catalogue,
    place: u32,
    table: &'a Table,
    constraint: &'a WrittenConstraint<'a>,
) -> Result<Plan, AllocError>
    ensures { IfOk result (λ p. p
        ≡ bound_addition catalogue.now (altered_at catalogue.now place table.now)
        (constraint_seen constraint.now)) }
{
    let own = Own::Stored(place, table);
    let next = count_stored(catalogue, place) as u128 + 1;
    let name = constraint_name(alloc, table.name.as_str(), next, constraint.name)?;
    let bound = bound_constraint(alloc, &own, catalogue, name, constraint)?;
    Ok(Plan::Schema(SchemaPlan::AddConstraint(bound)))
}

/// The plan of an ALTER TABLE of the table at this place.
pub fn bound_alteration(
    alloc: Global,
    catalogue: &Catalogue,
    table: TableId,
    constraint: &TableConstraint,
) -> Result<Plan, AllocError>
    ensures { IfOk result (λ p. p
        ≡ bound_alteration catalogue.now table (table_constraint constraint.now)) }
{
    match catalogue.table(table) {
        Some(found) => {
            let written = table_constraint(constraint);
            bound_addition(alloc, catalogue, table.place(), found, &written)
        }
        None => Ok(Plan::Transaction(TransactionPlan::Commit)),
    }
}
