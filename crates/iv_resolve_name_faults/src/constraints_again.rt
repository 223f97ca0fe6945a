//! The constraints of a CREATE TABLE, in the order of the text: the first whose name is in use or comes again, or that
//! has a column twice in a list. If a name or the set can't be allocated, names are compared in place. No call can fail
//! for lack of memory.
ghost use Rattle.std.specs.Prelude.{◌≡◌, ◌+◌, ◌-◌, ◌≤◌, ◌<◌, ◌++◌, ◌∷◌, [], Some, None, IfOk, if◌then◌else◌, length, option_map, take, unwrap_or};
ghost use Rattle.std.specs.List.{list_any};
ghost use Rattle.std.specs.Str.{bytes_eq};
ghost use Rattle.iv_catalogue.specs.Catalogues.{has_constraint};
ghost use Rattle.iv_catalogue.specs.Names.{generated_name, is_among};
ghost use Rattle.iv_resolution.specs.Constraints.{written_constraints};
ghost use Rattle.iv_resolution.specs.Items.{constraint_item, generated_item, in_use_fault, told_if, twice_fault};
ghost use Rattle.iv_resolution.specs.NameFaults.{duplicate_in_constraints};
ghost use Rattle.iv_resolve_tables.specs.Seen.{constraint_seen};
ghost use Rattle.iv_resolve_name_faults.specs.Places.{constraint_names, duplicate_where};
ghost use Rattle.iv_resolve_name_faults.specs.Seen.{fault_seen, item_seen};

use crate::again::is_again;
use crate::catalogued::has_constraint;
use crate::item::{NameFault, NamedItem, first_fault};
use crate::lists::duplicate_in_rule;
use iv_catalogue::{Catalogue, Constraint};
use iv_resolve_scope::NameSet;
use iv_resolve_tables::{
    Unread, WrittenConstraint, are_same, count_constraints, generated, is_named,
};
use iv_syntax::{Name, TableElement};
use std::alloc::{AllocError, Global};

/// A constraint by the name that is given, or by its table and its place.
pub fn item_of_constraint<'t>(table: &'t str, place: u128, given: &'t Option<Name>) -> NamedItem<'t>
    ensures { item_seen result ≡ elim given.entry.now [
      | Some name ↦ constraint_item name
      | None ↦ generated_item table.entry.now place
    ] }
{
    match given {
        Some(name) => NamedItem::Constraint(name.as_str()),
        None => NamedItem::GeneratedConstraint(table, place),
    }
}

// ---- names in use

fn generated_among(constraints: &[Constraint], table: &str, place: u128) -> bool
    ensures { result ≡ list_any
        (λ k. bytes_eq (generated_name table.now place) k.name) constraints.now }
{
    constraints.iter().any(|constraint| is_named(table, place, &None, constraint.name.as_str()))
}

fn generated_is_used(alloc: Global, catalogue: &Catalogue, table: &str, place: u128) -> bool
    ensures { result ≡ has_constraint catalogue.now (generated_name table.now place) }
{
    match generated(alloc, table, place) {
        Ok(name) => has_constraint(catalogue, name.as_str()),
        Err(_) => generated_among(catalogue.constraints(), table, place),
    }
}

fn is_used(
    alloc: Global,
    catalogue: &Catalogue,
    table: &str,
    place: u128,
    given: &Option<Name>,
) -> bool
    ensures { result ≡ has_constraint catalogue.now
        (unwrap_or given.now (generated_name table.now place)) }
{
    match given {
        Some(name) => has_constraint(catalogue, name.as_str()),
        None => generated_is_used(alloc, catalogue, table, place),
    }
}

/// The constraint at this place, if its name is in use.
pub fn constraint_in_use<'t>(
    alloc: Global,
    catalogue: &Catalogue,
    table: &'t str,
    place: u128,
    given: &'t Option<Name>,
) -> Option<NameFault<'t>>
    ensures { option_map fault_seen result ≡ told_if
        (has_constraint catalogue.now
        (unwrap_or given.entry.now (generated_name table.entry.now place)))
        (in_use_fault (elim given.entry.now [
          | Some name ↦ constraint_item name
          | None ↦ generated_item table.entry.now place
        ])) }
{
    if is_used(alloc, catalogue, table, place, given) {
        Some(NameFault::InUse(item_of_constraint(table, place, given)))
    } else {
        None
    }
}

// ---- names that come again

fn constraint_again<'t>(
    again: bool,
    table: &'t str,
    place: u128,
    given: &'t Option<Name>,
) -> Option<NameFault<'t>>
    ensures { option_map fault_seen result ≡ told_if again
        (twice_fault (elim given.entry.now [
          | Some name ↦ constraint_item name
          | None ↦ generated_item table.entry.now place
        ])) }
{
    if again {
        Some(NameFault::Twice(item_of_constraint(table, place, given)))
    } else {
        None
    }
}

// What is wrong with the constraint at this place, if it is known whether one before it has its name.
fn duplicate_in_constraint<'t>(
    alloc: Global,
    catalogue: &Catalogue,
    table: &'t str,
    place: u128,
    constraint: &WrittenConstraint<'t>,
    again: bool,
) -> Option<NameFault<'t>>
    ensures { option_map fault_seen result ≡ duplicate_where again catalogue.now
        table.entry.now place (constraint_seen constraint.now) }
{
    let used = constraint_in_use(alloc, catalogue, table, place, constraint.name);
    let repeated = constraint_again(again, table, place, constraint.name);
    let listed = duplicate_in_rule(alloc, &constraint.rule);
    first_fault(used, first_fault(repeated, listed))
}

fn constraint_is_again(
    alloc: Global,
    set: &mut NameSet,
    table: &str,
    place: u128,
    given: &Option<Name>,
) -> Result<bool, AllocError>
    ensures found { IfOk result (λ found. found
        ≡ is_among set.old (unwrap_or given.now (generated_name table.now place))) }
    ensures names { IfOk result (λ found. set.new
        ≡ (if found then set.old
        else set.old ++ unwrap_or given.now (generated_name table.now place) ∷ [])) }
{
    match given {
        Some(name) => is_again(alloc, set, name.as_str()),
        None => {
            let name = generated(alloc, table, place)?;
            is_again(alloc, set, name.as_str())
        }
    }
}

fn duplicate_after<'t>(
    alloc: Global,
    catalogue: &Catalogue,
    names: &mut NameSet,
    table: &'t str,
    elements: &'t [TableElement],
) -> Result<Option<NameFault<'t>>, AllocError>
    ensures { IfOk result (λ found. option_map fault_seen found
        ≡ duplicate_in_constraints catalogue.now table.entry.now 1 names.old
        (written_constraints elements.entry.now)) }
{
    let count = count_constraints(elements);
    let mut left = Unread::Outside(elements);
    let mut place = 1u128;
    while let Some((constraint, rest)) = left.first() {
        let again = constraint_is_again(alloc, names, table, place, constraint.name)?;
        let fault = duplicate_in_constraint(alloc, catalogue, table, place, &constraint, again);
        if fault.is_some() {
            return Ok(fault);
        }
        left = rest;
        place += 1;
    }
    Ok(None)
}

fn duplicate_by_set<'t>(
    alloc: Global,
    catalogue: &Catalogue,
    table: &'t str,
    elements: &'t [TableElement],
) -> Result<Option<NameFault<'t>>, AllocError>
    ensures { IfOk result (λ found. option_map fault_seen found
        ≡ duplicate_in_constraints catalogue.now table.entry.now 1 []
        (written_constraints elements.entry.now)) }
{
    let mut names = NameSet::new(alloc);
    duplicate_after(alloc, catalogue, &mut names, table, elements)
}

// Whether one of the constraints before the one at this place has its name.
fn comes_before(table: &str, elements: &[TableElement], place: u128, given: &Option<Name>) -> bool
    requires first { 1 ≤ place }
    requires last { place ≤ length (written_constraints elements.now) }
    ensures { result ≡ is_among
        (constraint_names table.now 1 (take (place - 1) (written_constraints elements.now)))
        (unwrap_or given.now (generated_name table.now place)) }
{
    let mut left = Unread::Outside(elements);
    let mut other = 1u128;
    while other < place {
        match left.first() {
            Some((constraint, rest)) => {
                if are_same(table, place, given, other, constraint.name) {
                    return true;
                }
                left = rest;
            }
            None => return false,
        }
        other += 1;
    }
    false
}

fn duplicate_in_place<'t>(
    alloc: Global,
    catalogue: &Catalogue,
    table: &'t str,
    elements: &'t [TableElement],
) -> Option<NameFault<'t>>
    ensures { option_map fault_seen result ≡ duplicate_in_constraints catalogue.now
        table.entry.now 1 [] (written_constraints elements.entry.now) }
{
    let count = count_constraints(elements);
    let mut left = Unread::Outside(elements);
    let mut place = 1u128;
    while let Some((constraint, rest)) = left.first() {
        let again = comes_before(table, elements, place, constraint.name);
        let fault = duplicate_in_constraint(alloc, catalogue, table, place, &constraint, again);
        if fault.is_some() {
            return fault;
        }
        left = rest;
        place += 1;
    }
    None
}

/// The first of these constraints of a CREATE TABLE whose name is in use or comes again, or that has a column twice in a list.
pub fn duplicate_in_constraints<'t>(
    alloc: Global,
    catalogue: &Catalogue,
    table: &'t str,
    elements: &'t [TableElement],
) -> Option<NameFault<'t>>
    ensures { option_map fault_seen result ≡ duplicate_in_constraints catalogue.now
        table.entry.now 1 [] (written_constraints elements.entry.now) }
{
    match duplicate_by_set(alloc, catalogue, table, elements) {
        Ok(found) => found,
        Err(_) => duplicate_in_place(alloc, catalogue, table, elements),
    }
}
