//! The first column of a CREATE TABLE that comes again, and the text before it. With a set of names the time is nearly
//! linear in the text. If the set can't be allocated, it is looked for in place, in quadratic time. No call can fail
//! for lack of memory.
ghost use Rattle.std.specs.Prelude.{◌≡◌, [], IfOk, map};
ghost use Rattle.std.specs.Option.{option_copied};
ghost use Rattle.iv_catalogue.specs.Names.{is_among};
ghost use Rattle.iv_resolution.specs.Constraints.{written_columns};
ghost use Rattle.iv_resolution.specs.Items.{first_again};
ghost use Rattle.iv_resolution.specs.NameFaults.{before_column_again};

use crate::again::is_again;
use iv_resolve_scope::NameSet;
use iv_syntax::TableElement;
use std::alloc::{AllocError, Global};

/// The first column that comes again, and the elements before it: all of them if no column does.
#[derive(Clone, Copy)]
pub struct ColumnAgain<'t> {
    pub before: &'t [TableElement],
    pub name: Option<&'t str>,
}

fn column_again_after<'t>(
    alloc: Global,
    set: &mut NameSet,
    elements: &'t [TableElement],
) -> Result<ColumnAgain<'t>, AllocError>
    ensures name { IfOk result (λ found. option_copied found.name
        ≡ first_again (λ n. n) set.old (map (λ c. c.name) (written_columns elements.entry.now))) }
    ensures before { IfOk result (λ found. found.before.now
        ≡ before_column_again set.old elements.entry.now) }
{
    for place in 0..elements.len() {
        if let TableElement::Column(column) = &elements[place] {
            let name = column.name.as_str();
            if is_again(alloc, set, name)? {
                return Ok(ColumnAgain {
                    before: &elements[..place],
                    name: Some(name),
                });
            }
        }
    }
    Ok(ColumnAgain {
        before: elements,
        name: None,
    })
}

fn column_again_by_set<'t>(
    alloc: Global,
    elements: &'t [TableElement],
) -> Result<ColumnAgain<'t>, AllocError>
    ensures name { IfOk result (λ found. option_copied found.name
        ≡ first_again (λ n. n) [] (map (λ c. c.name) (written_columns elements.entry.now))) }
    ensures before { IfOk result (λ found. found.before.now
        ≡ before_column_again [] elements.entry.now) }
{
    let mut set = NameSet::new(alloc);
    column_again_after(alloc, &mut set, elements)
}

fn is_column(elements: &[TableElement], name: &str) -> bool
    ensures { result ≡ is_among (map (λ c. c.name) (written_columns elements.now)) name.now }
{
    for element in elements {
        if let TableElement::Column(column) = element {
            if name == column.name.as_str() {
                return true;
            }
        }
    }
    false
}

fn column_again_in_place<'t>(elements: &'t [TableElement]) -> ColumnAgain<'t>
    ensures name { option_copied result.name
        ≡ first_again (λ n. n) [] (map (λ c. c.name) (written_columns elements.entry.now)) }
    ensures before { result.before.now ≡ before_column_again [] elements.entry.now }
{
    for place in 0..elements.len() {
        if let TableElement::Column(column) = &elements[place] {
            let name = column.name.as_str();
            if is_column(&elements[..place], name) {
                return ColumnAgain {
                    before: &elements[..place],
                    name: Some(name),
                };
            }
        }
    }
    ColumnAgain {
        before: elements,
        name: None,
    }
}

/// The first column of a CREATE TABLE that comes again, and the elements before it.
pub fn column_again<'t>(alloc: Global, elements: &'t [TableElement]) -> ColumnAgain<'t>
    ensures name { option_copied result.name
        ≡ first_again (λ n. n) [] (map (λ c. c.name) (written_columns elements.entry.now)) }
    ensures before { result.before.now ≡ before_column_again [] elements.entry.now }
{
    match column_again_by_set(alloc, elements) {
        Ok(found) => found,
        Err(_) => column_again_in_place(elements),
    }
}
