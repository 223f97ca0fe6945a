//! The constraints of a CREATE TABLE, one after the other.
ghost use Rattle.std.specs.Prelude.{◌≡◌, ◌<◌, ◌-◌, ◌^◌, length};
ghost use Rattle.iv_resolution.specs.Constraints.{element_constraints, written_constraints};
ghost use Rattle.iv_resolve_tables.specs.Unread.{first_seen, left_seen};

use crate::written::{WrittenConstraint, column_constraint, table_constraint};
use iv_syntax::{ColumnConstraint, Name, TableElement};

/// The constraints that are left: those of a column whose first ones are taken, and those of the elements after it.
#[derive(Clone, Copy)]
pub enum Unread<'a> {
    Inside(&'a Name, &'a [ColumnConstraint], &'a [TableElement]),
    Outside(&'a [TableElement]),
}

fn first_outside<'a>(elements: &'a [TableElement]) -> Option<(WrittenConstraint<'a>, Unread<'a>)>
    ensures { first_seen result ≡ written_constraints elements.entry.now }
{
    let mut rest = elements;
    while let Some((element, others)) = rest.split_first() {
        match element {
            TableElement::Constraint(constraint) => {
                return Some((table_constraint(constraint), Unread::Outside(others)));
            }
            TableElement::Column(column) => {
                if let Some((constraint, more)) = column.constraints.as_slice().split_first() {
                    let first = column_constraint(&column.name, constraint);
                    return Some((first, Unread::Inside(&column.name, more, others)));
                }
            }
        }
        rest = others;
    }
    None
}

impl<'a> Unread<'a> {
    /// The first of them, with those after it.
    pub fn first(&self) -> Option<(WrittenConstraint<'a>, Unread<'a>)>
        ensures { first_seen result ≡ left_seen self.now }
    {
        match self {
            Unread::Outside(elements) => first_outside(elements),
            Unread::Inside(name, constraints, elements) => match constraints.split_first() {
                Some((constraint, more)) => Some((
                    column_constraint(name, constraint),
                    Unread::Inside(name, more, elements),
                )),
                None => first_outside(elements),
            },
        }
    }
}

/// How many constraints an element has.
pub fn count_element(element: &TableElement) -> usize
    ensures { result ≡ length (element_constraints element.now) }
{
    match element {
        TableElement::Column(column) => column.constraints.as_slice().len(),
        TableElement::Constraint(_) => 1,
    }
}

/// How many constraints there are.
#[tactic(auto, using(crate::proofs::Elements::count_next))]
pub fn count_constraints(elements: &[TableElement]) -> u128
    ensures count { result ≡ length (written_constraints elements.now) }
    ensures bound { result < 2 ^ 128 - 1 }
{
    let mut count = 0u128;
    for element in elements {
        count += count_element(element) as u128;
    }
    count
}
