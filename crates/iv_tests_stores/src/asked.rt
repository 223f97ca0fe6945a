//! What a store asks of its calls, as tests, and how it is asserted.
ghost use Rattle.std.specs.Prelude.{◌≡◌, ◌++◌, ◌==◌, true};
ghost use Rattle.std.specs.List.{list_all, list_any};
ghost use Rattle.iv_catalogue.specs.Catalogues.{AllOn};
ghost use Rattle.iv_machine.specs.ReferentialActions.{foreign_key};
ghost use Rattle.iv_store.specs.Stores.{all_among, are_same_columns, fits_columns, fits_table, has_key, is_fit, is_named_key};

use iv_catalogue::{Column, Constraint, ForeignKey, Rule, Table};
use iv_expr::TableId;
use iv_value::{Fit, Value, fit};
use std::process::Abort;

/// Asserts that a condition holds, or else tells what isn't so. An `assert!` costs twice as much to prove as this call.
pub fn assert_that(rt: &impl Abort, holds: bool, otherwise: &str)
    ensures { holds ≡ true }
{
    if !holds {
        rt.panic(otherwise);
    }
}

/// Whether each constraint is on the table of this number.
pub fn are_on(table: usize, constraints: &[Constraint]) -> bool
    ensures { result ≡ true → AllOn table constraints.now }
{
    match constraints {
        [] => true,
        [first, rest @ ..] => first.table.place() as usize == table && are_on(table, rest),
    }
}

// Whether a column is one of these.
fn is_among(column: u32, columns: &[u32]) -> bool
    ensures { result ≡ list_any (λ d. column == d) columns.now }
{
    columns.iter().any(|other| column == *other)
}

// Whether each column is one of these.
fn all_among(some: &[u32], columns: &[u32]) -> bool
    ensures { result ≡ all_among some.now columns.now }
{
    some.iter().all(|column| is_among(*column, columns))
}

// The same columns, in any order.
fn are_same_columns(some: &[u32], others: &[u32]) -> bool
    ensures { result ≡ are_same_columns some.now others.now }
{
    all_among(some, others) && all_among(others, some)
}

// Whether a constraint is the key that a foreign key names.
fn is_named_key(fk: &ForeignKey, constraint: &Constraint) -> bool
    ensures { result ≡ is_named_key fk.now constraint.now }
{
    if constraint.table.place() != fk.referenced.place() {
        return false;
    }
    match &constraint.rule {
        Rule::Unique(_, columns) => are_same_columns(columns.as_slice(), fk.key.as_slice()),
        Rule::PrimaryKey(columns) => are_same_columns(columns.as_slice(), fk.key.as_slice()),
        _ => false,
    }
}

// Whether the key that a foreign key names is among these constraints.
fn is_named_among(fk: &ForeignKey, constraints: &[Constraint]) -> bool
    ensures { result ≡ list_any (is_named_key fk.now) constraints.now }
{
    constraints
        .iter()
        .any(|constraint| is_named_key(fk, constraint))
}

// Whether the key that a rule names, if it is a foreign key, is among the old constraints or the new ones.
fn has_key(olds: &[Constraint], more: &[Constraint], rule: &Rule) -> bool
    ensures { result ≡ has_key (olds.now ++ more.now) (foreign_key rule.now) }
{
    match rule {
        Rule::ForeignKey(fk) => is_named_among(fk, olds) || is_named_among(fk, more),
        _ => true,
    }
}

/// Whether the key that each new foreign key names is among the old constraints or the new ones.
pub fn have_keys(olds: &[Constraint], more: &[Constraint]) -> bool
    ensures { result ≡ list_all (λ c. has_key (olds.now ++ more.now) (foreign_key c.rule)) more.now }
{
    more.iter()
        .all(|constraint| has_key(olds, more, &constraint.rule))
}

// Whether a value fits.
fn is_fit(fit: Fit) -> bool
    ensures { result ≡ is_fit fit }
{
    matches!(fit, Fit::Yes)
}

// Whether there is one value for each column, which fits it.
fn fits_columns(columns: &[Column], values: &[Value]) -> bool
    ensures { result ≡ fits_columns columns.now values.now }
{
    match columns {
        [] => values.is_empty(),
        [column, columns @ ..] => match values {
            [] => false,
            [value, values @ ..] => {
                is_fit(fit(value, column.kind)) && fits_columns(columns, values)
            }
        },
    }
}

/// Whether there is one value for each column of the table of this number, which fits it.
pub fn fits(tables: &[Table], table: TableId, values: &[Value]) -> bool
    ensures { result ≡ fits_table tables.now table values.now }
{
    match tables.get(table.place() as usize) {
        Some(found) => fits_columns(found.columns.as_slice(), values),
        None => false,
    }
}
