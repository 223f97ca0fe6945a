//! Keys that are borrowed from a row.
ghost use Rattle.std.specs.Prelude.{◌≡◌, IfOk};
ghost use Rattle.iv_value.specs.References.{value_of};
ghost use Rattle.iv_value.specs.Values.{all_same};
ghost use Rattle.iv_key.specs.Keys.{value_at, key_of, none_null, all_null};
ghost use Rattle.iv_key.specs.Hashes.{hash_of};

use crate::hash::hash_columns;
use iv_value::{Value, ValueRef};
use std::alloc::{AllocError, Global};
use std::marker::Model;

/// The values of some columns of a row, in the order of the columns, without a copy. Contracts see it as these
/// values. A column that the row doesn't have counts as null. Each call takes time in proportion to the columns.
#[derive(Drop)]
pub struct Key<'a> {
    pub(crate) columns: &'a [u32],
    pub(crate) row: &'a [Value],
}

impl<'a> Model for Key<'a> {
    ghost use Rattle.std.specs.Prelude.{List};
    ghost use Rattle.iv_value.specs.declared.value.Value.{Value as Cell};
    ghost use Rattle.iv_key.specs.Keys.{key_of};

    ghost Value = { List Cell };

    ghost view = { λ k. key_of k.columns.now k.row.now };
}

impl<'a> Key<'a> {
    /// The key of a row in these columns.
    pub fn new(columns: &'a [u32], row: &'a [Value]) -> Key<'a>
        ensures { result ≡ key_of columns.entry.now row.entry.now }
    {
        Key { columns, row }
    }

    /// Whether no value is null.
    pub fn none_null(&self) -> bool
        ensures { result ≡ none_null self.now }
    {
        none_null(self.columns, self.row)
    }

    /// Whether every value is null.
    pub fn all_null(&self) -> bool
        ensures { result ≡ all_null self.now }
    {
        all_null(self.columns, self.row)
    }

    /// Whether another key has the same values, with null the same as null.
    pub fn same(&self, other: &Key<'_>) -> bool
        ensures { result ≡ all_same self.now other.now }
    {
        same_key(self.columns, self.row, other.columns, other.row)
    }

    /// Whether the key has these values.
    pub fn has_values(&self, values: &[Value]) -> bool
        ensures { result ≡ all_same values.now self.now }
    {
        has_values(values, self.columns, self.row)
    }

    /// The values, as a list of their own; texts are shared.
    pub fn to_values(&self, alloc: Global) -> Result<Vec<Value>, AllocError>
        ensures { IfOk result (λ values. values.items ≡ self.now) }
    {
        copied(alloc, self.columns, self.row)
    }

    /// The hash of 64 bits, the same in every run. A key of one integer is its own hash; in others a last integer is
    /// added to the lowest 24 bits of a hash by SipHash with a fixed key.
    pub fn hash(&self) -> u64
        ensures { result ≡ hash_of self.now }
    {
        hash_columns(self.columns, self.row)
    }
}

/// The value of a column, null if there is none.
pub fn value_at(row: &[Value], column: u32) -> ValueRef<'_>
    ensures { value_of result ≡ value_at row.now column }
{
    match row.get(column as usize) {
        Some(value) => value.as_ref(),
        None => ValueRef::Null,
    }
}

// Whether no column of a key is null.
fn none_null(columns: &[u32], row: &[Value]) -> bool
    ensures { result ≡ none_null (key_of columns.now row.now) }
{
    match columns {
        [] => true,
        [column, rest @ ..] => !value_at(row, *column).is_null() && none_null(rest, row),
    }
}

// Whether all columns of a key are null.
fn all_null(columns: &[u32], row: &[Value]) -> bool
    ensures { result ≡ all_null (key_of columns.now row.now) }
{
    match columns {
        [] => true,
        [column, rest @ ..] => value_at(row, *column).is_null() && all_null(rest, row),
    }
}

// Whether two rows have the same key, each in its own columns.
fn same_key(columns: &[u32], row: &[Value], others: &[u32], other: &[Value]) -> bool
    ensures { result ≡ all_same (key_of columns.now row.now) (key_of others.now other.now) }
{
    match columns {
        [] => others.is_empty(),
        [column, rest @ ..] => match others {
            [] => false,
            [other_column, more @ ..] => {
                value_at(row, *column).same(value_at(other, *other_column))
                    && same_key(rest, row, more, other)
            }
        },
    }
}

// Whether a row has these values in some columns.
fn has_values(values: &[Value], columns: &[u32], row: &[Value]) -> bool
    ensures { result ≡ all_same values.now (key_of columns.now row.now) }
{
    match values {
        [] => columns.is_empty(),
        [value, more @ ..] => match columns {
            [] => false,
            [column, rest @ ..] => {
                value.as_ref().same(value_at(row, *column)) && has_values(more, rest, row)
            }
        },
    }
}

// The values of some columns.
fn copied(alloc: Global, columns: &[u32], row: &[Value]) -> Result<Vec<Value>, AllocError>
    ensures { IfOk result (λ values. values.items ≡ key_of columns.now row.now) }
{
    let mut values = Vec::with_capacity(alloc, columns.len())?;
    for column in columns {
        values.push(value_at(row, *column).to_value()?)?;
    }
    Ok(values)
}
