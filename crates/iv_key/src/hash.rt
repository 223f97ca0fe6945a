//! Hashes of keys.
ghost use Rattle.std.specs.Prelude.{◌≡◌};
ghost use Rattle.iv_value.specs.References.{value_of};
ghost use Rattle.iv_key.specs.Keys.{key_of, value_at as column_value};
ghost use Rattle.iv_key.specs.Hashes.{ended, fed, hash_after, hash_alone, hash_of, near};

use crate::key::value_at;
use iv_value::{Value, ValueRef};
use std::hash::{DefaultHasher, Hasher};

// Feeds a value: null as only a mark, the others after another mark, and a text after its length.
fn feed(hasher: &mut DefaultHasher, value: ValueRef<'_>)
    ensures { hasher.new ≡ fed hasher.old (value_of value.entry) }
{
    match value {
        ValueRef::Null => hasher.write(&[0]),
        ValueRef::Int(number) => {
            hasher.write(&[1]);
            hasher.write_u64(number.cast_unsigned());
        }
        ValueRef::Text(text) => {
            let bytes = text.as_str().as_bytes();
            hasher.write(&[1]);
            hasher.write_u64(bytes.len() as u64);
            hasher.write(bytes);
        }
    }
}

// A hash whose upper 40 bits are those of all values, and in whose lowest 24 an integer is added to the hash of those before it.
fn near(all: u64, before: u64, number: i64) -> u64
    ensures { result ≡ near all before number }
{
    let sum = before.wrapping_add(number.cast_unsigned());
    (all & 0xffff_ffff_ff00_0000) | (sum & 0xff_ffff)
}

// The hash of a key by its last value, after what was fed before it.
fn end(hasher: &mut DefaultHasher, value: ValueRef<'_>) -> u64
    ensures { result ≡ ended hasher.old (value_of value.entry) }
{
    let before = hasher.finish();
    feed(hasher, value);
    match value {
        ValueRef::Int(number) => near(hasher.finish(), before, number),
        _ => hasher.finish(),
    }
}

// The hash of a key by what was fed before a column, the column and those after it.
#[tactic(auto, unfolding(crate::specs::Hashes::hash_after))]
fn hash_rest(hasher: &mut DefaultHasher, column: u32, rest: &[u32], row: &[Value]) -> u64
    ensures { result ≡ hash_after hasher.old (column_value row.now column) (key_of rest.now row.now) }
{
    match rest {
        [] => end(hasher, value_at(row, column)),
        [next, more @ ..] => {
            feed(hasher, value_at(row, column));
            hash_rest(hasher, *next, more, row)
        }
    }
}

// The hash of a key of one value.
fn hash_one(value: ValueRef<'_>) -> u64
    ensures { result ≡ hash_alone (value_of value.entry) }
{
    match value {
        ValueRef::Int(number) => number.cast_unsigned(),
        _ => {
            let mut hasher = DefaultHasher::new();
            feed(&mut hasher, value);
            hasher.finish()
        }
    }
}

/// The hash of a row's key in these columns. A key of one integer is its own hash; in others a last integer is added to
/// the hash of the values before it, in the lowest 24 bits.
#[tactic(auto, unfolding(crate::specs::Hashes::hash_of))]
pub fn hash_columns(columns: &[u32], row: &[Value]) -> u64
    ensures { result ≡ hash_of (key_of columns.now row.now) }
{
    match columns {
        [] => DefaultHasher::new().finish(),
        [column] => hash_one(value_at(row, *column)),
        [column, next, rest @ ..] => {
            let mut hasher = DefaultHasher::new();
            feed(&mut hasher, value_at(row, *column));
            hash_rest(&mut hasher, *next, rest, row)
        }
    }
}
