//! How many rows an INSERT has.
ghost use Rattle.std.specs.Prelude.{◌<◌, ◌≤◌, length};

use iv_expr::Row;
use iv_value::Value;

/// The most rows of an INSERT.
const MOST_ROWS: usize = 10_000;

/// The length that the text of an INSERT doesn't exceed, unless one row does.
const LONGEST_TEXT: u64 = 524_288;

// No less than the bytes of a value's literal, with the comma and the space after it.
fn longest_literal(value: &Value) -> u64 {
    match value {
        Value::Null => 6,
        Value::Int(_) => 32,
        Value::Text(characters) => (characters.as_str().len() as u64)
            .saturating_mul(2)
            .saturating_add(4),
    }
}

// No less than the bytes of a row's tuple, with the comma and the line end after it.
fn longest_tuple(values: &[Value]) -> u64 {
    let mut length = 8u64;
    for value in values {
        length = length.saturating_add(longest_literal(value));
    }
    length
}

/// How many of the rows the next INSERT has: as many as fit, and at least one if there is one.
pub fn next_batch(rows: &[Row]) -> usize
    ensures few { result ≤ length rows.now }
    ensures some { 0 < length rows.now → 0 < result }
{
    let mut count = 0usize;
    let mut length = 0u64;
    for row in rows {
        length = length.saturating_add(longest_tuple(row.values()));
        if count > 0 && (length > LONGEST_TEXT || count >= MOST_ROWS) {
            return count;
        }
        count += 1;
    }
    count
}
