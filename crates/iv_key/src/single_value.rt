//! The value of a key of one column.
ghost use Rattle.std.specs.Prelude.{◌≡◌, ◌≢◌, ◌∷◌, [], IfOk, IfSome, None, length};
ghost use Rattle.iv_key.specs.Keys.{key_of};

use crate::key::{Key, value_at};
use iv_value::Value;
use std::alloc::AllocError;

// The only value of some columns.
fn only(columns: &[u32], row: &[Value]) -> Result<Option<Value>, AllocError>
    ensures single { IfOk result (λ found. IfSome found (λ value. key_of columns.now row.now ≡ value ∷ [])) }
    ensures none { IfOk result (λ found. found ≡ None → length (key_of columns.now row.now) ≢ 1) }
{
    match columns {
        [column] => Ok(Some(value_at(row, *column).to_value()?)),
        _ => Ok(None),
    }
}

/// The only value of a key of one column, copied; a text is shared.
pub fn single(key: &Key<'_>) -> Result<Option<Value>, AllocError>
    ensures single { IfOk result (λ found. IfSome found (λ value. key.now ≡ value ∷ [])) }
    ensures none { IfOk result (λ found. found ≡ None → length key.now ≢ 1) }
{
    only(key.columns, key.row)
}
