//! Whether a row is of the kinds of a table's columns.
ghost use Rattle.std.specs.Prelude.{◌≡◌, true};
ghost use Rattle.iv_expr.specs.Searches.{Fits, IsText};
ghost use Rattle.iv_expr.specs.Suiting.{of_sort, sort_of_kind};

use crate::asking::recall_value;
use iv_value::{Kind, Value};

fn is_of(value: &Value, kind: Kind) -> bool
    ensures sort { result ≡ true → of_sort (sort_of_kind kind) value.now ≡ true }
    ensures text { IsText value.now }
{
    recall_value(value.as_ref());
    match (value, kind) {
        (Value::Null, _) => true,
        (Value::Int(_), Kind::Integer) => true,
        (Value::Text(_), Kind::Varchar(_)) => true,
        _ => false,
    }
}

/// Whether a row has one value for each of these kinds, null or of its kind. The length of a text isn't looked at.
pub fn fits(kinds: &[Kind], row: &[Value]) -> bool
    ensures { result ≡ true → Fits kinds.now row.now }
{
    match kinds {
        [] => row.is_empty(),
        [kind, more @ ..] => match row {
            [] => false,
            [value, rest @ ..] => is_of(value, *kind) && fits(more, rest),
        },
    }
}
