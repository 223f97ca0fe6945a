//! A value as a cell.
ghost use Rattle.std.specs.Prelude.{◌≡◌};
ghost use Rattle.iv_shown.specs.Cells.{cell_of, text_of};

use iv_value::Value;

/// A value: its kind, which is 0 for NULL, 1 for an integer and 2 for a text; the integer; and how many bytes the text
/// has.
#[repr(C)]
#[derive(Drop)]
pub struct Cell {
    pub kind: u64,
    pub integer: i64,
    pub length: u64,
}

/// The cell of a value.
pub fn cell_of(value: &Value) -> Cell
    ensures { result ≡ cell_of value.now }
{
    match value {
        Value::Null => Cell {
            kind: 0,
            integer: 0,
            length: 0,
        },
        Value::Int(integer) => Cell {
            kind: 1,
            integer: *integer,
            length: 0,
        },
        Value::Text(text) => Cell {
            kind: 2,
            integer: 0,
            length: text.as_str().len() as u64,
        },
    }
}

/// The bytes of a text, none of any other value.
pub fn text_of(value: &Value) -> &[u8]
    ensures { result.now ≡ text_of value.now }
{
    match value {
        Value::Text(text) => text.as_str().as_bytes(),
        _ => &[],
    }
}
