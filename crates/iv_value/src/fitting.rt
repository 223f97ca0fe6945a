//! Whether a value fits a column.
ghost use Rattle.std.specs.Prelude.{◌≡◌, chars, if◌then◌else◌, length, nat_le};
ghost use Rattle.iv_value.specs.Values.{fit_of};
ghost use Rattle.iv_value.specs.declared.value.Fit.TheVariants as fits;

use crate::value::{Fit, Kind, Value};

/// Whether a value fits a column of this kind; null fits each. The length of a text is its count of characters
/// (Unicode scalar values), not of bytes.
pub fn fit(value: &Value, kind: Kind) -> Fit
    ensures { result ≡ fit_of value.now kind }
{
    match (value, kind) {
        (Value::Null, _) | (Value::Int(_), Kind::Integer) => Fit::Yes,
        (Value::Text(text), Kind::Varchar(most)) => fit_text(text.as_str(), most),
        _ => Fit::WrongKind,
    }
}

fn fit_text(text: &str, most: u16) -> Fit
    ensures { result ≡ if nat_le (length (chars text.now)) most then fits.Yes else fits.TooLong }
{
    if length_of(text) <= most as usize {
        Fit::Yes
    } else {
        Fit::TooLong
    }
}

// The count of a text's characters.
fn length_of(text: &str) -> usize
    ensures { result ≡ length (chars text.now) }
{
    text.chars().count()
}
