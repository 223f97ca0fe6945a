//! The literals of values.
ghost use Rattle.std.specs.Prelude.{◌≡◌, ◌∷◌, ◌++◌, [], IfOk, string_bytes, flat_map};
ghost use Rattle.iv_value.specs.declared.value.Value.TheVariants as value;
ghost use Rattle.iv_template.specs.Literals.{quote_doubled, literal_text, IsSmall};

use itoa::Buffer;
use iv_value::Value;
use std::alloc::{AllocError, Global};

fn push_int(text: &mut String, number: i64) -> Result<(), AllocError>
    ensures written { IfOk result (λ _. string_bytes text.new ≡ string_bytes text.old ++ literal_text (value.Int number)) }
    ensures small { IsSmall (value.Int number) }
{
    if number == i64::MIN {
        return text.push_str("( - 9223372036854775807 - 1 )");
    }
    let mut buffer = Buffer::new();
    if number < 0 {
        text.push_str("( ")?;
        text.push_str(buffer.format(number))?;
        return text.push_str(" )");
    }
    text.push_str(buffer.format(number))
}

// The characters, with two quotes for each one.
fn with_quotes_doubled(alloc: Global, characters: &str) -> Result<String, AllocError>
    ensures { IfOk result (λ doubled. string_bytes doubled ≡ flat_map quote_doubled characters.now) }
{
    characters.replace(alloc, "'", "''")
}

fn push_text(alloc: Global, text: &mut String, characters: &str) -> Result<(), AllocError>
    ensures { IfOk result (λ _. string_bytes text.new ≡ string_bytes text.old ++ literal_text (value.Text characters.now)) }
{
    let doubled = with_quotes_doubled(alloc, characters)?;
    text.push_str("'")?;
    text.push_str(&doubled)?;
    text.push_str("'")
}

fn push_literal(alloc: Global, text: &mut String, value: &Value) -> Result<(), AllocError>
    ensures written { IfOk result (λ _. string_bytes text.new ≡ string_bytes text.old ++ literal_text value.now) }
    ensures small { IsSmall value.now }
{
    match value {
        Value::Null => text.push_str("NULL"),
        Value::Int(number) => push_int(text, *number),
        Value::Text(characters) => push_text(alloc, text, characters.as_str()),
    }
}

/// Writes the characters before a hole, and the literal of the value in its place with a space on each
/// side.
pub fn push_filled(
    alloc: Global,
    text: &mut String,
    front: &str,
    value: &Value,
) -> Result<(), AllocError>
    ensures written { IfOk result (λ _. string_bytes text.new
        ≡ string_bytes text.old ++ (front.now ++ 32 ∷ (literal_text value.now ++ 32 ∷ []))) }
    ensures small { IfOk result (λ _. IsSmall value.now) }
{
    text.push_str(front)?;
    text.push_str(" ")?;
    push_literal(alloc, text, value)?;
    text.push_str(" ")
}
