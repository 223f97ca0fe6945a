//! Texts between quotes.
ghost use Rattle.std.specs.Prelude.{◌≡◌, ◌∷◌, ◌++◌, [], IfOk, string_bytes, flat_map};
ghost use Rattle.iv_template.specs.Literals.{quote_doubled};

use std::alloc::{AllocError, Global};

// The characters, with two quotes for each one.
fn with_quotes_doubled(alloc: Global, characters: &str) -> Result<String, AllocError>
    ensures { IfOk result (λ doubled. string_bytes doubled ≡ flat_map quote_doubled characters.now) }
{
    characters.replace(alloc, "'", "''")
}

/// The characters between single quotes, with two for each one.
pub fn quoted_text(alloc: Global, characters: &str) -> Result<String, AllocError>
    ensures { IfOk result (λ text. string_bytes text ≡ 39 ∷ (flat_map quote_doubled characters.now ++ 39 ∷ [])) }
{
    let doubled = with_quotes_doubled(alloc, characters)?;
    let mut text = String::new(alloc);
    text.push_str("'")?;
    text.push_str(&doubled)?;
    text.push_str("'")?;
    Ok(text)
}
