//! Names of constraints, as they are written or generated.
ghost use Rattle.std.specs.Prelude.{◌≡◌, IfOk, string_bytes, unwrap_or};
ghost use Rattle.std.specs.Str.{bytes_eq};
ghost use Rattle.iv_catalogue.specs.Names.{generated_name};

use itoa::Buffer;
use iv_syntax::Name;
use iv_value::Text;
use std::alloc::{AllocError, Global};

/// The name of the constraint at this place of a table.
#[tactic(auto, unfolding(iv_catalogue::specs::Names::generated_name))]
pub fn generated(alloc: Global, table: &str, place: u128) -> Result<String, AllocError>
    ensures { IfOk result (λ name. string_bytes name ≡ generated_name table.now place) }
{
    format!(in alloc; "{table}_C{place}")
}

/// The same of a constraint that may have a name of its own.
pub fn constraint_name(
    alloc: Global,
    table: &str,
    place: u128,
    given: &Option<Name>,
) -> Result<Name, AllocError>
    ensures { IfOk result (λ name. name ≡ unwrap_or given.now (generated_name table.now place)) }
{
    match given {
        Some(name) => name.clone(),
        None => {
            let text = generated(alloc, table, place)?;
            Ok(Name::new(Text::new(alloc, text.as_str())?))
        }
    }
}

// Whether a name is the one that is generated for this place.
#[tactic(auto, using(iv_catalogue::proofs::WrittenNames::stripped_is), unfolding(iv_catalogue::specs::Names::generated_name))]
fn is_generated(name: &str, table: &str, place: u128) -> bool
    ensures { result ≡ bytes_eq name.now (generated_name table.now place) }
{
    let mut buffer = Buffer::new();
    let digits = buffer.format(place);
    match name.as_bytes().strip_prefix(table.as_bytes()) {
        Some(rest) => match rest.strip_prefix(b"_C") {
            Some(last) => last == digits.as_bytes(),
            None => false,
        },
        None => false,
    }
}

#[tactic(auto, using(iv_catalogue::proofs::WrittenNames::same_front), unfolding(iv_catalogue::specs::Names::generated_name))]
fn are_generated_alike(table: &str, left: u128, right: u128) -> bool
    ensures { result ≡ bytes_eq (generated_name table.now left) (generated_name table.now right) }
{
    let mut first = Buffer::new();
    let mut second = Buffer::new();
    first.format(left) == second.format(right)
}

/// Whether a name is that of the constraint at this place. It allocates nothing.
#[tactic(auto, using(iv_catalogue::proofs::WrittenNames::same_turned))]
pub fn is_named(table: &str, place: u128, given: &Option<Name>, name: &str) -> bool
    ensures { result ≡ bytes_eq (unwrap_or given.now (generated_name table.now place)) name.now }
{
    match given {
        Some(own) => own.as_str() == name,
        None => is_generated(name, table, place),
    }
}

// Whether a constraint has the name that is generated for another place.
fn is_generated_for(table: &str, left: u128, given: &Option<Name>, right: u128) -> bool
    ensures { result ≡ bytes_eq (unwrap_or given.now (generated_name table.now left))
        (generated_name table.now right) }
{
    match given {
        Some(name) => is_generated(name.as_str(), table, right),
        None => are_generated_alike(table, left, right),
    }
}

/// Whether the constraints at these places have one name. It allocates nothing.
pub fn are_same(
    table: &str,
    left: u128,
    left_given: &Option<Name>,
    right: u128,
    right_given: &Option<Name>,
) -> bool
    ensures { result ≡ bytes_eq (unwrap_or left_given.now (generated_name table.now left))
        (unwrap_or right_given.now (generated_name table.now right)) }
{
    match right_given {
        Some(name) => is_named(table, left, left_given, name.as_str()),
        None => is_generated_for(table, left, left_given, right),
    }
}
