//! Names.
ghost use Rattle.std.specs.Prelude.{◌≡◌};
ghost use Rattle.std.specs.List.{list_all};
ghost use Rattle.iv_resolution.specs.Writable.{are_names, is_digit, is_name, is_name_byte, is_name_list, is_name_list_or_none};
ghost use Rattle.iv_resolution.specs.Writable.{is_name_or_none, is_upper_case, starts_name};

use iv_syntax::{LONGEST_NAME, Name};
use sqlite_items::Items;

fn is_upper_case(byte: u8) -> bool
    ensures { result ≡ is_upper_case byte }
{
    (byte >= b'A' && byte <= b'Z') || byte == b'_'
}

fn is_digit(byte: u8) -> bool
    ensures { result ≡ is_digit byte }
{
    byte >= b'0' && byte <= b'9'
}

fn is_name_byte(byte: u8) -> bool
    ensures { result ≡ is_name_byte byte }
{
    is_upper_case(byte) || is_digit(byte)
}

fn starts_name(name: &[u8]) -> bool
    ensures { result ≡ starts_name name.now }
{
    match name {
        [] => false,
        [byte, ..] => is_upper_case(*byte),
    }
}

fn are_name_bytes(name: &[u8]) -> bool
    ensures { result ≡ list_all is_name_byte name.now }
{
    name.iter().all(|byte| is_name_byte(*byte))
}

/// Whether it is a name of the language: 1 to 128 letters in upper case, digits and `_`, and no digit first.
pub fn is_name(name: &str) -> bool
    ensures { result ≡ is_name name.now }
{
    let bytes = name.as_bytes();
    starts_name(bytes) && (are_name_bytes(bytes) && bytes.len() <= LONGEST_NAME)
}

/// The same of a name that may be left out.
pub fn is_name_or_none(name: &Option<Name>) -> bool
    ensures { result ≡ is_name_or_none name.now }
{
    match name {
        Some(name) => is_name(name.as_str()),
        None => true,
    }
}

/// Whether all of them are names.
pub fn are_names(names: &[Name]) -> bool
    ensures { result ≡ are_names names.now }
{
    names.iter().all(|name| is_name(name.as_str()))
}

/// Whether it is a list of at least one name.
pub fn is_name_list(names: &[Name]) -> bool
    ensures { result ≡ is_name_list names.now }
{
    names.len() != 0 && are_names(names)
}

/// The same of a list that may be left out.
pub fn is_name_list_or_none(names: &Option<Items<Name>>) -> bool
    ensures { result ≡ is_name_list_or_none names.now }
{
    match names {
        Some(names) => is_name_list(names.as_slice()),
        None => true,
    }
}
