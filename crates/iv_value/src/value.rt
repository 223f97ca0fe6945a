//! Values, truth values, the kinds of columns and how a value fits one.
ghost use Rattle.std.specs.Prelude.{◌≡◌, IfOk};
ghost use Rattle.iv_value.specs.References.{Copied, value_of};
ghost use Rattle.iv_value.specs.declared.value.Value.TheVariants as variant;

use crate::shared_text::Text;
use std::alloc::{AllocError, Global};

/// A value of a row; null unless it is said otherwise.
#[derive(Default, Drop)]
pub enum Value {
    #[default]
    Null,
    Int(i64),
    Text(Text),
}

/// A value that is borrowed, so that it is read without a copy of its text.
#[derive(Clone, Copy)]
pub enum ValueRef<'a> {
    Null,
    Int(i64),
    Text(&'a Text),
}

/// A truth value of the three-valued logic, in its order: `Unknown` is between the others.
#[derive(Clone, Copy, Debug, PartialEq, Eq)]
pub enum Truth {
    False,
    Unknown,
    True,
}

/// What a column holds: signed 64-bit integers, or texts of at most so many characters.
#[derive(Clone, Copy, Debug, PartialEq, Eq)]
pub enum Kind {
    Integer,
    Varchar(u16),
}

/// Whether a value fits a column (ISO/IEC 9075-2:1999, "Store assignment").
#[derive(Clone, Copy, Debug, PartialEq, Eq)]
pub enum Fit {
    Yes,
    WrongKind,
    TooLong,
}

/// The value that is this text.
pub fn text(alloc: Global, characters: &str) -> Result<Value, AllocError>
    ensures { IfOk result (λ v. v ≡ variant.Text characters.now) }
{
    Ok(Value::Text(Text::new(alloc, characters)?))
}

impl Value {
    /// The same value, borrowed.
    pub fn as_ref(&self) -> ValueRef<'_>
        ensures { value_of result ≡ self.now }
    {
        match self {
            Value::Null => ValueRef::Null,
            Value::Int(number) => ValueRef::Int(*number),
            Value::Text(text) => ValueRef::Text(text),
        }
    }
}

impl<'a> ValueRef<'a> {
    /// The value itself. It allocates only the copy of a text.
    pub fn to_value(self) -> Result<Value, AllocError>
        ensures { Copied (value_of self.entry) result }
    {
        match self {
            ValueRef::Null => Ok(Value::Null),
            ValueRef::Int(number) => Ok(Value::Int(number)),
            ValueRef::Text(text) => Ok(Value::Text(text.clone()?)),
        }
    }
}

/// The copy shares the text.
impl Clone for Value {
    ghost is_clone = { λ x y. y ≡ x };

    fn clone(&self) -> Result<Value, AllocError> {
        match self {
            Value::Null => Ok(Value::Null),
            Value::Int(number) => Ok(Value::Int(*number)),
            Value::Text(text) => Ok(Value::Text(text.clone()?)),
        }
    }
}
