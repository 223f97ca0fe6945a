//! The order of values and their sameness.
ghost use Rattle.std.specs.Prelude.{◌≡◌, chars};
ghost use Rattle.std.specs.Cmp.Lexicographic.{slice_cmp};
ghost use Rattle.std.specs.Ordering.{nat_cmp};
ghost use Rattle.iv_value.specs.References.{value_of};
ghost use Rattle.iv_value.specs.Values.{order, is_null, is_same};

use crate::value::{Value, ValueRef};
use std::cmp::Ordering;

/// Compares two values; `None` if either is null, or if they are of two kinds
/// (ISO/IEC 9075-2:1999, "comparison predicate").
pub fn compare(left: &Value, right: &Value) -> Option<Ordering>
    ensures { result ≡ order left.now right.now }
{
    left.as_ref().compare(right.as_ref())
}

/// Whether two values are the same; null is the same as null.
pub fn same(left: &Value, right: &Value) -> bool
    ensures { result ≡ is_same left.now right.now }
{
    left.as_ref().same(right.as_ref())
}

impl<'a> ValueRef<'a> {
    /// `compare` of the values that are borrowed.
    pub fn compare(self, other: ValueRef<'_>) -> Option<Ordering>
        ensures { result ≡ order (value_of self.entry) (value_of other.entry) }
    {
        match (self, other) {
            (ValueRef::Int(left), ValueRef::Int(right)) => Some(left.cmp(&right)),
            (ValueRef::Text(left), ValueRef::Text(right)) => {
                Some(compare_texts(left.as_str(), right.as_str()))
            }
            _ => None,
        }
    }

    /// `same` of the values that are borrowed.
    pub fn same(self, other: ValueRef<'_>) -> bool
        ensures { result ≡ is_same (value_of self.entry) (value_of other.entry) }
    {
        match (self, other) {
            (ValueRef::Null, ValueRef::Null) => true,
            (ValueRef::Int(left), ValueRef::Int(right)) => left == right,
            (ValueRef::Text(left), ValueRef::Text(right)) => left.as_str() == right.as_str(),
            _ => false,
        }
    }

    /// Whether it is null.
    pub fn is_null(self) -> bool
        ensures { result ≡ is_null (value_of self.entry) }
    {
        matches!(self, ValueRef::Null)
    }
}

fn compare_texts(left: &str, right: &str) -> Ordering
    ensures { result ≡ slice_cmp nat_cmp (chars left.now) (chars right.now) }
{
    left.chars().cmp(right.chars())
}
