//! What can be compared whole.
ghost use Rattle.std.specs.Prelude.{◌≡◌, true};

/// What can be compared whole.
pub trait Same {
    /// Whether both are the same.
    fn is_same(&self, other: &Self) -> bool
        ensures { result ≡ true → self.now ≡ other.now };
}

impl Same for u32 {
    fn is_same(&self, other: &u32) -> bool {
        *self == *other
    }
}

/// Whether two lists are the same.
pub fn are_same<T: Same>(left: &[T], right: &[T]) -> bool
    ensures { result ≡ true → left.now ≡ right.now }
{
    let mut items = left;
    let mut others = right;
    while let Some((item, more)) = items.split_first() {
        let Some((other, rest)) = others.split_first() else {
            return false;
        };
        if !item.is_same(other) {
            return false;
        }
        items = more;
        others = rest;
    }
    others.is_empty()
}
