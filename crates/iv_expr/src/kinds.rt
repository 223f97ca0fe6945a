//! The kinds of the columns of the innermost ranges.
ghost use Rattle.std.specs.Prelude.{◌≡◌, ◌∷◌, slice_get};
ghost use Rattle.std.specs.Option.{option_copied};
ghost use Rattle.iv_expr.specs.References.{outer};

use iv_value::Kind;
use std::marker::Model;

/// The kinds of the innermost ranges, the innermost first. Contracts see it as their list.
#[derive(Drop)]
pub struct RangeKinds<'a> {
    kinds: &'a [Kind],
    up: Option<&'a RangeKinds<'a>>,
}

impl<'a> Model for RangeKinds<'a> {
    ghost use Rattle.std.specs.Prelude.{List, ◌∷◌, length};
    ghost use Rattle.std.specs.Option.{option_copied};
    ghost use Rattle.iv_value.specs.declared.value.Kind.{Kind as Column};
    ghost use Rattle.iv_expr.specs.References.{outer};

    ghost Value = { List (List Column) };

    ghost view = { λ a. a.kinds.now ∷ outer (option_copied a.up) };

    ghost size = { length };

    ghost use Rattle.std.proofs.Common.{arith};

    ghost size_decreases = { λ a h. Prim.grind arith };
}

impl<'a> RangeKinds<'a> {
    /// The kinds of a range inside of others.
    pub fn new(kinds: &'a [Kind], up: Option<&'a RangeKinds<'a>>) -> RangeKinds<'a>
        ensures { result ≡ kinds.entry.now ∷ outer (option_copied up.entry) }
    {
        RangeKinds { kinds, up }
    }

    /// The kinds of a range, counted outward from the innermost, which is 0; nothing for one that is further out.
    pub fn at(&self, depth: u32) -> Option<&[Kind]>
        ensures { option_copied result ≡ slice_get self.now depth }
    {
        if depth == 0 {
            return Some(self.kinds);
        }
        match self.up {
            Some(kinds) => kinds.at(depth - 1),
            None => None,
        }
    }
}
