//! The items of REFERENCING by their names.
ghost use Rattle.std.specs.Prelude.{◌≡◌, ◌&&◌};
ghost use Rattle.std.specs.Str.{bytes_eq};
ghost use Rattle.iv_resolve_scope.specs.FirstItems.{first_side};
ghost use Rattle.iv_resolve_scope.specs.Seen.{items_seen};

use crate::referencing_index::{ReferencingIndex, names_what};
use iv_expr::Side;
use iv_syntax::{Referencing, TransitionName};

/// The items of REFERENCING, with an index of them or without; none if there is no trigger.
#[derive(Clone, Copy)]
pub enum ReferencingItems<'a> {
    Listed(&'a [Referencing]),
    Indexed(&'a ReferencingIndex),
}

fn first_side(items: &[Referencing], what: TransitionName, name: &str) -> Option<Side>
    ensures { result ≡ first_side what items.now name.now }
{
    for item in items {
        if names_what(item, what) && name == item.name.as_str() {
            return Some(item.side);
        }
    }
    None
}

impl<'a> ReferencingItems<'a> {
    /// The side of the first row variable of that name, or of the first transition table.
    pub fn side(&self, what: TransitionName, name: &str) -> Option<Side>
        ensures { result ≡ first_side what (items_seen self.now) name.now }
    {
        match self {
            ReferencingItems::Listed(items) => first_side(items, what, name),
            ReferencingItems::Indexed(index) => index.side(what, name),
        }
    }
}
