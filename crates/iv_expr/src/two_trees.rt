//! Two trees in boxes.
ghost use Rattle.std.specs.Prelude.{◌≡◌, IfOk};

use sqlite_items::Boxed;
use std::alloc::{AllocError, Global};

/// Both in boxes, for a tree made of two. It is generic, so that if an allocation fails the second is dropped by a
/// call: the drop of a tree that is written out for each variant takes long to prove.
pub fn boxes<T: Drop>(alloc: Global, a: T, b: T) -> Result<(Boxed<T>, Boxed<T>), AllocError>
    ensures { IfOk result (λ p. (p.0 ≡ a) × (p.1 ≡ b)) }
{
    match Boxed::new(alloc, a) {
        Ok(a) => Ok((a, Boxed::new(alloc, b)?)),
        Err(refused) => {
            drop(b);
            Err(refused)
        }
    }
}
