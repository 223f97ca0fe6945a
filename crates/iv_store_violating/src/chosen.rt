//! The chosen constraints, by their numbers.
ghost use Rattle.std.specs.Prelude.{◌≡◌, if◌then◌else◌, Some, None, filter, IfOk};
ghost use Rattle.iv_machine.specs.Databases.{is_chosen, first};
ghost use Rattle.iv_laws_kept.specs.Numbers.{in_rising_order};

use crate::rows::lesser;
use iv_machine::Which;
use iv_syntax::ConstraintMode;
use std::alloc::{AllocError, Global};

/// Whether the constraint of this number is chosen.
pub fn is_chosen(modes: &[ConstraintMode], which: Which, id: usize) -> bool
    ensures { result ≡ is_chosen modes.now which id }
{
    let deferred = matches!(modes.get(id), Some(ConstraintMode::Deferred));
    match which {
        Which::Immediate => !deferred,
        Which::Deferred => deferred,
        Which::All => true,
    }
}

// A number, if its constraint is meant.
fn if_chosen(modes: &[ConstraintMode], which: Which, id: usize) -> Option<u64>
    ensures { result ≡ (if is_chosen modes.now which id then Some id else None) }
{
    if is_chosen(modes, which, id) {
        Some(id as u64)
    } else {
        None
    }
}

/// The least of these numbers whose constraint is chosen. It takes one look at each.
pub fn least_chosen(modes: &[ConstraintMode], which: Which, ids: &[usize]) -> Option<u64>
    ensures { result ≡ first (in_rising_order (filter (is_chosen modes.now which) ids.now)) }
{
    let mut least = None;
    for id in ids {
        least = lesser(least, if_chosen(modes, which, *id));
    }
    least
}

/// Those of these numbers whose constraint is chosen.
pub fn list_chosen(
    alloc: Global,
    modes: &[ConstraintMode],
    which: Which,
    ids: &[usize],
) -> Result<Vec<u64>, AllocError>
    ensures { IfOk result (λ v. v.items ≡ filter (is_chosen modes.now which) ids.now) }
{
    let mut chosen = Vec::new(alloc);
    for id in ids {
        if is_chosen(modes, which, *id) {
            chosen.push(*id as u64)?;
        }
    }
    Ok(chosen)
}
