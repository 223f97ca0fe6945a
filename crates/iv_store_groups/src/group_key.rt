//! The key of one group.
ghost use Rattle.std.specs.Prelude.{◌≡◌, IfOk};

use iv_key::{Key, single};
use iv_value::Value;
use smallvec::SmallVec;
use std::alloc::{AllocError, Global};

// How many values stand in the group itself. With a place more, each group would take sixteen bytes more.
const INLINE: usize = 2;

/// The values of a key: two stand here themselves, more are a list of their own.
pub type GroupKey = SmallVec<Value, INLINE>;

/// The values of a key, copied.
pub fn copied(alloc: Global, key: &Key<'_>) -> Result<GroupKey, AllocError>
    ensures { IfOk result (λ copy. copy.items ≡ key.now) }
{
    match single(key)? {
        Some(value) => {
            let mut values = SmallVec::new(alloc);
            values.push(value)?;
            Ok(values)
        }
        None => Ok(SmallVec::from_vec(key.to_values(alloc)?)),
    }
}
