//! Rows by their numbers and keys: what referential actions borrow.
ghost use Rattle.std.specs.Prelude.{◌≡◌, ℕ, ◌+◌, ◌≤◌, Bool, true, IfOk};
ghost use Rattle.std.specs.Option.{option_copied};
ghost use Rattle.iv_machine.specs.Databases.{row_at};
ghost use Rattle.iv_store.specs.Lookups.{counted_children};
ghost use Rattle.iv_store.specs.Stores.{StoreState, RisingNumbers, children_of};

use iv_catalogue::ConstraintId;
use iv_expr::StoredRow;
use iv_key::Key;
use std::alloc::{AllocError, Global};

/// Rows by number and by the keys that they refer to. There is no scan of a table. Contracts see a store as the
/// tables and constraints that were added to it, its database and the marked databases.
pub trait ReferencingRows {
    /// What the store is seen as.
    ghost view: { Self → StoreState };

    /// How many look-ups of keys were counted.
    ghost lookups: { Self → ℕ };

    /// Whether each look-up of a key is counted.
    ghost counts: { Bool };

    /// The allocator that the store takes memory from.
    fn allocator(&self) -> Global;

    /// The row of a number.
    fn row(&self, number: u64) -> Option<&StoredRow>
        ensures { option_copied result ≡ row_at (view self.now).base.rows number };

    /// The numbers of the rows that hold a key by a foreign key, rising; none if the constraint isn't a foreign key. A
    /// store that counts look-ups counts one, even if an allocation fails.
    fn children(&mut self, foreign_key: ConstraintId, key: &Key<'_>) -> Result<Vec<u64>, AllocError>
        ensures numbers { IfOk result (λ v. v.items ≡
            children_of (view self.old) foreign_key key.now) }
        ensures rising { IfOk result (λ v. RisingNumbers 0 v.items) }
        ensures kept { view self.new ≡ view self.old }
        ensures grows { lookups self.old ≤ lookups self.new }
        ensures looked_up { lookups self.new ≤ lookups self.old + 1 }
        ensures counted { counts ≡ true → lookups self.new ≡
            counted_children (view self.old) foreign_key key.now (lookups self.old) };

    /// How many look-ups of keys were counted; the count stays at 2^64 - 1 once it is there.
    fn looked_up(&self) -> u64
        ensures { result ≡ lookups self.now };
}
