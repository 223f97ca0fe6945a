//! One group: a key and the rows that hold it.
ghost use Rattle.std.specs.Prelude.{◌≡◌, ◌<◌, length, true, false, IfOk, OnOk, OnErr};
ghost use Rattle.iv_numbers.specs.Rows.{IsRising, added, has_row, no_rows, put, removed, roomy};
ghost use Rattle.std.specs.Borrow.{sem};
ghost use Rattle.iv_store_groups.specs.Groups.{changed, tight};
ghost use Rattle.iv_store_groups.specs.Closing.{GroupStays};
ghost use Rattle.iv_value.specs.Values.{all_same};

use crate::group_key::{GroupKey, copied};
use crate::group_rows::GroupRows;
use iv_key::Key;
use iv_numbers::HeldRows;
use std::alloc::{AllocError, Global};
use std::marker::Model;

/// A key and the rows that hold it. A key of one or two values with one row allocates nothing of its own.
#[derive(Drop)]
pub struct Group {
    key: GroupKey,
    rows: GroupRows,
}

impl Model for Group {
    ghost use Rattle.iv_store_groups.specs.Groups.{GroupOf};

    ghost Value = { GroupOf };

    ghost view = { λ g. record { key = g.key.items; held = g.rows } };
}

impl Group {
    /// The group of a key, with no row and with room for one. The values of the key are copied.
    pub fn with_room(alloc: Global, key: &Key<'_>) -> Result<Group, AllocError>
        ensures { IfOk result (λ g. g ≡ record { key = key.now; held = roomy no_rows }) }
    {
        Ok(Group {
            key: copied(alloc, key)?,
            rows: GroupRows::with_room(),
        })
    }

    /// The group of a key, with one row and no room. The values of the key are copied.
    pub fn with_row(alloc: Global, key: &Key<'_>, row: u64) -> Result<Group, AllocError>
        ensures { IfOk result (λ g. g ≡ record { key = key.now; held = added row no_rows }) }
    {
        Ok(Group {
            key: copied(alloc, key)?,
            rows: GroupRows::with_row(row),
        })
    }

    /// Whether it is the group of this key.
    pub fn is_of(&self, key: &Key<'_>) -> bool
        ensures { result ≡ all_same self.now.key key.now }
    {
        key.has_values(self.key.as_slice())
    }

    /// Its rows.
    pub fn rows(&self) -> HeldRows<'_>
        ensures value { result ≡ self.now.held.rows }
        ensures rising { IsRising result }
    {
        self.rows.held()
    }

    /// Its rows as one slice, which are moved for it.
    pub fn rows_closed(&mut self) -> &[u64]
        ensures* stays { sem 𝓛 (GroupStays self.entry) }
        ensures value { result.now ≡ self.old.held.rows }
        ensures rising { IsRising result.now }
    {
        self.rows.closed()
    }

    /// How many more rows it takes without an allocation.
    pub fn room(&self) -> usize
        ensures { result ≡ self.now.held.room }
    {
        self.rows.room()
    }

    /// Ensures that it has room for one row at least.
    pub fn make_room(&mut self, alloc: Global) -> Result<(), AllocError>
        ensures ok { OnOk result (self.new ≡ changed roomy self.old) }
        ensures err { OnErr result (self.new ≡ self.old) }
    {
        self.rows.make_room(alloc)
    }

    /// Adds a row. It uses one of the room, and allocates if there is none.
    pub fn add(&mut self, alloc: Global, row: u64) -> Result<(), AllocError>
        requires { has_row row self.old.held.rows ≡ false }
        ensures ok { OnOk result (self.new ≡ changed (added row) self.old) }
        ensures err { OnErr result (self.new ≡ self.old) }
    {
        self.rows.add(alloc, row)
    }

    /// Puts a row that isn't among its rows. It uses one of the room, and allocates nothing.
    pub fn put(&mut self, row: u64)
        requires { 0 < self.old.held.room }
        ensures { self.new ≡ changed (put row) self.old }
    {
        self.rows.put(row);
    }

    /// Removes a row. Its place is kept as room.
    pub fn remove(&mut self, row: u64)
        requires { has_row row self.old.held.rows ≡ true }
        ensures { self.new ≡ changed (removed row) self.old }
    {
        self.rows.remove(row);
    }

    /// Gives its room up, and memory if its rows use less than a quarter of it.
    pub fn give_room_back(&mut self)
        requires { 0 < length self.old.held.rows }
        ensures { self.new ≡ changed tight self.old }
    {
        self.rows.give_room_back();
    }

    /// Whether it has no row, or far more room than rows. No clause says so: it tells whether something is to be given
    /// back.
    pub fn is_loose(&self) -> bool {
        let count = self.rows().len();
        count == 0 || self.room() / 4 > count
    }
}
