//! Numbers that identify: places in the order of creation.
ghost use Rattle.std.specs.Prelude.{◌≡◌};

use std::marker::{Model, PhantomData};

/// One of the things of a kind, by its place in creation order, from 0. Contracts see it as that number. The type tells
/// numbers of different kinds apart.
#[derive(Clone, Copy, Debug, PartialEq, Eq)]
pub struct Id<K: Copy> {
    place: u32,
    kind: PhantomData<K>,
}

impl<K: Copy> Model for Id<K> {
    ghost use Rattle.std.specs.Prelude.{ℕ};

    ghost Value = { ℕ };

    ghost view = { λ t. t.place };

    ghost inverse = { λ n. record { place = n; kind = record {} } };
}

impl<K: Copy> Id<K> {
    /// The thing at this place.
    pub fn new(place: u32) -> Id<K>
        ensures { result ≡ place }
    {
        Id {
            place,
            kind: PhantomData,
        }
    }

    /// Its place, from 0.
    pub fn place(self) -> u32
        ensures { result ≡ self }
    {
        self.place
    }
}

/// The kind of the numbers of tables.
#[derive(Clone, Copy, Debug, PartialEq, Eq)]
pub struct OfTable;

/// A table, by its place in creation order.
pub type TableId = Id<OfTable>;
