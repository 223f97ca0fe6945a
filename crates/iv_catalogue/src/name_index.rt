//! Distinct names in the order of a list, each with its place.
ghost use Rattle.std.specs.Prelude.{◌≡◌, ◌<◌, ℕ, List, [], ◌∷◌, ◌++◌, false, length, position, take, remove, OnOk, OnErr, IfSome};
ghost use Rattle.std.specs.Str.{bytes_eq};
ghost use Rattle.iv_catalogue.specs.Names.{is_among};

use indexmap::IndexMap;
use std::alloc::{AllocError, Global};
use std::marker::Model;

/// Distinct names, each found in constant time. Contracts see the list of the names.
#[derive(Drop)]
pub struct NameIndex {
    names: IndexMap<String, ()>,
}

impl Model for NameIndex {
    ghost use Rattle.std.specs.Prelude.{List, ℕ, map, string_bytes};
    ghost use Rattle.indexmap.specs.IndexMap.{keys};

    ghost Value = { List (List ℕ) };

    ghost view = { λ n. map string_bytes (keys n.names) };
}

impl NameIndex {
    /// An empty index. It allocates nothing.
    pub fn new(alloc: Global) -> NameIndex
        ensures { result ≡ [] }
    {
        NameIndex {
            names: IndexMap::new(alloc),
        }
    }

    /// How many names there are.
    pub fn len(&self) -> usize
        ensures { result ≡ length self.now }
    {
        self.names.len()
    }

    /// The place of a name.
    pub fn place_of(&self, name: &str) -> Option<usize>
        ensures { result ≡ position (bytes_eq name.now) self.now }
    {
        self.names.get_index_of(name)
    }

    /// Adds a name at the end. If an allocation fails, the names are as before.
    pub fn push(&mut self, name: &str) -> Result<(), AllocError>
        requires { is_among self.old name.now ≡ false }
        ensures ok { OnOk result (self.new ≡ self.old ++ name.now ∷ []) }
        ensures err { OnErr result (self.new ≡ self.old) }
    {
        let owned = String::from_str(*self.names.allocator(), name)?;
        self.names.insert(owned, ())?;
        Ok(())
    }

    /// Keeps the first `count` names. It allocates nothing.
    pub fn truncate(&mut self, count: usize)
        ensures { self.new ≡ take count self.old }
    {
        self.names.truncate(count);
    }

    /// Removes the name at this place. It allocates nothing.
    pub fn remove(&mut self, place: usize)
        ensures { self.new ≡ remove self.old place }
    {
        let _ = self.names.shift_remove_index(place);
    }
}
