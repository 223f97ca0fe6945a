//! A set of names. If a set can't be allocated, whoever looks compares the names in place, so no cause fails for lack
//! of memory.
ghost use Rattle.std.specs.Prelude.{◌≡◌, [], ◌∷◌, ◌++◌, IfOk, not, if◌then◌else◌};
ghost use Rattle.iv_catalogue.specs.Names.{is_among};

use indexmap::IndexMap;
use std::alloc::{AllocError, Global};
use std::marker::Model;

/// Distinct names, of which each is found in constant time. Contracts see the list of the names.
#[derive(Drop)]
pub struct NameSet {
    places: IndexMap<String, ()>,
}

impl Model for NameSet {
    ghost use Rattle.std.specs.Prelude.{List, ℕ, map, string_bytes};
    ghost use Rattle.indexmap.specs.IndexMap.{keys};

    ghost Value = { List (List ℕ) };

    ghost view = { λ n. map string_bytes (keys n.places) };
}

impl NameSet {
    /// No names. It allocates nothing.
    pub fn new(alloc: Global) -> NameSet
        ensures { result ≡ [] }
    {
        NameSet {
            places: IndexMap::new(alloc),
        }
    }

    /// Adds a name, and tells whether it is new.
    pub fn add(&mut self, alloc: Global, name: &str) -> Result<bool, AllocError>
        ensures new { IfOk result (λ added. added ≡ not (is_among self.old name.now)) }
        ensures names { IfOk result (λ added. self.new
            ≡ (if added then self.old ++ name.now ∷ [] else self.old)) }
    {
        if self.places.contains_key(name) {
            return Ok(false);
        }
        let owned = String::from_str(alloc, name)?;
        self.places.insert(owned, ())?;
        Ok(true)
    }
}
