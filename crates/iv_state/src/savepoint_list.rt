//! The savepoints of a transaction by name.
ghost use Rattle.std.specs.Prelude.{◌≡◌, ◌<◌, ◌^◌, ◌≤◌, ◌++◌, ◌∷◌, [], None, length, map, take, get_or, string_bytes, IfOk, IfSome, OnOk};
ghost use Rattle.std.specs.List.{remove};
ghost use Rattle.iv_state.specs.Saved.{saved_names, unnamed};
ghost use Rattle.iv_state.specs.Saving.{last_named};

use indexmap::IndexMap;
use iv_modes::Modes;
use iv_syntax::Name;
use iv_value::Text;
use std::alloc::{AllocError, Global};
use std::marker::Model;

// Names that are these texts.
fn names_of(alloc: Global, texts: &[String]) -> Result<Vec<Name>, AllocError>
    ensures { IfOk result (λ names. names.items ≡ map string_bytes texts.now) }
{
    let mut names = Vec::with_capacity(alloc, texts.len())?;
    for text in texts {
        names.push(Name::new(Text::new(alloc, text.as_str())?))?;
    }
    Ok(names)
}

/// The savepoints of a transaction, the oldest first: each has a distinct name, and its modes if SET CONSTRAINTS had
/// changed them. A look-up by name takes constant time. Contracts see the list, and how many more it takes without an
/// allocation.
#[derive(Drop)]
pub(crate) struct SavepointList {
    modes: IndexMap<String, Option<Modes>>,
}

impl Model for SavepointList {
    ghost use Rattle.indexmap.specs.IndexMap.{spare};
    ghost use Rattle.std.specs.Prelude.{map};
    ghost use Rattle.iv_state.specs.Saved.{Savepoints, saved_of};

    ghost Value = { Savepoints };

    ghost view = { λ s. record { saves = map saved_of s.modes.entries; room = spare s.modes } };
}

impl SavepointList {
    // No savepoint. It allocates nothing.
    pub(crate) fn new(alloc: Global) -> SavepointList
        ensures { result.saves ≡ [] }
    {
        SavepointList {
            modes: IndexMap::new(alloc),
        }
    }

    // How many there are.
    pub(crate) fn len(&self) -> usize
        ensures len { result ≡ length self.now.saves }
        ensures small { result < 2 ^ 63 }
    {
        self.modes.len()
    }

    // The place of the one of a name.
    pub(crate) fn place_of(&self, name: &str) -> Option<usize>
        ensures place { result ≡ last_named name.now self.now.saves }
        ensures within { IfSome result (λ place. place < length self.now.saves) }
        ensures small { IfSome result (λ place. place < 2 ^ 63) }
    {
        let place = self.modes.get_index_of(name)?;
        (place < self.modes.len()).then_some(place)
    }

    // The modes of the one at a place, if they had been changed.
    pub(crate) fn modes_at(&self, place: usize) -> &Option<Modes>
        requires { place < length self.now.saves }
        ensures { result.now ≡ (get_or self.now.saves place unnamed).modes }
    {
        match self.modes.get_index(place) {
            Some((_, modes)) => modes,
            None => unreachable!(),
        }
    }

    // The name of each.
    pub(crate) fn names(&self, alloc: Global) -> Result<Vec<Name>, AllocError>
        ensures { IfOk result (λ names. names.items ≡ saved_names self.now.saves) }
    {
        names_of(alloc, self.modes.keys().as_slice())
    }

    // Makes room for one more.
    pub(crate) fn make_room(&mut self) -> Result<(), AllocError>
        ensures saves { self.new.saves ≡ self.old.saves }
        ensures room { OnOk result (0 < self.new.room) }
    {
        self.modes.reserve(1)
    }

    // Adds one as the newest. It allocates nothing.
    pub(crate) fn push(&mut self, name: String, modes: Option<Modes>)
        requires absent { last_named (string_bytes name) self.old.saves ≡ None }
        requires room { 0 < self.old.room }
        ensures { self.new.saves ≡ self.old.saves
            ++ record { name = string_bytes name; modes = modes } ∷ [] }
    {
        match self.modes.insert(name, modes) {
            Ok(_) => {}
            Err(_) => unreachable!(),
        }
    }

    // Takes the one at a place out.
    pub(crate) fn remove(&mut self, place: usize)
        ensures saves { self.new.saves ≡ remove self.old.saves place }
        ensures room { self.old.room ≤ self.new.room }
    {
        let _ = self.modes.shift_remove_index(place);
    }

    // Keeps the oldest `count`.
    pub(crate) fn truncate(&mut self, count: usize)
        ensures { self.new.saves ≡ take count self.old.saves }
    {
        self.modes.truncate(count);
    }

    // Takes all out.
    pub(crate) fn clear(&mut self)
        ensures { self.new.saves ≡ [] }
    {
        self.modes.clear();
    }
}
