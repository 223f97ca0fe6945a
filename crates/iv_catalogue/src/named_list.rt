//! Lists of definitions with distinct names.
ghost use Rattle.std.specs.Prelude.{◌≡◌, ◌<◌, ℕ, List, [], ◌∷◌, ◌++◌, false, length, map, position, take, remove, OnOk, OnErr, IfSome};
ghost use Rattle.std.specs.List.{list_any};
ghost use Rattle.std.specs.Str.{bytes_eq};
ghost use Rattle.iv_catalogue.specs.Names.{has_repeated};

use crate::name_index::NameIndex;
use iv_syntax::Named;
use std::alloc::{AllocError, Global};
use std::marker::Model;

/// A list of items with distinct names, each found in constant time. Contracts see it as the list.
#[derive(Drop)]
pub struct NamedList<T: Named> {
    items: Vec<T>,
    names: NameIndex,
}

impl<T: Named> Model for NamedList<T> {
    ghost use Rattle.std.specs.Prelude.{List, map, ◌≡◌};
    ghost use Rattle.std.specs.Coded.{coded_list};

    ghost Value = { List T };

    ghost coded = { coded_list T.code };

    ghost view = { λ l. l.items.items };

    ghost invariant = { λ l. l.names ≡ map T.named l.items.items };
}

// Adds the names of the items. If an allocation fails the names are as before.
fn add_names<T: Named>(names: &mut NameIndex, items: &[T]) -> Result<(), AllocError>
    requires { has_repeated names.old (map T.named items.now) ≡ false }
    ensures ok { OnOk result (names.new ≡ names.old ++ map T.named items.now) }
    ensures err { OnErr result (names.new ≡ names.old) }
{
    let count = names.len();
    for item in items {
        if let Err(error) = names.push(item.name()) {
            names.truncate(count);
            return Err(error);
        }
    }
    Ok(())
}

impl<T: Named> NamedList<T> {
    /// An empty list. It allocates nothing.
    pub fn new(alloc: Global) -> Self
        ensures { result ≡ [] }
    {
        NamedList {
            items: Vec::new(alloc),
            names: NameIndex::new(alloc),
        }
    }

    /// The items.
    pub fn as_slice(&self) -> &[T]
        ensures { result.now ≡ self.now }
    {
        self.items.as_slice()
    }

    /// How many items there are.
    pub fn len(&self) -> usize
        ensures { result ≡ length self.now }
    {
        self.items.len()
    }

    /// The place of the item of this name.
    pub fn place_of(&self, name: &str) -> Option<usize>
        ensures place { result ≡ position (λ item. bytes_eq name.now (T.named item)) self.now }
        ensures within { IfSome result (λ place. place < length self.now) }
    {
        self.names.place_of(name)
    }
}

impl<T: Named + Drop> NamedList<T> {
    /// Adds an item at the end. If an allocation fails, the list is as before.
    pub fn push(&mut self, item: T) -> Result<(), AllocError>
        requires { list_any (λ other. bytes_eq (T.named item) (T.named other)) self.old ≡ false }
        ensures ok { OnOk result (self.new ≡ self.old ++ item ∷ []) }
        ensures err { OnErr result (self.new ≡ self.old) }
    {
        self.items.reserve(1)?;
        self.names.push(item.name())?;
        match self.items.push(item) {
            Ok(()) => Ok(()),
            Err(_) => unreachable!(),
        }
    }

    /// Adds items at the end. If an allocation fails, the list is as before.
    pub fn append(&mut self, items: Vec<T>) -> Result<(), AllocError>
        requires { has_repeated (map T.named self.old) (map T.named items.items) ≡ false }
        ensures ok { OnOk result (self.new ≡ self.old ++ items.items) }
        ensures err { OnErr result (self.new ≡ self.old) }
    {
        let mut more = items;
        self.items.reserve(more.len())?;
        add_names(&mut self.names, more.as_slice())?;
        match self.items.append(&mut more) {
            Ok(()) => Ok(()),
            Err(_) => unreachable!(),
        }
    }

    /// Keeps the first `count` items. It allocates nothing.
    pub fn truncate(&mut self, count: usize)
        ensures { self.new ≡ take count self.old }
    {
        self.items.truncate(count);
        self.names.truncate(count);
    }

    /// Removes the item at this place. It allocates nothing.
    pub fn remove(&mut self, place: usize)
        requires { place < length self.old }
        ensures { self.new ≡ remove self.old place }
    {
        let _ = self.items.remove(place);
        self.names.remove(place);
    }
}
