//! Foreign keys by the tables that they are on.
ghost use Rattle.std.specs.Prelude.{◌≡◌, ◌<◌, ◌≤◌, ◌^◌, ◌==◌, ◌++◌, ◌∷◌, [], ℕ, if◌then◌else◌, get_or, set, length, slice_get, IfOk, OnOk};
ghost use Rattle.std.specs.Option.{option_copied};
ghost use Rattle.iv_exec_actions.specs.AffectedForeignKey.{affected_from};
ghost use Rattle.iv_exec_actions.specs.ByTable.{on_table, at_places};

use crate::affected::{AffectedForeignKey, affected_of};
use iv_catalogue::Constraint;
use iv_expr::{Change, TableId};
use sqlite_items::Items;
use std::alloc::{AllocError, Global};
use std::marker::Model;

/// Foreign keys that act on keys which a wave removed, found by their table. Contracts see them all, in creation order.
#[derive(Drop)]
pub struct ByTable<'a> {
    all: Vec<AffectedForeignKey<'a>>,
    places: Vec<Items<usize>>,
}

impl<'a> Model for ByTable<'a> {
    ghost use Rattle.std.specs.Prelude.{◌≡◌, ℕ, List, [], get_or};
    ghost use Rattle.iv_exec_actions.specs.AffectedForeignKey.{AffectedForeignKey as Seen};
    ghost use Rattle.iv_exec_actions.specs.ByTable.{on_table, at_places};

    ghost Value = { List Seen };

    ghost view = { λ x. x.all.items };

    ghost invariant = { λ x. (table : ℕ)
        → at_places x.all.items (get_or x.places.items table []) ≡ on_table table x.all.items };
}

// Adds empty lists until there is one of this table.
fn widen(alloc: Global, lists: &mut Vec<Items<usize>>, table: usize) -> Result<(), AllocError>
    ensures wide { OnOk result (table < length lists.new.items) }
    ensures same { OnOk result ((t : ℕ)
        → get_or lists.new.items t [] ≡ get_or lists.old.items t []) }
{
    while lists.len() <= table {
        lists.push(Items::new(alloc))?;
    }
    Ok(())
}

fn push_place(lists: &mut Vec<Items<usize>>, table: usize, place: usize) -> Result<(), AllocError>
    requires { table < length lists.old.items }
    ensures { OnOk result (lists.new.items ≡
        set lists.old.items table (get_or lists.old.items table [] ++ place ∷ [])) }
{
    let places = &mut lists[table];
    places.push(place)
}

// Adds a place to those of a table.
fn note_place(
    alloc: Global,
    lists: &mut Vec<Items<usize>>,
    table: TableId,
    place: usize,
) -> Result<(), AllocError>
    ensures { OnOk result ((t : ℕ) → get_or lists.new.items t [] ≡
        (if table == t then get_or lists.old.items t []
        ++ place ∷ [] else get_or lists.old.items t [])) }
{
    let table = table.place() as usize;
    widen(alloc, lists, table)?;
    push_place(lists, table, place)
}

// The places of the foreign keys on each table.
fn places_of(
    alloc: Global,
    affected_keys: &[AffectedForeignKey<'_>],
) -> Result<Vec<Items<usize>>, AllocError>
    ensures { IfOk result (λ v. (t : ℕ) →
        at_places affected_keys.now (get_or v.items t []) ≡ on_table t affected_keys.now) }
{
    let mut lists = Vec::new(alloc);
    for (place, affected) in affected_keys.iter().enumerate() {
        note_place(alloc, &mut lists, affected.table(), place)?;
    }
    Ok(lists)
}

// The places of a table; none if there is no list of it.
fn places_at(lists: &[Items<usize>], table: usize) -> &[usize]
    ensures { result.now ≡ get_or lists.now table [] }
{
    match lists.get(table) {
        Some(places) => places.as_slice(),
        None => &[],
    }
}

/// The foreign keys that act after these changes.
pub fn affected_by_table<'a>(
    alloc: Global,
    constraints: &'a [Constraint],
    changes: &'a [Change],
) -> Result<ByTable<'a>, AllocError>
    requires { length constraints.now ≤ 2 ^ 31 }
    ensures { IfOk result (λ x. x ≡ affected_from changes.entry.now 0 constraints.entry.now) }
{
    let all = affected_of(alloc, constraints, changes)?;
    let places = places_of(alloc, all.as_slice())?;
    Ok(ByTable { all, places })
}

impl<'a> ByTable<'a> {
    /// All of them, in creation order.
    pub fn as_slice(&self) -> &[AffectedForeignKey<'a>]
        ensures { result.now ≡ self.now }
    {
        self.all.as_slice()
    }

    /// Whether there are none.
    pub fn is_empty(&self) -> bool
        ensures { result ≡ (length self.now == 0) }
    {
        self.all.is_empty()
    }

    /// The one at a place.
    pub fn at(&self, place: usize) -> Option<&AffectedForeignKey<'a>>
        ensures { option_copied result ≡ slice_get self.now place }
    {
        self.all.as_slice().get(place)
    }

    /// The places of those on a table, in creation order.
    pub fn places_on(&self, table: TableId) -> &[usize]
        ensures { at_places self.now result.now ≡ on_table table self.now }
    {
        places_at(self.places.as_slice(), table.place() as usize)
    }
}
