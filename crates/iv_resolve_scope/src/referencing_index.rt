//! The items of REFERENCING, each found by its name without a look at the others.
ghost use Rattle.std.specs.Prelude.{◌≡◌, ℕ, List, IfOk, OnOk, Some, None, if◌then◌else◌};
ghost use Rattle.std.specs.BTreeMap.{get_by_text};
ghost use Rattle.std.specs.Option.{option_or};
ghost use Rattle.std.specs.Str.{bytes_eq};
ghost use Rattle.iv_resolve_scope.specs.FirstItems.{first_side, names_what};

use iv_expr::Side;
use iv_syntax::{Referencing, TransitionName};
use std::alloc::{AllocError, Global};
use std::collections::BTreeMap;
use std::marker::Model;

/// The items of REFERENCING, with the first row variable and the first transition table of each name. Contracts see the items.
#[derive(Drop)]
pub struct ReferencingIndex {
    items: Vec<Referencing>,
    variables: BTreeMap<String, Side>,
    tables: BTreeMap<String, Side>,
}

impl Model for ReferencingIndex {
    ghost use Rattle.std.specs.Prelude.{◌≡◌, ℕ, List};
    ghost use Rattle.std.specs.BTreeMap.{get_by_text};
    ghost use Rattle.iv_syntax.specs.declared.trigger.Referencing.{Referencing};
    ghost use Rattle.iv_syntax.specs.declared.trigger.TransitionName.TheVariants.{Row, Table};
    ghost use Rattle.iv_resolve_scope.specs.FirstItems.{first_side};

    ghost Value = { List Referencing };

    ghost view = { λ x. x.items.items };

    ghost invariant = { λ x. ((name : List ℕ)
        → get_by_text x.variables name ≡ first_side Row x.items.items name)
        × ((name : List ℕ) → get_by_text x.tables name ≡ first_side Table x.items.items name) };
}

/// Whether an item names a row variable, or a transition table.
pub fn names_what(item: &Referencing, what: TransitionName) -> bool
    ensures { result ≡ names_what what item.now }
{
    match what {
        TransitionName::Row => matches!(item.what, TransitionName::Row),
        TransitionName::Table => matches!(item.what, TransitionName::Table),
    }
}

fn copies_of(alloc: Global, items: &[Referencing]) -> Result<Vec<Referencing>, AllocError>
    ensures { IfOk result (λ is. is.items ≡ items.now) }
{
    let mut copies = Vec::new(alloc);
    for item in items {
        copies.push(Referencing {
            side: item.side,
            what: item.what,
            name: item.name.clone()?,
        })?;
    }
    Ok(copies)
}

// Notes the side of a name, if none of that name is there.
fn note(
    alloc: Global,
    sides: &mut BTreeMap<String, Side>,
    name: &str,
    side: Side,
) -> Result<(), AllocError>
    ensures { OnOk result ((other : List ℕ) → get_by_text sides.new other
        ≡ option_or (get_by_text sides.old other)
        (if bytes_eq other name.now then Some side else None)) }
{
    if sides.contains_key(name) {
        return Ok(());
    }
    let owned = String::from_str(alloc, name)?;
    sides.insert(owned, side)?;
    Ok(())
}

// The side of the first row variable of each name, or of the first transition table.
fn sides_of(
    alloc: Global,
    items: &[Referencing],
    what: TransitionName,
) -> Result<BTreeMap<String, Side>, AllocError>
    ensures { IfOk result (λ m. (name : List ℕ)
        → get_by_text m name ≡ first_side what items.now name) }
{
    let mut sides = BTreeMap::new(alloc);
    for item in items {
        if names_what(item, what) {
            note(alloc, &mut sides, item.name.as_str(), item.side)?;
        }
    }
    Ok(sides)
}

impl ReferencingIndex {
    /// The items. It allocates their names, and takes nearly linear time.
    pub fn new(alloc: Global, items: &[Referencing]) -> Result<ReferencingIndex, AllocError>
        ensures { IfOk result (λ x. x ≡ items.now) }
    {
        let variables = sides_of(alloc, items, TransitionName::Row)?;
        let tables = sides_of(alloc, items, TransitionName::Table)?;
        let items = copies_of(alloc, items)?;
        Ok(ReferencingIndex {
            items,
            variables,
            tables,
        })
    }

    /// The side of the first row variable of that name, or of the first transition table, in the time of a search among the names.
    pub fn side(&self, what: TransitionName, name: &str) -> Option<Side>
        ensures { result ≡ first_side what self.now name.now }
    {
        match what {
            TransitionName::Row => self.variables.get(name).copied(),
            TransitionName::Table => self.tables.get(name).copied(),
        }
    }
}
