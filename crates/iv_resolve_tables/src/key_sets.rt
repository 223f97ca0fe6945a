//! The sets of columns of a CREATE TABLE's keys, each found without a look at the others. They allocate the names, and
//! take nearly linear time.
ghost use Rattle.std.specs.Prelude.{◌≡◌, ℕ, Bool, false, ◌||◌, List, [], ◌∷◌, IfOk, OnOk, Some, None};
ghost use Rattle.std.specs.BTreeSet.{IsOrdered, contains_text};
ghost use Rattle.std.specs.Str.{bytes_eq};
ghost use Rattle.std.specs.String.{string_cmp};
ghost use Rattle.iv_resolution.specs.Constraints.{same_set, written_constraints};
ghost use Rattle.iv_resolution.specs.Scopes.{NamedColumn};
ghost use Rattle.iv_resolve_tables.specs.KeySets.{Finds, Gains, HasNames, some_reliable};
ghost use Rattle.iv_resolve_tables.specs.Seen.{constraint_seen};

use crate::characteristics::is_deferrable;
use crate::unread::Unread;
use crate::written::{WrittenConstraint, WrittenRule};
use iv_syntax::{Name, TableElement};
use std::alloc::{AllocError, Global};
use std::collections::BTreeSet;

/// Sets of names.
pub type KeySets = BTreeSet<BTreeSet<String>>;

fn add_name(alloc: Global, set: &mut BTreeSet<String>, name: &str) -> Result<(), AllocError>
    ensures text { OnOk result ((other : List ℕ)
        → contains_text set.new other
        ≡ (contains_text set.old other || bytes_eq other name.now)) }
    ensures ordered { OnOk result (IsOrdered string_cmp set.new) }
{
    let owned = String::from_str(alloc, name)?;
    set.insert(owned)?;
    Ok(())
}

fn set_of(alloc: Global, names: &[Name]) -> Result<BTreeSet<String>, AllocError>
    ensures { IfOk result (λ set. HasNames set names.now) }
{
    let mut set = BTreeSet::new(alloc);
    for name in names {
        add_name(alloc, &mut set, name.as_str())?;
    }
    Ok(set)
}

fn add_set(alloc: Global, sets: &mut KeySets, names: &[Name]) -> Result<(), AllocError>
    ensures { OnOk result (Gains sets.old sets.new (λ others. same_set others names.now)) }
{
    let set = set_of(alloc, names)?;
    sets.insert(set)?;
    Ok(())
}

// The columns of a key that is NOT DEFERRABLE.
fn reliable_columns<'a>(constraint: &WrittenConstraint<'a>) -> Option<&'a [Name]>
    ensures { (columns : List NamedColumn) (names : List (List ℕ))
        → some_reliable columns (constraint_seen constraint.now ∷ []) names
        ≡ elim result [ Some key ↦ same_set names key.now | None ↦ false ] }
{
    if is_deferrable(constraint.time) {
        return None;
    }
    match constraint.rule {
        WrittenRule::Unique(_, names) => Some(names),
        WrittenRule::PrimaryKey(names) => Some(names),
        WrittenRule::NotNull(_) => None,
        WrittenRule::Check(_) => None,
        WrittenRule::ForeignKey(_, _) => None,
    }
}

fn add_key(
    alloc: Global,
    sets: &mut KeySets,
    constraint: &WrittenConstraint<'_>,
) -> Result<(), AllocError>
    ensures { OnOk result ((columns : List NamedColumn)
        → Gains sets.old sets.new (some_reliable columns (constraint_seen constraint.now ∷ []))) }
{
    match reliable_columns(constraint) {
        Some(names) => add_set(alloc, sets, names),
        None => Ok(()),
    }
}

fn add_keys(alloc: Global, sets: &mut KeySets, elements: &[TableElement]) -> Result<(), AllocError>
    ensures { OnOk result ((columns : List NamedColumn)
        → Gains sets.old sets.new (some_reliable columns (written_constraints elements.now))) }
{
    let mut left = Unread::Outside(elements);
    while let Some((constraint, rest)) = left.first() {
        add_key(alloc, sets, &constraint)?;
        left = rest;
    }
    Ok(())
}

/// The sets of columns of the keys that are NOT DEFERRABLE.
pub fn reliable_sets(alloc: Global, elements: &[TableElement]) -> Result<KeySets, AllocError>
    ensures { IfOk result (λ sets. (columns : List NamedColumn)
        → Finds sets (some_reliable columns (written_constraints elements.now))) }
{
    let mut sets = BTreeSet::new(alloc);
    add_keys(alloc, &mut sets, elements)?;
    Ok(sets)
}

/// Whether a set of columns is among them. It allocates the names, and takes nearly linear time.
pub fn has_set(alloc: Global, sets: &KeySets, names: &[Name]) -> Result<bool, AllocError>
    ensures { IfOk result (λ found. (p : List (List ℕ) → Bool) → Finds sets.now p
        → found ≡ p names.now) }
{
    let set = set_of(alloc, names)?;
    Ok(sets.contains(&set))
}
