//! Foreign keys whose referenced keys a wave removed.
ghost use Rattle.std.specs.Prelude.{◌≡◌, ◌<◌, ◌≤◌, ◌+◌, ◌^◌, ◌||◌, ◌==◌, ℕ, List, drop, is_some, length, slice_get, IfOk, OnOk};
ghost use Rattle.std.specs.Option.{option_copied, option_or};
ghost use Rattle.std.specs.List.{list_any};
ghost use Rattle.iv_value.specs.declared.value.Value.{Value as Cell};
ghost use Rattle.iv_store_groups.specs.Groups.{groups_of, rows_of};
ghost use Rattle.iv_machine.specs.ReferentialActions.{foreign_key, reference};
ghost use Rattle.iv_laws_levels.specs.Holders.{leaves_key};
ghost use Rattle.iv_laws_kept.specs.FollowingWaves.{is_among};
ghost use Rattle.iv_account.specs.Accounts.{acts};
ghost use Rattle.iv_exec_actions.specs.AffectedForeignKey.{key_taken, first_taking, action_for, acts_on, under_wave, affected_where};
ghost use Rattle.iv_exec_actions.specs.AffectedForeignKey.{affected_from, change_taking};

use iv_catalogue::{Constraint, ForeignKey, Rule};
use iv_expr::{Change, Row, TableId};
use iv_key::Key;
use iv_store_groups::Groups;
use iv_syntax::ReferentialAction;
use iv_value::Value;
use std::alloc::{AllocError, Global};
use std::marker::Model;

/// A foreign key that acts on keys which a wave removed. The first change that removed a key is found by the key, in
/// the logarithm of the removed keys at most.
#[derive(Drop)]
pub struct AffectedForeignKey<'a> {
    id: u32,
    table: TableId,
    key: &'a ForeignKey,
    changes: &'a [Change],
    // Under each key that was taken, as its only row, the place of the first change that took it.
    firsts: Groups,
}

impl<'a> Model for AffectedForeignKey<'a> {
    ghost use Rattle.std.specs.Prelude.{◌≡◌, List, slice_get};
    ghost use Rattle.iv_value.specs.declared.value.Value.{Value as Cell};
    ghost use Rattle.iv_store_groups.specs.Groups.{groups_of, rows_of};
    ghost use Rattle.iv_exec_actions.specs.AffectedForeignKey.{AffectedForeignKey as Seen, first_taking};

    ghost Value = { Seen };

    ghost view = { λ x. record {
      reference = record { id = x.id; table = x.table; key = x.key.now };
      changes = x.changes.now;
    } };

    ghost invariant = { λ x. (key : List Cell)
        → slice_get (rows_of (groups_of x.firsts.groups 0) key) 0 ≡ first_taking x.key.now key 0 x.changes.now };
}

// Whether a row is deleted or has another referenced key now.
fn leaves_key(key: &ForeignKey, old: &[Value], new: &Option<Row>) -> bool
    ensures { result ≡ leaves_key key.now old.now new.now }
{
    match new {
        None => true,
        Some(new) => !Key::new(key.key.as_slice(), new.values()).same(&Key::new(
            key.key.as_slice(),
            old,
        )),
    }
}

/// The referenced key that a change removes.
pub fn key_taken<'a>(key: &'a ForeignKey, change: &'a Change) -> Option<Key<'a>>
    ensures { result ≡ key_taken key.entry.now change.entry.now }
{
    if change.table != key.referenced {
        return None;
    }
    match &change.old {
        None => None,
        Some(old) => {
            let taken = Key::new(key.key.as_slice(), old.values());
            if taken.none_null() && leaves_key(key, old.values(), &change.new) {
                Some(taken)
            } else {
                None
            }
        }
    }
}

/// The action of a foreign key for a key that this change removed.
pub fn action_for(key: &ForeignKey, change: &Change) -> ReferentialAction
    ensures { result ≡ action_for key.now change.now }
{
    match &change.new {
        None => key.on_delete,
        Some(_) => key.on_update,
    }
}

/// Whether an action does something.
pub fn acts(action: ReferentialAction) -> bool
    ensures { result ≡ acts action }
{
    !matches!(action, ReferentialAction::NoAction)
}

// Whether a change takes a key away for which the foreign key does something.
fn acts_on(key: &ForeignKey, change: &Change) -> bool
    ensures { result ≡ acts_on key.now change.now }
{
    acts(action_for(key, change)) && key_taken(key, change).is_some()
}

fn acts_on_any(key: &ForeignKey, changes: &[Change]) -> bool
    ensures { result ≡ list_any (acts_on key.now) changes.now }
{
    changes.iter().any(|change| acts_on(key, change))
}

fn is_among(numbers: &[u32], number: u32) -> bool
    ensures { result ≡ is_among numbers.now number }
{
    numbers.iter().any(|n| *n == number)
}

// Adds the table of a change, if it isn't among those that are there.
fn note_table(tables: &mut Vec<u32>, change: &Change) -> Result<(), AllocError>
    ensures { OnOk result ((t : ℕ) → is_among tables.new.items t ≡
        (is_among tables.old.items t || (change.now.table == t))) }
{
    let table = change.table.place();
    if !is_among(tables.as_slice(), table) {
        tables.push(table)?;
    }
    Ok(())
}

// The tables of the changes, each once; a catalogue has 64 at most.
fn tables_of(alloc: Global, changes: &[Change]) -> Result<Vec<u32>, AllocError>
    ensures { IfOk result (λ v. (t : ℕ) →
        is_among v.items t ≡ list_any (λ c. c.table == t) changes.now) }
{
    let mut tables = Vec::new(alloc);
    for change in changes {
        note_table(&mut tables, change)?;
    }
    Ok(tables)
}

// Whether a change takes a key away for which the foreign key does something. The changes are looked at only if the
// referenced table is one of theirs.
fn acts_in(key: &ForeignKey, changes: &[Change], tables: &[u32]) -> bool
    requires { (t : ℕ) → is_among tables.now t ≡ list_any (λ c. c.table == t) changes.now }
    ensures { result ≡ list_any (acts_on key.now) changes.now }
{
    is_among(tables, key.referenced.place()) && acts_on_any(key, changes)
}

// Notes the place of a change under the key that it takes away, if no change before it took that key.
fn note(
    firsts: &mut Groups,
    key: &ForeignKey,
    changes: &[Change],
    place: usize,
) -> Result<(), AllocError>
    requires within { place < length changes.now }
    requires known { 0 < length firsts.old.groups }
    ensures known { OnOk result (0 < length firsts.new.groups) }
    ensures noted { OnOk result ((k : List Cell)
        → option_or (slice_get (rows_of (groups_of firsts.new.groups 0) k) 0)
        (first_taking key.now k (place + 1) (drop (place + 1) changes.now))
        ≡ option_or (slice_get (rows_of (groups_of firsts.old.groups 0) k) 0)
        (first_taking key.now k place (drop place changes.now))) }
{
    if let Some(taken) = key_taken(key, &changes[place]) {
        if firsts.holders(0, &taken).is_empty() {
            firsts.add(0, &taken, place as u64)?;
        }
    }
    Ok(())
}

// The places of the first changes by the keys that they take away.
fn firsts(alloc: Global, key: &ForeignKey, changes: &[Change]) -> Result<Groups, AllocError>
    ensures { IfOk result (λ g. (k : List Cell)
        → slice_get (rows_of (groups_of g.groups 0) k) 0 ≡ first_taking key.now k 0 changes.now) }
{
    let mut firsts = Groups::new(alloc);
    firsts.cover(1)?;
    let mut place = 0usize;
    while place < changes.len() {
        note(&mut firsts, key, changes, place)?;
        place += 1;
    }
    Ok(firsts)
}

fn under_wave<'a>(
    alloc: Global,
    id: u32,
    table: TableId,
    key: &'a ForeignKey,
    changes: &'a [Change],
) -> Result<AffectedForeignKey<'a>, AllocError>
    ensures { IfOk result (λ x. x ≡
        under_wave changes.entry.now (record { id = id; table = table; key = key.entry.now })) }
{
    let firsts = firsts(alloc, key, changes)?;
    Ok(AffectedForeignKey {
        id,
        table,
        key,
        changes,
        firsts,
    })
}

// The foreign key that a constraint is, if it does something.
fn affected_where<'a>(
    alloc: Global,
    id: u32,
    constraint: &'a Constraint,
    changes: &'a [Change],
    tables: &[u32],
) -> Result<Option<AffectedForeignKey<'a>>, AllocError>
    requires { (t : ℕ) → is_among tables.now t ≡ list_any (λ c. c.table == t) changes.now }
    ensures { IfOk result (λ o. o ≡
        affected_where changes.entry.now (reference (id, constraint.entry.now))) }
{
    match &constraint.rule {
        Rule::ForeignKey(key) => {
            if acts_in(key, changes, tables) {
                Ok(Some(under_wave(alloc, id, constraint.table, key, changes)?))
            } else {
                Ok(None)
            }
        }
        _ => Ok(None),
    }
}

// Whether a constraint is a foreign key.
fn is_foreign_key(constraint: &Constraint) -> bool
    ensures { result ≡ is_some (foreign_key constraint.now.rule) }
{
    matches!(constraint.rule, Rule::ForeignKey(_))
}

fn have_foreign_key(constraints: &[Constraint]) -> bool
    ensures { result ≡ list_any (λ c. is_some (foreign_key c.rule)) constraints.now }
{
    constraints
        .iter()
        .any(|constraint| is_foreign_key(constraint))
}

// The foreign keys among these constraints that do something after these changes, in creation order.
fn affected_among<'a>(
    alloc: Global,
    constraints: &'a [Constraint],
    changes: &'a [Change],
) -> Result<Vec<AffectedForeignKey<'a>>, AllocError>
    requires { length constraints.now ≤ 2 ^ 31 }
    ensures { IfOk result (λ v. v.items ≡ affected_from changes.entry.now 0 constraints.entry.now) }
{
    let tables = tables_of(alloc, changes)?;
    let mut found = Vec::new(alloc);
    let mut id = 0u32;
    for constraint in constraints {
        if let Some(affected) = affected_where(alloc, id, constraint, changes, tables.as_slice())? {
            found.push(affected)?;
        }
        id += 1;
    }
    Ok(found)
}

/// The foreign keys that act after these changes, in creation order. Without a foreign key no change is looked at.
#[tactic(auto, using(crate::proofs::Idle::none_affected))]
pub fn affected_of<'a>(
    alloc: Global,
    constraints: &'a [Constraint],
    changes: &'a [Change],
) -> Result<Vec<AffectedForeignKey<'a>>, AllocError>
    requires { length constraints.now ≤ 2 ^ 31 }
    ensures { IfOk result (λ v. v.items ≡ affected_from changes.entry.now 0 constraints.entry.now) }
{
    if have_foreign_key(constraints) {
        affected_among(alloc, constraints, changes)
    } else {
        Ok(Vec::new(alloc))
    }
}

fn change_at(changes: &[Change], place: usize) -> Option<&Change>
    ensures { option_copied result ≡ slice_get changes.now place }
{
    changes.get(place)
}

impl<'a> AffectedForeignKey<'a> {
    /// Its number among the constraints.
    pub fn id(&self) -> u32
        ensures { result ≡ self.now.reference.id }
    {
        self.id
    }

    /// The referencing table.
    pub fn table(&self) -> TableId
        ensures { result ≡ self.now.reference.table }
    {
        self.table
    }

    /// The foreign key.
    pub fn key(&self) -> &'a ForeignKey
        ensures { result.now ≡ self.now.reference.key }
    {
        self.key
    }

    /// The first change that removes a key.
    #[tactic(auto, using(crate::proofs::Taking::change_found))]
    pub fn change_taking(&self, key: &Key<'_>) -> Option<&'a Change>
        ensures { option_copied result ≡ change_taking self.now key.now }
    {
        match self.firsts.holders(0, key).first() {
            Some(place) => change_at(self.changes, place as usize),
            None => None,
        }
    }
}
