//! The mode of each constraint.
ghost use Rattle.std.specs.Prelude.{◌≡◌, ◌&&◌, ℕ, Some, None, find, fold, length, map, not, slice_set, IfOk, IfErr, OnOk, OnErr};
ghost use Rattle.iv_machine.specs.Databases.{initial_modes, is_deferred};
ghost use Rattle.iv_machine.specs.Machine.{with_modes};
ghost use Rattle.iv_modes.specs.ModeMaps.{OnlyTheseAreSet, first_not_deferrable, initial_map, is_deferrable, made_immediate, with_mode};

use iv_catalogue::{Constraint, ConstraintId};
use iv_syntax::ConstraintMode;
use std::alloc::{AllocError, Global};
use std::marker::Model;

/// A constraint whose mode SET CONSTRAINTS may not set.
#[derive(Clone, Copy, Debug, PartialEq, Eq)]
pub struct NotDeferrable(pub ConstraintId);

/// The mode of each constraint, and whether it may be set. Contracts see it as a finite map by the
/// constraint's number.
pub struct Modes {
    deferrable: Vec<bool>,
    modes: Vec<ConstraintMode>,
}

// Written out, so that it is proved once, and not again in each crate that drops modes.
impl Drop for Modes {
    fn drop(self) {
        let Modes { deferrable, modes } = self;
        drop(deferrable);
        drop(modes);
    }
}

impl Model for Modes {
    ghost use Rattle.std.specs.Prelude.{◌≡◌, length};
    ghost use Rattle.iv_modes.specs.ModeMaps.{ModeMap};

    ghost Value = { ModeMap };

    ghost view = { λ m. record { deferrable = m.deferrable.items; modes = m.modes.items } };

    ghost invariant = { λ m. length m.deferrable.items ≡ length m.modes.items };
}

fn deferrable_of(alloc: Global, constraints: &[Constraint]) -> Result<Vec<bool>, AllocError>
    ensures { IfOk result (λ v. v.items ≡ map (λ c. c.deferrable) constraints.now) }
{
    let mut deferrable = Vec::new(alloc);
    for constraint in constraints {
        deferrable.push(constraint.deferrable)?;
    }
    Ok(deferrable)
}

fn initial_modes(
    alloc: Global,
    constraints: &[Constraint],
) -> Result<Vec<ConstraintMode>, AllocError>
    ensures { IfOk result (λ v. v.items ≡ initial_modes constraints.now) }
{
    let mut modes = Vec::new(alloc);
    for constraint in constraints {
        modes.push(constraint.initially)?;
    }
    Ok(modes)
}

// Sets the mode of a constraint, if there is one of this number.
fn set_one(modes: &mut Vec<ConstraintMode>, id: ConstraintId, mode: ConstraintMode)
    ensures { modes.new.items ≡ slice_set modes.old.items id mode }
{
    let place = id.place() as usize;
    if place < modes.len() {
        modes[place] = mode;
    }
}

// Sets the mode of each of these constraints.
fn set_all(modes: &mut Vec<ConstraintMode>, ids: &[ConstraintId], mode: ConstraintMode)
    ensures { modes.new.items ≡ with_modes modes.old.items ids.now mode }
{
    for id in ids {
        set_one(modes, *id, mode);
    }
}

// Sets each mode to the one at the same place of another list.
fn copy_each(modes: &mut [ConstraintMode], others: &[ConstraintMode])
    requires { length modes.old ≡ length others.now }
    ensures { modes.new ≡ others.now }
{
    modes.copy_from_slice(others);
}

// Of each mode, IMMEDIATE if the other list defers its place, and otherwise itself.
fn made_immediate(
    alloc: Global,
    before: &[ConstraintMode],
    after: &[ConstraintMode],
) -> Result<Vec<ConstraintMode>, AllocError>
    ensures { IfOk result (λ v. v.items ≡ made_immediate before.now after.now) }
{
    let mut made = Vec::new(alloc);
    let mut left = before;
    let mut others = after;
    while let [mode, rest @ ..] = left {
        match others {
            [ConstraintMode::Deferred, ..] => made.push(ConstraintMode::Immediate)?,
            _ => made.push(*mode)?,
        }
        left = rest;
        others = others.get(1..).unwrap_or(&[]);
    }
    Ok(made)
}

impl Modes {
    /// The modes of these constraints, all that there are, at the start of a transaction.
    pub fn initial(alloc: Global, constraints: &[Constraint]) -> Result<Modes, AllocError>
        ensures { IfOk result (λ m. m ≡ initial_map constraints.now) }
    {
        Ok(Modes {
            deferrable: deferrable_of(alloc, constraints)?,
            modes: initial_modes(alloc, constraints)?,
        })
    }

    /// A copy of the modes.
    pub fn copy(&self) -> Result<Modes, AllocError>
        ensures { IfOk result (λ m. m ≡ self.now) }
    {
        let alloc = *self.modes.allocator();
        Ok(Modes {
            deferrable: Vec::from_slice(alloc, self.deferrable.as_slice())?,
            modes: Vec::from_slice(alloc, self.modes.as_slice())?,
        })
    }

    /// Modes in which only those constraints are deferred that are deferred here and not in `after`.
    #[tactic(auto, using(crate::proofs::MadeImmediate::as_long, crate::proofs::MadeImmediate::deferred_no_longer))]
    pub fn made_immediate(&self, after: &Modes) -> Result<Modes, AllocError>
        ensures { IfOk result (λ m. (id : ℕ) → is_deferred m.modes id
            ≡ (is_deferred self.now.modes id && not (is_deferred after.now.modes id))) }
    {
        let alloc = *self.modes.allocator();
        Ok(Modes {
            deferrable: Vec::from_slice(alloc, self.deferrable.as_slice())?,
            modes: made_immediate(alloc, self.modes.as_slice(), after.modes.as_slice())?,
        })
    }

    /// Sets every mode to that of an earlier copy of the same map. It allocates nothing.
    pub fn restore(&mut self, earlier: &Modes)
        requires { self.old.deferrable ≡ earlier.now.deferrable }
        ensures { self.new ≡ earlier.now }
    {
        copy_each(&mut self.modes, earlier.modes.as_slice());
    }

    /// The modes by the constraint's number.
    pub fn as_slice(&self) -> &[ConstraintMode]
        ensures { result.now ≡ self.now.modes }
    {
        self.modes.as_slice()
    }

    /// Whether the constraint is deferred; false if there is none of this number.
    pub fn is_deferred(&self, id: ConstraintId) -> bool
        ensures { result ≡ is_deferred self.now.modes id }
    {
        matches!(
            self.modes.get(id.place() as usize),
            Some(ConstraintMode::Deferred)
        )
    }

    // Whether the mode of the constraint may be set.
    fn is_deferrable(&self, id: ConstraintId) -> bool
        ensures { result ≡ is_deferrable self.now id }
    {
        matches!(self.deferrable.get(id.place() as usize), Some(true))
    }

    // The first of these constraints that isn't deferrable.
    fn first_not_deferrable(&self, ids: &[ConstraintId]) -> Option<ConstraintId>
        ensures { result ≡ first_not_deferrable self.now ids.now }
    {
        for id in ids {
            if !self.is_deferrable(*id) {
                return Some(*id);
            }
        }
        None
    }

    /// Sets the modes of these constraints (ISO/IEC 9075-2:1999, "Set constraints mode statement"). If one isn't
    /// deferrable, nothing is set, and the first such one is the answer. It allocates nothing.
    pub fn set(
        &mut self,
        constraints: &[ConstraintId],
        mode: ConstraintMode,
    ) -> Result<(), NotDeferrable>
        ensures accepted { OnOk result (first_not_deferrable self.old constraints.now ≡ None) }
        ensures set { OnOk result (self.new ≡ with_mode self.old constraints.now mode) }
        ensures map { OnOk result (OnlyTheseAreSet self.old constraints.now mode self.new) }
        ensures refused { IfErr result (λ r.
            first_not_deferrable self.old constraints.now ≡ Some r.0) }
        ensures unchanged { OnErr result (self.new ≡ self.old) }
    {
        if let Some(id) = self.first_not_deferrable(constraints) {
            return Err(NotDeferrable(id));
        }
        set_all(&mut self.modes, constraints, mode);
        Ok(())
    }
}
