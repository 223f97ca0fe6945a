//! The groups of all constraints that violate them.
ghost use Rattle.std.specs.Prelude.{◌≡◌, ◌≢◌, ℕ, ◌+◌, ◌<◌, ◌≤◌, [], length, max, true, false, OnOk, OnErr, take};
ghost use Rattle.iv_laws_kept.specs.GroupFlags.{violating_of};
ghost use Rattle.iv_laws_kept.specs.Numbers.{has};
ghost use Rattle.iv_store_violating.specs.Flagging.{AreViolated, NoRepeats, flag, has_any, is_any, with_flag, with_violating};

use crate::group_flags::GroupFlags;
use std::alloc::{AllocError, Global};
use std::marker::Model;

/// For each constraint, by its number, which places of its groups are flagged as violating it. Contracts see it as the
/// list of these flags.
#[derive(Drop)]
pub struct ViolatingGroups {
    alloc: Global,
    constraints: Vec<GroupFlags>,
    violated: GroupFlags,
}

impl Model for ViolatingGroups {
    ghost use Rattle.iv_laws_kept.specs.GroupFlags as kept;
    ghost use Rattle.iv_store_violating.specs.Flagging.{AreViolated};

    ghost Value = { kept.GroupFlags };

    ghost view = { λ v. v.constraints.items };

    ghost invariant = { λ v. AreViolated v.constraints.items v.violated };
}

// Adds constraints of no place, until there are so many.
fn add_constraints(
    alloc: Global,
    constraints: &mut Vec<GroupFlags>,
    count: usize,
) -> Result<(), AllocError>
    ensures ok { OnOk result (count ≤ length constraints.new.items) }
    ensures few { length constraints.new.items ≤ max count (length constraints.old.items) }
    ensures stays { length constraints.old.items ≤ length constraints.new.items }
    ensures violating { (id : ℕ) → violating_of constraints.new.items id ≡ violating_of constraints.old.items id }
{
    while constraints.len() < count {
        let violating = GroupFlags::new(alloc);
        constraints.push(violating)?;
    }
    Ok(())
}

// Ensures that there are so many constraints at least, and a flag for each.
fn cover(
    alloc: Global,
    constraints: &mut Vec<GroupFlags>,
    violated: &mut GroupFlags,
    count: usize,
) -> Result<(), AllocError>
    requires { AreViolated constraints.old.items violated.old }
    ensures ok { OnOk result (count ≤ length constraints.new.items) }
    ensures few { length constraints.new.items ≤ max count (length constraints.old.items) }
    ensures stays { length constraints.old.items ≤ length constraints.new.items }
    ensures violating { (id : ℕ) → violating_of constraints.new.items id ≡ violating_of constraints.old.items id }
    ensures violated { AreViolated constraints.new.items violated.new }
{
    violated.cover(count)?;
    add_constraints(alloc, constraints, count)
}

// Ensures that a constraint has so many places at least.
fn cover_places(
    constraints: &mut Vec<GroupFlags>,
    constraint: usize,
    count: usize,
) -> Result<(), AllocError>
    requires known { constraint < length constraints.old.items }
    ensures ok { OnOk result (count ≤ length (violating_of constraints.new.items constraint)) }
    ensures count { length constraints.new.items ≡ length constraints.old.items }
    ensures others { (id : ℕ) → id ≢ constraint →
        violating_of constraints.new.items id ≡ violating_of constraints.old.items id }
    ensures stays { (id : ℕ) →
        length (violating_of constraints.old.items id) ≤ length (violating_of constraints.new.items id) }
    ensures flags { (id place : ℕ) →
        flag (violating_of constraints.new.items id) place ≡ flag (violating_of constraints.old.items id) place }
{
    constraints[constraint].cover(count)
}

// Takes the last place of a constraint away if it isn't flagged.
fn drop_place(constraints: &mut Vec<GroupFlags>, constraint: usize)
    requires known { constraint < length constraints.old.items }
    ensures places { length (violating_of constraints.old.items constraint) ≤ length (violating_of constraints.new.items constraint) + 1 }
    ensures count { length constraints.new.items ≡ length constraints.old.items }
    ensures others { (id : ℕ) → id ≢ constraint →
        violating_of constraints.new.items id ≡ violating_of constraints.old.items id }
    ensures flags { (id place : ℕ) →
        flag (violating_of constraints.new.items id) place ≡ flag (violating_of constraints.old.items id) place }
{
    constraints[constraint].drop_last();
}

// Takes all places of a constraint away.
fn clear(
    alloc: Global,
    constraints: &mut Vec<GroupFlags>,
    violated: &mut GroupFlags,
    constraint: usize,
)
    requires known { constraint < length constraints.old.items }
    requires violated { AreViolated constraints.old.items violated.old }
    ensures violating { constraints.new.items ≡ with_violating constraints.old.items constraint [] }
    ensures violated { AreViolated constraints.new.items violated.new }
{
    constraints[constraint] = GroupFlags::new(alloc);
    violated.set(constraint, false);
}

// Flags a place of a constraint, or takes its flag away.
fn set(
    constraints: &mut Vec<GroupFlags>,
    violated: &mut GroupFlags,
    constraint: usize,
    place: usize,
    raised: bool,
)
    requires known { constraint < length constraints.old.items }
    requires place { place < length (violating_of constraints.old.items constraint) }
    requires violated { AreViolated constraints.old.items violated.old }
    ensures violating { constraints.new.items ≡ with_violating constraints.old.items constraint
        (with_flag (violating_of constraints.old.items constraint) place raised) }
    ensures violated { AreViolated constraints.new.items violated.new }
{
    let violating = &mut constraints[constraint];
    violating.set(place, raised);
    let any = violating.is_any();
    violated.set(constraint, any);
}

// Whether a place of a constraint is flagged.
fn is_flagged(constraints: &[GroupFlags], constraint: usize, place: usize) -> bool
    ensures { result ≡ flag (violating_of constraints.now constraint) place }
{
    match constraints.get(constraint) {
        Some(violating) => violating.is_flagged(place),
        None => false,
    }
}

// Drops the constraints from a number on, none of which has a flagged place.
#[tactic(auto, using(crate::proofs::Violated::violated_before))]
fn truncate(constraints: &mut Vec<GroupFlags>, violated: &GroupFlags, count: usize)
    requires violated { AreViolated constraints.old.items violated.now }
    requires unflagged { (id : ℕ) → count ≤ id → is_any (violating_of constraints.old.items id) ≡ false }
    ensures violating { constraints.new.items ≡ take count constraints.old.items }
    ensures violated { AreViolated constraints.new.items violated.now }
{
    let _ = violated;
    constraints.truncate(count);
}

// Whether some flag is set.
#[tactic(auto, using(crate::proofs::Violated::any_violated))]
fn is_any(constraints: &[GroupFlags], violated: &GroupFlags) -> bool
    requires { AreViolated constraints.now violated.now }
    ensures { result ≡ has_any constraints.now }
{
    let _ = constraints;
    violated.is_any()
}

// The flagged places of a constraint.
fn flagged(constraints: &[GroupFlags], constraint: usize) -> &[usize]
    ensures members { (place : ℕ) →
        has place result.now ≡ flag (violating_of constraints.now constraint) place }
    ensures once { NoRepeats result.now }
{
    match constraints.get(constraint) {
        Some(violating) => violating.flagged(),
        None => &[],
    }
}

// The numbers of the constraints with a flagged place.
fn violated<'a>(constraints: &[GroupFlags], violated: &'a GroupFlags) -> &'a [usize]
    requires { AreViolated constraints.now violated.now }
    ensures members { (id : ℕ) → has id result.now ≡ is_any (violating_of constraints.now id) }
    ensures once { NoRepeats result.now }
{
    let _ = constraints;
    violated.flagged()
}

impl ViolatingGroups {
    /// No constraint. It allocates nothing.
    pub fn new(alloc: Global) -> ViolatingGroups
        ensures { result ≡ [] }
    {
        ViolatingGroups {
            alloc,
            constraints: Vec::new(alloc),
            violated: GroupFlags::new(alloc),
        }
    }

    /// How many constraints there are. Their numbers are those below it.
    pub fn constraints(&self) -> usize
        ensures { result ≡ length self.now }
    {
        self.constraints.len()
    }

    /// Ensures that there are so many constraints at least. A new one has no place.
    pub fn cover(&mut self, count: usize) -> Result<(), AllocError>
        ensures ok { OnOk result (count ≤ length self.new) }
        ensures few { length self.new ≤ max count (length self.old) }
        ensures stays { length self.old ≤ length self.new }
        ensures violating { (id : ℕ) → violating_of self.new id ≡ violating_of self.old id }
    {
        cover(self.alloc, &mut self.constraints, &mut self.violated, count)
    }

    /// Ensures that a constraint has so many places at least. A new one isn't flagged.
    #[tactic(auto, using(crate::proofs::Violated::violated_like))]
    pub fn cover_places(&mut self, constraint: usize, count: usize) -> Result<(), AllocError>
        requires known { constraint < length self.old }
        ensures ok { OnOk result (count ≤ length (violating_of self.new constraint)) }
        ensures count { length self.new ≡ length self.old }
        ensures others { (id : ℕ) → id ≢ constraint → violating_of self.new id ≡ violating_of self.old id }
        ensures stays { (id : ℕ) → length (violating_of self.old id) ≤ length (violating_of self.new id) }
        ensures flags { (id place : ℕ) → flag (violating_of self.new id) place ≡ flag (violating_of self.old id) place }
    {
        cover_places(&mut self.constraints, constraint, count)
    }

    /// Removes the last place of a constraint if it isn't flagged. It allocates nothing, and gives memory back if the
    /// other places use less than a quarter of it.
    #[tactic(auto, using(crate::proofs::Violated::violated_like))]
    pub fn drop_place(&mut self, constraint: usize)
        requires known { constraint < length self.old }
        ensures places { length (violating_of self.old constraint) ≤ length (violating_of self.new constraint) + 1 }
        ensures count { length self.new ≡ length self.old }
        ensures others { (id : ℕ) → id ≢ constraint → violating_of self.new id ≡ violating_of self.old id }
        ensures flags { (id place : ℕ) → flag (violating_of self.new id) place ≡ flag (violating_of self.old id) place }
    {
        drop_place(&mut self.constraints, constraint);
    }

    /// Removes all places of a constraint. It allocates nothing.
    pub fn clear(&mut self, constraint: usize)
        requires known { constraint < length self.old }
        ensures violating { self.new ≡ with_violating self.old constraint [] }
        ensures own { violating_of self.new constraint ≡ [] }
        ensures others { (id : ℕ) → id ≢ constraint → violating_of self.new id ≡ violating_of self.old id }
        ensures count { length self.new ≡ length self.old }
    {
        clear(
            self.alloc,
            &mut self.constraints,
            &mut self.violated,
            constraint,
        );
    }

    /// Drops the constraints from a number on, none of which has a flagged place. It allocates nothing.
    pub fn truncate(&mut self, count: usize)
        requires unflagged { (id : ℕ) → count ≤ id → is_any (violating_of self.old id) ≡ false }
        ensures violating { self.new ≡ take count self.old }
    {
        truncate(&mut self.constraints, &self.violated, count);
    }

    /// Whether a place of a constraint is flagged: false if there is no such place.
    pub fn is_flagged(&self, constraint: usize, place: usize) -> bool
        ensures { result ≡ flag (violating_of self.now constraint) place }
    {
        is_flagged(self.constraints.as_slice(), constraint, place)
    }

    /// Whether some place of some constraint is flagged. It is one comparison.
    pub fn is_any(&self) -> bool
        ensures { result ≡ has_any self.now }
    {
        is_any(self.constraints.as_slice(), &self.violated)
    }

    /// Flags a place of a constraint, or removes its flag. It allocates nothing, and takes constant time.
    pub fn set(&mut self, constraint: usize, place: usize, raised: bool)
        requires known { constraint < length self.old }
        requires place { place < length (violating_of self.old constraint) }
        ensures violating { self.new ≡ with_violating self.old constraint (with_flag (violating_of self.old constraint) place raised) }
        ensures own { violating_of self.new constraint ≡ with_flag (violating_of self.old constraint) place raised }
        ensures others { (id : ℕ) → id ≢ constraint → violating_of self.new id ≡ violating_of self.old id }
        ensures count { length self.new ≡ length self.old }
    {
        set(
            &mut self.constraints,
            &mut self.violated,
            constraint,
            place,
            raised,
        );
    }

    /// The flagged places of a constraint, each once, in no order that callers know: none if there is no such
    /// constraint.
    pub fn flagged(&self, constraint: usize) -> &[usize]
        ensures members { (place : ℕ) → has place result.now ≡ flag (violating_of self.now constraint) place }
        ensures once { NoRepeats result.now }
    {
        flagged(self.constraints.as_slice(), constraint)
    }

    /// The numbers of the constraints with a flagged place, each once, in no order that callers know.
    pub fn violated(&self) -> &[usize]
        ensures members { (id : ℕ) → has id result.now ≡ is_any (violating_of self.now id) }
        ensures once { NoRepeats result.now }
    {
        violated(self.constraints.as_slice(), &self.violated)
    }
}
