//! All violations.
ghost use Rattle.std.specs.Prelude.{◌≡◌, ◌*◌, ◌≤◌, ◌<◌, ◌^◌, ◌++◌, ℕ, true, List, length, map, flat_map, IfOk, OnOk};
ghost use Rattle.iv_catalogue.specs.declared.constraint.Constraint.{Constraint};
ghost use Rattle.iv_catalogue.specs.declared.limits.TheConstants.{MOST_CONSTRAINTS, MOST_TABLES};
ghost use Rattle.iv_machine.specs.Databases.{is_chosen};
ghost use Rattle.iv_laws_kept.specs.Kept.{fault_of, kept};
ghost use Rattle.iv_laws_kept.specs.GroupFlags.{AreFlagged};
ghost use Rattle.iv_laws_kept.specs.Numbers.{has};
ghost use Rattle.iv_store_violating.specs.Answers.{HaveGroups, faults_kept};
ghost use Rattle.iv_store_violating.specs.Shown.{shown};

use crate::chosen::list_chosen;
use crate::rows::{list_rows, sort_once};
use crate::violating_groups::ViolatingGroups;
use iv_catalogue::{ConstraintId, Fault};
use iv_machine::Which;
use iv_modes::Modes;
use iv_store_groups::Groups;
use std::alloc::{AllocError, Global};

// Adds the violations of a constraint by these rows.
fn push_rows(faults: &mut Vec<Fault>, id: u64, rows: &[u64]) -> Result<(), AllocError>
    requires { id < 2 ^ 32 }
    ensures { OnOk result (faults.new.items ≡ faults.old.items ++ map (fault_of id) rows.now) }
{
    for row in rows {
        faults.push(Fault {
            constraint: ConstraintId::new(id as u32),
            row: *row,
        })?;
    }
    Ok(())
}

// Adds the violations of a constraint.
fn push_faults(
    alloc: Global,
    faults: &mut Vec<Fault>,
    violating: &ViolatingGroups,
    groups: &Groups,
    id: u64,
) -> Result<(), AllocError>
    requires within { HaveGroups violating.now (shown groups.now.groups) }
    requires small { id < 2 ^ 32 }
    ensures { OnOk result ((constraints : List Constraint)
        → length violating.now ≤ length constraints → AreFlagged constraints (shown groups.now.groups) violating.now
        → faults.new.items ≡ faults.old.items ++ faults_kept constraints (shown groups.now.groups) id) }
{
    let rows = list_rows(alloc, groups, id as usize, violating.flagged(id as usize))?;
    push_rows(faults, id, rows.as_slice())?;
    Ok(())
}

// Adds the violations of these constraints.
fn push_among(
    alloc: Global,
    faults: &mut Vec<Fault>,
    violating: &ViolatingGroups,
    groups: &Groups,
    ids: &[u64],
) -> Result<(), AllocError>
    requires within { HaveGroups violating.now (shown groups.now.groups) }
    requires small { (id : ℕ) → has id ids.now ≡ true → id < 2 ^ 32 }
    ensures { OnOk result ((constraints : List Constraint)
        → length violating.now ≤ length constraints → AreFlagged constraints (shown groups.now.groups) violating.now
        → faults.new.items ≡
        faults.old.items ++ flat_map (faults_kept constraints (shown groups.now.groups)) ids.now) }
{
    for id in ids {
        push_faults(alloc, faults, violating, groups, *id)?;
    }
    Ok(())
}

impl ViolatingGroups {
    /// All violations of the chosen constraints, in creation order, then by row. It sorts the numbers of these
    /// constraints, and the rows of each.
    pub fn list(
        &self,
        alloc: Global,
        groups: &Groups,
        modes: &Modes,
        which: Which,
    ) -> Result<Vec<Fault>, AllocError>
        requires within { HaveGroups self.now (shown groups.now.groups) }
        requires few { length self.now ≤ MOST_TABLES * MOST_CONSTRAINTS }
        ensures { IfOk result (λ faults. (constraints : List Constraint)
            → length self.now ≤ length constraints → AreFlagged constraints (shown groups.now.groups) self.now
            → faults.items ≡ kept constraints (shown groups.now.groups) (is_chosen modes.now.modes which)) }
    {
        let mut ids = list_chosen(alloc, modes.as_slice(), which, self.violated())?;
        sort_once(&mut ids);
        let mut faults = Vec::new(alloc);
        push_among(alloc, &mut faults, self, groups, ids.as_slice())?;
        Ok(faults)
    }
}
