//! The first violation.
ghost use Rattle.std.specs.Prelude.{◌≡◌, ◌*◌, ◌≤◌, ◌<◌, ◌^◌, List, length, option_map};
ghost use Rattle.iv_catalogue.specs.declared.constraint.Constraint.{Constraint};
ghost use Rattle.iv_catalogue.specs.declared.limits.TheConstants.{MOST_CONSTRAINTS, MOST_TABLES};
ghost use Rattle.iv_machine.specs.Databases.{first, is_chosen};
ghost use Rattle.iv_laws_kept.specs.Kept.{fault_of, kept};
ghost use Rattle.iv_laws_kept.specs.GroupFlags.{AreFlagged};
ghost use Rattle.iv_store_violating.specs.Answers.{HaveGroups, rows_kept};
ghost use Rattle.iv_store_violating.specs.Shown.{shown};

use crate::chosen::least_chosen;
use crate::rows::first_row;
use crate::violating_groups::ViolatingGroups;
use iv_catalogue::{ConstraintId, Fault};
use iv_machine::Which;
use iv_modes::Modes;
use iv_store_groups::Groups;

// The first violation of a constraint.
fn first_of(violating: &ViolatingGroups, groups: &Groups, id: u64) -> Option<Fault>
    requires within { HaveGroups violating.now (shown groups.now.groups) }
    requires small { id < 2 ^ 32 }
    ensures { (constraints : List Constraint)
        → length violating.now ≤ length constraints → AreFlagged constraints (shown groups.now.groups) violating.now
        → result ≡ option_map (fault_of id) (first (rows_kept constraints (shown groups.now.groups) id)) }
{
    match first_row(groups, id as usize, violating.flagged(id as usize)) {
        Some(row) => Some(Fault {
            constraint: ConstraintId::new(id as u32),
            row,
        }),
        None => None,
    }
}

impl ViolatingGroups {
    /// The first violation of the chosen constraints, in creation order, then by row. If nothing is flagged, it is one
    /// comparison. Otherwise it takes a look at each constraint with a flagged group, and at each flagged group of the
    /// first chosen one. It allocates nothing.
    pub fn first(&self, groups: &Groups, modes: &Modes, which: Which) -> Option<Fault>
        requires within { HaveGroups self.now (shown groups.now.groups) }
        requires few { length self.now ≤ MOST_TABLES * MOST_CONSTRAINTS }
        ensures { (constraints : List Constraint)
            → length self.now ≤ length constraints → AreFlagged constraints (shown groups.now.groups) self.now
            → result ≡ first (kept constraints (shown groups.now.groups) (is_chosen modes.now.modes which)) }
    {
        match least_chosen(modes.as_slice(), which, self.violated()) {
            Some(id) => first_of(self, groups, id),
            None => None,
        }
    }
}
