//! How many violations there are.
ghost use Rattle.std.specs.Prelude.{◌≡◌, ◌-◌, ◌^◌, ◌≤◌, if◌then◌else◌, List, filter, length, min, flat_map};
ghost use Rattle.iv_catalogue.specs.declared.constraint.Constraint.{Constraint};
ghost use Rattle.iv_machine.specs.Databases.{is_chosen};
ghost use Rattle.iv_laws_kept.specs.Kept.{kept};
ghost use Rattle.iv_laws_kept.specs.GroupFlags.{AreFlagged};
ghost use Rattle.iv_store_violating.specs.Answers.{HaveGroups, faults_kept};
ghost use Rattle.iv_store_violating.specs.Apart.{AreApart};
ghost use Rattle.iv_store_violating.specs.Shown.{shown};

use crate::chosen::is_chosen;
use crate::rows::count_rows;
use crate::violating_groups::ViolatingGroups;
use iv_machine::Which;
use iv_modes::Modes;
use iv_store_groups::Groups;
use iv_syntax::ConstraintMode;

// How many violations of a constraint there are.
fn count_of(violating: &ViolatingGroups, groups: &Groups, id: usize) -> u64
    requires within { HaveGroups violating.now (shown groups.now.groups) }
    ensures { (constraints : List Constraint)
        → length violating.now ≤ length constraints → AreApart constraints (shown groups.now.groups)
        → AreFlagged constraints (shown groups.now.groups) violating.now
        → result ≡ min (length (faults_kept constraints (shown groups.now.groups) id)) (2 ^ 64 - 1) }
{
    count_rows(groups, id, violating.flagged(id))
}

// How many violations of a constraint there are, if it is meant.
fn count_if_chosen(
    violating: &ViolatingGroups,
    groups: &Groups,
    modes: &[ConstraintMode],
    which: Which,
    id: usize,
) -> u64
    requires within { HaveGroups violating.now (shown groups.now.groups) }
    ensures { (constraints : List Constraint)
        → length violating.now ≤ length constraints → AreApart constraints (shown groups.now.groups)
        → AreFlagged constraints (shown groups.now.groups) violating.now
        → result ≡ (if is_chosen modes.now which id
        then min (length (faults_kept constraints (shown groups.now.groups) id)) (2 ^ 64 - 1) else 0) }
{
    if is_chosen(modes, which, id) {
        count_of(violating, groups, id)
    } else {
        0
    }
}

// How many violations of these constraints there are, if they are meant.
fn count_among(
    violating: &ViolatingGroups,
    groups: &Groups,
    modes: &[ConstraintMode],
    which: Which,
    ids: &[usize],
) -> u64
    requires within { HaveGroups violating.now (shown groups.now.groups) }
    ensures { (constraints : List Constraint)
        → length violating.now ≤ length constraints → AreApart constraints (shown groups.now.groups)
        → AreFlagged constraints (shown groups.now.groups) violating.now
        → result ≡ min (length (flat_map (faults_kept constraints (shown groups.now.groups))
        (filter (is_chosen modes.now which) ids.now))) (2 ^ 64 - 1) }
{
    let mut count: u64 = 0;
    for id in ids {
        count = count.saturating_add(count_if_chosen(violating, groups, modes, which, *id));
    }
    count
}

impl ViolatingGroups {
    /// How many violations there are of the chosen constraints; the count stays at 2^64 - 1 once it is there. It takes
    /// a look at each constraint with a flagged group, and at each flagged group of the chosen ones. It allocates
    /// nothing.
    pub fn count(&self, groups: &Groups, modes: &Modes, which: Which) -> u64
        requires within { HaveGroups self.now (shown groups.now.groups) }
        ensures { (constraints : List Constraint)
            → length self.now ≤ length constraints → AreApart constraints (shown groups.now.groups)
            → AreFlagged constraints (shown groups.now.groups) self.now
            → result ≡ min (length (kept constraints (shown groups.now.groups) (is_chosen modes.now.modes which))) (2 ^ 64 - 1) }
    {
        count_among(self, groups, modes.as_slice(), which, self.violated())
    }
}
