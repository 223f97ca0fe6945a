//! Violations that are kept, change by change.
ghost use Rattle.std.specs.Prelude.{◌≡◌, ◌≢◌, ℕ, ◌+◌, ◌-◌, ◌*◌, ◌^◌, ◌<◌, ◌≤◌, [], ◌∷◌, ◌++◌, List, find, length, min, option_map, IfOk, OnOk, OnErr};
ghost use Rattle.iv_value.specs.declared.value.Value.{Value};
ghost use Rattle.iv_expr.specs.declared.row.StoredRow.{StoredRow};
ghost use Rattle.iv_catalogue.specs.declared.limits.TheConstants.{MOST_CONSTRAINTS, MOST_TABLES};
ghost use Rattle.iv_machine.specs.Databases.{first, is_chosen, rows_after, scan, violates};
ghost use Rattle.iv_store_groups.specs.Groups.{groups_of};
ghost use Rattle.iv_store_groups.specs.Laws.{size_of};
ghost use Rattle.iv_store_violating.specs.Shown.{shown};
ghost use Rattle.iv_laws_kept.specs.Kept.{AllNamed, KeysOnce, Show};
ghost use Rattle.iv_laws_kept.specs.GroupFlags.{AreFlagged};
ghost use Rattle.iv_laws_kept.specs.Moves.{Holds, taken_back};
ghost use Rattle.iv_store_following.specs.Following.{Followed};
ghost use Rattle.iv_store_following.specs.BorrowedChange.{IsPresent};
ghost use Rattle.iv_store_following.specs.Turns.{AllGiven, AllStay};
ghost use Rattle.iv_store_faults.specs.Watch.{foreign_keys_of, keys_of};
ghost use Rattle.iv_store_faults.specs.Watching.{AreWatched, HasRoomBack, IsShownBy, IsTakenUp, NoneViolates};

use crate::filling::fill;
use crate::table_constraints::TableConstraints;
use crate::watching::take_up;
use iv_catalogue::{Constraint, Fault};
use iv_expr::{Change, Rows, TableId};
use iv_machine::Which;
use iv_modes::Modes;
use iv_store_following::{
    BorrowedChange, KeyReference, WatchedConstraints, follow, give_back, make_room_and_follow,
};
use iv_store_groups::{CountedGroups, Groups};
use iv_store_violating::ViolatingGroups;
use std::alloc::{AllocError, Global};
use std::marker::Model;

/// The violations of the constraints that it watches, kept by groups of keys: a group violates its constraint as a
/// whole or not at all. Each call borrows the groups, and none gets a row. What follows a change borrows the groups by
/// the calls that are counted. Contracts see the constraints, and for each which of its groups are flagged as
/// violating.
#[derive(Drop)]
pub struct Faults {
    alloc: Global,
    constraints: Vec<Constraint>,
    references: Vec<Option<KeyReference>>,
    tables: Vec<TableConstraints>,
    violating: ViolatingGroups,
}

impl Model for Faults {
    ghost use Rattle.std.specs.Coded.{codes};
    ghost use Rattle.iv_expr.specs.contracts.tree.Cond as cond;
    ghost use Rattle.iv_store_faults.specs.Watching.{IsTakenUp, Watching};

    ghost coded = { Prim.hlevel (codes, cond.the_row.coded) };

    ghost Value = { Watching };

    ghost view = { λ f. record { constraints = f.constraints.items; violating = f.violating } };

    ghost invariant = { λ f. IsTakenUp f.constraints.items f.references.items f.tables.items f.violating };
}

// The numbers of the constraints on a table that are no foreign keys.
fn keys_of(tables: &[TableConstraints], table: TableId) -> &[u32]
    ensures { result.now ≡ keys_of tables.now table }
{
    match tables.get(table.place() as usize) {
        Some(lists) => lists.keys.as_slice(),
        None => &[],
    }
}

// The numbers of the foreign keys that are on a table or refer to it.
fn foreign_keys_of(tables: &[TableConstraints], table: TableId) -> &[u32]
    ensures { result.now ≡ foreign_keys_of tables.now table }
{
    match tables.get(table.place() as usize) {
        Some(lists) => lists.foreign_keys.as_slice(),
        None => &[],
    }
}

// Does nothing. It says that no two groups of a constraint have one key.
fn recall_keys(groups: &Groups)
    ensures { KeysOnce (shown groups.now.groups) }
{
    groups.recall_groups();
}

// Does nothing. It says the same of groups that are lent by the calls that are counted.
fn recall_counted_keys(groups: &CountedGroups)
    ensures { KeysOnce (shown groups.now.groups) }
{
    groups.recall_groups();
}

// Makes room for a change and follows it.
fn moved(
    groups: &mut CountedGroups,
    violating: &mut ViolatingGroups,
    tables: &[TableConstraints],
    constraints: &[Constraint],
    references: &[Option<KeyReference>],
    change: &Change,
) -> Result<(), AllocError>
    requires taken_up { IsTakenUp constraints.now references.now tables.now violating.old }
    requires watched { AreWatched (record { constraints = constraints.now; violating = violating.old }) groups.old }
    requires present { IsPresent constraints.now (shown groups.old.groups) change.now }
    ensures ok { OnOk result (Followed constraints.now change.now 7 groups.old groups.new violating.old violating.new) }
    ensures err { OnErr result (AllStay constraints.now (length constraints.now) groups.old groups.new violating.old violating.new) }
{
    let lists = WatchedConstraints {
        constraints,
        references,
        keys: keys_of(tables, change.table),
        foreign_keys: foreign_keys_of(tables, change.table),
    };
    make_room_and_follow(groups, violating, &lists, &BorrowedChange::of(change))
}

// Follows the taking back of a change.
fn moved_back(
    groups: &mut CountedGroups,
    violating: &mut ViolatingGroups,
    tables: &[TableConstraints],
    constraints: &[Constraint],
    references: &[Option<KeyReference>],
    change: &Change,
)
    requires taken_up { IsTakenUp constraints.now references.now tables.now violating.old }
    requires watched { AreWatched (record { constraints = constraints.now; violating = violating.old }) groups.old }
    requires present { IsPresent constraints.now (shown groups.old.groups) (taken_back change.now) }
    requires room { HasRoomBack constraints.now groups.old.groups change.now }
    ensures { Followed constraints.now (taken_back change.now) 6 groups.old groups.new violating.old violating.new }
{
    let lists = WatchedConstraints {
        constraints,
        references,
        keys: keys_of(tables, change.table),
        foreign_keys: foreign_keys_of(tables, change.table),
    };
    follow(groups, violating, &lists, &BorrowedChange::back(change));
}

// Gives groups without rows back.
fn given_back(
    groups: &mut Groups,
    violating: &mut ViolatingGroups,
    tables: &[TableConstraints],
    constraints: &[Constraint],
    references: &[Option<KeyReference>],
)
    requires taken_up { IsTakenUp constraints.now references.now tables.now violating.old }
    requires watched { AreWatched (record { constraints = constraints.now; violating = violating.old }) groups.old }
    ensures given { AllGiven groups.old groups.new violating.old violating.new }
    ensures taken_up { IsTakenUp constraints.now references.now tables.now violating.new }
    ensures watched { AreWatched (record { constraints = constraints.now; violating = violating.new }) groups.new }
    ensures shown { (rows : List StoredRow)
        → IsShownBy rows (record { constraints = constraints.now; violating = violating.old }) groups.old
        → IsShownBy rows (record { constraints = constraints.now; violating = violating.new }) groups.new }
{
    let _ = tables;
    let _ = references;
    give_back(groups, violating, constraints.len());
}

impl Faults {
    /// No constraint is watched. It allocates nothing.
    pub fn new(alloc: Global) -> Faults
        ensures { result ≡ record { constraints = []; violating = [] } }
    {
        Faults {
            alloc,
            constraints: Vec::new(alloc),
            references: Vec::new(alloc),
            tables: Vec::new(alloc),
            violating: ViolatingGroups::new(alloc),
        }
    }

    /// The constraints that are watched, in creation order.
    pub fn constraints(&self) -> &[Constraint]
        ensures { result.now ≡ self.now.constraints }
    {
        self.constraints.as_slice()
    }

    /// The numbers of the constraints on a table that are no foreign keys. No clause tells which they are.
    pub fn on_table(&self, table: TableId) -> &[u32] {
        keys_of(self.tables.as_slice(), table)
    }

    /// The numbers of the foreign keys that are on a table or refer to it. No clause tells which they are.
    pub fn foreign_keys_of(&self, table: TableId) -> &[u32] {
        foreign_keys_of(self.tables.as_slice(), table)
    }

    /// Fills the groups of a constraint that is to be watched next with the rows of its table, and finds the first row
    /// that violates it. It looks at each row of the table twice, and counts the look-ups.
    pub fn fill<R: Rows>(
        &self,
        groups: &mut Groups,
        constraint: &Constraint,
        rows: &R,
    ) -> Result<Option<u64>, AllocError>
        requires named { AllNamed (self.now.constraints ++ constraint.now ∷ []) }
        requires few { length self.now.constraints < MOST_TABLES * MOST_CONSTRAINTS }
        requires known { length self.now.constraints < length groups.old.groups }
        requires free { groups_of groups.old.groups (length self.now.constraints) ≡ [] }
        requires shown { Show (R.rows rows.now) self.now.constraints (shown groups.old.groups) }
        ensures shown { OnOk result (Show (R.rows rows.now) (self.now.constraints ++ constraint.now ∷ [])
            (shown groups.new.groups)) }
        ensures first { IfOk result (λ found. found ≡ option_map (λ r. r.number)
            (find (violates (R.rows rows.now) constraint.now) (R.rows rows.now))) }
        ensures others { (k : ℕ) → k ≢ length self.now.constraints
            → groups_of groups.new.groups k ≡ groups_of groups.old.groups k }
        ensures count { length groups.new.groups ≡ length groups.old.groups }
        ensures grows { groups.old.looked_up ≤ groups.new.looked_up }
    {
        fill(
            self.alloc,
            groups,
            self.constraints.as_slice(),
            self.references.as_slice(),
            constraint,
            rows,
        )
    }

    /// Watches more constraints, all or none, which no row violates and whose groups are filled. Their numbers go on
    /// from those that are watched. The key that a foreign key names is watched, or comes with it. The cost is in
    /// proportion to the groups and to the watched constraints.
    pub fn watch(&mut self, groups: &Groups, more: &[Constraint]) -> Result<(), AllocError>
        requires known { length self.old.constraints + length more.now ≤ length groups.now.groups }
        requires named { AllNamed (self.old.constraints ++ more.now) }
        requires few { length self.old.constraints + length more.now ≤ MOST_TABLES * MOST_CONSTRAINTS }
        ensures ok { OnOk result (self.new.constraints ≡ self.old.constraints ++ more.now) }
        ensures err { OnErr result (self.new.constraints ≡ self.old.constraints) }
        ensures shown { OnOk result ((rows : List StoredRow) → IsShownBy rows self.old groups.now
            → Show rows (self.old.constraints ++ more.now) (shown groups.now.groups)
            → NoneViolates rows more.now → IsShownBy rows self.new groups.now) }
        ensures still { OnErr result ((rows : List StoredRow) → IsShownBy rows self.old groups.now
            → IsShownBy rows self.new groups.now) }
        ensures watched { OnOk result (AreWatched self.old groups.now → AreWatched self.new groups.now) }
        ensures still_watched { OnErr result (AreWatched self.old groups.now → AreWatched self.new groups.now) }
    {
        take_up(
            self.alloc,
            &mut self.constraints,
            &mut self.references,
            &mut self.tables,
            &mut self.violating,
            groups,
            more,
        )?;
        recall_keys(groups);
        Ok(())
    }

    /// Follows a change of a row in the groups, and flags those that then violate their constraint. If an allocation
    /// fails, what is kept shows the same rows as before. It takes at most seven look-ups for each constraint that the
    /// rows of the table meet, whatever the number of rows; a constraint whose key is the same on both sides takes
    /// none.
    pub fn moved(&mut self, groups: &mut CountedGroups, change: &Change) -> Result<(), AllocError>
        requires watched { AreWatched self.old groups.old }
        requires present { IsPresent self.old.constraints (shown groups.old.groups) change.now }
        ensures ok { OnOk result ((rows : List StoredRow) → Holds rows change.now → IsShownBy rows self.old groups.old
            → IsShownBy (rows_after rows (change.now ∷ [])) self.new groups.new) }
        ensures err { OnErr result ((rows : List StoredRow) → IsShownBy rows self.old groups.old
            → IsShownBy rows self.new groups.new) }
        ensures constraints { self.new.constraints ≡ self.old.constraints }
        ensures watched { AreWatched self.new groups.new }
        ensures count { length groups.new.groups ≡ length groups.old.groups }
        ensures sizes { (k : ℕ) (key : List Value) →
            size_of (groups_of groups.old.groups k) key ≤ size_of (groups_of groups.new.groups k) key }
        ensures grows { groups.old.looked_up ≤ groups.new.looked_up }
        ensures looked_up { groups.new.looked_up ≤ groups.old.looked_up + 7 * length self.old.constraints }
    {
        moved(
            groups,
            &mut self.violating,
            self.tables.as_slice(),
            self.constraints.as_slice(),
            self.references.as_slice(),
            change,
        )?;
        recall_counted_keys(groups);
        Ok(())
    }

    /// Follows a change that is taken back. It allocates nothing, and takes at most six look-ups for each constraint
    /// that the rows of the table meet.
    pub fn moved_back(&mut self, groups: &mut CountedGroups, change: &Change)
        requires watched { AreWatched self.old groups.old }
        requires present { IsPresent self.old.constraints (shown groups.old.groups) (taken_back change.now) }
        requires room { HasRoomBack self.old.constraints groups.old.groups change.now }
        ensures back { (rows : List StoredRow) → Holds rows change.now
            → IsShownBy (rows_after rows (change.now ∷ [])) self.old groups.old → IsShownBy rows self.new groups.new }
        ensures constraints { self.new.constraints ≡ self.old.constraints }
        ensures watched { AreWatched self.new groups.new }
        ensures count { length groups.new.groups ≡ length groups.old.groups }
        ensures sizes { (k : ℕ) (key : List Value) →
            size_of (groups_of groups.old.groups k) key ≤ size_of (groups_of groups.new.groups k) key }
        ensures grows { groups.old.looked_up ≤ groups.new.looked_up }
        ensures looked_up { groups.new.looked_up ≤ groups.old.looked_up + 6 * length self.old.constraints }
    {
        moved_back(
            groups,
            &mut self.violating,
            self.tables.as_slice(),
            self.constraints.as_slice(),
            self.references.as_slice(),
            change,
        );
        recall_counted_keys(groups);
    }

    /// Gives back groups without rows, and the room of others, as many steps as are due since the last call (`take_due`
    /// of `iv_store_groups`). What is kept shows the same rows as before. It can't fail for lack of memory, and makes
    /// no look-up. Afterwards a key may have less room.
    pub fn give_back(&mut self, groups: &mut Groups)
        requires watched { AreWatched self.old groups.old }
        ensures shown { (rows : List StoredRow) → IsShownBy rows self.old groups.old → IsShownBy rows self.new groups.new }
        ensures constraints { self.new.constraints ≡ self.old.constraints }
        ensures watched { AreWatched self.new groups.new }
        ensures count { length groups.new.groups ≡ length groups.old.groups }
        ensures looked_up { groups.new.looked_up ≡ groups.old.looked_up }
    {
        given_back(
            groups,
            &mut self.violating,
            self.tables.as_slice(),
            self.constraints.as_slice(),
            self.references.as_slice(),
        );
    }

    /// The first violation of the chosen constraints, in creation order, then by row. If nothing is violated, it is one
    /// comparison; otherwise it looks only at the violated constraints. It allocates nothing.
    pub fn first(&self, groups: &Groups, modes: &Modes, which: Which) -> Option<Fault>
        requires { AreFlagged self.now.constraints (shown groups.now.groups) self.now.violating }
        ensures { (rows : List StoredRow) → IsShownBy rows self.now groups.now
            → result ≡ first (scan rows self.now.constraints (is_chosen modes.now.modes which)) }
    {
        recall_keys(groups);
        self.violating.first(groups, modes, which)
    }

    /// How many violations there are; the count stays at 2^64 - 1 once it is there. It looks only at the violating
    /// groups, and allocates nothing.
    pub fn count(&self, groups: &Groups, modes: &Modes, which: Which) -> u64
        requires { AreFlagged self.now.constraints (shown groups.now.groups) self.now.violating }
        ensures { (rows : List StoredRow) → IsShownBy rows self.now groups.now
            → result ≡ min (length (scan rows self.now.constraints (is_chosen modes.now.modes which))) (2 ^ 64 - 1) }
    {
        recall_keys(groups);
        self.violating.count(groups, modes, which)
    }

    /// All violations, in creation order of the constraints, then by row. It looks only at the violating groups, and
    /// sorts their rows.
    pub fn list(
        &self,
        groups: &Groups,
        modes: &Modes,
        which: Which,
    ) -> Result<Vec<Fault>, AllocError>
        requires { AreFlagged self.now.constraints (shown groups.now.groups) self.now.violating }
        ensures { IfOk result (λ faults. (rows : List StoredRow) → IsShownBy rows self.now groups.now
            → faults.items ≡ scan rows self.now.constraints (is_chosen modes.now.modes which)) }
    {
        recall_keys(groups);
        let faults = self.violating.list(self.alloc, groups, modes, which)?;
        Ok(faults)
    }
}
