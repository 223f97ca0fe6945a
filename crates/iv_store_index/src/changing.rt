//! Changes of rows that the groups and the violations follow, and the way back.
ghost use Rattle.std.specs.Prelude.{◌≡◌, [], ◌+◌, ◌-◌, ◌*◌, ◌<◌, ◌≤◌, length, take, true, false, IfSome, OnOk, OnErr};
ghost use Rattle.iv_machine.specs.Bounds.{last_row_number, most_changes_in_a_transaction};
ghost use Rattle.iv_machine.specs.Databases.{row_at};
ghost use Rattle.iv_machine.specs.Waves.{values_at};
ghost use Rattle.iv_store_rows.specs.Histories.{after_change, at_mark, history_after, marked_databases, marked_of, noted_at, settled, stepped_back};
ghost use Rattle.iv_store_index.specs.Kept.{IsKept};

use iv_expr::Change;
use iv_store_faults::Faults;
use iv_store_groups::{CountedGroups, Groups};
use iv_store_rows::Versions;
use std::alloc::AllocError;

/// Makes a change of one row. If an allocation fails, the rows are as before, and what is kept shows them.
pub fn make(
    versions: &mut Versions,
    groups: &mut CountedGroups,
    faults: &mut Faults,
    change: &Change,
) -> Result<(), AllocError>
    requires kept { IsKept versions.old faults.old groups.old }
    requires current { values_at versions.old.rows change.now.row ≡ change.now.old }
    requires own { IfSome (row_at versions.old.rows change.now.row) (λ row. row.table ≡ change.now.table) }
    requires positive { 0 < change.now.row }
    requires small { change.now.row ≤ last_row_number }
    requires room { length versions.old.journal < most_changes_in_a_transaction }
    ensures ok { OnOk result (versions.new ≡ history_after versions.old change.now) }
    ensures marked { OnOk result (marked_of versions.new ≡ after_change change.now (marked_of versions.old)) }
    ensures err { OnErr result (versions.new ≡ versions.old) }
    ensures kept { IsKept versions.new faults.new groups.new }
    ensures constraints { faults.new.constraints ≡ faults.old.constraints }
    ensures grows { groups.old.looked_up ≤ groups.new.looked_up }
    ensures looked_up { OnOk result (groups.new.looked_up ≤ groups.old.looked_up + 7 * length faults.old.constraints) }
{
    faults.moved(groups, change)?;
    match versions.change(change) {
        Ok(()) => Ok(()),
        Err(refused) => {
            faults.moved_back(groups, change);
            Err(refused)
        }
    }
}

// Undoes the last change, if it was made since the mark of a place, and tells whether it was.
fn step_back(
    versions: &mut Versions,
    groups: &mut CountedGroups,
    faults: &mut Faults,
    place: usize,
) -> bool
    requires there { place < length versions.old.marks }
    requires kept { IsKept versions.old faults.old groups.old }
    ensures back { result ≡ true → versions.new ≡ stepped_back versions.old place }
    ensures marked { result ≡ true → marked_databases versions.new ≡ take (place + 1) (marked_databases versions.old) }
    ensures above { result ≡ true → noted_at versions.old.marks place < length versions.old.journal }
    ensures stays { result ≡ false → versions.new ≡ versions.old }
    ensures none { result ≡ false → length versions.old.journal ≤ noted_at versions.old.marks place }
    ensures kept { IsKept versions.new faults.new groups.new }
    ensures constraints { faults.new.constraints ≡ faults.old.constraints }
    ensures grows { groups.old.looked_up ≤ groups.new.looked_up }
    ensures looked_up { groups.new.looked_up ≤ groups.old.looked_up + 7 * length faults.old.constraints
        * (length versions.old.journal - length versions.new.journal) }
{
    match versions.last_change(place) {
        Some(change) => faults.moved_back(groups, change),
        None => return false,
    }
    versions.step_back(place);
    true
}

/// Goes back to the mark of a place. The mark stays, and later ones go. It allocates nothing, and takes at most seven
/// look-ups for each constraint and each change that it undoes.
pub fn go_back(
    versions: &mut Versions,
    groups: &mut CountedGroups,
    faults: &mut Faults,
    place: usize,
)
    requires there { place < length versions.old.marks }
    requires kept { IsKept versions.old faults.old groups.old }
    ensures marked { marked_of versions.new ≡ at_mark (marked_of versions.old) place }
    ensures journal { versions.new.journal ≡ take (noted_at versions.old.marks place) versions.old.journal }
    ensures marks { versions.new.marks ≡ take (place + 1) versions.old.marks }
    ensures kept { IsKept versions.new faults.new groups.new }
    ensures constraints { faults.new.constraints ≡ faults.old.constraints }
    ensures grows { groups.old.looked_up ≤ groups.new.looked_up }
    ensures looked_up { groups.new.looked_up ≤ groups.old.looked_up + 7 * length faults.old.constraints
        * (length versions.old.journal - length versions.new.journal) }
{
    while step_back(versions, groups, faults, place) {}
    versions.undo_to(place);
}

/// Drops all marks, and then gives groups without rows back, since no change is undone any more. It can't fail for lack
/// of memory, and makes no look-up.
pub fn settle(versions: &mut Versions, groups: &mut Groups, faults: &mut Faults)
    requires { IsKept versions.old faults.old groups.old }
    ensures versions { versions.new ≡ record versions.old { journal = []; marks = [] } }
    ensures marked { marked_of versions.new ≡ settled (marked_of versions.old) }
    ensures kept { IsKept versions.new faults.new groups.new }
    ensures constraints { faults.new.constraints ≡ faults.old.constraints }
    ensures looked_up { groups.new.looked_up ≡ groups.old.looked_up }
{
    versions.settle();
    faults.give_back(groups);
}
