//! Rows that are changed one by one: what the statements of a level borrow.
ghost use Rattle.std.specs.Prelude.{◌≡◌, ◌+◌, ◌*◌, ◌<◌, ◌≤◌, true, length, OnOk, OnErr, IfSome};
ghost use Rattle.iv_machine.specs.Bounds.{last_row_number, most_changes_in_a_transaction};
ghost use Rattle.iv_machine.specs.Databases.{first, row_at};
ghost use Rattle.iv_machine.specs.Invariants.{Rising};
ghost use Rattle.iv_machine.specs.Waves.{values_at};
ghost use Rattle.iv_store.specs.Stores.{fits_table, store_after, store_faults, most_lookups};

use crate::referencing_rows::ReferencingRows;
use iv_catalogue::Fault;
use iv_expr::{Change, Rows};
use iv_machine::Which;
use iv_modes::Modes;
use std::alloc::AllocError;

/// Rows that are scanned, found by their keys and changed one by one. There is no mark, and no way back: the lender
/// undoes changes. Every call leaves what its clauses don't name as it was. If an allocation fails, all is as before
/// except the count of look-ups.
pub trait ChangeableRows: Rows + ReferencingRows {
    /// The number that the next new row takes, from 1.
    fn next_row(&self) -> u64
        ensures next { result ≡ (Self.view self.now).base.next }
        ensures rising { Rising 0 (Self.view self.now).base.rows (Self.view self.now).base.next }
        ensures within { (Self.view self.now).base.next ≤ last_row_number + 1 };

    /// The count of row changes in the transaction.
    fn change_count(&self) -> u64
        ensures count { result ≡ (Self.view self.now).base.count }
        ensures within { (Self.view self.now).base.count ≤ most_changes_in_a_transaction };

    /// Replaces, removes or adds a row. The store copies what it keeps of the change.
    fn change(&mut self, change: &Change) -> Result<(), AllocError>
        requires added { change.now.table < length (Self.view self.old).tables }
        requires current { values_at (Self.view self.old).base.rows change.now.row ≡ change.now.old }
        requires own { IfSome (row_at (Self.view self.old).base.rows change.now.row)
            (λ row. row.table ≡ change.now.table) }
        requires fits { IfSome change.now.new
            (λ values. fits_table (Self.view self.old).tables change.now.table values ≡ true) }
        requires positive { 0 < change.now.row }
        requires small { change.now.row ≤ last_row_number }
        requires room { (Self.view self.old).base.count < most_changes_in_a_transaction }
        ensures ok { OnOk result (Self.view self.new ≡ store_after (Self.view self.old) change.now) }
        ensures err { OnErr result (Self.view self.new ≡ Self.view self.old) }
        ensures grows { Self.lookups self.old ≤ Self.lookups self.new }
        ensures looked_up { OnOk result (Self.lookups self.new ≤
            Self.lookups self.old + most_lookups * length (Self.view self.old).constraints) };

    /// The first violation of the chosen constraints, in creation order, then by row. It allocates nothing.
    fn first_fault(&self, modes: &Modes, which: Which) -> Option<Fault>
        ensures { result ≡ first (store_faults (Self.view self.now) modes.now.modes which) };

    /// The rows that are scanned are those of the database.
    ghost rows_are: { (k : Self) → Self.rows k ≡ (Self.view k).base.rows };
}
