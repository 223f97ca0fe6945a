//! The store that keeps groups, violations and a journal.
ghost use Rattle.std.specs.Prelude.{◌≡◌, length};

use crate::adding;
use crate::changing::{go_back, make, settle};
use crate::kinds::{ColumnKinds, known_kinds, note};
use crate::referencing::children;
use crate::searching::{holders, sharing};
use iv_catalogue::{Constraint, ConstraintId, Fault, Table};
use iv_expr::{Change, Rows, StoredRow, TableId, TableKinds};
use iv_key::Key;
use iv_machine::Which;
use iv_modes::Modes;
use iv_numbers::HeldRows;
use iv_store::{AddFault, ChangeableRows, Keeper, Mark, ReferencingRows};
use iv_store_faults::Faults;
use iv_store_groups::Groups;
use iv_store_rows::Versions;
use iv_value::Value;
use std::alloc::{AllocError, Global};
use std::marker::Model;

/// A store that finds rows by number and by key, keeps the violations as rows change, and goes back to a mark by a
/// journal. Contracts see it as what it holds; the count of look-ups is that of its groups.
pub struct IndexStore {
    alloc: Global,
    tables: Vec<Table>,
    known: Vec<ColumnKinds>,
    versions: Versions,
    groups: Groups,
    faults: Faults,
}

// Written out, so that it is proved once, and not again in each crate that drops a store.
impl Drop for IndexStore {
    fn drop(self) {
        let IndexStore {
            alloc: _,
            tables,
            known,
            versions,
            groups,
            faults,
        } = self;
        drop(tables);
        drop(known);
        drop(versions);
        drop(groups);
        drop(faults);
    }
}

impl Model for IndexStore {
    ghost use Rattle.std.specs.Prelude.{◌≡◌, length};
    ghost use Rattle.std.specs.Coded.{codes};
    ghost use Rattle.iv_expr.specs.contracts.tree.Cond as cond;
    ghost use Rattle.iv_store_index.specs.Kept.{HasTables, IsKept, Store, state_of};
    ghost use Rattle.iv_store_index.specs.Known.{AreKnown};

    ghost Value = { Store };

    ghost coded = { Prim.hlevel (codes, cond.the_row.coded) };

    ghost view = { λ s. record {
      state = state_of s.tables.items s.faults.constraints s.versions;
      looked_up = s.groups.looked_up;
    } };

    ghost invariant = { λ s. IsKept s.versions s.faults s.groups × HasTables (length s.tables.items) s.versions
        × AreKnown s.known.items s.versions × (length s.known.items ≡ length s.tables.items) };
}

impl Rows for IndexStore {
    ghost rows = { λ s. s.state.base.rows };

    fn recall_order(&self) {
        self.versions.recall_order();
    }

    fn scan(&self, table: TableId, after: u64) -> Option<(u64, &[Value])> {
        self.versions.scan(table, after)
    }

    fn known_kinds(&self, table: TableId) -> Option<TableKinds<'_>> {
        known_kinds(self.alloc, self.known.as_slice(), table)
    }

    fn holders(&self, table: TableId, asked: &[Value]) -> Option<HeldRows<'_>> {
        holders(&self.groups, &self.faults, table, asked)
    }

    fn sharing(&self, table: TableId, columns: &[u32], row: &[Value]) -> Option<HeldRows<'_>> {
        sharing(&self.groups, &self.faults, table, columns, row)
    }
}

impl ReferencingRows for IndexStore {
    ghost use Rattle.std.specs.Prelude.{true};

    ghost view = { λ s. s.state };

    ghost lookups = { λ s. s.looked_up };

    ghost counts = { true };

    fn allocator(&self) -> Global {
        self.alloc
    }

    fn row(&self, number: u64) -> Option<&StoredRow> {
        self.versions.row(number)
    }

    fn children(
        &mut self,
        foreign_key: ConstraintId,
        key: &Key<'_>,
    ) -> Result<Vec<u64>, AllocError> {
        self.versions.recall_order();
        children(
            self.alloc,
            self.groups.counted(),
            self.faults.constraints(),
            foreign_key.place() as usize,
            key,
        )
    }

    fn looked_up(&self) -> u64 {
        self.groups.looked_up()
    }
}

impl ChangeableRows for IndexStore {
    ghost use Rattle.std.specs.Prelude.{refl};

    ghost rows_are = { λ k. refl };

    fn next_row(&self) -> u64 {
        self.versions.next()
    }

    fn change_count(&self) -> u64 {
        self.versions.count()
    }

    fn change(&mut self, change: &Change) -> Result<(), AllocError> {
        note(&mut self.known, change);
        make(
            &mut self.versions,
            self.groups.counted(),
            &mut self.faults,
            change,
        )
    }

    fn first_fault(&self, modes: &Modes, which: Which) -> Option<Fault> {
        self.faults.first(&self.groups, modes, which)
    }
}

impl Keeper for IndexStore {
    ghost use Rattle.std.specs.Prelude.{true};

    ghost sure = { true };

    fn new(alloc: Global) -> Self {
        IndexStore {
            alloc,
            tables: Vec::new(alloc),
            known: Vec::new(alloc),
            versions: Versions::new(alloc),
            groups: Groups::new(alloc),
            faults: Faults::new(alloc),
        }
    }

    fn add_table(&mut self, table: &Table, constraints: &[Constraint]) -> Result<(), AllocError> {
        adding::add_table(
            self.alloc,
            &mut self.tables,
            &mut self.known,
            &mut self.groups,
            &mut self.faults,
            table,
            constraints,
        )
    }

    fn add_constraint(&mut self, constraint: &Constraint) -> Result<(), AddFault> {
        adding::add_constraint(
            &self.versions,
            &mut self.groups,
            &mut self.faults,
            constraint,
        )
    }

    fn count_faults(&self, modes: &Modes, which: Which) -> u64 {
        self.faults.count(&self.groups, modes, which)
    }

    fn list_faults(&self, modes: &Modes, which: Which) -> Result<Vec<Fault>, AllocError> {
        self.faults.list(&self.groups, modes, which)
    }

    fn mark(&mut self) -> Result<Mark, AllocError> {
        let place = self.versions.mark()?;
        Ok(Mark::new(place))
    }

    fn undo_to(&mut self, mark: Mark) -> Result<(), AllocError> {
        go_back(
            &mut self.versions,
            self.groups.counted(),
            &mut self.faults,
            mark.place(),
        );
        Ok(())
    }

    fn undo(&mut self, mark: Mark) {
        go_back(
            &mut self.versions,
            self.groups.counted(),
            &mut self.faults,
            mark.place(),
        );
        self.versions.forget(mark.place());
    }

    fn forget(&mut self, mark: Mark) {
        self.versions.forget(mark.place());
    }

    fn settle(&mut self) {
        settle(&mut self.versions, &mut self.groups, &mut self.faults);
    }
}
