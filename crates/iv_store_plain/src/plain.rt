//! A store that keeps lists and copies, and scans.
ghost use Rattle.std.specs.Prelude.{◌≡◌, ◌+◌, ◌*◌, ◌<◌, ◌≤◌, [], length, None, OnOk, OnErr};
ghost use Rattle.iv_catalogue.specs.Catalogues.{AllOn};
ghost use Rattle.iv_catalogue.specs.declared.limits.TheConstants.{MOST_CONSTRAINTS, MOST_TABLES};
ghost use Rattle.iv_store.specs.Stores.{store_with_table, store_with_constraint, first_violating_row};

use crate::database::PlainDatabase;
use crate::referencing::children;
use crate::touched::{first_fault, settle_touched, touch, touch_new};
use iv_catalogue::{
    Constraint, ConstraintId, Fault, Table, copy_constraint, copy_constraints, copy_table,
};
use iv_expr::{Change, Rows, StoredRow, TableId};
use iv_key::Key;
use iv_machine::{Which, count_faults, first_violating, list_faults};
use iv_modes::Modes;
use iv_store::{AddFault, ChangeableRows, Keeper, Mark, ReferencingRows};
use iv_value::Value;
use std::alloc::{AllocError, Global};
use std::marker::Model;

/// A store as lists: the rows of all tables in one list by number, copies of it as marks, and violations by the scan of
/// all rows, for the constraints on tables that were changed.
pub struct PlainStore {
    alloc: Global,
    tables: Vec<Table>,
    constraints: Vec<Constraint>,
    database: PlainDatabase,
    marks: Vec<PlainDatabase>,
    // The tables that were changed since no constraint was violated.
    touched: Vec<TableId>,
}

// Written out, so that it is proved once, and not again in each crate that drops a store.
impl Drop for PlainStore {
    fn drop(self) {
        let PlainStore {
            alloc: _,
            tables,
            constraints,
            database,
            marks,
            touched,
        } = self;
        drop(tables);
        drop(constraints);
        drop(database);
        drop(marks);
        drop(touched);
    }
}

impl Model for PlainStore {
    ghost use Rattle.iv_store.specs.Stores.{StoreState};
    ghost use Rattle.iv_store_plain.specs.Suspects.{Watched};
    ghost use Rattle.iv_expr.specs.contracts.tree.Cond as cond;
    ghost use Rattle.std.specs.Coded.{codes};

    ghost Value = { StoreState };

    ghost coded = { Prim.hlevel (codes, cond.the_row.coded) };

    ghost view = { λ s. record {
      tables = s.tables.items;
      constraints = s.constraints.items;
      base = s.database;
      marks = s.marks.items;
    } };

    ghost invariant = { λ s.
        Watched s.touched.items s.constraints.items s.database s.marks.items };
}

impl Rows for PlainStore {
    ghost rows = { λ s. s.base.rows };

    fn recall_order(&self) {
        let _ = self.database.rows();
    }

    fn scan(&self, table: TableId, after: u64) -> Option<(u64, &[Value])> {
        self.database.scan(table, after)
    }
}

impl ReferencingRows for PlainStore {
    ghost use Rattle.std.specs.Prelude.{false};

    ghost view = { λ s. s };

    ghost lookups = { λ _. 0 };

    ghost counts = { false };

    fn allocator(&self) -> Global {
        self.alloc
    }

    fn row(&self, number: u64) -> Option<&StoredRow> {
        self.database.row(number)
    }

    fn children(
        &mut self,
        foreign_key: ConstraintId,
        key: &Key<'_>,
    ) -> Result<Vec<u64>, AllocError> {
        children(
            self.alloc,
            self.database.rows(),
            self.constraints.as_slice(),
            foreign_key.place(),
            key,
        )
    }

    fn looked_up(&self) -> u64 {
        0
    }
}

impl PlainStore {
    /// The tables that were added.
    pub fn tables(&self) -> &[Table]
        ensures { result.now ≡ self.now.tables }
    {
        self.tables.as_slice()
    }

    /// The constraints that were added.
    pub fn constraints(&self) -> &[Constraint]
        ensures { result.now ≡ self.now.constraints }
    {
        self.constraints.as_slice()
    }

    /// How many marks there are.
    pub fn marks(&self) -> usize
        ensures { result ≡ length self.now.marks }
    {
        self.marks.len()
    }

    // Adds copies of a table and of its constraints.
    fn push_table(&mut self, table: &Table, constraints: &[Constraint]) -> Result<(), AllocError>
        requires unmarked { self.old.marks ≡ [] }
        requires own { AllOn (length self.old.tables) constraints.now }
        requires few { length self.old.constraints + length constraints.now
            ≤ MOST_TABLES * MOST_CONSTRAINTS }
        ensures ok { OnOk result (self.new ≡ store_with_table self.old table.now constraints.now) }
        ensures err { OnErr result (self.new ≡ self.old) }
    {
        let table = copy_table(self.alloc, table)?;
        let mut constraints = copy_constraints(self.alloc, constraints)?;
        self.tables.reserve(1)?;
        touch_new(
            &mut self.touched,
            self.database.rows(),
            constraints.as_slice(),
        )?;
        self.constraints.append(&mut constraints)?;
        self.tables.push_reserved(table);
        Ok(())
    }

    // Adds a copy of a constraint that no row violates.
    fn push_constraint(&mut self, constraint: &Constraint) -> Result<(), AllocError>
        requires unmarked { self.old.marks ≡ [] }
        requires satisfied { first_violating_row self.old constraint.now ≡ None }
        requires few { length self.old.constraints < MOST_TABLES * MOST_CONSTRAINTS }
        ensures ok { OnOk result (self.new ≡ store_with_constraint self.old constraint.now) }
        ensures err { OnErr result (self.new ≡ self.old) }
    {
        let constraint = copy_constraint(self.alloc, constraint)?;
        self.constraints.push(constraint)?;
        Ok(())
    }
}

impl ChangeableRows for PlainStore {
    ghost use Rattle.std.specs.Prelude.{refl};

    ghost rows_are = { λ k. refl };

    fn next_row(&self) -> u64 {
        self.database.next()
    }

    fn change_count(&self) -> u64 {
        self.database.count()
    }

    fn change(&mut self, change: &Change) -> Result<(), AllocError> {
        let copy = change.clone()?;
        touch(&mut self.touched, change.table)?;
        self.database.change(copy)
    }

    fn first_fault(&self, modes: &Modes, which: Which) -> Option<Fault> {
        first_fault(
            self.touched.as_slice(),
            self.database.rows(),
            self.constraints.as_slice(),
            modes.as_slice(),
            which,
        )
    }
}

impl Keeper for PlainStore {
    ghost use Rattle.std.specs.Prelude.{false};

    ghost sure = { false };

    fn new(alloc: Global) -> Self {
        PlainStore {
            alloc,
            tables: Vec::new(alloc),
            constraints: Vec::new(alloc),
            database: PlainDatabase::new(alloc),
            marks: Vec::new(alloc),
            touched: Vec::new(alloc),
        }
    }

    fn add_table(&mut self, table: &Table, constraints: &[Constraint]) -> Result<(), AllocError> {
        self.push_table(table, constraints)
    }

    fn add_constraint(&mut self, constraint: &Constraint) -> Result<(), AddFault> {
        match first_violating(self.database.rows(), constraint) {
            Some(row) => Err(AddFault::Row(row)),
            None => Ok(self.push_constraint(constraint)?),
        }
    }

    fn count_faults(&self, modes: &Modes, which: Which) -> u64 {
        count_faults(
            self.database.rows(),
            self.constraints.as_slice(),
            modes.as_slice(),
            which,
        )
    }

    fn list_faults(&self, modes: &Modes, which: Which) -> Result<Vec<Fault>, AllocError> {
        list_faults(
            self.alloc,
            self.database.rows(),
            self.constraints.as_slice(),
            modes.as_slice(),
            which,
        )
    }

    fn mark(&mut self) -> Result<Mark, AllocError> {
        let place = self.marks.len();
        self.marks.push(self.database.copy()?)?;
        Ok(Mark::new(place))
    }

    fn undo_to(&mut self, mark: Mark) -> Result<(), AllocError> {
        let database = self.marks[mark.place()].copy()?;
        self.marks.truncate(mark.place() + 1);
        self.database.go_back(database);
        Ok(())
    }

    fn undo(&mut self, mark: Mark) {
        self.marks.truncate(mark.place() + 1);
        if let Some(database) = self.marks.pop() {
            self.database.go_back(database);
        }
    }

    fn forget(&mut self, mark: Mark) {
        self.marks.remove(mark.place());
    }

    fn settle(&mut self) {
        self.marks.clear();
        self.database.settle();
        settle_touched(
            &mut self.touched,
            self.database.rows(),
            self.constraints.as_slice(),
        );
    }
}
