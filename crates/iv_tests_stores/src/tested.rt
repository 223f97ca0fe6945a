//! A store with what its calls ask for, so that each is asserted before the call.
ghost use Rattle.std.specs.Prelude.{◌≡◌, ◌≤◌, ◌+◌, ◌*◌, true, IfSome};
ghost use Rattle.iv_machine.specs.Databases.{row_at};
ghost use Rattle.iv_machine.specs.Waves.{values_at};
ghost use Rattle.iv_store.specs.Stores.{fits_table};

use crate::asked::{are_on, assert_that, fits, have_keys};
use crate::schema::{put_copies, put_copy, put_table};
use iv_catalogue::{
    Catalogue, Constraint, ConstraintId, MOST_CONSTRAINTS, MOST_TABLES, Table, copy_constraint,
};
use iv_expr::{Change, Row, StoredRow, TableId};
use iv_key::Key;
use iv_machine::{LAST_ROW_NUMBER, MOST_CHANGES_IN_A_TRANSACTION};
use iv_store::{AddFault, Keeper, Mark};
use sqlite_items::Items;
use std::alloc::Global;
use std::marker::Model;
use std::panic::Expect;
use std::process::Abort;
use std::slice;

/// A store, what was added to it, and how many marks it has. Contracts see it as the store's state.
pub struct Tested<K: Keeper + Drop> {
    store: K,
    // The tables that were added to the store; and the constraints once more, whose modes are made of it.
    catalogue: Catalogue,
    constraints: Items<Constraint>,
    marks: usize,
}

impl<K: Keeper + Drop> Model for Tested<K> {
    ghost use Rattle.iv_store.specs.Stores.{StoreState};
    ghost use Rattle.iv_tests_stores.specs.Known.{IsKnown};
    ghost use Rattle.iv_expr.specs.contracts.tree.Cond as cond;
    ghost use Rattle.std.specs.Coded.{codes};

    ghost Value = { StoreState };

    ghost coded = { Prim.hlevel (codes, cond.the_row.coded) };

    ghost view = { λ t. K.view t.store };

    ghost invariant = { λ t. IsKnown (K.view t.store) t.catalogue.tables t.constraints t.marks };
}

impl<K: Keeper + Drop> Drop for Tested<K> {
    fn drop(self) {
        let Tested {
            store,
            catalogue,
            constraints,
            marks: _,
        } = self;
        drop(store);
        drop(catalogue);
        drop(constraints);
    }
}

// The values of a row, which is in this table.
fn values_of(rt: &impl Abort, row: &StoredRow, table: TableId) -> Row
    ensures { row.now ≡ record { table = table; number = row.now.number; values = result } }
{
    assert_that(
        rt,
        row.table.place() == table.place(),
        "a row of another table",
    );
    row.values.clone().expect(rt, "memory")
}

// What the row of a number holds, which isn't one of another table.
fn held<K: Keeper>(rt: &impl Abort, store: &K, table: TableId, number: u64) -> Option<Row>
    ensures current { values_at (K.view store.now).base.rows number ≡ result }
    ensures own { IfSome (row_at (K.view store.now).base.rows number) (λ row. row.table ≡ table) }
{
    match store.row(number) {
        Some(row) => Some(values_of(rt, row, table)),
        None => None,
    }
}

// Whether a row that comes fits its table.
fn fits_new(tables: &[Table], table: TableId, new: &Option<Row>) -> bool
    ensures { result ≡ true → IfSome new.now (λ values. fits_table tables.now table values ≡ true) }
{
    match new {
        Some(row) => fits(tables, table, row.values()),
        None => true,
    }
}

// Whether so many constraints more are few enough.
fn are_few(constraints: usize, more: usize) -> bool
    ensures { result ≡ true → constraints + more ≤ MOST_TABLES * MOST_CONSTRAINTS }
{
    let most = MOST_TABLES * MOST_CONSTRAINTS;
    constraints <= most && more <= most - constraints
}

// The row for which a constraint isn't added.
fn violating_row(rt: &impl Abort, fault: AddFault) -> u64 {
    match fault {
        AddFault::Row(row) => row,
        AddFault::NoMemory => panic!(rt; "memory"),
    }
}

impl<K: Keeper + Drop> Tested<K> {
    /// A store of no table.
    pub fn new(alloc: Global) -> Self {
        Tested {
            store: K::new(alloc),
            catalogue: Catalogue::new(alloc),
            constraints: Items::new(alloc),
            marks: 0,
        }
    }

    /// The store.
    pub fn store(&self) -> &K {
        &self.store
    }

    /// The tables and constraints that were added.
    pub fn catalogue(&self) -> &Catalogue {
        &self.catalogue
    }

    /// How many constraints were added.
    pub fn constraints(&self) -> usize {
        self.constraints.len()
    }

    /// How many marks there are.
    pub fn marks(&self) -> usize {
        self.marks
    }

    /// Adds a table with its constraints.
    pub fn add_table(
        &mut self,
        rt: &impl Abort,
        alloc: Global,
        table: Table,
        constraints: Items<Constraint>,
    ) {
        let more = constraints.as_slice();
        assert_that(rt, self.marks == 0, "there are marks");
        assert_that(
            rt,
            are_few(self.constraints.len(), more.len()),
            "too many constraints",
        );
        assert_that(
            rt,
            are_on(self.catalogue.tables().len(), more),
            "of another table",
        );
        assert_that(
            rt,
            have_keys(self.constraints.as_slice(), more),
            "no such key",
        );
        self.store.add_table(&table, more).expect(rt, "memory");
        put_table(rt, alloc, &mut self.catalogue, table);
        put_copies(rt, alloc, &mut self.catalogue, more);
        self.constraints.append(constraints).expect(rt, "memory");
    }

    /// Adds a constraint, or tells the first row that violates it.
    pub fn add_constraint(
        &mut self,
        rt: &impl Abort,
        alloc: Global,
        constraint: &Constraint,
    ) -> Option<u64> {
        assert_that(rt, self.marks == 0, "there are marks");
        assert_that(
            rt,
            are_few(self.constraints.len(), 1),
            "too many constraints",
        );
        let more = slice::from_ref(constraint);
        assert_that(
            rt,
            have_keys(self.constraints.as_slice(), more),
            "no such key",
        );
        if let Err(fault) = self.store.add_constraint(constraint) {
            return Some(violating_row(rt, fault));
        }
        put_copy(rt, alloc, &mut self.catalogue, constraint);
        let copy = copy_constraint(alloc, constraint).expect(rt, "memory");
        self.constraints.push(copy).expect(rt, "memory");
        None
    }

    /// Gives the row of a number these values, or takes it out, if it isn't one of another table.
    pub fn set(&mut self, rt: &impl Abort, table: u32, number: u64, new: Option<Row>) {
        let table = TableId::new(table);
        assert_that(rt, number > 0, "no number");
        assert_that(rt, number <= LAST_ROW_NUMBER, "no number");
        let changes = self.store.change_count();
        assert_that(
            rt,
            changes < MOST_CHANGES_IN_A_TRANSACTION,
            "too many changes",
        );
        let tables = self.catalogue.tables();
        assert_that(rt, (table.place() as usize) < tables.len(), "no such table");
        assert_that(rt, fits_new(tables, table, &new), "a row that doesn't fit");
        let old = held(rt, &self.store, table, number);
        let change = Change {
            table,
            row: number,
            old,
            new,
        };
        self.store.change(&change).expect(rt, "memory");
    }

    /// The rows that hold a key by a foreign key.
    pub fn children(&mut self, rt: &impl Abort, constraint: u32, key: &Key<'_>) -> Vec<u64> {
        let constraint = ConstraintId::new(constraint);
        self.store.children(constraint, key).expect(rt, "memory")
    }

    /// Marks the database, and tells the mark's place.
    pub fn mark(&mut self, rt: &impl Abort) -> usize {
        assert_that(rt, self.marks < usize::MAX, "too many marks");
        let mark = self.store.mark().expect(rt, "memory");
        self.marks += 1;
        mark.place()
    }

    /// Goes back to the mark of a place, which stays.
    pub fn undo_to(&mut self, rt: &impl Abort, place: usize) {
        assert_that(rt, place < self.marks, "no such mark");
        self.store.undo_to(Mark::new(place)).expect(rt, "memory");
        self.marks = place + 1;
    }

    /// Goes back to the mark of a place, which goes.
    pub fn undo(&mut self, rt: &impl Abort, place: usize) {
        assert_that(rt, place < self.marks, "no such mark");
        self.store.undo(Mark::new(place));
        self.marks = place;
    }

    /// Drops the mark of a place.
    pub fn forget(&mut self, rt: &impl Abort, place: usize) {
        assert_that(rt, place < self.marks, "no such mark");
        self.store.forget(Mark::new(place));
        self.marks -= 1;
    }

    /// Drops all marks, and counts no change.
    pub fn settle(&mut self) {
        self.store.settle();
        self.marks = 0;
    }
}
