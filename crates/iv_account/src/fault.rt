//! The rows that a violation is about.
ghost use Rattle.std.specs.Prelude.{◌≡◌, [], ◌∷◌, ◌++◌, false, Ok, Some, find, slice_get, IfOk, OnOk};
ghost use Rattle.std.specs.Option.{option_copied};
ghost use Rattle.iv_account.specs.Accounts.{equal_row_by, fault_told, if_some, not_added_told, rows_of_violation, with_equal_row};
ghost use Rattle.iv_account.specs.Telling.{and_told};

use crate::account::Account;
use crate::equal::equal_row;
use iv_catalogue::{Catalogue, Constraint, Fault, Rule, copy_constraint};
use iv_expr::{Rows, StoredRow};
use iv_store::{ChangeableRows, ReferencingRows};
use iv_syntax::NullTreatment;
use std::alloc::{AllocError, Global};

// The first other row with the key of a row, if a constraint is about a key.
fn equal_row_by<R: Rows>(
    alloc: Global,
    rows: &R,
    constraint: &Constraint,
    row: &StoredRow,
) -> Result<Option<StoredRow>, AllocError>
    ensures { IfOk result (λ r. if_some r
        ≡ equal_row_by (R.rows rows.now) constraint.now.table constraint.now.rule row.now) }
{
    match &constraint.rule {
        Rule::Unique(nulls, columns) => equal_row(
            alloc,
            rows,
            constraint.table,
            *nulls,
            columns.as_slice(),
            row,
        ),
        Rule::PrimaryKey(columns) => equal_row(
            alloc,
            rows,
            constraint.table,
            NullTreatment::Distinct,
            columns.as_slice(),
            row,
        ),
        _ => Ok(None),
    }
}

// A row that violates a constraint, and the one whose key it has.
fn with_equal_row<R: Rows>(
    alloc: Global,
    rows: &R,
    constraint: Option<&Constraint>,
    row: &StoredRow,
) -> Result<Vec<StoredRow>, AllocError>
    ensures { IfOk result (λ v. v.items
        ≡ with_equal_row (R.rows rows.now) (option_copied constraint.entry) row.now) }
{
    let mut found = Vec::new(alloc);
    found.push(row.clone()?)?;
    if let Some(constraint) = constraint {
        if let Some(equal) = equal_row_by(alloc, rows, constraint, row)? {
            found.push(equal)?;
        }
    }
    Ok(found)
}

// The rows of a violation of a constraint by the row of this number.
fn rows_of_violation<K: ChangeableRows>(
    store: &K,
    constraint: Option<&Constraint>,
    number: u64,
) -> Result<Vec<StoredRow>, AllocError>
    ensures { IfOk result (λ v. v.items
        ≡ rows_of_violation (K.view store.now).base.rows (option_copied constraint.entry) number) }
{
    let alloc = store.allocator();
    match store.row(number) {
        Some(row) => with_equal_row(alloc, store, constraint, row),
        None => Ok(Vec::new(alloc)),
    }
}

impl Account {
    /// Records a violation in a store, with its rows. For a key it looks at the rows of the key if the store keeps
    /// them, and otherwise at each row of the table, up to the first other one.
    pub fn violated<K: ChangeableRows>(
        &mut self,
        store: &K,
        catalogue: &Catalogue,
        fault: &Fault,
    ) -> Result<(), AllocError>
        ensures told { OnOk result (self.new ≡ and_told self.old
            (fault_told catalogue.now (K.view store.now).base.rows fault.now ∷ [])) }
        ensures unasked { self.old.asked ≡ false → result ≡ Ok tt }
    {
        if !self.is_asked() {
            return Ok(());
        }
        let rows = rows_of_violation(store, catalogue.constraint(fault.constraint), fault.row)?;
        self.faulted(*fault, rows)
    }

    /// Records that a constraint isn't added to a store, as the row of this number violates it, with its rows. The
    /// entry has a copy of the constraint. For a key it looks at rows as `violated` does.
    pub fn refused_addition<K: ChangeableRows>(
        &mut self,
        store: &K,
        constraint: &Constraint,
        number: u64,
    ) -> Result<(), AllocError>
        ensures told { OnOk result (self.new ≡ and_told self.old
            (not_added_told (K.view store.now).base.rows constraint.now number ∷ [])) }
        ensures unasked { self.old.asked ≡ false → result ≡ Ok tt }
    {
        if !self.is_asked() {
            return Ok(());
        }
        let rows = rows_of_violation(store, Some(constraint), number)?;
        let copy = copy_constraint(store.allocator(), constraint)?;
        self.not_added(copy, rows)
    }
}
