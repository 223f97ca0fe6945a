//! Tables and constraints that are added to the catalogue and to a store.
ghost use Rattle.std.specs.Prelude.{◌≡◌, ◌+◌, ◌*◌, ◌<◌, ◌≤◌, [], ◌∷◌, true, length, IfOk, OnOk, OnErr};
ghost use Rattle.iv_catalogue.specs.Catalogues.{AllOn, with_constraint, with_table};
ghost use Rattle.iv_catalogue.specs.declared.limits.TheConstants.{MOST_CONSTRAINTS, MOST_TABLES};
ghost use Rattle.iv_modes.specs.ModeMaps.{initial_map};
ghost use Rattle.iv_store.specs.Stores.{AnswersAdding, first_violating_row, has_keys, store_with_constraint, store_with_table};
ghost use Rattle.iv_laws_fitting.specs.ConstraintShapes.{ConstraintFits, TableFits};
ghost use Rattle.iv_state.specs.Telling.{TellsAddition, TellsFault};

use iv_account::Account;
use iv_catalogue::{Catalogue, Constraint, Constraints, Table};
use iv_modes::Modes;
use iv_store::{AddFault, Keeper};
use std::alloc::AllocError;

// Copies a table of the catalogue, and its constraints from a place on, to the store; the modes of all
// constraints as they are initially.
fn copy_table<K: Keeper>(
    store: &mut K,
    catalogue: &Catalogue,
    table: &Table,
    constraints: &[Constraint],
) -> Result<Modes, AllocError>
    requires unmarked { (K.view store.old).marks ≡ [] }
    requires own { AllOn (length (K.view store.old).tables) constraints.now }
    requires keys { has_keys (K.view store.old) constraints.now ≡ true }
    requires few { length
        (K.view store.old).constraints + length constraints.now ≤ MOST_TABLES * MOST_CONSTRAINTS }
    ensures modes { IfOk result (λ modes. modes ≡ initial_map catalogue.now.constraints) }
    ensures ok { OnOk result (K.view store.new
        ≡ store_with_table (K.view store.old) table.now constraints.now) }
    ensures err { OnErr result (K.view store.new ≡ K.view store.old) }
{
    let modes = Modes::initial(store.allocator(), catalogue.constraints())?;
    store.add_table(table, constraints)?;
    Ok(modes)
}

// Adds a table and its constraints to the catalogue and to the store, or to neither. The answer is the modes of
// all constraints as they are initially. ("Table definition")
pub(crate) fn add_table<K: Keeper>(
    store: &mut K,
    catalogue: &mut Catalogue,
    table: Table,
    constraints: Constraints,
) -> Result<Modes, AllocError>
    requires unmarked { (K.view store.old).marks ≡ [] }
    requires tables { (K.view store.old).tables ≡ catalogue.old.tables }
    requires constraints { (K.view store.old).constraints ≡ catalogue.old.constraints }
    requires fits { TableFits catalogue.old table constraints }
    ensures modes { IfOk result (λ modes. modes ≡ initial_map catalogue.new.constraints) }
    ensures catalogue { OnOk result (catalogue.new ≡ with_table catalogue.old table constraints) }
    ensures store { OnOk result (K.view store.new
        ≡ store_with_table (K.view store.old) table constraints) }
    ensures same { OnErr result (catalogue.new ≡ catalogue.old) }
    ensures kept { OnErr result (K.view store.new ≡ K.view store.old) }
{
    let place = catalogue.tables().len();
    let first = catalogue.constraints().len();
    catalogue.add_table(table, constraints)?;
    let added = &catalogue.tables()[place];
    let others = &catalogue.constraints()[first..];
    match copy_table(store, catalogue, added, others) {
        Ok(modes) => Ok(modes),
        Err(error) => {
            catalogue.take_table();
            Err(error)
        }
    }
}

// Copies a constraint of the catalogue to the store; the modes of all constraints as they are initially.
fn copy_constraint<K: Keeper>(
    store: &mut K,
    catalogue: &Catalogue,
    constraint: &Constraint,
) -> Result<Modes, AddFault>
    requires unmarked { (K.view store.old).marks ≡ [] }
    requires keys { has_keys (K.view store.old) (constraint.now ∷ []) ≡ true }
    requires few { length (K.view store.old).constraints < MOST_TABLES * MOST_CONSTRAINTS }
    ensures answer { AnswersAdding (first_violating_row (K.view store.old) constraint.now) result }
    ensures modes { IfOk result (λ modes. modes ≡ initial_map catalogue.now.constraints) }
    ensures ok { OnOk result (K.view store.new
        ≡ store_with_constraint (K.view store.old) constraint.now) }
    ensures err { OnErr result (K.view store.new ≡ K.view store.old) }
{
    let modes = Modes::initial(store.allocator(), catalogue.constraints())?;
    store.add_constraint(constraint)?;
    Ok(modes)
}

// Records the row that a constraint isn't added for, if there is one.
fn tell_fault<K: Keeper>(
    store: &K,
    constraint: &Constraint,
    fault: &AddFault,
    account: &mut Account,
) -> Result<(), AllocError>
    ensures { OnOk result (TellsFault (K.view store.now).base.rows constraint.now fault.now
        account.old account.new) }
{
    match fault {
        AddFault::Row(number) => account.refused_addition(store, constraint, *number),
        AddFault::NoMemory => Ok(()),
    }
}

// The same as `copy_constraint`, with the row that the constraint isn't added for.
fn copy_telling<K: Keeper>(
    store: &mut K,
    catalogue: &Catalogue,
    constraint: &Constraint,
    account: &mut Account,
) -> Result<Modes, AddFault>
    requires unmarked { (K.view store.old).marks ≡ [] }
    requires keys { has_keys (K.view store.old) (constraint.now ∷ []) ≡ true }
    requires few { length (K.view store.old).constraints < MOST_TABLES * MOST_CONSTRAINTS }
    ensures answer { AnswersAdding (first_violating_row (K.view store.old) constraint.now) result }
    ensures modes { IfOk result (λ modes. modes ≡ initial_map catalogue.now.constraints) }
    ensures ok { OnOk result (K.view store.new
        ≡ store_with_constraint (K.view store.old) constraint.now) }
    ensures err { OnErr result (K.view store.new ≡ K.view store.old) }
    ensures told { TellsAddition (K.view store.old).base.rows constraint.now result
        account.old account.new }
{
    match copy_constraint(store, catalogue, constraint) {
        Ok(modes) => Ok(modes),
        Err(fault) => {
            tell_fault(store, constraint, &fault, account)?;
            Err(fault)
        }
    }
}

// Adds a constraint to the catalogue and to the store, or to neither. The answer is the modes of all constraints as
// they are initially. It is refused if a row violates the constraint, and the account tells the row. ("Add table
// constraint definition")
pub(crate) fn add_constraint<K: Keeper>(
    store: &mut K,
    catalogue: &mut Catalogue,
    constraint: Constraint,
    account: &mut Account,
) -> Result<Modes, AddFault>
    requires unmarked { (K.view store.old).marks ≡ [] }
    requires constraints { (K.view store.old).constraints ≡ catalogue.old.constraints }
    requires fits { ConstraintFits catalogue.old constraint }
    ensures answer { AnswersAdding (first_violating_row (K.view store.old) constraint) result }
    ensures modes { IfOk result (λ modes. modes ≡ initial_map catalogue.new.constraints) }
    ensures catalogue { OnOk result (catalogue.new ≡ with_constraint catalogue.old constraint) }
    ensures store { OnOk result (K.view store.new
        ≡ store_with_constraint (K.view store.old) constraint) }
    ensures same { OnErr result (catalogue.new ≡ catalogue.old) }
    ensures kept { OnErr result (K.view store.new ≡ K.view store.old) }
    ensures told { TellsAddition (K.view store.old).base.rows constraint result
        account.old account.new }
{
    let place = catalogue.constraints().len();
    catalogue.add_constraint(constraint)?;
    let added = &catalogue.constraints()[place];
    match copy_telling(store, catalogue, added, account) {
        Ok(modes) => Ok(modes),
        Err(fault) => {
            catalogue.take_constraint();
            Err(fault)
        }
    }
}
