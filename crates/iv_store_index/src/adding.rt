//! Tables and constraints that are added.
ghost use Rattle.std.specs.Prelude.{◌≡◌, ◌≢◌, ℕ, ◌+◌, ◌*◌, ◌<◌, ◌≤◌, ◌++◌, ◌∷◌, [], length, find, option_map, slice_get, IfErr, OnOk, OnErr};
ghost use Rattle.iv_catalogue.specs.Catalogues.{AllOn};
ghost use Rattle.iv_catalogue.specs.declared.limits.TheConstants.{MOST_CONSTRAINTS, MOST_TABLES};
ghost use Rattle.iv_store_groups.specs.Groups.{groups_of};
ghost use Rattle.iv_store_rows.specs.Histories.{History};
ghost use Rattle.iv_laws_kept.specs.Kept.{AllNamed};
ghost use Rattle.iv_machine.specs.Databases.{violates};
ghost use Rattle.iv_store.specs.Stores.{AnswersAdding};
ghost use Rattle.iv_store_index.specs.Kept.{HasTables, IsKept};

use crate::kinds::{ColumnKinds, column_kinds};
use iv_catalogue::{Constraint, Table, copy_table};
use iv_store::AddFault;
use iv_store_faults::Faults;
use iv_store_groups::Groups;
use iv_store_rows::Versions;
use std::alloc::{AllocError, Global};
use std::slice;

// Takes all groups of the constraints of these numbers away.
fn clear(groups: &mut Groups, first: usize, end: usize)
    requires { end ≤ length groups.old.groups }
    ensures cleared { (k : ℕ) → first ≤ k → k < end → groups_of groups.new.groups k ≡ [] }
    ensures others { (k : ℕ) → k < first → groups_of groups.new.groups k ≡ groups_of groups.old.groups k }
    ensures count { length groups.new.groups ≡ length groups.old.groups }
    ensures looked_up { groups.new.looked_up ≡ groups.old.looked_up }
{
    for id in first..end {
        groups.clear(id);
    }
}

/// Adds a table without rows, with its constraints; both are copied. If an allocation fails, all is as before.
pub fn add_table(
    alloc: Global,
    tables: &mut Vec<Table>,
    known: &mut Vec<ColumnKinds>,
    groups: &mut Groups,
    faults: &mut Faults,
    table: &Table,
    constraints: &[Constraint],
) -> Result<(), AllocError>
    requires own { AllOn (length tables.old.items) constraints.now }
    requires named { AllNamed (faults.old.constraints ++ constraints.now) }
    requires few { length faults.old.constraints + length constraints.now ≤ MOST_TABLES * MOST_CONSTRAINTS }
    ensures ok { OnOk result (tables.new.items ≡ tables.old.items ++ table.now ∷ []) }
    ensures err { OnErr result (tables.new.items ≡ tables.old.items) }
    ensures longer { OnOk result (length known.new.items ≡ length known.old.items + 1) }
    ensures as_long { OnErr result (length known.new.items ≡ length known.old.items) }
    ensures known { (t : ℕ) → t < length known.old.items → slice_get known.new.items t ≡ slice_get known.old.items t }
    ensures added { OnOk result (faults.new.constraints ≡ faults.old.constraints ++ constraints.now) }
    ensures still { OnErr result (faults.new.constraints ≡ faults.old.constraints) }
    ensures kept { (h : History) → h.marks ≡ [] → HasTables (length tables.old.items) h
        → IsKept h faults.old groups.old → IsKept h faults.new groups.new }
    ensures grows { groups.old.looked_up ≤ groups.new.looked_up }
{
    let first = faults.constraints().len();
    let end = first + constraints.len();
    let kinds = column_kinds(alloc, table)?;
    let table = copy_table(alloc, table)?;
    tables.reserve(1)?;
    known.reserve(1)?;
    groups.cover(end)?;
    clear(groups, first, end);
    faults.watch(groups, constraints)?;
    tables.push_reserved(table);
    known.push_reserved(kinds);
    Ok(())
}

// Fills the groups of a constraint and takes it up, unless a row violates it.
fn fill_and_watch(
    versions: &Versions,
    groups: &mut Groups,
    faults: &mut Faults,
    constraint: &Constraint,
) -> Result<(), AddFault>
    requires unmarked { versions.now.marks ≡ [] }
    requires named { AllNamed (faults.old.constraints ++ constraint.now ∷ []) }
    requires few { length faults.old.constraints < MOST_TABLES * MOST_CONSTRAINTS }
    requires known { length faults.old.constraints < length groups.old.groups }
    requires free { groups_of groups.old.groups (length faults.old.constraints) ≡ [] }
    requires kept { IsKept versions.now faults.old groups.old }
    ensures answer { AnswersAdding (option_map (λ r. r.number)
        (find (violates versions.now.rows constraint.now) versions.now.rows)) result }
    ensures ok { OnOk result (faults.new.constraints ≡ faults.old.constraints ++ constraint.now ∷ []) }
    ensures err { OnErr result (faults.new.constraints ≡ faults.old.constraints) }
    ensures kept { IsKept versions.now faults.new groups.new }
    ensures count { length groups.new.groups ≡ length groups.old.groups }
    ensures grows { groups.old.looked_up ≤ groups.new.looked_up }
{
    match faults.fill(groups, constraint, versions)? {
        Some(row) => Err(AddFault::Row(row)),
        None => {
            faults.watch(groups, slice::from_ref(constraint))?;
            Ok(())
        }
    }
}

/// Adds a constraint, which is copied, unless a row violates it. It looks at each row of the constraint's table twice.
pub fn add_constraint(
    versions: &Versions,
    groups: &mut Groups,
    faults: &mut Faults,
    constraint: &Constraint,
) -> Result<(), AddFault>
    requires unmarked { versions.now.marks ≡ [] }
    requires named { AllNamed (faults.old.constraints ++ constraint.now ∷ []) }
    requires few { length faults.old.constraints < MOST_TABLES * MOST_CONSTRAINTS }
    requires kept { IsKept versions.now faults.old groups.old }
    ensures answer { AnswersAdding (option_map (λ r. r.number)
        (find (violates versions.now.rows constraint.now) versions.now.rows)) result }
    ensures ok { OnOk result (faults.new.constraints ≡ faults.old.constraints ++ constraint.now ∷ []) }
    ensures err { OnErr result (faults.new.constraints ≡ faults.old.constraints) }
    ensures kept { IsKept versions.now faults.new groups.new }
    ensures grows { groups.old.looked_up ≤ groups.new.looked_up }
{
    let id = faults.constraints().len();
    groups.cover(id + 1)?;
    groups.clear(id);
    match fill_and_watch(versions, groups, faults, constraint) {
        Ok(()) => Ok(()),
        Err(fault) => {
            groups.clear(id);
            Err(fault)
        }
    }
}
