//! The name that a refusal for Unknown or Duplicate is about.
ghost use Rattle.std.specs.Prelude.{◌≡◌, option_map};
ghost use Rattle.iv_resolution.specs.NameFaults.{duplicate_name, name_fault};
ghost use Rattle.iv_resolve_name_faults.specs.Seen.{fault_seen};

use crate::duplicates::{
    duplicate_in_alteration, duplicate_in_insert, duplicate_in_table, duplicate_in_trigger,
    duplicate_in_update,
};
use crate::item::NameFault;
use crate::unknown::unknown_name;
use iv_catalogue::{Catalogue, Cause};
use iv_syntax::Statement;
use std::alloc::Global;

/// The first new name of the statement that is in use or comes twice, or the first column that comes twice in a list.
/// If a set of names can't be allocated, names are compared in place, so the call can't fail for lack of memory.
pub fn duplicate_name<'a>(
    alloc: Global,
    catalogue: &'a Catalogue,
    statement: &'a Statement,
) -> Option<NameFault<'a>>
    ensures { option_map fault_seen result
        ≡ duplicate_name catalogue.entry.now statement.entry.now }
{
    match statement {
        Statement::CreateTable { name, elements } => {
            duplicate_in_table(alloc, name.as_str(), elements.as_slice(), catalogue)
        }
        Statement::AlterTable { table, constraint } => {
            duplicate_in_alteration(alloc, table.as_str(), constraint, catalogue)
        }
        Statement::CreateTrigger(trigger) => duplicate_in_trigger(alloc, trigger, catalogue),
        Statement::Insert(insert) => duplicate_in_insert(alloc, insert),
        Statement::Update(update) => duplicate_in_update(alloc, update),
        _ => None,
    }
}

/// The name that the refusal of a statement for this cause is about; none unless the cause is Unknown or Duplicate.
pub fn name_fault<'a>(
    alloc: Global,
    catalogue: &'a Catalogue,
    statement: &'a Statement,
    cause: &Cause,
) -> Option<NameFault<'a>>
    ensures { option_map fault_seen result
        ≡ name_fault catalogue.entry.now statement.entry.now cause.now }
{
    match cause {
        Cause::Unknown => match unknown_name(alloc, catalogue, statement) {
            Some(item) => Some(NameFault::Unknown(item)),
            None => None,
        },
        Cause::Duplicate => duplicate_name(alloc, catalogue, statement),
        _ => None,
    }
}
