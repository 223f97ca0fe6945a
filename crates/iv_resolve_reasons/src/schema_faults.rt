//! The rule of definitions that a statement breaks first.
ghost use Rattle.std.specs.Prelude.{◌≡◌, option_map};
ghost use Rattle.iv_resolve_reasons.specs.SchemaFaults.{schema_fault};
ghost use Rattle.iv_resolve_reasons.specs.Seen.{schema_fault_seen};

use crate::allowed::fault_in_trigger;
use crate::definitions::{fault_in_alteration, fault_in_table};
use crate::rule::SchemaFault;
use iv_catalogue::Catalogue;
use iv_syntax::Statement;
use std::alloc::Global;

/// The first rule of definitions that a statement breaks. There is one if and only if the statement deserves SchemaFault.
/// Only for a CREATE TABLE indexes of its columns and keys are allocated; if they can't be, columns and keys are searched
/// one after another.
pub fn schema_fault<'a>(
    alloc: Global,
    catalogue: &'a Catalogue,
    statement: &'a Statement,
) -> Option<SchemaFault<'a>>
    ensures { option_map schema_fault_seen result
        ≡ schema_fault catalogue.entry.now statement.entry.now }
{
    match statement {
        Statement::CreateTable { name, elements } => {
            fault_in_table(alloc, catalogue, name.as_str(), elements.as_slice())
        }
        Statement::AlterTable { table, constraint } => {
            fault_in_alteration(catalogue, table.as_str(), constraint)
        }
        Statement::CreateTrigger(trigger) => fault_in_trigger(trigger, catalogue),
        _ => None,
    }
}
