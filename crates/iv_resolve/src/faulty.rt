//! Definitions that no schema can have.
ghost use Rattle.std.specs.Prelude.{◌≡◌};
ghost use Rattle.iv_resolution.specs.Resolution.{is_faulty};

use iv_catalogue::Catalogue;
use iv_resolve_statements::faulty_trigger;
use iv_resolve_tables::{faulty_addition, faulty_table};
use iv_syntax::Statement;
use std::alloc::Global;

/// Whether the statement defines what no schema can have.
pub fn is_faulty(alloc: Global, statement: &Statement, catalogue: &Catalogue) -> bool
    ensures { result ≡ is_faulty catalogue.now statement.now }
{
    match statement {
        Statement::CreateTable { name, elements } => {
            faulty_table(alloc, catalogue, name.as_str(), elements.as_slice())
        }
        Statement::AlterTable { table, constraint } => {
            faulty_addition(catalogue, table.as_str(), constraint)
        }
        Statement::CreateTrigger(trigger) => faulty_trigger(trigger, catalogue),
        _ => false,
    }
}
