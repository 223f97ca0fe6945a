//! Numbers of a statement that are beyond the limits.
ghost use Rattle.std.specs.Prelude.{◌≡◌};
ghost use Rattle.iv_resolution.specs.Resolution.{is_beyond_limits, is_too_large};
ghost use Rattle.iv_resolution.specs.Triggers.{trigger_beyond_limits};

use crate::is_writable;
use iv_catalogue::{Catalogue, MOST_BODY_STATEMENTS, MOST_TRIGGERS, MOST_TRIGGERS_EVER};
use iv_resolve_tables::{addition_beyond_limits, table_beyond_limits};
use iv_syntax::{Statement, TriggerDefinition};

fn trigger_beyond_limits(trigger: &TriggerDefinition, catalogue: &Catalogue) -> bool
    ensures { result ≡ trigger_beyond_limits catalogue.now trigger.now }
{
    catalogue.triggers().len() >= MOST_TRIGGERS
        || (catalogue.triggers_ever() >= MOST_TRIGGERS_EVER
            || trigger.body.as_slice().len() > MOST_BODY_STATEMENTS)
}

fn is_too_large(statement: &Statement, catalogue: &Catalogue) -> bool
    ensures { result ≡ is_too_large catalogue.now statement.now }
{
    match statement {
        Statement::CreateTable { elements, .. } => {
            table_beyond_limits(elements.as_slice(), catalogue)
        }
        Statement::AlterTable { table, constraint } => {
            addition_beyond_limits(table.as_str(), constraint, catalogue)
        }
        Statement::CreateTrigger(trigger) => trigger_beyond_limits(trigger, catalogue),
        _ => false,
    }
}

/// Whether a number of the statement is beyond the limits, or no text of the language is the statement.
pub fn is_beyond_limits(statement: &Statement, catalogue: &Catalogue) -> bool
    ensures { result ≡ is_beyond_limits catalogue.now statement.now }
{
    is_too_large(statement, catalogue) || !is_writable(statement)
}
