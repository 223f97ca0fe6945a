//! The texts of the last refusal: its cause, and the names that it speaks of.
ghost use Rattle.std.specs.Prelude.{◌≡◌, option_copied};
ghost use Rattle.iv_shown.specs.Texts.{constraint_named, if_refused, refusal_constraint, refusal_signal, refusal_trigger, signal_of, trigger_named};

use crate::connection::Connection;
use iv_catalogue::{Catalogue, Cause, ConstraintId, TriggerId};
use iv_text::{constraint_of, signal_text, trigger_of};

/// The name of a constraint, empty where there is none.
pub fn constraint_named(catalogue: &Catalogue, id: Option<ConstraintId>) -> &[u8]
    ensures { result.now ≡ constraint_named catalogue.now id }
{
    let Some(id) = id else {
        return &[];
    };
    match catalogue.constraint(id) {
        Some(constraint) => constraint.name.as_str().as_bytes(),
        None => &[],
    }
}

/// The name of a trigger, empty where there is none.
pub fn trigger_named(catalogue: &Catalogue, id: Option<TriggerId>) -> &[u8]
    ensures { result.now ≡ trigger_named catalogue.now id }
{
    let Some(id) = id else {
        return &[];
    };
    match catalogue.trigger(id) {
        Some(trigger) => trigger.name.as_str().as_bytes(),
        None => &[],
    }
}

/// The text of the SIGNAL that a cause speaks of, empty where it speaks of none.
pub fn signal_of<'a>(catalogue: &'a Catalogue, cause: &Cause) -> &'a [u8]
    ensures { result.now ≡ signal_of catalogue.now cause.now }
{
    match cause {
        Cause::Signal(id, place) => signal_text(catalogue, *id, *place).as_bytes(),
        _ => &[],
    }
}

/// The name of the constraint that the last refusal speaks of.
pub fn last_constraint(connection: &Connection) -> Option<&[u8]>
    ensures { option_copied result
        ≡ if_refused (refusal_constraint connection.now.session.state.schema) connection.now.outcome }
{
    match &connection.outcome {
        Ok(_) => None,
        Err(refusal) => Some(constraint_named(
            connection.session.catalogue(),
            constraint_of(&refusal.cause),
        )),
    }
}

/// The name of the trigger that the last refusal speaks of, or else of the innermost that was running.
pub fn last_trigger(connection: &Connection) -> Option<&[u8]>
    ensures { option_copied result
        ≡ if_refused (refusal_trigger connection.now.session.state.schema) connection.now.outcome }
{
    match &connection.outcome {
        Ok(_) => None,
        Err(refusal) => Some(trigger_named(
            connection.session.catalogue(),
            trigger_of(&refusal.cause, refusal.trigger),
        )),
    }
}

/// The text of the SIGNAL that the last refusal comes from.
pub fn last_signal(connection: &Connection) -> Option<&[u8]>
    ensures { option_copied result
        ≡ if_refused (refusal_signal connection.now.session.state.schema) connection.now.outcome }
{
    match &connection.outcome {
        Ok(_) => None,
        Err(refusal) => Some(signal_of(connection.session.catalogue(), &refusal.cause)),
    }
}
