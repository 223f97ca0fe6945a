//! What is told of a refusal, as values.
ghost use Rattle.std.specs.Prelude.{◌≡◌, option_map, slice_get};
ghost use Rattle.std.specs.Option.{option_or};
ghost use Rattle.iv_text.specs.Lines.{name_of};
ghost use Rattle.iv_resolution.specs.NameFaults.{name_fault};
ghost use Rattle.iv_resolve_reasons.specs.Reasons.{refusal_reason};
ghost use Rattle.iv_explain.specs.Explanations.{by_resolution, explanation_of, no_savepoint, of_name, of_reason, savepoint_named, why_refused};
ghost use Rattle.iv_explain.specs.Seen.{explanation_seen, why_seen};

use iv_catalogue::{Catalogue, Cause, Constraint, ConstraintId};
use iv_resolve_name_faults::{NameFault, name_fault};
use iv_resolve_reasons::{Reason, refusal_reason};
use iv_syntax::Statement;
use std::alloc::Global;

/// Why a statement is refused.
#[derive(Clone, Copy)]
pub enum Why<'a> {
    /// Resolution gives this reason.
    Resolution(Reason<'a>),
    /// No savepoint has this name.
    NoSavepoint(&'a str),
    /// The constraint of this name is NOT DEFERRABLE.
    NotDeferrable(&'a str),
}

/// What is told of a refusal besides its cause.
#[derive(Clone, Copy)]
pub enum Explanation<'a> {
    /// What is wrong with a name.
    Name(NameFault<'a>),
    Reason(Why<'a>),
}

// The savepoint that a statement goes back to or releases.
fn missing_savepoint<'a>(statement: &'a Statement) -> Option<Why<'a>>
    ensures { option_map why_seen result
        ≡ option_map no_savepoint (savepoint_named statement.entry.now) }
{
    match statement {
        Statement::RollbackTo(name) => Some(Why::NoSavepoint(name.as_str())),
        Statement::Release(name) => Some(Why::NoSavepoint(name.as_str())),
        _ => None,
    }
}

fn constraint_name<'a>(constraints: &'a [Constraint], id: ConstraintId) -> &'a str
    ensures { result.now ≡ name_of (slice_get constraints.entry.now id) }
{
    match constraints.get(id.place() as usize) {
        Some(constraint) => constraint.name.as_str(),
        None => "",
    }
}

fn reason_of<'a>(
    alloc: Global,
    catalogue: &'a Catalogue,
    statement: &'a Statement,
    cause: &Cause,
) -> Option<Why<'a>>
    ensures { option_map why_seen result
        ≡ option_map by_resolution (refusal_reason catalogue.entry.now statement.entry.now cause.now) }
{
    match refusal_reason(alloc, catalogue, statement, cause) {
        Some(reason) => Some(Why::Resolution(reason)),
        None => None,
    }
}

fn why_refused<'a>(
    alloc: Global,
    catalogue: &'a Catalogue,
    statement: &'a Statement,
    cause: &Cause,
) -> Option<Why<'a>>
    ensures { option_map why_seen result
        ≡ why_refused catalogue.entry.now statement.entry.now cause.now }
{
    match cause {
        Cause::SchemaFault => reason_of(alloc, catalogue, statement, cause),
        Cause::WrongShape => reason_of(alloc, catalogue, statement, cause),
        Cause::Limit => reason_of(alloc, catalogue, statement, cause),
        Cause::UnknownSavepoint => missing_savepoint(statement),
        Cause::NotDeferrable(id) => Some(Why::NotDeferrable(constraint_name(
            catalogue.constraints(),
            *id,
        ))),
        _ => None,
    }
}

fn name_told<'a>(
    alloc: Global,
    catalogue: &'a Catalogue,
    statement: &'a Statement,
    cause: &Cause,
) -> Option<Explanation<'a>>
    ensures { option_map explanation_seen result
        ≡ option_map of_name (name_fault catalogue.entry.now statement.entry.now cause.now) }
{
    match name_fault(alloc, catalogue, statement, cause) {
        Some(fault) => Some(Explanation::Name(fault)),
        None => None,
    }
}

fn reason_told<'a>(
    alloc: Global,
    catalogue: &'a Catalogue,
    statement: &'a Statement,
    cause: &Cause,
) -> Option<Explanation<'a>>
    ensures { option_map explanation_seen result
        ≡ option_map of_reason (why_refused catalogue.entry.now statement.entry.now cause.now) }
{
    match why_refused(alloc, catalogue, statement, cause) {
        Some(why) => Some(Explanation::Reason(why)),
        None => None,
    }
}

/// What is told of the refusal of a statement for a cause: the name for Unknown and Duplicate, the reason for
/// SchemaFault, WrongShape, Limit, UnknownSavepoint and NotDeferrable. It can't fail for lack of memory.
pub fn explained<'a>(
    alloc: Global,
    catalogue: &'a Catalogue,
    statement: &'a Statement,
    cause: &Cause,
) -> Option<Explanation<'a>>
    ensures { option_map explanation_seen result
        ≡ explanation_of catalogue.entry.now statement.entry.now cause.now }
{
    match name_told(alloc, catalogue, statement, cause) {
        Some(told) => Some(told),
        None => reason_told(alloc, catalogue, statement, cause),
    }
}
