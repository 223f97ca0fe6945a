//! The reason that a statement is refused for.
ghost use Rattle.std.specs.Prelude.{◌≡◌, option_map};
ghost use Rattle.iv_resolve_reasons.specs.Reasons.{refusal_reason};
ghost use Rattle.iv_resolve_reasons.specs.Seen.{reason_seen};

use crate::limits::{LimitFault, limit_fault};
use crate::rule::SchemaFault;
use crate::schema_faults::schema_fault;
use crate::shape::ShapeFault;
use crate::shapes::shape_fault;
use iv_catalogue::{Catalogue, Cause};
use iv_syntax::Statement;
use std::alloc::Global;

/// Why resolution refuses a statement.
#[derive(Clone, Copy)]
pub enum Reason<'a> {
    /// For SchemaFault.
    Schema(SchemaFault<'a>),
    /// For WrongShape.
    Shape(ShapeFault<'a>),
    /// For Limit.
    Limit(LimitFault<'a>),
}

/// The reason that a statement deserves this cause; none if it doesn't deserve it, or if no reasons are told of it. It
/// can't fail for lack of memory.
pub fn refusal_reason<'a>(
    alloc: Global,
    catalogue: &'a Catalogue,
    statement: &'a Statement,
    cause: &Cause,
) -> Option<Reason<'a>>
    ensures { option_map reason_seen result
        ≡ refusal_reason catalogue.entry.now statement.entry.now cause.now }
{
    match cause {
        Cause::SchemaFault => match schema_fault(alloc, catalogue, statement) {
            Some(fault) => Some(Reason::Schema(fault)),
            None => None,
        },
        Cause::WrongShape => match shape_fault(alloc, catalogue, statement) {
            Some(fault) => Some(Reason::Shape(fault)),
            None => None,
        },
        Cause::Limit => match limit_fault(catalogue, statement) {
            Some(fault) => Some(Reason::Limit(fault)),
            None => None,
        },
        _ => None,
    }
}
