//! Numbers of constraints and triggers, in creation order.
use iv_expr::Id;

/// The kind of the numbers of constraints.
#[derive(Clone, Copy, Debug, PartialEq, Eq)]
pub struct OfConstraint;

/// A constraint, by its place in creation order.
pub type ConstraintId = Id<OfConstraint>;

/// The kind of the numbers of triggers.
#[derive(Clone, Copy, Debug, PartialEq, Eq)]
pub struct OfTrigger;

/// A trigger, by its number in creation order.
pub type TriggerId = Id<OfTrigger>;
