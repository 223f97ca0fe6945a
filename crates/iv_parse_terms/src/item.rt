//! What may be the beginning of a test.
use crate::condition_part::ConditionPart;
use crate::expression_part::ExpressionPart;

/// A value, or a condition that is whole.
#[derive(Drop)]
pub enum Item {
    Value(ExpressionPart),
    Truth(ConditionPart),
}

/// AND or OR.
#[derive(Clone, Copy)]
pub enum Connective {
    And,
    Or,
}
