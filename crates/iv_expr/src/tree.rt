//! Expressions and conditions with every name resolved.
use crate::number::TableId;
use iv_value::Value;
use sqlite_items::Boxed;

/// A row variable of a trigger, or the transition table of its name.
#[derive(Clone, Copy, Debug, PartialEq, Eq)]
pub enum Side {
    Old,
    New,
}

/// What the FROM of an EXISTS or a SELECT names.
#[derive(Clone, Copy, Debug, PartialEq, Eq)]
pub enum Range {
    Table(TableId),
    Transition(Side),
}

/// An expression ("Value expression"). A sign is no node of its own: `-x` is 0 minus x, and `+x` is x.
#[derive(Drop)]
pub enum Expr {
    Literal(Value),
    /// A column by its range, counted outward from the innermost, which is 0, and by its place there.
    Column(u32, u32),
    /// A column of a row variable, by its place.
    Variable(Side, u32),
    Plus(Boxed<Expr>, Boxed<Expr>),
    Minus(Boxed<Expr>, Boxed<Expr>),
    Times(Boxed<Expr>, Boxed<Expr>),
}

/// A comparison predicate (ISO/IEC 9075-2:1999, "Comparison predicate").
#[derive(Clone, Copy, Debug, PartialEq, Eq)]
pub enum Comparison {
    Equal,
    NotEqual,
    Less,
    LessEqual,
    Greater,
    GreaterEqual,
}

/// A search condition ("Search condition"). IS NOT NULL is NOT over IS NULL, which is never unknown.
#[derive(Drop)]
pub enum Cond {
    /// No WHERE or WHEN: true of every row.
    Always,
    Compare(Comparison, Expr, Expr),
    IsNull(Expr),
    Not(Boxed<Cond>),
    And(Boxed<Cond>, Boxed<Cond>),
    Or(Boxed<Cond>, Boxed<Cond>),
    Exists(Range, Boxed<Cond>),
}

/// Why an expression has no value.
#[derive(Clone, Copy, Debug, PartialEq, Eq)]
pub enum ExprFault {
    /// A sum, difference or product out of the range of 64 bits.
    OutOfRange,
    /// The tree doesn't suit its scope.
    IllTyped,
    /// An allocation failed.
    NoMemory,
}
