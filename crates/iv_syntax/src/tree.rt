//! Expressions and conditions as they are written. Parentheses are a node of their own, so that a tree
//! tells its spelling and its depth.
use crate::name::Name;
use iv_expr::Comparison;
use iv_value::Text;
use sqlite_items::Boxed;

/// A sign before an operand, or between two.
#[derive(Clone, Copy, Debug, PartialEq, Eq)]
pub enum Sign {
    Plus,
    Minus,
}

/// A column's name, after a range's or a row variable's if one is given.
#[derive(Drop)]
pub struct ColumnName {
    pub qualifier: Option<Name>,
    pub name: Name,
}

/// A value expression (ISO/IEC 9075-2:1999, "Value expression").
#[derive(Drop)]
pub enum Expression {
    /// At most 9,223,372,036,854,775,807.
    Number(u64),
    Text(Text),
    Null,
    Column(ColumnName),
    Group(Boxed<Expression>),
    Signed(Sign, Boxed<Expression>),
    Product(Boxed<Expression>, Boxed<Expression>),
    Sum(Sign, Boxed<Expression>, Boxed<Expression>),
}

/// A table in a FROM, with the alias that it is called by if one is given.
#[derive(Drop)]
pub struct RangeName {
    pub table: Name,
    pub alias: Option<Name>,
}

/// A search condition ("Search condition").
#[derive(Drop)]
pub enum Condition {
    Compare(Comparison, Expression, Expression),
    IsNull(Expression),
    IsNotNull(Expression),
    /// EXISTS over all rows of the range.
    Exists(RangeName),
    /// EXISTS over the rows of the range where the condition is true.
    ExistsWhere(RangeName, Boxed<Condition>),
    Group(Boxed<Condition>),
    Not(Boxed<Condition>),
    And(Boxed<Condition>, Boxed<Condition>),
    Or(Boxed<Condition>, Boxed<Condition>),
}
