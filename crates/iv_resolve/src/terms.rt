//! Value expressions and search conditions.
ghost use Rattle.std.specs.Prelude.{◌≡◌, min};
ghost use Rattle.iv_syntax.specs.Trees.{condition_depth, depth};
ghost use Rattle.iv_resolution.specs.Writable.{has_written_parts, has_written_terms, is_column_name, is_condition, is_expression, is_filter, is_range};

use crate::names::{is_name, is_name_or_none};
use iv_syntax::{ColumnName, Condition, DEEPEST_TREE, Expression, GREATEST_INTEGER, RangeName};

fn is_column_name(column: &ColumnName) -> bool
    ensures { result ≡ is_column_name column.now }
{
    is_name_or_none(&column.qualifier) && is_name(column.name.as_str())
}

#[tactic(auto, using(crate::proofs::Steps::has_written_parts_steps))]
fn has_written_parts(expression: &Expression) -> bool
    ensures { result ≡ has_written_parts expression.now }
{
    match expression {
        Expression::Number(number) => *number <= GREATEST_INTEGER,
        Expression::Text(_) | Expression::Null => true,
        Expression::Column(column) => is_column_name(column),
        Expression::Group(a) => has_written_parts(a.get()),
        Expression::Signed(_, a) => has_written_parts(a.get()),
        Expression::Product(a, b) => has_written_parts(a.get()) & has_written_parts(b.get()),
        Expression::Sum(_, a, b) => has_written_parts(a.get()) & has_written_parts(b.get()),
    }
}

// The depth, up to one more than the limit.
#[tactic(auto, using(crate::proofs::Steps::depth_steps, crate::proofs::Steps::deeper))]
fn depth(expression: &Expression) -> u32
    ensures { result ≡ min (depth expression.now) 4294967295 }
{
    match expression {
        Expression::Number(_) | Expression::Text(_) | Expression::Null => 1,
        Expression::Column(_) => 1,
        Expression::Group(a) => depth(a.get()).saturating_add(1),
        Expression::Signed(_, a) => depth(a.get()).saturating_add(1),
        Expression::Product(a, b) => depth(a.get()).max(depth(b.get())).saturating_add(1),
        Expression::Sum(_, a, b) => depth(a.get()).max(depth(b.get())).saturating_add(1),
    }
}

/// Whether an expression can be written.
pub fn is_expression(expression: &Expression) -> bool
    ensures { result ≡ is_expression expression.now }
{
    depth(expression) <= u32::from(DEEPEST_TREE) && has_written_parts(expression)
}

/// Whether a FROM can be written.
pub fn is_range(range: &RangeName) -> bool
    ensures { result ≡ is_range range.now }
{
    is_name(range.table.as_str()) && is_name_or_none(&range.alias)
}

#[tactic(auto, using(crate::proofs::Steps::has_written_terms_steps))]
fn has_written_terms(condition: &Condition) -> bool
    ensures { result ≡ has_written_terms condition.now }
{
    match condition {
        Condition::Compare(_, a, b) => has_written_parts(a) & has_written_parts(b),
        Condition::IsNull(a) | Condition::IsNotNull(a) => has_written_parts(a),
        Condition::Exists(range) => is_range(range),
        Condition::ExistsWhere(range, a) => is_range(range) & has_written_terms(a.get()),
        Condition::Group(a) => has_written_terms(a.get()),
        Condition::Not(a) => has_written_terms(a.get()),
        Condition::And(a, b) => has_written_terms(a.get()) & has_written_terms(b.get()),
        Condition::Or(a, b) => has_written_terms(a.get()) & has_written_terms(b.get()),
    }
}

#[tactic(auto, using(crate::proofs::Steps::condition_depth_steps, crate::proofs::Steps::deeper))]
fn condition_depth(condition: &Condition) -> u32
    ensures { result ≡ min (condition_depth condition.now) 4294967295 }
{
    match condition {
        Condition::Compare(_, a, b) => depth(a).max(depth(b)).saturating_add(1),
        Condition::IsNull(a) | Condition::IsNotNull(a) => depth(a).saturating_add(1),
        Condition::Exists(_) => 1,
        Condition::ExistsWhere(_, a) => condition_depth(a.get()).saturating_add(1),
        Condition::Group(a) => condition_depth(a.get()).saturating_add(1),
        Condition::Not(a) => condition_depth(a.get()).saturating_add(1),
        Condition::And(a, b) => {
            condition_depth(a.get())
                .max(condition_depth(b.get()))
                .saturating_add(1)
        }
        Condition::Or(a, b) => {
            condition_depth(a.get())
                .max(condition_depth(b.get()))
                .saturating_add(1)
        }
    }
}

/// Whether a condition can be written.
pub fn is_condition(condition: &Condition) -> bool
    ensures { result ≡ is_condition condition.now }
{
    condition_depth(condition) <= u32::from(DEEPEST_TREE) && has_written_terms(condition)
}

/// The same of a condition that may be left out.
pub fn is_filter(filter: &Option<Condition>) -> bool
    ensures { result ≡ is_filter filter.now }
{
    match filter {
        Some(condition) => is_condition(condition),
        None => true,
    }
}
