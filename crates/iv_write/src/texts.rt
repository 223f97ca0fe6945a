//! Expressions and conditions as texts.
ghost use Rattle.std.specs.Prelude.{◌≡◌, IfOk, string_bytes};
ghost use Rattle.iv_parse_terms.specs.Expressions.{spelling};
ghost use Rattle.iv_write.specs.Layouts.{text_of};
ghost use Rattle.iv_write.specs.Terms.{condition_words};
ghost use Rattle.iv_write.specs.Says.{ConditionCanBeWritten, ExpressionCanBeWritten, SaysCondition, SaysExpression};

use crate::condition::push_condition;
use crate::expression::push_expression;
use crate::writer::Writer;
use iv_syntax::{Condition, Expression};
use std::alloc::{AllocError, Global};

/// The text of an expression. If it can be written, the text is that expression and no other.
pub fn write_expression(alloc: Global, expression: &Expression) -> Result<String, AllocError>
    ensures written { IfOk result (λ text. string_bytes text ≡ text_of (spelling expression.now)) }
    ensures says { IfOk result (λ text. ExpressionCanBeWritten expression.now → SaysExpression (string_bytes text) expression.now) }
{
    let mut writer = Writer::new(alloc);
    push_expression(alloc, &mut writer, expression)?;
    Ok(writer.into_text())
}

/// The text of a condition, an alias after AS. If it can be written, the text is that condition and no other.
pub fn write_condition(alloc: Global, condition: &Condition) -> Result<String, AllocError>
    ensures written { IfOk result (λ text. string_bytes text ≡ text_of (condition_words condition.now)) }
    ensures says { IfOk result (λ text. ConditionCanBeWritten condition.now → SaysCondition (string_bytes text) condition.now) }
{
    let mut writer = Writer::new(alloc);
    push_condition(alloc, &mut writer, condition)?;
    Ok(writer.into_text())
}
