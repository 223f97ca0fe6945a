//! Laws of trees and texts.
ghost use Rattle.iv_write.specs.Laws.{ReadConditionsCanBeWritten, ReadExpressionsCanBeWritten, ReadStatementsCanBeWritten};

/// Expressions, conditions and statements that are read of a text can be written, so the same are read of what is
/// written.
pub fn what_is_read_can_be_written()
    ensures expressions { ReadExpressionsCanBeWritten }
    ensures conditions { ReadConditionsCanBeWritten }
    ensures statements { ReadStatementsCanBeWritten }
{}
