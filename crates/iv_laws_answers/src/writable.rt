//! The law of written statements, as the contract of a function that does nothing.
ghost use Rattle.iv_laws_answers.specs.WritableLaws.{LimitsAreTooLarge, StatementsAreWritable};

/// Each statement that is read from a text is writable: its names, numbers, lists and trees are what the language
/// allows. None deserves Limit for what no text can be.
pub fn statements_are_writable()
    ensures writable { StatementsAreWritable }
    ensures limits { LimitsAreTooLarge }
{}
