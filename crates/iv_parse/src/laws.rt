//! Laws of the grammar.
ghost use Rattle.iv_parse.specs.Laws.{OneStatement, NoOtherBegins, OneScript};

/// Words are at most one statement.
pub fn one_statement()
    ensures { OneStatement }
{}

/// No statement with its semicolon begins another.
pub fn no_other_begins()
    ensures { NoOtherBegins }
{}

/// A text has one reading as a script.
pub fn one_script()
    ensures { OneScript }
{}
