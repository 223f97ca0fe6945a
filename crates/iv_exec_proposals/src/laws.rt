//! Laws of the definitions, as contracts of functions that do nothing.
ghost use Rattle.iv_exec_proposals.specs.Selections.{QueriesSelect};

/// What the machine answers to a query is the rows that `select` gives, or its cause.
pub fn queries_select()
    ensures { QueriesSelect }
{}
