//! Worked statements, as the contract of a function that does nothing.
ghost use Rattle.iv_resolution.specs.Worked.{WorkedStatements};

/// Each worked statement deserves the cause, or has the plan, that its comment says.
pub fn worked_statements()
    ensures { WorkedStatements }
{}
