//! Worked texts, as the contracts of functions that do nothing.
ghost use Rattle.iv_explain.specs.WorkedColumns.{WorkedColumns};
ghost use Rattle.iv_explain.specs.WorkedNames.{WorkedNames};
ghost use Rattle.iv_explain.specs.WorkedReasons.{WorkedCauses, WorkedLimits, WorkedRules, WorkedShapes};

/// The texts of names at fault.
pub fn worked_names()
    ensures { WorkedNames }
{}

/// The texts of what doesn't suit.
pub fn worked_shapes()
    ensures { WorkedShapes }
{}

/// The texts of rules of definitions.
pub fn worked_rules()
    ensures { WorkedRules }
{}

/// The texts of limits.
pub fn worked_limits()
    ensures { WorkedLimits }
{}

/// What is told of statements, each for its cause.
pub fn worked_causes()
    ensures { WorkedCauses }
{}

/// The columns of queries.
pub fn worked_columns()
    ensures { WorkedColumns }
{}
