//! Worked statements, as the contracts of functions that do nothing.
ghost use Rattle.iv_resolve_reasons.specs.WorkedLimits.{WorkedLimits};
ghost use Rattle.iv_resolve_reasons.specs.WorkedRules.{WorkedRules};
ghost use Rattle.iv_resolve_reasons.specs.WorkedShapes.{WorkedShapes};

/// Of each worked statement is told what doesn't suit first.
pub fn worked_shapes()
    ensures { WorkedShapes }
{}

/// Of each worked statement is told the rule that it breaks first.
pub fn worked_rules()
    ensures { WorkedRules }
{}

/// Of each worked statement is told the limit that it is beyond first.
pub fn worked_limits()
    ensures { WorkedLimits }
{}
