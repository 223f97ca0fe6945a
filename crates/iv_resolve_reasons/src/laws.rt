//! Laws of the reasons that are told, as contracts of functions that do nothing.
ghost use Rattle.iv_resolve_reasons.specs.Laws.{LimitFaultsAreTold, RulesAreSo, SchemaFaultsAreTold, ShapesAreSo, ShapesAreTold};

/// What doesn't suit is told of a statement if and only if it deserves WrongShape.
pub fn shapes_are_told()
    ensures { ShapesAreTold }
{}

/// What is told is so: the numbers differ, an integer meets a text, or an operand is a text, in the ranges at hand.
pub fn shapes_are_so()
    ensures { ShapesAreSo }
{}

/// A rule that is broken is told of a statement if and only if it deserves SchemaFault.
pub fn schema_faults_are_told()
    ensures { SchemaFaultsAreTold }
{}

/// A limit that is passed is told of a statement if and only if it deserves Limit.
pub fn limit_faults_are_told()
    ensures { LimitFaultsAreTold }
{}

/// What is told of references and of limits is so: the pair of columns differs in type, there is no such key, or more is
/// asked than there may be.
pub fn rules_are_so()
    ensures { RulesAreSo }
{}
