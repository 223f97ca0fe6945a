//! Laws of the naming rules, as the contract of a function that does nothing.
ghost use Rattle.iv_laws_fitting.specs.NamingLaws.{ColumnsAreFound, SourcesAreFound, TargetsAreFound, VariablesAreFound};

/// Resolution finds the column, table or row variable that a name names: at most one is named, and one is found exactly
/// if one is named.
pub fn names_are_found()
    ensures columns { ColumnsAreFound }
    ensures sources { SourcesAreFound }
    ensures targets { TargetsAreFound }
    ensures variables { VariablesAreFound }
{}
