//! A law of one change of a database, as the contract of a function that does nothing.
#![tactic(auto)]

ghost use Rattle.iv_machine.specs.SetRows.{OneChangeSetsARow};

/// A change of one row sets that row, or takes it out, and leaves all others.
pub fn one_change_sets_a_row()
    ensures { OneChangeSetsARow }
{}
