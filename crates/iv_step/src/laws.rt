//! Laws of runs, as contracts of functions that do nothing.
ghost use Rattle.iv_step.specs.Laws.{PlansKeepTheOccasion, ReachedStatesAreSound};
ghost use Rattle.iv_step.specs.Pending.{DifferencesLead};
ghost use Rattle.iv_step.specs.Refusals.{RefusalsChangeNothing};
ghost use Rattle.iv_step.specs.Worked.{WorkedScripts};

/// In every state that a run of statements reaches from an empty one no immediate constraint is violated, so that no
/// constraint is violated exactly if no deferred one is. Outside a transaction no constraint is violated, modes are
/// initial, there is no savepoint, and no row change is counted. No immediate constraint is violated in a savepoint's
/// database, under its own modes.
pub fn reached_states_are_sound()
    ensures { ReachedStatesAreSound }
{}

/// A statement and its plan may run on the same occasions: outside a transaction, inside one, to begin
/// one, or always.
pub fn plans_keep_the_occasion()
    ensures { PlansKeepTheOccasion }
{}

/// No refusal changes anything, except that of a COMMIT for a violation, which ends the transaction with the database
/// from its start.
pub fn refusals_change_nothing()
    ensures { RefusalsChangeNothing }
{}

/// Worked scripts of parsed statements answer what they should.
pub fn worked_scripts()
    ensures { WorkedScripts }
{}

/// The pending violations before a statement, without those that went and with those that came, are those after it.
pub fn differences_lead()
    ensures { DifferencesLead }
{}
