//! Laws of accounts, each as the contract of a function that does nothing.
ghost use Rattle.iv_laws_answers.specs.FailureLaws.{ProposalFailuresAreFound, QueryFailuresAreFound, SetFailuresAreFound, WhenFailuresAreFound};
ghost use Rattle.iv_laws_answers.specs.RefusalLaws.{AcceptedAdditionsAreNotTold, OtherSavepointsAreNotTold, RefusedAdditionsAreTold, StandingSavepointsAreTold};
ghost use Rattle.iv_laws_answers.specs.AccountLaws.{LevelsAreTold, StatementsAreTold, AllThatBeginsEnds, NoViolationOfAccepted, OneViolationOfRefused};

/// The waves of an accepted data statement's account, applied one after another, give the database that the statement
/// leaves: nothing is left out.
pub fn accounts_lead_on()
    ensures level { LevelsAreTold }
    ensures state { StatementsAreTold }
{}

/// In the account of an accepted data statement each data statement that begins ends.
pub fn all_that_begins_ends()
    ensures { AllThatBeginsEnds }
{}

/// An account tells a violation exactly if the statement is refused for one, and as its last entry.
pub fn accounts_tell_violations()
    ensures accepted { NoViolationOfAccepted }
    ensures refused { OneViolationOfRefused }
{}

/// What failed is found wherever a statement is refused since a number is out of range or a text is too long.
pub fn failures_are_found()
    ensures proposal { ProposalFailuresAreFound }
    ensures when { WhenFailuresAreFound }
    ensures set { SetFailuresAreFound }
    ensures query { QueryFailuresAreFound }
{}

/// RELEASE and ROLLBACK TO tell the savepoints that stand exactly if the one that they name isn't there.
pub fn standing_savepoints_are_told()
    ensures missing { StandingSavepointsAreTold }
    ensures there { OtherSavepointsAreNotTold }
{}

/// ALTER TABLE tells a constraint and the row that violates it exactly if it is refused for that row.
pub fn refused_additions_are_told()
    ensures refused { RefusedAdditionsAreTold }
    ensures accepted { AcceptedAdditionsAreNotTold }
{}
