//! Laws of answers, each as the contract of a function that does nothing.
ghost use Rattle.iv_laws_answers.specs.Memory.{LevelsWantNoMemory, NestedLevelsWantNoMemory, ProposalsWantNoMemory, RowTriggersWantNoMemory};
ghost use Rattle.iv_laws_answers.specs.Memory.{StatementTriggersWantNoMemory, TruthsWantNoMemory, ValuesWantNoMemory, WavesWantNoMemory};
ghost use Rattle.iv_laws_answers.specs.Answers.{PlansWantNoMemory, ResolutionsWantNoMemory, RunsWantNoMemory, StepsWantNoMemory};
ghost use Rattle.iv_laws_answers.specs.FittingStates.{ReachedStatesFit};
ghost use Rattle.iv_laws_answers.specs.Shapes.{AddedChecksAreWellTyped, ChecksAreWellTyped, QueriesAreWellTyped, ReachedChecksAreWellTyped};
ghost use Rattle.iv_laws_answers.specs.Shapes.{ReachedQueriesAreWellTyped, SettledChecksAreWellTyped, WrongShapesAreOfResolution};

/// No expression and no condition has the fault of a failed allocation, in any scope.
pub fn evaluation_wants_no_memory()
    ensures values { ValuesWantNoMemory }
    ensures truths { TruthsWantNoMemory }
{}

/// No step of a data statement is refused for lack of memory.
pub fn data_statements_want_no_memory()
    ensures proposals { ProposalsWantNoMemory }
    ensures rows { RowTriggersWantNoMemory }
    ensures statements { StatementTriggersWantNoMemory }
    ensures waves { WavesWantNoMemory }
    ensures level { LevelsWantNoMemory }
    ensures nested { NestedLevelsWantNoMemory }
{}

/// No statement is answered by OutOfMemory, in any state: not by its resolution, nor by what its plan does.
pub fn answers_want_no_memory()
    ensures resolution { ResolutionsWantNoMemory }
    ensures plan { PlansWantNoMemory }
    ensures step { StepsWantNoMemory }
    ensures run { RunsWantNoMemory }
{}

/// In every state that a run of statements reaches from an empty one all definitions suit the tables, and the
/// rows of every database fit them.
pub fn reached_states_fit()
    ensures { ReachedStatesFit }
{}

/// The condition of a CHECK meets no value of the wrong kind at a row of its table: a number in it may be out
/// of range.
pub fn checks_are_well_typed()
    ensures suited { ChecksAreWellTyped }
    ensures settled { SettledChecksAreWellTyped }
    ensures reached { ReachedChecksAreWellTyped }
    ensures added { AddedChecksAreWellTyped }
{}

/// A SELECT that resolution accepts is refused only for a number out of range.
pub fn queries_are_well_typed()
    ensures suited { QueriesAreWellTyped }
    ensures reached { ReachedQueriesAreWellTyped }
{}

/// In a state that a run reaches, a statement is refused for a wrong shape only if its resolution is.
pub fn wrong_shapes_are_of_resolution()
    ensures { WrongShapesAreOfResolution }
{}
