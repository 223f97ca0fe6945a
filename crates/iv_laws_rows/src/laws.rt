//! Laws of rows, each as the contract of a function that does nothing.
ghost use Rattle.iv_laws_rows.specs.Laws.{AppliedWavesFit, FiringsFit, FollowingWavesFit, LevelsKeepRowsFitting, NestedLevelsKeepRowsFitting, NetChangesFit};
ghost use Rattle.iv_laws_rows.specs.Laws.{NumberedChangesFit, PlainStatementsFit, ProposalsFit, RowFiringsFit, RowsAfterFit, RowsFitMoreTables};
ghost use Rattle.iv_laws_rows.specs.Laws.{SettledWavesFit, StatementFiringsFit, TriggeredChangesFit};
ghost use Rattle.iv_laws_rows.specs.WellTyped.{LevelsAreWellTyped, NestedLevelsAreWellTyped, RowTriggersAreWellTyped};
ghost use Rattle.iv_laws_rows.specs.WellTyped.{StatementTriggersAreWellTyped, WavesAreWellTyped};
ghost use Rattle.iv_laws_rows.specs.Starting.{ChangesMayBeMade, NextWavesStart, ProposalsStart, StartedWavesFit};

/// A plan that suits the tables fits outside of triggers; rows still fit if there are more tables.
pub fn statements_fit()
    ensures plain { PlainStatementsFit }
    ensures more { RowsFitMoreTables }
{}

/// The changes that a statement proposes fit.
pub fn proposals_fit()
    ensures { ProposalsFit }
{}

/// Each wave fits as it is applied. The rows after it, the wave that follows, and the net changes of all waves fit too.
pub fn waves_fit()
    ensures numbered { NumberedChangesFit }
    ensures triggered { TriggeredChangesFit }
    ensures applied { AppliedWavesFit }
    ensures after { RowsAfterFit }
    ensures following { FollowingWavesFit }
    ensures settled { SettledWavesFit }
    ensures net { NetChangesFit }
{}

/// What a proposed wave may start from, the wave that follows may too; each change of a wave, as it is
/// applied, may be made after those before it.
pub fn waves_start()
    ensures proposed { ProposalsStart }
    ensures made { ChangesMayBeMade }
    ensures next { NextWavesStart }
    ensures settled { StartedWavesFit }
{}

/// The bodies of the triggers that fire fit under what they see.
pub fn firings_fit()
    ensures row { RowFiringsFit }
    ensures statement { StatementFiringsFit }
    ensures all { FiringsFit }
{}

/// An accepted data statement, with all that follows from it, leaves rows that fit.
pub fn levels_keep_rows_fitting()
    ensures level { LevelsKeepRowsFitting }
    ensures nested { NestedLevelsKeepRowsFitting }
{}

/// A data statement that fits, with all that follows from it, is never refused for a value of the wrong kind
/// or a place that isn't there.
pub fn levels_are_well_typed()
    ensures rows { RowTriggersAreWellTyped }
    ensures statements { StatementTriggersAreWellTyped }
    ensures waves { WavesAreWellTyped }
    ensures level { LevelsAreWellTyped }
    ensures nested { NestedLevelsAreWellTyped }
{}
