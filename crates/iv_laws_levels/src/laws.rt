//! Laws of the machine's definitions, each as the contract of a function that does nothing.
ghost use Rattle.iv_laws_levels.specs.Budgets.{LevelsTakeFromTheBudget, NestedLevelsTakeFromTheBudget, WavesTakeWhatTheyChange, WavesCountTheirChanges};
ghost use Rattle.iv_laws_levels.specs.Budgets.{LevelsCountTheirChanges, NestedLevelsCountTheirChanges, RefusedLevelsKeepTheCount};
ghost use Rattle.iv_laws_levels.specs.Checks.{LevelsCheck, NestedLevelsCheck};
ghost use Rattle.iv_laws_levels.specs.Closures.{TakenRowsAreGone, GoneRowsAreTaken, OtherRowsStay};
ghost use Rattle.iv_laws_levels.specs.FittingWaves.{WavesAreAChain, LevelsKeepNumbers, NestedLevelsKeepNumbers, NoRowsAreNumbered};
ghost use Rattle.iv_laws_levels.specs.Holders.{HoldersBeforeAWave, RowsBeforeAWave, KeysAreLostByTheWave, RestrictedRowsFollow};
ghost use Rattle.iv_laws_levels.specs.Holders.{ConflictsFollow, NextWavesFollow, WavesFollowFromWaves};
ghost use Rattle.iv_laws_levels.specs.Locality.{AChangeIsLocal, ViolationsElsewhereStay};
ghost use Rattle.iv_laws_levels.specs.NetChanges.{RowsBeforeWaves, RowsAfterWaves, NetChangesFollowFromTheWaves};
ghost use Rattle.iv_laws_levels.specs.Reached.{PlannedStatesAreSound};
ghost use Rattle.iv_laws_levels.specs.Reorderings.{AnyOrderGivesTheWave};
ghost use Rattle.iv_laws_levels.specs.WaveEquations.{RowsAfterAWave, RowsAfterAreInOrder, WavesAreSettledOneByOne};

/// A data statement takes from its budget one for each data statement and one for each row change, at all
/// levels, and nothing else.
pub fn budget_falls()
    ensures level { LevelsTakeFromTheBudget }
    ensures nested { NestedLevelsTakeFromTheBudget }
    ensures waves { WavesTakeWhatTheyChange }
{}

/// The count of row changes after a data statement is that before it, and the sizes of all waves at all levels; if it
/// is refused, the count is no lower than before it.
pub fn changes_are_counted()
    ensures waves { WavesCountTheirChanges }
    ensures level { LevelsCountTheirChanges }
    ensures nested { NestedLevelsCountTheirChanges }
    ensures refused { RefusedLevelsKeepTheCount }
{}

/// What one wave does to each row, and how waves are settled one after another.
pub fn waves_one_by_one()
    ensures rows { RowsAfterAWave }
    ensures order { RowsAfterAreInOrder }
    ensures settled { WavesAreSettledOneByOne }
{}

/// After an accepted data statement no immediate constraint is violated.
pub fn level_checks()
    ensures level { LevelsCheck }
    ensures nested { NestedLevelsCheck }
{}

/// The changes of a wave, one by one in any order, give what the wave gives.
pub fn any_order()
    ensures { AnyOrderGivesTheWave }
{}

/// The waves of a data statement are a chain: each is by rising row number, says what the rows hold, and
/// gives new rows numbers that none had before. Data statements leave rows in rising number, below the next.
pub fn waves_fit()
    ensures waves { WavesAreAChain }
    ensures level { LevelsKeepNumbers }
    ensures nested { NestedLevelsKeepNumbers }
    ensures start { NoRowsAreNumbered }
{}

/// The rows before and after a chain of waves, and so its net changes, follow from the waves.
pub fn net_changes_follow()
    ensures before { RowsBeforeWaves }
    ensures after { RowsAfterWaves }
    ensures net { NetChangesFollowFromTheWaves }
{}

/// Which rows held a key before a wave, which keys it removed, and what follows, depend on the rows after it and on the
/// wave.
pub fn holders_before_a_wave()
    ensures holders { HoldersBeforeAWave }
    ensures rows { RowsBeforeAWave }
    ensures lost { KeysAreLostByTheWave }
    ensures restricted { RestrictedRowsFollow }
    ensures conflicts { ConflictsFollow }
    ensures next { NextWavesFollow }
    ensures following { WavesFollowFromWaves }
{}

/// A change of one row can alter what constraints say of that row, of rows that hold its old or new
/// key, and of rows that refer to its old or new key.
pub fn a_change_is_local()
    ensures rows { AChangeIsLocal }
    ensures elsewhere { ViolationsElsewhereStay }
{}

/// If no foreign key sets columns on delete, an accepted DELETE removes exactly the least set of rows that has its
/// candidates and each row that, by a foreign key with ON DELETE CASCADE, holds the key of a row of the set. No other
/// row changes.
pub fn deletion_closure()
    ensures gone { TakenRowsAreGone }
    ensures only { GoneRowsAreTaken }
    ensures stay { OtherRowsStay }
{}

/// In every state that resolved statements reach from an empty one, with any constraints, modes, savepoints and
/// triggers, no immediate constraint is violated, so that none is violated exactly if no deferred one is; no immediate
/// one is violated in a savepoint's database either, under its own modes. Outside a transaction no constraint is
/// violated, modes are initial, there is no savepoint, and no row change stands. The numbers of triggers are distinct,
/// below the number of triggers ever created. The statements and the bodies of triggers change only tables that are
/// there, and the constraints of a new table are on it.
pub fn planned_states_are_sound()
    ensures { PlannedStatesAreSound }
{}
