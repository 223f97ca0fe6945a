//! Worked statements and scripts as contracts of functions that do nothing.
ghost use Rattle.iv_worked.specs.WorkedUnknown.{WorkedUnknown};
ghost use Rattle.iv_worked.specs.WorkedDuplicates.{WorkedDuplicates};
ghost use Rattle.iv_worked.specs.WorkedSchemaFaults.{WorkedSchemaFaults};
ghost use Rattle.iv_worked.specs.WorkedShapes.{WorkedShapes};
ghost use Rattle.iv_worked.specs.WorkedLanguageLimits.{WorkedLanguageLimits};
ghost use Rattle.iv_worked.specs.WorkedOrder.{WorkedOrder};
ghost use Rattle.iv_worked.specs.WorkedUpdateOf.{WorkedUpdateOf};
ghost use Rattle.iv_worked.specs.WorkedNullWords.{WorkedNullWords};
ghost use Rattle.iv_worked.specs.WorkedNames.{WorkedNames};
ghost use Rattle.iv_worked.specs.WorkedMeanings.{WorkedMeanings};
ghost use Rattle.iv_worked.specs.WorkedStatements.{WorkedStatements};
ghost use Rattle.iv_worked.specs.WorkedKeys.{WorkedKeys};
ghost use Rattle.iv_worked.specs.WorkedTransactions.{WorkedTransactions};
ghost use Rattle.iv_worked.specs.WorkedEffects.{WorkedEffects};
ghost use Rattle.iv_worked.specs.WorkedBeforeTriggers.{WorkedBeforeTriggers};
ghost use Rattle.iv_worked.specs.WorkedTransitions.{WorkedTransitions};
ghost use Rattle.iv_worked.specs.WorkedLimits.{WorkedLimits};
ghost use Rattle.iv_worked.specs.WorkedOccasions.{WorkedOccasions};
ghost use Rattle.iv_worked.specs.WorkedNulls.{WorkedNulls};
ghost use Rattle.iv_worked.specs.WorkedColumns.{WorkedColumns};
ghost use Rattle.iv_worked.specs.WorkedAccounts.{WorkedAccounts};
ghost use Rattle.iv_worked.specs.WorkedFailures.{WorkedFailures};
ghost use Rattle.iv_worked.specs.WorkedRefusals.{WorkedRefusals};
ghost use Rattle.iv_worked.specs.WorkedActions.{WorkedActions};
ghost use Rattle.iv_worked.specs.WorkedConstraints.{WorkedConstraints};
ghost use Rattle.iv_worked.specs.WorkedTriggers.{WorkedTriggers};

/// Each worked statement deserves the cause that is said of it, or none; of an Unknown or a Duplicate the name is told that is said.
pub fn worked_statements()
    ensures unknown { WorkedUnknown }
    ensures duplicates { WorkedDuplicates }
    ensures faults { WorkedSchemaFaults }
    ensures shapes { WorkedShapes }
    ensures limits { WorkedLanguageLimits }
    ensures order { WorkedOrder }
    ensures columns { WorkedUpdateOf }
    ensures nulls { WorkedNullWords }
    ensures names { WorkedNames }
    ensures meanings { WorkedMeanings }
{}

/// Worked scripts answer what they should.
pub fn worked_scripts()
    ensures constraints { WorkedConstraints }
    ensures actions { WorkedActions }
    ensures triggers { WorkedTriggers }
    ensures statements { WorkedStatements }
    ensures keys { WorkedKeys }
    ensures transactions { WorkedTransactions }
    ensures effects { WorkedEffects }
    ensures before_triggers { WorkedBeforeTriggers }
    ensures transitions { WorkedTransitions }
    ensures limits { WorkedLimits }
    ensures occasions { WorkedOccasions }
    ensures nulls { WorkedNulls }
    ensures columns { WorkedColumns }
    ensures accounts { WorkedAccounts }
    ensures failures { WorkedFailures }
    ensures refusals { WorkedRefusals }
{}
