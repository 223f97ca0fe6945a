//! Laws of plans, as the contract of a function that does nothing.
ghost use Rattle.iv_laws_fitting.specs.Laws.{AdditionsFit, ChangesFit, EmptySchemaSuits, QueriesFit, SchemasStaySuited, TablesFit, TriggersFit};
ghost use Rattle.iv_laws_fitting.specs.Running.{ProposalsAreWellTyped};

/// A plan of resolution fits the tables of its schema: its columns are there, and its values are of their
/// columns' kinds.
pub fn plans_fit()
    ensures changes { ChangesFit }
    ensures queries { QueriesFit }
    ensures triggers { TriggersFit }
    ensures tables { TablesFit }
    ensures additions { AdditionsFit }
{}

/// Every schema that statements lead to from the empty one suits: its constraints and triggers name columns
/// that are there, with values of their kinds.
pub fn schemas_suit()
    ensures empty { EmptySchemaSuits }
    ensures after { SchemasStaySuited }
{}

/// A data statement that suits the tables, over rows that do, is refused only for its values while its rows are found
/// and its values are made: a number out of range, or a text that is too long.
pub fn proposals_are_well_typed()
    ensures { ProposalsAreWellTyped }
{}
