//! Laws of what is written.
ghost use Rattle.iv_restate.specs.Laws.{LiteralsAreThemselves};
ghost use Rattle.iv_restate.specs.TableLaws.{AdditionsAreThemselves, ColumnsAreThemselves, TablesAreThemselves};

/// A column's definition means that column; CREATE TABLE creates just the table and the constraints that it is written
/// from, in their order; ALTER TABLE adds just its constraint; and the expression that a value is has that value.
pub fn what_is_written_is_itself()
    ensures columns { ColumnsAreThemselves }
    ensures tables { TablesAreThemselves }
    ensures additions { AdditionsAreThemselves }
    ensures literals { LiteralsAreThemselves }
{}
