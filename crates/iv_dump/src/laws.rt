//! Laws of what is written.
ghost use Rattle.iv_dump.specs.DumpLaws.{ConstraintsAreSaid, InsertsAreCommitted, RowsAreInserted, TriggersAreLast};
ghost use Rattle.iv_dump.specs.Laws.{ChecksCanBeWritten};

/// The condition of a CHECK can be written if the names of the columns can, and if it isn't too deep.
pub fn checks_can_be_written()
    ensures { ChecksCanBeWritten }
{}

/// A dump inserts each row of each table once, in their order, with a COMMIT after each INSERT. It makes each constraint
/// once, in the order of creation, with its name and its mode. Triggers come last.
pub fn dumps_make_all()
    ensures rows { RowsAreInserted }
    ensures commits { InsertsAreCommitted }
    ensures constraints { ConstraintsAreSaid }
    ensures triggers { TriggersAreLast }
{}
