//! What follows from the definitions, as contracts of functions that do nothing.
ghost use Rattle.iv_store_faults.specs.Watching.{RoomSuffices, ShownRowsArePresent};

/// Does nothing. Its contract states that rows which are shown are under their keys.
pub fn shown_rows_are_present()
    ensures { ShownRowsArePresent }
{}

/// Does nothing. Its contract states that a change can be taken back without an allocation, if no key holds fewer rows
/// without an allocation than it had before the change.
pub fn room_suffices()
    ensures { RoomSuffices }
{}
