//! Laws, as the contracts of functions that do nothing.
ghost use Rattle.iv_exec_triggers.specs.Laws.{FiringsAreByName, FiringsAreTheMachines};

/// The firings of the triggers one after another, on transitions by table and event, are those that the
/// machine says of the net changes.
pub fn firings_are_the_machines()
    ensures { FiringsAreTheMachines }
{}

/// Only which columns a level has decides what fires, not how often or in which order its list names them.
pub fn firings_are_by_name()
    ensures { FiringsAreByName }
{}
