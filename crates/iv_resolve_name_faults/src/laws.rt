//! A law of the names that are told, as the contract of a function that does nothing.
ghost use Rattle.iv_resolve_name_faults.specs.Laws.{RefusalsAreTold};

/// For each statement that resolution refuses for Unknown, a name that names nothing is told; for each that it refuses
/// for Duplicate, a name that is in use or comes twice.
pub fn refusals_are_told()
    ensures { RefusalsAreTold }
{}
