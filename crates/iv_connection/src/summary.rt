//! What C reads of a run.
ghost use Rattle.iv_connection.specs.Scripts.{Shows};

use iv_script::Summary;

/// How many statements a run accepted and refused, how many of the refused had cause 22, where the script has its fault,
/// and how many refused COMMITs and ROLLBACK TOs have an empty account, since memory was refused for it.
#[repr(C)]
#[derive(Drop)]
pub struct RunSummary {
    pub accepted: u64,
    pub refused: u64,
    pub memory_refused: u64,
    /// 1 where the script has a fault, and otherwise 0.
    pub has_fault: u64,
    pub fault_at: u64,
    pub untold: u64,
}

/// The numbers of a summary.
pub fn summary_shown(summary: &Summary) -> RunSummary
    ensures { Shows summary.now result }
{
    let (has_fault, fault_at) = match summary.fault {
        Some(fault) => (1, fault.at as u64),
        None => (0, 0),
    };
    RunSummary {
        accepted: summary.accepted,
        refused: summary.refused,
        memory_refused: summary.memory_refused,
        has_fault,
        fault_at,
        untold: summary.untold,
    }
}
