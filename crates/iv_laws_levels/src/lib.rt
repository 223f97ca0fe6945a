//! Laws of the machine's definitions, each as the contract of a function that does nothing.
#![tactic(auto)]

mod laws;

pub use laws::{
    a_change_is_local, any_order, budget_falls, changes_are_counted, deletion_closure,
    holders_before_a_wave, level_checks, net_changes_follow, planned_states_are_sound, waves_fit,
    waves_one_by_one,
};
