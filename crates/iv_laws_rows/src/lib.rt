//! Laws of rows: the rows of every table fit its columns, whatever statements, waves and triggers do.
#![tactic(auto)]

mod laws;

pub use laws::{
    firings_fit, levels_are_well_typed, levels_keep_rows_fitting, proposals_fit, statements_fit,
    waves_fit, waves_start,
};
