//! Outcomes, names, conditions and rules as text and as JSON, and the devices that text goes to and scripts come from.
#![tactic(auto)]

mod buffered;
mod cause;
mod condition;
mod device;
mod format;
pub mod json;
mod names;
mod outcome;
mod rule;
mod spelled;
mod spelled_number;
mod spelled_value;
mod way;
mod write;

pub use buffered::Buffered;
pub use cause::{cause_name, cause_number, constraint_of, trigger_of};
pub use condition::{Shown, tell_condition};
pub use device::{DeviceFault, Sink, Source, Std};
pub use format::{Format, Style};
pub use json::{
    write_json_bytes, write_json_text, write_key, write_member, write_number_member,
    write_outcome_members, write_text_member,
};
pub use names::{column_in, table_in};
pub use outcome::{
    cause_words, signal_text, write_borrowed, write_first_line, write_name, write_outcome,
    write_row_lines, write_row_number, write_trigger, write_value, write_values,
};
pub use rule::{columns_of, tell_constraint, write_described, write_named};
pub use spelled::{tell, tell_between, tell_both, tell_nothing};
pub use spelled_number::{tell_number, tell_number_after, tell_number_between, tell_numbered};
pub use spelled_value::tell_quoted;
pub use way::{Limit, depth_after, limit_of, tell_limit, write_limit_line};
pub use write::{write_all, write_nothing, write_number};
