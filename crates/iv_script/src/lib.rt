//! Scripts: read from a device, run in a new session, and answered as a transcript.
#![tactic(auto)]

mod caret;
mod closing;
mod fault_line;
mod hint;
mod json_line;
mod lines;
mod merging;
mod news;
mod place;
mod read;
mod running;
mod statements;
mod summary;
mod telling;

pub use caret::MOST_AROUND;
pub use hint::{CALLS, CLAUSES, JOINS, NO_TOKENS, NO_TYPES, STATEMENTS, WORDS, fault_hint};
pub use iv_parse::SyntaxFault;
pub use iv_text::{DeviceFault, Format, Sink, Source, Std, Style};
pub use lines::write_lines;
pub use place::{MOST_WORDS, Place, place_at, words_at};
pub use read::LONGEST;
pub use running::run;
pub use summary::{RunFault, Summary};
pub use telling::Telling;
