//! The program over any database: the words of the command line, the file of the script, what is written of it, and the status.
#![tactic(auto)]

mod command;
mod dumping;
mod formatting;
mod given;
mod lasting;
mod notes;
mod program;
mod reading;
mod running;
mod script;
mod task;
mod unread;
mod version;

pub use command::USUAL_DEPTH;
pub use dumping::run_dump;
pub use formatting::run_format;
pub use given::{Options, WordsError};
pub use iv_script::{RunFault, Sink, Source, Std, Summary};
pub use lasting::Lasting;
pub use notes::{Notes, Stop};
pub use program::run_program;
pub use reading::options;
pub use running::{run_script, status};
pub use script::ScriptFault;
pub use task::{Task, task_of};
