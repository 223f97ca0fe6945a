//! What a command line asks for.
ghost use Rattle.std.specs.Prelude.{◌≡◌};
ghost use Rattle.iv_program.specs.Tasks.{style_of, task_by, task_of};

use iv_text::{Format, Style};

/// What is written of a script.
#[derive(Clone, Copy, Debug, PartialEq, Eq)]
pub enum Task {
    /// The transcript of its run.
    Transcript(Style),
    /// A dump of the database that it leaves.
    Dump,
    /// Its statements in one layout; it isn't run.
    Format,
}

/// What tells that options don't go together.
pub const CLASH: &str =
    "sqlkeep: --dump and --format can't be used together, nor with --explain or --json\n";

fn style_of(explain: bool, json: bool) -> Style
    ensures { result ≡ style_of explain json }
{
    let format = if json { Format::Json } else { Format::Words };
    Style { format, explain }
}

// By whether a dump, a layout and something of a transcript is asked for.
fn task_by(dump: bool, format: bool, transcript: bool, style: Style) -> Option<Task>
    ensures { result ≡ task_by dump format transcript style }
{
    if dump {
        if format || transcript {
            return None;
        }
        return Some(Task::Dump);
    }
    if format {
        if transcript {
            return None;
        }
        return Some(Task::Format);
    }
    Some(Task::Transcript(style))
}

/// What the options ask for, by whether each of these is given; none if they don't go together.
pub fn task_of(dump: bool, format: bool, explain: bool, json: bool) -> Option<Task>
    ensures { result ≡ task_of dump format explain json }
{
    let style = style_of(explain, json);
    task_by(dump, format, explain || json, style)
}
