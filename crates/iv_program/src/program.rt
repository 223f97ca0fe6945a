//! From the words of the command line to the status of the process.
ghost use Rattle.std.specs.Prelude.{◌≤◌};

use crate::dumping::run_dump;
use crate::formatting::run_format;
use crate::given::{Options, WordsError};
use crate::reading::options;
use crate::running::{run_script, status};
use crate::task::{CLASH, Task, task_of};
use crate::unread::{opened, refuse_file};
use iv_machine::Limits;
use iv_script::{RunFault, Sink, Source, Std};
use iv_step::Executor;
use iv_text::write_all;
use std::alloc::Global;
use std::convert::AsStr;
use std::env::Env;
use std::fs::Files;
use std::io;
use std::io::Input;

// What is told of a word that isn't UTF-8.
const NOT_UTF8: &str =
    "sqlkeep: a word of the command line isn't UTF-8; give such a file on standard input\n";

// Writes a text that was asked for.
fn tell<W: Sink, E: Sink>(text: &str, writer: &mut W, faults: &mut E) -> u8
    ensures { result ≤ 2 }
{
    match write_all(writer, text.as_bytes()) {
        Ok(()) => 0,
        Err(_) => status(faults, Err(RunFault::Write)),
    }
}

// Writes the help or the version to `writer`, and why words are refused to `faults`. A line that can't be written there
// changes no status.
fn refuse_words<W: Sink, E: Sink>(error: WordsError, writer: &mut W, faults: &mut E) -> u8
    ensures { result ≤ 2 }
{
    match error {
        WordsError::NoMemory => status(faults, Err(RunFault::NoMemory)),
        WordsError::Help(text) | WordsError::Version(text) => tell(&text, writer, faults),
        WordsError::Refused(text) => refuse(faults, &text),
    }
}

// Does with the script that the reader gives what is asked for.
fn run_task<X: Executor + Drop, R: Source, W: Sink, E: Sink>(
    alloc: Global,
    limits: Limits,
    task: Task,
    reader: &mut R,
    writer: &mut W,
    faults: &mut E,
) -> u8
    ensures { result ≤ 2 }
{
    match task {
        Task::Transcript(style) => {
            run_script::<X, R, W, E>(alloc, limits, style, reader, writer, faults)
        }
        Task::Dump => run_dump::<X, R, W, E>(alloc, limits, reader, writer, faults),
        Task::Format => run_format(alloc, reader, writer, faults),
    }
}

// The same with the script of the file, or of standard input if there is none.
fn run_file<X: Executor + Drop, H: Files + Input, W: Sink, E: Sink>(
    alloc: Global,
    rt: &H,
    limits: Limits,
    file: Option<&str>,
    task: Task,
    writer: &mut W,
    faults: &mut E,
) -> u8
    ensures { result ≤ 2 }
{
    let Some(name) = file else {
        let mut reader = Std::new(rt.reader());
        return run_task::<X, Std<H::Reader>, W, E>(
            alloc,
            limits,
            task,
            &mut reader,
            writer,
            faults,
        );
    };
    match opened(rt, name) {
        Ok(file) => {
            let mut reader = Std::new(file);
            run_task::<X, Std<H::File>, W, E>(alloc, limits, task, &mut reader, writer, faults)
        }
        Err(why) => refuse_file(faults, name, why),
    }
}

// Tells why nothing is run.
fn refuse<E: Sink>(faults: &mut E, line: &str) -> u8
    ensures { result ≤ 2 }
{
    let _ = write_all(faults, line.as_bytes());
    2
}

// Does what the options ask for, if they go together.
fn run_options<X: Executor + Drop, H: Files + Input, W: Sink, E: Sink>(
    alloc: Global,
    rt: &H,
    options: Options<'_>,
    writer: &mut W,
    faults: &mut E,
) -> u8
    ensures { result ≤ 2 }
{
    let limits = options.limits;
    let file = options.file;
    let task = task_of(options.dump, options.format, options.explain, options.json);
    let Some(task) = task else {
        return refuse(faults, CLASH);
    };
    run_file::<X, H, W, E>(alloc, rt, limits, file, task, writer, faults)
}

// All but ending the process: reads the words, of which the first is the program's name, opens the file, and does with
// the script what they ask for. The answer is the status of the process.
fn go<X: Executor + Drop, H: Files + Input, S: AsStr, W: Sink, E: Sink>(
    alloc: Global,
    rt: &H,
    words: &[S],
    writer: &mut W,
    faults: &mut E,
) -> u8
    ensures { result ≤ 2 }
{
    match options(alloc, words) {
        Ok(options) => run_options::<X, H, W, E>(alloc, rt, options, writer, faults),
        Err(error) => refuse_words(error, writer, faults),
    }
}

// The words of the command line; none if one of them isn't UTF-8.
fn words<H: Env + AllocGlobal>(rt: &H) -> Result<Option<Vec<String>>, RunFault> {
    match std::env::args(rt) {
        Ok(words) => Ok(Some(words.collect(rt.alloc())?)),
        Err(error) if error.kind() == io::ErrorKind::OutOfMemory => Err(RunFault::NoMemory),
        Err(_) => Ok(None),
    }
}

/// The whole program but for its end, in a database of this kind. `rt` gives the words of the command line, memory,
/// the file that the words name, and standard input where they name none. What is asked for goes to `writer`, and why a
/// run didn't end goes to `faults`. The answer is the status of the process.
pub fn run_program<X: Executor + Drop, H: Env + Files + Input + AllocGlobal, W: Sink, E: Sink>(
    rt: &H,
    writer: &mut W,
    faults: &mut E,
) -> u8
    ensures { result ≤ 2 }
{
    match words(rt) {
        Ok(Some(words)) => {
            go::<X, H, String, W, E>(rt.alloc(), rt, words.as_slice(), writer, faults)
        }
        Ok(None) => refuse(faults, NOT_UTF8),
        Err(fault) => status(faults, Err(fault)),
    }
}
