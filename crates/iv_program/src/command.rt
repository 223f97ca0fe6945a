//! The command that `clap` reads words for.
ghost use Rattle.std.specs.Prelude.{◌≡◌, codes, false, IfOk};
ghost use Rattle.clap.specs.Words.{app_of, new_app, rule_of};
ghost use Rattle.iv_program.specs.CommandLine.{changes_rule, command_line, depth_rule, dump_rule, explain_rule, file_rule, format_rule, json_rule, named_options, transcript_options, with_version};

use crate::version::version;
use clap::{Arg, ArgAction, Command, value_parser};
use iv_machine::{
    FEWEST_CHANGES_IN_A_STATEMENT, GREATEST_DEPTH, LEAST_DEPTH, MOST_CHANGES_IN_A_STATEMENT,
};
use std::alloc::{AllocError, Global};

/// How deep triggers may nest where `--depth` isn't given.
pub const USUAL_DEPTH: u8 = 16;

fn depth<'a>(alloc: Global) -> Arg<'a>
    ensures rule { rule_of result ≡ depth_rule }
    ensures local { result.global ≡ false }
{
    Arg::new(alloc, "depth")
        .long("depth")
        .value_name("N")
        .help_heading("Limits")
        .value_parser(value_parser!(u8).range(LEAST_DEPTH as i64..=GREATEST_DEPTH as i64))
        .help("How deep triggers may nest, 16 if not given")
}

fn changes<'a>(alloc: Global) -> Arg<'a>
    ensures rule { rule_of result ≡ changes_rule }
    ensures local { result.global ≡ false }
{
    let range = FEWEST_CHANGES_IN_A_STATEMENT as i64..=MOST_CHANGES_IN_A_STATEMENT as i64;
    Arg::new(alloc, "changes")
        .long("changes")
        .value_name("N")
        .help_heading("Limits")
        .value_parser(value_parser!(u32).range(range))
        .help("How many row changes one statement may make, 65536 if not given")
}

fn explain<'a>(alloc: Global) -> Arg<'a>
    ensures rule { rule_of result ≡ explain_rule }
    ensures local { result.global ≡ false }
{
    Arg::new(alloc, "explain")
        .long("explain")
        .action(ArgAction::SetTrue)
        .help_heading("Transcript")
        .help("Writes after each statement's line what happened in it")
}

fn json<'a>(alloc: Global) -> Arg<'a>
    ensures rule { rule_of result ≡ json_rule }
    ensures local { result.global ≡ false }
{
    Arg::new(alloc, "json")
        .long("json")
        .action(ArgAction::SetTrue)
        .help_heading("Transcript")
        .help("Writes a JSON object for each statement, on one line")
}

fn dump<'a>(alloc: Global) -> Arg<'a>
    ensures rule { rule_of result ≡ dump_rule }
    ensures local { result.global ≡ false }
{
    Arg::new(alloc, "dump")
        .long("dump")
        .action(ArgAction::SetTrue)
        .help_heading("In place of the transcript")
        .help("Writes SQL that makes the database which the script leaves")
}

fn layout<'a>(alloc: Global) -> Arg<'a>
    ensures rule { rule_of result ≡ format_rule }
    ensures local { result.global ≡ false }
{
    Arg::new(alloc, "format")
        .long("format")
        .action(ArgAction::SetTrue)
        .help_heading("In place of the transcript")
        .help("Writes the statements in one layout, without comments, and doesn't run them")
}

fn file<'a>(alloc: Global) -> Arg<'a>
    ensures rule { rule_of result ≡ file_rule }
    ensures local { result.global ≡ false }
{
    Arg::new(alloc, "file")
        .value_name("FILE")
        .help("The script, standard input if not given")
}

const EXAMPLES: &str = "Examples:
  sqlkeep --explain authors.sql          what each statement did, and why one is refused
  echo 'CREATE TABLE t (a INT CHECK (a > 0)); INSERT INTO t VALUES (0);' | sqlkeep
  sqlkeep --dump authors.sql > dump.sql  the database that a script leaves, as a script
  sqlkeep --format authors.sql           its statements in one layout; comments are taken out

The status is 0 if every statement was accepted, 1 if one was refused or the script has a fault,
and 2 if the script was not run to its end.
";

// The command with its texts and no options.
fn described<'a>(alloc: Global) -> Command<'a>
    ensures { app_of result ≡ with_version (new_app (codes "sqlkeep")) }
{
    Command::new(alloc, "sqlkeep")
        .about("Runs a script of SQL statements in a new database and writes its transcript")
        .version(version())
        .after_help(EXAMPLES)
}

// The command with the options of a transcript.
fn with_transcript<'a>(alloc: Global) -> Result<Command<'a>, AllocError>
    ensures { IfOk result (λ c. app_of c ≡ transcript_options) }
{
    described(alloc)
        .arg(depth(alloc))?
        .arg(changes(alloc))?
        .arg(explain(alloc))?
        .arg(json(alloc))
}

// The command with its options, which have a name each.
fn with_options<'a>(alloc: Global) -> Result<Command<'a>, AllocError>
    ensures { IfOk result (λ c. app_of c ≡ named_options) }
{
    with_transcript(alloc)?.arg(dump(alloc))?.arg(layout(alloc))
}

/// `sqlkeep [--depth N] [--changes N] [--explain] [--json] [--dump] [--format] [FILE]`, with `--help` and `--version`.
pub fn command<'a>(alloc: Global) -> Result<Command<'a>, AllocError>
    ensures { IfOk result (λ c. app_of c ≡ command_line) }
{
    with_options(alloc)?.arg(file(alloc))
}
