//! The options that words give.
ghost use Rattle.std.specs.Prelude.{◌≡◌, ◌≤◌, codes, map, option_map, true, IfErr, IfOk};
ghost use Rattle.clap.specs.Words.{FailsBy, HasKind, Kinds, fault_of, found_of, kind_of, matches_of, one_of, rows_of, takes};
ghost use Rattle.clap.specs.declared.error.kind.ErrorKind.TheVariants.{OutOfMemory};
ghost use Rattle.iv_machine.specs.Bounds.{least_depth, greatest_depth, fewest_changes_in_a_statement, most_changes_in_a_statement};
ghost use Rattle.iv_machine.specs.declared.limits.TheConstants.{MOST_CHANGES_IN_A_STATEMENT};
ghost use Rattle.iv_program.specs.declared.command.TheConstants.{USUAL_DEPTH};
ghost use Rattle.iv_program.specs.declared.given.WordsError.TheVariants.{NoMemory};
ghost use Rattle.iv_program.specs.CommandLine.{command_line, dump_of, explains_of, file_of, flag_of, format_of, json_of, limits_of, number_or};
ghost use Rattle.iv_program.specs.Ranges.{GivesLimits, WritesWithin};
ghost use Rattle.iv_program.specs.Refusals.{AnswersBy, MayAnswer};

use crate::command::{USUAL_DEPTH, command};
use crate::given::{Options, WordsError};
use clap::error::ErrorKind;
use clap::{ArgMatches, Error};
use iv_machine::{Limits, MOST_CHANGES_IN_A_STATEMENT};
use std::alloc::{AllocError, Global};
use std::convert::AsStr;

fn depth_of(matches: &ArgMatches<'_>) -> u8
    requires { WritesWithin least_depth greatest_depth
        (one_of (codes "depth") (rows_of (found_of matches.now))) }
    ensures number { result
        ≡ number_or USUAL_DEPTH (one_of (codes "depth") (rows_of (found_of matches.now))) }
    ensures least { least_depth ≤ result }
    ensures greatest { result ≤ greatest_depth }
{
    matches.get_one::<u8>("depth").unwrap_or(USUAL_DEPTH)
}

fn changes_of(matches: &ArgMatches<'_>) -> u32
    requires { WritesWithin fewest_changes_in_a_statement most_changes_in_a_statement
        (one_of (codes "changes") (rows_of (found_of matches.now))) }
    ensures number { result
        ≡ number_or MOST_CHANGES_IN_A_STATEMENT
        (one_of (codes "changes") (rows_of (found_of matches.now))) }
    ensures fewest { fewest_changes_in_a_statement ≤ result }
    ensures most { result ≤ most_changes_in_a_statement }
{
    matches
        .get_one::<u32>("changes")
        .unwrap_or(MOST_CHANGES_IN_A_STATEMENT)
}

// The limits that the matches give. `clap` let through no number that is out of its range.
fn limits_of(matches: &ArgMatches<'_>) -> Limits
    requires { GivesLimits (rows_of (found_of matches.now)) }
    ensures { result ≡ limits_of (rows_of (found_of matches.now)) }
{
    let depth = depth_of(matches);
    let changes = changes_of(matches);
    match Limits::new(depth, changes) {
        Some(limits) => limits,
        None => unreachable!(),
    }
}

// Whether the flag of this name is given. `get_flag` has this body, but its clauses leave open what a text other than
// "true" and "false" reads as; those of `get_one` don't.
fn flag_of(matches: &ArgMatches<'_>, name: &str) -> bool
    ensures { result ≡ flag_of name.now (rows_of (found_of matches.now)) }
{
    matches.get_one::<bool>(name).unwrap_or(false)
}

// The options that the words give, or the error of `clap`.
fn read_words<'a, S: AsStr>(alloc: Global, words: &'a [S]) -> Result<Options<'a>, Error>
    ensures limits { IfOk result (λ o. o.limits
        ≡ limits_of (matches_of command_line (map S.text words.entry.now))) }
    ensures explain { IfOk result (λ o. o.explain
        ≡ explains_of (matches_of command_line (map S.text words.entry.now))) }
    ensures json { IfOk result (λ o. o.json
        ≡ json_of (matches_of command_line (map S.text words.entry.now))) }
    ensures dump { IfOk result (λ o. o.dump
        ≡ dump_of (matches_of command_line (map S.text words.entry.now))) }
    ensures format { IfOk result (λ o. o.format
        ≡ format_of (matches_of command_line (map S.text words.entry.now))) }
    ensures file { IfOk result (λ o. option_map (λ s. s.now) o.file
        ≡ file_of (matches_of command_line (map S.text words.entry.now))) }
    ensures passes { IfErr result (λ e. takes command_line (map S.text words.entry.now) ≡ true
        → kind_of e ≡ OutOfMemory) }
    ensures kinds { FailsBy (fault_of command_line (map S.text words.entry.now)) result }
{
    let mut command = command(alloc)?;
    let matches = command.try_get_matches_from_mut(words)?;
    Ok(Options {
        limits: limits_of(&matches),
        explain: flag_of(&matches, "explain"),
        json: flag_of(&matches, "json"),
        dump: flag_of(&matches, "dump"),
        format: flag_of(&matches, "format"),
        file: matches.get_str("file"),
    })
}

// Why there are no options, by the error of `clap`.
fn words_error(alloc: Global, error: &Error) -> Result<WordsError, AllocError>
    ensures memory { kind_of error.now ≡ OutOfMemory → IfOk result (λ e. e ≡ NoMemory) }
    ensures kinds { (kinds : Kinds) → HasKind kinds error.now → IfOk result (MayAnswer kinds) }
{
    let kind = error.kind();
    if kind == ErrorKind::OutOfMemory {
        return Ok(WordsError::NoMemory);
    }
    let text = format!(in alloc; "{error}")?;
    if kind == ErrorKind::DisplayHelp {
        return Ok(WordsError::Help(text));
    }
    if kind == ErrorKind::DisplayVersion {
        return Ok(WordsError::Version(text));
    }
    Ok(WordsError::Refused(text))
}

/// Reads the words of a command line, of which the first is the program's name.
pub fn options<'a, S: AsStr>(alloc: Global, words: &'a [S]) -> Result<Options<'a>, WordsError>
    ensures limits { IfOk result (λ o. o.limits
        ≡ limits_of (matches_of command_line (map S.text words.entry.now))) }
    ensures explain { IfOk result (λ o. o.explain
        ≡ explains_of (matches_of command_line (map S.text words.entry.now))) }
    ensures json { IfOk result (λ o. o.json
        ≡ json_of (matches_of command_line (map S.text words.entry.now))) }
    ensures dump { IfOk result (λ o. o.dump
        ≡ dump_of (matches_of command_line (map S.text words.entry.now))) }
    ensures format { IfOk result (λ o. o.format
        ≡ format_of (matches_of command_line (map S.text words.entry.now))) }
    ensures file { IfOk result (λ o. option_map (λ s. s.now) o.file
        ≡ file_of (matches_of command_line (map S.text words.entry.now))) }
    ensures passes { IfErr result (λ e. takes command_line (map S.text words.entry.now) ≡ true
        → e ≡ NoMemory) }
    ensures kinds { AnswersBy (fault_of command_line (map S.text words.entry.now)) result }
{
    match read_words(alloc, words) {
        Ok(options) => Ok(options),
        Err(error) => Err(words_error(alloc, &error)?),
    }
}
