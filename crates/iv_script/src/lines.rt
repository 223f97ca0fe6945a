//! The lines of a statement.
ghost use Rattle.std.specs.Prelude.{◌++◌, Some};
ghost use Rattle.std.specs.Option.{option_copied};
ghost use Rattle.iv_text.specs.Lines.{first_line, row_lines};
ghost use Rattle.iv_print.specs.PendingLines.{pending_lines};
ghost use Rattle.iv_text.specs.Writing.{Writes};
ghost use Rattle.iv_script.specs.Transcript.{account_lines_of, columns_line_of, lines_in, name_line_of, outcome_lines};

use crate::json_line::write_json_line;
use crate::telling::Telling;
use iv_account::Entry;
use iv_catalogue::{Catalogue, Fault};
use iv_explain::{write_columns_line, write_explained_line};
use iv_machine::Limits;
use iv_print::{write_account, write_pending_lines};
use iv_step::Outcome;
use iv_syntax::Statement;
use iv_text::{DeviceFault, Format, Sink, write_first_line, write_nothing, write_row_lines};

/// What is told of a statement besides its outcome: its account, and the violations of deferred constraints that came
/// and that went.
#[derive(Clone, Copy)]
pub struct Told<'a> {
    pub account: &'a [Entry],
    /// Whether the account is told: it was asked for when the statement ran.
    pub is_told: bool,
    pub came: &'a [Entry],
    pub went: &'a [Fault],
}

// Tells more of the refusal of this statement, where accounts are asked for.
fn write_explained<W: Sink>(
    writer: &mut W,
    telling: Telling,
    catalogue: &Catalogue,
    statement: &Statement,
    outcome: &Outcome,
) -> Result<(), DeviceFault>
    ensures { Writes (W.state writer.old) (W.state writer.new) result
        (name_line_of telling.style.explain catalogue.now (Some statement.now) outcome.now) }
{
    match outcome {
        Err(refusal) if telling.style.explain => write_explained_line(
            writer,
            telling.alloc,
            catalogue,
            statement,
            &refusal.cause,
        ),
        _ => write_nothing(writer),
    }
}

// The name or the reason of a refusal, where the statement is known.
fn write_name_of<W: Sink>(
    writer: &mut W,
    telling: Telling,
    catalogue: &Catalogue,
    statement: Option<&Statement>,
    outcome: &Outcome,
) -> Result<(), DeviceFault>
    ensures { Writes (W.state writer.old) (W.state writer.new) result
        (name_line_of telling.style.explain catalogue.now (option_copied statement.entry) outcome.now) }
{
    match statement {
        Some(statement) => write_explained(writer, telling, catalogue, statement, outcome),
        None => write_nothing(writer),
    }
}

// The columns of a query that is accepted, where accounts are asked for and the statement is known.
fn write_columns<W: Sink>(
    writer: &mut W,
    telling: Telling,
    statement: Option<&Statement>,
    outcome: &Outcome,
    catalogue: &Catalogue,
) -> Result<(), DeviceFault>
    ensures { Writes (W.state writer.old) (W.state writer.new) result
        (columns_line_of telling.style.explain catalogue.now (option_copied statement.entry) outcome.now) }
{
    let Some(statement) = statement else {
        return write_nothing(writer);
    };
    match outcome {
        Ok(_) if telling.style.explain => write_columns_line(writer, catalogue, statement),
        _ => write_nothing(writer),
    }
}

// The lines of the account, where it is told.
fn write_account_of<W: Sink>(
    writer: &mut W,
    is_told: bool,
    catalogue: &Catalogue,
    limits: Limits,
    outcome: &Outcome,
    account: &[Entry],
) -> Result<(), DeviceFault>
    ensures { Writes (W.state writer.old) (W.state writer.new) result
        (account_lines_of is_told catalogue.now limits outcome.now account.now) }
{
    if is_told {
        write_account(writer, catalogue, limits, outcome, account)
    } else {
        write_nothing(writer)
    }
}

// The lines in words.
#[tactic(auto, using(iv_text::proofs::WriteLemmas::writes_then))]
fn write_words<W: Sink>(
    writer: &mut W,
    telling: Telling,
    number: u64,
    statement: Option<&Statement>,
    outcome: &Outcome,
    catalogue: &Catalogue,
    limits: Limits,
    told: Told<'_>,
) -> Result<(), DeviceFault>
    ensures { Writes (W.state writer.old) (W.state writer.new) result
        (first_line number outcome.now catalogue.now
        ++ (columns_line_of telling.style.explain catalogue.now (option_copied statement.entry) outcome.now
        ++ (row_lines outcome.now
        ++ (account_lines_of told.entry.is_told catalogue.now limits outcome.now told.entry.account.now
        ++ (name_line_of telling.style.explain catalogue.now (option_copied statement.entry) outcome.now
        ++ pending_lines catalogue.now told.entry.came.now told.entry.went.now))))) }
{
    write_first_line(writer, number, outcome, catalogue)?;
    write_columns(writer, telling, statement, outcome, catalogue)?;
    write_row_lines(writer, outcome)?;
    write_account_of(
        writer,
        told.is_told,
        catalogue,
        limits,
        outcome,
        told.account,
    )?;
    write_name_of(writer, telling, catalogue, statement, outcome)?;
    write_pending_lines(writer, catalogue, told.came, told.went)
}

/// Writes the lines of a statement, with all that is told of it.
pub(crate) fn write_told<W: Sink>(
    writer: &mut W,
    telling: Telling,
    number: u64,
    statement: Option<&Statement>,
    outcome: &Outcome,
    catalogue: &Catalogue,
    limits: Limits,
    told: Told<'_>,
) -> Result<(), DeviceFault>
    ensures { Writes (W.state writer.old) (W.state writer.new) result
        (lines_in telling.style.format telling.style.explain told.entry.is_told number (option_copied statement.entry) catalogue.now
        limits outcome.now told.entry.account.now told.entry.came.now told.entry.went.now) }
{
    match telling.style.format {
        Format::Words => write_words(
            writer, telling, number, statement, outcome, catalogue, limits, told,
        ),
        Format::Json => write_json_line(
            writer, telling, number, statement, outcome, catalogue, limits, told,
        ),
    }
}

/// Writes the lines of a statement's outcome, and, where accounts are asked for and the statement is known, the columns
/// of a query above its rows, or the name or the reason of a refusal. The limits are those of its session. The account is
/// given where it was asked for when the statement ran: without one a refusal for a limit has no line of what was counted.
pub fn write_lines<W: Sink>(
    writer: &mut W,
    telling: Telling,
    number: u64,
    statement: Option<&Statement>,
    outcome: &Outcome,
    catalogue: &Catalogue,
    limits: Limits,
    account: Option<&[Entry]>,
) -> Result<(), DeviceFault>
    ensures { Writes (W.state writer.old) (W.state writer.new) result
        (outcome_lines telling.style number (option_copied statement.entry) catalogue.now limits outcome.now
        (option_copied account.entry)) }
{
    let told = match account {
        Some(account) => Told {
            account,
            is_told: true,
            came: &[],
            went: &[],
        },
        None => Told {
            account: &[],
            is_told: false,
            came: &[],
            went: &[],
        },
    };
    write_told(
        writer, telling, number, statement, outcome, catalogue, limits, told,
    )
}
