//! Statements, one after the other in the session.
ghost use Rattle.std.specs.Prelude.{◌≡◌, ◌≢◌, None, Some, false, is_some, true, IfErr, IfOk, IfSome, OnOk, option_copied, option_map, slice_get};
ghost use Rattle.std.specs.Str.{IsUtf8};
ghost use Rattle.iv_parse.specs.Script.{IsFault, IsScript};
ghost use Rattle.iv_connection.specs.OutcomeLines.{account, executed, lines_of};
ghost use Rattle.iv_session.specs.Executed.{Executed};
ghost use Rattle.iv_connection.specs.Statements.{place_shown};
ghost use Rattle.iv_shown.specs.Statuses.{MayWantMemory, found};

use iv_account::Entry;
use iv_parse::{SyntaxFault, script};
use iv_script::{Telling, write_lines};
use iv_session::Outcome;
use iv_shown::{Connection, Database, NO_MEMORY, NOT_UTF8, OK, SourceText};
use iv_syntax::Statement;
use iv_text::{DeviceFault, Format, Std, Style};
use sqlite_items::Items;
use std::alloc::{AllocError, Global};
use std::str::from_utf8;

/// How many statements were read from a text, and where it has its fault.
#[repr(C)]
#[derive(Drop)]
pub struct ReadScript {
    pub statements: u64,
    /// 1 where the text has a fault, and otherwise 0.
    pub has_fault: u64,
    pub fault_at: u64,
}

/// What C reads of the statements of a text.
pub fn read_shown(count: usize, fault: Option<SyntaxFault>) -> ReadScript
    ensures count { result.statements ≡ count }
    ensures place { place_shown fault result.has_fault result.fault_at }
{
    match fault {
        Some(fault) => ReadScript {
            statements: count as u64,
            has_fault: 1,
            fault_at: fault.at as u64,
        },
        None => ReadScript {
            statements: count as u64,
            has_fault: 0,
            fault_at: 0,
        },
    }
}

/// Statements with the text that they were read from, or the template, and its fault.
#[derive(Drop)]
pub struct ParsedText {
    pub statements: Items<Statement>,
    pub fault: Option<SyntaxFault>,
    pub text: SourceText,
}

/// A copy of this text.
pub(crate) fn source_text(
    alloc: Global,
    characters: &str,
    holes: usize,
) -> Result<SourceText, AllocError>
    ensures { IfOk result (λ t. t ≡ record { text = characters.now; holes = holes }) }
{
    let mut text = String::new(alloc);
    text.push_str(characters)?;
    Ok(SourceText::new(text, holes))
}

fn parsed(alloc: Global, characters: &str) -> Result<ParsedText, AllocError>
    ensures script { IfOk result (λ p. IsScript characters.now p.statements (option_map (λ f. f.at) p.fault)) }
    ensures word { IfOk result (λ p. IfSome p.fault (λ f. IsFault characters.now p.statements f)) }
    ensures text { IfOk result (λ p. p.text ≡ record { text = characters.now; holes = 0 }) }
{
    let text = source_text(alloc, characters, 0)?;
    let parsed = script(alloc, characters)?;
    let fault = parsed.fault;
    Ok(ParsedText {
        statements: parsed.into_statements(),
        fault,
        text,
    })
}

/// The statements of a text, or the status of the call that wanted them.
pub fn parse_text(alloc: Global, text: &[u8]) -> Result<ParsedText, u32>
    ensures script { IfOk result (λ p. IsScript text.now p.statements (option_map (λ f. f.at) p.fault)) }
    ensures word { IfOk result (λ p. IfSome p.fault (λ f. IsFault text.now p.statements f)) }
    ensures text { IfOk result (λ p. p.text ≡ record { text = text.now; holes = 0 }) }
    ensures utf8 { OnOk result (IsUtf8 text.now) }
    ensures not_utf8 { IfErr result (λ e. e ≡ NOT_UTF8 → ¬ (IsUtf8 text.now)) }
    ensures kinds { IfErr result (λ e. (e ≢ OK) × (e ≢ NOT_UTF8 → (e ≡ NO_MEMORY) × IsUtf8 text.now)) }
{
    let Ok(characters) = from_utf8(text) else {
        return Err(NOT_UTF8);
    };
    match parsed(alloc, characters) {
        Ok(parsed) => Ok(parsed),
        Err(_) => Err(NO_MEMORY),
    }
}

/// Keeps these statements, in place of those that were read before.
pub fn keep_parsed(connection: &mut Connection, parsed: ParsedText)
    ensures { connection.new ≡ record connection.old {
      statements = parsed.statements;
      fault = parsed.fault;
      text = parsed.text;
      executed = None;
    } }
{
    let ParsedText {
        statements,
        fault,
        text,
    } = parsed;
    connection.statements = statements;
    connection.fault = fault;
    connection.text = text;
    connection.executed = None;
}

fn statement_at(statements: &[Statement], at: usize) -> Option<&Statement>
    ensures { option_copied result ≡ slice_get statements.now at }
{
    statements.get(at)
}

// Executes the statement at this place of a list.
fn execute_at(session: &mut Database, statements: &[Statement], at: usize) -> Option<Outcome>
    ensures executed { IfSome result (λ r. IfSome (slice_get statements.now at) (λ st.
        Executed true session.old st r session.new)) }
    ensures found { is_some result ≡ is_some (slice_get statements.now at) }
    ensures none { result ≡ None → session.new ≡ session.old }
{
    match statement_at(statements, at) {
        Some(statement) => Some(session.execute(statement)),
        None => None,
    }
}

/// Executes the statement at this place of those that were read, and keeps its outcome.
pub fn execute_kept(connection: &mut Connection, at: usize) -> bool
    ensures executed { result ≡ true → IfSome (slice_get connection.old.statements at) (λ st.
        Executed true connection.old.session st connection.new.outcome connection.new.session) }
    ensures rest { result ≡ true → connection.new ≡ record connection.old {
      session = connection.new.session;
      outcome = connection.new.outcome;
      executed = Some at;
      is_told = connection.old.session.account.asked;
    } }
    ensures found { result ≡ is_some (slice_get connection.old.statements at) }
    ensures none { result ≡ false → connection.new ≡ connection.old }
{
    let is_told = connection.session.explains();
    match execute_at(
        &mut connection.session,
        connection.statements.as_slice(),
        at,
    ) {
        Some(outcome) => {
            connection.outcome = outcome;
            connection.executed = Some(at);
            connection.is_told = is_told;
            true
        }
        None => false,
    }
}

/// The statement that was executed last, where it is among those that were read last.
pub fn executed(connection: &Connection) -> Option<&Statement>
    ensures { option_copied result ≡ executed connection.now.statements connection.now.executed }
{
    match connection.executed {
        Some(at) => statement_at(connection.statements.as_slice(), at),
        None => None,
    }
}

// The account of the last outcome; none where none was asked for then, or where it was cleared since.
fn account(connection: &Connection) -> Option<&[Entry]>
    ensures { option_copied result ≡ account connection.now }
{
    if connection.is_told {
        Some(connection.session.account())
    } else {
        None
    }
}

// The lines of the last outcome in this format, as the program writes them.
fn lines(
    alloc: Global,
    format: Format,
    number: u64,
    connection: &Connection,
) -> Result<Vec<u8>, DeviceFault>
    ensures { IfOk result (λ t. t.items ≡ lines_of format number connection.now) }
{
    let style = Style {
        format,
        explain: connection.session.explains(),
    };
    let mut writer = Std::new(Vec::new(alloc));
    write_lines(
        &mut writer,
        Telling { style, alloc },
        number,
        executed(connection),
        &connection.outcome,
        connection.session.catalogue(),
        connection.session.limits(),
        account(connection),
    )?;
    Ok(writer.into_inner())
}

/// Keeps the lines of the last outcome as a transcript.
pub fn keep_lines(alloc: Global, format: Format, number: u64, connection: &mut Connection) -> u32
    ensures lines { result ≡ OK → connection.new.transcript.items ≡ lines_of format number connection.old }
    ensures rest { connection.new ≡ record connection.old { transcript = connection.new.transcript } }
    ensures others { result ≢ OK → connection.new ≡ connection.old }
    ensures status { MayWantMemory result }
{
    match lines(alloc, format, number, &*connection) {
        Ok(bytes) => {
            connection.transcript = bytes;
            OK
        }
        Err(_) => NO_MEMORY,
    }
}
