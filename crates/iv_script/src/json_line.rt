//! The lines of a transcript in JSON.
ghost use Rattle.std.specs.Prelude.{◌≡◌, ◌+◌, ◌++◌, ◌<◌, ◌^◌, Some};
ghost use Rattle.std.specs.List.{flat_map};
ghost use Rattle.std.specs.Option.{option_copied};
ghost use Rattle.iv_text.specs.Writing.{Writes};
ghost use Rattle.iv_script.specs.JsonLines.{about_member, account_member, byte_members, columns_member_of, fault_front, fault_members, json_closing, json_end_line, json_fault_line, json_kinds, json_line, further_text, hint_member, known_members, number_key, place_members, text_member, wanted_member, word_member};
ghost use Rattle.iv_script.specs.Places.{place_at};

use crate::fault_line::wrong_word;
use crate::hint::fault_hint;
use crate::lines::Told;
use crate::place::{Place, place_at};
use crate::telling::Telling;
use iv_account::Entry;
use iv_catalogue::Catalogue;
use iv_explain::{write_columns_member, write_explained_member};
use iv_lex::{Token, TokenKind, kind_text};
use iv_machine::Limits;
use iv_parse::SyntaxFault;
use iv_print::{write_json_account, write_pending_members};
use iv_step::Outcome;
use iv_syntax::Statement;
use iv_text::{
    DeviceFault, Sink, write_all, write_json_text, write_key, write_member, write_nothing,
    write_number, write_number_member, write_outcome_members, write_text_member,
};

#[tactic(auto, using(iv_text::proofs::WriteLemmas::writes_then))]
fn write_number_key<W: Sink>(writer: &mut W, number: u64) -> Result<(), DeviceFault>
    ensures { Writes (W.state writer.old) (W.state writer.new) result (number_key number) }
{
    write_all(writer, b"{")?;
    write_key(writer, b"number")?;
    write_number(writer, number)
}

#[tactic(auto, using(iv_text::proofs::WriteLemmas::writes_then))]
fn write_account_member<W: Sink>(
    writer: &mut W,
    is_told: bool,
    catalogue: &Catalogue,
    limits: Limits,
    outcome: &Outcome,
    account: &[Entry],
) -> Result<(), DeviceFault>
    ensures { Writes (W.state writer.old) (W.state writer.new) result
        (account_member is_told catalogue.now limits outcome.now account.now) }
{
    if is_told {
        write_member(writer, b"account")?;
        write_json_account(writer, catalogue, limits, outcome, account)
    } else {
        write_nothing(writer)
    }
}

// The member that tells more of the refusal of this statement, where accounts are asked for.
fn write_explained<W: Sink>(
    writer: &mut W,
    telling: Telling,
    catalogue: &Catalogue,
    statement: &Statement,
    outcome: &Outcome,
) -> Result<(), DeviceFault>
    ensures { Writes (W.state writer.old) (W.state writer.new) result
        (about_member telling.style.explain catalogue.now (Some statement.now) outcome.now) }
{
    match outcome {
        Err(refusal) if telling.style.explain => write_explained_member(
            writer,
            telling.alloc,
            catalogue,
            statement,
            &refusal.cause,
        ),
        _ => write_nothing(writer),
    }
}

// The name or the reason of a refusal, where the statement is known.
fn write_about<W: Sink>(
    writer: &mut W,
    telling: Telling,
    catalogue: &Catalogue,
    statement: Option<&Statement>,
    outcome: &Outcome,
) -> Result<(), DeviceFault>
    ensures { Writes (W.state writer.old) (W.state writer.new) result
        (about_member telling.style.explain catalogue.now (option_copied statement.entry) outcome.now) }
{
    match statement {
        Some(statement) => write_explained(writer, telling, catalogue, statement, outcome),
        None => write_nothing(writer),
    }
}

// The columns of a query that is accepted, where accounts are asked for and the statement is known.
fn write_columns<W: Sink>(
    writer: &mut W,
    telling: Telling,
    statement: Option<&Statement>,
    outcome: &Outcome,
    catalogue: &Catalogue,
) -> Result<(), DeviceFault>
    ensures { Writes (W.state writer.old) (W.state writer.new) result
        (columns_member_of telling.style.explain catalogue.now (option_copied statement.entry) outcome.now) }
{
    let Some(statement) = statement else {
        return write_nothing(writer);
    };
    match outcome {
        Ok(_) if telling.style.explain => write_columns_member(writer, catalogue, statement),
        _ => write_nothing(writer),
    }
}

/// Writes the object of a statement, on a line of its own.
#[tactic(auto, using(iv_text::proofs::WriteLemmas::writes_then))]
pub fn write_json_line<W: Sink>(
    writer: &mut W,
    telling: Telling,
    number: u64,
    statement: Option<&Statement>,
    outcome: &Outcome,
    catalogue: &Catalogue,
    limits: Limits,
    told: Told<'_>,
) -> Result<(), DeviceFault>
    ensures { Writes (W.state writer.old) (W.state writer.new) result
        (json_line telling.style.explain told.entry.is_told number (option_copied statement.entry) catalogue.now
        limits outcome.now told.entry.account.now told.entry.came.now told.entry.went.now) }
{
    write_number_key(writer, number)?;
    write_outcome_members(writer, outcome, catalogue)?;
    write_columns(writer, telling, statement, outcome, catalogue)?;
    write_about(writer, telling, catalogue, statement, outcome)?;
    write_account_member(
        writer,
        told.is_told,
        catalogue,
        limits,
        outcome,
        told.account,
    )?;
    write_pending_members(writer, catalogue, told.came, told.went)?;
    write_all(writer, b"}\n")
}

#[tactic(auto, using(iv_text::proofs::WriteLemmas::writes_then))]
fn write_place<W: Sink>(writer: &mut W, place: Place) -> Result<(), DeviceFault>
    ensures { Writes (W.state writer.old) (W.state writer.new) result (place_members place) }
{
    write_member(writer, b"line")?;
    write_number(writer, place.line)?;
    write_number_member(writer, b"column", place.column)
}

// A byte of a text, and its line and column.
#[tactic(auto, using(iv_text::proofs::WriteLemmas::writes_then))]
fn write_byte<W: Sink>(writer: &mut W, text: &str, at: usize) -> Result<(), DeviceFault>
    ensures { Writes (W.state writer.old) (W.state writer.new) result (byte_members text.now at) }
{
    write_number(writer, at as u64)?;
    write_place(writer, place_at(text, at))
}

// The characters of the wrong word, where a token begins there.
fn write_text<W: Sink>(writer: &mut W, text: &str, token: Option<Token>) -> Result<(), DeviceFault>
    ensures { Writes (W.state writer.old) (W.state writer.new) result (text_member text.now token) }
{
    if token.is_none() {
        return write_nothing(writer);
    }
    write_text_member(writer, b"text", wrong_word(text, token))
}

// The first word that can't stand where it does.
#[tactic(auto, using(iv_text::proofs::WriteLemmas::writes_then))]
fn write_word<W: Sink>(writer: &mut W, text: &str, fault: &SyntaxFault) -> Result<(), DeviceFault>
    ensures { Writes (W.state writer.old) (W.state writer.new) result (word_member text.now fault.now) }
{
    write_member(writer, b"word")?;
    write_all(writer, b"{")?;
    write_key(writer, b"byte")?;
    write_byte(writer, text, fault.word)?;
    write_text(writer, text, fault.token)?;
    write_all(writer, b"}")
}

#[tactic(auto, using(iv_text::proofs::WriteLemmas::writes_then))]
fn write_further_kind<W: Sink>(writer: &mut W, kind: TokenKind) -> Result<(), DeviceFault>
    ensures { Writes (W.state writer.old) (W.state writer.new) result (further_text kind) }
{
    write_all(writer, b",")?;
    write_json_text(writer, kind_text(kind).as_bytes())
}

// Further kinds, each after a comma.
fn write_more_kinds<W: Sink>(writer: &mut W, kinds: &[TokenKind]) -> Result<(), DeviceFault>
    ensures { Writes (W.state writer.old) (W.state writer.new) result (flat_map further_text kinds.now) }
{
    let mut rest = kinds;
    while let Some((kind, others)) = rest.split_first() {
        write_further_kind(writer, *kind)?;
        rest = others;
    }
    Ok(())
}

#[tactic(auto, using(iv_text::proofs::WriteLemmas::writes_then))]
fn write_kinds<W: Sink>(writer: &mut W, kinds: &[TokenKind]) -> Result<(), DeviceFault>
    ensures { Writes (W.state writer.old) (W.state writer.new) result (json_kinds kinds.now) }
{
    match kinds {
        [] => write_nothing(writer),
        [kind, more @ ..] => {
            write_json_text(writer, kind_text(*kind).as_bytes())?;
            write_more_kinds(writer, more)
        }
    }
}

// What might have stood there.
#[tactic(auto, using(iv_text::proofs::WriteLemmas::writes_then))]
fn write_wanted<W: Sink>(writer: &mut W, kinds: &[TokenKind]) -> Result<(), DeviceFault>
    ensures { Writes (W.state writer.old) (W.state writer.new) result (wanted_member kinds.now) }
{
    write_member(writer, b"wanted")?;
    write_all(writer, b"[")?;
    write_kinds(writer, kinds)?;
    write_all(writer, b"]")
}

// What else is known of the word.
fn write_hint<W: Sink>(writer: &mut W, hint: &[u8]) -> Result<(), DeviceFault>
    ensures { Writes (W.state writer.old) (W.state writer.new) result (hint_member hint.now) }
{
    if hint.is_empty() {
        return write_nothing(writer);
    }
    write_text_member(writer, b"hint", hint)
}

// What is known of the word.
#[tactic(auto, using(iv_text::proofs::WriteLemmas::writes_then))]
fn write_known<W: Sink>(writer: &mut W, text: &str, fault: &SyntaxFault) -> Result<(), DeviceFault>
    ensures { Writes (W.state writer.old) (W.state writer.new) result (known_members text.now fault.now) }
{
    write_wanted(writer, fault.wanted.as_slice())?;
    write_hint(writer, fault_hint(text, fault).as_bytes())
}

// The front of a fault's object after so many statements.
#[tactic(auto, using(iv_text::proofs::WriteLemmas::writes_then))]
fn write_fault_front<W: Sink>(
    writer: &mut W,
    text: &str,
    count: u64,
    fault: &SyntaxFault,
) -> Result<(), DeviceFault>
    requires { count < 2 ^ 63 }
    ensures { Writes (W.state writer.old) (W.state writer.new) result (fault_front text.now count fault.now) }
{
    write_number_key(writer, count + 1)?;
    write_text_member(writer, b"kind", b"fault")?;
    write_member(writer, b"byte")?;
    write_byte(writer, text, fault.at)
}

#[tactic(auto, using(iv_text::proofs::WriteLemmas::writes_then))]
fn write_fault_members<W: Sink>(
    writer: &mut W,
    text: &str,
    count: u64,
    fault: &SyntaxFault,
) -> Result<(), DeviceFault>
    requires { count < 2 ^ 63 }
    ensures { Writes (W.state writer.old) (W.state writer.new) result (fault_members text.now count fault.now) }
{
    write_fault_front(writer, text, count, fault)?;
    write_word(writer, text, fault)?;
    write_known(writer, text, fault)?;
    write_all(writer, b"}\n")
}

// The object of a fault after so many statements.
fn write_fault<W: Sink>(
    writer: &mut W,
    text: &str,
    count: u64,
    fault: Option<SyntaxFault>,
) -> Result<(), DeviceFault>
    requires { count < 2 ^ 63 }
    ensures { Writes (W.state writer.old) (W.state writer.new) result
        (json_fault_line text.now count fault) }
{
    match fault {
        Some(fault) => write_fault_members(writer, text, count, &fault),
        None => write_nothing(writer),
    }
}

// The object of a transaction that is open at the end.
fn write_end<W: Sink>(writer: &mut W, is_open: bool) -> Result<(), DeviceFault>
    ensures { Writes (W.state writer.old) (W.state writer.new) result (json_end_line is_open) }
{
    if is_open {
        write_all(writer, b"{\"kind\":\"end\",\"rolled_back\":true}\n")
    } else {
        write_nothing(writer)
    }
}

/// Writes the objects of the script's fault and of a transaction that is open at the end, each on a line of its own.
#[tactic(auto, using(iv_text::proofs::WriteLemmas::writes_then))]
pub fn write_json_closing<W: Sink>(
    writer: &mut W,
    text: &str,
    count: u64,
    fault: Option<SyntaxFault>,
    is_open: bool,
) -> Result<(), DeviceFault>
    requires { count < 2 ^ 63 }
    ensures { Writes (W.state writer.old) (W.state writer.new) result
        (json_closing text.now count fault is_open) }
{
    write_fault(writer, text, count, fault)?;
    write_end(writer, is_open)
}
