//! Where statements begin and end in their text.
ghost use Rattle.std.specs.Prelude.{◌≡◌, ◌∷◌, ◌++◌, List, IfOk, slice_get, string_bytes};
ghost use Rattle.iv_lex.specs.declared.token.Token.{Token as Lexeme};
ghost use Rattle.iv_shown.specs.Places.{in_body, is_end, is_semicolon, place_at, places_from, places_in, statement_places};

use crate::connection::Connection;
use iv_lex::{Token, TokenKind, tokens};
use iv_template::blanked;
use std::alloc::{AllocError, Global};
use std::marker::Model;

/// Where a statement begins and ends in its text: bytes of it, from 0.
#[repr(C)]
#[derive(Clone, Copy)]
pub struct StatementPlace {
    /// The first byte of its first token.
    pub begin: u64,
    /// The byte behind its semicolon.
    pub end: u64,
}

fn in_body(before: bool, kind: TokenKind) -> bool
    ensures { result ≡ in_body before kind }
{
    match kind {
        TokenKind::Atomic => true,
        TokenKind::End => false,
        _ => before,
    }
}

fn is_semicolon(kind: TokenKind) -> bool
    ensures { result ≡ is_semicolon kind }
{
    matches!(kind, TokenKind::Semicolon)
}

fn is_end(inside: bool, kind: TokenKind) -> bool
    ensures { result ≡ is_end inside kind }
{
    !inside && is_semicolon(kind)
}

fn place(begin: usize, end: usize) -> StatementPlace
    ensures { result ≡ record { begin = begin; end = end } }
{
    StatementPlace {
        begin: begin as u64,
        end: end as u64,
    }
}

// Where the statement began that isn't ended yet, if it began, and whether the tokens are in the body of a trigger.
#[derive(Clone, Copy)]
struct Reached {
    begin: Option<usize>,
    inside: bool,
}

// Goes on by a token, and adds the place of a statement that ends with it.
#[tactic(auto, using(crate::proofs::PlaceProofs::place_ended, crate::proofs::PlaceProofs::place_goes_on))]
fn place_by(
    found: &mut Vec<StatementPlace>,
    reached: Reached,
    token: &Token,
) -> Result<Reached, AllocError>
    ensures { IfOk result (λ next. (ts : List Lexeme) → found.new.items ++ places_from next.begin next.inside ts
        ≡ found.old.items ++ places_from reached.begin reached.inside (token.now ∷ ts)) }
{
    let begin = reached.begin.unwrap_or(token.start);
    if is_end(reached.inside, token.kind) {
        found.push(place(begin, token.end))?;
        return Ok(Reached {
            begin: None,
            inside: false,
        });
    }
    Ok(Reached {
        begin: Some(begin),
        inside: in_body(reached.inside, token.kind),
    })
}

// The places of the statements of these tokens.
fn statement_places(alloc: Global, tokens: &[Token]) -> Result<Vec<StatementPlace>, AllocError>
    ensures { IfOk result (λ found. found.items ≡ statement_places tokens.now) }
{
    let mut found = Vec::new(alloc);
    let mut reached = Reached {
        begin: None,
        inside: false,
    };
    let mut rest = tokens;
    while let Some((token, others)) = rest.split_first() {
        reached = place_by(&mut found, reached, token)?;
        rest = others;
    }
    Ok(found)
}

fn places_in(alloc: Global, text: &str, holes: usize) -> Result<Vec<StatementPlace>, AllocError>
    ensures { IfOk result (λ found. found.items ≡ places_in (record { text = text.now; holes = holes })) }
{
    let blank = blanked(alloc, text, holes)?;
    let lexed = tokens(alloc, blank.as_str())?;
    statement_places(alloc, lexed.tokens.as_slice())
}

/// A text that statements were read from, and where they stand in it, once that was asked for. Contracts see the text, and
/// how many of its question marks are holes of a template.
pub struct SourceText {
    text: String,
    holes: usize,
    places: Option<Vec<StatementPlace>>,
}

impl Drop for SourceText {
    fn drop(self) {
        let SourceText {
            text,
            holes: _,
            places,
        } = self;
        drop(text);
        drop(places);
    }
}

impl Model for SourceText {
    ghost use Rattle.std.specs.Prelude.{string_bytes, option_map};
    ghost use Rattle.iv_shown.specs.Places.{Source, AreFound};

    ghost Value = { Source };

    ghost view = { λ t. record { text = string_bytes t.text; holes = t.holes } };

    // Places that were found are those of the text.
    ghost invariant = { λ t. AreFound (record { text = string_bytes t.text; holes = t.holes }) (option_map (λ v. v.items) t.places) };
}

impl SourceText {
    /// A text with so many holes. Nothing is looked for.
    pub fn new(text: String, holes: usize) -> SourceText
        ensures { result ≡ record { text = string_bytes text; holes = holes } }
    {
        SourceText {
            text,
            holes,
            places: None,
        }
    }

    /// The place of a statement of the text. The first call looks for all of them, and keeps them.
    pub fn place(&mut self, alloc: Global, at: usize) -> Result<Option<StatementPlace>, AllocError>
        ensures place { IfOk result (λ found. found ≡ slice_get (places_in self.old) at) }
        ensures kept { self.new ≡ self.old }
    {
        if let Some(places) = &self.places {
            return Ok(places.get(at).copied());
        }
        let places = places_in(alloc, self.text.as_str(), self.holes)?;
        let found = places.get(at).copied();
        self.places = Some(places);
        Ok(found)
    }
}

/// The place of a statement of those that were read last, in the text or the template that they were read from.
pub fn statement_place(
    alloc: Global,
    connection: &mut Connection,
    at: usize,
) -> Result<Option<StatementPlace>, AllocError>
    ensures place { IfOk result (λ found. found ≡ place_at connection.old.statements connection.old.text at) }
    ensures kept { connection.new ≡ connection.old }
{
    if at < connection.statements.len() {
        connection.text.place(alloc, at)
    } else {
        Ok(None)
    }
}
