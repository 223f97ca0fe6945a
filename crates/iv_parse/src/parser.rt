//! Scripts.
ghost use Rattle.std.specs.Prelude.{◌≡◌, ◌-◌, IfOk, IfSome, length, drop, max, option_map, slice_get, unwrap_or};
ghost use Rattle.iv_lex.specs.Tokens.{tokens_of};
ghost use Rattle.iv_parse.specs.Script.{ends_there, first_place, token_before, IsScript, IsEnd, IsFault};

use crate::statement::statement;
use iv_lex::{Token, tokens};
use iv_parse_terms::{Cursor, Stop, Wanted};
use iv_syntax::Statement;
use sqlite_items::Items;
use std::alloc::{AllocError, Global};

/// Where a script ceases to be statements. Places are byte offsets, from 0.
#[derive(Clone, Copy, Debug, PartialEq, Eq)]
pub struct SyntaxFault {
    /// Where the first token after the statements begins, or the lexical fault where no token comes first.
    pub at: usize,
    /// Where the first word begins that can't stand where it does: no statement begins with the words from `at` up to
    /// it and with it. The text's end where the text ends within a statement.
    pub word: usize,
    /// That word; none where no token begins there, and where the text ends.
    pub token: Option<Token>,
    /// The word before it, where it isn't the first of its statement.
    pub before: Option<Token>,
    /// Whether the text ends where a word is wanted.
    pub is_cut: bool,
    /// What might have stood there.
    pub wanted: Wanted,
    /// Whether what is read there is deeper than `DEEPEST_TREE`.
    pub too_deep: bool,
}

/// The statements of a script, and the fault where it ends too soon.
pub struct Parsed {
    pub statements: Items<Statement>,
    pub fault: Option<SyntaxFault>,
}

// Written out, so that what drops a statement is proved once, and not again in each crate that drops a script. No other
// crate can take a `Parsed` apart for that.
impl Drop for Parsed {
    fn drop(self) {
        let Parsed {
            statements,
            fault: _,
        } = self;
        drop(statements);
    }
}

impl Parsed {
    /// The statements alone.
    pub fn into_statements(self) -> Items<Statement>
        ensures { result ≡ self.statements }
    {
        let Parsed {
            statements: taken,
            fault: _,
        } = self;
        taken
    }
}

// The end of the longest run of whole statements: how many tokens come before it, and before the first word that
// can't stand where it does.
#[derive(Clone, Copy)]
struct End {
    place: usize,
    word: usize,
    wanted: Wanted,
    too_deep: bool,
}

fn end_of(place: usize, cursor: &Cursor<'_>, too_deep: bool) -> End
    ensures place { result.place ≡ place }
    ensures word { result.word ≡ max cursor.now.furthest place }
{
    End {
        place,
        word: cursor.furthest().max(place),
        wanted: cursor.wanted(),
        too_deep,
    }
}

// The longest run of whole statements of these tokens, and where it ends.
fn run(alloc: Global, text: &str, tokens: &[Token]) -> Result<(Items<Statement>, End), AllocError>
    ensures { IfOk result (λ p. IsEnd text.now tokens.now p.0 p.1.place p.1.word) }
{
    let mut statements = Items::new(alloc);
    let mut place = 0;
    loop {
        let mut cursor = Cursor::new(alloc, text, tokens, place);
        match statement(&mut cursor) {
            Ok(found) => {
                statements.push(found)?;
                place = cursor.place();
            }
            Err(Stop::NoMatch) => return Ok((statements, end_of(place, &cursor, false))),
            Err(Stop::TooDeep) => return Ok((statements, end_of(place, &cursor, true))),
            Err(Stop::NoMemory) => return Err(AllocError),
        }
    }
}

fn from(tokens: &[Token], place: usize) -> &[Token]
    ensures { result.now ≡ drop place tokens.now }
{
    &tokens[place.min(tokens.len())..]
}

fn first_place(tokens: &[Token], fault: Option<usize>) -> Option<usize>
    ensures { result ≡ first_place tokens.now fault }
{
    match tokens {
        [first, ..] => Some(first.start),
        [] => fault,
    }
}

// The token before so many of these and one more; none before the first.
fn token_before(tokens: &[Token], count: usize) -> Option<Token>
    ensures { result ≡ token_before tokens.now count }
{
    if count == 0 {
        return None;
    }
    tokens.get(count - 1).copied()
}

fn ends_there(token: Option<Token>, lexical: Option<usize>) -> bool
    ensures { result ≡ ends_there token lexical }
{
    token.is_none() && lexical.is_none()
}

fn fault_of(text: &str, tokens: &[Token], lexical: Option<usize>, end: End) -> Option<SyntaxFault>
    ensures at { option_map (λ f. f.at) result ≡ first_place (drop end.place tokens.now) lexical }
    ensures word { IfSome result (λ f. f.word
        ≡ unwrap_or (first_place (drop end.word tokens.now) lexical) (length text.now)) }
    ensures token { IfSome result (λ f. f.token ≡ slice_get (drop end.word tokens.now) 0) }
    ensures before { IfSome result (λ f. f.before
        ≡ token_before (drop end.place tokens.now) (end.word - end.place)) }
    ensures cut { IfSome result (λ f. f.is_cut ≡ ends_there f.token lexical) }
{
    let left = from(tokens, end.place);
    let at = first_place(left, lexical)?;
    let rest = from(tokens, end.word);
    let word = first_place(rest, lexical).unwrap_or(text.len());
    let token = rest.first().copied();
    Some(SyntaxFault {
        at,
        word,
        token,
        before: token_before(left, end.word.saturating_sub(end.place)),
        is_cut: ends_there(token, lexical),
        wanted: end.wanted,
        too_deep: end.too_deep,
    })
}

/// The longest run of whole statements of a text, and the fault where more than white space and comments
/// follow it.
pub fn script(alloc: Global, text: &str) -> Result<Parsed, AllocError>
    ensures script { IfOk result (λ p. IsScript text.now p.statements (option_map (λ f. f.at) p.fault)) }
    ensures word { IfOk result (λ p. IfSome p.fault (λ f. IsFault text.now p.statements f)) }
{
    let lexed = tokens(alloc, text)?;
    let (statements, end) = run(alloc, text, lexed.tokens.as_slice())?;
    let fault = fault_of(text, lexed.tokens.as_slice(), lexed.fault, end);
    Ok(Parsed { statements, fault })
}
