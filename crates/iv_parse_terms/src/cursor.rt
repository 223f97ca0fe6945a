//! A place among the words of a text, from which they are read.
ghost use Rattle.std.specs.Prelude.{◌≡◌, ◌<◌, ◌≤◌, ℕ, IfOk, IfSome, length, option_and_then, option_copied, slice_get, true};
ghost use Rattle.iv_lex.specs.Words.{words};
ghost use Rattle.iv_parse_terms.specs.After.{after, after_name, after_number, after_quoted, if_some, is_plain};
ghost use Rattle.iv_parse_terms.specs.readers.Expressions.{after_sign};
ghost use Rattle.iv_parse_terms.specs.readers.Conditions.{after_comparison};
ghost use Rattle.iv_parse_terms.specs.Reading.{Expects, Follows, Peeks, Reads, Tries, TriesPart, TriesUnlessMemory, after_both, looked, name_in, number_in, passed, quoted_in, word_is};

use crate::stop::Stop;
use crate::wanted::Wanted;
use crate::word::{name_of, number_of, quoted_of, token_is};
use iv_expr::Comparison;
use iv_lex::{Token, TokenKind};
use iv_syntax::{Name, Sign};
use iv_value::Text;
use std::alloc::{AllocError, Global};
use std::marker::Model;

/// A place among the tokens of a text, seen as words; the furthest word that was looked at; and what was looked for there
/// and not found.
#[derive(Drop)]
pub struct Cursor<'a> {
    alloc: Global,
    text: &'a str,
    tokens: &'a [Token],
    place: usize,
    furthest: usize,
    wanted: Wanted,
}

impl<'a> Model for Cursor<'a> {
    ghost use Rattle.iv_lex.specs.Words.{words};
    ghost use Rattle.iv_parse_terms.specs.Reading.{At};

    ghost Value = { At };

    ghost view = { λ c. record { words = words c.text.now c.tokens.now; place = c.place; furthest = c.furthest } };
}

impl<'a> Cursor<'a> {
    /// A cursor at a place, where nothing was looked at yet but the word there.
    pub fn new(alloc: Global, text: &'a str, tokens: &'a [Token], place: usize) -> Cursor<'a>
        ensures { result ≡ record { words = words text.now tokens.now; place = place; furthest = place } }
    {
        Cursor {
            alloc,
            text,
            tokens,
            place,
            furthest: place,
            wanted: Wanted::new(),
        }
    }

    /// Where memory comes from.
    pub fn alloc(&self) -> Global {
        self.alloc
    }

    /// The place.
    pub fn place(&self) -> usize
        ensures { result ≡ self.now.place }
    {
        self.place
    }

    /// The place of the furthest word that was looked at.
    pub fn furthest(&self) -> usize
        ensures { result ≡ self.now.furthest }
    {
        self.furthest
    }

    /// What was looked for at the furthest place and not found there, each kind once.
    pub fn wanted(&self) -> Wanted {
        self.wanted.once()
    }

    // Looks at the word at the place.
    fn look(&mut self)
        ensures { self.new ≡ looked self.old }
    {
        if self.place > self.furthest {
            self.furthest = self.place;
            self.wanted.clear();
        }
    }

    // Notes what wasn't found at the place.
    fn miss(&mut self, kind: TokenKind)
        ensures { self.new ≡ self.old }
    {
        if self.place == self.furthest {
            self.wanted.add(kind);
        }
    }

    // Goes past the word at the place.
    fn pass(&mut self)
        requires { self.old.place < usize.MAX }
        ensures { self.new ≡ passed self.old }
    {
        self.place += 1;
    }

    // Goes past the word at the place, where something was found there; else notes what wasn't found.
    fn settle<T>(&mut self, found: Option<T>, kind: TokenKind) -> Option<T>
        requires { IfSome found (λ _. self.old.place < usize.MAX) }
        ensures cursor { self.new ≡ if_some found (λ _. passed self.old) self.old }
        ensures found { result ≡ found }
    {
        if found.is_some() {
            self.pass();
        } else {
            self.miss(kind);
        }
        found
    }

    /// Goes back to an earlier place.
    pub fn go_back(&mut self, place: usize)
        ensures { self.new ≡ record { words = self.old.words; place = place; furthest = self.old.furthest } }
    {
        self.place = place;
    }

    // Whether this symbol or reserved word stands at the place.
    fn is_here(&self, kind: TokenKind) -> bool
        requires { is_plain kind ≡ true }
        ensures found { result ≡ word_is kind (slice_get self.now.words self.now.place) }
        ensures few { length self.now.words ≤ usize.MAX }
    {
        match token_at(self.tokens, self.place) {
            Some(token) => token_is(token, kind),
            None => false,
        }
    }

    // The name at the place.
    fn name_here(&self) -> Result<Option<Name>, AllocError>
        ensures found { IfOk result (λ n. n ≡ option_and_then name_in (slice_get self.now.words self.now.place)) }
        ensures few { length self.now.words ≤ usize.MAX }
    {
        match token_at(self.tokens, self.place) {
            Some(token) => name_of(self.alloc, self.text, token),
            None => Ok(None),
        }
    }

    // The text at the place.
    fn quoted_here(&self) -> Result<Option<Text>, AllocError>
        ensures found { IfOk result (λ t. t ≡ option_and_then quoted_in (slice_get self.now.words self.now.place)) }
        ensures few { length self.now.words ≤ usize.MAX }
    {
        match token_at(self.tokens, self.place) {
            Some(token) => quoted_of(self.alloc, self.text, token),
            None => Ok(None),
        }
    }

    // The number at the place.
    fn number_here(&self) -> Option<u64>
        ensures found { result ≡ option_and_then number_in (slice_get self.now.words self.now.place) }
        ensures few { length self.now.words ≤ usize.MAX }
    {
        match token_at(self.tokens, self.place) {
            Some(token) => number_of(token),
            None => None,
        }
    }

    /// Whether this word is the next one.
    pub fn is_at(&mut self, kind: TokenKind) -> bool
        requires { is_plain kind ≡ true }
        ensures { Peeks (after kind) self.old result self.new }
    {
        self.look();
        if self.is_here(kind) {
            return true;
        }
        self.miss(kind);
        false
    }

    /// Goes past this word, where it is the next one.
    pub fn accept(&mut self, kind: TokenKind) -> bool
        requires { is_plain kind ≡ true }
        ensures { Tries (after kind) self.old result self.new }
    {
        self.accept_in_place(kind)
    }

    /// The same with its code in the place of the call: for words that are looked for at each value.
    #[inline(always)]
    pub fn accept_in_place(&mut self, kind: TokenKind) -> bool
        requires { is_plain kind ≡ true }
        ensures { Tries (after kind) self.old result self.new }
    {
        self.look();
        if self.is_here(kind) {
            self.pass();
            return true;
        }
        self.miss(kind);
        false
    }

    /// Goes past these two words, where they are the next ones.
    pub fn accept_both(&mut self, first: TokenKind, second: TokenKind) -> bool
        requires first { is_plain first ≡ true }
        requires second { is_plain second ≡ true }
        ensures { Tries (after_both first second) self.old result self.new }
    {
        let place = self.place();
        if !self.accept(first) {
            return false;
        }
        if self.accept(second) {
            return true;
        }
        self.go_back(place);
        false
    }

    /// Goes past this word, which has to be the next one.
    pub fn expect(&mut self, kind: TokenKind) -> Result<(), Stop>
        requires { is_plain kind ≡ true }
        ensures { Expects (after kind) self.old result self.new }
    {
        if self.accept_in_place(kind) {
            return Ok(());
        }
        Err(Stop::NoMatch)
    }

    /// The value, where this word follows it; the cursor goes past the word.
    pub fn followed<T: Drop>(&mut self, value: T, kind: TokenKind) -> Result<T, Stop>
        requires { is_plain kind ≡ true }
        ensures { Follows (after kind) value self.old result self.new }
    {
        if self.accept_in_place(kind) {
            return Ok(value);
        }
        drop(value);
        Err(Stop::NoMatch)
    }

    /// Goes past a name, where one is next.
    pub fn accept_name(&mut self) -> Result<Option<Name>, AllocError>
        ensures { TriesUnlessMemory after_name self.old result self.new }
    {
        self.look();
        let found = self.name_here()?;
        Ok(self.settle(found, TokenKind::Name))
    }

    /// Goes past a name, which has to be next.
    pub fn name(&mut self) -> Result<Name, Stop>
        ensures { Reads after_name self.old result self.new }
    {
        self.accept_name()?.ok_or(Stop::NoMatch)
    }

    /// Goes past a text, where one is next.
    pub fn accept_quoted(&mut self) -> Result<Option<Text>, AllocError>
        ensures { TriesUnlessMemory after_quoted self.old result self.new }
    {
        self.look();
        let found = self.quoted_here()?;
        Ok(self.settle(found, TokenKind::Quoted))
    }

    /// Goes past a text, which has to be next.
    pub fn quoted(&mut self) -> Result<Text, Stop>
        ensures { Reads after_quoted self.old result self.new }
    {
        self.accept_quoted()?.ok_or(Stop::NoMatch)
    }

    /// Goes past a number, where one is next.
    pub fn accept_number(&mut self) -> Option<u64>
        ensures { TriesPart after_number self.old result self.new }
    {
        self.look();
        let found = self.number_here();
        self.settle(found, TokenKind::Number(0))
    }

    /// Goes past a number, which has to be next.
    pub fn number(&mut self) -> Result<u64, Stop>
        ensures { Reads after_number self.old result self.new }
    {
        self.accept_number().ok_or(Stop::NoMatch)
    }

    /// Goes past a comparison, where one is next.
    pub fn accept_comparison(&mut self) -> Option<Comparison>
        ensures { TriesPart after_comparison self.old result self.new }
    {
        if self.accept(TokenKind::Equals) {
            return Some(Comparison::Equal);
        }
        if self.accept(TokenKind::NotEquals) {
            return Some(Comparison::NotEqual);
        }
        if self.accept(TokenKind::Less) {
            return Some(Comparison::Less);
        }
        if self.accept(TokenKind::LessEquals) {
            return Some(Comparison::LessEqual);
        }
        if self.accept(TokenKind::Greater) {
            return Some(Comparison::Greater);
        }
        if self.accept(TokenKind::GreaterEquals) {
            return Some(Comparison::GreaterEqual);
        }
        None
    }

    /// Goes past a sign, where one is next.
    pub fn accept_sign(&mut self) -> Option<Sign>
        ensures { TriesPart after_sign self.old result self.new }
    {
        if self.accept_in_place(TokenKind::Plus) {
            return Some(Sign::Plus);
        }
        if self.accept_in_place(TokenKind::Minus) {
            return Some(Sign::Minus);
        }
        None
    }
}

fn token_at(tokens: &[Token], place: usize) -> Option<&Token>
    ensures token { option_copied result ≡ slice_get tokens.now place }
    ensures few { length tokens.now ≤ usize.MAX }
{
    tokens.get(place)
}
