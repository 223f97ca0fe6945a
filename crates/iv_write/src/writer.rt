//! Words, written to a text.
ghost use Rattle.std.specs.Prelude.{◌≡◌, ◌∷◌, ◌++◌, [], IfOk, map, string_bytes};
ghost use Rattle.iv_lex.specs.Words.{name, number, plain, quoted};
ghost use Rattle.iv_write.specs.Layouts.{after, ending, gap, start};
ghost use Rattle.iv_write.specs.Spelling.{word_text};
ghost use Rattle.iv_write.specs.Writing.{Writes};

use crate::keyword::keyword_text;
use crate::layout::{Class, Layout, after, class_of, ending, gap, start};
use crate::quoting::quoted_text;
use itoa::Buffer;
use iv_lex::TokenKind;
use iv_syntax::Name;
use std::alloc::{AllocError, Global};

/// A text that words are written to, and where its next word goes.
#[derive(Drop)]
pub struct Writer {
    pub text: String,
    pub layout: Layout,
}

impl Writer {
    /// No words yet.
    pub fn new(alloc: Global) -> Writer
        ensures text { string_bytes result.text ≡ [] }
        ensures layout { result.layout ≡ start }
    {
        Writer {
            text: String::new(alloc),
            layout: start(),
        }
    }

    /// The text.
    pub fn into_text(self) -> String
        ensures { result ≡ self.text }
    {
        let Writer { text, layout: _ } = self;
        text
    }

    // The gap before a word, its characters, and what ends it.
    fn put(&mut self, class: Class, characters: &str) -> Result<(), AllocError>
        ensures text { IfOk result (λ _. string_bytes self.new.text
            ≡ string_bytes self.old.text ++ (gap self.old.layout class ++ (characters.now ++ (ending class ++ [])))) }
        ensures layout { IfOk result (λ _. self.new.layout ≡ after self.old.layout class) }
    {
        self.text.push_str(gap(self.layout, class))?;
        self.text.push_str(characters)?;
        self.text.push_str(ending(class))?;
        self.layout = after(self.layout, class);
        Ok(())
    }

    /// Writes a symbol or a reserved word.
    pub fn word(&mut self, kind: TokenKind) -> Result<(), AllocError>
        ensures { Writes self.old self.new result (plain kind ∷ []) }
    {
        self.put(class_of(kind), keyword_text(kind))
    }

    /// Writes symbols and reserved words.
    pub fn words(&mut self, kinds: &[TokenKind]) -> Result<(), AllocError>
        ensures { Writes self.old self.new result (map plain kinds.now) }
    {
        let mut rest = kinds;
        while let Some((kind, others)) = rest.split_first() {
            self.word(*kind)?;
            rest = others;
        }
        Ok(())
    }

    /// Writes a name.
    pub fn name(&mut self, written: &Name) -> Result<(), AllocError>
        ensures { Writes self.old self.new result (name written.now ∷ []) }
    {
        self.put(Class::Other, written.as_str())
    }

    /// Writes a number.
    pub fn number(&mut self, written: u64) -> Result<(), AllocError>
        ensures { Writes self.old self.new result (number written ∷ []) }
    {
        let mut buffer = Buffer::new();
        self.put(Class::Other, buffer.format(written))
    }

    /// Writes a text between quotes.
    pub fn quoted(&mut self, alloc: Global, written: &str) -> Result<(), AllocError>
        ensures { Writes self.old self.new result (quoted written.now ∷ []) }
    {
        let doubled = quoted_text(alloc, written)?;
        self.put(Class::Other, &doubled)
    }
}
