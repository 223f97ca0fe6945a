//! The words that might have stood in a place.
ghost use Rattle.std.specs.Prelude.{◌≡◌, ◌++◌, ◌∷◌, [], if◌then◌else◌, length, nat_lt};
ghost use Rattle.iv_parse_terms.specs.WantedKinds.{wanted_kinds};

use iv_lex::TokenKind;

/// The most kinds of words that are kept for a place.
pub const MOST_WANTED: usize = 24;

/// The kinds of words that were looked for in a place and not found there, in the order in which they were looked for.
/// More than `MOST_WANTED` aren't kept.
#[derive(Clone, Copy, Debug, PartialEq, Eq)]
pub struct Wanted {
    kinds: [TokenKind; MOST_WANTED],
    count: usize,
}

impl Wanted {
    /// No kind at all.
    pub fn new() -> Wanted
        ensures { wanted_kinds result ≡ [] }
    {
        Wanted {
            kinds: [TokenKind::Name; MOST_WANTED],
            count: 0,
        }
    }

    /// Forgets the kinds.
    pub fn clear(&mut self)
        ensures { wanted_kinds self.new ≡ [] }
    {
        self.count = 0;
    }

    /// Adds a kind, where there is room for it.
    pub fn add(&mut self, kind: TokenKind) {
        let count = self.count;
        if count < MOST_WANTED {
            self.kinds[count] = kind;
            self.count = count + 1;
        }
    }

    /// These kinds, each once.
    pub fn once(&self) -> Wanted {
        let mut found = Wanted::new();
        for kind in self.as_slice() {
            if !found.as_slice().contains(kind) {
                found.add(*kind);
            }
        }
        found
    }

    /// The kinds.
    pub fn as_slice(&self) -> &[TokenKind]
        ensures { result.now ≡ wanted_kinds self.now }
    {
        let count = self.count.min(MOST_WANTED);
        &self.kinds[..count]
    }
}
