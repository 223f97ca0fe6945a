//! Parts of the grammar.
ghost use Rattle.std.specs.Prelude.{◌≡◌, ◌<◌, Some, List, length};
ghost use Rattle.iv_lex.specs.Words.{Word};
ghost use Rattle.iv_parse_terms.specs.Reading.{Reads};

use iv_parse_terms::{Cursor, Stop};
use iv_syntax::Name;

/// A part of the grammar.
pub trait Parse: Sized {
    ghost use Rattle.std.specs.Prelude.{List, Option};
    ghost use Rattle.iv_lex.specs.Words.{Word};

    ghost found: { List Word → Option (Self × List Word) };

    /// The part at the cursor.
    fn parse(cursor: &mut Cursor<'_>) -> Result<Self, Stop>
        ensures { Reads found cursor.old result cursor.new };
}

impl Parse for Name {
    ghost use Rattle.iv_parse_terms.specs.After.{after_name};

    ghost found = { after_name };

    fn parse(cursor: &mut Cursor<'_>) -> Result<Name, Stop> {
        cursor.name()
    }
}

/// A part of the grammar that comes any number of times, one after the other.
pub trait ParseSome: Sized {
    ghost use Rattle.std.specs.Prelude.{List, Option};
    ghost use Rattle.iv_lex.specs.Words.{Word};

    ghost found_some: { List Word → Option (Option Self × List Word) };

    /// Each part takes a word at least. It does nothing: its contract is what counts.
    fn recall_word()
        ensures { (ws rest : List Word) (part : Self) → found_some ws ≡ Some (Some part, rest)
            → length rest < length ws };

    /// The part at the cursor, where one begins there.
    fn parse_some(cursor: &mut Cursor<'_>) -> Result<Option<Self>, Stop>
        ensures { Reads found_some cursor.old result cursor.new };
}
