//! Parts that may be left out, stand in parentheses, or come several times.
ghost use Rattle.std.specs.Prelude.{◌≡◌, length, true};
ghost use Rattle.iv_parse_terms.specs.After.{is_plain};
ghost use Rattle.iv_parse_terms.specs.Reading.{Reads, ahead};
ghost use Rattle.iv_parse_data.specs.readers.Series.{read_optional, read_series, read_enclosed, read_all};

use crate::parts::{Parse, ParseSome};
use iv_lex::TokenKind;
use iv_parse_terms::{Cursor, Stop};
use sqlite_items::Items;

/// The part after this word, where the word is written.
#[tactic(auto, unfolding(crate::specs::readers::Series::read_optional))]
pub fn optional<T: Parse>(cursor: &mut Cursor<'_>, kind: TokenKind) -> Result<Option<T>, Stop>
    requires { is_plain kind ≡ true }
    ensures { Reads (read_optional kind T.found) cursor.old result cursor.new }
{
    if cursor.accept(kind) {
        let part = T::parse(cursor)?;
        return Ok(Some(part));
    }
    Ok(None)
}

/// The part between parentheses.
#[tactic(auto, unfolding(crate::specs::readers::Series::read_enclosed))]
pub fn enclosed<T: Parse + Drop>(cursor: &mut Cursor<'_>) -> Result<T, Stop>
    ensures { Reads (read_enclosed T.found) cursor.old result cursor.new }
{
    cursor.expect(TokenKind::LeftParenthesis)?;
    let part = T::parse(cursor)?;
    cursor.followed(part, TokenKind::RightParenthesis)
}

/// Parts with a comma between any two.
#[tactic(auto, unfolding(crate::specs::readers::Series::read_series))]
pub fn series<T: Parse + Drop>(cursor: &mut Cursor<'_>) -> Result<Items<T>, Stop>
    ensures { Reads (read_series T.found) cursor.old result cursor.new }
{
    let first = T::parse(cursor)?;
    let mut items = Items::new(cursor.alloc());
    items.push(first)?;
    while cursor.accept_in_place(TokenKind::Comma) {
        let item = T::parse(cursor)?;
        items.push(item)?;
    }
    Ok(items)
}

/// A series between parentheses.
#[tactic(auto, unfolding(crate::specs::readers::Series::read_enclosed))]
pub fn enclosed_series<T: Parse + Drop>(cursor: &mut Cursor<'_>) -> Result<Items<T>, Stop>
    ensures { Reads (read_enclosed (read_series T.found)) cursor.old result cursor.new }
{
    cursor.expect(TokenKind::LeftParenthesis)?;
    let items = series::<T>(cursor)?;
    cursor.followed(items, TokenKind::RightParenthesis)
}

/// Parts one after the other, up to where none begins.
pub fn sequence<T: ParseSome + Drop>(cursor: &mut Cursor<'_>) -> Result<Items<T>, Stop>
    ensures { Reads (read_all T.found_some) cursor.old result cursor.new }
{
    T::recall_word();
    let mut items = Items::new(cursor.alloc());
    loop {
        let place = cursor.place();
        let Some(item) = T::parse_some(cursor)? else {
            cursor.go_back(place);
            return Ok(items);
        };
        items.push(item)?;
    }
}
