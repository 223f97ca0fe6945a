//! Items of REFERENCING.
ghost use Rattle.iv_parse_terms.specs.Reading.{Reads};
ghost use Rattle.iv_parse_data.specs.readers.Items.{read_transition, read_referencing_item_of, read_referencing_item};

use crate::parts::ParseSome;
use iv_expr::Side;
use iv_lex::TokenKind;
use iv_parse_terms::{Cursor, Stop};
use iv_syntax::{Referencing, TransitionName};

// [ ROW | TABLE ]
#[tactic(auto, unfolding(crate::specs::readers::Items::read_transition))]
fn transition(cursor: &mut Cursor<'_>) -> Result<TransitionName, Stop>
    ensures { Reads read_transition cursor.old result cursor.new }
{
    if cursor.accept(TokenKind::Table) {
        return Ok(TransitionName::Table);
    }
    cursor.accept(TokenKind::Row);
    Ok(TransitionName::Row)
}

// An item, after OLD or NEW.
#[tactic(auto, unfolding(crate::specs::readers::Items::read_referencing_item_of))]
fn item_of(cursor: &mut Cursor<'_>, side: Side) -> Result<Option<Referencing>, Stop>
    ensures { Reads (read_referencing_item_of side) cursor.old result cursor.new }
{
    let what = transition(cursor)?;
    cursor.accept(TokenKind::As);
    let name = cursor.name()?;
    Ok(Some(Referencing { side, what, name }))
}

impl ParseSome for Referencing {
    ghost found_some = { read_referencing_item };

    fn recall_word() {}

    #[tactic(auto, unfolding(crate::specs::readers::Items::read_referencing_item))]
    fn parse_some(cursor: &mut Cursor<'_>) -> Result<Option<Referencing>, Stop> {
        if cursor.accept(TokenKind::Old) {
            return item_of(cursor, Side::Old);
        }
        if cursor.accept(TokenKind::New) {
            return item_of(cursor, Side::New);
        }
        Ok(None)
    }
}
