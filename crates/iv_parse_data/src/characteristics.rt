//! The characteristics of constraints: when they are checked.
ghost use Rattle.std.specs.Prelude.{Option};
ghost use Rattle.iv_parse_terms.specs.Reading.{Reads};
ghost use Rattle.iv_parse_data.specs.readers.Tables.{read_deferrable, read_mode, read_time};

use crate::parts::Parse;
use crate::repeated::optional;
use iv_lex::TokenKind;
use iv_parse_terms::{Cursor, Stop};
use iv_syntax::{ConstraintMode, ConstraintTime};

// [ NOT ] DEFERRABLE, where it is given.
#[tactic(auto, unfolding(crate::specs::readers::Tables::read_deferrable))]
fn deferrable(cursor: &mut Cursor<'_>) -> Result<Option<bool>, Stop>
    ensures { Reads read_deferrable cursor.old result cursor.new }
{
    if cursor.accept(TokenKind::Deferrable) {
        return Ok(Some(true));
    }
    if cursor.accept_both(TokenKind::Not, TokenKind::Deferrable) {
        return Ok(Some(false));
    }
    Ok(None)
}

impl Parse for ConstraintMode {
    ghost found = { read_mode };

    #[tactic(auto, unfolding(crate::specs::readers::Tables::read_mode))]
    fn parse(cursor: &mut Cursor<'_>) -> Result<ConstraintMode, Stop> {
        if cursor.accept(TokenKind::Deferred) {
            return Ok(ConstraintMode::Deferred);
        }
        cursor.expect(TokenKind::Immediate)?;
        Ok(ConstraintMode::Immediate)
    }
}

/// The constraint characteristics, as far as they are given.
#[tactic(auto, unfolding(crate::specs::readers::Tables::read_time))]
pub fn time(cursor: &mut Cursor<'_>) -> Result<ConstraintTime, Stop>
    ensures { Reads read_time cursor.old result cursor.new }
{
    let before = deferrable(cursor)?;
    let initially = optional::<ConstraintMode>(cursor, TokenKind::Initially)?;
    if let Some(given) = before {
        return Ok(ConstraintTime {
            deferrable: Some(given),
            initially,
        });
    }
    let deferrable = deferrable(cursor)?;
    Ok(ConstraintTime {
        deferrable,
        initially,
    })
}
