//! REFERENCES.
ghost use Rattle.iv_parse_data.specs.Tables.{action_words};
ghost use Rattle.iv_write.specs.Tables.{actions_words, match_words, on_words, references_words};
ghost use Rattle.iv_write.specs.Writing.{Writes};

use crate::data::push_column_list;
use crate::writer::Writer;
use iv_lex::TokenKind;
use iv_syntax::{MatchType, References, ReferentialAction};
use std::alloc::{AllocError, Global};

fn push_match(writer: &mut Writer, matching: Option<MatchType>) -> Result<(), AllocError>
    ensures { Writes writer.old writer.new result (match_words matching) }
{
    match matching {
        Some(MatchType::Simple) => writer.words(&[TokenKind::Match, TokenKind::Simple]),
        Some(MatchType::Full) => writer.words(&[TokenKind::Match, TokenKind::Full]),
        None => writer.words(&[]),
    }
}

fn push_action(writer: &mut Writer, action: ReferentialAction) -> Result<(), AllocError>
    ensures { Writes writer.old writer.new result (action_words action) }
{
    match action {
        ReferentialAction::NoAction => writer.words(&[TokenKind::No, TokenKind::Action]),
        ReferentialAction::Restrict => writer.word(TokenKind::Restrict),
        ReferentialAction::Cascade => writer.word(TokenKind::Cascade),
        ReferentialAction::SetNull => writer.words(&[TokenKind::Set, TokenKind::Null]),
        ReferentialAction::SetDefault => writer.words(&[TokenKind::Set, TokenKind::Default]),
    }
}

fn push_on(
    writer: &mut Writer,
    event: TokenKind,
    action: Option<ReferentialAction>,
) -> Result<(), AllocError>
    ensures { Writes writer.old writer.new result (on_words event action) }
{
    match action {
        Some(action) => {
            writer.words(&[TokenKind::On, event])?;
            push_action(writer, action)
        }
        None => writer.words(&[]),
    }
}

fn push_actions(
    writer: &mut Writer,
    on_delete: Option<ReferentialAction>,
    on_update: Option<ReferentialAction>,
) -> Result<(), AllocError>
    ensures { Writes writer.old writer.new result (actions_words on_delete on_update) }
{
    push_on(writer, TokenKind::Delete, on_delete)?;
    push_on(writer, TokenKind::Update, on_update)
}

/// Writes REFERENCES with all that follows it.
pub fn push_references(
    alloc: Global,
    writer: &mut Writer,
    references: &References,
) -> Result<(), AllocError>
    ensures { Writes writer.old writer.new result (references_words references.now) }
{
    writer.word(TokenKind::References)?;
    writer.name(&references.table)?;
    push_column_list(alloc, writer, &references.columns)?;
    push_match(writer, references.matching)?;
    push_actions(writer, references.on_delete, references.on_update)
}
