//! CREATE TRIGGER.
ghost use Rattle.std.specs.Prelude.{[], ◌∷◌, ◌++◌};
ghost use Rattle.iv_lex.specs.declared.kind.TokenKind.TheVariants as kind;
ghost use Rattle.iv_lex.specs.Words.{name, plain};
ghost use Rattle.iv_parse_terms.specs.Expressions.{spelling};
ghost use Rattle.iv_parse.specs.Triggers.{side_kind, time_kind};
ghost use Rattle.iv_write.specs.Parts.{sequence_words};
ghost use Rattle.iv_write.specs.Triggers.{action_words, body_words, columns_words, ended_words, event_words, granularity_words, referencing_words, transition_words, trigger_words, when_words};
ghost use Rattle.iv_write.specs.Writing.{Writes};

use crate::condition::push_condition;
use crate::data::{push_delete, push_insert, push_update};
use crate::expression::push_expression;
use crate::parts::{Written, push_sequence, push_series};
use crate::writer::Writer;
use iv_expr::Side;
use iv_lex::TokenKind;
use iv_syntax::{
    ActionTime, Condition, Expression, Granularity, Name, Referencing, TransitionName,
    TriggerAction, TriggerDefinition, TriggerEvent,
};
use sqlite_items::Items;
use std::alloc::{AllocError, Global};

fn push_side(writer: &mut Writer, side: Side) -> Result<(), AllocError>
    ensures { Writes writer.old writer.new result (plain (side_kind side) ∷ []) }
{
    match side {
        Side::Old => writer.word(TokenKind::Old),
        Side::New => writer.word(TokenKind::New),
    }
}

fn push_transition(writer: &mut Writer, what: TransitionName) -> Result<(), AllocError>
    ensures { Writes writer.old writer.new result (transition_words what) }
{
    match what {
        TransitionName::Row => writer.words(&[]),
        TransitionName::Table => writer.word(TokenKind::Table),
    }
}

impl Written for Referencing {
    ghost use Rattle.iv_write.specs.Triggers.{item_words};

    ghost words = { item_words };

    fn write(&self, _alloc: Global, writer: &mut Writer) -> Result<(), AllocError> {
        push_side(writer, self.side)?;
        push_transition(writer, self.what)?;
        writer.word(TokenKind::As)?;
        writer.name(&self.name)
    }
}

fn push_referencing(
    alloc: Global,
    writer: &mut Writer,
    items: &[Referencing],
) -> Result<(), AllocError>
    ensures { Writes writer.old writer.new result (referencing_words items.now) }
{
    if items.is_empty() {
        return writer.words(&[]);
    }
    writer.word(TokenKind::Referencing)?;
    push_sequence(alloc, writer, items)
}

fn push_granularity(writer: &mut Writer, granularity: Granularity) -> Result<(), AllocError>
    ensures { Writes writer.old writer.new result (granularity_words granularity) }
{
    match granularity {
        Granularity::Row => writer.words(&[TokenKind::For, TokenKind::Each, TokenKind::Row]),
        Granularity::Statement => writer.words(&[]),
    }
}

fn push_when(alloc: Global, writer: &mut Writer, when: &Option<Condition>) -> Result<(), AllocError>
    ensures { Writes writer.old writer.new result (when_words when.now) }
{
    match when {
        Some(condition) => {
            writer.words(&[TokenKind::When, TokenKind::LeftParenthesis])?;
            push_condition(alloc, writer, condition)?;
            writer.word(TokenKind::RightParenthesis)
        }
        None => writer.words(&[]),
    }
}

fn push_set(
    alloc: Global,
    writer: &mut Writer,
    variable: &Name,
    column: &Name,
    value: &Expression,
) -> Result<(), AllocError>
    ensures { Writes writer.old writer.new result
        (plain kind.Set ∷ name variable.now ∷ plain kind.Period ∷ name column.now ∷ plain kind.Equals ∷ spelling value.now) }
{
    writer.word(TokenKind::Set)?;
    writer.name(variable)?;
    writer.word(TokenKind::Period)?;
    push_assigned(alloc, writer, column, value)
}

fn push_assigned(
    alloc: Global,
    writer: &mut Writer,
    column: &Name,
    value: &Expression,
) -> Result<(), AllocError>
    ensures { Writes writer.old writer.new result (name column.now ∷ plain kind.Equals ∷ spelling value.now) }
{
    writer.name(column)?;
    writer.word(TokenKind::Equals)?;
    push_expression(alloc, writer, value)
}

fn push_action(alloc: Global, writer: &mut Writer, action: &TriggerAction) -> Result<(), AllocError>
    ensures { Writes writer.old writer.new result (action_words action.now) }
{
    match action {
        TriggerAction::Insert(insert) => push_insert(alloc, writer, insert),
        TriggerAction::Update(update) => push_update(alloc, writer, update),
        TriggerAction::Delete(delete) => push_delete(alloc, writer, delete),
        TriggerAction::Signal(text) => {
            writer.word(TokenKind::Signal)?;
            writer.quoted(alloc, text.as_str())
        }
        TriggerAction::Set(variable, column, value) => {
            push_set(alloc, writer, variable, column, value)
        }
    }
}

// A statement of a block, with its semicolon.
impl Written for TriggerAction {
    ghost use Rattle.iv_write.specs.Triggers.{ended_words};

    ghost words = { ended_words };

    fn write(&self, alloc: Global, writer: &mut Writer) -> Result<(), AllocError> {
        push_action(alloc, writer, self)?;
        writer.word(TokenKind::Semicolon)
    }
}

fn push_block(alloc: Global, writer: &mut Writer, body: &[TriggerAction]) -> Result<(), AllocError>
    ensures { Writes writer.old writer.new result
        (plain kind.Begin ∷ plain kind.Atomic ∷ (sequence_words ended_words body.now ++ plain kind.End ∷ [])) }
{
    writer.words(&[TokenKind::Begin, TokenKind::Atomic])?;
    push_sequence(alloc, writer, body)?;
    writer.word(TokenKind::End)
}

// One statement as it is, and any other number of them as a block.
fn push_body(alloc: Global, writer: &mut Writer, body: &[TriggerAction]) -> Result<(), AllocError>
    ensures { Writes writer.old writer.new result (body_words body.now) }
{
    match body {
        [action] => push_action(alloc, writer, action),
        _ => push_block(alloc, writer, body),
    }
}

fn push_columns(alloc: Global, writer: &mut Writer, columns: &[Name]) -> Result<(), AllocError>
    ensures { Writes writer.old writer.new result (columns_words columns.now) }
{
    if columns.is_empty() {
        return writer.words(&[]);
    }
    writer.word(TokenKind::Of)?;
    push_series(alloc, writer, columns)
}

fn push_event(
    alloc: Global,
    writer: &mut Writer,
    event: TriggerEvent,
    columns: &Items<Name>,
) -> Result<(), AllocError>
    ensures { Writes writer.old writer.new result (event_words event columns.now) }
{
    match event {
        TriggerEvent::Insert => writer.word(TokenKind::Insert),
        TriggerEvent::Update => {
            writer.word(TokenKind::Update)?;
            push_columns(alloc, writer, columns.as_slice())
        }
        TriggerEvent::Delete => writer.word(TokenKind::Delete),
    }
}

fn push_time(writer: &mut Writer, time: ActionTime) -> Result<(), AllocError>
    ensures { Writes writer.old writer.new result (plain (time_kind time) ∷ []) }
{
    match time {
        ActionTime::Before => writer.word(TokenKind::Before),
        ActionTime::After => writer.word(TokenKind::After),
    }
}

// What stands before REFERENCING.
fn push_occasion(
    alloc: Global,
    writer: &mut Writer,
    trigger: &TriggerDefinition,
) -> Result<(), AllocError>
    ensures { Writes writer.old writer.new result
        (plain (time_kind trigger.now.time) ∷ (event_words trigger.now.event trigger.now.columns ++ plain kind.On ∷ name trigger.now.table ∷ [])) }
{
    push_time(writer, trigger.time)?;
    push_event(alloc, writer, trigger.event, &trigger.columns)?;
    writer.word(TokenKind::On)?;
    writer.name(&trigger.table)
}

// REFERENCING and what follows it.
fn push_rest(
    alloc: Global,
    writer: &mut Writer,
    trigger: &TriggerDefinition,
) -> Result<(), AllocError>
    ensures { Writes writer.old writer.new result
        (referencing_words trigger.now.referencing ++ (granularity_words trigger.now.granularity ++ (when_words trigger.now.when ++ body_words trigger.now.body))) }
{
    push_referencing(alloc, writer, trigger.referencing.as_slice())?;
    push_granularity(writer, trigger.granularity)?;
    push_when(alloc, writer, &trigger.when)?;
    push_body(alloc, writer, trigger.body.as_slice())
}

/// Writes a CREATE TRIGGER.
pub fn push_trigger(
    alloc: Global,
    writer: &mut Writer,
    trigger: &TriggerDefinition,
) -> Result<(), AllocError>
    ensures { Writes writer.old writer.new result (trigger_words trigger.now) }
{
    writer.words(&[TokenKind::Create, TokenKind::Trigger])?;
    writer.name(&trigger.name)?;
    push_occasion(alloc, writer, trigger)?;
    push_rest(alloc, writer, trigger)
}
