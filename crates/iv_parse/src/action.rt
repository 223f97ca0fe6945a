//! The actions of a trigger.
ghost use Rattle.iv_parse_terms.specs.Reading.{Reads};
ghost use Rattle.iv_parse_data.specs.readers.Series.{read_all};
ghost use Rattle.iv_parse.specs.readers.Triggers.{read_set_action, read_action, read_with_semicolon, read_ended_action, some_actions, read_body};

use iv_lex::TokenKind;
use iv_parse_data::{Parse, delete, insert, update};
use iv_parse_terms::{Cursor, Stop};
use iv_syntax::{Expression, TriggerAction};
use sqlite_items::Items;

// SET of a row variable's column, from the variable on.
#[tactic(auto, unfolding(crate::specs::readers::Triggers::read_set_action))]
fn set_action(cursor: &mut Cursor<'_>) -> Result<TriggerAction, Stop>
    ensures { Reads read_set_action cursor.old result cursor.new }
{
    let variable = cursor.name()?;
    cursor.expect(TokenKind::Period)?;
    let column = cursor.name()?;
    cursor.expect(TokenKind::Equals)?;
    let value = Expression::parse(cursor)?;
    Ok(TriggerAction::Set(variable, column, value))
}

fn action(cursor: &mut Cursor<'_>) -> Result<TriggerAction, Stop>
    ensures { Reads read_action cursor.old result cursor.new }
{
    if cursor.accept(TokenKind::Insert) {
        let insert = insert(cursor)?;
        return Ok(TriggerAction::Insert(insert));
    }
    if cursor.accept(TokenKind::Update) {
        let update = update(cursor)?;
        return Ok(TriggerAction::Update(update));
    }
    if cursor.accept(TokenKind::Delete) {
        let delete = delete(cursor)?;
        return Ok(TriggerAction::Delete(delete));
    }
    if cursor.accept(TokenKind::Signal) {
        let message = cursor.quoted()?;
        return Ok(TriggerAction::Signal(message));
    }
    cursor.expect(TokenKind::Set)?;
    set_action(cursor)
}

#[tactic(auto, unfolding(crate::specs::readers::Triggers::read_with_semicolon))]
fn with_semicolon(cursor: &mut Cursor<'_>) -> Result<TriggerAction, Stop>
    ensures { Reads read_with_semicolon cursor.old result cursor.new }
{
    let action = action(cursor)?;
    cursor.followed(action, TokenKind::Semicolon)
}

// An action with its semicolon; none where END is next.
fn ended_action(cursor: &mut Cursor<'_>) -> Result<Option<TriggerAction>, Stop>
    ensures { Reads read_ended_action cursor.old result cursor.new }
{
    if cursor.is_at(TokenKind::End) {
        return Ok(None);
    }
    let action = with_semicolon(cursor)?;
    Ok(Some(action))
}

// Actions with their semicolons, up to END.
fn actions(cursor: &mut Cursor<'_>) -> Result<Items<TriggerAction>, Stop>
    ensures { Reads (read_all read_ended_action) cursor.old result cursor.new }
{
    let mut items = Items::new(cursor.alloc());
    loop {
        let place = cursor.place();
        let Some(item) = ended_action(cursor)? else {
            cursor.go_back(place);
            return Ok(items);
        };
        items.push(item)?;
    }
}

// One action at least, and END.
fn ended(cursor: &mut Cursor<'_>, found: Items<TriggerAction>) -> Result<Items<TriggerAction>, Stop>
    ensures { Reads (some_actions found) cursor.old result cursor.new }
{
    if found.is_empty() {
        return Err(Stop::NoMatch);
    }
    cursor.followed(found, TokenKind::End)
}

/// The body of a trigger: an action, or BEGIN ATOMIC and actions.
#[tactic(auto, unfolding(crate::specs::readers::Triggers::read_body))]
pub fn body(cursor: &mut Cursor<'_>) -> Result<Items<TriggerAction>, Stop>
    ensures { Reads read_body cursor.old result cursor.new }
{
    if cursor.accept(TokenKind::Begin) {
        cursor.expect(TokenKind::Atomic)?;
        let found = actions(cursor)?;
        return ended(cursor, found);
    }
    let action = action(cursor)?;
    let mut actions = Items::new(cursor.alloc());
    actions.push(action)?;
    Ok(actions)
}
