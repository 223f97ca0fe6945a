//! CREATE TRIGGER.
ghost use Rattle.iv_parse_terms.specs.Reading.{MakesAs, Reads};
ghost use Rattle.iv_parse.specs.readers.Triggers.{some_items, read_referencing, read_granularity, read_when, read_action_time, read_update_columns, read_event, read_occasion, read_middle, read_trigger};

use crate::action::body;
use iv_lex::TokenKind;
use iv_parse_data::{enclosed, sequence, series};
use iv_parse_terms::{Cursor, Stop};
use iv_syntax::{
    ActionTime, Condition, Granularity, Name, Referencing, TriggerAction, TriggerDefinition,
    TriggerEvent,
};
use sqlite_items::Items;

fn some_items(items: Items<Referencing>) -> Result<Items<Referencing>, Stop>
    ensures { MakesAs (λ rs. rs) (some_items items) result }
{
    if items.is_empty() {
        return Err(Stop::NoMatch);
    }
    Ok(items)
}

#[tactic(auto, unfolding(crate::specs::readers::Triggers::read_referencing))]
fn referencing(cursor: &mut Cursor<'_>) -> Result<Items<Referencing>, Stop>
    ensures { Reads read_referencing cursor.old result cursor.new }
{
    if cursor.accept(TokenKind::Referencing) {
        let items = sequence::<Referencing>(cursor)?;
        return some_items(items);
    }
    Ok(Items::new(cursor.alloc()))
}

// FOR EACH and a granularity; STATEMENT where they are left out.
#[tactic(auto, unfolding(crate::specs::readers::Triggers::read_granularity))]
fn granularity(cursor: &mut Cursor<'_>) -> Result<Granularity, Stop>
    ensures { Reads read_granularity cursor.old result cursor.new }
{
    if cursor.accept(TokenKind::For) {
        cursor.expect(TokenKind::Each)?;
        if cursor.accept(TokenKind::Row) {
            return Ok(Granularity::Row);
        }
        cursor.expect(TokenKind::Statement)?;
        return Ok(Granularity::Statement);
    }
    Ok(Granularity::Statement)
}

#[tactic(auto, unfolding(crate::specs::readers::Triggers::read_when))]
fn when(cursor: &mut Cursor<'_>) -> Result<Option<Condition>, Stop>
    ensures { Reads read_when cursor.old result cursor.new }
{
    if cursor.accept(TokenKind::When) {
        let condition = enclosed::<Condition>(cursor)?;
        return Ok(Some(condition));
    }
    Ok(None)
}

#[tactic(auto, unfolding(crate::specs::readers::Triggers::read_action_time))]
fn action_time(cursor: &mut Cursor<'_>) -> Result<ActionTime, Stop>
    ensures { Reads read_action_time cursor.old result cursor.new }
{
    if cursor.accept(TokenKind::Before) {
        return Ok(ActionTime::Before);
    }
    cursor.expect(TokenKind::After)?;
    Ok(ActionTime::After)
}

// OF and the columns, where they are written.
#[tactic(auto, unfolding(crate::specs::readers::Triggers::read_update_columns))]
fn update_columns(cursor: &mut Cursor<'_>) -> Result<Items<Name>, Stop>
    ensures { Reads read_update_columns cursor.old result cursor.new }
{
    if cursor.accept(TokenKind::Of) {
        return series::<Name>(cursor);
    }
    Ok(Items::new(cursor.alloc()))
}

// The event, and the columns of UPDATE OF.
fn event(cursor: &mut Cursor<'_>) -> Result<(TriggerEvent, Items<Name>), Stop>
    ensures { Reads read_event cursor.old result cursor.new }
{
    if cursor.accept(TokenKind::Insert) {
        return Ok((TriggerEvent::Insert, Items::new(cursor.alloc())));
    }
    if cursor.accept(TokenKind::Update) {
        let columns = update_columns(cursor)?;
        return Ok((TriggerEvent::Update, columns));
    }
    cursor.expect(TokenKind::Delete)?;
    Ok((TriggerEvent::Delete, Items::new(cursor.alloc())))
}

// The time, the event with its columns, and ON.
#[tactic(auto, unfolding(crate::specs::readers::Triggers::read_occasion))]
fn occasion(cursor: &mut Cursor<'_>) -> Result<(ActionTime, TriggerEvent, Items<Name>), Stop>
    ensures { Reads read_occasion cursor.old result cursor.new }
{
    let time = action_time(cursor)?;
    let (event, columns) = event(cursor)?;
    cursor.expect(TokenKind::On)?;
    Ok((time, event, columns))
}

// What is between the table and the body.
#[tactic(auto, unfolding(crate::specs::readers::Triggers::read_middle))]
fn middle(
    cursor: &mut Cursor<'_>,
) -> Result<(Items<Referencing>, Granularity, Option<Condition>), Stop>
    ensures { Reads read_middle cursor.old result cursor.new }
{
    let referencing = referencing(cursor)?;
    let granularity = granularity(cursor)?;
    let when = when(cursor)?;
    Ok((referencing, granularity, when))
}

/// CREATE TRIGGER, from the name on.
#[tactic(auto, unfolding(crate::specs::readers::Triggers::read_trigger))]
pub fn create_trigger(cursor: &mut Cursor<'_>) -> Result<TriggerDefinition, Stop>
    ensures { Reads read_trigger cursor.old result cursor.new }
{
    let name = cursor.name()?;
    let (time, event, columns) = occasion(cursor)?;
    let table = cursor.name()?;
    let (referencing, granularity, when) = middle(cursor)?;
    let body = body(cursor)?;
    Ok(TriggerDefinition {
        name,
        time,
        event,
        columns,
        table,
        referencing,
        granularity,
        when,
        body,
    })
}
