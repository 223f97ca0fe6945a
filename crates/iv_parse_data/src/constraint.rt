//! Constraints of columns and tables.
ghost use Rattle.std.specs.Prelude.{◌≡◌, true};
ghost use Rattle.iv_parse_terms.specs.After.{is_plain};
ghost use Rattle.iv_parse_terms.specs.Reading.{Reads};
ghost use Rattle.iv_parse_data.specs.readers.Tables.{read_match_type, read_referential_action, read_on, read_actions, read_references, read_null_treatment, read_column_rule, column_constraint_of, read_column_constraint, read_foreign_key, read_table_rule, read_table_constraint};

use crate::characteristics::time;
use crate::inserting::column_list;
use crate::parts::{Parse, ParseSome};
use crate::repeated::{enclosed, enclosed_series, optional};
use iv_lex::TokenKind;
use iv_parse_terms::{Cursor, Stop};
use iv_syntax::{
    ColumnConstraint, ColumnRule, Condition, MatchType, Name, NullTreatment, References,
    ReferentialAction, TableConstraint, TableRule,
};

impl Parse for MatchType {
    ghost found = { read_match_type };

    #[tactic(auto, unfolding(crate::specs::readers::Tables::read_match_type))]
    fn parse(cursor: &mut Cursor<'_>) -> Result<MatchType, Stop> {
        if cursor.accept(TokenKind::Simple) {
            return Ok(MatchType::Simple);
        }
        cursor.expect(TokenKind::Full)?;
        Ok(MatchType::Full)
    }
}

#[tactic(auto, unfolding(crate::specs::readers::Tables::read_referential_action))]
fn action(cursor: &mut Cursor<'_>) -> Result<ReferentialAction, Stop>
    ensures { Reads read_referential_action cursor.old result cursor.new }
{
    if cursor.accept(TokenKind::Cascade) {
        return Ok(ReferentialAction::Cascade);
    }
    if cursor.accept(TokenKind::Set) {
        if cursor.accept(TokenKind::Null) {
            return Ok(ReferentialAction::SetNull);
        }
        cursor.expect(TokenKind::Default)?;
        return Ok(ReferentialAction::SetDefault);
    }
    if cursor.accept(TokenKind::No) {
        cursor.expect(TokenKind::Action)?;
        return Ok(ReferentialAction::NoAction);
    }
    cursor.expect(TokenKind::Restrict)?;
    Ok(ReferentialAction::Restrict)
}

// ON, the event and an action, where they are given.
#[tactic(auto, unfolding(crate::specs::readers::Tables::read_on))]
fn on(cursor: &mut Cursor<'_>, event: TokenKind) -> Result<Option<ReferentialAction>, Stop>
    requires { is_plain event ≡ true }
    ensures { Reads (read_on event) cursor.old result cursor.new }
{
    if cursor.accept_both(TokenKind::On, event) {
        let found = action(cursor)?;
        return Ok(Some(found));
    }
    Ok(None)
}

// What happens on DELETE and on UPDATE, in either order.
#[tactic(auto, unfolding(crate::specs::readers::Tables::read_actions))]
fn actions(
    cursor: &mut Cursor<'_>,
) -> Result<(Option<ReferentialAction>, Option<ReferentialAction>), Stop>
    ensures { Reads read_actions cursor.old result cursor.new }
{
    let before = on(cursor, TokenKind::Delete)?;
    let update = on(cursor, TokenKind::Update)?;
    if let Some(delete) = before {
        return Ok((Some(delete), update));
    }
    let delete = on(cursor, TokenKind::Delete)?;
    Ok((delete, update))
}

// REFERENCES, from the table on.
#[tactic(auto, unfolding(crate::specs::readers::Tables::read_references))]
fn references(cursor: &mut Cursor<'_>) -> Result<References, Stop>
    ensures { Reads read_references cursor.old result cursor.new }
{
    let table = cursor.name()?;
    let columns = column_list(cursor)?;
    let matching = optional::<MatchType>(cursor, TokenKind::Match)?;
    let (on_delete, on_update) = actions(cursor)?;
    Ok(References {
        table,
        columns,
        matching,
        on_delete,
        on_update,
    })
}

// NULLS NOT DISTINCT, where it is written.
#[tactic(auto, unfolding(crate::specs::readers::Tables::read_null_treatment))]
fn null_treatment(cursor: &mut Cursor<'_>) -> Result<NullTreatment, Stop>
    ensures { Reads read_null_treatment cursor.old result cursor.new }
{
    if cursor.accept(TokenKind::Nulls) {
        cursor.expect(TokenKind::Not)?;
        cursor.expect(TokenKind::Distinct)?;
        return Ok(NullTreatment::NotDistinct);
    }
    Ok(NullTreatment::Distinct)
}

// The rule of a column's constraint, where one begins.
fn column_rule(cursor: &mut Cursor<'_>) -> Result<Option<ColumnRule>, Stop>
    ensures { Reads read_column_rule cursor.old result cursor.new }
{
    if cursor.accept(TokenKind::References) {
        let references = references(cursor)?;
        return Ok(Some(ColumnRule::References(references)));
    }
    if cursor.accept(TokenKind::Check) {
        let condition = enclosed::<Condition>(cursor)?;
        return Ok(Some(ColumnRule::Check(condition)));
    }
    if cursor.accept(TokenKind::Not) {
        cursor.expect(TokenKind::Null)?;
        return Ok(Some(ColumnRule::NotNull));
    }
    if cursor.accept(TokenKind::Unique) {
        let nulls = null_treatment(cursor)?;
        return Ok(Some(ColumnRule::Unique(nulls)));
    }
    if cursor.accept(TokenKind::Primary) {
        cursor.expect(TokenKind::Key)?;
        return Ok(Some(ColumnRule::PrimaryKey));
    }
    Ok(None)
}

fn column_constraint_of(
    cursor: &mut Cursor<'_>,
    name: Option<Name>,
    rule: Option<ColumnRule>,
) -> Result<Option<ColumnConstraint>, Stop>
    ensures { Reads (column_constraint_of name rule) cursor.old result cursor.new }
{
    let Some(rule) = rule else {
        return match name {
            Some(_) => Err(Stop::NoMatch),
            None => Ok(None),
        };
    };
    match time(cursor) {
        Ok(time) => Ok(Some(ColumnConstraint { name, rule, time })),
        Err(stop) => {
            drop(rule);
            Err(stop)
        }
    }
}

impl ParseSome for ColumnConstraint {
    ghost found_some = { read_column_constraint };

    fn recall_word() {}

    #[tactic(auto, unfolding(crate::specs::readers::Tables::read_column_constraint))]
    fn parse_some(cursor: &mut Cursor<'_>) -> Result<Option<ColumnConstraint>, Stop> {
        let name = optional::<Name>(cursor, TokenKind::Constraint)?;
        let rule = column_rule(cursor)?;
        column_constraint_of(cursor, name, rule)
    }
}

#[tactic(auto, unfolding(crate::specs::readers::Tables::read_foreign_key))]
fn foreign_key(cursor: &mut Cursor<'_>) -> Result<TableRule, Stop>
    ensures { Reads read_foreign_key cursor.old result cursor.new }
{
    cursor.expect(TokenKind::Key)?;
    let names = enclosed_series::<Name>(cursor)?;
    cursor.expect(TokenKind::References)?;
    let references = references(cursor)?;
    Ok(TableRule::ForeignKey(names, references))
}

#[tactic(auto, unfolding(crate::specs::readers::Tables::read_table_rule))]
fn table_rule(cursor: &mut Cursor<'_>) -> Result<TableRule, Stop>
    ensures { Reads read_table_rule cursor.old result cursor.new }
{
    if cursor.accept(TokenKind::Primary) {
        cursor.expect(TokenKind::Key)?;
        let names = enclosed_series::<Name>(cursor)?;
        return Ok(TableRule::PrimaryKey(names));
    }
    if cursor.accept(TokenKind::Foreign) {
        return foreign_key(cursor);
    }
    if cursor.accept(TokenKind::Unique) {
        let nulls = null_treatment(cursor)?;
        let names = enclosed_series::<Name>(cursor)?;
        return Ok(TableRule::Unique(nulls, names));
    }
    cursor.expect(TokenKind::Check)?;
    let condition = enclosed::<Condition>(cursor)?;
    Ok(TableRule::Check(condition))
}

/// A constraint of a table.
#[tactic(auto, unfolding(crate::specs::readers::Tables::read_table_constraint))]
pub fn table_constraint(cursor: &mut Cursor<'_>) -> Result<TableConstraint, Stop>
    ensures { Reads read_table_constraint cursor.old result cursor.new }
{
    let name = optional::<Name>(cursor, TokenKind::Constraint)?;
    let rule = table_rule(cursor)?;
    match time(cursor) {
        Ok(time) => Ok(TableConstraint { name, rule, time }),
        Err(stop) => {
            drop(rule);
            Err(stop)
        }
    }
}
