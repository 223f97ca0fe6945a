//! The catalogue's constraints, by their places.
ghost use Rattle.std.specs.Prelude.{◌≡◌, ◌≢◌, length, slice_get, IfSome, option_copied};
ghost use Rattle.iv_shown.specs.Catalogue.{action_number, columns_of, constraint_column, constraint_name, constraint_shown, match_number, match_of, mode_at, mode_number, nulls_number, nulls_of, on_delete_of, on_update_of, referenced_column, referenced_table_of, rule_number};
ghost use Rattle.iv_shown.specs.Statuses.{found};

use crate::connection::Connection;
use crate::status::{NOTHING, OK};
use iv_catalogue::{Constraint, ForeignKey, Rule};
use iv_syntax::{ConstraintMode, MatchType, NullTreatment, ReferentialAction};

/// A constraint in numbers, as `include/sqlkeep.h` names them.
#[repr(C)]
#[derive(Drop)]
pub struct ShownConstraint {
    pub kind: u32,
    pub table: u32,
    pub columns: u64,
    pub deferrable: u32,
    pub initially: u32,
    pub nulls: u32,
    pub referenced: u32,
    pub matching: u32,
    pub on_delete: u32,
    pub on_update: u32,
}

fn mode_number(mode: ConstraintMode) -> u32
    ensures { result ≡ mode_number mode }
{
    match mode {
        ConstraintMode::Immediate => 0,
        ConstraintMode::Deferred => 1,
    }
}

fn nulls_number(nulls: NullTreatment) -> u32
    ensures { result ≡ nulls_number nulls }
{
    match nulls {
        NullTreatment::Distinct => 0,
        NullTreatment::NotDistinct => 1,
    }
}

fn match_number(matching: MatchType) -> u32
    ensures { result ≡ match_number matching }
{
    match matching {
        MatchType::Simple => 0,
        MatchType::Full => 1,
    }
}

/// The number of an action.
pub fn action_number(action: ReferentialAction) -> u32
    ensures { result ≡ action_number action }
{
    match action {
        ReferentialAction::NoAction => 0,
        ReferentialAction::Restrict => 1,
        ReferentialAction::Cascade => 2,
        ReferentialAction::SetNull => 3,
        ReferentialAction::SetDefault => 4,
    }
}

fn rule_number(rule: &Rule) -> u32
    ensures { result ≡ rule_number rule.now }
{
    match rule {
        Rule::NotNull(_) => 0,
        Rule::Check(_) => 1,
        Rule::Unique(_, _) => 2,
        Rule::PrimaryKey(_) => 3,
        Rule::ForeignKey(_) => 4,
    }
}

// How many columns a constraint is of.
pub(crate) fn column_count(rule: &Rule) -> u64
    ensures { result ≡ length (columns_of rule.now) }
{
    match rule {
        Rule::NotNull(_) => 1,
        Rule::Check(_) => 0,
        Rule::Unique(_, columns) => columns.len() as u64,
        Rule::PrimaryKey(columns) => columns.len() as u64,
        Rule::ForeignKey(key) => key.columns.len() as u64,
    }
}

// The column at this place of those that a constraint is of.
fn column_of(rule: &Rule, place: usize) -> Option<u32>
    ensures { result ≡ slice_get (columns_of rule.now) place }
{
    match rule {
        Rule::NotNull(column) => {
            let columns = [*column];
            columns.as_slice().get(place).copied()
        }
        Rule::Check(_) => None,
        Rule::Unique(_, columns) => columns.as_slice().get(place).copied(),
        Rule::PrimaryKey(columns) => columns.as_slice().get(place).copied(),
        Rule::ForeignKey(key) => key.columns.as_slice().get(place).copied(),
    }
}

fn nulls_of(rule: &Rule) -> u32
    ensures { result ≡ nulls_of rule.now }
{
    match rule {
        Rule::Unique(nulls, _) => nulls_number(*nulls),
        _ => 0,
    }
}

// What of a constraint a foreign key alone has; 0 elsewhere.
#[derive(Drop)]
struct ShownReference {
    table: u32,
    matching: u32,
    on_delete: u32,
    on_update: u32,
}

fn reference_of(rule: &Rule) -> ShownReference
    ensures table { result.table ≡ referenced_table_of rule.now }
    ensures matching { result.matching ≡ match_of rule.now }
    ensures on_delete { result.on_delete ≡ on_delete_of rule.now }
    ensures on_update { result.on_update ≡ on_update_of rule.now }
{
    match rule {
        Rule::ForeignKey(key) => ShownReference {
            table: key.referenced.place(),
            matching: match_number(key.matching),
            on_delete: action_number(key.on_delete),
            on_update: action_number(key.on_update),
        },
        _ => ShownReference {
            table: 0,
            matching: 0,
            on_delete: 0,
            on_update: 0,
        },
    }
}

pub fn constraint_shown(constraint: &Constraint) -> ShownConstraint
    ensures { result ≡ constraint_shown constraint.now }
{
    let rule = &constraint.rule;
    let reference = reference_of(rule);
    ShownConstraint {
        kind: rule_number(rule),
        table: constraint.table.place(),
        columns: column_count(rule),
        deferrable: if constraint.deferrable { 1 } else { 0 },
        initially: mode_number(constraint.initially),
        nulls: nulls_of(rule),
        referenced: reference.table,
        matching: reference.matching,
        on_delete: reference.on_delete,
        on_update: reference.on_update,
    }
}

pub fn constraint_at(connection: &Connection, at: usize) -> Option<&Constraint>
    ensures { option_copied result ≡ slice_get connection.now.session.state.schema.constraints at }
{
    connection.session.catalogue().constraints().get(at)
}

pub fn constraint_name(connection: &Connection, at: usize) -> Option<&[u8]>
    ensures { option_copied result ≡ constraint_name connection.now.session.state.schema at }
{
    match constraint_at(connection, at) {
        Some(constraint) => Some(constraint.name.as_str().as_bytes()),
        None => None,
    }
}

pub fn constraint_column(connection: &Connection, at: usize, place: usize) -> Option<u32>
    ensures { result ≡ constraint_column connection.now.session.state.schema at place }
{
    match constraint_at(connection, at) {
        Some(constraint) => column_of(&constraint.rule, place),
        None => None,
    }
}

pub fn referenced_column(connection: &Connection, at: usize, place: usize) -> Option<u32>
    ensures { result ≡ referenced_column connection.now.session.state.schema at place }
{
    match &constraint_at(connection, at)?.rule {
        Rule::ForeignKey(key) => key.key.as_slice().get(place).copied(),
        _ => None,
    }
}

/// The mode now of the constraint at this place: 0 is IMMEDIATE, 1 DEFERRED.
pub fn mode_at(connection: &Connection, at: usize) -> Option<u32>
    ensures { result ≡ mode_at connection.now.session.state.modes at }
{
    let mode = connection.session.modes().get(at)?;
    Some(mode_number(*mode))
}

/// Writes a place, where there is one.
pub fn write_place(there: Option<u32>, place: &mut u32) -> u32
    ensures place { IfSome there (λ it. place.new ≡ it) }
    ensures others { result ≢ OK → place.new ≡ place.old }
    ensures status { result ≡ found there }
{
    match there {
        Some(it) => {
            *place = it;
            OK
        }
        None => NOTHING,
    }
}
