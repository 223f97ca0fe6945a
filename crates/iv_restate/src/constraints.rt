//! Constraints of the catalogue as they are written.
ghost use Rattle.std.specs.Prelude.{◌≡◌, Some, IfOk, map};
ghost use Rattle.iv_resolution.specs.Scopes.{named_columns};
ghost use Rattle.iv_resolution.specs.Constraints.{name_at};
ghost use Rattle.iv_catalogue.specs.declared.constraint.Rule.TheVariants as rule;
ghost use Rattle.iv_restate.specs.Constraints.{column_constraint_of, column_rule_of, columns_at, names_at, references_of, table_constraint_of};
ghost use Rattle.iv_restate.specs.Constraints.{table_name_at, table_rule_of, time_of, written_action, written_match, written_name};

use crate::check::check_condition;
use crate::scope::name_of;
use iv_catalogue::{Column, Constraint, ForeignKey, Rule, Table};
use iv_expr::TableId;
use iv_syntax::{
    ColumnConstraint, ColumnRule, ConstraintMode, ConstraintTime, LONGEST_NAME, MatchType, Name,
    References, ReferentialAction, TableConstraint, TableRule,
};
use sqlite_items::Items;
use std::alloc::{AllocError, Global};

fn time_of(deferrable: bool, initially: ConstraintMode) -> ConstraintTime
    ensures { result ≡ time_of deferrable initially }
{
    match initially {
        ConstraintMode::Deferred => ConstraintTime {
            deferrable: Some(deferrable),
            initially: Some(ConstraintMode::Deferred),
        },
        ConstraintMode::Immediate => ConstraintTime {
            deferrable: if deferrable { Some(true) } else { None },
            initially: None,
        },
    }
}

// The name of the column at this place.
fn name_at(alloc: Global, columns: &[Column], place: u32) -> Result<Name, AllocError>
    ensures { IfOk result (λ name. name ≡ name_at (named_columns columns.now) place) }
{
    match columns.get(place as usize) {
        Some(column) => column.name.clone(),
        None => name_of(alloc, ""),
    }
}

/// The names of the columns at these places.
pub fn names_at(
    alloc: Global,
    columns: &[Column],
    places: &[u32],
) -> Result<Items<Name>, AllocError>
    ensures { IfOk result (λ names. names ≡ names_at (named_columns columns.now) places.now) }
{
    let mut names = Items::new(alloc);
    for place in places {
        names.push(name_at(alloc, columns, *place)?)?;
    }
    Ok(names)
}

/// The columns of a table.
pub fn columns_at(tables: &[Table], id: TableId) -> &[Column]
    ensures { named_columns result.now ≡ columns_at tables.now id }
{
    match tables.get(id.place() as usize) {
        Some(table) => table.columns.as_slice(),
        None => &[],
    }
}

/// The name of a table.
pub fn table_name_at(alloc: Global, tables: &[Table], id: TableId) -> Result<Name, AllocError>
    ensures { IfOk result (λ name. name ≡ table_name_at tables.now id) }
{
    match tables.get(id.place() as usize) {
        Some(table) => table.name.clone(),
        None => name_of(alloc, ""),
    }
}

fn written_match(matching: MatchType) -> Option<MatchType>
    ensures { result ≡ written_match matching }
{
    match matching {
        MatchType::Simple => None,
        MatchType::Full => Some(MatchType::Full),
    }
}

fn written_action(action: ReferentialAction) -> Option<ReferentialAction>
    ensures { result ≡ written_action action }
{
    match action {
        ReferentialAction::NoAction => None,
        _ => Some(action),
    }
}

fn references_of(
    alloc: Global,
    tables: &[Table],
    key: &ForeignKey,
) -> Result<References, AllocError>
    ensures { IfOk result (λ r. r ≡ references_of tables.now key.now) }
{
    let columns = names_at(
        alloc,
        columns_at(tables, key.referenced),
        key.key.as_slice(),
    )?;
    Ok(References {
        table: table_name_at(alloc, tables, key.referenced)?,
        columns: Some(columns),
        matching: written_match(key.matching),
        on_delete: written_action(key.on_delete),
        on_update: written_action(key.on_update),
    })
}

fn foreign_key(
    alloc: Global,
    tables: &[Table],
    columns: &[Column],
    key: &ForeignKey,
) -> Result<TableRule, AllocError>
    ensures { IfOk result (λ r.
        Some r ≡ table_rule_of tables.now (named_columns columns.now) (rule.ForeignKey key.now)) }
{
    let names = names_at(alloc, columns, key.columns.as_slice())?;
    Ok(TableRule::ForeignKey(names, references_of(alloc, tables, key)?))
}

fn table_rule_of(
    alloc: Global,
    tables: &[Table],
    columns: &[Column],
    rule: &Rule,
) -> Result<Option<TableRule>, AllocError>
    ensures { IfOk result (λ r. r ≡ table_rule_of tables.now (named_columns columns.now) rule.now) }
{
    match rule {
        Rule::NotNull(_) => Ok(None),
        Rule::Check(condition) => Ok(Some(TableRule::Check(check_condition(
            alloc, columns, condition,
        )?))),
        Rule::Unique(nulls, places) => {
            let names = names_at(alloc, columns, places.as_slice())?;
            Ok(Some(TableRule::Unique(*nulls, names)))
        }
        Rule::PrimaryKey(places) => {
            let names = names_at(alloc, columns, places.as_slice())?;
            Ok(Some(TableRule::PrimaryKey(names)))
        }
        Rule::ForeignKey(key) => Ok(Some(foreign_key(alloc, tables, columns, key)?)),
    }
}

fn column_rule_of(
    alloc: Global,
    tables: &[Table],
    columns: &[Column],
    rule: &Rule,
) -> Result<ColumnRule, AllocError>
    ensures { IfOk result (λ r. r ≡ column_rule_of tables.now (named_columns columns.now) rule.now) }
{
    match rule {
        Rule::NotNull(_) => Ok(ColumnRule::NotNull),
        Rule::Check(condition) => Ok(ColumnRule::Check(check_condition(
            alloc, columns, condition,
        )?)),
        Rule::Unique(nulls, _) => Ok(ColumnRule::Unique(*nulls)),
        Rule::PrimaryKey(_) => Ok(ColumnRule::PrimaryKey),
        Rule::ForeignKey(key) => Ok(ColumnRule::References(references_of(alloc, tables, key)?)),
    }
}

// The name of a constraint; none if it is longer than a name of the language, as a generated one may be.
fn written_name(name: &Name) -> Result<Option<Name>, AllocError>
    ensures { IfOk result (λ written. written ≡ written_name name.now) }
{
    if name.as_str().len() > LONGEST_NAME {
        return Ok(None);
    }
    Ok(Some(name.clone()?))
}

/// A constraint as one of a table, with its name, as in ALTER TABLE; none of a NOT NULL, which has no such form.
pub fn table_constraint_of(
    alloc: Global,
    tables: &[Table],
    constraint: &Constraint,
) -> Result<Option<TableConstraint>, AllocError>
    ensures { IfOk result (λ k. k ≡ table_constraint_of tables.now constraint.now) }
{
    let columns = columns_at(tables, constraint.table);
    let name = written_name(&constraint.name)?;
    let Some(rule) = table_rule_of(alloc, tables, columns, &constraint.rule)? else {
        return Ok(None);
    };
    Ok(Some(TableConstraint {
        name,
        rule,
        time: time_of(constraint.deferrable, constraint.initially),
    }))
}

/// A constraint as one of a column, with its name.
pub fn column_constraint_of(
    alloc: Global,
    tables: &[Table],
    constraint: &Constraint,
) -> Result<ColumnConstraint, AllocError>
    ensures { IfOk result (λ k. k ≡ column_constraint_of tables.now constraint.now) }
{
    let columns = columns_at(tables, constraint.table);
    let name = written_name(&constraint.name)?;
    Ok(ColumnConstraint {
        name,
        rule: column_rule_of(alloc, tables, columns, &constraint.rule)?,
        time: time_of(constraint.deferrable, constraint.initially),
    })
}
