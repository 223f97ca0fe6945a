//! The statements of a trigger's body.
ghost use Rattle.std.specs.Prelude.{◌≡◌};

use crate::condition::condition_of;
use crate::constraints::{columns_at, names_at, table_name_at};
use crate::expression::expression_of;
use crate::naming::{Naming, alias_of, source_columns, source_name};
use crate::scope::{Scope, name_of};
use iv_catalogue::{
    BodyStatement, Column, DataStatement, InsertColumns, InsertRows, Outputs, Setting,
};
use iv_expr::{Cond, Expr, Range, TableId};
use iv_syntax::{
    Assignment, Condition, Delete, Expression, Insert, InsertSource, Name, RangeName, SelectList,
    TriggerAction, Update, ValueOrDefault,
};
use iv_value::Value;
use sqlite_items::Items;
use std::alloc::{AllocError, Global};

/// WHERE or WHEN with a condition; nothing if it is true of every row.
pub fn filter_of<'a>(
    alloc: Global,
    naming: &'a Naming<'a>,
    scope: &'a Scope<'a>,
    filter: &Cond,
) -> Result<Option<Condition>, AllocError> {
    match filter {
        Cond::Always => Ok(None),
        _ => Ok(Some(condition_of(alloc, naming, scope, filter)?)),
    }
}

// A number below 0 is no literal, so it is the default of its column.
fn is_default(value: &Expr) -> bool {
    match value {
        Expr::Literal(Value::Int(number)) => *number < 0,
        _ => false,
    }
}

fn value_of<'a>(
    alloc: Global,
    naming: &'a Naming<'a>,
    scope: &'a Scope<'a>,
    value: &Expr,
) -> Result<ValueOrDefault, AllocError> {
    if is_default(value) {
        return Ok(ValueOrDefault::Default);
    }
    Ok(ValueOrDefault::Value(expression_of(alloc, naming, scope, value)?))
}

fn tuple_of<'a>(
    alloc: Global,
    naming: &'a Naming<'a>,
    scope: &'a Scope<'a>,
    values: &[Expr],
) -> Result<Items<ValueOrDefault>, AllocError> {
    let mut tuple = Items::new(alloc);
    for value in values {
        tuple.push(value_of(alloc, naming, scope, value)?)?;
    }
    Ok(tuple)
}

fn tuples_of<'a>(
    alloc: Global,
    naming: &'a Naming<'a>,
    scope: &'a Scope<'a>,
    tuples: &[Items<Expr>],
) -> Result<InsertSource, AllocError> {
    let mut written = Items::new(alloc);
    for tuple in tuples {
        written.push(tuple_of(alloc, naming, scope, tuple.as_slice())?)?;
    }
    Ok(InsertSource::Values(written))
}

fn expressions_of<'a>(
    alloc: Global,
    naming: &'a Naming<'a>,
    scope: &'a Scope<'a>,
    values: &[Expr],
) -> Result<Items<Expression>, AllocError> {
    let mut written = Items::new(alloc);
    for value in values {
        written.push(expression_of(alloc, naming, scope, value)?)?;
    }
    Ok(written)
}

fn list_of<'a>(
    alloc: Global,
    naming: &'a Naming<'a>,
    scope: &'a Scope<'a>,
    outputs: &Outputs,
) -> Result<SelectList, AllocError> {
    match outputs {
        Outputs::Star => Ok(SelectList::Star),
        Outputs::Values(values) => Ok(SelectList::Values(expressions_of(
            alloc,
            naming,
            scope,
            values.as_slice(),
        )?)),
    }
}

// The name of what a FROM names, which is there.
fn range_name(alloc: Global, naming: &Naming<'_>, range: Range) -> Result<Name, AllocError> {
    match source_name(naming, range) {
        Some(name) => name.clone(),
        None => name_of(alloc, ""),
    }
}

fn query_of<'a>(
    alloc: Global,
    naming: &'a Naming<'a>,
    outputs: &Outputs,
    range: Range,
    filter: &Cond,
) -> Result<InsertSource, AllocError> {
    let alias = alias_of(alloc, naming, &Scope::Nothing)?;
    let table = range_name(alloc, naming, range)?;
    let called = RangeName {
        table,
        alias: Some(alias.clone()?),
    };
    let scope = Scope::Within(
        alias.as_str(),
        source_columns(naming, range),
        &Scope::Nothing,
    );
    let list = list_of(alloc, &*naming, &scope, outputs)?;
    let filter = filter_of(alloc, &*naming, &scope, filter)?;
    Ok(InsertSource::Select(list, called, filter))
}

fn source_of<'a>(
    alloc: Global,
    naming: &'a Naming<'a>,
    rows: &InsertRows,
) -> Result<InsertSource, AllocError> {
    match rows {
        InsertRows::Values(tuples) => {
            tuples_of(alloc, naming, &Scope::Nothing, tuples.as_slice())
        }
        InsertRows::Query {
            outputs,
            range,
            filter,
        } => query_of(alloc, naming, outputs, *range, filter),
    }
}

fn insert_of<'a>(
    alloc: Global,
    naming: &'a Naming<'a>,
    id: TableId,
    columns: &InsertColumns,
    rows: &InsertRows,
) -> Result<Insert, AllocError> {
    let table = table_name_at(alloc, naming.tables, id)?;
    match columns {
        InsertColumns::All => Ok(Insert::Rows {
            table,
            columns: None,
            source: source_of(alloc, naming, rows)?,
        }),
        InsertColumns::Listed(places) => {
            if places.is_empty() {
                return Ok(Insert::DefaultValues(table));
            }
            let all = columns_at(naming.tables, id);
            let names = names_at(alloc, all, places.as_slice())?;
            Ok(Insert::Rows {
                table,
                columns: Some(names),
                source: source_of(alloc, naming, rows)?,
            })
        }
    }
}

// The name of the column at this place, which is there.
fn column_name(alloc: Global, columns: &[Column], place: u32) -> Result<Name, AllocError> {
    match columns.get(place as usize) {
        Some(column) => column.name.clone(),
        None => name_of(alloc, ""),
    }
}

fn assignments_of<'a>(
    alloc: Global,
    naming: &'a Naming<'a>,
    scope: &'a Scope<'a>,
    columns: &[Column],
    settings: &[Setting],
) -> Result<Items<Assignment>, AllocError> {
    let mut written = Items::new(alloc);
    for setting in settings {
        let column = column_name(alloc, columns, setting.column)?;
        written.push(Assignment {
            column,
            value: value_of(alloc, naming, scope, &setting.value)?,
        })?;
    }
    Ok(written)
}

fn update_of<'a>(
    alloc: Global,
    naming: &'a Naming<'a>,
    id: TableId,
    settings: &[Setting],
    filter: &Cond,
) -> Result<Update, AllocError> {
    let table = table_name_at(alloc, naming.tables, id)?;
    let columns = columns_at(naming.tables, id);
    let called = table.clone()?;
    let scope = Scope::Within(table.as_str(), columns, &Scope::Nothing);
    let assignments = assignments_of(alloc, &*naming, &scope, columns, settings)?;
    let filter = filter_of(alloc, &*naming, &scope, filter)?;
    Ok(Update {
        table: called,
        assignments,
        filter,
    })
}

fn delete_of<'a>(
    alloc: Global,
    naming: &'a Naming<'a>,
    id: TableId,
    filter: &Cond,
) -> Result<Delete, AllocError> {
    let table = table_name_at(alloc, naming.tables, id)?;
    let columns = columns_at(naming.tables, id);
    let called = table.clone()?;
    let scope = Scope::Within(table.as_str(), columns, &Scope::Nothing);
    let filter = filter_of(alloc, &*naming, &scope, filter)?;
    Ok(Delete {
        table: called,
        filter,
    })
}

fn data_of<'a>(
    alloc: Global,
    naming: &'a Naming<'a>,
    statement: &DataStatement,
) -> Result<TriggerAction, AllocError> {
    match statement {
        DataStatement::Insert {
            table,
            columns,
            rows,
        } => Ok(TriggerAction::Insert(insert_of(alloc, naming, *table, columns, rows)?)),
        DataStatement::Update {
            table,
            settings,
            filter,
        } => Ok(TriggerAction::Update(update_of(
            alloc,
            naming,
            *table,
            settings.as_slice(),
            filter,
        )?)),
        DataStatement::Delete { table, filter } => Ok(TriggerAction::Delete(delete_of(
            alloc, naming, *table, filter,
        )?)),
    }
}

// SET of a column of the row variable NEW, which has this name.
fn set_of<'a>(
    alloc: Global,
    naming: &'a Naming<'a>,
    variable: &Name,
    setting: &Setting,
) -> Result<TriggerAction, AllocError> {
    let variable = variable.clone()?;
    let column = column_name(alloc, naming.subject, setting.column)?;
    Ok(TriggerAction::Set(
        variable,
        column,
        expression_of(alloc, naming, &Scope::Nothing, &setting.value)?,
    ))
}

/// A statement of a trigger's body. The row variable NEW has this name.
pub fn action_of<'a>(
    alloc: Global,
    naming: &'a Naming<'a>,
    variable: &Name,
    statement: &BodyStatement,
) -> Result<TriggerAction, AllocError> {
    match statement {
        BodyStatement::Data(statement) => data_of(alloc, naming, statement),
        BodyStatement::Signal(text) => Ok(TriggerAction::Signal(text.clone()?)),
        BodyStatement::Set(setting) => set_of(alloc, naming, variable, setting),
    }
}
