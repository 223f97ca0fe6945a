//! Statements.
ghost use Rattle.std.specs.Prelude.{◌≡◌};
ghost use Rattle.std.specs.List.{list_all};
ghost use Rattle.iv_resolution.specs.Writable.{is_assignment, is_constraint_list, is_delete, is_expression, is_insert, is_list, is_select};
ghost use Rattle.iv_resolution.specs.Writable.{is_insert_source, is_tuple, is_update, is_value, is_writable};

use crate::names::{is_name, is_name_list, is_name_list_or_none};
use crate::tables::{is_addition, is_table_definition};
use crate::terms::{is_expression, is_filter, is_range};
use crate::triggers::is_trigger_definition;
use iv_syntax::{
    Assignment, ConstraintList, Delete, Expression, Insert, InsertSource, Select, SelectList,
    Statement, Update, ValueOrDefault,
};
use sqlite_items::Items;

fn is_value(value: &ValueOrDefault) -> bool
    ensures { result ≡ is_value value.now }
{
    match value {
        ValueOrDefault::Value(expression) => is_expression(expression),
        ValueOrDefault::Default => true,
    }
}

fn are_values(tuple: &[ValueOrDefault]) -> bool
    ensures { result ≡ list_all is_value tuple.now }
{
    tuple.iter().all(|value| is_value(value))
}

fn is_tuple(tuple: &[ValueOrDefault]) -> bool
    ensures { result ≡ is_tuple tuple.now }
{
    tuple.len() != 0 && are_values(tuple)
}

fn are_tuples(tuples: &[Items<ValueOrDefault>]) -> bool
    ensures { result ≡ list_all is_tuple tuples.now }
{
    tuples.iter().all(|tuple| is_tuple(tuple.as_slice()))
}

fn are_expressions(expressions: &[Expression]) -> bool
    ensures { result ≡ list_all is_expression expressions.now }
{
    expressions
        .iter()
        .all(|expression| is_expression(expression))
}

fn is_list(list: &SelectList) -> bool
    ensures { result ≡ is_list list.now }
{
    match list {
        SelectList::Star => true,
        SelectList::Values(values) => values.len() != 0 && are_expressions(values.as_slice()),
    }
}

fn is_insert_source(source: &InsertSource) -> bool
    ensures { result ≡ is_insert_source source.now }
{
    match source {
        InsertSource::Values(tuples) => tuples.len() != 0 && are_tuples(tuples.as_slice()),
        InsertSource::Select(list, range, filter) => {
            is_list(list) && (is_range(range) && is_filter(filter))
        }
    }
}

/// Whether an INSERT can be written.
pub fn is_insert(insert: &Insert) -> bool
    ensures { result ≡ is_insert insert.now }
{
    match insert {
        Insert::DefaultValues(table) => is_name(table.as_str()),
        Insert::Rows {
            table,
            columns,
            source,
        } => is_name(table.as_str()) && (is_name_list_or_none(columns) && is_insert_source(source)),
    }
}

fn is_assignment(assignment: &Assignment) -> bool
    ensures { result ≡ is_assignment assignment.now }
{
    is_name(assignment.column.as_str()) && is_value(&assignment.value)
}

fn are_assignments(assignments: &[Assignment]) -> bool
    ensures { result ≡ list_all is_assignment assignments.now }
{
    assignments
        .iter()
        .all(|assignment| is_assignment(assignment))
}

/// Whether an UPDATE can be written.
pub fn is_update(update: &Update) -> bool
    ensures { result ≡ is_update update.now }
{
    is_name(update.table.as_str())
        && (update.assignments.len() != 0
            && (are_assignments(update.assignments.as_slice()) && is_filter(&update.filter)))
}

/// Whether a DELETE can be written.
pub fn is_delete(delete: &Delete) -> bool
    ensures { result ≡ is_delete delete.now }
{
    is_name(delete.table.as_str()) && is_filter(&delete.filter)
}

fn is_select(select: &Select) -> bool
    ensures { result ≡ is_select select.now }
{
    match select {
        Select::Count(range, filter) => is_range(range) && is_filter(filter),
        Select::Rows(list, range, filter) => {
            is_list(list) && (is_range(range) && is_filter(filter))
        }
    }
}

fn is_constraint_list(list: &ConstraintList) -> bool
    ensures { result ≡ is_constraint_list list.now }
{
    match list {
        ConstraintList::All => true,
        ConstraintList::Named(names) => is_name_list(names.as_slice()),
    }
}

/// Whether a text of the language can be this statement. It takes time in proportion to the statement, and allocates
/// nothing.
pub fn is_writable(statement: &Statement) -> bool
    ensures { result ≡ is_writable statement.now }
{
    match statement {
        Statement::CreateTable { name, elements } => is_table_definition(
            name.as_str(),
            elements.as_slice(),
        ),
        Statement::AlterTable { table, constraint } => {
            is_name(table.as_str()) && is_addition(constraint)
        }
        Statement::CreateTrigger(trigger) => is_trigger_definition(trigger),
        Statement::DropTrigger(name) => is_name(name.as_str()),
        Statement::Insert(insert) => is_insert(insert),
        Statement::Update(update) => is_update(update),
        Statement::Delete(delete) => is_delete(delete),
        Statement::Select(select) => is_select(select),
        Statement::StartTransaction | Statement::Commit | Statement::Rollback => true,
        Statement::Savepoint(name) => is_name(name.as_str()),
        Statement::Release(name) => is_name(name.as_str()),
        Statement::RollbackTo(name) => is_name(name.as_str()),
        Statement::SetConstraints(list, _) => is_constraint_list(list),
    }
}
