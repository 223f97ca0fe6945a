//! Plans of INSERT, UPDATE, DELETE and SELECT. Each function allocates only the plan, and takes time in proportion to
//! the statement.
ghost use Rattle.std.specs.Prelude.{◌≡◌, ◌≤◌, ◌∷◌, [], IfOk, length, map};
ghost use Rattle.iv_catalogue.specs.declared.plan.DataStatement.TheVariants as data_statement;
ghost use Rattle.iv_catalogue.specs.declared.plan.InsertColumns.TheVariants as listing;
ghost use Rattle.iv_catalogue.specs.declared.plan.InsertRows.TheVariants as rows;
ghost use Rattle.iv_resolution.specs.Bound.{bound_assignment, bound_columns, bound_delete, bound_insert, bound_list, bound_select, bound_source};
ghost use Rattle.iv_resolution.specs.Bound.{bound_tuple, bound_update, bound_value, default_at, table_id, target_place};
ghost use Rattle.iv_resolution.specs.Scopes.{named_columns};
ghost use Rattle.iv_resolution.specs.Terms.{bound_expression};
ghost use Rattle.iv_resolve_scope.specs.Seen.{names_seen, ranges_seen};

use iv_catalogue::{
    Column, DataStatement, InsertColumns, InsertRows, MOST_TABLES, Outputs, QueryPlan, Setting,
};
use iv_expr::{Expr, TableId};
use iv_resolution::Origin;
use iv_resolve_scope::{
    Columns, Names, Ranges, bound_expression, bound_filter, inside, places_of, source_range,
    stored_columns, table_place,
};
use iv_syntax::{
    Assignment, Delete, Expression, Insert, InsertSource, Name, Select, SelectList, Update,
    ValueOrDefault,
};
use iv_value::Value;
use sqlite_items::Items;
use std::alloc::{AllocError, Global};

/// The table of that name; the first if there is none.
#[tactic(auto, unfolding(iv_resolution::specs::Bound::table_id))]
pub fn table_id(names: &Names<'_>, name: &str) -> TableId
    requires { length names.now.tables.now ≤ MOST_TABLES }
    ensures { result ≡ table_id (names_seen names.now) name.now }
{
    match table_place(names.tables, name) {
        Some(place) => TableId::new(place as u32),
        None => TableId::new(0),
    }
}

#[tactic(auto, unfolding(iv_resolution::specs::Bound::default_at))]
fn default_at(columns: &[Column], place: usize) -> Result<Value, AllocError>
    ensures { IfOk result (λ v. v ≡ default_at columns.now place) }
{
    match columns.get(place) {
        Some(column) => column.default.clone(),
        None => Ok(Value::Null),
    }
}

#[tactic(auto, unfolding(iv_resolution::specs::Bound::bound_value))]
fn bound_value<'a>(
    alloc: Global,
    value: &'a ValueOrDefault,
    columns: &'a [Column],
    place: usize,
    ranges: &'a Ranges<'a>,
) -> Result<Expr, AllocError>
    ensures { IfOk result (λ e. e
        ≡ bound_value columns.now (ranges_seen ranges.now) place value.now) }
{
    match value {
        ValueOrDefault::Value(expression) => bound_expression(alloc, expression, ranges),
        ValueOrDefault::Default => Ok(Expr::Literal(default_at(columns, place)?)),
    }
}

#[tactic(auto, unfolding(iv_resolution::specs::Bound::target_place))]
fn target_place(columns: &[Column], names: &Option<Items<Name>>, at: usize) -> usize
    ensures { result ≡ target_place (named_columns columns.now) names.now at }
{
    match names {
        Some(names) => match names.as_slice().get(at) {
            Some(name) => Columns::Stored(columns).place_of(name.as_str()) as usize,
            None => 0,
        },
        None => at,
    }
}

#[tactic(auto, unfolding(iv_resolution::specs::Bound::bound_tuple))]
fn bound_tuple<'a>(
    alloc: Global,
    tuple: &'a [ValueOrDefault],
    columns: &'a [Column],
    names: &'a Option<Items<Name>>,
    ranges: &'a Ranges<'a>,
) -> Result<Items<Expr>, AllocError>
    ensures { IfOk result (λ es. es
        ≡ bound_tuple columns.now names.now (ranges_seen ranges.now) tuple.now) }
{
    let mut values = Items::new(alloc);
    let mut at = 0usize;
    for value in tuple {
        let place = target_place(columns, names, at);
        values.push(bound_value(alloc, value, columns, place, ranges)?)?;
        at += 1;
    }
    Ok(values)
}

fn bound_tuples<'a>(
    alloc: Global,
    tuples: &'a [Items<ValueOrDefault>],
    columns: &'a [Column],
    names: &'a Option<Items<Name>>,
    ranges: &'a Ranges<'a>,
) -> Result<Items<Items<Expr>>, AllocError>
    ensures { IfOk result (λ ts. ts
        ≡ map (bound_tuple columns.now names.now (ranges_seen ranges.now)) tuples.now) }
{
    let mut rows = Items::new(alloc);
    for tuple in tuples {
        rows.push(bound_tuple(alloc, tuple.as_slice(), columns, names, ranges)?)?;
    }
    Ok(rows)
}

fn bound_values<'a>(
    alloc: Global,
    values: &'a [Expression],
    ranges: &'a Ranges<'a>,
) -> Result<Items<Expr>, AllocError>
    ensures { IfOk result (λ es. es ≡ map (bound_expression (ranges_seen ranges.now)) values.now) }
{
    let mut bound = Items::new(alloc);
    for value in values {
        bound.push(bound_expression(alloc, value, ranges)?)?;
    }
    Ok(bound)
}

#[tactic(auto, unfolding(iv_resolution::specs::Bound::bound_list))]
fn bound_list<'a>(
    alloc: Global,
    list: &'a SelectList,
    ranges: &'a Ranges<'a>,
) -> Result<Outputs, AllocError>
    ensures { IfOk result (λ o. o ≡ bound_list (ranges_seen ranges.now) list.now) }
{
    match list {
        SelectList::Star => Ok(Outputs::Star),
        SelectList::Values(values) => {
            Ok(Outputs::Values(bound_values(alloc, values.as_slice(), ranges)?))
        }
    }
}

#[tactic(auto, unfolding(iv_resolution::specs::Bound::bound_source))]
fn bound_source<'a>(
    alloc: Global,
    source: &'a InsertSource,
    columns: &'a [Column],
    listed: &'a Option<Items<Name>>,
    names: &'a Names<'a>,
    ranges: &'a Ranges<'a>,
) -> Result<InsertRows, AllocError>
    requires { length names.now.tables.now ≤ MOST_TABLES }
    ensures { IfOk result (λ r.
        r ≡ bound_source (names_seen names.now)
        (ranges_seen ranges.now) columns.now listed.now source.now) }
{
    match source {
        InsertSource::Values(tuples) => {
            let tuples = bound_tuples(alloc, tuples.as_slice(), columns, listed, ranges)?;
            Ok(InsertRows::Values(tuples))
        }
        InsertSource::Select(list, range, filter) => {
            let inner = inside(range, &*names, &*ranges);
            let outputs = bound_list(alloc, list, &inner)?;
            let filter = bound_filter(alloc, filter, &*names, &inner)?;
            Ok(InsertRows::Query {
                outputs,
                range: source_range(names, range.table.as_str()),
                filter,
            })
        }
    }
}

#[tactic(auto, unfolding(iv_resolution::specs::Bound::bound_columns))]
fn bound_columns(
    alloc: Global,
    columns: &[Column],
    listed: &Option<Items<Name>>,
) -> Result<InsertColumns, AllocError>
    ensures { IfOk result (λ c. c ≡ bound_columns (named_columns columns.now) listed.now) }
{
    match listed {
        Some(names) => {
            let places = places_of(alloc, &Columns::Stored(columns), names.as_slice())?;
            Ok(InsertColumns::Listed(places))
        }
        None => Ok(InsertColumns::All),
    }
}

fn default_row(alloc: Global, table: TableId) -> Result<DataStatement, AllocError>
    ensures { IfOk result (λ d. d
        ≡ data_statement.Insert table (listing.Listed []) (rows.Values ([] ∷ []))) }
{
    let mut rows = Items::new(alloc);
    rows.push(Items::new(alloc))?;
    Ok(DataStatement::Insert {
        table,
        columns: InsertColumns::Listed(Items::new(alloc)),
        rows: InsertRows::Values(rows),
    })
}

/// The plan of an INSERT.
pub fn bound_insert<'a>(
    alloc: Global,
    insert: &'a Insert,
    names: &'a Names<'a>,
    ranges: &'a Ranges<'a>,
) -> Result<DataStatement, AllocError>
    requires { length names.now.tables.now ≤ MOST_TABLES }
    ensures { IfOk result (λ d. d
        ≡ bound_insert (names_seen names.now) (ranges_seen ranges.now) insert.now) }
{
    match insert {
        Insert::DefaultValues(table) => default_row(alloc, table_id(names, table.as_str())),
        Insert::Rows {
            table,
            columns,
            source,
        } => {
            let stored = stored_columns(names.tables, table.as_str());
            let listed = bound_columns(alloc, stored, columns)?;
            let rows = bound_source(alloc, source, stored, columns, names, ranges)?;
            Ok(DataStatement::Insert {
                table: table_id(names, table.as_str()),
                columns: listed,
                rows,
            })
        }
    }
}

#[tactic(auto, unfolding(iv_resolution::specs::Bound::bound_assignment))]
fn bound_assignment<'a>(
    alloc: Global,
    assignment: &'a Assignment,
    columns: &'a [Column],
    ranges: &'a Ranges<'a>,
) -> Result<Setting, AllocError>
    ensures { IfOk result (λ s. s
        ≡ bound_assignment columns.now (ranges_seen ranges.now) assignment.now) }
{
    let column = Columns::Stored(columns).place_of(assignment.column.as_str());
    let value = bound_value(alloc, &assignment.value, columns, column as usize, ranges)?;
    Ok(Setting { column, value })
}

fn bound_assignments<'a>(
    alloc: Global,
    assignments: &'a [Assignment],
    columns: &'a [Column],
    ranges: &'a Ranges<'a>,
) -> Result<Items<Setting>, AllocError>
    ensures { IfOk result (λ ss. ss
        ≡ map (bound_assignment columns.now (ranges_seen ranges.now)) assignments.now) }
{
    let mut settings = Items::new(alloc);
    for assignment in assignments {
        settings.push(bound_assignment(alloc, assignment, columns, ranges)?)?;
    }
    Ok(settings)
}

/// The plan of an UPDATE.
pub fn bound_update<'a>(
    alloc: Global,
    update: &'a Update,
    names: &'a Names<'a>,
    ranges: &'a Ranges<'a>,
) -> Result<DataStatement, AllocError>
    requires { length names.now.tables.now ≤ MOST_TABLES }
    ensures { IfOk result (λ d. d
        ≡ bound_update (names_seen names.now) (ranges_seen ranges.now) update.now) }
{
    let stored = stored_columns(names.tables, update.table.as_str());
    let columns = Columns::Stored(stored);
    let inner = Ranges::Within(update.table.as_str(), columns, Origin::Rows, &*ranges);
    let settings = bound_assignments(alloc, update.assignments.as_slice(), stored, &inner)?;
    let filter = bound_filter(alloc, &update.filter, &*names, &inner)?;
    Ok(DataStatement::Update {
        table: table_id(names, update.table.as_str()),
        settings,
        filter,
    })
}

/// The plan of a DELETE.
pub fn bound_delete<'a>(
    alloc: Global,
    delete: &'a Delete,
    names: &'a Names<'a>,
    ranges: &'a Ranges<'a>,
) -> Result<DataStatement, AllocError>
    requires { length names.now.tables.now ≤ MOST_TABLES }
    ensures { IfOk result (λ d. d
        ≡ bound_delete (names_seen names.now) (ranges_seen ranges.now) delete.now) }
{
    let columns = Columns::Stored(stored_columns(names.tables, delete.table.as_str()));
    let inner = Ranges::Within(delete.table.as_str(), columns, Origin::Rows, &*ranges);
    let filter = bound_filter(alloc, &delete.filter, &*names, &inner)?;
    Ok(DataStatement::Delete {
        table: table_id(names, delete.table.as_str()),
        filter,
    })
}

/// The plan of a SELECT outside of all ranges.
pub fn bound_select<'a>(
    alloc: Global,
    select: &'a Select,
    names: &'a Names<'a>,
    outside: &'a Ranges<'a>,
) -> Result<QueryPlan, AllocError>
    requires tables { length names.now.tables.now ≤ MOST_TABLES }
    requires outside { ranges_seen outside.now ≡ [] }
    ensures { IfOk result (λ q. q ≡ bound_select (names_seen names.now) select.now) }
{
    match select {
        Select::Count(range, filter) => {
            let inner = inside(range, names, outside);
            Ok(QueryPlan::Count {
                table: table_id(names, range.table.as_str()),
                filter: bound_filter(alloc, filter, names, &inner)?,
            })
        }
        Select::Rows(list, range, filter) => {
            let inner = inside(range, names, outside);
            let outputs = bound_list(alloc, list, &inner)?;
            Ok(QueryPlan::Rows {
                table: table_id(names, range.table.as_str()),
                outputs,
                filter: bound_filter(alloc, filter, names, &inner)?,
            })
        }
    }
}
