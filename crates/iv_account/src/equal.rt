//! The first other row with the key of a row.
ghost use Rattle.std.specs.Prelude.{◌≡◌, ℕ, List, true, false, not, find, option_map, IfOk, IfSome};
ghost use Rattle.iv_value.specs.declared.value.Value.{Value as Cell};
ghost use Rattle.iv_key.specs.Keys.{key_of, none_null, value_at};
ghost use Rattle.iv_expr.specs.Found.{AreThere, searched};
ghost use Rattle.iv_expr.specs.Scopes.{numbered, row_above, table_rows};
ghost use Rattle.iv_expr.specs.Searches.{AreSharing, has_all};
ghost use Rattle.iv_expr.specs.declared.row.StoredRow.{StoredRow as Stored};
ghost use Rattle.iv_machine.specs.Databases.{shares_key};

use crate::account::row_of;
use iv_expr::{Rows, StoredRow, TableId};
use iv_key::{Key, value_at};
use iv_numbers::HeldRows;
use iv_syntax::NullTreatment;
use iv_value::Value;
use std::alloc::{AllocError, Global};

// A list of as many nulls, which ask for nothing.
fn nothing_asked(alloc: Global, count: usize) -> Result<Vec<Value>, AllocError>
    ensures { IfOk result (λ v. (row : List Cell) → has_all v.items row ≡ true) }
{
    let mut asked = Vec::with_capacity(alloc, count)?;
    while asked.len() < count {
        asked.push(Value::Null)?;
    }
    Ok(asked)
}

// Asks for this value in a column.
fn ask(asked: &mut Vec<Value>, column: u32, value: Value)
    ensures { (row : List Cell) → value_at row column ≡ value
        → has_all asked.old.items row ≡ true → has_all asked.new.items row ≡ true }
{
    let place = column as usize;
    if place < asked.len() {
        asked[place] = value;
    }
}

// What a search asks for to find the rows with the key of a row: its values in the columns of the key, and null, which
// asks for nothing, in the others. If the key has a null, rows with other keys may be found too.
fn key_asked(alloc: Global, columns: &[u32], row: &[Value]) -> Result<Vec<Value>, AllocError>
    ensures { IfOk result (λ asked. (other : List Cell)
        → key_of columns.now other ≡ key_of columns.now row.now → has_all asked.items other ≡ true) }
{
    let mut asked = nothing_asked(alloc, row.len())?;
    for column in columns {
        let value = value_at(row, *column).to_value()?;
        ask(&mut asked, *column, value);
    }
    Ok(asked)
}

// The next row of a table above a number: of the rows of a key if they are given, and otherwise of all.
fn next_row<'a, R: Rows>(
    rows: &'a R,
    table: TableId,
    found: &Option<HeldRows<'_>>,
    after: u64,
) -> Option<(u64, &'a [Value])>
    requires { AreThere found.now (table_rows (R.rows rows.now) table) }
    ensures { option_map (λ r. (r.0, r.1.now)) result ≡ option_map numbered
        (row_above after (searched found.now (table_rows (R.rows rows.entry.now) table))) }
{
    rows.recall_order();
    match found {
        Some(numbers) => match numbers.next_above(after) {
            Some(number) => rows.scan(table, number.saturating_sub(1)),
            None => None,
        },
        None => rows.scan(table, after),
    }
}

// Whether the row of this number and these values is another one with the key of a row. The scan of `iv_machine` asks it of
// stored rows; a table lends each row as a number and values.
fn shares_key(
    nulls: NullTreatment,
    columns: &[u32],
    row: &StoredRow,
    number: u64,
    values: &[Value],
) -> bool
    ensures { (table : ℕ) → result ≡ shares_key nulls columns.now row.now
        (record { table = table; number = number; values = values.now }) }
{
    let key = Key::new(columns, values);
    let may_be_same = match nulls {
        NullTreatment::Distinct => key.none_null(),
        NullTreatment::NotDistinct => true,
    };
    number != row.number && may_be_same && key.same(&Key::new(columns, row.values.values()))
}

// The first other row with the key of a row: of the rows that are given, or otherwise of all of the table.
fn find_among<'a, R: Rows>(
    rows: &'a R,
    table: TableId,
    found: &Option<HeldRows<'_>>,
    nulls: NullTreatment,
    columns: &[u32],
    row: &StoredRow,
) -> Option<(u64, &'a [Value])>
    requires { AreThere found.now (table_rows (R.rows rows.now) table) }
    ensures { option_map (λ p. record { table = table; number = p.0; values = p.1.now }) result
        ≡ find (shares_key nulls columns.now row.now)
        (searched found.now (table_rows (R.rows rows.entry.now) table)) }
{
    rows.recall_order();
    let mut after = 0;
    while let Some((number, values)) = next_row(rows, table, found, after) {
        after = number;
        if shares_key(nulls, columns, row, number, values) {
            return Some((number, values));
        }
    }
    None
}

// The rows of a table among which are all that have the key of a row, if the store keeps rows by it. If nulls are equal, a
// key with a null has rows too.
fn rows_of_key<'a, R: Rows>(
    rows: &'a R,
    table: TableId,
    asked: &[Value],
    nulls: NullTreatment,
    columns: &[u32],
    row: &[Value],
) -> Option<HeldRows<'a>>
    requires { (other : List Cell) → key_of columns.now other ≡ key_of columns.now row.now
        → has_all asked.now other ≡ true }
    ensures { IfSome result (λ numbers. AreSharing columns.now row.now (table_rows (R.rows rows.entry.now) table) numbers) }
{
    match nulls {
        NullTreatment::Distinct => rows.holders(table, asked),
        NullTreatment::NotDistinct => match rows.sharing(table, columns, row) {
            Some(found) => Some(found),
            None => rows.holders(table, asked),
        },
    }
}

// The first other row of the table with the key of a row. If the store keeps rows by the key, it looks only at those, and
// otherwise at each row.
fn find_equal<'a, R: Rows>(
    rows: &'a R,
    table: TableId,
    asked: &[Value],
    nulls: NullTreatment,
    columns: &[u32],
    row: &StoredRow,
) -> Option<(u64, &'a [Value])>
    requires { (other : List Cell) → key_of columns.now other ≡ key_of columns.now row.now.values
        → has_all asked.now other ≡ true }
    ensures { option_map (λ p. record { table = table; number = p.0; values = p.1.now }) result
        ≡ find (shares_key nulls columns.now row.now) (table_rows (R.rows rows.entry.now) table) }
{
    rows.recall_order();
    let found = rows_of_key(rows, table, asked, nulls, columns, row.values.values());
    find_among(rows, table, &found, nulls, columns, row)
}

fn has_null(columns: &[u32], row: &StoredRow) -> bool
    ensures { result ≡ not (none_null (key_of columns.now row.now.values)) }
{
    !Key::new(columns, row.values.values()).none_null()
}

// Whether no row can have the key of a row, since it has a null and nulls are distinct.
fn is_distinct(nulls: NullTreatment, columns: &[u32], row: &StoredRow) -> bool
    ensures { result ≡ true → (other : Stored) → shares_key nulls columns.now row.now other ≡ false }
{
    match nulls {
        NullTreatment::Distinct => has_null(columns, row),
        NullTreatment::NotDistinct => false,
    }
}

/// The first other row of the table with the key of a row, as a row of its own. The call looks at the rows of the key
/// if the store keeps them, and otherwise at each row of the table, up to the first other one. It allocates as many
/// values as a row has.
pub fn equal_row<R: Rows>(
    alloc: Global,
    rows: &R,
    table: TableId,
    nulls: NullTreatment,
    columns: &[u32],
    row: &StoredRow,
) -> Result<Option<StoredRow>, AllocError>
    ensures { IfOk result (λ r. r
        ≡ find (shares_key nulls columns.now row.now) (table_rows (R.rows rows.now) table)) }
{
    if is_distinct(nulls, columns, row) {
        return Ok(None);
    }
    let asked = key_asked(alloc, columns, row.values.values())?;
    match find_equal(rows, table, asked.as_slice(), nulls, columns, row) {
        Some((number, values)) => Ok(Some(StoredRow {
            table,
            number,
            values: row_of(alloc, values)?,
        })),
        None => Ok(None),
    }
}
