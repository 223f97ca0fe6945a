//! The key under which a constraint keeps a row.
ghost use Rattle.std.specs.Prelude.{◌≡◌, not};
ghost use Rattle.iv_value.specs.Truths.{is_false};
ghost use Rattle.iv_value.specs.Values.{is_null};
ghost use Rattle.iv_key.specs.Keys.{key_of, value_at};
ghost use Rattle.iv_laws_kept.specs.Kept.{null_key, null_key_where, is_free, kept_key, key_or, unique_key};
ghost use Rattle.iv_store_following.specs.BorrowedChange.{is_one_key, referenced_key, side_key};

use crate::borrowed_change::BorrowedChange;
use iv_catalogue::{Constraint, ForeignKey, Rule};
use iv_expr::{Row, TableId, check_truth};
use iv_key::{Key, value_at};
use iv_syntax::{MatchType, NullTreatment};
use iv_value::{Truth, Value};

const FIRST: [u32; 1] = [0];

// The key of one null.
fn null_key<'a>() -> Key<'a>
    ensures { result ≡ null_key }
{
    Key::new(&FIRST, &[])
}

// Whether a key needs no referenced row.
pub fn is_free(matching: MatchType, key: &Key<'_>) -> bool
    ensures { result ≡ is_free matching key.now }
{
    match matching {
        MatchType::Simple => !key.none_null(),
        MatchType::Full => key.all_null(),
    }
}

// The key under which a foreign key keeps a row.
fn referencing_key<'a>(fk: &'a ForeignKey, row: &'a [Value]) -> Option<Key<'a>>
    ensures { result ≡ key_or (key_of fk.now.columns row.entry.now)
        (null_key_where (not (is_free fk.now.matching (key_of fk.now.columns row.entry.now)))) }
{
    let key = Key::new(fk.columns.as_slice(), row);
    if key.none_null() {
        Some(key)
    } else if is_free(fk.matching, &key) {
        None
    } else {
        Some(null_key())
    }
}

// The key under which a UNIQUE keeps a row: if nulls are not distinct, a key with nulls is kept like others.
fn unique_key<'a>(nulls: NullTreatment, columns: &'a [u32], row: &'a [Value]) -> Option<Key<'a>>
    ensures { result ≡ unique_key nulls (key_of columns.entry.now row.entry.now) }
{
    let key = Key::new(columns, row);
    match nulls {
        NullTreatment::Distinct => { if key.none_null() { Some(key) } else { None } }
        NullTreatment::NotDistinct => Some(key),
    }
}

/// The key under which a rule keeps a row, if it keeps it.
pub fn kept_key<'a>(rule: &'a Rule, row: &'a [Value]) -> Option<Key<'a>>
    ensures { result ≡ kept_key rule.entry.now row.entry.now }
{
    match rule {
        Rule::NotNull(column) => {
            if value_at(row, *column).is_null() {
                Some(null_key())
            } else {
                None
            }
        }
        Rule::Check(condition) => {
            if check_truth(condition, row) == Truth::False {
                Some(null_key())
            } else {
                None
            }
        }
        Rule::Unique(nulls, columns) => unique_key(*nulls, columns.as_slice(), row),
        Rule::PrimaryKey(columns) => {
            let key = Key::new(columns.as_slice(), row);
            if key.none_null() {
                Some(key)
            } else {
                Some(null_key())
            }
        }
        Rule::ForeignKey(fk) => referencing_key(fk, row),
    }
}

// The key under which a constraint keeps one side of a change in a table, if it keeps it.
fn side_key<'a>(
    constraint: &'a Constraint,
    table: TableId,
    side: &'a Option<Row>,
) -> Option<Key<'a>>
    ensures { result ≡ side_key constraint.entry.now table side.entry.now }
{
    match side {
        Some(row) => {
            if table == constraint.table {
                kept_key(&constraint.rule, row.values())
            } else {
                None
            }
        }
        None => None,
    }
}

// The key of one side of a change that rows refer to by a foreign key, if it is a row of the referenced table and has
// no null.
fn referenced_key<'a>(fk: &'a ForeignKey, table: TableId, side: &'a Option<Row>) -> Option<Key<'a>>
    ensures { result ≡ referenced_key fk.entry.now table side.entry.now }
{
    match side {
        Some(row) => {
            let key = Key::new(fk.key.as_slice(), row.values());
            if table == fk.referenced && key.none_null() {
                Some(key)
            } else {
                None
            }
        }
        None => None,
    }
}

/// Whether both keys are missing, or they are the same.
pub fn is_one_key(one: &Option<Key<'_>>, other: &Option<Key<'_>>) -> bool
    ensures { result ≡ is_one_key one.now other.now }
{
    match one {
        None => other.is_none(),
        Some(key) => match other {
            None => false,
            Some(other) => key.same(other),
        },
    }
}

/// The key under which a constraint keeps the old side of a change, if it keeps it.
pub fn old_key<'a>(constraint: &'a Constraint, change: &BorrowedChange<'a>) -> Option<Key<'a>>
    ensures { result ≡ side_key constraint.entry.now change.now.table change.now.old }
{
    side_key(constraint, change.table(), change.old())
}

/// The key under which a constraint keeps the new side of a change, if it keeps it.
pub fn new_key<'a>(constraint: &'a Constraint, change: &BorrowedChange<'a>) -> Option<Key<'a>>
    ensures { result ≡ side_key constraint.entry.now change.now.table change.now.new }
{
    side_key(constraint, change.table(), change.new())
}

/// The key of the old side of a change that rows refer to by a foreign key, if there is one.
pub fn old_referenced_key<'a>(fk: &'a ForeignKey, change: &BorrowedChange<'a>) -> Option<Key<'a>>
    ensures { result ≡ referenced_key fk.entry.now change.now.table change.now.old }
{
    referenced_key(fk, change.table(), change.old())
}

/// The key of the new side of a change that rows refer to by a foreign key, if there is one.
pub fn new_referenced_key<'a>(fk: &'a ForeignKey, change: &BorrowedChange<'a>) -> Option<Key<'a>>
    ensures { result ≡ referenced_key fk.entry.now change.now.table change.now.new }
{
    referenced_key(fk, change.table(), change.new())
}
