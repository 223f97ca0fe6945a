//! An account as JSON.
ghost use Rattle.std.specs.Prelude.{◌≡◌, ◌++◌, slice_get, true};
ghost use Rattle.std.specs.List.{flat_map};
ghost use Rattle.std.specs.Option.{option_copied};
ghost use Rattle.iv_value.specs.References.{value_of};
ghost use Rattle.iv_key.specs.Keys.{key_of};
ghost use Rattle.iv_text.specs.Writing.{Writes};
ghost use Rattle.iv_print.specs.AccountLines.{column_name_in, table_name};
ghost use Rattle.iv_text.specs.Json.{further_value, json_text, json_values};
ghost use Rattle.iv_print.specs.JsonAccounts.{acted_entry, because, began_entry, begins, changed_entry, changes_nothing, constraint_rule_members, ends, entry_key, entry_list, equal_members, event_member, event_name, further_change, json_account, json_change, json_changes, json_entries, json_entry, key_members, nothing_member, null_members, place_members, ran_entry, reference_members, reference_reason, referenced_members, rule_members, saw_member, seen_members, skipped_entry, skipped_members, separator, side_member, side_members, violation_entry, violation_members};
ghost use Rattle.iv_machine.specs.BeforeTriggers.{event_of_change};

use crate::account::{ends_next, truth_name};
use crate::check::write_check_members;
use crate::json_action::write_actions;
use crate::json_addition::write_not_added;
use crate::json_conflict::write_conflict;
use crate::json_failure::write_failure;
use crate::json_rule::write_described;
use crate::json_standing::write_standing;
use crate::json_way::write_limit_entry;
use iv_account::{Entry, RowAction, SkippedView, TriggerView};
use iv_catalogue::{
    Catalogue, Cause, Constraint, ConstraintId, ForeignKey, Refusal, Rule, TriggerId,
};
use iv_expr::{Change, Row, StoredRow, TableId};
use iv_key::{Key, value_at};
use iv_machine::{Answer, Limits};
use iv_text::json::{
    write_borrowed, write_json_text, write_key, write_member, write_name, write_number_member,
    write_row, write_text_member, write_trigger_name,
};
use iv_text::{
    DeviceFault, Sink, column_in, depth_after, table_in, write_all, write_nothing, write_number,
};
use iv_value::{Value, ValueRef};

// ---- rows and changes

/// The name of a table.
pub(crate) fn write_table<W: Sink>(
    sink: &mut W,
    catalogue: &Catalogue,
    table: TableId,
) -> Result<(), DeviceFault>
    ensures { Writes (W.state sink.old) (W.state sink.new) result
        (json_text (table_name (slice_get catalogue.now.tables table))) }
{
    write_json_text(sink, table_in(catalogue, table).as_bytes())
}

/// The table and the number of a row.
#[tactic(auto, using(iv_text::proofs::WriteLemmas::writes_then))]
pub(crate) fn write_place<W: Sink>(
    sink: &mut W,
    catalogue: &Catalogue,
    table: TableId,
    row: u64,
) -> Result<(), DeviceFault>
    ensures { Writes (W.state sink.old) (W.state sink.new) result
        (place_members catalogue.now table row) }
{
    write_member(sink, b"table")?;
    write_table(sink, catalogue, table)?;
    write_number_member(sink, b"row", row)
}

/// A row by this name, where there is one.
#[tactic(auto, using(iv_text::proofs::WriteLemmas::writes_then))]
pub(crate) fn write_side<W: Sink>(
    sink: &mut W,
    name: &[u8],
    side: &Option<Row>,
) -> Result<(), DeviceFault>
    ensures { Writes (W.state sink.old) (W.state sink.new) result (side_member name.now side.now) }
{
    match side {
        Some(row) => {
            write_member(sink, name)?;
            write_row(sink, row.values())
        }
        None => write_nothing(sink),
    }
}

fn event_name(change: &Change) -> &'static str
    ensures { result.now ≡ event_name (event_of_change change.now) }
{
    if change.old.is_none() {
        "insert"
    } else if change.new.is_none() {
        "delete"
    } else {
        "update"
    }
}

#[tactic(auto, using(iv_text::proofs::WriteLemmas::writes_then))]
fn write_event<W: Sink>(sink: &mut W, change: &Change) -> Result<(), DeviceFault>
    ensures { Writes (W.state sink.old) (W.state sink.new) result (event_member change.now) }
{
    write_key(sink, b"event")?;
    write_json_text(sink, event_name(change).as_bytes())
}

// What the row was, and what it is.
#[tactic(auto, using(iv_text::proofs::WriteLemmas::writes_then))]
fn write_sides<W: Sink>(sink: &mut W, change: &Change) -> Result<(), DeviceFault>
    ensures { Writes (W.state sink.old) (W.state sink.new) result (side_members change.now) }
{
    write_side(sink, b"old", &change.old)?;
    write_side(sink, b"new", &change.new)
}

#[tactic(auto, using(iv_text::proofs::WriteLemmas::writes_then))]
fn write_change<W: Sink>(
    sink: &mut W,
    catalogue: &Catalogue,
    change: &Change,
) -> Result<(), DeviceFault>
    ensures { Writes (W.state sink.old) (W.state sink.new) result
        (json_change catalogue.now change.now) }
{
    write_all(sink, b"{")?;
    write_event(sink, change)?;
    write_place(sink, catalogue, change.table, change.row)?;
    write_sides(sink, change)?;
    write_all(sink, b"}")
}

#[tactic(auto, using(iv_text::proofs::WriteLemmas::writes_then))]
fn write_further_change<W: Sink>(
    sink: &mut W,
    catalogue: &Catalogue,
    change: &Change,
) -> Result<(), DeviceFault>
    ensures { Writes (W.state sink.old) (W.state sink.new) result
        (further_change catalogue.now change.now) }
{
    write_all(sink, b",")?;
    write_change(sink, catalogue, change)
}

// Further changes, each after a comma.
#[tactic(auto, using(iv_text::proofs::WriteLemmas::writes_then))]
fn write_more_changes<W: Sink>(
    sink: &mut W,
    catalogue: &Catalogue,
    changes: &[Change],
) -> Result<(), DeviceFault>
    ensures { Writes (W.state sink.old) (W.state sink.new) result
        (flat_map (further_change catalogue.now) changes.now) }
{
    let mut rest = changes;
    while let Some((change, others)) = rest.split_first() {
        write_further_change(sink, catalogue, change)?;
        rest = others;
    }
    Ok(())
}

#[tactic(auto, using(iv_text::proofs::WriteLemmas::writes_then))]
fn write_changes<W: Sink>(
    sink: &mut W,
    catalogue: &Catalogue,
    changes: &[Change],
) -> Result<(), DeviceFault>
    ensures { Writes (W.state sink.old) (W.state sink.new) result
        (json_changes catalogue.now changes.now) }
{
    match changes {
        [] => write_nothing(sink),
        [change, more @ ..] => {
            write_change(sink, catalogue, change)?;
            write_more_changes(sink, catalogue, more)
        }
    }
}

// ---- violations

/// Why a row violates a constraint.
pub(crate) fn write_because<W: Sink>(sink: &mut W, reason: &[u8]) -> Result<(), DeviceFault>
    ensures { Writes (W.state sink.old) (W.state sink.new) result (because reason.now) }
{
    write_text_member(sink, b"because", reason)
}

#[tactic(auto, using(iv_text::proofs::WriteLemmas::writes_then))]
fn write_further_borrowed<W: Sink>(sink: &mut W, value: ValueRef<'_>) -> Result<(), DeviceFault>
    ensures { Writes (W.state sink.old) (W.state sink.new) result
        (further_value (value_of value.entry)) }
{
    write_all(sink, b",")?;
    write_borrowed(sink, value)
}

// The values of further columns, each after a comma.
#[tactic(auto, using(iv_text::proofs::WriteLemmas::writes_then))]
fn write_more_columns<W: Sink>(
    sink: &mut W,
    columns: &[u32],
    row: &[Value],
) -> Result<(), DeviceFault>
    ensures { Writes (W.state sink.old) (W.state sink.new) result
        (flat_map further_value (key_of columns.now row.now)) }
{
    let mut rest = columns;
    while let Some((column, others)) = rest.split_first() {
        write_further_borrowed(sink, value_at(row, *column))?;
        rest = others;
    }
    Ok(())
}

// The values of some columns.
#[tactic(auto, using(iv_text::proofs::WriteLemmas::writes_then))]
fn write_columns<W: Sink>(sink: &mut W, columns: &[u32], row: &[Value]) -> Result<(), DeviceFault>
    ensures { Writes (W.state sink.old) (W.state sink.new) result
        (json_values (key_of columns.now row.now)) }
{
    match columns {
        [] => write_nothing(sink),
        [column, more @ ..] => {
            write_borrowed(sink, value_at(row, *column))?;
            write_more_columns(sink, more, row)
        }
    }
}

// Why the key to which a row refers doesn't do.
fn reference_reason(outcome: &Result<Answer, Refusal>) -> &'static str
    ensures { result.now ≡ reference_reason outcome.now }
{
    match outcome {
        Ok(_) => "missing_key",
        Err(refusal) => match &refusal.cause {
            Cause::Restrict(_) => "protected_key",
            Cause::ActionConflict(_) => "action_conflict",
            _ => "missing_key",
        },
    }
}

/// The table and the key to which a row of these values refers.
#[tactic(auto, using(iv_text::proofs::WriteLemmas::writes_then))]
pub(crate) fn write_referenced<W: Sink>(
    sink: &mut W,
    catalogue: &Catalogue,
    values: &[Value],
    key: &ForeignKey,
) -> Result<(), DeviceFault>
    ensures { Writes (W.state sink.old) (W.state sink.new) result
        (referenced_members catalogue.now values.now key.now) }
{
    write_member(sink, b"referenced")?;
    write_table(sink, catalogue, key.referenced)?;
    write_member(sink, b"key")?;
    write_all(sink, b"[")?;
    write_columns(sink, key.columns.as_slice(), values)?;
    write_all(sink, b"]")
}

// The key to which a row refers, and why it doesn't do.
#[tactic(auto, using(iv_text::proofs::WriteLemmas::writes_then))]
fn write_refers<W: Sink>(
    sink: &mut W,
    catalogue: &Catalogue,
    outcome: &Result<Answer, Refusal>,
    values: &[Value],
    key: &ForeignKey,
) -> Result<(), DeviceFault>
    ensures { Writes (W.state sink.old) (W.state sink.new) result
        (because (reference_reason outcome.now) ++ referenced_members catalogue.now values.now key.now) }
{
    write_because(sink, reference_reason(outcome).as_bytes())?;
    write_referenced(sink, catalogue, values, key)
}

// Why a row has no key to refer to: the key isn't there or doesn't do, or the row has some nulls in its own.
fn write_reference<W: Sink>(
    sink: &mut W,
    catalogue: &Catalogue,
    outcome: &Result<Answer, Refusal>,
    values: &[Value],
    key: &ForeignKey,
) -> Result<(), DeviceFault>
    ensures { Writes (W.state sink.old) (W.state sink.new) result
        (reference_members catalogue.now outcome.now values.now key.now) }
{
    if Key::new(key.columns.as_slice(), values).none_null() {
        write_refers(sink, catalogue, outcome, values, key)
    } else {
        write_because(sink, b"some_nulls")
    }
}

// The first other row that has the same key.
#[tactic(auto, using(iv_text::proofs::WriteLemmas::writes_then))]
fn write_equal<W: Sink>(sink: &mut W, other: &StoredRow) -> Result<(), DeviceFault>
    ensures { Writes (W.state sink.old) (W.state sink.new) result (equal_members other.now) }
{
    write_because(sink, b"equal_key")?;
    write_member(sink, b"other_row")?;
    write_number(sink, other.number)?;
    write_member(sink, b"other")?;
    write_row(sink, other.values.values())
}

// The first of the rows that have a row's key, or the null in its key.
fn write_equal_key<W: Sink>(sink: &mut W, others: &[StoredRow]) -> Result<(), DeviceFault>
    ensures { Writes (W.state sink.old) (W.state sink.new) result (key_members others.now) }
{
    match others {
        [] => write_because(sink, b"null_in_key"),
        [other, ..] => write_equal(sink, other),
    }
}

/// The name of the column at this place of a table.
pub(crate) fn write_column<W: Sink>(
    sink: &mut W,
    catalogue: &Catalogue,
    table: TableId,
    column: u64,
) -> Result<(), DeviceFault>
    ensures { Writes (W.state sink.old) (W.state sink.new) result
        (json_text (column_name_in (slice_get catalogue.now.tables table) column)) }
{
    write_json_text(sink, column_in(catalogue, table, column).as_bytes())
}

// The column that is null.
#[tactic(auto, using(iv_text::proofs::WriteLemmas::writes_then))]
fn write_null<W: Sink>(
    sink: &mut W,
    catalogue: &Catalogue,
    table: TableId,
    column: u32,
) -> Result<(), DeviceFault>
    ensures { Writes (W.state sink.old) (W.state sink.new) result
        (null_members catalogue.now table column) }
{
    write_because(sink, b"null")?;
    write_member(sink, b"column")?;
    write_column(sink, catalogue, table, u64::from(column))
}

/// What a rule finds wrong with a row.
pub(crate) fn write_rule<W: Sink>(
    sink: &mut W,
    catalogue: &Catalogue,
    outcome: &Result<Answer, Refusal>,
    row: &StoredRow,
    others: &[StoredRow],
    constraint: &Constraint,
) -> Result<(), DeviceFault>
    ensures { Writes (W.state sink.old) (W.state sink.new) result
        (rule_members catalogue.now outcome.now row.now others.now constraint.now.table
        constraint.now.rule) }
{
    match &constraint.rule {
        Rule::ForeignKey(key) => {
            write_reference(sink, catalogue, outcome, row.values.values(), key)
        }
        Rule::PrimaryKey(_) => write_equal_key(sink, others),
        Rule::Unique(_, _) => write_equal_key(sink, others),
        Rule::Check(condition) => write_check_members(
            sink,
            catalogue,
            constraint.table,
            row.values.values(),
            condition,
        ),
        Rule::NotNull(column) => write_null(sink, catalogue, constraint.table, *column),
    }
}

fn write_constraint_rule<W: Sink>(
    sink: &mut W,
    catalogue: &Catalogue,
    outcome: &Result<Answer, Refusal>,
    row: &StoredRow,
    others: &[StoredRow],
    constraint: Option<&Constraint>,
) -> Result<(), DeviceFault>
    ensures { Writes (W.state sink.old) (W.state sink.new) result
        (constraint_rule_members catalogue.now outcome.now row.now others.now
        (option_copied constraint.entry)) }
{
    match constraint {
        Some(constraint) => write_rule(sink, catalogue, outcome, row, others, constraint),
        None => write_nothing(sink),
    }
}

// The first of the rows, and what is wrong with it.
#[tactic(auto, using(iv_text::proofs::WriteLemmas::writes_then))]
fn write_violation<W: Sink>(
    sink: &mut W,
    catalogue: &Catalogue,
    outcome: &Result<Answer, Refusal>,
    constraint: ConstraintId,
    rows: &[StoredRow],
) -> Result<(), DeviceFault>
    ensures { Writes (W.state sink.old) (W.state sink.new) result
        (violation_members catalogue.now outcome.now
        (slice_get catalogue.now.constraints constraint) rows.now) }
{
    match rows {
        [] => write_nothing(sink),
        [row, others @ ..] => {
            let constraint = catalogue.constraint(constraint);
            write_place(sink, catalogue, row.table, row.number)?;
            write_member(sink, b"values")?;
            write_row(sink, row.values.values())?;
            write_constraint_rule(sink, catalogue, outcome, row, others, constraint)
        }
    }
}

// ---- entries

/// The front of an entry of this kind.
#[tactic(auto, using(iv_text::proofs::WriteLemmas::writes_then))]
pub(crate) fn write_entry_key<W: Sink>(sink: &mut W, kind: &[u8]) -> Result<(), DeviceFault>
    ensures { Writes (W.state sink.old) (W.state sink.new) result (entry_key kind.now) }
{
    write_all(sink, b"{")?;
    write_key(sink, b"entry")?;
    write_json_text(sink, kind)
}

#[tactic(auto, using(iv_text::proofs::WriteLemmas::writes_then))]
fn write_changed<W: Sink>(
    sink: &mut W,
    catalogue: &Catalogue,
    changes: &[Change],
) -> Result<(), DeviceFault>
    ensures { Writes (W.state sink.old) (W.state sink.new) result
        (changed_entry catalogue.now changes.now) }
{
    write_entry_key(sink, b"changes")?;
    write_member(sink, b"changes")?;
    write_all(sink, b"[")?;
    write_changes(sink, catalogue, changes)?;
    write_all(sink, b"]}")
}

#[tactic(auto, using(iv_text::proofs::WriteLemmas::writes_then))]
fn write_acted<W: Sink>(
    sink: &mut W,
    catalogue: &Catalogue,
    actions: &[RowAction],
) -> Result<(), DeviceFault>
    ensures { Writes (W.state sink.old) (W.state sink.new) result
        (acted_entry catalogue.now actions.now) }
{
    write_entry_key(sink, b"actions")?;
    write_member(sink, b"actions")?;
    write_all(sink, b"[")?;
    write_actions(sink, catalogue, actions)?;
    write_all(sink, b"]}")
}

// The changes of a trigger's transition tables.
#[tactic(auto, using(iv_text::proofs::WriteLemmas::writes_then))]
fn write_saw<W: Sink>(
    sink: &mut W,
    catalogue: &Catalogue,
    changes: &[Change],
) -> Result<(), DeviceFault>
    ensures { Writes (W.state sink.old) (W.state sink.new) result
        (saw_member catalogue.now changes.now) }
{
    write_member(sink, b"saw")?;
    write_all(sink, b"[")?;
    write_changes(sink, catalogue, changes)?;
    write_all(sink, b"]}")
}

// What a trigger saw.
#[tactic(auto, using(iv_text::proofs::WriteLemmas::writes_then))]
fn write_seen<W: Sink>(
    sink: &mut W,
    catalogue: &Catalogue,
    seen: &TriggerView,
) -> Result<(), DeviceFault>
    ensures { Writes (W.state sink.old) (W.state sink.new) result
        (seen_members catalogue.now seen.now) }
{
    write_side(sink, b"old", &seen.old)?;
    write_side(sink, b"new", &seen.new)?;
    write_saw(sink, catalogue, seen.transition.as_slice())
}

// A trigger and what it saw.
#[tactic(auto, using(iv_text::proofs::WriteLemmas::writes_then))]
fn write_ran<W: Sink>(
    sink: &mut W,
    catalogue: &Catalogue,
    id: TriggerId,
    seen: &TriggerView,
) -> Result<(), DeviceFault>
    ensures { Writes (W.state sink.old) (W.state sink.new) result
        (ran_entry catalogue.now id seen.now) }
{
    write_entry_key(sink, b"trigger")?;
    write_member(sink, b"trigger")?;
    write_trigger_name(sink, catalogue, id)?;
    write_seen(sink, catalogue, seen)
}

// What a trigger saw that is skipped, and the truth of its WHEN.
#[tactic(auto, using(iv_text::proofs::WriteLemmas::writes_then))]
fn write_skipped_view<W: Sink>(sink: &mut W, seen: &SkippedView) -> Result<(), DeviceFault>
    ensures { Writes (W.state sink.old) (W.state sink.new) result (skipped_members seen.now) }
{
    write_side(sink, b"old", &seen.old)?;
    write_side(sink, b"new", &seen.new)?;
    write_text_member(sink, b"when", truth_name(seen.when).as_bytes())?;
    write_all(sink, b"}")
}

// A trigger that is skipped.
#[tactic(auto, using(iv_text::proofs::WriteLemmas::writes_then))]
fn write_skipped<W: Sink>(
    sink: &mut W,
    catalogue: &Catalogue,
    id: TriggerId,
    seen: &SkippedView,
) -> Result<(), DeviceFault>
    ensures { Writes (W.state sink.old) (W.state sink.new) result
        (skipped_entry catalogue.now id seen.now) }
{
    write_entry_key(sink, b"skipped")?;
    write_member(sink, b"trigger")?;
    write_trigger_name(sink, catalogue, id)?;
    write_skipped_view(sink, seen)
}

#[tactic(auto, using(iv_text::proofs::WriteLemmas::writes_then))]
fn write_changes_nothing<W: Sink>(sink: &mut W) -> Result<(), DeviceFault>
    ensures { Writes (W.state sink.old) (W.state sink.new) result changes_nothing }
{
    write_member(sink, b"changes_nothing")?;
    write_all(sink, b"true")
}

fn write_if_nothing<W: Sink>(sink: &mut W, nothing: bool) -> Result<(), DeviceFault>
    ensures { Writes (W.state sink.old) (W.state sink.new) result (nothing_member nothing) }
{
    if nothing {
        write_changes_nothing(sink)
    } else {
        write_nothing(sink)
    }
}

// A nested statement, up to the array of its entries.
#[tactic(auto, using(iv_text::proofs::WriteLemmas::writes_then))]
fn write_began<W: Sink>(sink: &mut W, place: u32, nothing: bool) -> Result<(), DeviceFault>
    ensures { Writes (W.state sink.old) (W.state sink.new) result (began_entry place nothing) }
{
    write_entry_key(sink, b"statement")?;
    write_member(sink, b"number")?;
    write_number(sink, u64::from(place))?;
    write_if_nothing(sink, nothing)?;
    write_member(sink, b"account")?;
    write_all(sink, b"[")
}

#[tactic(auto, using(iv_text::proofs::WriteLemmas::writes_then))]
fn write_faulted<W: Sink>(
    sink: &mut W,
    catalogue: &Catalogue,
    outcome: &Result<Answer, Refusal>,
    constraint: ConstraintId,
    rows: &[StoredRow],
) -> Result<(), DeviceFault>
    ensures { Writes (W.state sink.old) (W.state sink.new) result
        (violation_entry catalogue.now outcome.now constraint rows.now) }
{
    write_entry_key(sink, b"violation")?;
    write_described(sink, catalogue, constraint)?;
    write_violation(sink, catalogue, outcome, constraint, rows)?;
    write_all(sink, b"}")
}

// An entry, before these further entries.
fn write_entry<W: Sink>(
    sink: &mut W,
    catalogue: &Catalogue,
    outcome: &Result<Answer, Refusal>,
    entry: &Entry,
    further: &[Entry],
) -> Result<(), DeviceFault>
    ensures { Writes (W.state sink.old) (W.state sink.new) result
        (json_entry catalogue.now outcome.now entry.now further.now) }
{
    match entry {
        Entry::Changed(changes) => write_changed(sink, catalogue, changes.as_slice()),
        Entry::Acted(actions) => write_acted(sink, catalogue, actions.as_slice()),
        Entry::Ran(id, seen) => write_ran(sink, catalogue, *id, seen),
        Entry::Skipped(id, seen) => write_skipped(sink, catalogue, *id, seen),
        Entry::Began(place) => write_began(sink, *place, ends_next(further)),
        Entry::Ended => write_all(sink, b"]}"),
        Entry::Faulted(fault, rows) => {
            write_faulted(sink, catalogue, outcome, fault.constraint, rows.as_slice())
        }
        Entry::Disagreed(fault, rows, how) => {
            write_conflict(sink, catalogue, fault.constraint, rows.as_slice(), how)
        }
        Entry::Failed(failed) => write_failure(sink, catalogue, failed),
        Entry::Standing(names) => write_standing(sink, names.as_slice()),
        Entry::NotAdded(constraint, rows) => {
            write_not_added(sink, catalogue, outcome, constraint, rows.as_slice())
        }
    }
}

// What stands between an entry and what is before it.
fn separator(first: bool, entry: &Entry) -> &'static [u8]
    ensures { result.now ≡ separator first entry.now }
{
    if first {
        return b"";
    }
    match entry {
        Entry::Ended => b"",
        _ => b",",
    }
}

#[tactic(auto, using(iv_text::proofs::WriteLemmas::writes_then))]
fn write_separated<W: Sink>(
    sink: &mut W,
    catalogue: &Catalogue,
    outcome: &Result<Answer, Refusal>,
    first: bool,
    entry: &Entry,
    further: &[Entry],
) -> Result<(), DeviceFault>
    ensures { Writes (W.state sink.old) (W.state sink.new) result
        (separator first entry.now ++ json_entry catalogue.now outcome.now entry.now further.now) }
{
    write_all(sink, separator(first, entry))?;
    write_entry(sink, catalogue, outcome, entry, further)
}

// Whether the next entry is the first of its array.
fn begins(entry: &Entry) -> bool
    ensures { result ≡ begins entry.now }
{
    matches!(entry, Entry::Began(_))
}

// The ends of so many statements.
#[tactic(auto, using(iv_text::proofs::WriteLemmas::writes_then))]
fn write_ends<W: Sink>(sink: &mut W, depth: usize) -> Result<(), DeviceFault>
    ensures { Writes (W.state sink.old) (W.state sink.new) result (ends depth) }
{
    let mut left = depth;
    while left > 0 {
        write_all(sink, b"]}")?;
        left -= 1;
    }
    Ok(())
}

#[tactic(auto, using(iv_text::proofs::WriteLemmas::writes_then))]
fn write_entries<W: Sink>(
    sink: &mut W,
    catalogue: &Catalogue,
    outcome: &Result<Answer, Refusal>,
    entries: &[Entry],
) -> Result<(), DeviceFault>
    ensures { Writes (W.state sink.old) (W.state sink.new) result
        (json_entries catalogue.now outcome.now 0 true entries.now) }
{
    let mut rest = entries;
    let mut depth = 0usize;
    let mut first = true;
    while let Some((entry, others)) = rest.split_first() {
        write_separated(sink, catalogue, outcome, first, entry, others)?;
        depth = depth_after(depth, entry);
        first = begins(entry);
        rest = others;
    }
    write_ends(sink, depth)
}

/// Entries in an array, with no entry of a limit behind them.
#[tactic(auto, using(iv_text::proofs::WriteLemmas::writes_then))]
pub(crate) fn write_entry_list<W: Sink>(
    sink: &mut W,
    catalogue: &Catalogue,
    outcome: &Result<Answer, Refusal>,
    listed: &[Entry],
) -> Result<(), DeviceFault>
    ensures { Writes (W.state sink.old) (W.state sink.new) result
        (entry_list catalogue.now outcome.now listed.now) }
{
    write_all(sink, b"[")?;
    write_entries(sink, catalogue, outcome, listed)?;
    write_all(sink, b"]")
}

/// Writes the account of a statement with this outcome, in a session with these limits, as a JSON array, with the names
/// of tables, columns, constraints and triggers as the catalogue has them. The entries of a nested statement are an array
/// in the entry with which it begins. It takes no memory.
#[tactic(auto, using(iv_text::proofs::WriteLemmas::writes_then))]
pub fn write_json_account<W: Sink>(
    sink: &mut W,
    catalogue: &Catalogue,
    limits: Limits,
    outcome: &Result<Answer, Refusal>,
    entries: &[Entry],
) -> Result<(), DeviceFault>
    ensures { Writes (W.state sink.old) (W.state sink.new) result
        (json_account catalogue.now limits outcome.now entries.now) }
{
    write_all(sink, b"[")?;
    write_entries(sink, catalogue, outcome, entries)?;
    write_limit_entry(sink, catalogue, limits, entries, outcome)?;
    write_all(sink, b"]")
}
