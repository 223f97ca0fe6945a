//! The text of an account.
ghost use Rattle.std.specs.Prelude.{◌≡◌, ◌++◌, slice_get};
ghost use Rattle.std.specs.List.{flat_map};
ghost use Rattle.std.specs.Option.{option_copied};
ghost use Rattle.iv_value.specs.References.{value_of};
ghost use Rattle.iv_key.specs.Keys.{key_of};
ghost use Rattle.iv_machine.specs.BeforeTriggers.{event_of_change};
ghost use Rattle.iv_text.specs.Writing.{Writes};
ghost use Rattle.iv_text.specs.Lines.{value_text, further_text, values_text};
ghost use Rattle.iv_print.specs.AccountLines.{spaces, indent, table_name, column_name_in, numbered_text, listed_text, side_text, verb, sides_text, change_text, change_line, change_lines, action_words, action_line, action_lines, asked_text, ran_lines, truth_name, skipped_line, nothing_text, began_line, reference_words_of, referenced_text, reference_text, equal_text, key_text, null_text, rule_text, constraint_rule_text, fault_rows_text, fault_line, ends_next, entry_text, entries_text, account_text};

use crate::addition::write_not_added;
use crate::check::write_check;
use crate::conflict::write_conflict;
use crate::failure::write_failure;
use crate::standing::write_standing;
use iv_account::{Entry, RowAction, SkippedView, TriggerView};
use iv_catalogue::{
    Catalogue, Cause, Constraint, ConstraintId, ForeignKey, Refusal, Rule, TriggerId,
};
use iv_expr::{Change, Row, StoredRow, TableId};
use iv_key::{Key, value_at};
use iv_machine::{Answer, Limits};
use iv_syntax::ReferentialAction;
use iv_text::{
    DeviceFault, Sink, column_in, depth_after, table_in, write_all, write_borrowed,
    write_described, write_limit_line, write_name, write_nothing, write_number, write_row_number,
    write_trigger, write_values,
};
use iv_value::{Truth, Value, ValueRef};

#[tactic(auto, using(iv_text::proofs::WriteLemmas::writes_then))]
fn write_spaces<W: Sink>(sink: &mut W, depth: usize) -> Result<(), DeviceFault>
    ensures { Writes (W.state sink.old) (W.state sink.new) result (spaces depth) }
{
    let mut left = depth;
    while left > 0 {
        write_all(sink, b"  ")?;
        left -= 1;
    }
    Ok(())
}

/// The front of a line.
#[tactic(auto, using(iv_text::proofs::WriteLemmas::writes_then))]
pub(crate) fn write_indent<W: Sink>(sink: &mut W, depth: usize) -> Result<(), DeviceFault>
    ensures { Writes (W.state sink.old) (W.state sink.new) result (indent depth) }
{
    write_all(sink, b"  ")?;
    write_spaces(sink, depth)
}

/// The name of a table.
pub(crate) fn write_table<W: Sink>(
    sink: &mut W,
    catalogue: &Catalogue,
    table: TableId,
) -> Result<(), DeviceFault>
    ensures { Writes (W.state sink.old) (W.state sink.new) result
        (table_name (slice_get catalogue.now.tables table)) }
{
    write_all(sink, table_in(catalogue, table).as_bytes())
}

/// The name of the column at this place of a table.
pub(crate) fn write_column<W: Sink>(
    sink: &mut W,
    catalogue: &Catalogue,
    table: TableId,
    column: u64,
) -> Result<(), DeviceFault>
    ensures { Writes (W.state sink.old) (W.state sink.new) result
        (column_name_in (slice_get catalogue.now.tables table) column) }
{
    write_all(sink, column_in(catalogue, table, column).as_bytes())
}

/// A table and the number of a row of it.
#[tactic(auto, using(iv_text::proofs::WriteLemmas::writes_then))]
pub(crate) fn write_numbered<W: Sink>(
    sink: &mut W,
    catalogue: &Catalogue,
    table: TableId,
    row: u64,
) -> Result<(), DeviceFault>
    ensures { Writes (W.state sink.old) (W.state sink.new) result
        (numbered_text catalogue.now table row) }
{
    write_table(sink, catalogue, table)?;
    write_row_number(sink, row)
}

/// Values in parentheses.
#[tactic(auto, using(iv_text::proofs::WriteLemmas::writes_then))]
pub(crate) fn write_listed<W: Sink>(sink: &mut W, values: &[Value]) -> Result<(), DeviceFault>
    ensures { Writes (W.state sink.old) (W.state sink.new) result (listed_text values.now) }
{
    write_all(sink, b" (")?;
    write_values(sink, values)?;
    write_all(sink, b")")
}

/// A row after these words, where there is one.
#[tactic(auto, using(iv_text::proofs::WriteLemmas::writes_then))]
pub(crate) fn write_side<W: Sink>(
    sink: &mut W,
    words: &[u8],
    side: &Option<Row>,
) -> Result<(), DeviceFault>
    ensures { Writes (W.state sink.old) (W.state sink.new) result (side_text words.now side.now) }
{
    match side {
        Some(row) => {
            write_all(sink, words)?;
            write_listed(sink, row.values())
        }
        None => write_nothing(sink),
    }
}

fn verb(change: &Change) -> &'static str
    ensures { result.now ≡ verb (event_of_change change.now) }
{
    if change.old.is_none() {
        "insert "
    } else if change.new.is_none() {
        "delete "
    } else {
        "update "
    }
}

// What the row was and is.
#[tactic(auto, using(iv_text::proofs::WriteLemmas::writes_then))]
fn write_sides<W: Sink>(
    sink: &mut W,
    old: &Option<Row>,
    new: &Option<Row>,
) -> Result<(), DeviceFault>
    ensures { Writes (W.state sink.old) (W.state sink.new) result (sides_text old.now new.now) }
{
    match old {
        None => write_side(sink, b"", new),
        Some(old) => {
            write_listed(sink, old.values())?;
            write_side(sink, b" to", new)
        }
    }
}

#[tactic(auto, using(iv_text::proofs::WriteLemmas::writes_then))]
fn write_change<W: Sink>(
    sink: &mut W,
    catalogue: &Catalogue,
    change: &Change,
) -> Result<(), DeviceFault>
    ensures { Writes (W.state sink.old) (W.state sink.new) result
        (change_text catalogue.now change.now) }
{
    write_all(sink, verb(change).as_bytes())?;
    write_numbered(sink, catalogue, change.table, change.row)?;
    write_sides(sink, &change.old, &change.new)
}

// The line of a change after these words.
#[tactic(auto, using(iv_text::proofs::WriteLemmas::writes_then))]
fn write_change_line<W: Sink>(
    sink: &mut W,
    catalogue: &Catalogue,
    depth: usize,
    words: &[u8],
    change: &Change,
) -> Result<(), DeviceFault>
    ensures { Writes (W.state sink.old) (W.state sink.new) result
        (change_line catalogue.now depth words.now change.now) }
{
    write_indent(sink, depth)?;
    write_all(sink, words)?;
    write_change(sink, catalogue, change)?;
    write_all(sink, b"\n")
}

// A line for each of the changes.
#[tactic(auto, using(iv_text::proofs::WriteLemmas::writes_then))]
fn write_changes<W: Sink>(
    sink: &mut W,
    catalogue: &Catalogue,
    depth: usize,
    words: &[u8],
    changes: &[Change],
) -> Result<(), DeviceFault>
    ensures { Writes (W.state sink.old) (W.state sink.new) result
        (change_lines catalogue.now depth words.now changes.now) }
{
    let mut rest = changes;
    while let Some((change, others)) = rest.split_first() {
        write_change_line(sink, catalogue, depth, words, change)?;
        rest = others;
    }
    Ok(())
}

fn action_words(action: ReferentialAction) -> &'static str
    ensures { result.now ≡ action_words action }
{
    match action {
        ReferentialAction::NoAction => " NO ACTION on ",
        ReferentialAction::Restrict => " RESTRICT on ",
        ReferentialAction::Cascade => " CASCADE on ",
        ReferentialAction::SetNull => " SET NULL on ",
        ReferentialAction::SetDefault => " SET DEFAULT on ",
    }
}

#[tactic(auto, using(iv_text::proofs::WriteLemmas::writes_then))]
fn write_action<W: Sink>(
    sink: &mut W,
    catalogue: &Catalogue,
    depth: usize,
    acted: &RowAction,
) -> Result<(), DeviceFault>
    ensures { Writes (W.state sink.old) (W.state sink.new) result
        (action_line catalogue.now depth acted.now) }
{
    write_indent(sink, depth)?;
    write_name(sink, catalogue.constraints(), acted.constraint)?;
    write_all(sink, action_words(acted.action).as_bytes())?;
    write_numbered(sink, catalogue, acted.table, acted.row)?;
    write_all(sink, b"\n")
}

// A line for each of the actions.
#[tactic(auto, using(iv_text::proofs::WriteLemmas::writes_then))]
fn write_actions<W: Sink>(
    sink: &mut W,
    catalogue: &Catalogue,
    depth: usize,
    actions: &[RowAction],
) -> Result<(), DeviceFault>
    ensures { Writes (W.state sink.old) (W.state sink.new) result
        (action_lines catalogue.now depth actions.now) }
{
    let mut rest = actions;
    while let Some((acted, others)) = rest.split_first() {
        write_action(sink, catalogue, depth, acted)?;
        rest = others;
    }
    Ok(())
}

// A trigger with the rows that it saw.
#[tactic(auto, using(iv_text::proofs::WriteLemmas::writes_then))]
fn write_asked<W: Sink>(
    sink: &mut W,
    catalogue: &Catalogue,
    depth: usize,
    id: TriggerId,
    old: &Option<Row>,
    new: &Option<Row>,
) -> Result<(), DeviceFault>
    ensures { Writes (W.state sink.old) (W.state sink.new) result
        (asked_text catalogue.now depth id old.now new.now) }
{
    write_indent(sink, depth)?;
    write_all(sink, b"trigger")?;
    write_trigger(sink, catalogue, id)?;
    write_side(sink, b" OLD", old)?;
    write_side(sink, b" NEW", new)
}

// A trigger that runs, and what it saw.
#[tactic(auto, using(iv_text::proofs::WriteLemmas::writes_then))]
fn write_ran<W: Sink>(
    sink: &mut W,
    catalogue: &Catalogue,
    depth: usize,
    id: TriggerId,
    seen: &TriggerView,
) -> Result<(), DeviceFault>
    ensures { Writes (W.state sink.old) (W.state sink.new) result
        (ran_lines catalogue.now depth id seen.now) }
{
    write_asked(sink, catalogue, depth, id, &seen.old, &seen.new)?;
    write_all(sink, b"\n")?;
    write_changes(
        sink,
        catalogue,
        depth,
        b"  saw ",
        seen.transition.as_slice(),
    )
}

/// The name of a truth.
pub(crate) fn truth_name(truth: Truth) -> &'static str
    ensures { result.now ≡ truth_name truth }
{
    match truth {
        Truth::False => "false",
        Truth::Unknown => "unknown",
        Truth::True => "true",
    }
}

// A trigger that is skipped, what it saw, and why.
#[tactic(auto, using(iv_text::proofs::WriteLemmas::writes_then))]
fn write_skipped<W: Sink>(
    sink: &mut W,
    catalogue: &Catalogue,
    depth: usize,
    id: TriggerId,
    seen: &SkippedView,
) -> Result<(), DeviceFault>
    ensures { Writes (W.state sink.old) (W.state sink.new) result
        (skipped_line catalogue.now depth id seen.now) }
{
    write_asked(sink, catalogue, depth, id, &seen.old, &seen.new)?;
    write_all(sink, b" skipped: WHEN is ")?;
    write_all(sink, truth_name(seen.when).as_bytes())?;
    write_all(sink, b"\n")
}

fn nothing_text(nothing: bool) -> &'static str
    ensures { result.now ≡ nothing_text nothing }
{
    if nothing { " changes nothing" } else { "" }
}

#[tactic(auto, using(iv_text::proofs::WriteLemmas::writes_then))]
fn write_began<W: Sink>(
    sink: &mut W,
    depth: usize,
    place: u32,
    nothing: bool,
) -> Result<(), DeviceFault>
    ensures { Writes (W.state sink.old) (W.state sink.new) result (began_line depth place nothing) }
{
    write_indent(sink, depth)?;
    write_all(sink, b"statement ")?;
    write_number(sink, u64::from(place))?;
    write_all(sink, nothing_text(nothing).as_bytes())?;
    write_all(sink, b"\n")
}

#[tactic(auto, using(iv_text::proofs::WriteLemmas::writes_then))]
fn write_further_borrowed<W: Sink>(sink: &mut W, value: ValueRef<'_>) -> Result<(), DeviceFault>
    ensures { Writes (W.state sink.old) (W.state sink.new) result
        (further_text (value_of value.entry)) }
{
    write_all(sink, b", ")?;
    write_borrowed(sink, value)
}

// The values of further columns, each with its comma.
#[tactic(auto, using(iv_text::proofs::WriteLemmas::writes_then))]
fn write_more_columns<W: Sink>(
    sink: &mut W,
    columns: &[u32],
    row: &[Value],
) -> Result<(), DeviceFault>
    ensures { Writes (W.state sink.old) (W.state sink.new) result
        (flat_map further_text (key_of columns.now row.now)) }
{
    let mut rest = columns;
    while let Some((column, others)) = rest.split_first() {
        write_further_borrowed(sink, value_at(row, *column))?;
        rest = others;
    }
    Ok(())
}

// The values of some columns.
#[tactic(auto, using(iv_text::proofs::WriteLemmas::writes_then))]
fn write_columns<W: Sink>(sink: &mut W, columns: &[u32], row: &[Value]) -> Result<(), DeviceFault>
    ensures { Writes (W.state sink.old) (W.state sink.new) result
        (values_text (key_of columns.now row.now)) }
{
    match columns {
        [] => write_nothing(sink),
        [column, more @ ..] => {
            write_borrowed(sink, value_at(row, *column))?;
            write_more_columns(sink, more, row)
        }
    }
}

#[tactic(auto, using(iv_text::proofs::WriteLemmas::writes_then))]
fn write_listed_columns<W: Sink>(
    sink: &mut W,
    columns: &[u32],
    row: &[Value],
) -> Result<(), DeviceFault>
    ensures { Writes (W.state sink.old) (W.state sink.new) result
        (listed_text (key_of columns.now row.now)) }
{
    write_all(sink, b" (")?;
    write_columns(sink, columns, row)?;
    write_all(sink, b")")
}

// Why the key to which a row refers doesn't do.
fn reference_words(outcome: &Result<Answer, Refusal>) -> &'static str
    ensures { result.now ≡ reference_words_of outcome.now }
{
    match outcome {
        Ok(_) => ", which isn't there",
        Err(refusal) => match &refusal.cause {
            Cause::Restrict(_) => ", which RESTRICT protects",
            Cause::ActionConflict(_) => ", and another foreign key sets a column otherwise",
            _ => ", which isn't there",
        },
    }
}

/// The table and the key to which a row of these values refers.
#[tactic(auto, using(iv_text::proofs::WriteLemmas::writes_then))]
pub(crate) fn write_referenced<W: Sink>(
    sink: &mut W,
    catalogue: &Catalogue,
    values: &[Value],
    key: &ForeignKey,
) -> Result<(), DeviceFault>
    ensures { Writes (W.state sink.old) (W.state sink.new) result
        (referenced_text catalogue.now values.now key.now) }
{
    write_all(sink, b" refers to ")?;
    write_table(sink, catalogue, key.referenced)?;
    write_listed_columns(sink, key.columns.as_slice(), values)
}

// The key to which a row refers, and why it doesn't do.
#[tactic(auto, using(iv_text::proofs::WriteLemmas::writes_then))]
fn write_refers<W: Sink>(
    sink: &mut W,
    catalogue: &Catalogue,
    outcome: &Result<Answer, Refusal>,
    values: &[Value],
    key: &ForeignKey,
) -> Result<(), DeviceFault>
    ensures { Writes (W.state sink.old) (W.state sink.new) result
        (referenced_text catalogue.now values.now key.now ++ reference_words_of outcome.now) }
{
    write_referenced(sink, catalogue, values, key)?;
    write_all(sink, reference_words(outcome).as_bytes())
}

// Why a row has no key to refer to: the key isn't there or doesn't do, or the row has some nulls in its own.
fn write_reference<W: Sink>(
    sink: &mut W,
    catalogue: &Catalogue,
    outcome: &Result<Answer, Refusal>,
    values: &[Value],
    key: &ForeignKey,
) -> Result<(), DeviceFault>
    ensures { Writes (W.state sink.old) (W.state sink.new) result
        (reference_text catalogue.now outcome.now values.now key.now) }
{
    if Key::new(key.columns.as_slice(), values).none_null() {
        write_refers(sink, catalogue, outcome, values, key)
    } else {
        write_all(sink, b" has some nulls in its key")
    }
}

// The row whose key another has.
#[tactic(auto, using(iv_text::proofs::WriteLemmas::writes_then))]
fn write_equal<W: Sink>(sink: &mut W, other: &StoredRow) -> Result<(), DeviceFault>
    ensures { Writes (W.state sink.old) (W.state sink.new) result (equal_text other.now) }
{
    write_all(sink, b" has the key of")?;
    write_row_number(sink, other.number)?;
    write_listed(sink, other.values.values())
}

// The first of the rows that have a row's key, or the null in its key.
fn write_key<W: Sink>(sink: &mut W, others: &[StoredRow]) -> Result<(), DeviceFault>
    ensures { Writes (W.state sink.old) (W.state sink.new) result (key_text others.now) }
{
    match others {
        [] => write_all(sink, b" has a null in its key"),
        [other, ..] => write_equal(sink, other),
    }
}

// The column that is null.
#[tactic(auto, using(iv_text::proofs::WriteLemmas::writes_then))]
fn write_null<W: Sink>(
    sink: &mut W,
    catalogue: &Catalogue,
    table: TableId,
    column: u32,
) -> Result<(), DeviceFault>
    ensures { Writes (W.state sink.old) (W.state sink.new) result
        (null_text catalogue.now table column) }
{
    write_all(sink, b" has NULL in ")?;
    write_column(sink, catalogue, table, u64::from(column))
}

/// What a rule finds wrong with a row.
pub(crate) fn write_rule<W: Sink>(
    sink: &mut W,
    catalogue: &Catalogue,
    outcome: &Result<Answer, Refusal>,
    row: &StoredRow,
    others: &[StoredRow],
    constraint: &Constraint,
) -> Result<(), DeviceFault>
    ensures { Writes (W.state sink.old) (W.state sink.new) result
        (rule_text catalogue.now outcome.now row.now others.now constraint.now.table
        constraint.now.rule) }
{
    match &constraint.rule {
        Rule::ForeignKey(key) => {
            write_reference(sink, catalogue, outcome, row.values.values(), key)
        }
        Rule::PrimaryKey(_) => write_key(sink, others),
        Rule::Unique(_, _) => write_key(sink, others),
        Rule::Check(condition) => write_check(
            sink,
            catalogue,
            constraint.table,
            row.values.values(),
            condition,
        ),
        Rule::NotNull(column) => write_null(sink, catalogue, constraint.table, *column),
    }
}

fn write_constraint_rule<W: Sink>(
    sink: &mut W,
    catalogue: &Catalogue,
    outcome: &Result<Answer, Refusal>,
    row: &StoredRow,
    others: &[StoredRow],
    constraint: Option<&Constraint>,
) -> Result<(), DeviceFault>
    ensures { Writes (W.state sink.old) (W.state sink.new) result
        (constraint_rule_text catalogue.now outcome.now row.now others.now
        (option_copied constraint.entry)) }
{
    match constraint {
        Some(constraint) => write_rule(sink, catalogue, outcome, row, others, constraint),
        None => write_nothing(sink),
    }
}

// The first of the rows, and what is wrong with it.
#[tactic(auto, using(iv_text::proofs::WriteLemmas::writes_then))]
pub(crate) fn write_fault_rows<W: Sink>(
    sink: &mut W,
    catalogue: &Catalogue,
    outcome: &Result<Answer, Refusal>,
    constraint: ConstraintId,
    rows: &[StoredRow],
) -> Result<(), DeviceFault>
    ensures { Writes (W.state sink.old) (W.state sink.new) result
        (fault_rows_text catalogue.now outcome.now
        (slice_get catalogue.now.constraints constraint) rows.now) }
{
    match rows {
        [] => write_nothing(sink),
        [row, others @ ..] => {
            let constraint = catalogue.constraint(constraint);
            write_numbered(sink, catalogue, row.table, row.number)?;
            write_listed(sink, row.values.values())?;
            write_constraint_rule(sink, catalogue, outcome, row, others, constraint)
        }
    }
}

#[tactic(auto, using(iv_text::proofs::WriteLemmas::writes_then))]
fn write_fault<W: Sink>(
    sink: &mut W,
    catalogue: &Catalogue,
    outcome: &Result<Answer, Refusal>,
    depth: usize,
    constraint: ConstraintId,
    rows: &[StoredRow],
) -> Result<(), DeviceFault>
    ensures { Writes (W.state sink.old) (W.state sink.new) result
        (fault_line catalogue.now outcome.now depth constraint rows.now) }
{
    write_indent(sink, depth)?;
    write_described(sink, catalogue, constraint)?;
    write_all(sink, b": ")?;
    write_fault_rows(sink, catalogue, outcome, constraint, rows)?;
    write_all(sink, b"\n")
}

/// Whether the next of these entries is an end.
pub(crate) fn ends_next(entries: &[Entry]) -> bool
    ensures { result ≡ ends_next entries.now }
{
    match entries {
        [] => false,
        [entry, ..] => matches!(entry, Entry::Ended),
    }
}

// The lines of an entry, before these further entries.
fn write_entry<W: Sink>(
    sink: &mut W,
    catalogue: &Catalogue,
    outcome: &Result<Answer, Refusal>,
    depth: usize,
    entry: &Entry,
    further: &[Entry],
) -> Result<(), DeviceFault>
    ensures { Writes (W.state sink.old) (W.state sink.new) result
        (entry_text catalogue.now outcome.now depth entry.now further.now) }
{
    match entry {
        Entry::Changed(changes) => write_changes(sink, catalogue, depth, b"", changes.as_slice()),
        Entry::Acted(actions) => write_actions(sink, catalogue, depth, actions.as_slice()),
        Entry::Ran(id, seen) => write_ran(sink, catalogue, depth, *id, seen),
        Entry::Skipped(id, seen) => write_skipped(sink, catalogue, depth, *id, seen),
        Entry::Began(place) => write_began(sink, depth, *place, ends_next(further)),
        Entry::Ended => write_nothing(sink),
        Entry::Faulted(fault, rows) => write_fault(
            sink,
            catalogue,
            outcome,
            depth,
            fault.constraint,
            rows.as_slice(),
        ),
        Entry::Disagreed(fault, rows, how) => write_conflict(
            sink,
            catalogue,
            depth,
            fault.constraint,
            rows.as_slice(),
            how,
        ),
        Entry::Failed(failed) => write_failure(sink, catalogue, depth, failed),
        Entry::Standing(names) => write_standing(sink, depth, names.as_slice()),
        Entry::NotAdded(constraint, rows) => {
            write_not_added(sink, catalogue, outcome, depth, constraint, rows.as_slice())
        }
    }
}

// The lines of the entries.
#[tactic(auto, using(iv_text::proofs::WriteLemmas::writes_then))]
fn write_entries<W: Sink>(
    sink: &mut W,
    catalogue: &Catalogue,
    outcome: &Result<Answer, Refusal>,
    entries: &[Entry],
) -> Result<(), DeviceFault>
    ensures { Writes (W.state sink.old) (W.state sink.new) result
        (entries_text catalogue.now outcome.now 0 entries.now) }
{
    let mut rest = entries;
    let mut depth = 0usize;
    while let Some((entry, others)) = rest.split_first() {
        write_entry(sink, catalogue, outcome, depth, entry, others)?;
        depth = depth_after(depth, entry);
        rest = others;
    }
    Ok(())
}

/// Writes the lines of the account of a statement with this outcome, in a session with these limits, with the names of
/// tables, columns, constraints and triggers as the catalogue has them. It takes no memory.
#[tactic(auto, using(iv_text::proofs::WriteLemmas::writes_then))]
pub fn write_account<W: Sink>(
    sink: &mut W,
    catalogue: &Catalogue,
    limits: Limits,
    outcome: &Result<Answer, Refusal>,
    entries: &[Entry],
) -> Result<(), DeviceFault>
    ensures { Writes (W.state sink.old) (W.state sink.new) result
        (account_text catalogue.now limits outcome.now entries.now) }
{
    write_entries(sink, catalogue, outcome, entries)?;
    write_limit_line(sink, catalogue, limits, entries, outcome)
}
