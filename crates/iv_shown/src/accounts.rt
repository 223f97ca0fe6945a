//! The account of the last statement, entry by entry.
ghost use Rattle.std.specs.Prelude.{◌≡◌, ◌≢◌, length, slice_get, IfSome, Some, None, option_and_then, option_copied, option_map, is_some};
ghost use Rattle.iv_shown.specs.Accounts.{change_shown, change_side, disagreement_at, disagreement_shown, entry_name, entry_shown, entry_trigger, flag, hand_item, hand_row, hand_side, how_in, item_at, item_shown, item_value, item_values, name_at_entry, row_action_shown, seen_value, seen_values, set_on, set_value, side_of, stored_shown, trigger_at_entry, unknown_flag, when_of};
ghost use Rattle.iv_shown.specs.Copying.{Copies};
ghost use Rattle.iv_shown.specs.Cells.{text_of, cell_of};
ghost use Rattle.iv_shown.specs.Statuses.{found};
ghost use Rattle.iv_shown.specs.Texts.{trigger_named};

use crate::cell::{Cell, cell_of, text_of};
use crate::connection::Connection;
use crate::constraints::action_number;
use crate::copying::copied;
use crate::status::{NOTHING, OK};
use crate::texts::trigger_named;
use iv_account::{
    Disagreement, Entry, EvaluatedFor, FailedEvaluation, RowAction, RowAtHand, SkippedView,
    TriggerView,
};
use iv_catalogue::{Catalogue, Fault, TriggerId};
use iv_expr::{Change, Row, StoredRow};
use iv_syntax::Name;
use iv_value::{Truth, Value};

/// An entry in numbers, as `include/sqlkeep.h` names them.
#[repr(C)]
#[derive(Drop)]
pub struct ShownEntry {
    pub kind: u32,
    pub statement: u32,
    pub constraint: u32,
    pub has_old: u32,
    pub has_new: u32,
    pub is_unknown: u32,
    pub items: u64,
    pub row: u64,
}

/// An item of an entry in numbers, as `include/sqlkeep.h` names them.
#[repr(C)]
#[derive(Drop)]
pub struct ShownItem {
    pub table: u32,
    pub constraint: u32,
    pub action: u32,
    pub has_old: u32,
    pub has_new: u32,
    pub row: u64,
}

/// How two foreign keys disagree, in numbers, as `include/sqlkeep.h` names them.
#[repr(C)]
#[derive(Drop)]
pub struct ShownDisagreement {
    pub earlier: u32,
    pub column: u32,
    pub earlier_value: Cell,
    pub value: Cell,
}

fn flag(is_so: bool) -> u32
    ensures { result ≡ flag is_so }
{
    if is_so { 1 } else { 0 }
}

fn ran_shown(seen: &TriggerView) -> ShownEntry
    ensures { result ≡ record {
      kind = 2;
      statement = 0;
      constraint = 0;
      has_old = flag (is_some seen.now.old);
      has_new = flag (is_some seen.now.new);
      is_unknown = 0;
      items = length seen.now.transition;
      row = 0;
    } }
{
    ShownEntry {
        kind: 2,
        statement: 0,
        constraint: 0,
        has_old: flag(seen.old.is_some()),
        has_new: flag(seen.new.is_some()),
        is_unknown: 0,
        items: seen.transition.len() as u64,
        row: 0,
    }
}

fn unknown_flag(when: Truth) -> u32
    ensures { result ≡ unknown_flag when }
{
    match when {
        Truth::Unknown => 1,
        _ => 0,
    }
}

fn skipped_shown(seen: &SkippedView) -> ShownEntry
    ensures { result ≡ record {
      kind = 6;
      statement = 0;
      constraint = 0;
      has_old = flag (is_some seen.now.old);
      has_new = flag (is_some seen.now.new);
      is_unknown = unknown_flag seen.now.when;
      items = 0;
      row = 0;
    } }
{
    ShownEntry {
        kind: 6,
        statement: 0,
        constraint: 0,
        has_old: flag(seen.old.is_some()),
        has_new: flag(seen.new.is_some()),
        is_unknown: unknown_flag(seen.when),
        items: 0,
        row: 0,
    }
}

// A refusal for this constraint and row, with so many rows.
fn fault_shown(kind: u32, fault: &Fault, items: u64) -> ShownEntry
    ensures { result ≡ record { kind = kind; statement = 0; constraint = fault.now.constraint; has_old = 0; has_new = 0; is_unknown = 0; items = items; row = fault.now.row } }
{
    ShownEntry {
        kind,
        statement: 0,
        constraint: fault.constraint.place(),
        has_old: 0,
        has_new: 0,
        is_unknown: 0,
        items,
        row: fault.row,
    }
}

fn counted(kind: u32, statement: u32, items: u64) -> ShownEntry
    ensures { result ≡ record { kind = kind; statement = statement; constraint = 0; has_old = 0; has_new = 0; is_unknown = 0; items = items; row = 0 } }
{
    ShownEntry {
        kind,
        statement,
        constraint: 0,
        has_old: 0,
        has_new: 0,
        is_unknown: 0,
        items,
        row: 0,
    }
}

// The row of a table at which something failed.
fn hand_row(hand: &RowAtHand) -> Option<&StoredRow>
    ensures { option_copied result ≡ hand_row hand.now }
{
    match hand {
        RowAtHand::Row(row) => Some(row),
        RowAtHand::Source(row) => Some(row),
        RowAtHand::Variables { old: _, new: _ } => None,
    }
}

// OLD or NEW, where no row of a table is at hand.
fn hand_side(hand: &RowAtHand, side: u32) -> Option<&[Value]>
    ensures { option_copied result ≡ hand_side hand.now side }
{
    match hand {
        RowAtHand::Row(_) => None,
        RowAtHand::Source(_) => None,
        RowAtHand::Variables { old, new } => side_of(old, new, side),
    }
}

// The trigger whose WHEN failed.
fn when_of(part: EvaluatedFor) -> Option<TriggerId>
    ensures { result ≡ when_of part }
{
    match part {
        EvaluatedFor::When(id) => Some(id),
        _ => None,
    }
}

fn hand_item(hand: &RowAtHand, item: usize) -> Option<&StoredRow>
    ensures { option_copied result ≡ hand_item hand.now item }
{
    if item == 0 { hand_row(hand) } else { None }
}

fn failed_shown(failed: &FailedEvaluation) -> ShownEntry
    ensures { result ≡ record {
      kind = 8;
      statement = 0;
      constraint = 0;
      has_old = flag (is_some (hand_side failed.now.row 0));
      has_new = flag (is_some (hand_side failed.now.row 1));
      is_unknown = 0;
      items = flag (is_some (hand_row failed.now.row));
      row = 0;
    } }
{
    ShownEntry {
        kind: 8,
        statement: 0,
        constraint: 0,
        has_old: flag(hand_side(&failed.row, 0).is_some()),
        has_new: flag(hand_side(&failed.row, 1).is_some()),
        is_unknown: 0,
        items: u64::from(flag(hand_row(&failed.row).is_some())),
        row: 0,
    }
}

pub fn entry_shown(entry: &Entry) -> ShownEntry
    ensures { result ≡ entry_shown entry.now }
{
    match entry {
        Entry::Changed(changes) => counted(0, 0, changes.len() as u64),
        Entry::Acted(actions) => counted(1, 0, actions.len() as u64),
        Entry::Ran(_, seen) => ran_shown(seen),
        Entry::Skipped(_, seen) => skipped_shown(seen),
        Entry::Began(place) => counted(3, *place, 0),
        Entry::Ended => counted(4, 0, 0),
        Entry::Faulted(fault, rows) => fault_shown(5, fault, rows.len() as u64),
        Entry::Disagreed(fault, rows, _) => fault_shown(7, fault, rows.len() as u64),
        Entry::Failed(failed) => failed_shown(failed),
        Entry::Standing(names) => counted(9, 0, names.len() as u64),
        Entry::NotAdded(_, rows) => counted(10, 0, rows.len() as u64),
    }
}

// The characters of the name at this place.
fn name_in(names: &[Name], item: usize) -> Option<&[u8]>
    ensures { option_copied result ≡ slice_get names.now item }
{
    match names.get(item) {
        Some(name) => Some(name.as_str().as_bytes()),
        None => None,
    }
}

// A name that the catalogue doesn't have.
fn entry_name(entry: &Entry, item: usize) -> Option<&[u8]>
    ensures { option_copied result ≡ entry_name entry.now item }
{
    match entry {
        Entry::Standing(names) => name_in(names.as_slice(), item),
        Entry::NotAdded(constraint, _) => {
            if item == 0 {
                Some(constraint.name.as_str().as_bytes())
            } else {
                None
            }
        }
        _ => None,
    }
}

fn trigger_of_when<'a>(catalogue: &'a Catalogue, part: EvaluatedFor) -> Option<&'a [u8]>
    ensures { option_copied result ≡ option_map (λ id. trigger_named catalogue.now (Some id)) (when_of part) }
{
    match when_of(part) {
        Some(id) => Some(trigger_named(catalogue, Some(id))),
        None => None,
    }
}

fn entry_trigger<'a>(catalogue: &'a Catalogue, entry: &Entry) -> Option<&'a [u8]>
    ensures { option_copied result ≡ entry_trigger catalogue.now entry.now }
{
    match entry {
        Entry::Ran(trigger, _) => Some(trigger_named(catalogue, Some(*trigger))),
        Entry::Skipped(trigger, _) => Some(trigger_named(catalogue, Some(*trigger))),
        Entry::Failed(failed) => trigger_of_when(catalogue, failed.part),
        _ => None,
    }
}

fn change_shown(change: &Change) -> ShownItem
    ensures { result ≡ change_shown change.now }
{
    ShownItem {
        table: change.table.place(),
        constraint: 0,
        action: 0,
        has_old: flag(change.old.is_some()),
        has_new: flag(change.new.is_some()),
        row: change.row,
    }
}

fn row_action_shown(action: &RowAction) -> ShownItem
    ensures { result ≡ row_action_shown action.now }
{
    ShownItem {
        table: action.table.place(),
        constraint: action.constraint.place(),
        action: action_number(action.action),
        has_old: 0,
        has_new: 0,
        row: action.row,
    }
}

fn stored_shown(row: &StoredRow) -> ShownItem
    ensures { result ≡ stored_shown row.now }
{
    ShownItem {
        table: row.table.place(),
        constraint: 0,
        action: 0,
        has_old: 0,
        has_new: 1,
        row: row.number,
    }
}

fn change_item(changes: &[Change], item: usize) -> Option<ShownItem>
    ensures { result ≡ option_map change_shown (slice_get changes.now item) }
{
    match changes.get(item) {
        Some(change) => Some(change_shown(change)),
        None => None,
    }
}

fn action_item(actions: &[RowAction], item: usize) -> Option<ShownItem>
    ensures { result ≡ option_map row_action_shown (slice_get actions.now item) }
{
    match actions.get(item) {
        Some(action) => Some(row_action_shown(action)),
        None => None,
    }
}

fn stored_item(rows: &[StoredRow], item: usize) -> Option<ShownItem>
    ensures { result ≡ option_map stored_shown (slice_get rows.now item) }
{
    match rows.get(item) {
        Some(row) => Some(stored_shown(row)),
        None => None,
    }
}

fn hand_shown(hand: &RowAtHand, item: usize) -> Option<ShownItem>
    ensures { result ≡ option_map stored_shown (hand_item hand.now item) }
{
    match hand_item(hand, item) {
        Some(row) => Some(stored_shown(row)),
        None => None,
    }
}

fn item_shown(entry: &Entry, item: usize) -> Option<ShownItem>
    ensures { result ≡ item_shown entry.now item }
{
    match entry {
        Entry::Changed(changes) => change_item(changes.as_slice(), item),
        Entry::Acted(actions) => action_item(actions.as_slice(), item),
        Entry::Ran(_, seen) => change_item(seen.transition.as_slice(), item),
        Entry::Faulted(_, rows) => stored_item(rows.as_slice(), item),
        Entry::Disagreed(_, rows, _) => stored_item(rows.as_slice(), item),
        Entry::Failed(failed) => hand_shown(&failed.row, item),
        Entry::NotAdded(_, rows) => stored_item(rows.as_slice(), item),
        _ => None,
    }
}

fn values_of(row: &Option<Row>) -> Option<&[Value]>
    ensures { option_copied result ≡ row.now }
{
    match row {
        Some(row) => Some(row.values()),
        None => None,
    }
}

// The values on this side: 0 is before, 1 is after.
fn side_of<'a>(old: &'a Option<Row>, new: &'a Option<Row>, side: u32) -> Option<&'a [Value]>
    ensures { option_copied result ≡ side_of old.now new.now side }
{
    match side {
        0 => values_of(old),
        1 => values_of(new),
        _ => None,
    }
}

fn change_values(changes: &[Change], item: usize, side: u32) -> Option<&[Value]>
    ensures { option_copied result ≡ option_and_then (change_side side) (slice_get changes.now item) }
{
    match changes.get(item) {
        Some(change) => side_of(&change.old, &change.new, side),
        None => None,
    }
}

fn stored_values(rows: &[StoredRow], item: usize, side: u32) -> Option<&[Value]>
    ensures { option_copied result ≡ side_of None (option_map (λ r. r.values) (slice_get rows.now item)) side }
{
    if side != 1 {
        return None;
    }
    match rows.get(item) {
        Some(row) => Some(row.values.values()),
        None => None,
    }
}

fn hand_values(hand: &RowAtHand, item: usize, side: u32) -> Option<&[Value]>
    ensures { option_copied result ≡ side_of None (option_map (λ r. r.values) (hand_item hand.now item)) side }
{
    if side != 1 {
        return None;
    }
    match hand_item(hand, item) {
        Some(row) => Some(row.values.values()),
        None => None,
    }
}

fn item_values(entry: &Entry, item: usize, side: u32) -> Option<&[Value]>
    ensures { option_copied result ≡ item_values entry.now item side }
{
    match entry {
        Entry::Changed(changes) => change_values(changes.as_slice(), item, side),
        Entry::Ran(_, seen) => change_values(seen.transition.as_slice(), item, side),
        Entry::Faulted(_, rows) => stored_values(rows.as_slice(), item, side),
        Entry::Disagreed(_, rows, _) => stored_values(rows.as_slice(), item, side),
        Entry::Failed(failed) => hand_values(&failed.row, item, side),
        Entry::NotAdded(_, rows) => stored_values(rows.as_slice(), item, side),
        _ => None,
    }
}

fn seen_values(entry: &Entry, side: u32) -> Option<&[Value]>
    ensures { option_copied result ≡ seen_values entry.now side }
{
    match entry {
        Entry::Ran(_, seen) => side_of(&seen.old, &seen.new, side),
        Entry::Skipped(_, seen) => side_of(&seen.old, &seen.new, side),
        Entry::Failed(failed) => hand_side(&failed.row, side),
        _ => None,
    }
}

fn how_in(entry: &Entry) -> Option<&Disagreement>
    ensures { option_copied result ≡ how_in entry.now }
{
    match entry {
        Entry::Disagreed(_, _, how) => Some(how),
        _ => None,
    }
}

pub fn disagreement_shown(how: &Disagreement) -> ShownDisagreement
    ensures { result ≡ disagreement_shown how.now }
{
    ShownDisagreement {
        earlier: how.earlier.place(),
        column: how.column,
        earlier_value: cell_of(&how.earlier_value),
        value: cell_of(&how.value),
    }
}

// What one of the two foreign keys sets the column to: 0 is the earlier one, 1 the later.
fn set_on(side: u32, how: &Disagreement) -> Option<&Value>
    ensures { option_copied result ≡ set_on side how.now }
{
    match side {
        0 => Some(&how.earlier_value),
        1 => Some(&how.value),
        _ => None,
    }
}

pub fn entry_at(connection: &Connection, at: usize) -> Option<&Entry>
    ensures { option_copied result ≡ slice_get connection.now.session.account.entries at }
{
    connection.session.account().get(at)
}

pub fn item_at(connection: &Connection, at: usize, item: usize) -> Option<ShownItem>
    ensures { result ≡ item_at connection.now.session.account.entries at item }
{
    match entry_at(connection, at) {
        Some(entry) => item_shown(entry, item),
        None => None,
    }
}

pub fn item_value(
    connection: &Connection,
    at: usize,
    item: usize,
    side: u32,
    column: usize,
) -> Option<&Value>
    ensures { option_copied result ≡ item_value connection.now.session.account.entries at item side column }
{
    let entry = entry_at(connection, at)?;
    let values = item_values(entry, item, side)?;
    values.get(column)
}

pub fn seen_value(connection: &Connection, at: usize, side: u32, column: usize) -> Option<&Value>
    ensures { option_copied result ≡ seen_value connection.now.session.account.entries at side column }
{
    let entry = entry_at(connection, at)?;
    let values = seen_values(entry, side)?;
    values.get(column)
}

pub fn disagreement_at(connection: &Connection, at: usize) -> Option<&Disagreement>
    ensures { option_copied result ≡ disagreement_at connection.now.session.account.entries at }
{
    match entry_at(connection, at) {
        Some(entry) => how_in(entry),
        None => None,
    }
}

pub fn set_value(connection: &Connection, at: usize, side: u32) -> Option<&Value>
    ensures { option_copied result ≡ set_value connection.now.session.account.entries at side }
{
    match disagreement_at(connection, at) {
        Some(how) => set_on(side, how),
        None => None,
    }
}

pub fn entry_trigger_at(connection: &Connection, at: usize) -> Option<&[u8]>
    ensures { option_copied result
        ≡ trigger_at_entry connection.now.session.state.schema connection.now.session.account.entries at }
{
    match entry_at(connection, at) {
        Some(entry) => entry_trigger(connection.session.catalogue(), entry),
        None => None,
    }
}

pub fn entry_name_at(connection: &Connection, at: usize, item: usize) -> Option<&[u8]>
    ensures { option_copied result ≡ name_at_entry connection.now.session.account.entries at item }
{
    match entry_at(connection, at) {
        Some(entry) => entry_name(entry, item),
        None => None,
    }
}

/// Writes a value, where there is one.
pub fn write_value(there: Option<&Value>, value: &mut Cell) -> u32
    ensures value { IfSome (option_copied there.entry) (λ it. value.new ≡ cell_of it) }
    ensures others { result ≢ OK → value.new ≡ value.old }
    ensures status { result ≡ found (option_copied there.entry) }
{
    match there {
        Some(it) => {
            *value = cell_of(it);
            OK
        }
        None => NOTHING,
    }
}

/// Copies bytes of a value's text, where there is a value.
pub fn copy_text(there: Option<&Value>, from: usize, buffer: &mut [u8], count: &mut usize) -> u32
    ensures bytes { IfSome (option_copied there.entry) (λ it.
        Copies from (text_of it) buffer.old buffer.new count.new) }
    ensures others { result ≢ OK → (buffer.new ≡ buffer.old) × (count.new ≡ count.old) }
    ensures status { result ≡ found (option_copied there.entry) }
{
    match there {
        Some(it) => {
            *count = copied(text_of(it), from, buffer);
            OK
        }
        None => NOTHING,
    }
}
