//! A database that goes back to marks.
ghost use Rattle.std.specs.Prelude.{◌≡◌, ◌+◌, ◌-◌, ◌<◌, ◌≤◌, ◌^◌, [], ◌∷◌, ◌++◌, Some, None, length, take, IfOk, IfSome, OnOk, OnErr};
ghost use Rattle.std.specs.List.{remove};
ghost use Rattle.std.specs.Option.{option_copied};
ghost use Rattle.iv_expr.specs.Scopes.{Rises};
ghost use Rattle.iv_machine.specs.Bounds.{last_row_number, most_changes_in_a_transaction};
ghost use Rattle.iv_machine.specs.Databases.{row_at, rows_after};
ghost use Rattle.iv_machine.specs.Invariants.{Rising};
ghost use Rattle.iv_machine.specs.Waves.{values_at};
ghost use Rattle.iv_store_rows.specs.InSlots.{live_rows, slots_after};
ghost use Rattle.iv_store_rows.specs.Filing.{OneChanged, RoomStays, held_after, held_for};
ghost use Rattle.iv_store_rows.specs.Histories.{marked_databases, marked_of, after_change, with_mark, at_mark, before_mark, without_mark, settled};
ghost use Rattle.iv_store_rows.specs.Histories.{history_after, saved_of, last_change, noted_at, rows_before, rows_before_last, stepped_back, AllBelow};
ghost use Rattle.iv_store_rows.specs.Histories.{AllMade, EnoughRoom, HaveSlots};

use crate::Journal;
use crate::marked_point::MarkedPoint;
use crate::slots::Slots;
use iv_expr::{Change, Rows, StoredRow, TableId};
use iv_numbers::give_room_back;
use iv_value::Value;
use std::alloc::{AllocError, Global};
use std::marker::Model;

/// A database, the changes that can be undone and the marks. Contracts see it as a history: the rows, the next
/// number, the changes that are noted and what each mark keeps. As many changes are counted as are noted.
#[derive(Drop)]
pub struct Versions {
    slots: Slots,
    next: u64,
    journal: Journal,
    marks: Vec<MarkedPoint>,
}

impl Model for Versions {
    ghost use Rattle.iv_store_rows.specs.Histories.{History, Kept, history_of};

    ghost Value = { History };

    ghost view = { λ v. history_of v.slots.slots v.next v.journal v.marks.items };

    ghost invariant = { λ v.
        Kept v.slots.slots v.slots.numbers v.next v.journal v.marks.items };
}

impl Rows for Versions {
    ghost rows = { λ h. h.rows };

    fn recall_order(&self) {
        self.slots.recall_order();
    }

    fn scan(&self, table: TableId, after: u64) -> Option<(u64, &[Value])> {
        match self.slots.row_above(table, after) {
            Some(row) => Some((row.number, row.values.values())),
            None => None,
        }
    }
}

// Notes a change and makes it.
fn make(slots: &mut Slots, journal: &mut Journal, change: &Change) -> Result<(), AllocError>
    requires positive { 0 < change.now.row }
    requires small { change.now.row < 2 ^ 63 }
    ensures slots { OnOk result (slots.new.slots ≡
        slots_after change.now.table change.now.row change.now.new slots.old.slots) }
    ensures journal { OnOk result (journal.new ≡ journal.old ++ change.now ∷ []) }
    ensures kept_slots { OnErr result (slots.new.slots ≡ slots.old.slots) }
    ensures kept_journal { OnErr result (journal.new ≡ journal.old) }
    ensures numbers { OnOk result (OneChanged slots.old.numbers slots.new.numbers change.now.table
        (held_after change.now.row change.now.new (held_for slots.old.numbers change.now.table))) }
    ensures room { OnErr result (RoomStays slots.old.numbers slots.new.numbers) }
{
    let new = change.new.clone()?;
    journal.note(change.clone()?)?;
    match slots.set(change.table, change.row, new) {
        Ok(()) => Ok(()),
        Err(refused) => {
            let _ = journal.pop();
            Err(refused)
        }
    }
}

// Undoes the last change.
fn undo_last(slots: &mut Slots, journal: &mut Journal)
    requires slots { HaveSlots slots.old.slots journal.old }
    requires room { EnoughRoom slots.old.numbers journal.old }
    requires made { AllMade journal.old (live_rows slots.old.slots) }
    requires small { AllBelow (2 ^ 63) journal.old }
    ensures rows { live_rows slots.new.slots ≡
        rows_before_last journal.old (live_rows slots.old.slots) }
    ensures journal { journal.new ≡ take (length journal.old - 1) journal.old }
    ensures slots { HaveSlots slots.new.slots journal.new }
    ensures room { EnoughRoom slots.new.numbers journal.new }
{
    slots.recall_order();
    if let Some(change) = journal.pop() {
        let Change {
            table,
            row,
            old,
            new: _,
        } = change;
        slots.put_back(table, row, old);
    }
}

impl Versions {
    /// The database without rows and marks. It allocates nothing.
    pub fn new(alloc: Global) -> Versions
        ensures { result ≡ record { rows = []; next = 1; journal = []; marks = [] } }
    {
        Versions {
            slots: Slots::new(alloc),
            next: 1,
            journal: Journal::new(alloc),
            marks: Vec::new(alloc),
        }
    }

    /// The number that the next new row takes.
    pub fn next(&self) -> u64
        ensures next { result ≡ self.now.next }
        ensures rising { Rising 0 self.now.rows self.now.next }
        ensures within { self.now.next ≤ last_row_number + 1 }
    {
        self.next
    }

    /// How many changes are counted.
    pub fn count(&self) -> u64
        ensures count { result ≡ length self.now.journal }
        ensures within { length self.now.journal ≤ most_changes_in_a_transaction }
    {
        self.journal.mark()
    }

    /// The row of a number: in constant time for the last row, or if no number up to it is missing; otherwise by
    /// halving.
    pub fn row(&self, number: u64) -> Option<&StoredRow>
        ensures { option_copied result ≡ row_at self.now.rows number }
    {
        self.slots.row(number)
    }

    /// Makes a change of one row. If an allocation fails, all is as before.
    pub fn change(&mut self, change: &Change) -> Result<(), AllocError>
        requires current { values_at self.old.rows change.now.row ≡ change.now.old }
        requires own { IfSome (row_at self.old.rows change.now.row)
            (λ row. row.table ≡ change.now.table) }
        requires positive { 0 < change.now.row }
        requires small { change.now.row ≤ last_row_number }
        requires room { length self.old.journal < most_changes_in_a_transaction }
        ensures ok { OnOk result (self.new ≡ history_after self.old change.now) }
        ensures marked { OnOk result (marked_of self.new ≡
            after_change change.now (marked_of self.old)) }
        ensures back { OnOk result (rows_before change.now self.new.rows ≡ self.old.rows) }
        ensures err { OnErr result (self.new ≡ self.old) }
    {
        self.slots.recall_order();
        make(&mut self.slots, &mut self.journal, change)?;
        self.next = (change.row + 1).max(self.next);
        Ok(())
    }

    /// Marks the database, and answers the mark's place. It takes constant time.
    pub fn mark(&mut self) -> Result<usize, AllocError>
        ensures place { IfOk result (λ place. place ≡ length self.old.marks) }
        ensures ok { OnOk result (self.new ≡ record self.old {
          marks = self.old.marks ++ saved_of self.old ∷ [];
        }) }
        ensures marked { OnOk result (marked_of self.new ≡ with_mark (marked_of self.old)) }
        ensures err { OnErr result (self.new ≡ self.old) }
    {
        let place = self.marks.len();
        self.marks.push(MarkedPoint {
            noted: self.journal.mark(),
            next: self.next,
        })?;
        Ok(place)
    }

    /// The last change that was made since a mark: the one that `step_back` undoes.
    pub fn last_change(&self, place: usize) -> Option<&Change>
        requires { place < length self.now.marks }
        ensures last { IfSome (option_copied result)
            (λ change. last_change self.now.journal ≡ Some change) }
        ensures made { IfSome (option_copied result) (λ change.
            rows_after (rows_before change self.now.rows) (change ∷ []) ≡ self.now.rows) }
        ensures before { IfSome (option_copied result)
            (λ change. Rises 0 (rows_before change self.now.rows)) }
        ensures above { IfSome result (λ _. noted_at self.now.marks place < length self.now.journal) }
        ensures none { result ≡ None → length self.now.journal ≤ noted_at self.now.marks place }
    {
        if self.marks[place].noted < self.journal.mark() {
            self.journal.last()
        } else {
            None
        }
    }

    /// Undoes the last change, which was made since a mark. The mark stays, and later ones go. It allocates nothing.
    pub fn step_back(&mut self, place: usize)
        requires there { place < length self.old.marks }
        requires above { noted_at self.old.marks place < length self.old.journal }
        ensures back { self.new ≡ stepped_back self.old place }
        ensures marked { marked_databases self.new ≡
            take (place + 1) (marked_databases self.old) }
    {
        undo_last(&mut self.slots, &mut self.journal);
        self.marks.truncate(place + 1);
    }

    // Back at a mark, since which no change is noted any more.
    fn arrive(&mut self, place: usize)
        requires there { place < length self.old.marks }
        requires above { length self.old.journal ≤ noted_at self.old.marks place }
        ensures marked { marked_of self.new ≡ at_mark (marked_of self.old) place }
        ensures journal { self.new.journal ≡ self.old.journal }
        ensures marks { self.new.marks ≡ take (place + 1) self.old.marks }
    {
        self.next = self.marks[place].next;
        self.marks.truncate(place + 1);
    }

    /// Goes back to the mark of a place. The mark stays, and later ones go. It allocates nothing, and takes as long as
    /// the changes that it undoes.
    pub fn undo_to(&mut self, place: usize)
        requires { place < length self.old.marks }
        ensures marked { marked_of self.new ≡ at_mark (marked_of self.old) place }
        ensures journal { self.new.journal ≡
            take (noted_at self.old.marks place) self.old.journal }
        ensures marks { self.new.marks ≡ take (place + 1) self.old.marks }
    {
        while self.last_change(place).is_some() {
            self.step_back(place);
        }
        self.arrive(place);
    }

    /// Goes back to the mark of a place and drops it, with later ones. It allocates nothing.
    pub fn undo(&mut self, place: usize)
        requires { place < length self.old.marks }
        ensures marked { marked_of self.new ≡ before_mark (marked_of self.old) place }
        ensures journal { self.new.journal ≡
            take (noted_at self.old.marks place) self.old.journal }
        ensures marks { self.new.marks ≡ take place self.old.marks }
    {
        self.undo_to(place);
        self.marks.truncate(place);
    }

    /// Drops the mark of a place: each later mark's place falls by one. It allocates nothing.
    pub fn forget(&mut self, place: usize)
        requires { place < length self.old.marks }
        ensures dropped { self.new ≡ record self.old { marks = remove self.old.marks place } }
        ensures marked { marked_of self.new ≡ without_mark (marked_of self.old) place }
    {
        self.marks.remove(place);
    }

    /// Drops all marks, and counts the changes from 0 again. It can't fail for lack of memory, and gives some back.
    pub fn settle(&mut self)
        ensures kept { self.new ≡ record self.old { journal = []; marks = [] } }
        ensures marked { marked_of self.new ≡ settled (marked_of self.old) }
    {
        give_room_back(&mut self.marks);
        self.marks.clear();
        self.journal.forget();
        self.slots.sweep();
    }
}
