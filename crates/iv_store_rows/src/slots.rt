//! Rows in slots, by rising number.
ghost use Rattle.std.specs.Prelude.{◌≡◌, ◌<◌, ◌^◌, [], true, OnOk, OnErr};
ghost use Rattle.std.specs.Option.{option_copied};
ghost use Rattle.iv_expr.specs.Scopes.{Rises, row_above, table_rows};
ghost use Rattle.iv_machine.specs.Databases.{row_at};
ghost use Rattle.iv_store_rows.specs.InSlots.{live_rows, has_slot_for, slots_without, slots_after};
ghost use Rattle.iv_store_rows.specs.Filing.{Files, OneChanged, RoomStays, can_put_for, dropped, held_after, held_for};

use crate::look::row_above;
use crate::numbers::give_rooms_back;
use crate::place::{live_at, place};
use crate::set::keep_live;
use crate::slot::Slot;
use crate::stored::{put, put_back, take_out};
use iv_expr::{Row, StoredRow, TableId};
use iv_numbers::RowNumbers;
use std::alloc::{AllocError, Global};
use std::marker::Model;

/// A slot for each row of all tables, by rising number; a removed row leaves its slot. For each table, besides, the
/// numbers of its rows, with room for those of rows that come back. Contracts see both.
#[derive(Drop)]
pub struct Slots {
    slots: Vec<Slot>,
    numbers: Vec<RowNumbers>,
    // How often a row was taken out since the slots were swept.
    emptied: usize,
}

impl Model for Slots {
    ghost use Rattle.iv_store_rows.specs.Filing.{Filed, Files};

    ghost Value = { Filed };

    ghost view = { λ s. record { slots = s.slots.items; numbers = s.numbers.items } };

    ghost invariant = { λ s. Files s.slots.items s.numbers.items };
}

impl Slots {
    /// No slots. It allocates nothing.
    pub fn new(alloc: Global) -> Slots
        ensures slots { result.slots ≡ [] }
    {
        Slots {
            slots: Vec::new(alloc),
            numbers: Vec::new(alloc),
            emptied: 0,
        }
    }

    /// Does nothing: the slots and the rows are by rising number.
    pub fn recall_order(&self)
        ensures rises { Rises 0 (live_rows self.now.slots) }
        ensures files { Files self.now.slots self.now.numbers }
    {
        let _ = &self.slots;
    }

    /// The row of a number: in constant time for the last row, or if no number up to it is missing; otherwise by
    /// halving.
    pub fn row(&self, number: u64) -> Option<&StoredRow>
        ensures { option_copied result ≡ row_at (live_rows self.now.slots) number }
    {
        let slots = self.slots.as_slice();
        live_at(slots, place(slots, number), number)
    }

    /// The first row of a table above a number.
    pub fn row_above(&self, table: TableId, number: u64) -> Option<&StoredRow>
        ensures { option_copied result ≡ row_above number (table_rows (live_rows self.now.slots) table) }
    {
        row_above(
            self.slots.as_slice(),
            self.numbers.as_slice(),
            table,
            number,
        )
    }

    // Takes the row of a number out, if there is one: its slot stays.
    fn take_out(&mut self, table: TableId, number: u64)
        ensures slots { self.new.slots ≡ slots_without number self.old.slots }
        ensures numbers { OneChanged self.old.numbers self.new.numbers table
            (dropped number (held_for self.old.numbers table)) }
    {
        take_out(&mut self.slots, &mut self.numbers, table, number);
        self.emptied = self.emptied.saturating_add(1);
    }

    /// Sets the row of a number to these values, or removes it. If an allocation fails, all rows stay.
    pub fn set(
        &mut self,
        table: TableId,
        number: u64,
        values: Option<Row>,
    ) -> Result<(), AllocError>
        requires positive { 0 < number }
        requires small { number < 2 ^ 63 }
        ensures ok { OnOk result (self.new.slots ≡ slots_after table number values self.old.slots) }
        ensures err { OnErr result (self.new.slots ≡ self.old.slots) }
        ensures numbers { OnOk result (OneChanged self.old.numbers self.new.numbers table
            (held_after number values (held_for self.old.numbers table))) }
        ensures room { OnErr result (RoomStays self.old.numbers self.new.numbers) }
    {
        match values {
            Some(values) => {
                let row = StoredRow {
                    table,
                    number,
                    values,
                };
                put(&mut self.slots, &mut self.numbers, row)
            }
            None => {
                self.take_out(table, number);
                Ok(())
            }
        }
    }

    /// Sets the row, which has a slot, and whose number is there or has room. It allocates nothing.
    pub fn put_back(&mut self, table: TableId, number: u64, values: Option<Row>)
        requires positive { 0 < number }
        requires small { number < 2 ^ 63 }
        requires slot { has_slot_for values self.old.slots number ≡ true }
        requires room { can_put_for values number (held_for self.old.numbers table) ≡ true }
        ensures slots { self.new.slots ≡ slots_after table number values self.old.slots }
        ensures numbers { OneChanged self.old.numbers self.new.numbers table
            (held_after number values (held_for self.old.numbers table)) }
    {
        match values {
            Some(values) => {
                let row = StoredRow {
                    table,
                    number,
                    values,
                };
                put_back(&mut self.slots, &mut self.numbers, row);
            }
            None => self.take_out(table, number),
        }
    }

    /// Gives up the slots without rows and the room of the tables' numbers, if more rows were removed than half the
    /// slots since the last time. It can't fail for lack of memory: if a smaller block can't be had, the larger one
    /// stays.
    pub fn sweep(&mut self)
        ensures { live_rows self.new.slots ≡ live_rows self.old.slots }
    {
        if self.slots.len() / 2 < self.emptied {
            keep_live(&mut self.slots);
            give_rooms_back(&mut self.numbers);
            self.emptied = 0;
        }
    }
}
