//! What names mean where an expression is evaluated.
ghost use Rattle.std.specs.Prelude.{◌≡◌, ℕ, List, Option, [], ◌∷◌, slice_get, IfSome};
ghost use Rattle.std.specs.Option.{option_map, option_copied};
ghost use Rattle.iv_expr.specs.References.{outer};
ghost use Rattle.iv_expr.specs.Scopes.{Rises, no_frame, numbered, row_above, scope_of, table_rows, variable_of};
ghost use Rattle.iv_expr.specs.Searches.{AllFit, AreHolders, AreSharing};
ghost use Rattle.iv_expr.specs.declared.row.StoredRow.{StoredRow};

use crate::number::TableId;
use crate::row::Change;
use crate::tree::Side;
use iv_numbers::HeldRows;
use iv_value::{Kind, Value};
use std::alloc::Global;
use std::marker::Model;

/// Tables whose rows are read one after another.
pub trait Rows {
    ghost rows: { Self → List StoredRow };

    /// Does nothing: the rows are by rising number.
    fn recall_order(&self)
        ensures { Rises 0 (rows self.now) };

    /// The next row of a table above a number, with its number; nothing if there is no such table.
    fn scan(&self, table: TableId, after: u64) -> Option<(u64, &[Value])>
        ensures { option_map (λ r. (r.0, r.1.now)) result
            ≡ option_map numbered (row_above after (table_rows (rows self.now) table)) };

    /// The kinds of a table's columns, if each of its rows is known to be of them.
    fn known_kinds(&self, table: TableId) -> Option<TableKinds<'_>>
        ensures { IfSome result (λ known. AllFit known.kinds.now (table_rows (rows self.now) table)) }
    {
        None
    }

    /// The rows of a table among which are all that have these values, column by column; null stands for any. It is
    /// nothing if no key that is kept leads to them.
    fn holders(&self, table: TableId, asked: &[Value]) -> Option<HeldRows<'_>>
        ensures { IfSome result (λ numbers. AreHolders asked.now (table_rows (rows self.now) table) numbers) }
    {
        None
    }

    /// The rows of a table among which are all that have a row's values in these columns, with a null the same as a
    /// null. It is nothing if no key of these columns is kept in which nulls are equal.
    fn sharing(&self, table: TableId, columns: &[u32], row: &[Value]) -> Option<HeldRows<'_>>
        ensures { IfSome result (λ numbers. AreSharing columns.now row.now (table_rows (rows self.now) table) numbers) }
    {
        None
    }
}

/// The kinds of a table's columns, and where a search takes its memory from.
#[derive(Drop)]
pub struct TableKinds<'a> {
    pub kinds: &'a [Kind],
    pub alloc: Global,
}

/// What the body of a trigger sees: the row variables, and the changes of its transition tables.
#[derive(Drop)]
pub struct Frame<'a> {
    pub old: Option<&'a [Value]>,
    pub new: Option<&'a [Value]>,
    pub transition: &'a [Change],
}

impl<'a> Model for Frame<'a> {
    ghost use Rattle.std.specs.Option.{option_copied};
    ghost use Rattle.iv_expr.specs.Scopes.{Frame as Seen};

    ghost Value = { Seen };

    ghost view = { λ f. record {
      old = option_copied f.old;
      new = option_copied f.new;
      transition = f.transition.now;
    } };
}

impl<'a> Frame<'a> {
    /// What is seen outside of triggers.
    pub fn none() -> Frame<'a>
        ensures { result ≡ no_frame }
    {
        Frame {
            old: None,
            new: None,
            transition: &[],
        }
    }

    /// What is seen of one change of a transition.
    pub fn at(transition: &'a [Change], change: &'a Change) -> Frame<'a>
        ensures { result ≡ record {
          old = change.entry.now.old;
          new = change.entry.now.new;
          transition = transition.entry.now;
        } }
    {
        let old = match &change.old {
            Some(row) => Some(row.values()),
            None => None,
        };
        let new = match &change.new {
            Some(row) => Some(row.values()),
            None => None,
        };
        Frame {
            old,
            new,
            transition,
        }
    }
}

/// The current rows of the ranges, the innermost first. Contracts see it as their list.
#[derive(Drop)]
pub struct Ranges<'a> {
    row: &'a [Value],
    up: Option<&'a Ranges<'a>>,
}

impl<'a> Model for Ranges<'a> {
    ghost use Rattle.std.specs.Prelude.{List, ◌∷◌, length};
    ghost use Rattle.std.specs.Option.{option_copied};
    ghost use Rattle.iv_value.specs.declared.value.Value.{Value as Cell};
    ghost use Rattle.iv_expr.specs.References.{outer};

    ghost Value = { List (List Cell) };

    ghost view = { λ a. a.row.now ∷ outer (option_copied a.up) };

    ghost size = { length };

    ghost use Rattle.std.proofs.Common.{arith};

    ghost size_decreases = { λ a h. Prim.grind arith };
}

impl<'a> Ranges<'a> {
    // A range at this row, inside of others.
    fn new(row: &'a [Value], up: Option<&'a Ranges<'a>>) -> Ranges<'a>
        ensures { result ≡ row.entry.now ∷ outer (option_copied up.entry) }
    {
        Ranges { row, up }
    }

    // The current row of a range, counted outward from the innermost, which is 0.
    fn at(&self, depth: u32) -> Option<&[Value]>
        ensures { option_copied result ≡ slice_get self.now depth }
    {
        if depth == 0 {
            return Some(self.row);
        }
        match self.up {
            Some(ranges) => ranges.at(depth - 1),
            None => None,
        }
    }
}

/// What names mean, borrowed without copies.
#[derive(Drop)]
pub struct Scope<'a, R: Rows> {
    pub(crate) rows: &'a R,
    frame: &'a Frame<'a>,
    ranges: Option<&'a Ranges<'a>>,
}

impl<'a, R: Rows> Model for Scope<'a, R> {
    ghost use Rattle.std.specs.Option.{option_copied};
    ghost use Rattle.iv_expr.specs.References.{outer};
    ghost use Rattle.iv_expr.specs.Scopes.{Scope as Meaning};

    ghost Value = { Meaning };

    ghost view = { λ s. record {
      ranges = outer (option_copied s.ranges);
      frame = s.frame.now;
      rows = R.rows s.rows.now;
    } };
}

impl<'a, R: Rows> Scope<'a, R> {
    /// The scope of a statement over these tables, outside of all ranges.
    pub fn new(rows: &'a R, frame: &'a Frame<'a>) -> Scope<'a, R>
        ensures { result ≡ scope_of frame.entry.now (R.rows rows.entry.now) }
    {
        Scope {
            rows,
            frame,
            ranges: None,
        }
    }

    /// Does nothing: the rows are by rising number.
    pub fn recall_order(&self)
        ensures { Rises 0 self.now.rows }
    {
        self.rows.recall_order()
    }

    /// The next row of a table above a number, with its number.
    pub fn scan(&self, table: TableId, after: u64) -> Option<(u64, &[Value])>
        ensures { option_map (λ r. (r.0, r.1.now)) result
            ≡ option_map numbered (row_above after (table_rows self.now.rows table)) }
    {
        self.rows.scan(table, after)
    }

    /// The kinds of a table's columns, if each of its rows is known to be of them.
    pub fn known_kinds(&self, table: TableId) -> Option<TableKinds<'_>>
        ensures { IfSome result (λ known. AllFit known.kinds.now (table_rows self.now.rows table)) }
    {
        self.rows.known_kinds(table)
    }

    /// The changes of the transition tables.
    pub fn transition(&self) -> &[Change]
        ensures { result.now ≡ self.now.frame.transition }
    {
        let frame = self.frame;
        frame.transition
    }

    /// The current row of a range, counted outward from the innermost, which is 0.
    pub fn range(&self, depth: u32) -> Option<&[Value]>
        ensures { option_copied result ≡ slice_get self.now.ranges depth }
    {
        match self.ranges {
            Some(ranges) => ranges.at(depth),
            None => None,
        }
    }

    /// The row variable of a side.
    pub fn variable(&self, side: Side) -> Option<&[Value]>
        ensures { option_copied result ≡ variable_of self.now side }
    {
        let frame = self.frame;
        match side {
            Side::Old => frame.old,
            Side::New => frame.new,
        }
    }

    /// The ranges with one more inside, at this row.
    pub fn ranges_with<'b>(&'b self, row: &'b [Value]) -> Ranges<'b>
        ensures { result ≡ row.entry.now ∷ self.entry.now.ranges }
    {
        Ranges::new(row, self.ranges)
    }

    /// The same scope over other ranges.
    pub fn over<'b>(&'b self, ranges: &'b Ranges<'b>) -> Scope<'b, R>
        ensures { result ≡ record {
          ranges = ranges.entry.now;
          frame = self.entry.now.frame;
          rows = self.entry.now.rows;
        } }
    {
        Scope {
            rows: self.rows,
            frame: self.frame,
            ranges: Some(ranges),
        }
    }
}
