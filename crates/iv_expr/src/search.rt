//! A look at the rows of a table that leaves out rows at which a condition can't be true.
ghost use Rattle.std.specs.Prelude.{◌≡◌};
ghost use Rattle.std.specs.Option.{option_map};
ghost use Rattle.iv_expr.specs.Evaluation.{truth};
ghost use Rattle.iv_expr.specs.Found.{LeadsToSome};
ghost use Rattle.iv_expr.specs.Scopes.{Rises, numbered, row_above, table_rows, within};
ghost use Rattle.iv_expr.specs.Searches.{LeavesOut};

use crate::asking::{ask, nulls};
use crate::kinds::RangeKinds;
use crate::number::TableId;
use crate::scope::{Rows, Scope};
use crate::sorts::is_never_refused;
use crate::tree::Cond;
use iv_numbers::HeldRows;
use iv_value::Value;
use std::marker::Model;

/// The rows of a table, or those of a key, by rising number. Contracts see it as these rows.
#[derive(Drop)]
pub struct Search<'a, R: Rows> {
    rows: &'a R,
    table: TableId,
    found: Option<HeldRows<'a>>,
}

impl<'a, R: Rows> Model for Search<'a, R> {
    ghost use Rattle.std.specs.Prelude.{List};
    ghost use Rattle.iv_expr.specs.Scopes.{table_rows};
    ghost use Rattle.iv_expr.specs.declared.row.StoredRow.{StoredRow};
    ghost use Rattle.iv_expr.specs.Found.{AreThere, searched};

    ghost Value = { List StoredRow };

    ghost view = { λ s. searched s.found (table_rows (R.rows s.rows.now) s.table) };

    ghost invariant = { λ s. AreThere s.found (table_rows (R.rows s.rows.now) s.table) };
}

impl<'a, R: Rows> Search<'a, R> {
    /// Does nothing: the rows are by rising number.
    pub fn recall_order(&self)
        ensures { Rises 0 self.now }
    {
        self.rows.recall_order()
    }

    /// The next row above a number, with its number.
    pub fn next(&self, after: u64) -> Option<(u64, &[Value])>
        ensures { option_map (λ r. (r.0, r.1.now)) result ≡ option_map numbered (row_above after self.now) }
    {
        self.rows.recall_order();
        match &self.found {
            Some(numbers) => match numbers.next_above(after) {
                Some(number) => self.rows.scan(self.table, number.saturating_sub(1)),
                None => None,
            },
            None => self.rows.scan(self.table, after),
        }
    }
}

// Whether an equality stands in a condition, by itself or under AND: without one nothing is asked for.
fn has_equality(cond: &Cond) -> bool {
    match cond {
        Cond::Compare(_, _, _) => true,
        Cond::And(left, right) => has_equality(left.get()) || has_equality(right.get()),
        _ => false,
    }
}

// The rows of a key among which are all those of a table at which a condition may be true; nothing if no key leads to
// them, or a row might refuse the condition, or an allocation fails.
fn holders_for<'a, R: Rows>(
    rows: &'a R,
    scope: &Scope<'_, R>,
    table: TableId,
    cond: &Cond,
) -> Option<HeldRows<'a>>
    requires { R.rows rows.now ≡ scope.now.rows }
    ensures { LeadsToSome (λ row. truth (within scope.now row) cond.now) (table_rows scope.now.rows table) result }
{
    if !has_equality(cond) {
        return None;
    }
    rows.recall_order();
    let known = rows.known_kinds(table)?;
    let any: &[Value] = &[];
    let ranges = scope.ranges_with(any);
    let inside = scope.over(&ranges);
    if !is_never_refused(cond, &RangeKinds::new(known.kinds, None), &inside) {
        return None;
    }
    let Ok(mut asked) = nulls(known.alloc, known.kinds.len()) else {
        return None;
    };
    let Ok(may_be) = ask(cond, &inside, &mut asked) else {
        return None;
    };
    if may_be {
        rows.holders(table, asked.as_slice())
    } else {
        Some(HeldRows::new(&[], &[]))
    }
}

impl<'a, R: Rows> Scope<'a, R> {
    /// The rows of a table at which a condition may be true: all, or those of a key that the condition asks for by
    /// equalities joined by AND. A row is left out only if the condition has a truth there that isn't true. A search by
    /// a key allocates the values that are asked for; if it can't, all rows are looked at.
    pub fn search(&self, table: TableId, cond: &Cond) -> Search<'_, R>
        ensures { LeavesOut (λ row. truth (within self.now row) cond.now) (table_rows self.now.rows table) result }
    {
        let found = holders_for(self.rows, self, table, cond);
        Search {
            rows: self.rows,
            table,
            found,
        }
    }
}
