//! Each call of a store.
use crate::demand::Columns::One;
use crate::demand::Demand::{Above, NotNull, PrimaryKey, References, Unique};
use crate::demand::{Demand, Reference};
use crate::schema::Cell::{Int, Null};
use crate::story::Step::{
    Forget, Gone, Mark, Offer, Put, Settle, ShowAll, ShowChildren, ShowModes, ShowRows, Table,
    TableWith, Undo, UndoTo,
};
use crate::story::{Step, shows};
use iv_syntax::ConstraintMode::Deferred;
use iv_syntax::MatchType::Simple;

// The first column references that of table 1.
const TO_TABLE_1: Demand = References(Reference {
    columns: One(0),
    matching: Simple,
    referenced: 1,
    key: One(0),
    mode: None,
});

// The first column references that of table 0.
const TO_TABLE_0: Demand = References(Reference {
    columns: One(0),
    matching: Simple,
    referenced: 0,
    key: One(0),
    mode: None,
});

// The same reference, deferred.
const DEFERRED_TO_TABLE_0: Demand = References(Reference {
    columns: One(0),
    matching: Simple,
    referenced: 0,
    key: One(0),
    mode: Some(Deferred),
});

// Table 0 of one column; table 1 of one column, with a key, which is the constraint 0. Rows 1 to 4 of table 0 hold 1, 2,
// 2 and null; row 5, of table 1, holds 1. Constraints of table 0 are offered, each of which a row violates; and again
// once no row violates them: they are the constraints 2 to 5, after CHECK (a > 0). Then row 2 holds other values, and
// violates this or that. At the end a table comes when there are rows: its row 7 refers to a row of table 1, and then to
// none.
#[test]
fn constraints_are_added_where_no_row_violates_them(rt: HostRuntime) {
    static STEPS: [Step; 36] = [
        Table(0),
        TableWith(1, PrimaryKey(One(0))),
        Put(0, 1, Int(1)),
        Put(0, 2, Int(2)),
        Put(0, 3, Int(2)),
        Put(0, 4, Null),
        Put(1, 5, Int(1)),
        Offer(0, Above(0, 1)),
        Offer(0, Unique(One(0))),
        Offer(0, PrimaryKey(One(0))),
        Offer(0, NotNull(0)),
        Offer(0, TO_TABLE_1),
        Offer(0, Above(0, 0)),
        Gone(0, 3),
        Offer(0, Unique(One(0))),
        Put(1, 3, Int(2)),
        Offer(0, TO_TABLE_1),
        Gone(0, 4),
        Offer(0, NotNull(0)),
        Offer(0, PrimaryKey(One(0))),
        Put(0, 2, Int(1)),
        ShowAll,
        Put(0, 2, Null),
        ShowAll,
        Put(0, 2, Int(9)),
        ShowAll,
        Put(0, 2, Int(0)),
        ShowAll,
        Put(0, 2, Int(2)),
        ShowAll,
        TableWith(2, TO_TABLE_1),
        Put(2, 7, Int(2)),
        ShowAll,
        Put(2, 7, Int(5)),
        ShowAll,
        ShowRows(3),
    ];
    let wanted = "row 1 | row 2 | row 2 | row 4 | row 2 | \
                  added | added | added | added | added | \
                  2:1 2:2 5:1 5:2 | 4:2 5:2 | 3:2 | 1:2 3:2 | | \
                  | 6:7 | \
                  1: 1, 2: 2, / 3: 2, 5: 1, / 7: 5, / 8 15 | ";
    shows(&rt, rt.alloc(), &STEPS, wanted);
}

// Table 0 with a key, and table 1, which references it: the children of the keys 1, 2, 3 and null; then those of 1 by
// the parent's own key, and by no constraint. Then row 4 becomes one of 1; row 3 goes, and comes back.
#[test]
fn children_are_the_rows_that_hold_a_key(rt: HostRuntime) {
    static STEPS: [Step; 19] = [
        TableWith(0, PrimaryKey(One(0))),
        TableWith(1, TO_TABLE_0),
        Put(0, 1, Int(1)),
        Put(0, 2, Int(2)),
        Put(1, 3, Int(1)),
        Put(1, 4, Int(2)),
        ShowChildren(1, Int(1)),
        ShowChildren(1, Int(2)),
        ShowChildren(1, Int(3)),
        ShowChildren(1, Null),
        ShowChildren(0, Int(1)),
        ShowChildren(9, Int(1)),
        Put(1, 4, Int(1)),
        ShowChildren(1, Int(1)),
        Mark,
        Gone(1, 3),
        ShowChildren(1, Int(1)),
        Undo(0),
        ShowChildren(1, Int(1)),
    ];
    shows(
        &rt,
        rt.alloc(),
        &STEPS,
        "3 | 4 | | | | | 3 4 | at 0 | 4 | 3 4 | ",
    );
}

// A child that holds 7 comes before its parent, another parent holds 7 too, and both parents go. For each step all
// violations, those of the deferred foreign key, and those of the immediate key.
#[test]
fn violations_are_listed_by_mode(rt: HostRuntime) {
    static STEPS: [Step; 12] = [
        TableWith(0, PrimaryKey(One(0))),
        TableWith(1, DEFERRED_TO_TABLE_0),
        Put(1, 1, Int(7)),
        ShowModes,
        Put(0, 2, Int(7)),
        ShowModes,
        Put(0, 3, Int(7)),
        ShowModes,
        Gone(0, 2),
        ShowModes,
        Gone(0, 3),
        ShowModes,
    ];
    let wanted = "1:1 | 1:1 | | | | | 0:2 0:3 | | 0:2 0:3 | | | | 1:1 | 1:1 | | ";
    shows(&rt, rt.alloc(), &STEPS, wanted);
}

// Row 1 comes with 1 before a mark; row 2 comes with it before another; then row 1 goes and row 3 comes. Back to the
// second mark, which stays, so that the next has the place 2. The second one is dropped, and the third has its place:
// back before it, then to the first mark, which stays. A change more; the first mark is dropped; all is settled; and a
// change after that is taken back.
#[test]
fn a_store_goes_back_to_its_marks(rt: HostRuntime) {
    static STEPS: [Step; 34] = [
        TableWith(0, Unique(One(0))),
        Put(0, 1, Int(1)),
        Mark,
        Put(0, 2, Int(1)),
        Mark,
        Gone(0, 1),
        Put(0, 3, Int(5)),
        ShowRows(1),
        ShowAll,
        UndoTo(1),
        ShowRows(1),
        ShowAll,
        Mark,
        Gone(0, 2),
        Forget(1),
        Undo(1),
        ShowRows(1),
        ShowAll,
        UndoTo(0),
        ShowRows(1),
        ShowAll,
        Put(0, 2, Int(3)),
        Forget(0),
        Mark,
        Settle,
        ShowRows(1),
        ShowAll,
        Mark,
        Put(0, 1, Int(3)),
        ShowRows(1),
        ShowAll,
        Undo(0),
        ShowRows(1),
        ShowAll,
    ];
    let wanted = "at 0 | at 1 | 2: 1, 3: 5, / 4 4 | | \
                  1: 1, 2: 1, / 3 2 | 0:1 0:2 | at 2 | 1: 1, 2: 1, / 3 2 | 0:1 0:2 | 1: 1, / 2 1 | | \
                  at 0 | 1: 1, 2: 3, / 3 0 | | at 0 | 1: 3, 2: 3, / 3 1 | 0:1 0:2 | 1: 1, 2: 3, / 3 0 | | ";
    shows(&rt, rt.alloc(), &STEPS, wanted);
}
