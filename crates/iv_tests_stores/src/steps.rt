//! Changes one by one, each after a mark, and back over the marks, the last first. What is violated is shown after each.
//! Each test has two tables of two columns.
use crate::demand::Columns::{One, Two};
use crate::demand::Demand::{Above, NotNull, PrimaryKey, References, Unique, UniqueNulls};
use crate::demand::Reference;
use crate::schema::Cell::{Int, Null};
use crate::story::Step::{Gone, Offer, PutTwo, WideTable};
use crate::story::{Step, shows_both_ways};
use iv_syntax::MatchType::{Full, Simple};

#[test]
fn rows_share_a_unique_value_for_a_while(rt: HostRuntime) {
    static FIRST: [Step; 6] = [
        WideTable(0),
        WideTable(1),
        Offer(0, Unique(One(0))),
        PutTwo(0, 1, Int(1), Null),
        PutTwo(0, 2, Int(2), Null),
        PutTwo(0, 3, Int(3), Null),
    ];
    static STEPS: [Step; 3] = [
        PutTwo(0, 1, Int(2), Null),
        PutTwo(0, 2, Int(3), Null),
        PutTwo(0, 3, Int(4), Null),
    ];
    let wanted = "added | 0:1 0:2 | 0:2 0:3 | | / 0:2 0:3 | 0:1 0:2 | | ";
    shows_both_ways(&rt, rt.alloc(), &FIRST, &STEPS, wanted);
}

#[test]
fn rows_share_a_unique_pair_unless_a_part_is_null(rt: HostRuntime) {
    static FIRST: [Step; 5] = [
        WideTable(0),
        WideTable(1),
        Offer(0, Unique(Two(0, 1))),
        PutTwo(0, 1, Int(1), Int(1)),
        PutTwo(0, 2, Int(1), Int(2)),
    ];
    static STEPS: [Step; 8] = [
        PutTwo(0, 2, Int(1), Int(1)),
        PutTwo(0, 1, Int(1), Null),
        PutTwo(0, 2, Int(1), Null),
        PutTwo(0, 3, Int(1), Null),
        PutTwo(0, 1, Int(2), Int(2)),
        PutTwo(0, 2, Int(2), Int(2)),
        PutTwo(0, 3, Int(2), Int(2)),
        Gone(0, 2),
    ];
    let wanted = "added | 0:1 0:2 | | | | | 0:1 0:2 | 0:1 0:2 0:3 | 0:1 0:3 | / \
                  0:1 0:2 0:3 | 0:1 0:2 | | | | | 0:1 0:2 | | ";
    shows_both_ways(&rt, rt.alloc(), &FIRST, &STEPS, wanted);
}

// Null is the same as null, in one of two constraints.
#[test]
fn rows_share_a_pair_with_nulls_for_a_while(rt: HostRuntime) {
    static FIRST: [Step; 5] = [
        WideTable(0),
        WideTable(1),
        Offer(0, UniqueNulls(Two(0, 1))),
        Offer(0, Unique(Two(0, 1))),
        PutTwo(0, 1, Int(1), Null),
    ];
    static STEPS: [Step; 8] = [
        PutTwo(0, 2, Int(1), Null),
        Gone(0, 1),
        PutTwo(0, 3, Null, Null),
        PutTwo(0, 4, Null, Null),
        PutTwo(0, 2, Null, Null),
        PutTwo(0, 3, Null, Int(1)),
        PutTwo(0, 4, Int(1), Int(1)),
        PutTwo(0, 2, Int(1), Int(1)),
    ];
    let wanted =
        "added | added | 0:1 0:2 | | | 0:3 0:4 | 0:2 0:3 0:4 | 0:2 0:4 | | 0:2 0:4 1:2 1:4 | / \
                  | 0:2 0:4 | 0:2 0:3 0:4 | 0:3 0:4 | | | 0:1 0:2 | | ";
    shows_both_ways(&rt, rt.alloc(), &FIRST, &STEPS, wanted);
}

#[test]
fn a_key_is_null_or_shared_for_a_while(rt: HostRuntime) {
    static FIRST: [Step; 6] = [
        WideTable(0),
        WideTable(1),
        Offer(0, PrimaryKey(One(0))),
        PutTwo(0, 1, Int(1), Null),
        PutTwo(0, 2, Int(2), Null),
        PutTwo(0, 3, Int(3), Null),
    ];
    static STEPS: [Step; 4] = [
        PutTwo(0, 1, Null, Null),
        PutTwo(0, 2, Int(3), Null),
        PutTwo(0, 1, Int(2), Null),
        PutTwo(0, 3, Int(4), Null),
    ];
    let wanted = "added | 0:1 | 0:1 0:2 0:3 | 0:2 0:3 | | / 0:2 0:3 | 0:1 0:2 0:3 | 0:1 | | ";
    shows_both_ways(&rt, rt.alloc(), &FIRST, &STEPS, wanted);
}

#[test]
fn a_column_is_null_for_a_while(rt: HostRuntime) {
    static FIRST: [Step; 5] = [
        WideTable(0),
        WideTable(1),
        Offer(0, NotNull(0)),
        PutTwo(0, 1, Int(1), Null),
        PutTwo(0, 2, Int(2), Null),
    ];
    static STEPS: [Step; 4] = [
        PutTwo(0, 1, Null, Null),
        PutTwo(0, 2, Null, Null),
        PutTwo(0, 1, Int(5), Null),
        Gone(0, 2),
    ];
    let wanted = "added | 0:1 | 0:1 0:2 | 0:2 | | / 0:2 | 0:1 0:2 | 0:1 | | ";
    shows_both_ways(&rt, rt.alloc(), &FIRST, &STEPS, wanted);
}

#[test]
fn a_check_is_false_for_a_while(rt: HostRuntime) {
    static FIRST: [Step; 5] = [
        WideTable(0),
        WideTable(1),
        Offer(0, Above(0, 1)),
        PutTwo(0, 1, Int(2), Null),
        PutTwo(0, 2, Int(3), Null),
    ];
    static STEPS: [Step; 5] = [
        PutTwo(0, 1, Int(1), Null),
        PutTwo(0, 2, Null, Null),
        PutTwo(0, 1, Null, Null),
        PutTwo(0, 3, Int(0), Null),
        PutTwo(0, 3, Int(2), Null),
    ];
    let wanted = "added | 0:1 | 0:1 | | 0:3 | | / 0:3 | | 0:1 | 0:1 | | ";
    shows_both_ways(&rt, rt.alloc(), &FIRST, &STEPS, wanted);
}

// Row 1 of the first table is a parent of row 2, of the second. One null is enough.
#[test]
fn a_simple_match_is_missed_for_a_while(rt: HostRuntime) {
    static FIRST: [Step; 6] = [
        WideTable(0),
        WideTable(1),
        Offer(0, PrimaryKey(Two(0, 1))),
        Offer(
            1,
            References(Reference {
                columns: Two(0, 1),
                matching: Simple,
                referenced: 0,
                key: Two(0, 1),
                mode: None,
            }),
        ),
        PutTwo(0, 1, Int(1), Int(2)),
        PutTwo(1, 2, Int(1), Int(2)),
    ];
    static STEPS: [Step; 8] = [
        PutTwo(1, 2, Int(1), Int(3)),
        PutTwo(1, 2, Null, Int(3)),
        PutTwo(1, 2, Null, Null),
        PutTwo(1, 2, Int(1), Int(3)),
        PutTwo(0, 3, Int(1), Int(3)),
        Gone(0, 1),
        PutTwo(0, 3, Int(1), Int(4)),
        Gone(1, 2),
    ];
    let wanted = "added | added | 1:2 | | | 1:2 | | | 1:2 | | / 1:2 | | | 1:2 | | | 1:2 | | ";
    shows_both_ways(&rt, rt.alloc(), &FIRST, &STEPS, wanted);
}

// Row 1 of the first table is a parent of row 2, of the second. All columns have to be null, or none.
#[test]
fn a_full_match_is_missed_for_a_while(rt: HostRuntime) {
    static FIRST: [Step; 6] = [
        WideTable(0),
        WideTable(1),
        Offer(0, PrimaryKey(Two(0, 1))),
        Offer(
            1,
            References(Reference {
                columns: Two(0, 1),
                matching: Full,
                referenced: 0,
                key: Two(0, 1),
                mode: None,
            }),
        ),
        PutTwo(0, 1, Int(1), Int(2)),
        PutTwo(1, 2, Int(1), Int(2)),
    ];
    static STEPS: [Step; 8] = [
        PutTwo(1, 2, Int(1), Int(3)),
        PutTwo(1, 2, Null, Int(3)),
        PutTwo(1, 2, Null, Null),
        PutTwo(1, 2, Int(1), Int(3)),
        PutTwo(0, 3, Int(1), Int(3)),
        Gone(0, 1),
        PutTwo(0, 3, Int(1), Int(4)),
        Gone(1, 2),
    ];
    let wanted =
        "added | added | 1:2 | 1:2 | | 1:2 | | | 1:2 | | / 1:2 | | | 1:2 | | 1:2 | 1:2 | | ";
    shows_both_ways(&rt, rt.alloc(), &FIRST, &STEPS, wanted);
}

// The first referencing column is paired with the second of the key.
#[test]
fn a_key_is_referenced_in_another_order(rt: HostRuntime) {
    static FIRST: [Step; 6] = [
        WideTable(0),
        WideTable(1),
        Offer(0, PrimaryKey(Two(0, 1))),
        Offer(
            1,
            References(Reference {
                columns: Two(0, 1),
                matching: Simple,
                referenced: 0,
                key: Two(1, 0),
                mode: None,
            }),
        ),
        PutTwo(0, 1, Int(1), Int(2)),
        PutTwo(1, 2, Int(2), Int(1)),
    ];
    static STEPS: [Step; 6] = [
        PutTwo(1, 2, Int(1), Int(2)),
        PutTwo(0, 1, Int(2), Int(1)),
        PutTwo(0, 3, Int(1), Int(2)),
        PutTwo(1, 2, Int(2), Int(1)),
        Gone(0, 3),
        Gone(1, 2),
    ];
    let wanted = "added | added | 1:2 | | | | 1:2 | | / 1:2 | | | | 1:2 | | ";
    shows_both_ways(&rt, rt.alloc(), &FIRST, &STEPS, wanted);
}

// A row refers to itself, to another one, and to none.
#[test]
fn a_table_references_itself(rt: HostRuntime) {
    static FIRST: [Step; 5] = [
        WideTable(0),
        WideTable(1),
        Offer(0, PrimaryKey(One(0))),
        Offer(
            0,
            References(Reference {
                columns: One(1),
                matching: Simple,
                referenced: 0,
                key: One(0),
                mode: None,
            }),
        ),
        PutTwo(0, 1, Int(1), Int(1)),
    ];
    static STEPS: [Step; 8] = [
        PutTwo(0, 1, Int(2), Int(1)),
        PutTwo(0, 2, Int(1), Int(2)),
        Gone(0, 1),
        PutTwo(0, 2, Int(2), Int(2)),
        PutTwo(0, 3, Int(3), Int(2)),
        PutTwo(0, 2, Int(2), Null),
        Gone(0, 2),
        PutTwo(0, 3, Int(2), Int(2)),
    ];
    let wanted = "added | added | 1:1 | | 1:2 | | | | 1:3 | | / 1:3 | | | | 1:2 | | 1:1 | | ";
    shows_both_ways(&rt, rt.alloc(), &FIRST, &STEPS, wanted);
}

// The key of a parent may be null, which no child refers to.
#[test]
fn a_parent_has_a_null_for_a_while(rt: HostRuntime) {
    static FIRST: [Step; 6] = [
        WideTable(0),
        WideTable(1),
        Offer(0, UniqueNulls(One(0))),
        Offer(
            1,
            References(Reference {
                columns: One(0),
                matching: Simple,
                referenced: 0,
                key: One(0),
                mode: None,
            }),
        ),
        PutTwo(0, 1, Null, Null),
        PutTwo(1, 2, Null, Null),
    ];
    static STEPS: [Step; 6] = [
        PutTwo(1, 2, Int(1), Null),
        PutTwo(0, 1, Int(1), Null),
        PutTwo(0, 3, Null, Null),
        PutTwo(0, 1, Null, Null),
        Gone(0, 3),
        PutTwo(1, 2, Null, Null),
    ];
    let wanted =
        "added | added | 1:2 | | | 0:1 0:3 1:2 | 1:2 | | / 1:2 | 0:1 0:3 1:2 | | | 1:2 | | ";
    shows_both_ways(&rt, rt.alloc(), &FIRST, &STEPS, wanted);
}

// Between the two changes both parents hold 1, so the child that holds 2 has none.
#[test]
fn parents_swap_their_values(rt: HostRuntime) {
    static FIRST: [Step; 8] = [
        WideTable(0),
        WideTable(1),
        Offer(0, Unique(One(0))),
        Offer(
            1,
            References(Reference {
                columns: One(0),
                matching: Simple,
                referenced: 0,
                key: One(0),
                mode: None,
            }),
        ),
        PutTwo(0, 1, Int(1), Null),
        PutTwo(0, 2, Int(2), Null),
        PutTwo(1, 3, Int(1), Null),
        PutTwo(1, 4, Int(2), Null),
    ];
    static STEPS: [Step; 2] = [PutTwo(0, 2, Int(1), Null), PutTwo(0, 1, Int(2), Null)];
    let wanted = "added | added | 0:1 0:2 1:4 | | / 0:1 0:2 1:4 | | ";
    shows_both_ways(&rt, rt.alloc(), &FIRST, &STEPS, wanted);
}
