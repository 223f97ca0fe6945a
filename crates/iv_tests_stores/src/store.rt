//! The marks of a store, which the program doesn't count, and its look-ups.
use iv_store::{Keeper, Mark, ReferencingRows};
use iv_store_plain::PlainStore;
use std::alloc::Global;
use std::panic::Expect;
use std::process::Abort;

// How many marks there are at first, after two of them, after going back to the first, and after settling; the place
// of the second; and how many keys were looked up.
fn counts(rt: &impl Abort, store: &mut PlainStore) -> ([usize; 4], usize, u64) {
    let none = store.marks();
    store.mark().expect(rt, "memory");
    let second = store.mark().expect(rt, "memory");
    let two = store.marks();
    assert!(rt; two > 0);
    store.undo_to(Mark::new(0)).expect(rt, "memory");
    let one = store.marks();
    store.settle();
    let marks = [none, two, one, store.marks()];
    (marks, second.place(), store.looked_up())
}

// The same counts in a new store.
fn counts_anew(rt: &impl Abort, alloc: Global) -> ([usize; 4], usize, u64) {
    let mut store = PlainStore::new(alloc);
    let counts = counts(rt, &mut store);
    drop(store);
    counts
}

#[test]
fn marks_are_counted(rt: HostRuntime) {
    assert_eq!(rt; counts_anew(&rt, rt.alloc()), ([0, 2, 1, 0], 1, 0));
}
