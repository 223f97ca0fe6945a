//! What the last statement of a script answers, changes, undoes and looks up, on both stores.
use crate::calls::{Call, shows, shows_within};
use iv_machine::Limits;
use iv_store::Keeper;
use iv_store_index::IndexStore;
use iv_store_plain::PlainStore;
use std::alloc::Global;
use std::process::Abort;

const SWAP: &str =
    "CREATE TABLE p (k INT PRIMARY KEY); CREATE TABLE c (x INT REFERENCES p ON UPDATE CASCADE); INSERT INTO p VALUES (1), (2); INSERT INTO c VALUES (1), (2); UPDATE p SET k = 3 - k;";

const REFUSED_COMMIT: &str =
    "CREATE TABLE p (k INT PRIMARY KEY); CREATE TABLE c (x INT CONSTRAINT fk REFERENCES p INITIALLY DEFERRED); INSERT INTO c VALUES (7); COMMIT;";

const NESTED: &str =
    "CREATE TABLE t (a INT CHECK (a < 5)); CREATE TRIGGER r AFTER INSERT ON t INSERT INTO t VALUES (1); INSERT INTO t VALUES (0);";

const NO_ROWS: &str =
    "CREATE TABLE t (a INT); CREATE TABLE log (m VARCHAR(20)); CREATE TRIGGER s AFTER UPDATE ON t REFERENCING NEW TABLE AS nt WHEN (NOT EXISTS (SELECT * FROM nt)) INSERT INTO log VALUES ('empty'); CREATE TRIGGER r AFTER UPDATE ON t FOR EACH ROW INSERT INTO log VALUES ('row'); UPDATE t SET a = 1;";

const CASCADE: &str =
    "CREATE TABLE p (k INT PRIMARY KEY); CREATE TABLE c (x INT REFERENCES p ON DELETE CASCADE); INSERT INTO p VALUES (1); INSERT INTO c VALUES (1); INSERT INTO c VALUES (1); INSERT INTO c VALUES (1); COMMIT; DELETE FROM p;";

// A script, and what its last statement does.
struct Case {
    text: &'static str,
    // How deep triggers may nest, and how many changes a statement may make.
    limits: (u8, u32),
    // The answer, how many changes the statement makes, and how many it undoes.
    wanted: &'static str,
    // How many keys it looks up at most on a store that has groups of keys.
    most: u64,
}

const CASES: [Case; 8] = [
    Case {
        text: SWAP,
        limits: (16, 65_536),
        wanted: "changed 2; 4 0; ",
        most: 64,
    },
    Case {
        text: REFUSED_COMMIT,
        limits: (16, 65_536),
        wanted: "commit refused 1 row 1; 0 1; ",
        most: 16,
    },
    Case {
        text: NESTED,
        limits: (16, 65_536),
        wanted: "depth limit 0; 16 16; ",
        most: 256,
    },
    Case {
        text: NESTED,
        limits: (64, 65_536),
        wanted: "depth limit 0; 64 64; ",
        most: 1_024,
    },
    Case {
        text: NO_ROWS,
        limits: (16, 65_536),
        wanted: "changed 0; 1 0; ",
        most: 0,
    },
    Case {
        text: CASCADE,
        limits: (16, 3),
        wanted: "too many changes; 1 1; ",
        most: 32,
    },
    Case {
        text: CASCADE,
        limits: (16, 5),
        wanted: "changed 1; 4 0; ",
        most: 64,
    },
    Case {
        text: "",
        limits: (16, 65_536),
        wanted: "0 0; ",
        most: 0,
    },
];

// All scripts, on a store that looks keys up or doesn't.
fn check_all<K: Keeper + Drop>(rt: &impl Abort, alloc: Global, looks_up: bool) {
    for case in CASES.as_slice() {
        let most = if looks_up { case.most } else { 0 };
        let calls = [Call::RunAndShowLast, Call::Work, Call::LookUps(most)];
        shows_within::<K>(rt, alloc, case.text, case.limits, &calls, case.wanted);
    }
}

#[test]
fn a_store_of_lists_looks_nothing_up(rt: HostRuntime) {
    check_all::<PlainStore>(&rt, rt.alloc(), false)
}

#[test]
fn a_store_of_groups_looks_few_keys_up(rt: HostRuntime) {
    check_all::<IndexStore>(&rt, rt.alloc(), true)
}

#[test]
fn each_row_of_a_load_looks_few_keys_up(rt: HostRuntime) {
    static CALLS: [Call; 5] = [
        Call::RunAndShow,
        Call::LookUps(0),
        Call::Load {
            rows: 65_536,
            most: 8,
        },
        Call::Commit,
        Call::LookUps(0),
    ];
    let text = "CREATE TABLE t (k INT PRIMARY KEY);";
    shows::<IndexStore>(
        &rt,
        rt.alloc(),
        text,
        &CALLS,
        "done; inserted 65536; committed; ",
    )
}

#[test]
fn limits_are_within_their_ranges(rt: HostRuntime) {
    assert!(rt; Limits::new(1, 1).is_some());
    assert!(rt; Limits::new(64, 1).is_some());
    assert!(rt; Limits::new(65, 1).is_none());
    assert!(rt; Limits::new(0, 1).is_none());
}
