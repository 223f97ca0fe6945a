//! The account of the last statement or call, as a session gives it.
use crate::calls::{Call, shows};
use iv_store_plain::PlainStore;

const CASCADE: &str =
    "CREATE TABLE p (k INT PRIMARY KEY); CREATE TABLE c (x INT REFERENCES p ON DELETE CASCADE); CREATE TABLE log (n INT); CREATE TRIGGER r AFTER DELETE ON c REFERENCING OLD AS o FOR EACH ROW INSERT INTO log VALUES (o.x); INSERT INTO p VALUES (7); INSERT INTO c VALUES (7), (7); DELETE FROM p;";

const SAME_KEY: &str =
    "CREATE TABLE p (k INT PRIMARY KEY); INSERT INTO p VALUES (7); INSERT INTO p VALUES (8), (7);";

const SKIPPED: &str =
    "CREATE TABLE t (a INT); CREATE TABLE u (a INT); CREATE TRIGGER b BEFORE INSERT ON t WHEN (NULL > 0) SIGNAL 'no'; CREATE TRIGGER r AFTER INSERT ON t REFERENCING NEW AS n FOR EACH ROW WHEN (n.a > 1) DELETE FROM u; INSERT INTO t VALUES (1), (2);";

const CONFLICT: &str =
    "CREATE TABLE p (k INT UNIQUE, l INT UNIQUE); CREATE TABLE c (x INT CONSTRAINT f REFERENCES p (k) ON UPDATE SET NULL CONSTRAINT g REFERENCES p (l) ON UPDATE CASCADE); INSERT INTO p VALUES (5, 5); INSERT INTO c VALUES (5); UPDATE p SET k = 6, l = 7;";

const FAILED_UPDATE: &str =
    "CREATE TABLE t (a INT); INSERT INTO t VALUES (1), (9223372036854775807); UPDATE t SET a = a + 1;";

const FAILED_QUERY: &str =
    "CREATE TABLE t (a INT); INSERT INTO t VALUES (1), (9223372036854775807); SELECT a, a * 2 FROM t;";

const FAILED_SET: &str =
    "CREATE TABLE t (a VARCHAR(3)); CREATE TRIGGER b BEFORE INSERT ON t REFERENCING NEW AS n FOR EACH ROW SET n.a = 'four'; INSERT INTO t VALUES ('one');";

const FAILED_WHEN: &str =
    "CREATE TABLE t (a INT); CREATE TRIGGER r AFTER INSERT ON t REFERENCING NEW AS n FOR EACH ROW WHEN (n.a + 1 > 0) DELETE FROM t; INSERT INTO t VALUES (9223372036854775807);";

const DEFERRED: &str =
    "CREATE TABLE t (a INT, CONSTRAINT pos CHECK (a > 0) INITIALLY DEFERRED); INSERT INTO t VALUES (0), (1), (-1);";

const RELEASED: &str =
    "START TRANSACTION; SAVEPOINT a; SAVEPOINT b; SAVEPOINT a; RELEASE SAVEPOINT z;";

const BACK_TO_NONE: &str =
    "START TRANSACTION; SAVEPOINT a; RELEASE SAVEPOINT a; ROLLBACK TO SAVEPOINT a;";

const BACK_TO_ONE: &str = "START TRANSACTION; SAVEPOINT a; SAVEPOINT b; ROLLBACK TO SAVEPOINT a;";

const NOT_ADDED: &str =
    "CREATE TABLE t (a INT); INSERT INTO t VALUES (1), (7), (7); COMMIT; ALTER TABLE t ADD UNIQUE (a);";

const ADDED: &str =
    "CREATE TABLE t (a INT); INSERT INTO t VALUES (1), (7), (7); COMMIT; ALTER TABLE t ADD CHECK (a > 0);";

// C_C1 is the constraint at place 1; the rows of C are 2 and 3, those of LOG 4 and 5.
#[test]
fn a_cascade_is_told(rt: HostRuntime) {
    static CALLS: [Call; 3] = [Call::Explain(true), Call::Execute, Call::Account];
    let wanted =
        "changed 1; acted 1 on 2 1 on 3; changed 2 3; ran 0 true false 0; began 1; changed 4; ended; ran 0 true false 0; began 1; changed 5; ended; ";
    shows::<PlainStore>(&rt, rt.alloc(), CASCADE, &CALLS, wanted)
}

#[test]
fn nothing_is_told_where_it_is_not_asked_for(rt: HostRuntime) {
    static CALLS: [Call; 3] = [Call::Explain(false), Call::Execute, Call::Account];
    shows::<PlainStore>(&rt, rt.alloc(), CASCADE, &CALLS, "")
}

#[test]
fn both_rows_of_a_key_are_told(rt: HostRuntime) {
    static CALLS: [Call; 3] = [Call::Explain(true), Call::Execute, Call::Account];
    shows::<PlainStore>(
        &rt,
        rt.alloc(),
        SAME_KEY,
        &CALLS,
        "changed 2 3; faulted 0 1, 1, 3; ",
    )
}

// B is asked once, and R for each row: of OLD and NEW it sees NEW. The DELETE of R finds no row.
#[test]
fn skipped_triggers_are_told(rt: HostRuntime) {
    static CALLS: [Call; 3] = [Call::Explain(true), Call::Execute, Call::Account];
    let wanted =
        "skipped 0 false false unknown; changed 1 2; skipped 1 false true false; ran 1 false true 0; began 1; ended; ";
    shows::<PlainStore>(&rt, rt.alloc(), SKIPPED, &CALLS, wanted)
}

// F is the constraint at place 2, and G that at place 3.
#[test]
fn two_foreign_keys_that_disagree_are_told(rt: HostRuntime) {
    static CALLS: [Call; 3] = [Call::Explain(true), Call::Execute, Call::Account];
    shows::<PlainStore>(
        &rt,
        rt.alloc(),
        CONFLICT,
        &CALLS,
        "changed 1; disagreed 3 2 with 2 about 0, 2; ",
    )
}

#[test]
fn what_failed_in_an_update_is_told(rt: HostRuntime) {
    static CALLS: [Call; 3] = [Call::Explain(true), Call::Execute, Call::Account];
    shows::<PlainStore>(&rt, rt.alloc(), FAILED_UPDATE, &CALLS, "failed; ")
}

#[test]
fn what_failed_in_a_query_is_told(rt: HostRuntime) {
    static CALLS: [Call; 3] = [Call::Explain(true), Call::Execute, Call::Account];
    shows::<PlainStore>(&rt, rt.alloc(), FAILED_QUERY, &CALLS, "failed; ")
}

#[test]
fn what_failed_in_a_set_is_told(rt: HostRuntime) {
    static CALLS: [Call; 3] = [Call::Explain(true), Call::Execute, Call::Account];
    shows::<PlainStore>(
        &rt,
        rt.alloc(),
        FAILED_SET,
        &CALLS,
        "ran 0 false true 0; failed; ",
    )
}

#[test]
fn what_failed_in_a_condition_is_told(rt: HostRuntime) {
    static CALLS: [Call; 3] = [Call::Explain(true), Call::Execute, Call::Account];
    shows::<PlainStore>(&rt, rt.alloc(), FAILED_WHEN, &CALLS, "changed 1; failed; ")
}

#[test]
fn savepoints_that_stand_are_told(rt: HostRuntime) {
    static CALLS: [Call; 3] = [Call::Explain(true), Call::Execute, Call::Account];
    shows::<PlainStore>(&rt, rt.alloc(), RELEASED, &CALLS, "standing B A; ");
    shows::<PlainStore>(&rt, rt.alloc(), BACK_TO_NONE, &CALLS, "standing; ");
    shows::<PlainStore>(&rt, rt.alloc(), BACK_TO_ONE, &CALLS, "")
}

#[test]
fn a_constraint_that_is_not_added_is_told(rt: HostRuntime) {
    static CALLS: [Call; 3] = [Call::Explain(true), Call::Execute, Call::Account];
    shows::<PlainStore>(&rt, rt.alloc(), NOT_ADDED, &CALLS, "not added T_C1, 2, 3; ");
    shows::<PlainStore>(&rt, rt.alloc(), ADDED, &CALLS, "")
}

#[test]
fn all_violations_of_a_commit_are_told(rt: HostRuntime) {
    static CALLS: [Call; 4] = [
        Call::Explain(true),
        Call::Execute,
        Call::CommitUnseen,
        Call::Account,
    ];
    shows::<PlainStore>(
        &rt,
        rt.alloc(),
        DEFERRED,
        &CALLS,
        "faulted 0 1, 1; faulted 0 3, 3; ",
    )
}

#[test]
fn a_rollback_is_told_nothing(rt: HostRuntime) {
    static CALLS: [Call; 4] = [
        Call::Explain(true),
        Call::Execute,
        Call::Rollback,
        Call::Account,
    ];
    shows::<PlainStore>(&rt, rt.alloc(), DEFERRED, &CALLS, "")
}

#[test]
fn what_is_pending_is_told_with_its_rows(rt: HostRuntime) {
    static CALLS: [Call; 2] = [Call::Execute, Call::Violations];
    shows::<PlainStore>(
        &rt,
        rt.alloc(),
        DEFERRED,
        &CALLS,
        "faulted 0 1, 1; faulted 0 3, 3; ",
    )
}
