//! Sessions between the statements of scripts: work, what is pending, and the calls that no statement makes.
use crate::calls::{Call, shows};
use iv_store_index::IndexStore;
use iv_store_plain::PlainStore;

const AFTER_A_REFUSED_COMMIT: &str =
    "CREATE TABLE p (k INT PRIMARY KEY); CREATE TABLE c (x INT CONSTRAINT fk REFERENCES p INITIALLY DEFERRED); INSERT INTO c VALUES (7); COMMIT; SELECT * FROM c; START TRANSACTION;";

const MENDED: &str =
    "CREATE TABLE p (k INT PRIMARY KEY); CREATE TABLE c (x INT CONSTRAINT fk REFERENCES p INITIALLY DEFERRED); INSERT INTO c VALUES (7); INSERT INTO p VALUES (7); COMMIT;";

const TWO_SAVEPOINTS: &str =
    "CREATE TABLE p (k INT PRIMARY KEY); CREATE TABLE c (x INT CONSTRAINT fk REFERENCES p DEFERRABLE); START TRANSACTION; SAVEPOINT s; SET CONSTRAINTS fk DEFERRED; INSERT INTO c VALUES (2); SAVEPOINT s; INSERT INTO p VALUES (2); SET CONSTRAINTS fk IMMEDIATE;";

const BACK_AND_FORTH: &str =
    "CREATE TABLE p (k INT PRIMARY KEY); CREATE TABLE c (x INT CONSTRAINT fk REFERENCES p DEFERRABLE); START TRANSACTION; SAVEPOINT s; SET CONSTRAINTS fk DEFERRED; INSERT INTO c VALUES (2); SAVEPOINT s; INSERT INTO p VALUES (2); SET CONSTRAINTS fk IMMEDIATE; ROLLBACK TO SAVEPOINT s; INSERT INTO c VALUES (3); ROLLBACK TO SAVEPOINT s; SELECT * FROM c; RELEASE SAVEPOINT s; ROLLBACK TO SAVEPOINT s; COMMIT;";

const TWO_CHECKS: &str =
    "CREATE TABLE t (a INT, CONSTRAINT pos CHECK (a > 0) INITIALLY DEFERRED, CONSTRAINT big CHECK (a < 9)); INSERT INTO t VALUES (0); INSERT INTO t VALUES (9); COMMIT;";

const ONE_ROW_PENDING: &str =
    "CREATE TABLE t (a INT, CONSTRAINT pos CHECK (a > 0) INITIALLY DEFERRED); INSERT INTO t VALUES (0);";

const SET_IMMEDIATE: &str =
    "CREATE TABLE t (a INT, CONSTRAINT pos CHECK (a > 0) INITIALLY DEFERRED, CONSTRAINT big CHECK (a < 9)); START TRANSACTION; SET CONSTRAINTS pos IMMEDIATE;";

const TWO_ROWS: &str =
    "CREATE TABLE t (a INT); CREATE TABLE u (a INT, b INT); INSERT INTO t VALUES (1); INSERT INTO u VALUES (2, 3); DELETE FROM t;";

const TO_DUMP: &str =
    "CREATE TABLE t (a INT, b VARCHAR(9), CHECK (-(a + 1) * 2 < 3)); INSERT INTO t VALUES (7, 'x'), (-1, ''''); COMMIT; CREATE TRIGGER g BEFORE INSERT ON t REFERENCING NEW AS n FOR EACH ROW WHEN (n.a = 0) SET n.a = 1;";

const DUMPED: &str =
    "CREATE TABLE T (\n    A INTEGER,\n    B VARCHAR(9),\n    CONSTRAINT T_C1 CHECK (- (A + 1) * 2 < 3)\n);\nINSERT INTO T VALUES (7, 'x'),\n    (- 1, '''');\nCOMMIT;\nCREATE TRIGGER G BEFORE INSERT ON T REFERENCING NEW AS R_NEW FOR EACH ROW WHEN (R_NEW.A = 0) SET R_NEW.A = 1;\n";

// P's key and POS are the constraint at place 0, FK and BIG the one at place 1.
#[test]
fn pending_is_shown_after_each_statement(rt: HostRuntime) {
    static CALLS: [Call; 1] = [Call::ExecuteWithPending];
    let alloc = rt.alloc();
    let wanted = "0; 0 row 1, 1; 0 row 1, 1; 0; ";
    shows::<PlainStore>(&rt, alloc, TWO_CHECKS, &CALLS, wanted);
    let wanted = "0; 0; 1 row 1, 1; 0; 0; ";
    shows::<PlainStore>(&rt, alloc, MENDED, &CALLS, wanted);
    let wanted = "0; 0; 1 row 1, 1; 0; 0; 0; ";
    shows::<PlainStore>(&rt, alloc, AFTER_A_REFUSED_COMMIT, &CALLS, wanted);
    let wanted =
        "0; 0; 0; 0; 0; 1 row 1, 1; 1 row 1, 1; 0; 0; 1 row 1, 1; 1 row 1, 1 row 2, 2; 1 row 1, 1; 1 row 1, 1; 1 row 1, 1; 1 row 1, 1; 0; ";
    shows::<PlainStore>(&rt, alloc, BACK_AND_FORTH, &CALLS, wanted)
}

#[test]
fn statements_are_run_all_together(rt: HostRuntime) {
    static CALLS: [Call; 3] = [Call::RunAndShow, Call::State, Call::Catalogue];
    let wanted =
        "done; done; changed 1; commit refused 1 row 1; rows 0; done; 0 open 0 0; 2 tables, 2 constraints; ";
    shows::<PlainStore>(&rt, rt.alloc(), AFTER_A_REFUSED_COMMIT, &CALLS, wanted)
}

#[test]
fn rollback_to_restores_modes(rt: HostRuntime) {
    static CALLS: [Call; 10] = [
        Call::Run,
        Call::State,
        Call::RollbackTo("S"),
        Call::State,
        Call::RollbackTo("T"),
        Call::State,
        Call::Rollback,
        Call::State,
        Call::RollbackTo("S"),
        Call::State,
    ];
    let wanted =
        "0 open 0 0; done; 1 open 0 1; unknown savepoint; 1 open 0 0; 0 closed 0 1; no transaction; 0 closed 0 0; ";
    shows::<PlainStore>(&rt, rt.alloc(), TWO_SAVEPOINTS, &CALLS, wanted)
}

#[test]
fn refused_commit_ends_the_transaction(rt: HostRuntime) {
    static CALLS: [Call; 6] = [
        Call::Run,
        Call::State,
        Call::Commit,
        Call::State,
        Call::Commit,
        Call::State,
    ];
    let wanted = "1 open 1 0; violated 0 row 1; 0 closed 0 1; committed; 0 closed 0 0; ";
    shows::<PlainStore>(&rt, rt.alloc(), ONE_ROW_PENDING, &CALLS, wanted)
}

// The first CHECK is deferred at first, the second one never.
#[test]
fn modes_are_those_of_now(rt: HostRuntime) {
    static CALLS: [Call; 4] = [Call::Run, Call::Modes, Call::Rollback, Call::Modes];
    shows::<PlainStore>(
        &rt,
        rt.alloc(),
        SET_IMMEDIATE,
        &CALLS,
        "immediate immediate ; deferred immediate ; ",
    )
}

// Row 1 is deleted, and row 2 stands in the second table.
#[test]
fn rows_are_read_by_their_numbers(rt: HostRuntime) {
    static CALLS: [Call; 5] = [
        Call::Run,
        Call::Row(0),
        Call::Row(1),
        Call::Row(2),
        Call::Row(3),
    ];
    let wanted = "no row; no row; table 1 with 2; no row; ";
    shows::<PlainStore>(&rt, rt.alloc(), TWO_ROWS, &CALLS, wanted);
    shows::<IndexStore>(&rt, rt.alloc(), TWO_ROWS, &CALLS, wanted)
}

#[test]
fn rows_of_a_table_are_counted(rt: HostRuntime) {
    static CALLS: [Call; 4] = [Call::Run, Call::Rows(0), Call::Rows(1), Call::Rows(2)];
    let wanted = "0 rows; 1 rows; 0 rows; ";
    shows::<PlainStore>(&rt, rt.alloc(), TWO_ROWS, &CALLS, wanted);
    shows::<IndexStore>(&rt, rt.alloc(), TWO_ROWS, &CALLS, wanted)
}

#[test]
fn a_database_is_dumped(rt: HostRuntime) {
    static CALLS: [Call; 2] = [Call::Run, Call::Dump];
    shows::<PlainStore>(&rt, rt.alloc(), TO_DUMP, &CALLS, DUMPED);
    shows::<IndexStore>(&rt, rt.alloc(), TO_DUMP, &CALLS, DUMPED)
}

#[test]
fn none_is_dumped_in_a_transaction(rt: HostRuntime) {
    static CALLS: [Call; 2] = [Call::Run, Call::Dump];
    shows::<IndexStore>(&rt, rt.alloc(), ONE_ROW_PENDING, &CALLS, "open; ")
}
