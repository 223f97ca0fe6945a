//! What scripts become that are read and written.
use iv_parse::script;
use iv_syntax::{Select, SelectList, Statement};
use iv_write::{write_condition, write_expression, write_script, write_statement};
use std::alloc::Global;
use std::panic::Expect;
use std::process::Abort;

fn becomes(rt: &impl Abort, alloc: Global, (text, wanted): (&str, &str)) {
    let parsed = script(alloc, text).expect(rt, "memory");
    assert!(rt; parsed.fault.is_none(), "{text}");
    let statements = parsed.into_statements();
    let found = write_script(alloc, statements.as_slice()).expect(rt, "memory");
    assert!(rt; found.as_str() == wanted, "{text}");
}

const CASES: [(&str, &str); 31] = [
    ("", ""),
    ("select * from t;", "SELECT * FROM T;\n"),
    (
        "SELECT COUNT(*) FROM t x;",
        "SELECT COUNT(*) FROM T AS X;\n",
    ),
    (
        "SELECT -a,t.b*(+2-3) FROM t;",
        "SELECT - A, T.B * (+ 2 - 3) FROM T;\n",
    ),
    (
        "SELECT 007,'it''s --',NULL FROM t;",
        "SELECT 7, 'it''s --', NULL FROM T;\n",
    ),
    ("SELECT a- -1 FROM t;", "SELECT A - - 1 FROM T;\n"),
    (
        "SELECT*FROM t WHERE NOT(a<=1 OR b IS NOT NULL)AND c<>2;",
        "SELECT * FROM T WHERE NOT (A <= 1 OR B IS NOT NULL) AND C <> 2;\n",
    ),
    (
        "SELECT a FROM t WHERE EXISTS(SELECT*FROM u v WHERE a=v.a) OR EXISTS(SELECT * FROM w);",
        "SELECT A FROM T WHERE EXISTS (SELECT * FROM U AS V WHERE A = V.A) OR EXISTS (SELECT * FROM W);\n",
    ),
    ("INSERT INTO t VALUES(1);", "INSERT INTO T VALUES (1);\n"),
    (
        "INSERT INTO t(a,b) VALUES(1,DEFAULT),(-2,'x'),(3,NULL);",
        "INSERT INTO T (A, B) VALUES (1, DEFAULT),\n    (- 2, 'x'),\n    (3, NULL);\n",
    ),
    (
        "INSERT INTO t DEFAULT VALUES;",
        "INSERT INTO T DEFAULT VALUES;\n",
    ),
    (
        "INSERT INTO t (a) SELECT b FROM u WHERE c>1;",
        "INSERT INTO T (A) SELECT B FROM U WHERE C > 1;\n",
    ),
    (
        "UPDATE t SET a=1,b=DEFAULT WHERE c>=2;",
        "UPDATE T SET A = 1, B = DEFAULT WHERE C >= 2;\n",
    ),
    ("DELETE FROM t;", "DELETE FROM T;\n"),
    (
        "DELETE FROM t WHERE a IS NULL;",
        "DELETE FROM T WHERE A IS NULL;\n",
    ),
    (
        "CREATE TABLE t(a INT);",
        "CREATE TABLE T (\n    A INTEGER\n);\n",
    ),
    (
        "CREATE TABLE t(a INTEGER DEFAULT -1 NOT NULL UNIQUE, b CHAR VARYING(9) DEFAULT 'x' CONSTRAINT k CHECK(b<>''));",
        "CREATE TABLE T (\n    A INTEGER DEFAULT - 1 NOT NULL UNIQUE,\n    B VARCHAR(9) DEFAULT 'x' CONSTRAINT K CHECK (B <> '')\n);\n",
    ),
    (
        "CREATE TABLE t(a INT PRIMARY KEY INITIALLY DEFERRED DEFERRABLE, b INT REFERENCES t ON UPDATE CASCADE ON DELETE SET NULL);",
        "CREATE TABLE T (\n    A INTEGER PRIMARY KEY DEFERRABLE INITIALLY DEFERRED,\n    B INTEGER REFERENCES T ON DELETE SET NULL ON UPDATE CASCADE\n);\n",
    ),
    (
        "CREATE TABLE t(a INT,b INT,CONSTRAINT k PRIMARY KEY(a,b),UNIQUE NULLS NOT DISTINCT(b) NOT DEFERRABLE,CHECK((a)=1),FOREIGN KEY(a,b) REFERENCES u(c,d) MATCH FULL ON DELETE NO ACTION ON UPDATE SET DEFAULT);",
        "CREATE TABLE T (\n    A INTEGER,\n    B INTEGER,\n    CONSTRAINT K PRIMARY KEY (A, B),\n    UNIQUE NULLS NOT DISTINCT (B) NOT DEFERRABLE,\n    CHECK ((A) = 1),\n    FOREIGN KEY (A, B) REFERENCES U (C, D) MATCH FULL ON DELETE NO ACTION ON UPDATE SET DEFAULT\n);\n",
    ),
    (
        "ALTER TABLE t ADD CONSTRAINT k FOREIGN KEY (a) REFERENCES u MATCH SIMPLE ON DELETE RESTRICT INITIALLY IMMEDIATE;",
        "ALTER TABLE T ADD CONSTRAINT K FOREIGN KEY (A) REFERENCES U MATCH SIMPLE ON DELETE RESTRICT INITIALLY IMMEDIATE;\n",
    ),
    (
        "CREATE TRIGGER g BEFORE INSERT ON t REFERENCING NEW ROW n FOR EACH ROW SET n.a=1;",
        "CREATE TRIGGER G BEFORE INSERT ON T REFERENCING NEW AS N FOR EACH ROW SET N.A = 1;\n",
    ),
    (
        "CREATE TRIGGER g AFTER UPDATE OF a,b ON t REFERENCING OLD TABLE AS o NEW TABLE n FOR EACH STATEMENT WHEN(EXISTS(SELECT*FROM n)) BEGIN ATOMIC DELETE FROM u; SIGNAL 'it''s'; END;",
        "CREATE TRIGGER G AFTER UPDATE OF A, B ON T REFERENCING OLD TABLE AS O NEW TABLE AS N WHEN (EXISTS (SELECT * FROM N)) BEGIN ATOMIC\n    DELETE FROM U;\n    SIGNAL 'it''s';\nEND;\n",
    ),
    (
        "CREATE TRIGGER g AFTER DELETE ON t BEGIN ATOMIC SIGNAL ''; END;",
        "CREATE TRIGGER G AFTER DELETE ON T SIGNAL '';\n",
    ),
    ("DROP TRIGGER g;", "DROP TRIGGER G;\n"),
    (
        "START TRANSACTION;COMMIT WORK;ROLLBACK WORK;",
        "START TRANSACTION;\nCOMMIT;\nROLLBACK;\n",
    ),
    (
        "SAVEPOINT s;RELEASE SAVEPOINT s;",
        "SAVEPOINT S;\nRELEASE SAVEPOINT S;\n",
    ),
    (
        "ROLLBACK WORK TO SAVEPOINT s;",
        "ROLLBACK TO SAVEPOINT S;\n",
    ),
    (
        "SET CONSTRAINTS ALL DEFERRED;",
        "SET CONSTRAINTS ALL DEFERRED;\n",
    ),
    (
        "SET CONSTRAINTS a,b IMMEDIATE;",
        "SET CONSTRAINTS A, B IMMEDIATE;\n",
    ),
    (
        "CREATE TABLE t(a INT);INSERT INTO t VALUES(1),(2);",
        "CREATE TABLE T (\n    A INTEGER\n);\nINSERT INTO T VALUES (1),\n    (2);\n",
    ),
    (
        "CREATE TRIGGER g AFTER INSERT ON t BEGIN ATOMIC INSERT INTO u VALUES(1),(2); UPDATE u SET a=1; END;SELECT*FROM t;",
        "CREATE TRIGGER G AFTER INSERT ON T BEGIN ATOMIC\n    INSERT INTO U VALUES (1),\n    (2);\n    UPDATE U SET A = 1;\nEND;\nSELECT * FROM T;\n",
    ),
];

#[test]
fn scripts_become_texts(rt: HostRuntime) {
    for case in CASES {
        becomes(&rt, rt.alloc(), case);
    }
}

// The statement of a text, its condition and the first expression of its list, each on a line.
fn in_parts(rt: &impl Abort, alloc: Global, text: &str, wanted: [&str; 3]) {
    let statements = script(alloc, text).expect(rt, "memory").into_statements();
    let first = statements.as_slice().first().expect(rt, "no statement");
    let whole = write_statement(alloc, first).expect(rt, "memory");
    assert!(rt; whole.as_str() == wanted[0], "{text}");
    if let Statement::Select(Select::Rows(SelectList::Values(list), _, Some(condition))) = first {
        let found = write_condition(alloc, condition).expect(rt, "memory");
        assert!(rt; found.as_str() == wanted[1], "{text}");
        let value = list.as_slice().first().expect(rt, "no value");
        let written = write_expression(alloc, value).expect(rt, "memory");
        assert!(rt; written.as_str() == wanted[2], "{text}");
    } else {
        assert!(rt; false, "{text}");
    }
}

#[test]
fn parts_become_texts(rt: HostRuntime) {
    in_parts(
        &rt,
        rt.alloc(),
        "select t.a+1 from t where not a='''';",
        [
            "SELECT T.A + 1 FROM T WHERE NOT A = '''';\n",
            "NOT A = ''''",
            "T.A + 1",
        ],
    );
}
