//! What is known of a script's wrong word beside what might have stood there.
ghost use Rattle.std.specs.Prelude.{◌≡◌, ◌&&◌, ◌||◌, if◌then◌else◌, codes, drop, map};
ghost use Rattle.std.specs.Str.{str_eq_ignore_ascii_case};
ghost use Rattle.iv_lex.specs.Told.{or_else};
ghost use Rattle.iv_script.specs.Hints.{call_hint, clause_hint, join_hint, other_hint, statement_hint, begins_with, fault_hint, first_hint, fit, fits, front_hint, hint_among, is_lexical, known_hint, left_out_hint, lexical_hint, no_token_hint, token_text, type_hint, wants_type, word_hint};

use iv_lex::{Token, TokenKind};
use iv_parse::SyntaxFault;

// Rows of what the language leaves out, or writes otherwise, by the word before and the word that can't stand there: the first that fits is
// told. `*` fits every word, and no word comes before the first of a statement.

/// Statements that the language leaves out, and signs that are written otherwise.
pub static STATEMENTS: [((&str, &str), &str); 19] = [
    (("=", "="), "== is written ="),
    (("", "BEGIN"), "a transaction begins with START TRANSACTION"),
    (("DROP", "TABLE"), "DROP TABLE isn't in this language"),
    (("DROP", "VIEW"), "DROP VIEW isn't in this language"),
    (("DROP", "INDEX"), "DROP INDEX isn't in this language"),
    (("CREATE", "VIEW"), "CREATE VIEW isn't in this language"),
    (("CREATE", "INDEX"), "CREATE INDEX isn't in this language"),
    (("CREATE", "UNIQUE"), "CREATE INDEX isn't in this language"),
    (("CREATE", "TEMPORARY"), "there are no temporary tables"),
    (("CREATE", "TEMP"), "there are no temporary tables"),
    (("IF", "NOT"), "IF NOT EXISTS isn't in this language"),
    (("ADD", "COLUMN"), "ADD COLUMN isn't in this language"),
    (("", "TRUNCATE"), "TRUNCATE isn't in this language"),
    (("", "MERGE"), "MERGE isn't in this language"),
    (("", "REPLACE"), "REPLACE isn't in this language"),
    (("", "WITH"), "WITH isn't in this language"),
    (("", "EXPLAIN"), "EXPLAIN isn't in this language"),
    (("", "GRANT"), "GRANT isn't in this language"),
    (("", "PRAGMA"), "PRAGMA isn't in this language"),
];

/// Words of joins.
pub static JOINS: [((&str, &str), &str); 7] = [
    (("*", "JOIN"), "JOIN isn't in this language"),
    (("JOIN", "*"), "JOIN isn't in this language"),
    (("*", "INNER"), "JOIN isn't in this language"),
    (("*", "LEFT"), "JOIN isn't in this language"),
    (("*", "RIGHT"), "JOIN isn't in this language"),
    (("*", "CROSS"), "JOIN isn't in this language"),
    (("*", "NATURAL"), "JOIN isn't in this language"),
];

/// Words of other parts of a query.
pub static CLAUSES: [((&str, &str), &str); 18] = [
    (("*", "ORDER"), "ORDER BY isn't in this language"),
    (("ORDER", "BY"), "ORDER BY isn't in this language"),
    (("*", "GROUP"), "GROUP BY isn't in this language"),
    (("GROUP", "BY"), "GROUP BY isn't in this language"),
    (("*", "HAVING"), "HAVING isn't in this language"),
    (("HAVING", "*"), "HAVING isn't in this language"),
    (("*", "LIMIT"), "LIMIT isn't in this language"),
    (("LIMIT", "*"), "LIMIT isn't in this language"),
    (("*", "OFFSET"), "OFFSET isn't in this language"),
    (("OFFSET", "*"), "OFFSET isn't in this language"),
    (("*", "FETCH"), "FETCH isn't in this language"),
    (("FETCH", "*"), "FETCH isn't in this language"),
    (("*", "UNION"), "UNION isn't in this language"),
    (("UNION", "*"), "UNION isn't in this language"),
    (("*", "EXCEPT"), "EXCEPT isn't in this language"),
    (("EXCEPT", "*"), "EXCEPT isn't in this language"),
    (("*", "INTERSECT"), "INTERSECT isn't in this language"),
    (("INTERSECT", "*"), "INTERSECT isn't in this language"),
];

/// Predicates and functions that the language leaves out.
pub static CALLS: [((&str, &str), &str); 15] = [
    (("*", "LIKE"), "LIKE isn't in this language"),
    (("*", "IN"), "IN isn't in this language"),
    (("*", "BETWEEN"), "BETWEEN isn't in this language"),
    (("CASE", "WHEN"), "CASE isn't in this language"),
    (("CAST", "("), "CAST isn't in this language"),
    (("COALESCE", "("), "COALESCE isn't in this language"),
    (("SUM", "("), "SUM isn't in this language"),
    (("AVG", "("), "AVG isn't in this language"),
    (("MIN", "("), "MIN isn't in this language"),
    (("MAX", "("), "MAX isn't in this language"),
    (("UPPER", "("), "UPPER isn't in this language"),
    (("LOWER", "("), "LOWER isn't in this language"),
    (("LENGTH", "("), "LENGTH isn't in this language"),
    (("SUBSTRING", "("), "SUBSTRING isn't in this language"),
    (("ABS", "("), "ABS isn't in this language"),
];

/// Other words that the language leaves out.
pub static WORDS: [((&str, &str), &str); 10] = [
    (
        ("*", "AUTO_INCREMENT"),
        "AUTO_INCREMENT isn't in this language",
    ),
    (
        ("*", "AUTOINCREMENT"),
        "AUTOINCREMENT isn't in this language",
    ),
    (("*", "GENERATED"), "GENERATED isn't in this language"),
    (("*", "COLLATE"), "COLLATE isn't in this language"),
    (("*", "RETURNING"), "RETURNING isn't in this language"),
    (("RETURNING", "*"), "RETURNING isn't in this language"),
    (("*", "USING"), "USING isn't in this language"),
    (("USING", "*"), "USING isn't in this language"),
    (("*", "TRUE"), "there are no truth values"),
    (("*", "FALSE"), "there are no truth values"),
];

/// The types that the language leaves out.
pub static NO_TYPES: [((&str, &str), &str); 22] = [
    (
        ("*", "BIGINT"),
        "BIGINT isn't in this language; an INTEGER has 64 bits",
    ),
    (
        ("*", "SMALLINT"),
        "SMALLINT isn't in this language; an INTEGER has 64 bits",
    ),
    (
        ("*", "SERIAL"),
        "SERIAL isn't in this language; there are INTEGER and VARCHAR",
    ),
    (
        ("*", "DECIMAL"),
        "DECIMAL isn't in this language; there are INTEGER and VARCHAR",
    ),
    (
        ("*", "NUMERIC"),
        "NUMERIC isn't in this language; there are INTEGER and VARCHAR",
    ),
    (
        ("*", "FLOAT"),
        "FLOAT isn't in this language; there are INTEGER and VARCHAR",
    ),
    (
        ("*", "REAL"),
        "REAL isn't in this language; there are INTEGER and VARCHAR",
    ),
    (
        ("*", "DOUBLE"),
        "DOUBLE isn't in this language; there are INTEGER and VARCHAR",
    ),
    (
        ("*", "MONEY"),
        "MONEY isn't in this language; there are INTEGER and VARCHAR",
    ),
    (
        ("*", "DATE"),
        "DATE isn't in this language; there are INTEGER and VARCHAR",
    ),
    (
        ("*", "TIME"),
        "TIME isn't in this language; there are INTEGER and VARCHAR",
    ),
    (
        ("*", "DATETIME"),
        "DATETIME isn't in this language; there are INTEGER and VARCHAR",
    ),
    (
        ("*", "TIMESTAMP"),
        "TIMESTAMP isn't in this language; there are INTEGER and VARCHAR",
    ),
    (
        ("*", "INTERVAL"),
        "INTERVAL isn't in this language; there are INTEGER and VARCHAR",
    ),
    (
        ("*", "BOOLEAN"),
        "BOOLEAN isn't in this language; there are INTEGER and VARCHAR",
    ),
    (
        ("*", "BOOL"),
        "BOOL isn't in this language; there are INTEGER and VARCHAR",
    ),
    (
        ("*", "TEXT"),
        "TEXT isn't in this language; a VARCHAR has a length",
    ),
    (
        ("*", "CLOB"),
        "CLOB isn't in this language; a VARCHAR has a length",
    ),
    (
        ("*", "BLOB"),
        "BLOB isn't in this language; there are INTEGER and VARCHAR",
    ),
    (
        ("*", "BYTEA"),
        "BYTEA isn't in this language; there are INTEGER and VARCHAR",
    ),
    (
        ("*", "JSON"),
        "JSON isn't in this language; there are INTEGER and VARCHAR",
    ),
    (
        ("*", "UUID"),
        "UUID isn't in this language; there are INTEGER and VARCHAR",
    ),
];

/// What no token begins with, and what is known of it.
pub static NO_TOKENS: [(&str, &str); 10] = [
    ("'", "a text without its closing quote"),
    (
        "\"",
        "a text stands between single quotes, and a name has none",
    ),
    ("`", "a name has no quotes"),
    ("[", "a name has no brackets"),
    ("!=", "!= is written <>"),
    ("/*", "a comment begins with --"),
    ("/", "/ isn't in this language"),
    ("%", "% isn't in this language"),
    ("||", "|| isn't in this language"),
    ("\u{feff}", "a byte order mark begins no word"),
];

/// The characters of a token, where there is one.
pub fn token_text<'a>(text: &'a str, token: Option<Token>) -> &'a [u8]
    ensures { result.now ≡ token_text text.entry.now token }
{
    let bytes = text.as_bytes();
    let Some(token) = token else {
        return &bytes[..0];
    };
    let rest = &bytes[token.start.min(bytes.len())..];
    &rest[..token.end.saturating_sub(token.start).min(rest.len())]
}

fn is_same(word: &[u8], other: &str) -> bool
    ensures { result ≡ str_eq_ignore_ascii_case word.now other.now }
{
    word.eq_ignore_ascii_case(other.as_bytes())
}

// Whether a word is the one of a pattern.
fn fits(pattern: &str, word: &[u8]) -> bool
    ensures { result ≡ fits pattern.now word.now }
{
    is_same(b"*", pattern) || is_same(word, pattern)
}

// Whether two words are those of two patterns.
fn fit(first: &str, second: &str, before: &[u8], word: &[u8]) -> bool
    ensures { result ≡ fit (first.now, second.now) before.now word.now }
{
    fits(first, before) && fits(second, word)
}

// What the first of these rows says that fits.
fn hint_among(
    rows: &[((&'static str, &'static str), &'static str)],
    before: &[u8],
    word: &[u8],
) -> &'static str
    ensures { result.now
        ≡ hint_among (map (λ row. ((row.0.0.now, row.0.1.now), row.1.now)) rows.now) before.now word.now }
{
    for (patterns, says) in rows {
        if fit(patterns.0, patterns.1, before, word) {
            return says;
        }
    }
    ""
}

fn wants_type(fault: &SyntaxFault) -> bool
    ensures { result ≡ wants_type fault.now }
{
    fault.wanted.as_slice().contains(&TokenKind::Integer)
}

fn type_hint(before: &[u8], word: &[u8]) -> &'static str
    ensures { result.now ≡ type_hint before.now word.now }
{
    hint_among(&NO_TYPES, before, word)
}

fn statement_hint(before: &[u8], word: &[u8]) -> &'static str
    ensures { result.now ≡ statement_hint before.now word.now }
{
    hint_among(&STATEMENTS, before, word)
}

fn join_hint(before: &[u8], word: &[u8]) -> &'static str
    ensures { result.now ≡ join_hint before.now word.now }
{
    hint_among(&JOINS, before, word)
}

fn clause_hint(before: &[u8], word: &[u8]) -> &'static str
    ensures { result.now ≡ clause_hint before.now word.now }
{
    hint_among(&CLAUSES, before, word)
}

fn call_hint(before: &[u8], word: &[u8]) -> &'static str
    ensures { result.now ≡ call_hint before.now word.now }
{
    hint_among(&CALLS, before, word)
}

fn other_hint(before: &[u8], word: &[u8]) -> &'static str
    ensures { result.now ≡ other_hint before.now word.now }
{
    hint_among(&WORDS, before, word)
}

fn or_else(text: &'static str, other: &'static str) -> &'static str
    ensures { result.now ≡ or_else text.now other.now }
{
    if text.is_empty() { other } else { text }
}

// What the first of the tables says.
fn left_out_hint(before: &[u8], word: &[u8]) -> &'static str
    ensures { result.now ≡ left_out_hint before.now word.now }
{
    let query = or_else(join_hint(before, word), clause_hint(before, word));
    let rest = or_else(call_hint(before, word), other_hint(before, word));
    or_else(statement_hint(before, word), or_else(query, rest))
}

fn word_hint(text: &str, fault: &SyntaxFault) -> &'static str
    ensures { result.now ≡ word_hint text.now fault.now }
{
    let before = token_text(text, fault.before);
    let word = token_text(text, fault.token);
    if wants_type(fault) {
        type_hint(before, word)
    } else {
        left_out_hint(before, word)
    }
}

fn begins_with(bytes: &[u8], front: &str) -> bool
    ensures { result ≡ begins_with bytes.now front.now }
{
    is_same(&bytes[..front.len().min(bytes.len())], front)
}

// What the first of these rows says that the bytes begin with.
fn front_hint(
    rows: &[(&'static str, &'static str)],
    bytes: &[u8],
    other: &'static str,
) -> &'static str
    ensures { result.now
        ≡ front_hint (map (λ row. (row.0.now, row.1.now)) rows.now) bytes.now other.now }
{
    for (front, says) in rows {
        if begins_with(bytes, front) {
            return says;
        }
    }
    other
}

// Why no token begins with a character.
fn first_hint(first: Option<u8>) -> &'static str
    ensures { result.now ≡ first_hint first }
{
    let Some(byte) = first else {
        return "";
    };
    if byte.is_ascii_digit() {
        "a number above 9223372036854775807"
    } else if byte.is_ascii_alphabetic() || byte == b'_' {
        "a word of more than 128 characters"
    } else {
        "no word begins with this character"
    }
}

fn no_token_hint(bytes: &[u8], other: &'static str) -> &'static str
    ensures { result.now ≡ no_token_hint bytes.now other.now }
{
    front_hint(&NO_TOKENS, bytes, other)
}

fn lexical_hint(bytes: &[u8]) -> &'static str
    ensures { result.now ≡ lexical_hint bytes.now }
{
    no_token_hint(bytes, first_hint(bytes.first().copied()))
}

fn is_lexical(fault: &SyntaxFault) -> bool
    ensures { result ≡ is_lexical fault.now }
{
    fault.token.is_none() && !fault.is_cut
}

fn known_hint(text: &str, fault: &SyntaxFault) -> &'static str
    ensures { result.now ≡ known_hint text.now fault.now }
{
    if fault.too_deep {
        return "deeper than 64 levels";
    }
    if is_lexical(fault) {
        return lexical_hint(&text.as_bytes()[fault.word.min(text.len())..]);
    }
    word_hint(text, fault)
}

/// What is known of the wrong word of a text; no text where nothing is.
pub fn fault_hint(text: &str, fault: &SyntaxFault) -> &'static str
    ensures { result.now ≡ fault_hint text.now fault.now }
{
    known_hint(text, fault)
}
