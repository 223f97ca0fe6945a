//! Reserved words.
ghost use Rattle.std.specs.Prelude.{◌≡◌, map};
ghost use Rattle.std.specs.Str.{str_eq_ignore_ascii_case};
ghost use Rattle.iv_lex.specs.Reserved.{word_among, word_kind};

use crate::kind::TokenKind;

/// The reserved words, each with its kind.
pub const RESERVED: [(&str, TokenKind); 76] = [
    ("ACTION", TokenKind::Action),
    ("ADD", TokenKind::Add),
    ("AFTER", TokenKind::After),
    ("ALL", TokenKind::All),
    ("ALTER", TokenKind::Alter),
    ("AND", TokenKind::And),
    ("AS", TokenKind::As),
    ("ATOMIC", TokenKind::Atomic),
    ("BEFORE", TokenKind::Before),
    ("BEGIN", TokenKind::Begin),
    ("CASCADE", TokenKind::Cascade),
    ("CHAR", TokenKind::Char),
    ("CHARACTER", TokenKind::Character),
    ("CHECK", TokenKind::Check),
    ("COMMIT", TokenKind::Commit),
    ("CONSTRAINT", TokenKind::Constraint),
    ("CONSTRAINTS", TokenKind::Constraints),
    ("COUNT", TokenKind::Count),
    ("CREATE", TokenKind::Create),
    ("DEFAULT", TokenKind::Default),
    ("DEFERRABLE", TokenKind::Deferrable),
    ("DEFERRED", TokenKind::Deferred),
    ("DELETE", TokenKind::Delete),
    ("DISTINCT", TokenKind::Distinct),
    ("DROP", TokenKind::Drop),
    ("EACH", TokenKind::Each),
    ("END", TokenKind::End),
    ("EXISTS", TokenKind::Exists),
    ("FOR", TokenKind::For),
    ("FOREIGN", TokenKind::Foreign),
    ("FROM", TokenKind::From),
    ("FULL", TokenKind::Full),
    ("IMMEDIATE", TokenKind::Immediate),
    ("INITIALLY", TokenKind::Initially),
    ("INSERT", TokenKind::Insert),
    ("INT", TokenKind::Int),
    ("INTEGER", TokenKind::Integer),
    ("INTO", TokenKind::Into),
    ("IS", TokenKind::Is),
    ("KEY", TokenKind::Key),
    ("MATCH", TokenKind::Match),
    ("NEW", TokenKind::New),
    ("NO", TokenKind::No),
    ("NOT", TokenKind::Not),
    ("NULL", TokenKind::Null),
    ("NULLS", TokenKind::Nulls),
    ("OF", TokenKind::Of),
    ("OLD", TokenKind::Old),
    ("ON", TokenKind::On),
    ("OR", TokenKind::Or),
    ("PRIMARY", TokenKind::Primary),
    ("REFERENCES", TokenKind::References),
    ("REFERENCING", TokenKind::Referencing),
    ("RELEASE", TokenKind::Release),
    ("RESTRICT", TokenKind::Restrict),
    ("ROLLBACK", TokenKind::Rollback),
    ("ROW", TokenKind::Row),
    ("SAVEPOINT", TokenKind::Savepoint),
    ("SELECT", TokenKind::Select),
    ("SET", TokenKind::Set),
    ("SIGNAL", TokenKind::Signal),
    ("SIMPLE", TokenKind::Simple),
    ("START", TokenKind::Start),
    ("STATEMENT", TokenKind::Statement),
    ("TABLE", TokenKind::Table),
    ("TO", TokenKind::To),
    ("TRANSACTION", TokenKind::Transaction),
    ("TRIGGER", TokenKind::Trigger),
    ("UNIQUE", TokenKind::Unique),
    ("UPDATE", TokenKind::Update),
    ("VALUES", TokenKind::Values),
    ("VARCHAR", TokenKind::Varchar),
    ("VARYING", TokenKind::Varying),
    ("WHEN", TokenKind::When),
    ("WHERE", TokenKind::Where),
    ("WORK", TokenKind::Work),
];

fn is_same_word(word: &[u8], other: &str) -> bool
    ensures { result ≡ str_eq_ignore_ascii_case word.now other.now }
{
    word.eq_ignore_ascii_case(other.as_bytes())
}

fn word_among(reserved: &[(&str, TokenKind)], word: &[u8]) -> TokenKind
    ensures { result ≡ word_among (map (λ row. (row.0.now, row.1)) reserved.now) word.now }
{
    for (spelling, kind) in reserved {
        if is_same_word(word, spelling) {
            return *kind;
        }
    }
    TokenKind::Name
}

/// The reserved word or the name that a word is, whatever the case of its letters.
pub fn word_kind(word: &[u8]) -> TokenKind
    ensures { result ≡ word_kind word.now }
{
    word_among(&RESERVED, word)
}
