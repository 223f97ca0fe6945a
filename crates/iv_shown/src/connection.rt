//! What is open behind a handle.
use crate::places::SourceText;
use iv_catalogue::Fault;
use iv_machine::Limits;
use iv_parse::SyntaxFault;
use iv_session::{Outcome, Session};
use iv_store_index::IndexStore;
use iv_syntax::Statement;
use iv_value::Value;
use sqlite_items::Items;

/// A session over the store that finds rows by their keys.
pub type Database = Session<IndexStore>;

/// What is open behind a handle.
#[derive(Drop)]
pub struct Connection {
    pub limits: Limits,
    pub session: Database,
    /// The statements that were read last.
    pub statements: Items<Statement>,
    /// The fault of the text that they were read from, in bytes of that text.
    pub fault: Option<SyntaxFault>,
    /// That text, or the template.
    pub text: SourceText,
    /// The values for the question marks of the next template.
    pub values: Items<Value>,
    /// What the last statement or call answered.
    pub outcome: Outcome,
    /// The place among the statements of the one that answered it; none where another call did, or others were read since.
    pub executed: Option<usize>,
    /// Whether the session has the account of that outcome: it was asked for then, and nothing cleared it since.
    pub is_told: bool,
    /// The violations that were found last.
    pub pending: Vec<Fault>,
    /// The transcript of the last script that was run, or the lines of an outcome.
    pub transcript: Vec<u8>,
    /// The scripts of the last dump.
    pub dump: Vec<String>,
}
