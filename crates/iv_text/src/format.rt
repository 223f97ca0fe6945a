//! How outcomes are written.

/// What the outcomes of statements are written as.
#[derive(Clone, Copy, Debug, PartialEq, Eq)]
pub enum Format {
    /// Lines of words, as `1 ok 2`.
    Words,
    /// A JSON object for each statement, on one line.
    Json,
}

/// What outcomes are written as, and whether accounts are written with them.
#[derive(Clone, Copy, Debug, PartialEq, Eq)]
pub struct Style {
    pub format: Format,
    pub explain: bool,
}
