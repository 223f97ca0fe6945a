//! The limits of what a statement can have as a text.

/// The greatest INTEGER, 2^63 - 1: no text has a greater number.
pub const GREATEST_INTEGER: u64 = 9_223_372_036_854_775_807;

/// The depth of the deepest value expression and search condition.
pub const DEEPEST_TREE: u8 = 64;

/// The most characters of a name.
pub const LONGEST_NAME: usize = 128;
