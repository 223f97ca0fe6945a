//! The statuses that calls answer.

/// The call did what it is for.
pub const OK: u32 = 0;

/// The handle is empty.
pub const CLOSED: u32 = 1;

/// The handle is open already.
pub const OPEN: u32 = 2;

/// The limits of a session are not in their ranges.
pub const LIMITS: u32 = 3;

/// The bytes are not UTF-8.
pub const NOT_UTF8: u32 = 4;

/// The script is longer than 1,048,576 bytes.
pub const TOO_LONG: u32 = 5;

/// Memory was refused.
pub const NO_MEMORY: u32 = 6;

/// There is nothing at this place.
pub const NOTHING: u32 = 7;

// 8 is the header's: the pointer to the handle is null.

/// The template has so many question marks, and not so many values are bound.
pub const WRONG_COUNT: u32 = 9;

/// The template has a place at which there is neither a token nor a question mark.
pub const NO_TEMPLATE: u32 = 10;

/// A transaction is open.
pub const IN_TRANSACTION: u32 = 11;

/// What the dump makes isn't the database.
pub const NOT_RESTORED: u32 = 12;
