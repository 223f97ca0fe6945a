//! The limits of a catalogue and of statements.

/// The most tables of a database.
pub const MOST_TABLES: usize = 64;

/// The most columns of a table.
pub const MOST_COLUMNS: usize = 32;

/// The most constraints of a table.
pub const MOST_CONSTRAINTS: usize = 64;

/// The most columns of a key.
pub const MOST_KEY_COLUMNS: usize = 8;

/// The most triggers of a database.
pub const MOST_TRIGGERS: usize = 256;

/// The most triggers that are ever created in a database.
pub const MOST_TRIGGERS_EVER: u32 = 4_294_967_295;

/// The most statements of a trigger's body.
pub const MOST_BODY_STATEMENTS: usize = 32;

/// The most characters of a VARCHAR.
pub const MOST_CHARACTERS: u64 = 4096;
