//! The kinds of statements.
ghost use Rattle.std.specs.Prelude.{◌≡◌};
ghost use Rattle.iv_connection.specs.Kinds.{kind_of};

use iv_syntax::Statement;

/// A statement about the schema.
pub const SCHEMA: u32 = 0;

/// A statement that changes rows.
pub const DATA: u32 = 1;

/// A query.
pub const QUERY: u32 = 2;

/// A statement about transactions.
pub const TRANSACTION: u32 = 3;

/// The kind of a statement.
pub fn kind_of(statement: &Statement) -> u32
    ensures { result ≡ kind_of statement.now }
{
    match statement {
        Statement::CreateTable { .. } => SCHEMA,
        Statement::AlterTable { .. } => SCHEMA,
        Statement::CreateTrigger(_) => SCHEMA,
        Statement::DropTrigger(_) => SCHEMA,
        Statement::Insert(_) => DATA,
        Statement::Update(_) => DATA,
        Statement::Delete(_) => DATA,
        Statement::Select(_) => QUERY,
        _ => TRANSACTION,
    }
}
