//! Columns of the catalogue as they are defined.
ghost use Rattle.std.specs.Prelude.{◌≡◌, Some, IfOk};
ghost use Rattle.iv_value.specs.declared.value.Value.TheVariants as value;
ghost use Rattle.iv_resolution.specs.Scopes.{type_of};
ghost use Rattle.iv_restate.specs.Constraints.{default_of, definition_of};

use iv_catalogue::Column;
use iv_syntax::{ColumnConstraint, ColumnDefinition, ColumnType, Literal, Sign};
use iv_value::{Kind, Value};
use sqlite_items::Items;
use std::alloc::AllocError;

fn type_of(kind: Kind) -> ColumnType
    ensures { result ≡ type_of kind }
{
    match kind {
        Kind::Integer => ColumnType::Integer,
        Kind::Varchar(length) => ColumnType::Varchar(length as u64),
    }
}

fn number_literal(number: i64) -> Literal
    ensures { Some result ≡ default_of (value.Int number) }
{
    if number < 0 {
        Literal::Number(Some(Sign::Minus), (-(number + 1)) as u64 + 1)
    } else {
        Literal::Number(None, number as u64)
    }
}

fn default_of(value: &Value) -> Result<Option<Literal>, AllocError>
    ensures { IfOk result (λ l. l ≡ default_of value.now) }
{
    match value {
        Value::Null => Ok(None),
        Value::Int(number) => Ok(Some(number_literal(*number))),
        Value::Text(characters) => Ok(Some(Literal::Text(characters.clone()?))),
    }
}

/// The definition of a column with these constraints: its type, and DEFAULT unless the default is NULL.
pub fn definition_of(
    column: &Column,
    constraints: Items<ColumnConstraint>,
) -> Result<ColumnDefinition, AllocError>
    ensures { IfOk result (λ c. c ≡ definition_of column.now constraints) }
{
    let default = default_of(&column.default)?;
    Ok(ColumnDefinition {
        name: column.name.clone()?,
        kind: type_of(column.kind),
        default,
        constraints,
    })
}
