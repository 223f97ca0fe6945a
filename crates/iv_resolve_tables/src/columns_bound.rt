//! The columns that a CREATE TABLE makes. Each function allocates only them.
ghost use Rattle.std.specs.Prelude.{◌≡◌, IfOk, map};
ghost use Rattle.iv_resolution.specs.Bound.{bound_column_definition, bound_default, bound_kind, bound_literal};
ghost use Rattle.iv_resolution.specs.Constraints.{written_columns};
ghost use Rattle.iv_syntax.specs.declared.table.Literal.TheVariants as literal;

use iv_catalogue::Column;
use iv_resolve_scope::integer_of;
use iv_syntax::{ColumnDefinition, ColumnType, Literal, Sign, TableElement};
use iv_value::{Kind, Value};
use sqlite_items::Items;
use std::alloc::{AllocError, Global};

// The integer that a number with this sign is.
#[tactic(auto, unfolding(iv_resolution::specs::Terms::integer_of))]
fn signed(sign: Option<Sign>, number: u64) -> Value
    ensures { result ≡ bound_literal (literal.Number sign number) }
{
    let size = integer_of(number);
    match sign {
        Some(Sign::Minus) => Value::Int(0 - size),
        Some(Sign::Plus) => Value::Int(size),
        None => Value::Int(size),
    }
}

fn bound_literal(literal: &Literal) -> Result<Value, AllocError>
    ensures { IfOk result (λ v. v ≡ bound_literal literal.now) }
{
    match literal {
        Literal::Number(sign, number) => Ok(signed(*sign, *number)),
        Literal::Text(text) => Ok(Value::Text(text.clone()?)),
        Literal::Null => Ok(Value::Null),
    }
}

fn bound_kind(kind: ColumnType) -> Kind
    ensures { result ≡ bound_kind kind }
{
    match kind {
        ColumnType::Integer => Kind::Integer,
        ColumnType::Varchar(characters) => Kind::Varchar(characters.min(65535) as u16),
    }
}

fn bound_default(default: &Option<Literal>) -> Result<Value, AllocError>
    ensures { IfOk result (λ v. v ≡ bound_default default.now) }
{
    match default {
        Some(literal) => bound_literal(literal),
        None => Ok(Value::Null),
    }
}

fn bound_column(column: &ColumnDefinition) -> Result<Column, AllocError>
    ensures { IfOk result (λ c. c ≡ bound_column_definition column.now) }
{
    let default = bound_default(&column.default)?;
    Ok(Column {
        name: column.name.clone()?,
        kind: bound_kind(column.kind),
        default,
    })
}

/// The columns, in the order of their text.
pub fn bound_columns(alloc: Global, elements: &[TableElement]) -> Result<Items<Column>, AllocError>
    ensures { IfOk result (λ cs. cs ≡ map bound_column_definition (written_columns elements.now)) }
{
    let mut columns = Items::new(alloc);
    for element in elements {
        if let TableElement::Column(column) = element {
            columns.push(bound_column(column)?)?;
        }
    }
    Ok(columns)
}
