//! Whether the DEFAULTs of a CREATE TABLE fit their columns.
ghost use Rattle.std.specs.Prelude.{◌≡◌, chars, length, not};
ghost use Rattle.std.specs.List.{list_any};
ghost use Rattle.iv_resolution.specs.Constraints.{default_fits, literal_fits, text_fits, written_columns};

use iv_syntax::{ColumnDefinition, ColumnType, Literal, TableElement};

fn count_of(text: &str) -> usize
    ensures { result ≡ length (chars text.now) }
{
    text.chars().count()
}

fn text_fits(kind: ColumnType, text: &str) -> bool
    ensures { result ≡ text_fits kind text.now }
{
    match kind {
        ColumnType::Varchar(most) => count_of(text) as u64 <= most,
        ColumnType::Integer => false,
    }
}

fn literal_fits(kind: ColumnType, literal: &Literal) -> bool
    ensures { result ≡ literal_fits kind literal.now }
{
    match literal {
        Literal::Number(_, _) => matches!(kind, ColumnType::Integer),
        Literal::Text(text) => text_fits(kind, text.as_str()),
        Literal::Null => true,
    }
}

fn default_fits(column: &ColumnDefinition) -> bool
    ensures { result ≡ default_fits column.now }
{
    match &column.default {
        Some(literal) => literal_fits(column.kind, literal),
        None => true,
    }
}

/// Whether a DEFAULT doesn't fit its column.
pub fn has_unfit_default(elements: &[TableElement]) -> bool
    ensures { result ≡ list_any (λ c. not (default_fits c)) (written_columns elements.now) }
{
    for element in elements {
        if let TableElement::Column(column) = element {
            if !default_fits(column) {
                return true;
            }
        }
    }
    false
}
