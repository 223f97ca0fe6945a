//! What doesn't suit in a statement that is refused for WrongShape.
ghost use Rattle.std.specs.Prelude.{◌≡◌, option_map};
ghost use Rattle.std.specs.Option.{option_or};
ghost use Rattle.iv_resolve_reasons.specs.Seen.{shape_seen};

use iv_syntax::{ColumnType, Expression};

/// What doesn't suit, with names and expressions of the statement and of the catalogue.
#[derive(Clone, Copy)]
pub enum ShapeFault<'a> {
    /// A tuple of VALUES, by its number from 1, has too few or too many values for the columns.
    TupleCount {
        table: &'a str,
        number: usize,
        columns: usize,
        values: usize,
    },
    /// The query of an INSERT gives too few or too many values.
    QueryCount {
        table: &'a str,
        columns: usize,
        values: usize,
    },
    /// A value is an integer and its column is for texts, or the other way round.
    Value {
        table: &'a str,
        column: &'a str,
        kind: ColumnType,
        value: &'a Expression,
    },
    /// The same of a column that SELECT * gives, which is of the table `from`.
    Column {
        table: &'a str,
        column: &'a str,
        kind: ColumnType,
        from: &'a str,
        given: &'a str,
        given_kind: ColumnType,
    },
    /// The same of a value that SET gives to a column of a row variable.
    Set {
        variable: &'a str,
        column: &'a str,
        kind: ColumnType,
        value: &'a Expression,
    },
    /// An integer is compared with a text: the left and the right operand.
    Comparison(&'a Expression, &'a Expression),
    /// A text is an operand of a sign or of arithmetic.
    Operand(&'a Expression),
}

/// The first of two, if it is there.
pub fn first_shape<'a>(
    first: Option<ShapeFault<'a>>,
    second: Option<ShapeFault<'a>>,
) -> Option<ShapeFault<'a>>
    ensures { option_map shape_seen result
        ≡ option_or (option_map shape_seen first.entry) (option_map shape_seen second.entry) }
{
    match first {
        Some(fault) => Some(fault),
        None => second,
    }
}
