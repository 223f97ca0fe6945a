//! Value expressions, literals, types and lists of names.
ghost use Rattle.std.specs.Prelude.{◌++◌, codes, decimal};
ghost use Rattle.std.specs.List.{flat_map};
ghost use Rattle.iv_text.specs.Lines.{quoted_text};
ghost use Rattle.iv_text.specs.Writing.{Writes};
ghost use Rattle.iv_explain.specs.Expressions.{expression_text, further_name, literal_text, names_text, operator_text, qualifier_text, sign_before, sign_text, type_text};
ghost use Rattle.iv_text.specs.Spelled.{spelled};

use iv_syntax::{ColumnName, ColumnType, Expression, Literal, Name, Sign};
use iv_text::{
    DeviceFault, Format, Sink, tell, tell_both, tell_nothing, tell_number, tell_number_between,
    tell_quoted,
};

fn tell_qualifier<W: Sink>(
    writer: &mut W,
    format: Format,
    qualifier: &Option<Name>,
) -> Result<(), DeviceFault>
    ensures { Writes (W.state writer.old) (W.state writer.new) result
        (spelled format (qualifier_text qualifier.now)) }
{
    match qualifier {
        Some(qualifier) => tell_both(writer, format, qualifier.as_str().as_bytes(), b"."),
        None => tell_nothing(writer, format),
    }
}

#[tactic(auto, using(iv_text::proofs::SpelledLemmas::spelled_then))]
fn tell_column<W: Sink>(
    writer: &mut W,
    format: Format,
    column: &ColumnName,
) -> Result<(), DeviceFault>
    ensures { Writes (W.state writer.old) (W.state writer.new) result
        (spelled format (qualifier_text column.now.qualifier ++ column.now.name)) }
{
    tell_qualifier(writer, format, &column.qualifier)?;
    tell(writer, format, column.name.as_str().as_bytes())
}

fn tell_sign<W: Sink>(writer: &mut W, format: Format, sign: Sign) -> Result<(), DeviceFault>
    ensures { Writes (W.state writer.old) (W.state writer.new) result (spelled format (sign_text sign)) }
{
    match sign {
        Sign::Plus => tell(writer, format, b"+"),
        Sign::Minus => tell(writer, format, b"-"),
    }
}

fn tell_operator<W: Sink>(writer: &mut W, format: Format, sign: Sign) -> Result<(), DeviceFault>
    ensures { Writes (W.state writer.old) (W.state writer.new) result
        (spelled format (operator_text sign)) }
{
    match sign {
        Sign::Plus => tell(writer, format, b" + "),
        Sign::Minus => tell(writer, format, b" - "),
    }
}

/// Writes an expression.
#[tactic(auto, using(crate::proofs::Trees::group_told, crate::proofs::Trees::signed_told, crate::proofs::Trees::product_told, crate::proofs::Trees::sum_told))]
pub fn tell_expression<W: Sink>(
    writer: &mut W,
    format: Format,
    expression: &Expression,
) -> Result<(), DeviceFault>
    ensures { Writes (W.state writer.old) (W.state writer.new) result
        (spelled format (expression_text expression.now)) }
{
    match expression {
        Expression::Number(number) => tell_number(writer, format, u128::from(*number)),
        Expression::Text(characters) => tell_quoted(writer, format, characters.as_str()),
        Expression::Null => tell(writer, format, b"NULL"),
        Expression::Column(column) => tell_column(writer, format, column),
        Expression::Group(a) => {
            tell(writer, format, b"(")?;
            tell_expression(writer, format, a.get())?;
            tell(writer, format, b")")
        }
        Expression::Signed(sign, a) => {
            tell_sign(writer, format, *sign)?;
            tell_expression(writer, format, a.get())
        }
        Expression::Product(a, b) => {
            tell_expression(writer, format, a.get())?;
            tell(writer, format, b" * ")?;
            tell_expression(writer, format, b.get())
        }
        Expression::Sum(sign, a, b) => {
            tell_expression(writer, format, a.get())?;
            tell_operator(writer, format, *sign)?;
            tell_expression(writer, format, b.get())
        }
    }
}

fn tell_sign_before<W: Sink>(
    writer: &mut W,
    format: Format,
    sign: Option<Sign>,
) -> Result<(), DeviceFault>
    ensures { Writes (W.state writer.old) (W.state writer.new) result (spelled format (sign_before sign)) }
{
    match sign {
        Some(sign) => tell_sign(writer, format, sign),
        None => tell_nothing(writer, format),
    }
}

#[tactic(auto, using(iv_text::proofs::SpelledLemmas::spelled_then))]
fn tell_signed<W: Sink>(
    writer: &mut W,
    format: Format,
    sign: Option<Sign>,
    number: u64,
) -> Result<(), DeviceFault>
    ensures { Writes (W.state writer.old) (W.state writer.new) result
        (spelled format (sign_before sign ++ decimal number)) }
{
    tell_sign_before(writer, format, sign)?;
    tell_number(writer, format, u128::from(number))
}

/// Writes a literal of a DEFAULT.
pub fn tell_literal<W: Sink>(
    writer: &mut W,
    format: Format,
    literal: &Literal,
) -> Result<(), DeviceFault>
    ensures { Writes (W.state writer.old) (W.state writer.new) result
        (spelled format (literal_text literal.now)) }
{
    match literal {
        Literal::Number(sign, number) => tell_signed(writer, format, *sign, *number),
        Literal::Text(characters) => tell_quoted(writer, format, characters.as_str()),
        Literal::Null => tell(writer, format, b"NULL"),
    }
}

/// Writes a type after its article.
pub fn tell_kind<W: Sink>(
    writer: &mut W,
    format: Format,
    kind: ColumnType,
) -> Result<(), DeviceFault>
    ensures { Writes (W.state writer.old) (W.state writer.new) result (spelled format (type_text kind)) }
{
    match kind {
        ColumnType::Integer => tell(writer, format, b"an INTEGER"),
        ColumnType::Varchar(number) => {
            tell_number_between(writer, format, b"a VARCHAR(", u128::from(number), b")")
        }
    }
}

fn tell_further_name<W: Sink>(
    writer: &mut W,
    format: Format,
    name: &Name,
) -> Result<(), DeviceFault>
    ensures { Writes (W.state writer.old) (W.state writer.new) result
        (spelled format (further_name name.now)) }
{
    tell_both(writer, format, b", ", name.as_str().as_bytes())
}

// Further names, each after a comma.
fn tell_further<W: Sink>(writer: &mut W, format: Format, names: &[Name]) -> Result<(), DeviceFault>
    ensures { Writes (W.state writer.old) (W.state writer.new) result
        (spelled format (flat_map further_name names.now)) }
{
    let mut rest = names;
    while let Some((name, others)) = rest.split_first() {
        tell_further_name(writer, format, name)?;
        rest = others;
    }
    Ok(())
}

// A name and further ones.
#[tactic(auto, using(iv_text::proofs::SpelledLemmas::spelled_then))]
fn tell_listed<W: Sink>(
    writer: &mut W,
    format: Format,
    name: &Name,
    others: &[Name],
) -> Result<(), DeviceFault>
    ensures { Writes (W.state writer.old) (W.state writer.new) result
        (spelled format (name.now ++ flat_map further_name others.now)) }
{
    tell(writer, format, name.as_str().as_bytes())?;
    tell_further(writer, format, others)
}

/// Writes names with commas between them.
pub fn tell_names<W: Sink>(
    writer: &mut W,
    format: Format,
    names: &[Name],
) -> Result<(), DeviceFault>
    ensures { Writes (W.state writer.old) (W.state writer.new) result
        (spelled format (names_text names.now)) }
{
    match names {
        [] => tell_nothing(writer, format),
        [name, others @ ..] => tell_listed(writer, format, name, others),
    }
}
