//! The columns that a query gives.
ghost use Rattle.std.specs.Prelude.{◌≡◌, ◌++◌, codes, map, option_copied};
ghost use Rattle.std.specs.List.{flat_map};
ghost use Rattle.iv_text.specs.Writing.{Writes};
ghost use Rattle.iv_explain.specs.Columns.{column_in, column_texts, columns_line, columns_member, columns_named, further_in, listed_in, output_text, own_name, separator};
ghost use Rattle.iv_text.specs.Spelled.{spelled};
ghost use Rattle.iv_syntax.specs.declared.statement.Statement.TheVariants as statement;

use crate::expressions::tell_expression;
use iv_catalogue::{Catalogue, Column};
use iv_syntax::{Expression, Name, Select, SelectList, Statement};
use iv_text::{
    DeviceFault, Format, Sink, tell, write_all, write_json_text, write_member, write_nothing,
};

fn own_name(expression: &Expression) -> Option<&str>
    ensures { option_copied result ≡ own_name expression.now }
{
    match expression {
        Expression::Column(column) => Some(column.name.as_str()),
        _ => None,
    }
}

fn tell_output<W: Sink>(
    writer: &mut W,
    format: Format,
    expression: &Expression,
) -> Result<(), DeviceFault>
    ensures { Writes (W.state writer.old) (W.state writer.new) result
        (spelled format (output_text expression.now)) }
{
    match own_name(expression) {
        Some(name) => tell(writer, format, name.as_bytes()),
        None => tell_expression(writer, format, expression),
    }
}

// An expression as JSON has it, between its quotes.
#[tactic(auto, using(iv_text::proofs::WriteLemmas::writes_then), unfolding(iv_text::specs::Spelled::spelled, iv_text::specs::Json::json_text))]
fn write_quoted<W: Sink>(writer: &mut W, expression: &Expression) -> Result<(), DeviceFault>
    ensures { Writes (W.state writer.old) (W.state writer.new) result
        (column_in Format.Json (output_text expression.now)) }
{
    write_all(writer, b"\"")?;
    tell_output(writer, Format::Json, expression)?;
    write_all(writer, b"\"")
}

#[tactic(auto, unfolding(iv_text::specs::Spelled::spelled))]
fn write_output<W: Sink>(
    writer: &mut W,
    format: Format,
    expression: &Expression,
) -> Result<(), DeviceFault>
    ensures { Writes (W.state writer.old) (W.state writer.new) result
        (column_in format (output_text expression.now)) }
{
    match format {
        Format::Words => tell_output(writer, Format::Words, expression),
        Format::Json => write_quoted(writer, expression),
    }
}

fn write_name<W: Sink>(writer: &mut W, format: Format, name: &[u8]) -> Result<(), DeviceFault>
    ensures { Writes (W.state writer.old) (W.state writer.new) result
        (column_in format name.now) }
{
    match format {
        Format::Words => write_all(writer, name),
        Format::Json => write_json_text(writer, name),
    }
}

fn write_separator<W: Sink>(writer: &mut W, format: Format) -> Result<(), DeviceFault>
    ensures { Writes (W.state writer.old) (W.state writer.new) result (separator format) }
{
    match format {
        Format::Words => write_all(writer, b", "),
        Format::Json => write_all(writer, b","),
    }
}

#[tactic(auto, using(iv_text::proofs::WriteLemmas::writes_then))]
fn write_further_name<W: Sink>(
    writer: &mut W,
    format: Format,
    column: &Column,
) -> Result<(), DeviceFault>
    ensures { Writes (W.state writer.old) (W.state writer.new) result
        (further_in format column.now.name) }
{
    write_separator(writer, format)?;
    write_name(writer, format, column.name.as_str().as_bytes())
}

// The names of further columns.
fn write_more_names<W: Sink>(
    writer: &mut W,
    format: Format,
    columns: &[Column],
) -> Result<(), DeviceFault>
    ensures { Writes (W.state writer.old) (W.state writer.new) result
        (flat_map (further_in format) (map (λ c. c.name) columns.now)) }
{
    let mut rest = columns;
    while let Some((column, others)) = rest.split_first() {
        write_further_name(writer, format, column)?;
        rest = others;
    }
    Ok(())
}

#[tactic(auto, using(iv_text::proofs::WriteLemmas::writes_then))]
fn write_names<W: Sink>(
    writer: &mut W,
    format: Format,
    columns: &[Column],
) -> Result<(), DeviceFault>
    ensures { Writes (W.state writer.old) (W.state writer.new) result
        (listed_in format (map (λ c. c.name) columns.now)) }
{
    match columns {
        [] => write_nothing(writer),
        [column, more @ ..] => {
            write_name(writer, format, column.name.as_str().as_bytes())?;
            write_more_names(writer, format, more)
        }
    }
}

#[tactic(auto, using(iv_text::proofs::WriteLemmas::writes_then))]
fn write_further_output<W: Sink>(
    writer: &mut W,
    format: Format,
    expression: &Expression,
) -> Result<(), DeviceFault>
    ensures { Writes (W.state writer.old) (W.state writer.new) result
        (further_in format (output_text expression.now)) }
{
    write_separator(writer, format)?;
    write_output(writer, format, expression)
}

// Further expressions.
fn write_more_outputs<W: Sink>(
    writer: &mut W,
    format: Format,
    expressions: &[Expression],
) -> Result<(), DeviceFault>
    ensures { Writes (W.state writer.old) (W.state writer.new) result
        (flat_map (further_in format) (map output_text expressions.now)) }
{
    let mut rest = expressions;
    while let Some((expression, others)) = rest.split_first() {
        write_further_output(writer, format, expression)?;
        rest = others;
    }
    Ok(())
}

#[tactic(auto, using(iv_text::proofs::WriteLemmas::writes_then))]
fn write_outputs<W: Sink>(
    writer: &mut W,
    format: Format,
    expressions: &[Expression],
) -> Result<(), DeviceFault>
    ensures { Writes (W.state writer.old) (W.state writer.new) result
        (listed_in format (map output_text expressions.now)) }
{
    match expressions {
        [] => write_nothing(writer),
        [expression, more @ ..] => {
            write_output(writer, format, expression)?;
            write_more_outputs(writer, format, more)
        }
    }
}

fn columns_named<'a>(catalogue: &'a Catalogue, name: &Name) -> &'a [Column]
    ensures { result.now ≡ columns_named catalogue.now name.now }
{
    let Some(place) = catalogue.table_named(name.as_str()) else {
        return &[];
    };
    match catalogue.table(place) {
        Some(table) => table.columns.as_slice(),
        None => &[],
    }
}

fn write_query<W: Sink>(
    writer: &mut W,
    format: Format,
    catalogue: &Catalogue,
    query: &Select,
) -> Result<(), DeviceFault>
    ensures { Writes (W.state writer.old) (W.state writer.new) result
        (listed_in format (column_texts catalogue.now query.now)) }
{
    match query {
        Select::Count(_, _) => write_name(writer, format, b"COUNT(*)"),
        Select::Rows(SelectList::Star, range, _) => {
            write_names(writer, format, columns_named(catalogue, &range.table))
        }
        Select::Rows(SelectList::Values(expressions), _, _) => {
            write_outputs(writer, format, expressions.as_slice())
        }
    }
}

#[tactic(auto, using(iv_text::proofs::WriteLemmas::writes_then))]
fn write_query_line<W: Sink>(
    writer: &mut W,
    catalogue: &Catalogue,
    query: &Select,
) -> Result<(), DeviceFault>
    ensures { Writes (W.state writer.old) (W.state writer.new) result
        (codes "  columns " ++ (listed_in Format.Words (column_texts catalogue.now query.now) ++ codes "\n")) }
{
    write_all(writer, b"  columns ")?;
    write_query(writer, Format::Words, catalogue, query)?;
    write_all(writer, b"\n")
}

/// Writes the line of the columns that a query gives; nothing for any other statement. It takes no memory.
pub fn write_columns_line<W: Sink>(
    writer: &mut W,
    catalogue: &Catalogue,
    statement: &Statement,
) -> Result<(), DeviceFault>
    ensures { Writes (W.state writer.old) (W.state writer.new) result
        (columns_line catalogue.now statement.now) }
{
    match statement {
        Statement::Select(query) => write_query_line(writer, catalogue, query),
        _ => write_nothing(writer),
    }
}

#[tactic(auto, using(iv_text::proofs::WriteLemmas::writes_then))]
fn write_query_member<W: Sink>(
    writer: &mut W,
    catalogue: &Catalogue,
    query: &Select,
) -> Result<(), DeviceFault>
    ensures { Writes (W.state writer.old) (W.state writer.new) result
        (columns_member catalogue.now (statement.Select query.now)) }
{
    write_member(writer, b"columns")?;
    write_all(writer, b"[")?;
    write_query(writer, Format::Json, catalogue, query)?;
    write_all(writer, b"]")
}

/// Writes the member of the columns that a query gives; nothing for any other statement. It takes no memory.
pub fn write_columns_member<W: Sink>(
    writer: &mut W,
    catalogue: &Catalogue,
    statement: &Statement,
) -> Result<(), DeviceFault>
    ensures { Writes (W.state writer.old) (W.state writer.new) result
        (columns_member catalogue.now statement.now) }
{
    match statement {
        Statement::Select(query) => write_query_member(writer, catalogue, query),
        _ => write_nothing(writer),
    }
}
