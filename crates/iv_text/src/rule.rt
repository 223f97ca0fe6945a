//! What a constraint asks, in the words of its definition.
ghost use Rattle.std.specs.Prelude.{◌≡◌, ◌++◌, codes, slice_get, Some};
ghost use Rattle.std.specs.List.{flat_map};
ghost use Rattle.std.specs.Option.{option_copied};
ghost use Rattle.iv_text.specs.Lines.{table_name};
ghost use Rattle.iv_text.specs.Rules.{after_front, begins_with_digit, columns_of, constraint_words, described_text, further_name, has_number, is_generated, match_words, name_at, names_listed, names_text, nulls_words, references_words, rule_words, words_if};
ghost use Rattle.iv_text.specs.Spelled.{spelled};
ghost use Rattle.iv_text.specs.Writing.{Writes};

use crate::device::{DeviceFault, Sink};
use crate::format::Format;
use crate::spelled::{tell, tell_both, tell_nothing};
use crate::write::{write_all, write_nothing};
use iv_catalogue::{Catalogue, Column, Constraint, ConstraintId, ForeignKey, Rule, Table};
use iv_syntax::{MatchType, NullTreatment};

/// The columns of a table that is there.
pub fn columns_of<'a>(table: Option<&'a Table>) -> &'a [Column]
    ensures { result.now ≡ columns_of (option_copied table.entry) }
{
    match table {
        Some(table) => table.columns.as_slice(),
        None => &[],
    }
}

// ---- names of columns

fn name_at(columns: &[Column], place: u32) -> &[u8]
    ensures { result.now ≡ name_at columns.now place }
{
    match columns.get(place as usize) {
        Some(column) => column.name.as_str().as_bytes(),
        None => b"",
    }
}

fn tell_further_name<W: Sink>(
    writer: &mut W,
    format: Format,
    columns: &[Column],
    place: u32,
) -> Result<(), DeviceFault>
    ensures { Writes (W.state writer.old) (W.state writer.new) result
        (spelled format (further_name columns.now place)) }
{
    tell_both(writer, format, b", ", name_at(columns, place))
}

// Further names, each after a comma.
#[tactic(auto, using(crate::proofs::WriteLemmas::writes_then))]
fn tell_more_names<W: Sink>(
    writer: &mut W,
    format: Format,
    columns: &[Column],
    places: &[u32],
) -> Result<(), DeviceFault>
    ensures { Writes (W.state writer.old) (W.state writer.new) result
        (spelled format (flat_map (further_name columns.now) places.now)) }
{
    let mut rest = places;
    while let Some((place, others)) = rest.split_first() {
        tell_further_name(writer, format, columns, *place)?;
        rest = others;
    }
    Ok(())
}

fn tell_name<W: Sink>(
    writer: &mut W,
    format: Format,
    columns: &[Column],
    place: u32,
) -> Result<(), DeviceFault>
    ensures { Writes (W.state writer.old) (W.state writer.new) result
        (spelled format (name_at columns.now place)) }
{
    tell(writer, format, name_at(columns, place))
}

// A name and further ones.
#[tactic(auto, using(crate::proofs::SpelledLemmas::spelled_then))]
fn tell_some_names<W: Sink>(
    writer: &mut W,
    format: Format,
    columns: &[Column],
    place: u32,
    more: &[u32],
) -> Result<(), DeviceFault>
    ensures { Writes (W.state writer.old) (W.state writer.new) result
        (spelled format (name_at columns.now place ++ flat_map (further_name columns.now) more.now)) }
{
    tell_name(writer, format, columns, place)?;
    tell_more_names(writer, format, columns, more)
}

#[tactic(auto, unfolding(crate::specs::Rules::names_text))]
fn tell_names<W: Sink>(
    writer: &mut W,
    format: Format,
    columns: &[Column],
    places: &[u32],
) -> Result<(), DeviceFault>
    ensures { Writes (W.state writer.old) (W.state writer.new) result
        (spelled format (names_text columns.now places.now)) }
{
    match places {
        [] => tell_nothing(writer, format),
        [place, more @ ..] => tell_some_names(writer, format, columns, *place, more),
    }
}

// The names between these texts.
#[tactic(auto, using(crate::proofs::SpelledLemmas::spelled_then))]
fn tell_names_between<W: Sink>(
    writer: &mut W,
    format: Format,
    before: &[u8],
    columns: &[Column],
    places: &[u32],
    after: &[u8],
) -> Result<(), DeviceFault>
    ensures { Writes (W.state writer.old) (W.state writer.new) result
        (spelled format (before.now ++ (names_text columns.now places.now ++ after.now))) }
{
    tell(writer, format, before)?;
    tell_names(writer, format, columns, places)?;
    tell(writer, format, after)
}

// The names in parentheses.
#[tactic(auto, unfolding(crate::specs::Rules::names_listed))]
fn tell_listed<W: Sink>(
    writer: &mut W,
    format: Format,
    columns: &[Column],
    places: &[u32],
) -> Result<(), DeviceFault>
    ensures { Writes (W.state writer.old) (W.state writer.new) result
        (spelled format (names_listed columns.now places.now)) }
{
    tell_names_between(writer, format, b" (", columns, places, b")")
}

// ---- rules

fn nulls_words(nulls: NullTreatment) -> &'static str
    ensures { result.now ≡ nulls_words nulls }
{
    match nulls {
        NullTreatment::Distinct => "",
        NullTreatment::NotDistinct => " NULLS NOT DISTINCT",
    }
}

fn match_words(matching: MatchType) -> &'static str
    ensures { result.now ≡ match_words matching }
{
    match matching {
        MatchType::Simple => "",
        MatchType::Full => " MATCH FULL",
    }
}

// Words, and the names of columns after them.
#[tactic(auto, using(crate::proofs::SpelledLemmas::spelled_then))]
fn tell_key<W: Sink>(
    writer: &mut W,
    format: Format,
    words: &str,
    columns: &[Column],
    places: &[u32],
) -> Result<(), DeviceFault>
    ensures { Writes (W.state writer.old) (W.state writer.new) result
        (spelled format (words.now ++ names_listed columns.now places.now)) }
{
    tell(writer, format, words.as_bytes())?;
    tell_listed(writer, format, columns, places)
}

// Words, further words, and the names of columns after them.
#[tactic(auto, using(crate::proofs::SpelledLemmas::spelled_then))]
fn tell_key_words<W: Sink>(
    writer: &mut W,
    format: Format,
    words: &str,
    further: &str,
    columns: &[Column],
    places: &[u32],
) -> Result<(), DeviceFault>
    ensures { Writes (W.state writer.old) (W.state writer.new) result
        (spelled format (words.now ++ (further.now ++ names_listed columns.now places.now))) }
{
    tell(writer, format, words.as_bytes())?;
    tell_key(writer, format, further, columns, places)
}

fn tell_unique<W: Sink>(
    writer: &mut W,
    format: Format,
    columns: &[Column],
    nulls: NullTreatment,
    places: &[u32],
) -> Result<(), DeviceFault>
    ensures { Writes (W.state writer.old) (W.state writer.new) result
        (spelled format (codes "UNIQUE" ++ (nulls_words nulls ++ names_listed columns.now places.now))) }
{
    tell_key_words(
        writer,
        format,
        "UNIQUE",
        nulls_words(nulls),
        columns,
        places,
    )
}

fn table_name<'a>(table: Option<&'a Table>) -> &'a str
    ensures { result.now ≡ table_name (option_copied table.entry) }
{
    match table {
        Some(table) => table.name.as_str(),
        None => "",
    }
}

// The names of columns between these texts.
#[tactic(auto, using(crate::proofs::SpelledLemmas::spelled_then))]
fn tell_listed_between<W: Sink>(
    writer: &mut W,
    format: Format,
    before: &str,
    columns: &[Column],
    places: &[u32],
    after: &str,
) -> Result<(), DeviceFault>
    ensures { Writes (W.state writer.old) (W.state writer.new) result
        (spelled format (before.now ++ (names_listed columns.now places.now ++ after.now))) }
{
    tell(writer, format, before.as_bytes())?;
    tell_listed(writer, format, columns, places)?;
    tell(writer, format, after.as_bytes())
}

// The columns that a foreign key refers to, after their table.
fn tell_referenced<W: Sink>(
    writer: &mut W,
    format: Format,
    table: Option<&Table>,
    key: &ForeignKey,
) -> Result<(), DeviceFault>
    ensures { Writes (W.state writer.old) (W.state writer.new) result
        (spelled format (table_name (option_copied table.entry)
        ++ (names_listed (columns_of (option_copied table.entry)) key.now.key ++ match_words key.now.matching))) }
{
    tell_listed_between(
        writer,
        format,
        table_name(table),
        columns_of(table),
        key.key.as_slice(),
        match_words(key.matching),
    )
}

// The same after these words.
#[tactic(auto, using(crate::proofs::SpelledLemmas::spelled_then))]
fn tell_referenced_after<W: Sink>(
    writer: &mut W,
    format: Format,
    words: &str,
    table: Option<&Table>,
    key: &ForeignKey,
) -> Result<(), DeviceFault>
    ensures { Writes (W.state writer.old) (W.state writer.new) result
        (spelled format (words.now ++ (table_name (option_copied table.entry)
        ++ (names_listed (columns_of (option_copied table.entry)) key.now.key ++ match_words key.now.matching)))) }
{
    tell(writer, format, words.as_bytes())?;
    tell_referenced(writer, format, table, key)
}

// The table and the columns that a foreign key refers to.
#[tactic(auto, unfolding(crate::specs::Rules::references_words))]
fn tell_references<W: Sink>(
    writer: &mut W,
    format: Format,
    catalogue: &Catalogue,
    key: &ForeignKey,
) -> Result<(), DeviceFault>
    ensures { Writes (W.state writer.old) (W.state writer.new) result
        (spelled format (references_words catalogue.now key.now)) }
{
    tell_referenced_after(
        writer,
        format,
        " REFERENCES ",
        catalogue.table(key.referenced),
        key,
    )
}

// A foreign key after these words.
#[tactic(auto, using(crate::proofs::SpelledLemmas::spelled_then))]
fn tell_foreign_key<W: Sink>(
    writer: &mut W,
    format: Format,
    words: &str,
    catalogue: &Catalogue,
    columns: &[Column],
    key: &ForeignKey,
) -> Result<(), DeviceFault>
    ensures { Writes (W.state writer.old) (W.state writer.new) result
        (spelled format (words.now ++ (names_listed columns.now key.now.columns ++ references_words catalogue.now key.now))) }
{
    tell(writer, format, words.as_bytes())?;
    tell_listed(writer, format, columns, key.columns.as_slice())?;
    tell_references(writer, format, catalogue, key)
}

// What a rule asks of a row of a table with these columns.
fn tell_rule<W: Sink>(
    writer: &mut W,
    format: Format,
    catalogue: &Catalogue,
    columns: &[Column],
    rule: &Rule,
) -> Result<(), DeviceFault>
    ensures { Writes (W.state writer.old) (W.state writer.new) result
        (spelled format (rule_words catalogue.now columns.now rule.now)) }
{
    match rule {
        Rule::NotNull(column) => {
            tell_both(writer, format, b"NOT NULL ", name_at(columns, *column))
        }
        Rule::Check(_) => tell(writer, format, b"CHECK"),
        Rule::Unique(nulls, places) => {
            tell_unique(writer, format, columns, *nulls, places.as_slice())
        }
        Rule::PrimaryKey(places) => tell_key(
            writer,
            format,
            "PRIMARY KEY",
            columns,
            places.as_slice(),
        ),
        Rule::ForeignKey(key) => tell_foreign_key(
            writer,
            format,
            "FOREIGN KEY",
            catalogue,
            columns,
            key,
        ),
    }
}

/// Writes what a constraint asks of a row.
pub fn tell_constraint<W: Sink>(
    writer: &mut W,
    format: Format,
    catalogue: &Catalogue,
    constraint: &Constraint,
) -> Result<(), DeviceFault>
    ensures { Writes (W.state writer.old) (W.state writer.new) result
        (spelled format (constraint_words catalogue.now constraint.now)) }
{
    let columns = columns_of(catalogue.table(constraint.table));
    tell_rule(writer, format, catalogue, columns, &constraint.rule)
}

// ---- names that were generated

fn begins_with_digit(text: &[u8]) -> bool
    ensures { result ≡ begins_with_digit text.now }
{
    match text {
        [] => false,
        [first, ..] => first.is_ascii_digit(),
    }
}

// Whether a name begins as one that was generated for a constraint of this table.
fn is_generated(table: &str, name: &str) -> bool
    ensures { result ≡ has_number (after_front table.now name.now) }
{
    match name.as_bytes().strip_prefix(table.as_bytes()) {
        Some(rest) => match rest.strip_prefix(b"_C") {
            Some(digits) => begins_with_digit(digits),
            None => false,
        },
        None => false,
    }
}

// What a constraint asks, in words.
#[tactic(auto, unfolding(crate::specs::Spelled::spelled))]
fn write_constraint<W: Sink>(
    sink: &mut W,
    catalogue: &Catalogue,
    constraint: &Constraint,
) -> Result<(), DeviceFault>
    ensures { Writes (W.state sink.old) (W.state sink.new) result
        (constraint_words catalogue.now constraint.now) }
{
    tell_constraint(sink, Format::Words, catalogue, constraint)
}

// The same in parentheses, if it is asked for.
#[tactic(auto, using(crate::proofs::WriteLemmas::writes_then))]
fn write_words_if<W: Sink>(
    sink: &mut W,
    catalogue: &Catalogue,
    asked: bool,
    constraint: &Constraint,
) -> Result<(), DeviceFault>
    ensures { Writes (W.state sink.old) (W.state sink.new) result
        (words_if asked (constraint_words catalogue.now constraint.now)) }
{
    if asked {
        write_all(sink, b" (")?;
        write_constraint(sink, catalogue, constraint)?;
        write_all(sink, b")")
    } else {
        write_nothing(sink)
    }
}

/// A constraint by its name, and what it asks, if the name was generated.
#[tactic(auto, using(crate::proofs::WriteLemmas::writes_then))]
pub fn write_named<W: Sink>(
    sink: &mut W,
    catalogue: &Catalogue,
    constraint: &Constraint,
) -> Result<(), DeviceFault>
    ensures { Writes (W.state sink.old) (W.state sink.new) result
        (described_text catalogue.now (Some constraint.now)) }
{
    let name = constraint.name.as_str();
    let generated = is_generated(table_name(catalogue.table(constraint.table)), name);
    write_all(sink, name.as_bytes())?;
    write_words_if(sink, catalogue, generated, constraint)
}

fn write_if_there<W: Sink>(
    sink: &mut W,
    catalogue: &Catalogue,
    constraint: Option<&Constraint>,
) -> Result<(), DeviceFault>
    ensures { Writes (W.state sink.old) (W.state sink.new) result
        (described_text catalogue.now (option_copied constraint.entry)) }
{
    match constraint {
        Some(constraint) => write_named(sink, catalogue, constraint),
        None => write_nothing(sink),
    }
}

/// A constraint of the catalogue by its name, and what it asks, if the name was generated.
pub fn write_described<W: Sink>(
    sink: &mut W,
    catalogue: &Catalogue,
    id: ConstraintId,
) -> Result<(), DeviceFault>
    ensures { Writes (W.state sink.old) (W.state sink.new) result
        (described_text catalogue.now (slice_get catalogue.now.constraints id)) }
{
    write_if_there(sink, catalogue, catalogue.constraint(id))
}
