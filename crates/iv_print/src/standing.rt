//! The line of the savepoints that stand.
ghost use Rattle.std.specs.Prelude.{◌≡◌, ◌++◌};
ghost use Rattle.std.specs.List.{flat_map};
ghost use Rattle.iv_print.specs.AccountLines.{further_savepoint, standing_line, standing_words};
ghost use Rattle.iv_text.specs.Writing.{Writes};

use crate::account::write_indent;
use iv_syntax::Name;
use iv_text::{DeviceFault, Sink, write_all};

#[tactic(auto, using(iv_text::proofs::WriteLemmas::writes_then))]
fn write_further<W: Sink>(sink: &mut W, name: &Name) -> Result<(), DeviceFault>
    ensures { Writes (W.state sink.old) (W.state sink.new) result (further_savepoint name.now) }
{
    write_all(sink, b", ")?;
    write_all(sink, name.as_str().as_bytes())
}

// Further names, each after a comma.
#[tactic(auto, using(iv_text::proofs::WriteLemmas::writes_then))]
fn write_more<W: Sink>(sink: &mut W, names: &[Name]) -> Result<(), DeviceFault>
    ensures { Writes (W.state sink.old) (W.state sink.new) result
        (flat_map further_savepoint names.now) }
{
    let mut rest = names;
    while let Some((name, others)) = rest.split_first() {
        write_further(sink, name)?;
        rest = others;
    }
    Ok(())
}

// These words, the first name, and further ones.
#[tactic(auto, using(iv_text::proofs::WriteLemmas::writes_then))]
fn write_names<W: Sink>(
    sink: &mut W,
    words: &[u8],
    name: &Name,
    more: &[Name],
) -> Result<(), DeviceFault>
    ensures { Writes (W.state sink.old) (W.state sink.new) result
        (words.now ++ (name.now ++ flat_map further_savepoint more.now)) }
{
    write_all(sink, words)?;
    write_all(sink, name.as_str().as_bytes())?;
    write_more(sink, more)
}

fn write_words<W: Sink>(sink: &mut W, names: &[Name]) -> Result<(), DeviceFault>
    ensures { Writes (W.state sink.old) (W.state sink.new) result (standing_words names.now) }
{
    match names.split_first() {
        Some((name, more)) => write_names(sink, b"savepoints that stand: ", name, more),
        None => write_all(sink, b"no savepoint stands"),
    }
}

/// The line of the savepoints that stand.
#[tactic(auto, using(iv_text::proofs::WriteLemmas::writes_then))]
pub(crate) fn write_standing<W: Sink>(
    sink: &mut W,
    depth: usize,
    names: &[Name],
) -> Result<(), DeviceFault>
    ensures { Writes (W.state sink.old) (W.state sink.new) result (standing_line depth names.now) }
{
    write_indent(sink, depth)?;
    write_words(sink, names)?;
    write_all(sink, b"\n")
}
