//! The savepoints that stand, as JSON.
ghost use Rattle.std.specs.Prelude.{◌≡◌};
ghost use Rattle.std.specs.List.{flat_map};
ghost use Rattle.iv_print.specs.JsonAccounts.{further_name, json_names, standing_entry};
ghost use Rattle.iv_text.specs.Writing.{Writes};

use crate::json_account::write_entry_key;
use iv_syntax::Name;
use iv_text::json::{write_json_text, write_member};
use iv_text::{DeviceFault, Sink, write_all, write_nothing};

#[tactic(auto, using(iv_text::proofs::WriteLemmas::writes_then))]
fn write_further<W: Sink>(sink: &mut W, name: &Name) -> Result<(), DeviceFault>
    ensures { Writes (W.state sink.old) (W.state sink.new) result (further_name name.now) }
{
    write_all(sink, b",")?;
    write_json_text(sink, name.as_str().as_bytes())
}

// Further names, each after a comma.
#[tactic(auto, using(iv_text::proofs::WriteLemmas::writes_then))]
fn write_more<W: Sink>(sink: &mut W, names: &[Name]) -> Result<(), DeviceFault>
    ensures { Writes (W.state sink.old) (W.state sink.new) result
        (flat_map further_name names.now) }
{
    let mut rest = names;
    while let Some((name, others)) = rest.split_first() {
        write_further(sink, name)?;
        rest = others;
    }
    Ok(())
}

#[tactic(auto, using(iv_text::proofs::WriteLemmas::writes_then))]
fn write_names<W: Sink>(sink: &mut W, names: &[Name]) -> Result<(), DeviceFault>
    ensures { Writes (W.state sink.old) (W.state sink.new) result (json_names names.now) }
{
    match names {
        [] => write_nothing(sink),
        [name, more @ ..] => {
            write_json_text(sink, name.as_str().as_bytes())?;
            write_more(sink, more)
        }
    }
}

/// The entry of the savepoints that stand.
#[tactic(auto, using(iv_text::proofs::WriteLemmas::writes_then))]
pub(crate) fn write_standing<W: Sink>(sink: &mut W, names: &[Name]) -> Result<(), DeviceFault>
    ensures { Writes (W.state sink.old) (W.state sink.new) result (standing_entry names.now) }
{
    write_entry_key(sink, b"savepoints")?;
    write_member(sink, b"standing")?;
    write_all(sink, b"[")?;
    write_names(sink, names)?;
    write_all(sink, b"]}")
}
