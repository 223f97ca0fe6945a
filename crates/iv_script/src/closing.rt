//! The lines after those of a script's statements.
ghost use Rattle.std.specs.Prelude.{◌≡◌, ◌+◌, ◌++◌, ◌<◌, ◌^◌, option_map};
ghost use Rattle.iv_text.specs.Writing.{Writes};
ghost use Rattle.iv_script.specs.Transcript.{closing_in, closing_text, end_line, fault_line};

use crate::fault_line::write_fault_place;
use crate::json_line::write_json_closing;
use iv_parse::SyntaxFault;
use iv_text::{DeviceFault, Format, Sink, Style, write_all, write_nothing, write_number};

// Writes the line of a fault after so many statements.
#[tactic(auto, using(iv_text::proofs::WriteLemmas::writes_then))]
fn write_fault<W: Sink>(
    writer: &mut W,
    count: u64,
    fault: Option<SyntaxFault>,
) -> Result<(), DeviceFault>
    requires { count < 2 ^ 63 }
    ensures { Writes (W.state writer.old) (W.state writer.new) result
        (fault_line count (option_map (λ f. f.at) fault)) }
{
    match fault {
        None => write_nothing(writer),
        Some(fault) => {
            write_number(writer, count + 1)?;
            write_all(writer, b" fault ")?;
            write_number(writer, fault.at as u64)?;
            write_all(writer, b"\n")
        }
    }
}

// Writes the line of a transaction that is open at the end.
fn write_end<W: Sink>(writer: &mut W, is_open: bool) -> Result<(), DeviceFault>
    ensures { Writes (W.state writer.old) (W.state writer.new) result (end_line is_open) }
{
    if is_open {
        write_all(writer, b"end rolled back\n")
    } else {
        write_nothing(writer)
    }
}

// The lines in words.
#[tactic(auto, using(iv_text::proofs::WriteLemmas::writes_then))]
fn write_words<W: Sink>(
    writer: &mut W,
    explain: bool,
    text: &str,
    count: u64,
    fault: Option<SyntaxFault>,
    is_open: bool,
) -> Result<(), DeviceFault>
    requires { count < 2 ^ 63 }
    ensures { Writes (W.state writer.old) (W.state writer.new) result
        (closing_text explain text.now count fault is_open) }
{
    write_fault(writer, count, fault)?;
    write_fault_place(writer, explain, text, fault)?;
    write_end(writer, is_open)
}

/// Writes the lines after those of so many statements: of the fault of this text, and of a transaction that is open.
pub fn write_closing<W: Sink>(
    writer: &mut W,
    style: Style,
    text: &str,
    count: u64,
    fault: Option<SyntaxFault>,
    is_open: bool,
) -> Result<(), DeviceFault>
    requires { count < 2 ^ 63 }
    ensures { Writes (W.state writer.old) (W.state writer.new) result
        (closing_in style.format style.explain text.now count fault is_open) }
{
    match style.format {
        Format::Words => write_words(writer, style.explain, text, count, fault, is_open),
        Format::Json => write_json_closing(writer, text, count, fault, is_open),
    }
}
