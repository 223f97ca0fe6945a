//! What standard error is told of a file that can't be read.
ghost use Rattle.std.specs.Prelude.{◌≡◌};
ghost use Rattle.iv_text.specs.Writing.{Writes};
ghost use Rattle.iv_program.specs.Unread.{reason_text, unread_line};

use iv_text::{DeviceFault, Sink, write_all};
use std::fs::{File, Files, metadata};
use std::io::ErrorKind;

// Why the system didn't open a file.
fn reason(kind: ErrorKind) -> &'static str {
    if kind == ErrorKind::NotFound {
        return "no such file";
    }
    if kind == ErrorKind::PermissionDenied {
        return "permission denied";
    }
    if kind == ErrorKind::NotADirectory {
        return "a part of its path is no directory";
    }
    "the system refuses it"
}

#[tactic(auto, using(iv_text::proofs::WriteLemmas::writes_then))]
fn write_reason<E: Sink>(faults: &mut E, reason: &str) -> Result<(), DeviceFault>
    ensures { Writes (E.state faults.old) (E.state faults.new) result (reason_text reason.now) }
{
    write_all(faults, b": ")?;
    write_all(faults, reason.as_bytes())?;
    write_all(faults, b"\n")
}

// Writes the line that says why a file can't be read.
#[tactic(auto, using(iv_text::proofs::WriteLemmas::writes_then))]
fn write_unread<E: Sink>(faults: &mut E, name: &str, reason: &str) -> Result<(), DeviceFault>
    ensures { Writes (E.state faults.old) (E.state faults.new) result (unread_line name.now reason.now) }
{
    write_all(faults, b"sqlkeep: cannot read ")?;
    write_all(faults, name.as_bytes())?;
    write_reason(faults, reason)
}

fn is_plain(character: char) -> bool {
    !character.is_control()
}

// A name as it may be shown on a terminal: one with a control character isn't shown.
fn shown_name(name: &str) -> &str {
    if name.chars().all(is_plain) {
        name
    } else {
        "the file"
    }
}

/// Opens a file to read it; if that fails, the answer is why.
pub fn opened<H: Files>(rt: &H, name: &str) -> Result<H::File, &'static str> {
    if let Ok(found) = metadata(rt, name)
        && found.is_dir()
    {
        return Err("it is a directory");
    }
    match File::open(rt, name) {
        Ok(file) => Ok(file),
        Err(error) => Err(reason(error.kind())),
    }
}

/// Tells why the file of this name can't be read. The answer is the status of the program.
pub fn refuse_file<E: Sink>(faults: &mut E, name: &str, why: &str) -> u8
    ensures { result ≡ 2 }
{
    let _ = write_unread(faults, shown_name(name), why);
    2
}
