//! A script that is read and not run.
ghost use Rattle.std.specs.Prelude.{◌≡◌, ◌≢◌, ◌+◌, ◌-◌, ◌<◌, ◌≤◌, ◌^◌, List, ℕ, length, option_map, IfErr, IfOk, IfSome, IsErrOf, OnErr, OnOk};
ghost use Rattle.std.specs.Str.{IsUtf8};
ghost use Rattle.iv_text.specs.Counts.{counted};
ghost use Rattle.iv_script.specs.Lengths.{Fits};
ghost use Rattle.iv_write.specs.Scripts.{AllCanBeWritten};
ghost use Rattle.iv_program.specs.Reads.{IsRead, RefusesBytes, Unread, fault_seen};

use iv_parse::{Parsed, SyntaxFault, script};
use iv_script::{LONGEST, Place, RunFault, place_at};
use iv_syntax::Statement;
use iv_text::Source;
use iv_write::laws::what_is_read_can_be_written;
use std::alloc::Global;
use std::str::from_utf8;

/// Where a script ceases to be statements.
#[derive(Clone, Copy, Debug, PartialEq, Eq)]
pub struct ScriptFault {
    /// The number of the statement that can't be read, from 1.
    pub number: u64,
    /// Where the first word is that can't stand where it does.
    pub place: Place,
}

/// A script that was read.
pub struct Script {
    pub parsed: Parsed,
    pub fault: Option<ScriptFault>,
}

impl Drop for Script {
    fn drop(self) {
        let Script { parsed, fault: _ } = self;
        drop(parsed);
    }
}

// Reads all bytes, at most `LONGEST`.
fn read_bytes<R: Source>(alloc: Global, reader: &mut R) -> Result<Vec<u8>, RunFault>
    ensures all { IfOk result (λ v. IfSome (R.remaining reader.old) (λ xs. v.items ≡ xs)) }
    ensures short { IfOk result (λ v. length v.items ≤ LONGEST) }
    ensures too_long { IsErrOf result RunFault.TooLong
        → IfSome (R.remaining reader.old) (λ xs. LONGEST < length xs) }
    ensures fault { IsErrOf result RunFault.Read
        → R.failed reader.new ≡ counted (R.failed reader.old) 1 }
    ensures others { ¬ (IsErrOf result RunFault.Read) → R.failed reader.new ≡ R.failed reader.old }
    ensures kinds { IfErr result (λ e. (e ≢ RunFault.NotUtf8) × (e ≢ RunFault.Write)) }
{
    let mut bytes = Vec::new(alloc);
    loop {
        let room = LONGEST + 1 - bytes.len();
        if room == 0 {
            return Err(RunFault::TooLong);
        }
        let mut buffer = [0u8; 4096];
        let wanted = room.min(4096);
        let count = match reader.read(&mut buffer[..wanted]) {
            Ok(count) => count,
            Err(_) => return Err(RunFault::Read),
        };
        if count == 0 {
            break;
        }
        bytes.extend_from_slice(&buffer[..count])?;
    }
    Ok(bytes)
}

// The fault of a text in the statement with this number.
fn fault_seen(text: &str, number: u64, fault: SyntaxFault) -> ScriptFault
    ensures { result ≡ fault_seen text.now number fault }
{
    ScriptFault {
        number,
        place: place_at(text, fault.word),
    }
}

fn fault_in(text: &str, statements: &[Statement], fault: Option<SyntaxFault>) -> Option<ScriptFault>
    ensures { result ≡ option_map (fault_seen text.now (length statements.now + 1)) fault }
{
    let number = statements.len() as u64 + 1;
    match fault {
        Some(fault) => Some(fault_seen(text, number, fault)),
        None => None,
    }
}

fn read_text(alloc: Global, text: &str) -> Result<Script, RunFault>
    ensures read { IfOk result (λ s. IsRead text.now s.parsed.statements s.fault) }
    ensures writable { IfOk result (λ s. AllCanBeWritten s.parsed.statements) }
    ensures kinds { IfErr result (λ e. e ≡ RunFault.NoMemory) }
{
    what_is_read_can_be_written();
    let parsed = script(alloc, text)?;
    let fault = fault_in(text, parsed.statements.as_slice(), parsed.fault);
    Ok(Script { parsed, fault })
}

fn read_utf8(alloc: Global, bytes: &[u8]) -> Result<Script, RunFault>
    ensures read { IfOk result (λ s. IsRead bytes.now s.parsed.statements s.fault) }
    ensures writable { IfOk result (λ s. AllCanBeWritten s.parsed.statements) }
    ensures utf8 { OnOk result (IsUtf8 bytes.now) }
    ensures refused { IfErr result (λ fault. RefusesBytes fault bytes.now) }
{
    match from_utf8(bytes) {
        Ok(text) => read_text(alloc, text),
        Err(_) => Err(RunFault::NotUtf8),
    }
}

/// Reads a whole script.
pub fn read_script<R: Source>(alloc: Global, reader: &mut R) -> Result<Script, RunFault>
    ensures read { IfOk result (λ s. IfSome (R.remaining reader.old)
        (λ bytes. IsRead bytes s.parsed.statements s.fault)) }
    ensures writable { IfOk result (λ s. AllCanBeWritten s.parsed.statements) }
    ensures fits { OnOk result (IfSome (R.remaining reader.old) (λ bytes. Fits LONGEST bytes)) }
    ensures works { OnOk result (R.failed reader.new ≡ R.failed reader.old) }
    ensures unread { IfErr result (λ fault.
        Unread LONGEST fault (R.remaining reader.old) (R.failed reader.old) (R.failed reader.new)) }
{
    match read_bytes(alloc, reader) {
        Ok(bytes) => read_utf8(alloc, bytes.as_slice()),
        Err(fault) => Err(fault),
    }
}
