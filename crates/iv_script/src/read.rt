//! A whole script, read from a device.
ghost use Rattle.std.specs.Prelude.{◌≡◌, ◌≢◌, ◌+◌, ◌-◌, ◌<◌, ◌≤◌, List, ℕ, length, max, IfErr, IfOk, IfSome, IsErrOf, OnOk, OnErr};
ghost use Rattle.iv_text.specs.Counts.{counted};

use crate::summary::RunFault;
use iv_text::Source;
use std::alloc::Global;

/// The most bytes that a script may have.
pub const LONGEST: usize = 1_048_576;

/// Reads a whole script of at most `LONGEST` bytes, and asks for at most one byte more.
pub fn read_script<R: Source>(alloc: Global, reader: &mut R) -> Result<Vec<u8>, RunFault>
    ensures all { IfOk result (λ v. IfSome (R.remaining reader.old) (λ xs. v.items ≡ xs)) }
    ensures short { IfOk result (λ v. length v.items ≤ LONGEST) }
    ensures too_long { IsErrOf result RunFault.TooLong
        → IfSome (R.remaining reader.old) (λ xs. LONGEST < length xs) }
    ensures fault { IsErrOf result RunFault.Read
        → R.failed reader.new ≡ counted (R.failed reader.old) 1 }
    ensures others { ¬ (IsErrOf result RunFault.Read) → R.failed reader.new ≡ R.failed reader.old }
    ensures asked { R.asked reader.new
        ≤ max (R.asked reader.old) (R.given reader.old + (LONGEST + 1)) }
    ensures kinds { IfErr result (λ e. (e ≢ RunFault.NotUtf8) × (e ≢ RunFault.Write)) }
    ensures ended { OnOk result (R.ends reader.new ≡ counted (R.ends reader.old) 1) }
    ensures not_ended { OnErr result (R.ends reader.new ≡ R.ends reader.old) }
{
    let mut script = Vec::new(alloc);
    loop {
        let room = LONGEST + 1 - script.len();
        if room == 0 {
            return Err(RunFault::TooLong);
        }
        let mut buffer = [0u8; 4096];
        let wanted = room.min(4096);
        let count = match reader.read(&mut buffer[..wanted]) {
            Ok(count) => count,
            Err(_) => return Err(RunFault::Read),
        };
        if count == 0 {
            break;
        }
        script.extend_from_slice(&buffer[..count])?;
    }
    Ok(script)
}
