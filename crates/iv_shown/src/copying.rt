//! Bytes that are copied to C.
ghost use Rattle.std.specs.Prelude.{◌≡◌, ◌≢◌, IfSome, option_copied};
ghost use Rattle.iv_shown.specs.Copying.{Copies};
ghost use Rattle.iv_shown.specs.Statuses.{found};

use crate::status::{NOTHING, OK};

/// Copies as many of the bytes from this place on as the buffer has room for, and answers how many.
pub fn copied(bytes: &[u8], from: usize, buffer: &mut [u8]) -> usize
    ensures { Copies from bytes.now buffer.old buffer.new result }
{
    let rest = &bytes[from.min(bytes.len())..];
    let count = rest.len().min(buffer.len());
    buffer[..count].copy_from_slice(&rest[..count]);
    count
}

/// Copies bytes from this place on, where there are some. Otherwise it writes nothing.
pub fn copied_if_there(
    bytes: Option<&[u8]>,
    from: usize,
    buffer: &mut [u8],
    count: &mut usize,
) -> u32
    ensures bytes { IfSome (option_copied bytes.entry) (λ there.
        Copies from there buffer.old buffer.new count.new) }
    ensures others { result ≢ OK → (buffer.new ≡ buffer.old) × (count.new ≡ count.old) }
    ensures status { result ≡ found (option_copied bytes.entry) }
{
    match bytes {
        Some(bytes) => {
            *count = copied(bytes, from, buffer);
            OK
        }
        None => NOTHING,
    }
}
