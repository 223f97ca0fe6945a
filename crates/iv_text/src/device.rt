//! Readers and writers of bytes that count their failed calls.
ghost use Rattle.std.specs.Prelude.{◌≡◌, ℕ, ◌+◌, ◌<◌, ◌≤◌, ◌^◌, ◌-◌, List, length, max, Option, None, OnOk, OnErr, IfOk};
ghost use Rattle.std.specs.Io.{ReadsAtMost, WritesAtMost};
ghost use Rattle.std.specs.Io.KnownBytes.{ReadConsumes, WriteAppends};
ghost use Rattle.iv_text.specs.Counts.{counted, ends_after};
ghost use Rattle.iv_text.specs.Sinks.{SinkState, sink_state, FailsOnce, FailsNever};
ghost use Rattle.iv_text.specs.Devices.{inner_of, failed_count, given_count, asked_count, ends_count};

use std::io::{Read, Write};

/// A call of a device that failed.
#[derive(Clone, Copy, Debug, PartialEq, Eq)]
pub struct DeviceFault;

/// Where bytes come from. Its counts stay at 2^64 - 1 once they are there.
pub trait Source {
    // how many calls have failed
    ghost failed: { Self → ℕ };

    // how many bytes calls have given
    ghost given: { Self → ℕ };

    // up to which byte calls have asked
    ghost asked: { Self → ℕ };

    // how many calls have reported the end
    ghost ends: { Self → ℕ };

    // the bytes that reads will give from here on, where they are known
    ghost remaining: { Self → Option (List ℕ) } = { λ _. None };

    /// Reads some bytes into the buffer: none at the end, or where it has no room. An interrupted read
    /// is a fault like every other.
    fn read(&mut self, buffer: &mut [u8]) -> Result<usize, DeviceFault>
        ensures bound { ReadsAtMost result buffer.new }
        ensures bytes { ReadConsumes (remaining self.old) (remaining self.new) result buffer.new }
        ensures works { OnOk result (failed self.new ≡ failed self.old) }
        ensures fails { OnErr result (failed self.new ≡ counted (failed self.old) 1) }
        ensures gives { IfOk result (λ n. given self.new ≡ counted (given self.old) n) }
        ensures gives_none { OnErr result (given self.new ≡ given self.old) }
        ensures asks { asked self.new
            ≡ max (asked self.old) (counted (given self.old) (length buffer.old)) }
        ensures ends { IfOk result (λ n.
            ends self.new ≡ ends_after (ends self.old) (length buffer.old) n) }
        ensures ends_none { OnErr result (ends self.new ≡ ends self.old) };
}

/// Where bytes go. Its count of failed calls stays at 2^64 - 1 once it is there.
pub trait Sink {
    // the bytes that the sink holds, where they are known, and how many calls have failed
    ghost state: { Self → SinkState };

    /// Writes some of the bytes, at least one where there are any.
    fn write(&mut self, bytes: &[u8]) -> Result<usize, DeviceFault>
        ensures bound { WritesAtMost result bytes.now }
        ensures some { IfOk result (λ n. 0 < length bytes.now → 0 < n) }
        ensures bytes { WriteAppends (state self.old).contents (state self.new).contents result
            bytes.now }
        ensures works { OnOk result (FailsNever (state self.old) (state self.new)) }
        ensures fails { OnErr result (FailsOnce (state self.old) (state self.new)) };
}

/// A reader or a writer of the standard library as a device. A call fails where the one under it fails,
/// and where a writer takes none of some bytes.
#[derive(Drop)]
pub struct Std<T> {
    inner: T,
    failed: u64,
    given: u64,
    asked: u64,
    ends: u64,
}

impl<T> Std<T> {
    /// The device over this reader or writer, of which nothing was asked yet.
    pub fn new(inner: T) -> Self
        ensures inner { inner_of result ≡ inner }
        ensures failed { failed_count result ≡ 0 }
        ensures given { given_count result ≡ 0 }
        ensures asked { asked_count result ≡ 0 }
        ensures ends { ends_count result ≡ 0 }
    {
        Std {
            inner,
            failed: 0,
            given: 0,
            asked: 0,
            ends: 0,
        }
    }

    /// The reader or the writer.
    pub fn into_inner(self) -> T
        ensures { result ≡ inner_of self }
    {
        let Std { inner, .. } = self;
        inner
    }
}

impl<R: Read> Source for Std<R> {
    ghost failed = { failed_count };

    ghost given = { given_count };

    ghost asked = { asked_count };

    ghost ends = { ends_count };

    ghost remaining = { λ device. R.remaining (inner_of device) };

    fn read(&mut self, buffer: &mut [u8]) -> Result<usize, DeviceFault> {
        self.asked = self
            .asked
            .max(self.given.saturating_add(buffer.len() as u64));
        let has_room = !buffer.is_empty();
        match self.inner.read(buffer) {
            Ok(count) => {
                self.given = self.given.saturating_add(count as u64);
                if count == 0 && has_room {
                    self.ends = self.ends.saturating_add(1);
                }
                Ok(count)
            }
            Err(_) => {
                self.failed = self.failed.saturating_add(1);
                Err(DeviceFault)
            }
        }
    }
}

impl<W: Write> Sink for Std<W> {
    ghost state = { λ device. sink_state (W.contents (inner_of device)) (failed_count device) };

    fn write(&mut self, bytes: &[u8]) -> Result<usize, DeviceFault> {
        match self.inner.write(bytes) {
            Ok(count) if count > 0 || bytes.is_empty() => Ok(count),
            _ => {
                self.failed = self.failed.saturating_add(1);
                Err(DeviceFault)
            }
        }
    }
}
